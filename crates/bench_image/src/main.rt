// Reads an image of the greatest size and writes it back, many times over in memory, for timing.
// It prints the last answer and the last length.
#![tactic(auto)]

ghost use Rattle.std.specs.Prelude.{◌≤◌, length};

use book::{Book, ImageError};
use std::rt::{Clock, Files};
use std::{fs, io};

const IMAGE: usize = 5399;

// Reads the image over the book held, and writes the resulting book; returns the length of what was written.
fn one_turn(held: &mut Book, image: &[u8]) -> (Result<(), ImageError>, usize) {
    let mut out = [0u8; IMAGE];
    let read = image_read::read(held, image);
    (read, image_write::write(held, &mut out).unwrap_or(0))
}

fn turns(image: &[u8]) -> (Result<(), ImageError>, usize) {
    let mut held = book::blank_book();
    let mut last = (Ok(()), 0);
    for _ in 0..20000 {
        last = one_turn(&mut held, image);
    }
    last
}

// Reads full.rbk to the start of image, and returns how many bytes. A file that cannot be opened counts as empty.
fn read_image(rt: &(impl Clock + Eprint + Files), image: &mut [u8; IMAGE]) -> usize
    ensures { result ≤ length image.new }
{
    match fs::open(rt, "full.rbk") {
        Ok(mut file) => stream::read_all(rt, &mut file, b"full.rbk", image).unwrap_or(0),
        Err(_) => 0,
    }
}

fn main(rt: HostRuntime) -> io::Result<()> {
    let mut image = [0u8; IMAGE];
    let n = read_image(&rt, &mut image);
    let (read, length) = turns(&image[..n]);
    match read {
        Ok(()) => println!(rt; "0 {length}"),
        Err(e) => println!(rt; "{} {length}", u8::from(e)),
    }
}
