// Reads the stored images of cases.bin in turn and prints one line for each: the number of a refusal,
// or 0 and the bytes, in hexadecimal, that the book read from it is written back as.
// Each image is read with the last accepted book held; a refusal that does not return that book is marked.
#![tactic(auto)]

use book::Book;
use std::fs;
use std::io::{self, Read};

const IMAGE: usize = 5399;

// Room for what a case's length in two bytes can say.
const BUFFER: usize = 65536;

fn print_byte(rt: &impl Print, b: u8) -> io::Result<()> {
    print!(rt; "{b:02x}")
}

fn print_bytes(rt: &impl Print, bytes: &[u8]) -> io::Result<()> {
    for b in bytes {
        print_byte(rt, *b)?;
    }
    Ok(())
}

fn print_accepted(rt: &impl Print, b: Book) -> io::Result<()> {
    let mut back = [0u8; IMAGE];
    print!(rt; "0 ")?;
    if let Ok(n) = image_write::write(&b, &mut back) {
        print_bytes(rt, back.get(..n).unwrap_or(&[]))?;
    }
    println!(rt; "")
}

fn print_refused(rt: &impl Print, code: u8, kept: bool) -> io::Result<()> {
    print!(rt; "{code}")?;
    if !kept {
        print!(rt; " changed")?;
    }
    println!(rt; "")
}

// Prints the line for one image and returns the book held from then on.
fn answer(rt: &impl Print, held: Book, image: &[u8]) -> io::Result<Book> {
    let mut after = held;
    match image_read::read(&mut after, image) {
        Ok(()) => print_accepted(rt, after)?,
        Err(e) => print_refused(rt, u8::from(e), after == held)?,
    }
    Ok(after)
}

// One case: its length in two bytes, then the image. None at the end of the file.
fn one_case<F: Read>(rt: &impl Print, file: &mut F, held: Book) -> io::Result<Option<Book>> {
    let mut head = [0u8; 2];
    if file.read_exact(&mut head).is_err() {
        return Ok(None);
    }
    let mut buf = [0u8; BUFFER];
    let image = &mut buf[..u16::from_be_bytes(head) as usize];
    let _ = file.read_exact(image);
    Ok(Some(answer(rt, held, image)?))
}

// A proved loop has to end, and nothing guarantees that a file does: no more cases than this are read.
fn cases<F: Read>(rt: &impl Print, file: &mut F) -> io::Result<()> {
    let mut held = book::blank_book();
    for _ in 0..1000000 {
        match one_case(rt, file, held)? {
            Some(next) => held = next,
            None => break,
        }
    }
    Ok(())
}

fn main(rt: HostRuntime) -> io::Result<()> {
    match fs::open(&rt, "cases.bin") {
        Ok(mut file) => cases(&rt, &mut file),
        Err(_) => println!(rt; "no cases.bin"),
    }
}
