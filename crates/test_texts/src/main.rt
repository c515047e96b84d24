// Reads the stored texts of cases.bin in turn and prints one line for each: the number of a refusal, or 0, the number of elements and
// the bytes, in hexadecimal, of the image of the text's book.
#![tactic(auto)]

use std::fs;
use std::io::{self, Read};
use xml_image::{ImportError, Imported};

const IMAGE: usize = 5399;

const BUFFER: usize = 65536;

// The length in the next four bytes of the file, if there are that many.
fn read_length<F: Read>(file: &mut F) -> Option<usize> {
    let mut h = [0u8; 4];
    match file.read_exact(&mut h) {
        Ok(_) => Some(u32::from_be_bytes(h) as usize),
        Err(_) => None,
    }
}

fn print_byte(rt: &impl Print, b: u8) -> io::Result<()> {
    print!(rt; "{b:02x}")
}

fn print_bytes(rt: &impl Print, bytes: &[u8]) -> io::Result<()> {
    for b in bytes {
        print_byte(rt, *b)?;
    }
    Ok(())
}

// Prints the line of a text and the image of its book.
fn print_line(
    rt: &impl Print,
    read: Result<Imported, ImportError>,
    image: &[u8],
) -> io::Result<()> {
    match read {
        Ok(r) => {
            let elements = r.elements;
            print!(rt; "0 {elements} ")?;
            print_bytes(rt, image.get(..r.length).unwrap_or(&[]))?;
        }
        Err(e) => {
            let code = u8::from(e);
            print!(rt; "{code}")?;
        }
    }
    println!(rt; "")
}

// Prints the line for one text.
fn answer(rt: &impl Print, text: &[u8]) -> io::Result<()> {
    let mut image = [0u8; IMAGE];
    let r = xml_image::import_text(text, &mut image);
    print_line(rt, r, &image)
}

// One case: its length in four bytes, then the text. Whether there was one.
fn one_case<F: Read>(rt: &impl Print, file: &mut F) -> io::Result<bool> {
    let Some(n) = read_length(file) else {
        return Ok(false);
    };
    let mut buf = [0u8; BUFFER];
    if let Some(text) = buf.get_mut(..n) {
        let _ = file.read_exact(text);
        answer(rt, text)?;
    }
    Ok(true)
}

// A proved loop has to end, and nothing guarantees that a file does: no more cases than this are read.
fn cases<F: Read>(rt: &impl Print, file: &mut F) -> io::Result<()> {
    for _ in 0..1000000 {
        if !one_case(rt, file)? {
            break;
        }
    }
    Ok(())
}

fn main(rt: HostRuntime) -> io::Result<()> {
    match fs::open(&rt, "cases.bin") {
        Ok(mut file) => cases(&rt, &mut file),
        Err(_) => println!(rt; "no cases.bin"),
    }
}
