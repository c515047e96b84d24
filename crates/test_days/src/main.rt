// Reads the stored days of days.bin in turn and prints, for each, a line `day N`, what the run program prints for that day, and a line
// `used CONTENT TIMES SECONDS` for each line of the report that is not as it was.
// Each day is answered twice: as one block, as the run program does it, with a line for each asset, and one event at a time on a book
// passed by value, with 64 lines lent as a list. Both begin with zeros. If the two differ, in the text, in the final book or in the final
// lines of the report, a line says so.
// A day is stored as the image's length (32 bits, big-endian), the image, the length of the event bytes (32 bits), and those bytes.
#![tactic(auto)]

use batch::Block;
use book::{Book, ImageError, Line, RECORD_SIZE};
use report::Report;
use std::fs;
use std::io::{self, Read};
use text::put_line;
use turn::OUT;

const BUFFER: usize = 65536;

// The length in the next four bytes of the file, if there are that many.
fn read_length<F: Read>(file: &mut F) -> Option<usize> {
    let mut h = [0u8; 4];
    file.read_exact(&mut h).ok()?;
    Some(u32::from_be_bytes(h) as usize)
}

// The next n bytes of the file, read to the start of buf. None if buf has no room for them or the file ends first.
fn read_bytes<'a, F: Read>(file: &mut F, n: usize, buf: &'a mut [u8]) -> Option<&'a [u8]> {
    if buf.len() < n {
        return None;
    }
    file.read_exact(&mut buf[..n]).ok()?;
    Some(&buf[..n])
}

fn load(image: &[u8]) -> Result<Book, ImageError> {
    let mut b = book::blank_book();
    image_read::read(&mut b, image)?;
    Ok(b)
}

// Answers the events one at a time, each on the book and with the lines that the one before it left.
fn answer_singly(b: Book, events: &[u8], out: &mut [u8], first: [Line; 64]) -> Block {
    let mut book = b;
    let mut lines = first;
    let mut at: usize = 0;
    for record in events.chunks(RECORD_SIZE) {
        let o = step::step_lent(book, record, &mut lines);
        book = o.book;
        at = put_line(out, at, o.answer);
    }
    Block {
        book: book,
        report: Report {
            lines: lines,
            lent: 64,
        },
        written: at,
    }
}

// Prints the lines that differ from what they were.
fn print_changes(rt: &impl Print, old: [Line; 64], lines: [Line; 64]) -> io::Result<()> {
    for (was, l) in old.iter().zip(lines.iter()) {
        if l != was {
            println!(rt; "used {} {} {}", l.content, l.times, l.seconds)?;
        }
    }
    Ok(())
}

// Prints the answers to the events of a day, and where the two ways differ.
fn print_answers(rt: &impl Print, b: Book, events: &[u8]) -> io::Result<()> {
    let mut out = [0u8; OUT];
    let mut singly = [0u8; OUT];
    let zeros = turn::zero_lines(b);
    let r = batch::answer_block(b, events, &mut out, zeros);
    let q = answer_singly(b, events, &mut singly, zeros.lines);
    if let Some(text) = out.get(..r.written) {
        rt.write_all(text)?;
    }
    if out != singly {
        println!(rt; "other answers one event at a time")?;
    }
    print_changes(rt, zeros.lines, r.report.lines)?;
    if r.book != q.book {
        println!(rt; "another book one event at a time")?;
    }
    if r.report.lines != q.report.lines {
        println!(rt; "another report one event at a time")?;
    }
    Ok(())
}

// What is left of a day behind the length of its image: the image and the events. None if the file ends first or one is too long.
fn read_day<'a, F: Read>(
    file: &mut F,
    n: usize,
    image: &'a mut [u8],
    events: &'a mut [u8],
) -> Option<(&'a [u8], &'a [u8])> {
    let first = read_bytes(file, n, image)?;
    let m = read_length(file)?;
    let second = read_bytes(file, m, events)?;
    Some((first, second))
}

// Prints the next day, if there is one.
fn one_day<F: Read>(rt: &impl Print, file: &mut F, number: u64) -> io::Result<bool> {
    let Some(n) = read_length(file) else {
        return Ok(false);
    };
    println!(rt; "day {number}")?;
    let mut image = [0u8; BUFFER];
    let mut events = [0u8; BUFFER];
    let Some((image, events)) = read_day(file, n, &mut image, &mut events) else {
        println!(rt; "cut short or too long")?;
        return Ok(false);
    };
    match load(image) {
        Ok(b) => print_answers(rt, b, events)?,
        Err(e) => println!(rt; "{}", u8::from(e))?,
    }
    Ok(true)
}

// A proved loop has to end, and nothing guarantees that a file does: no more days than this are read.
fn all_days<F: Read>(rt: &impl Print, file: &mut F) -> io::Result<()> {
    for number in 1..1000000 {
        if !one_day(rt, file, number)? {
            break;
        }
    }
    Ok(())
}

fn main(rt: HostRuntime) -> io::Result<()> {
    match fs::open(&rt, "days.bin") {
        Ok(mut file) => all_days(&rt, &mut file),
        Err(_) => println!(rt; "no days.bin"),
    }
}
