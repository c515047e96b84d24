// Reads the stored lists of lists.bin in turn: a book, a record and the list that it is lent. It prints the answer to each, and says so
// if the list after it is not the stored one, or if the record as a block of its own leaves another text or another list.
// A case is stored as the image's length (0: the book of the case before), the image, the record's length, the record, whether a list
// follows (0: the list of the case before), the number of its lines, the first 64 of them, whether the record changes them (0 or 1), and
// if it does, these lines after it. Numbers are big-endian, 32 bits each, those of a line 64.
#![tactic(auto)]

use book::{Book, Line, RECORD_SIZE};
use report::Report;
use std::fs;
use std::io::{self, Read};
use text::put_line;

const BUFFER: usize = 65536;

// The number in the next four bytes of the file, if there are that many.
fn read_head<F: Read>(file: &mut F) -> Option<usize> {
    let mut h = [0u8; 4];
    file.read_exact(&mut h).ok()?;
    Some(u32::from_be_bytes(h) as usize)
}

// The same with 0 for each byte that is missing.
fn read_count<F: Read>(file: &mut F) -> usize {
    let mut h = [0u8; 4];
    let _ = file.read_exact(&mut h);
    u32::from_be_bytes(h) as usize
}

// The number in the next eight bytes of the file.
fn read_number<F: Read>(file: &mut F) -> u64 {
    let mut h = [0u8; 8];
    let _ = file.read_exact(&mut h);
    u64::from_be_bytes(h)
}

fn read_line<F: Read>(file: &mut F) -> Line {
    Line {
        content: read_number(file),
        times: read_number(file),
        seconds: read_number(file),
    }
}

// The next lines of the file, the first 64 of count.
fn read_lines<F: Read>(file: &mut F, count: usize) -> [Line; 64] {
    let mut lines = [book::blank_line(); 64];
    for l in lines.iter_mut().take(count) {
        *l = read_line(file);
    }
    lines
}

// The next n bytes of the file, read to the start of buf. None if buf has no room for them or the file ends first.
fn read_bytes<'a, F: Read>(file: &mut F, n: usize, buf: &'a mut [u8]) -> Option<&'a [u8]> {
    if buf.len() < n {
        return None;
    }
    file.read_exact(&mut buf[..n]).ok()?;
    Some(&buf[..n])
}

// Whether the record as a block of its own leaves the same text and the same lines. Bytes that are no record, or more than one, are left
// out: a block splits them.
fn same_block(b: Book, record: &[u8], list: Report, line: [u8; 19], after: [Line; 64]) -> bool {
    let n = record.len();
    if (n == 0) | (RECORD_SIZE < n) {
        return true;
    }
    let mut out = [0u8; 19];
    let r = batch::answer_block(b, record, &mut out, list);
    (out == line) & (r.report.lines == after)
}

// The answer to a record that is lent a list.
fn answer(
    rt: &impl Print,
    b: Book,
    record: &[u8],
    list: Report,
    expected: [Line; 64],
) -> io::Result<()> {
    let mut line = [0u8; 19];
    let o = step::step_lines(b, record, list);
    let n = put_line(&mut line, 0, o.answer);
    rt.write_all(&line[..n])?;
    if o.lines != expected {
        println!(rt; "another list")?;
    }
    if !same_block(b, record, list, line, o.lines) {
        println!(rt; "another block")?;
    }
    Ok(())
}

// The next list of the file, or the one before.
fn read_list<F: Read>(file: &mut F, before: Report) -> Report {
    if read_count(file) == 0 {
        return before;
    }
    let count = read_count(file);
    Report {
        lines: read_lines(file, count),
        lent: count,
    }
}

// The lines after a record, if it changes them.
fn read_after<F: Read>(file: &mut F, list: Report) -> [Line; 64] {
    if read_count(file) == 0 {
        return list.lines;
    }
    read_lines(file, list.lent)
}

// What is left of the image and the record of a case behind the length of the image. None if the file ends first or one is too long.
fn read_case<'a, F: Read>(
    file: &mut F,
    n: usize,
    image: &'a mut [u8],
    record: &'a mut [u8],
) -> Option<(&'a [u8], &'a [u8])> {
    let first = read_bytes(file, n, image)?;
    let m = read_head(file)?;
    let second = read_bytes(file, m, record)?;
    Some((first, second))
}

// Answers the next case, if there is one, on the book and with the list of the case before where it brings none.
fn one_case<F: Read>(
    rt: &impl Print,
    file: &mut F,
    held: &mut Book,
    list: &mut Report,
) -> io::Result<bool> {
    let Some(n) = read_head(file) else {
        return Ok(false);
    };
    let mut image = [0u8; BUFFER];
    let mut record = [0u8; BUFFER];
    let Some((image, record)) = read_case(file, n, &mut image, &mut record) else {
        println!(rt; "cut short or too long")?;
        return Ok(false);
    };
    if !image.is_empty() {
        let _ = image_read::read(held, image);
    }
    *list = read_list(file, *list);
    let expected = read_after(file, *list);
    answer(rt, *held, record, *list, expected)?;
    Ok(true)
}

// A proved loop has to end, and nothing guarantees that a file does: no more cases than this are read.
fn cases<F: Read>(rt: &impl Print, file: &mut F) -> io::Result<()> {
    let mut held = book::blank_book();
    let mut list = Report {
        lines: [book::blank_line(); 64],
        lent: 0,
    };
    for _ in 0..1000000 {
        if !one_case(rt, file, &mut held, &mut list)? {
            break;
        }
    }
    Ok(())
}

fn main(rt: HostRuntime) -> io::Result<()> {
    match fs::open(&rt, "lists.bin") {
        Ok(mut file) => cases(&rt, &mut file),
        Err(_) => println!(rt; "no lists.bin"),
    }
}
