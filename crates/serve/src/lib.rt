// The run program: the book from rights.rbk, event records from standard input, a line for each answer on standard output.
// This crate only reads and writes: crate `turn` does the work between two reads, and the crates below it define what images and
// records mean.
// The bytes of one read are answered in one write before the next read, so that a player at a pipe need not wait for others.
#![tactic(auto)]

ghost use Rattle.std.specs.Prelude.{◌≡◌, ◌+◌, ◌<◌, ◌≤◌, length, take, drop, IfOk, IsTrue};
ghost use Rattle.std.specs.Io.KnownBytes.{Appends, Consumes, IsAtEnd};
ghost use Rattle.serve.specs.Answers.{Answers};

use book::Book;
use report::Report;
use std::fs;
use std::io::{self, Cursor, ErrorKind, Read, Write};
use std::rt::{Clock, Env, Files};
use turn::{IMAGE, INPUT, OUT};

// Reads rights.rbk to the start of image, and returns how many bytes. A missing file counts as empty, and so does one that cannot be read.
fn read_image(rt: &(impl Clock + Eprint + Files), image: &mut [u8; IMAGE]) -> usize {
    match fs::open(rt, "rights.rbk") {
        Ok(mut file) => stream::read_all(rt, &mut file, b"rights.rbk", image).unwrap_or(0),
        Err(e) => {
            if e.kind() != ErrorKind::NotFound {
                stream::fail(rt, b"rights.rbk", e);
            }
            0
        }
    }
}

fn print_refusal(rt: &(impl Clock + Eprint + Print), code: u8) {
    let mut line = Cursor::new([0u8; 20]);
    let _ = writeln!(line, "{code}");
    let n = line.position() as usize;
    let text = line.into_inner();
    stream::send_first(rt, &mut io::writer(rt), b"standard output", &text, n);
}

// One read of the input behind the bytes that are kept, for which there is room.
fn read_behind<R: Read>(
    clock: &impl Clock,
    reader: &mut R,
    input: &mut [u8],
    kept: usize,
) -> io::Result<usize>
    requires { kept ≤ length input.old }
    ensures fits { IfOk result (λ n. kept + n ≤ length input.new) }
    ensures same { take kept input.new ≡ take kept input.old }
    ensures bytes { IfOk result (λ n. Consumes (R.remaining reader.old) (R.remaining reader.new) (take n (drop kept input.new))) }
    ensures end { IfOk result (λ n. n ≡ 0 → kept < length input.new → IsAtEnd (R.remaining reader.new)) }
{
    stream::read_more(clock, reader, input, kept)
}

// Writes the first n bytes, which are there.
fn print_first<W: Write>(rt: &(impl Clock + Eprint), writer: &mut W, out: &[u8], n: usize) -> bool
    requires { n ≤ length out.now }
    ensures { IsTrue result → Appends (W.contents writer.old) (W.contents writer.new) (take n out.now) }
{
    stream::send(rt, writer, b"standard output", &out[..n])
}

// Answers each read until the input ends, and then returns true. An incomplete record is kept and completed by the next read; the report is
// handed on from read to read.
// Nothing guarantees that the input ends either: this loop counts to a number that no run uses up, too.
fn answer_reads<R: Read, W: Write>(
    rt: &(impl Clock + Eprint),
    reader: &mut R,
    writer: &mut W,
    b: Book,
    first: Report,
    input: &mut [u8; INPUT],
    out: &mut [u8; OUT],
) -> bool
    ensures { IsTrue result → Answers b first.lines first.lent (R.remaining reader.old) (W.contents writer.old) (W.contents writer.new) }
{
    let mut book = b;
    let mut report = first;
    let mut kept: usize = 0;
    for _ in 0..u64::MAX {
        match read_behind(rt, reader, input, kept) {
            Ok(got) => {
                let ended = got == 0;
                let Some(t) = turn::turn(book, report, input, kept + got, ended, out) else {
                    return false;
                };
                if !print_first(rt, writer, out, t.written) {
                    return false;
                }
                if ended {
                    return true;
                }
                book = t.book;
                report = t.report;
                kept = t.kept;
            }
            Err(e) => {
                stream::fail(rt, b"standard input", e);
                return false;
            }
        }
    }
    false
}

// A line for each asset of the book is lent, with zeros before the first event.
fn answer_all(rt: &(impl Clock + Eprint + Input + Print), b: Book) {
    let mut input = [0u8; INPUT];
    let mut out = [0u8; OUT];
    answer_reads(
        rt,
        &mut rt.reader(),
        &mut io::writer(rt),
        b,
        turn::zero_lines(b),
        &mut input,
        &mut out,
    );
}

fn explain(rt: &impl Eprint) {
    let _ = eprintln!(rt;
        "run takes no argument. Start it in the folder of rights.rbk, with event records on standard input: run < events"
    );
}

pub fn serve(rt: &(impl Clock + Env + Eprint + Files + Input + Print)) {
    if stream::has_argument(rt) {
        explain(rt);
        return;
    }
    let mut image = [0u8; IMAGE];
    let n = read_image(rt, &mut image);
    match turn::load(&image, n) {
        Ok(b) => answer_all(rt, b),
        Err(e) => print_refusal(rt, u8::from(e)),
    }
}
