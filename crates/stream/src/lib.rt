// Reading and writing of the programs. A descriptor that does not block, and a signal that comes first, are waited for.
// No contract can say what a system call reads or writes. Of a reader or a writer whose bytes are known, as one over memory, the
// contracts say that no byte is lost, doubled or moved; of every one, that neither of the two is handed on as a failure.
#![tactic(auto)]

ghost use Rattle.std.specs.Prelude.{◌≡◌, ◌≢◌, ◌+◌, ◌<◌, ◌≤◌, ◌↔◌, ◌⊎◌, length, take, drop, IfOk, IfErr, IfSome, OnOk, OnErr, IsTrue};
ghost use Rattle.std.specs.Io.KnownBytes.{Appends, Consumes, IsAtEnd, Keeps, WriteAppends};
ghost use Rattle.std.specs.IoError.{error_kind};

use std::env::FillError;
use std::io::{Cursor, Error, ErrorKind, Read, Result, Write};
use std::rt::{Clock, Env};
use std::str;

// Whether to retry a read or a write that failed: a non-blocking descriptor was not ready yet, or a
// signal came first.
fn waited(clock: &impl Clock, e: Error) -> bool
    ensures { IsTrue result ↔ ((error_kind e ≡ ErrorKind.WouldBlock) ⊎ (error_kind e ≡ ErrorKind.Interrupted)) }
{
    let kind = e.kind();
    if kind == ErrorKind::WouldBlock {
        pause::pause(clock);
        return true;
    }
    kind == ErrorKind::Interrupted
}

// One read into s from an offset: how many bytes came, 0 at the end of the input.
fn read_once<R: Read>(input: &mut R, s: &mut [u8], from: usize) -> Result<usize>
    ensures fits { IfOk result (λ n. from + n ≤ length s.new) }
    ensures kept { take from s.new ≡ take from s.old }
    ensures bytes { IfOk result (λ n. Consumes (R.remaining input.old) (R.remaining input.new) (take n (drop from s.new))) }
    ensures end { IfOk result (λ n. n ≡ 0 → from < length s.new → IsAtEnd (R.remaining input.new)) }
    ensures err { OnErr result (Keeps (R.remaining input.old) (R.remaining input.new)) }
{
    if from > s.len() {
        return Err(Error::from(ErrorKind::InvalidInput));
    }
    input.read(&mut s[from..])
}

// The same, retried until there are bytes, the end of the input, or a failure that waiting does not cure.
// A proved loop has to end, and nothing guarantees that the waiting does: it counts to a number that no run uses up.
pub fn read_more<R: Read>(
    clock: &impl Clock,
    input: &mut R,
    s: &mut [u8],
    from: usize,
) -> Result<usize>
    ensures fits { IfOk result (λ n. from + n ≤ length s.new) }
    ensures kept { take from s.new ≡ take from s.old }
    ensures bytes { IfOk result (λ n. Consumes (R.remaining input.old) (R.remaining input.new) (take n (drop from s.new))) }
    ensures end { IfOk result (λ n. n ≡ 0 → from < length s.new → IsAtEnd (R.remaining input.new)) }
    ensures err { OnErr result (Keeps (R.remaining input.old) (R.remaining input.new)) }
    ensures retried { IfErr result (λ e. (error_kind e ≢ ErrorKind.WouldBlock) × (error_kind e ≢ ErrorKind.Interrupted)) }
{
    for _ in 0..u64::MAX {
        match read_once(input, s, from) {
            Ok(got) => return Ok(got),
            Err(e) => {
                if !waited(clock, e) {
                    return Err(e);
                }
            }
        }
    }
    Err(Error::from(ErrorKind::TimedOut))
}

// Reads the input to the start of s until it ends or s is full, and returns how many bytes that is. None if a read failed: standard
// error says why.
#[tactic(auto, using(crate::proofs::Steps::consumes_more))]
pub fn read_all<R: Read>(
    rt: &(impl Clock + Eprint),
    input: &mut R,
    name: &[u8],
    s: &mut [u8],
) -> Option<usize>
    ensures bound { IfSome result (λ n. n ≤ length s.new) }
    ensures bytes { IfSome result (λ n. Consumes (R.remaining input.old) (R.remaining input.new) (take n s.new)) }
    ensures end { IfSome result (λ n. n < length s.new → IsAtEnd (R.remaining input.new)) }
{
    let mut n: usize = 0;
    // What was read so far, and no index: a read gives as many bytes as it likes.
    while n < s.len() {
        match read_more(rt, input, s, n) {
            Ok(0) => return Some(n),
            Ok(got) => n = n + got,
            Err(e) => {
                fail(rt, name, e);
                return None;
            }
        }
    }
    Some(n)
}

// One write of text from an offset: how many bytes were written.
fn write_once<W: Write>(output: &mut W, text: &[u8], from: usize) -> Result<usize>
    requires { from ≤ length text.now }
    ensures fits { IfOk result (λ n. from + n ≤ length text.now) }
    ensures bytes { WriteAppends (W.contents output.old) (W.contents output.new) result (drop from text.now) }
{
    output.write(&text[from..])
}

// Writes all of text, in as many writes as it takes.
#[tactic(auto, using(crate::proofs::Steps::appends_more, crate::proofs::Steps::appends_same))]
fn write_text<W: Write>(clock: &impl Clock, output: &mut W, text: &[u8]) -> Result<()>
    ensures ok { OnOk result (Appends (W.contents output.old) (W.contents output.new) text.now) }
    ensures retried { IfErr result (λ e. (error_kind e ≢ ErrorKind.WouldBlock) × (error_kind e ≢ ErrorKind.Interrupted)) }
{
    let mut done: usize = 0;
    for _ in 0..u64::MAX {
        if done >= text.len() {
            return Ok(());
        }
        match write_once(output, text, done) {
            Ok(0) => return Err(Error::from(ErrorKind::WriteZero)),
            Ok(put) => done = done + put,
            Err(e) => {
                if !waited(clock, e) {
                    return Err(e);
                }
            }
        }
    }
    Err(Error::from(ErrorKind::TimedOut))
}

// Writes text, or reports why that failed.
pub fn send<W: Write>(rt: &(impl Clock + Eprint), output: &mut W, name: &[u8], text: &[u8]) -> bool
    ensures { IsTrue result → Appends (W.contents output.old) (W.contents output.new) text.now }
{
    match write_text(rt, output, text) {
        Ok(()) => true,
        Err(e) => {
            fail(rt, name, e);
            false
        }
    }
}

// The same for the first n bytes, or all if there are fewer.
pub fn send_first<W: Write>(
    rt: &(impl Clock + Eprint),
    output: &mut W,
    name: &[u8],
    text: &[u8],
    n: usize,
) -> bool
    ensures { IsTrue result → Appends (W.contents output.old) (W.contents output.new) (take n text.now) }
{
    if n < text.len() {
        return send(rt, output, name, &text[..n]);
    }
    send(rt, output, name, text)
}

// What std prints of an error of the system, without the error's number behind it.
fn reason(printed: &str) -> &str {
    match printed.split_once(" (os error ") {
        Some((words, _)) => words,
        None => printed,
    }
}

// Writes a line to standard error: what failed, as the caller names it, a colon and the system's words for why.
pub fn fail(rt: &impl Eprint, name: &[u8], e: Error) {
    let mut text = Cursor::new([0u8; 256]);
    let _ = write!(text, "{e}");
    let n = text.position() as usize;
    let bytes = text.into_inner();
    let printed = str::from_utf8(&bytes[..n.min(256)]).unwrap_or("");
    let words = reason(printed);
    let _ = eprintln!(rt; "{}: {words}", name.escape_ascii());
}

// Whether the program was started with an argument behind its name.
pub fn has_argument(env: &impl Env) -> bool {
    let mut first = [0u8; 1];
    !matches!(env.arg(1, &mut first), Err(FillError::NotPresent))
}
