// Puts the line of one answer, as the run program prints it, into a lent buffer.
// What most lines hold (a code, an entry, a time of ten digits, a refusal's end) is written without a loop.
#![tactic(auto)]

ghost use Rattle.std.specs.Prelude.{◌≡◌, ◌+◌, ◌<◌, ◌≤◌, length};
ghost use Rattle.numbers.specs.Buffer.{lay};
ghost use Rattle.model.specs.Run.{decimal};
ghost use Rattle.text.specs.Digits.{two};
ghost use Rattle.text.specs.Lines.{Put, refused_end};

use book::Answer;

// How many digits a number has.
fn places(n: u32) -> usize
    ensures { result ≡ length (decimal n) }
{
    match n.checked_ilog10() {
        Some(k) => k as usize + 1,
        None => 1,
    }
}

// Puts two digits, the first of which may be 0.
fn put_two(out: &mut [u8], at: usize, n: u32)
    requires { (at + 2 ≤ length out.old) × (n < 100) }
    ensures { out.new ≡ lay out.old at (two n) }
{
    out[at] = (48 + n / 10) as u8;
    out[at + 1] = (48 + n % 10) as u8;
}

// Puts the digits of a ten-digit number, as most times are, two at a time.
fn put_ten(out: &mut [u8], at: usize, n: u32)
    requires { (at + 10 ≤ length out.old) × (1000000000 ≤ n) }
    ensures { out.new ≡ lay out.old at (decimal n) }
{
    let upper = n / 10000;
    let low = n % 10000;
    let top = upper / 10000;
    let mid = upper % 10000;
    put_two(out, at, top);
    put_two(out, at + 2, mid / 100);
    put_two(out, at + 4, mid % 100);
    put_two(out, at + 6, low / 100);
    put_two(out, at + 8, low % 100);
}

// Puts the one to three digits of a small number, such as a code or an entry, and returns the end offset.
fn put_short(out: &mut [u8], at: usize, n: u32) -> usize
    requires { (at + length (decimal n) ≤ length out.old) × (n < 1000) }
    ensures { (result ≡ at + length (decimal n)) × (out.new ≡ lay out.old at (decimal n)) }
{
    if n < 10 {
        out[at] = (48 + n) as u8;
        return at + 1;
    }
    if n < 100 {
        put_two(out, at, n);
        return at + 2;
    }
    out[at] = (48 + n / 100) as u8;
    put_two(out, at + 1, n % 100);
    at + 3
}

// The same for any number. If its digits are neither ten nor at most three, they are counted, then put from last to first.
fn put_number(out: &mut [u8], at: usize, n: u32) -> usize
    requires { at + length (decimal n) ≤ length out.old }
    ensures { (result ≡ at + length (decimal n)) × (out.new ≡ lay out.old at (decimal n)) }
{
    if 1000000000 <= n {
        put_ten(out, at, n);
        return at + 10;
    }
    if n < 1000 {
        return put_short(out, at, n);
    }
    let count = places(n);
    let mut rest = n;
    for i in 0..count {
        out[at + (count - 1 - i)] = (48 + rest % 10) as u8;
        rest = rest / 10;
    }
    at + count
}

// Puts the rest of a refusal's line, after the code: entry 255 and until 0.
fn put_refused(out: &mut [u8], at: usize)
    requires { at + 7 ≤ length out.old }
    ensures { out.new ≡ lay out.old at refused_end }
{
    out[at..at + 7].copy_from_slice(b" 255 0\n");
}

// Rules out: a digit, a space or the line's end left out, leading zeros, a byte touched past the line, and a line begun where it may
// not fit.
pub fn put_line(out: &mut [u8], at: usize, a: Answer) -> usize
    ensures { Put a at out.old result out.new }
{
    if out.len() < 19 {
        return at;
    }
    if out.len() - 19 < at {
        return at;
    }
    let first = put_short(out, at, a.code as u32);
    if (a.entry == 255) & (a.until == 0) {
        put_refused(out, first);
        return first + 7;
    }
    out[first] = 32;
    let second = put_short(out, first + 1, a.entry as u32);
    out[second] = 32;
    let third = put_number(out, second + 1, a.until);
    out[third] = 10;
    third + 1
}
