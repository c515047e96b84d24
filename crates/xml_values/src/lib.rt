// Text values of order 1: numbers, uids, times and durations. Each function is defined for every text.
#![tactic(auto)]

ghost use Rattle.std.specs.Prelude.{◌≡◌, true, ◌+◌, ◌-◌, ◌*◌, ◌≤◌, min, length, unwrap_or};
ghost use Rattle.xml_model.specs.Values.{value_if, number_of, is_number, number_in, uid_of, digits_at, number_at, time_formed, time_real, seconds_at};
ghost use Rattle.xml_model.specs.Values.{time_if, time_of, piece_at, duration_formed, duration_of, value_of};
ghost use Rattle.xml_model.specs.Codes.{as_value, as_piece};
ghost use Rattle.xml_values.specs.Saturated.{ceiling, saturated};

use book::{LATEST_TIME, MOST_SECONDS, MOST_TIMES};
use calendar::{days_before, in_calendar, month_days};
use numbers::pick;
use xml_model::Piece;
use xml_scan::{Class, byte_at, run_end};
use xml_table::Role;

// Where a number stays: above every bound, and far from where a sum would wrap.
const CEILING: u64 = 1000000000000;

#[tactic(auto, unfolding(xml_model::specs::Values::value_if))]
fn value_if(good: bool, n: u64) -> Option<u32>
    requires { good ≡ true → n ≤ 4294967295 }
    ensures { as_value result ≡ value_if good n }
{
    if good { Some(n as u32) } else { None }
}

// ## Numbers

fn digit_of(c: u8) -> u64
    ensures { result ≡ c - 48 }
{
    c.saturating_sub(48) as u64
}

fn with_digit(x: u64, d: u64) -> u64
    requires { (x ≤ ceiling) × (d ≤ 255) }
    ensures { result ≡ min (10 * x + d) ceiling }
{
    (10 * x + d).min(CEILING)
}

// The number that these digits are, up to 10^12.
fn number_of(v: &[u8]) -> u64
    ensures { result ≡ min (number_of v.now) ceiling }
{
    let mut x: u64 = 0;
    for c in v {
        x = with_digit(x, digit_of(*c));
    }
    x
}

#[tactic(auto, unfolding(xml_model::specs::Values::is_number))]
fn is_number(v: &[u8]) -> bool
    ensures { result ≡ is_number v.now }
{
    let n = v.len();
    let end = run_end(v, Class::Digits, 0);
    (0 < n) & (n <= end)
}

// A number from least to most.
// Rules out: an empty text, a sign or a space accepted; zeros in front refused; a number that wraps into the range.
pub fn number_in(least: u32, most: u32, v: &[u8]) -> Option<u32>
    ensures { as_value result ≡ number_in least most v.now }
{
    let n = number_of(v);
    let low = least as u64;
    let high = most as u64;
    value_if(is_number(v) & ((low <= n) & (n <= high)), n)
}

// ## Uids

// Rules out: `CID:5`, `cid:0` or `cid:65536` accepted, `cid:` counted into the number.
fn uid_of(v: &[u8]) -> Option<u32>
    ensures { as_value result ≡ uid_of v.now }
{
    if v.len() < 4 {
        return None;
    }
    let prefix = &v[..4];
    if (prefix == b"cid:".as_slice()) | (prefix == b"pid:".as_slice()) {
        return number_in(1, 65535, &v[4..]);
    }
    None
}

// ## Times

#[tactic(auto, unfolding(xml_model::specs::Values::digits_at))]
fn digits_at(v: &[u8], i: usize, n: usize) -> bool
    requires { i + n ≤ 20 }
    ensures { result ≡ digits_at v.now i n }
{
    let end = run_end(v, Class::Digits, i);
    i + n <= end
}

#[tactic(auto, unfolding(xml_model::specs::Values::time_formed))]
fn time_formed(v: &[u8]) -> bool
    ensures { result ≡ time_formed v.now }
{
    (v.len() == 20)
        & digits_at(v, 0, 4)
        & (byte_at(v, 4) == 45)
        & digits_at(v, 5, 2)
        & (byte_at(v, 7) == 45)
        & digits_at(v, 8, 2)
        & (byte_at(v, 10) == 84)
        & digits_at(v, 11, 2)
        & (byte_at(v, 13) == 58)
        & digits_at(v, 14, 2)
        & (byte_at(v, 16) == 58)
        & digits_at(v, 17, 2)
        & (byte_at(v, 19) == 90)
}

fn four_digits(v: &[u8], i: usize) -> u16
    requires { digits_at v.now i 4 ≡ true }
    ensures { result ≡ number_at v.now i 4 }
{
    let e = i + 4;
    number_of(&v[i..e]) as u16
}

fn two_digits(v: &[u8], i: usize) -> u8
    requires { digits_at v.now i 2 ≡ true }
    ensures { result ≡ number_at v.now i 2 }
{
    let e = i + 2;
    number_of(&v[i..e]) as u8
}

#[tactic(auto, unfolding(xml_model::specs::Values::time_real))]
fn time_real(year: u16, month: u8, day: u8, hour: u8, minute: u8, second: u8) -> bool
    ensures { result ≡ time_real year month day hour minute second }
{
    let last = month_days(year, month);
    in_calendar(year, month)
        & ((1 <= day) & (day <= last))
        & (hour <= 23)
        & (minute <= 59)
        & (second <= 59)
}

#[tactic(auto, unfolding(xml_model::specs::Values::seconds_at))]
fn seconds_at(year: u16, month: u8, day: u8, hour: u8, minute: u8, second: u8) -> u64
    ensures { result ≡ seconds_at year month day hour minute second }
{
    let first = days_before(year, month) as u64;
    let later = day.saturating_sub(1) as u64;
    (first + later) * 86400 + (hour as u64) * 3600 + (minute as u64) * 60 + (second as u64)
}

#[tactic(auto, unfolding(xml_model::specs::Values::time_if))]
fn time_if(good: bool, t: u64) -> Option<u32>
    ensures { as_value result ≡ time_if good t }
{
    value_if(good & (t <= LATEST_TIME as u64), t)
}

// Rules out: February 30, 24:00:00, a time after 2096-10-02T07:06:40Z, a time without its Z accepted.
fn time_of(v: &[u8]) -> Option<u32>
    ensures { as_value result ≡ time_of v.now }
{
    if !time_formed(v) {
        return None;
    }
    let year = four_digits(v, 0);
    let month = two_digits(v, 5);
    let day = two_digits(v, 8);
    let hour = two_digits(v, 11);
    let minute = two_digits(v, 14);
    let second = two_digits(v, 17);
    let good = time_real(year, month, day, hour, minute, second);
    time_if(good, seconds_at(year, month, day, hour, minute, second))
}

// ## Durations

// Digits from i on and the letter u behind them; if they are not there, nothing.
fn piece_at(v: &[u8], u: u8, i: usize) -> Piece
    ensures value { as_piece result ≡ saturated (piece_at v.now u i) }
    ensures number_le_ceiling { (unwrap_or result.number 0 ≤ ceiling) × (result.next ≤ i + length v.now) }
{
    let e = run_end(v, Class::Digits, i);
    let c = byte_at(v, e);
    if i < e {
        if c == u as u16 {
            return Piece {
                number: Some(number_of(&v[i..e])),
                next: e + 1,
            };
        }
    }
    Piece {
        number: None,
        next: i,
    }
}

#[tactic(auto, unfolding(xml_model::specs::Values::duration_formed))]
fn duration_formed(v: &[u8], d: Piece, h: Piece, m: Piece, s: Piece) -> bool
    ensures { result ≡ duration_formed v.now (as_piece d) (as_piece h) (as_piece m) (as_piece s) }
{
    let n = v.len();
    let timed = byte_at(v, d.next) == 84;
    let times = (h.number.is_some() | m.number.is_some() | s.number.is_some()) & (s.next == n);
    let days = d.number.is_some() & (d.next == n);
    (byte_at(v, 0) == 80) & pick(timed, times, days)
}

// Rules out: `P`, `PT`, `P1DT` or `PT1S1M` accepted, a T not needed.
fn duration_of(v: &[u8]) -> Option<u32>
    ensures { as_value result ≡ duration_of v.now }
{
    let d = piece_at(v, 68, 1);
    let h = piece_at(v, 72, d.next + 1);
    let m = piece_at(v, 77, h.next);
    let s = piece_at(v, 83, m.next);
    let x = h.number.unwrap_or(0) * 3600 + m.number.unwrap_or(0) * 60 + s.number.unwrap_or(0);
    let timed = byte_at(v, d.next) == 84;
    let n = d.number.unwrap_or(0) * 86400 + pick(timed, x, 0);
    let high = MOST_SECONDS as u64;
    value_if(duration_formed(v, d, h, m, s) & (n <= high), n)
}

// ## The value of an element that holds a text, by its role's number

// Rules out: version 2.1 accepted, a uid without its prefix in an asset, a count of 0 refused, one of 1,000,001.
#[tactic(auto, using(xml_model::proofs::Runs::same_slices), unfolding(xml_model::specs::Values::value_of))]
pub fn value_of(role: u8, v: &[u8]) -> Option<u32>
    ensures { as_value result ≡ value_of role v.now }
{
    match Role::try_from(role) {
        Ok(Role::Version) => value_if(v == b"2.2".as_slice(), 0),
        Ok(Role::ObjectUid) => number_in(1, 65535, v),
        Ok(Role::AssetUid | Role::InheritUid) => uid_of(v),
        Ok(Role::Count | Role::TimedCount) => number_in(0, MOST_TIMES, v),
        Ok(Role::Start | Role::End) => time_of(v),
        _ => duration_of(v),
    }
}
