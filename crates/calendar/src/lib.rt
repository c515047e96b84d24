// The calendar by the leap-year rule: the days of a month, and the days from 1970-01-01 to its first, from a table.
#![tactic(auto)]

ghost use Rattle.std.specs.Prelude.{◌≡◌, ◌<◌};
ghost use Rattle.numbers.specs.Count.{sum};
ghost use Rattle.xml_model.specs.Calendar.{leap, month_days, month_length, in_calendar, days_before};
ghost use Rattle.calendar.specs.MonthStarts.{month_count, MonthStarts};

mod month_starts;

use month_starts::MONTH_STARTS;
use numbers::pick;

fn leap(year: u16) -> bool
    ensures { result ≡ leap year }
{
    (year % 4 == 0) & (!(year % 100 == 0) | (year % 400 == 0))
}

// The days of a month, 1 to 12.
// Rules out: 29 days in February 2100, 28 in February 2000, 31 in November.
#[tactic(auto, unfolding(xml_model::specs::Calendar::month_days))]
pub fn month_days(year: u16, month: u8) -> u8
    ensures { result ≡ month_days year month }
{
    match month {
        2 => pick(leap(year), 29, 28),
        4 | 6 | 9 | 11 => 30,
        _ => 31,
    }
}

// The years and months in which a time can lie.
// Rules out: true for 1969 or 2097, for month 0 or 13.
pub fn in_calendar(year: u16, month: u8) -> bool
    ensures { result ≡ in_calendar year month }
{
    ((1970 <= year) & (year <= 2096)) & ((1 <= month) & (month <= 12))
}

// Entry k of a table of month starts.
fn start_in(table: &[u16], k: usize) -> u32
    requires month_starts { MonthStarts table.now }
    requires k_lt_month_count { k < month_count }
    ensures { result ≡ sum month_length k }
{
    table[k] as u32
}

// The days from 1970-01-01 to the first of a month; 0 for a year and month in which no time can lie.
// Rules out: February 29 left out in 2000, the start of the next month, 1 for January 1970.
pub fn days_before(year: u16, month: u8) -> u32
    ensures { result ≡ days_before year month }
{
    if in_calendar(year, month) {
        let k = ((year - 1970) * 12 + (month - 1) as u16) as usize;
        return start_in(&MONTH_STARTS, k);
    }
    0
}
