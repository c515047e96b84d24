// The usage report: a lent list of lines, one of which is raised when a use ends. The loops own their lines as an array: the list is
// taken by value and stored back, and a line is raised where it is lent.
#![tactic(auto)]

ghost use Rattle.std.specs.Prelude.{◌≡◌};
ghost use Rattle.model.specs.Report.{sum64};
ghost use Rattle.report.specs.Report.{raised_line, raised_at, taken_lines, given_lines};

use book::{Line, blank_line};
use numbers::pick;

// A list as it is lent, by value: its first 64 lines, blank ones after the last, and how many were lent.
#[derive(Clone, Copy, Debug, PartialEq, Eq)]
pub struct Report {
    pub lines: [Line; 64],
    pub lent: usize,
}

// A sum that stops at the greatest number.
#[tactic(auto, unfolding(model::specs::Report::sum64))]
fn sum(a: u64, b: u64) -> u64
    ensures { result ≡ sum64 a b }
{
    a.saturating_add(b)
}

// Rules out: the seconds added to the times, a time for a use that does not count.
#[tactic(auto, unfolding(crate::specs::Report::raised_line))]
fn raised_line(l: Line, seconds: u64, counted: bool) -> Line
    ensures { result ≡ raised_line l seconds counted }
{
    Line {
        content: l.content,
        times: sum(l.times, pick(counted, 1, 0)),
        seconds: sum(l.seconds, seconds),
    }
}

// Rules out: another line raised, a line past the end taken for the last one.
#[tactic(auto, unfolding(crate::specs::Report::raised_at))]
fn raise(report: &mut [Line], k: usize, seconds: u64, counted: bool)
    ensures { report.new ≡ raised_at report.old k seconds counted }
{
    if k < report.len() {
        let l = report[k];
        report[k] = raised_line(l, seconds, counted);
    }
}

// What the loops call when a use ends: a list of the line alone is lent, raised in place, and handed back.
// Rules out: an unchanged line.
#[tactic(auto, unfolding(crate::specs::Report::raised_at))]
pub fn raise_one(l: Line, seconds: u64, counted: bool) -> Line
    ensures { result ≡ raised_line l seconds counted }
{
    let mut q = [l];
    raise(&mut q, 0, seconds, counted);
    q[0]
}

// The first 64 lines of a lent list by value, blank lines after the last.
// Rules out: a line of the list left out.
#[tactic(auto, unfolding(crate::specs::Report::taken_lines))]
pub fn take_lines(report: &[Line]) -> [Line; 64]
    ensures { result ≡ taken_lines report.now }
{
    let n = report.len().min(64);
    let mut lines = [blank_line(); 64];
    lines[..n].copy_from_slice(&report[..n]);
    lines
}

// The lines stored to a lent list, as many as it has.
// Rules out: a line past the 64th touched.
#[tactic(auto, unfolding(crate::specs::Report::given_lines))]
pub fn give_lines(report: &mut [Line], lines: [Line; 64])
    ensures { report.new ≡ given_lines lines report.old }
{
    let n = report.len().min(64);
    report[..n].copy_from_slice(&lines[..n]);
}
