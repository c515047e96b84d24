// What metering needs of a book: whether a list of lines is one for it, and what the uses that an event ends record in the lines.
// The lines are held by value, in 64 places.
#![tactic(auto)]

ghost use Rattle.std.specs.Prelude.{◌≡◌, ◌<◌, cond, length, None, set};
ghost use Rattle.model.specs.Meters.{expired};
ghost use Rattle.model.specs.Report.{line_at, raised, recorded, recorded_all, overdue, ended_by};
ghost use Rattle.metering.specs.Recording.{line_in, request_in, request_seconds};
ghost use Rattle.metering.specs.Good.{fine, good_lines, good_after};

use book::{Answer, Asset, Book, Limits, Line, Open, Request, at_most_64, blank_asset, entry_at};
use image_limits::asset_position;
use report::{Report, raise_one};
use rules::momentary;
use uses::due;

// No number of a list is as great as that.
const LINE_BOUND: u64 = 4611686018427387904;

// Rules out: another content where an asset belongs, 2 to the 62 in any of the three numbers.
fn fine_line(named: bool, number: u16, l: Line) -> bool
    ensures { result ≡ fine named number l }
{
    let n = number as u64;
    (!named | (l.content == n))
        & (l.content < LINE_BOUND)
        & (l.times < LINE_BOUND)
        & (l.seconds < LINE_BOUND)
}

// Whether a list is good: 30 otherwise.
// Rules out: a list that is too short or too long, a line that names another asset, a number of 2 to the 62.
pub fn good_lines(assets: &[Asset], report: Report) -> bool
    ensures { result ≡ good_lines assets.now (length assets.now) report.lines report.lent }
{
    let n = assets.len().min(64);
    let mut good = (n <= report.lent) & (report.lent <= 64);
    for k in 0..64 {
        let a = assets.get(k).copied().unwrap_or(blank_asset());
        good = good & fine_line(k < n, a.number, report.lines[k]);
    }
    good
}

// The line of a content, by the position of its asset, if a use of an entry with these limits is recorded.
// Rules out: a use recorded with the switch off or for an untracked entry, a content that the book lacks.
#[tactic(auto, unfolding(crate::specs::Recording::line_in))]
pub fn line_for(switch: u32, l: Limits, assets: &[Asset], content: u32) -> Option<usize>
    ensures { result ≡ line_in switch l assets.now content }
{
    if !((switch == 1) & (l.tracked == 1)) {
        return None;
    }
    asset_position(assets, content)
}

// Raises line k by a use of so many seconds, of an entry with these limits.
fn raise_line(lines: &mut [Line; 64], k: usize, l: Limits, seconds: u32)
    requires { k < 64 }
    ensures { lines.new ≡ set lines.old k (raised l seconds (line_at lines.old k)) }
{
    lines[k] = raised_for(l, lines[k], seconds);
}

// What the end of a use records.
// Rules out: another line raised, a time for a use that is shorter than the timed value.
fn record_end(b: Book, lines: [Line; 64], entry: u8, content: u32, seconds: u32) -> [Line; 64]
    ensures { result ≡ recorded b lines (record { entry = entry; content = content; seconds = seconds }) }
{
    let assets = &b.assets[..at_most_64(b.assetcount)];
    let l = entry_at(b.entries, entry as usize).limits;
    let mut after = lines;
    if let Some(k) = line_for(b.switch, l, assets, content) {
        raise_line(&mut after, k, l, seconds);
    }
    after
}

// The line that settling a player's use at t raises.
// Rules out: a use that is not due recorded.
fn due_line(o: Open, t: u32, switch: u32, l: Limits, assets: &[Asset]) -> Option<usize>
    ensures { result ≡ cond (expired t o) (line_in switch l assets.now o.content) None }
{
    if due(o, t) {
        line_for(switch, l, assets, o.content)
    } else {
        None
    }
}

// What settling at t records, players 0 to 15 in turn.
// Rules out: a use that is not due recorded, the seconds up to t instead of its until.
pub fn record_due(b: Book, lines: [Line; 64], t: u32) -> [Line; 64]
    ensures { result ≡ recorded_all b lines (overdue t b.players) }
{
    let assets = &b.assets[..at_most_64(b.assetcount)];
    let mut after = lines;
    for i in 0..16 {
        let o = b.players[i].current;
        let l = entry_at(b.entries, o.entry as usize).limits;
        if let Some(k) = due_line(o, t, b.switch, l, assets) {
            let seconds = o.until.saturating_sub(o.begin);
            raise_line(&mut after, k, l, seconds);
        }
    }
    after
}

// What the request itself records, answered with a: a granted stop ends the use, a granted momentary begin ends as it begins.
// Rules out: a continue or a cancel recorded, a refused stop recorded, a momentary use with seconds.
#[tactic(auto, unfolding(model::specs::Report::ended_by))]
pub fn record_request(
    b: Book,
    lines: [Line; 64],
    q: Request,
    t: u32,
    o: Open,
    a: Answer,
) -> [Line; 64]
    ensures { result ≡ recorded_all b lines (ended_by q t o a) }
{
    match q {
        Request::Begin(kind, asset) => {
            if (a.code == 0) & momentary(u8::from(kind)) {
                record_end(b, lines, a.entry, asset as u32, 0)
            } else {
                lines
            }
        }
        Request::Continue => lines,
        Request::Stop => {
            if a.code == 0 {
                record_end(b, lines, o.entry, o.content, t.saturating_sub(o.begin))
            } else {
                lines
            }
        }
        Request::Cancel => lines,
    }
}

// A line after a use of so many seconds, of an entry with these limits, has ended.
// Rules out: a time for a use that is shorter than the timed value.
pub fn raised_for(l: Limits, y: Line, seconds: u32) -> Line
    ensures { result ≡ raised l seconds y }
{
    raise_one(y, seconds as u64, l.timedvalue <= seconds)
}

// Whether a list is good after its line y was raised, if it was before: all other numbers are as they were.
// Rules out: a sum of 2 to the 62 that is not noticed.
pub fn good_after(good: bool, y: Line) -> bool
    ensures { result ≡ good_after good y }
{
    good & ((y.times < LINE_BOUND) & (y.seconds < LINE_BOUND))
}

// The line that a request raises, answered with a, if its entry has these limits.
// Rules out: a continue or a cancel recorded, a refused stop recorded.
#[tactic(auto, unfolding(crate::specs::Recording::request_in))]
pub fn request_line(
    q: Request,
    a: Answer,
    o: Open,
    switch: u32,
    l: Limits,
    assets: &[Asset],
) -> Option<usize>
    ensures { result ≡ request_in q a o switch l assets.now }
{
    match q {
        Request::Begin(kind, asset) => {
            if (a.code == 0) & momentary(u8::from(kind)) {
                line_for(switch, l, assets, asset as u32)
            } else {
                None
            }
        }
        Request::Continue => None,
        Request::Stop => {
            if a.code == 0 {
                line_for(switch, l, assets, o.content)
            } else {
                None
            }
        }
        Request::Cancel => None,
    }
}

// The seconds of the use that a request ends.
// Rules out: a momentary use with seconds.
#[tactic(auto, unfolding(crate::specs::Recording::request_seconds))]
pub fn request_seconds(q: Request, t: u32, o: Open) -> u32
    ensures { result ≡ request_seconds q t o }
{
    match q {
        Request::Begin(_, _) => 0,
        Request::Continue => 0,
        Request::Stop => t.saturating_sub(o.begin),
        Request::Cancel => 0,
    }
}
