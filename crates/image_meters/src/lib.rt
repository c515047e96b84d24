// Reading an image, stage 27: the rules for meters, which have to cover the players' open uses, and for marks, which have to be those.
// Each function is defined for every value of its types, whether or not an image can hold it.
#![tactic(auto)]

ghost use Rattle.std.specs.Prelude.{◌≡◌};
ghost use Rattle.model.specs.Book.{meter_legal, start_legal, open_seconds, meters_cover, marks_legal, entry_meters_legal, meters_legal};

use book::{Book, Entry, Limits, Meters, Player, at_most_64};
use numbers::{ones, pick};
use rules::{flags_of, marks_of, opens_entry};

fn meter_legal(flag: bool, most: u32, used: u32) -> bool
    ensures { result ≡ meter_legal flag most used }
{
    if flag { used <= most } else { used == 0 }
}

fn start_legal(time: u32, l: Limits, m: Meters) -> bool
    ensures { result ≡ start_legal time l m }
{
    let f = flags_of(l);
    (m.started <= 1)
        & (f.interval | (m.started == 0))
        & ((m.started == 1) | (m.first == 0))
        & (m.first <= time)
}

fn open_seconds(players: &[Player; 16], i: usize) -> u64
    ensures { result ≡ open_seconds players.now i }
{
    let mut seconds: u64 = 0;
    for p in 0..16 {
        let o = players[p].current;
        let d = pick(opens_entry(i, o), o.until.saturating_sub(o.begin), 0);
        seconds = seconds + d as u64;
    }
    seconds
}

fn meters_cover(uses: u32, seconds: u64, l: Limits, m: Meters) -> bool
    ensures { result ≡ meters_cover uses seconds l m }
{
    let used = m.seconds as u64;
    let f = flags_of(l);
    (!f.count | (uses <= m.count))
        & (!f.timed | (uses <= m.timed))
        & (!f.accumulated | (seconds <= used))
}

// Rules out: true for a mark without an open use or the other way round, for more marks than the threshold.
fn marks_legal(marks: u32, l: Limits, m: Meters) -> bool
    ensures { result ≡ marks_legal marks l m }
{
    (m.marks == marks) & ((l.threshold == 0) | (ones(m.marks) <= l.threshold))
}

fn entry_meters_legal(time: u32, players: &[Player; 16], i: usize, e: Entry) -> bool
    ensures { result ≡ entry_meters_legal time players.now i e }
{
    let l = e.limits;
    let m = e.meters;
    let f = flags_of(l);
    let marks = marks_of(*players, i);
    let uses = ones(marks);
    let seconds = open_seconds(players, i);
    meter_legal(f.count, l.count, m.count)
        & meter_legal(f.timed, l.timed, m.timed)
        & meter_legal(f.accumulated, l.accumulated, m.seconds)
        & start_legal(time, l, m)
        & meters_cover(uses, seconds, l, m)
        & marks_legal(marks, l, m)
}

// Rules out: true for a used count below the entry's open uses; true for a first use after the book's time; true for a mark of a
// player that has another entry open.
pub fn meters_legal(b: Book) -> bool
    ensures { result ≡ meters_legal b }
{
    let entries = &b.entries[..at_most_64(b.entrycount)];
    entries
        .iter()
        .enumerate()
        .all(|(i, e)| entry_meters_legal(b.time, &b.players, i, *e))
}
