// Reading an image, stage 26: the rules for players, the use that each may have open, and the event taken last.
// Each function is defined for every value of its types, whether or not an image can hold it.
#![tactic(auto)]

ghost use Rattle.std.specs.Prelude.{◌≡◌};
ghost use Rattle.model.specs.Book.{player_blank, answer_legal, inside_dates, inside_interval, content_legal, use_legal, open_legal};
ghost use Rattle.model.specs.Book.{player_legal, players_legal, started_legal, latest_legal, latest_passes};

use book::{Answer, Book, Entry, Latest, Limits, Meters, Open, Player, at_most_64};
use image_limits::asset_position;
use numbers::{ones, pick};
use rules::{flags_of, grant_length, marks_of};

fn player_blank(p: Player) -> bool
    ensures { result ≡ player_blank p }
{
    let l = p.last;
    let a = l.answer;
    let o = p.current;
    (l.number == 0)
        & (l.operation == 0)
        & (l.asset == 0)
        & (l.kind == 0)
        & (a.code == 0)
        & (a.entry == 0)
        & (a.until == 0)
        & (o.on == 0)
        & (o.entry == 0)
        & (o.begin == 0)
        & (o.until == 0)
        & (o.content == 0)
}

fn answer_legal(n: usize, a: Answer) -> bool
    ensures { result ≡ answer_legal n a }
{
    let entry = a.entry as usize;
    ((a.code == 0) | ((10 <= a.code) & (a.code <= 15)) | ((43 <= a.code) & (a.code <= 44)))
        & pick(a.code == 0, entry < n, (a.entry == 255) & (a.until == 0))
}

fn inside_dates(o: Open, l: Limits) -> bool
    ensures { result ≡ inside_dates o l }
{
    let until = o.until as u64;
    let end = l.end as u64;
    let past = end + 1;
    let f = flags_of(l);
    (!f.start | (l.start <= o.begin)) & (!f.end | (until <= past))
}

fn inside_interval(o: Open, l: Limits, m: Meters) -> bool
    ensures { result ≡ inside_interval o l m }
{
    let until = o.until as u64;
    let first = m.first as u64;
    let interval = l.interval as u64;
    let past = first + interval;
    let f = flags_of(l);
    !f.interval | ((m.started == 1) & (m.first <= o.begin) & (until <= past))
}

// Rules out: a tracked entry's use without its content, a content that the book lacks.
fn content_legal(known: bool, l: Limits, o: Open) -> bool
    ensures { result ≡ content_legal known l o }
{
    known | ((o.content == 0) & (l.tracked == 0))
}

fn use_legal(time: u32, n: usize, known: bool, e: Entry, o: Open) -> bool
    ensures { result ≡ use_legal time n known e o }
{
    let until = o.until as u64;
    let l = e.limits;
    let m = e.meters;
    let length = grant_length(l.kind) as u64;
    let t = time as u64;
    let longest = t + length;
    let entry = o.entry as usize;
    (o.begin <= time)
        & (time < o.until)
        & (until <= longest)
        & (entry < n)
        & ((1 <= l.kind) & (l.kind <= 3))
        & inside_dates(o, l)
        & inside_interval(o, l, m)
        & content_legal(known, l, o)
}

fn open_legal(time: u32, n: usize, known: bool, e: Entry, o: Open) -> bool
    ensures { result ≡ open_legal time n known e o }
{
    let closed = (o.entry == 0) & (o.begin == 0) & (o.until == 0) & (o.content == 0);
    pick(
        o.on == 0,
        closed,
        (o.on == 1) & use_legal(time, n, known, e, o),
    )
}

fn player_legal(time: u32, n: usize, known: bool, e: Entry, p: Player) -> bool
    ensures { result ≡ player_legal time n known e p }
{
    let l = p.last;
    let a = l.answer;
    let o = p.current;
    let judged = record::request_legal(l.operation, l.asset, l.kind)
        & answer_legal(n, a)
        & open_legal(time, n, known, e, o);
    pick(l.number == 0, player_blank(p), judged)
}

// Rules out: true for a use that is open past the book's time + 60; true for an answer 13 with an until; true for a content that the book
// lacks.
pub fn players_legal(b: Book) -> bool
    ensures { result ≡ players_legal b }
{
    let n = at_most_64(b.entrycount);
    let assets = &b.assets[..at_most_64(b.assetcount)];
    b.players.iter().all(|p| {
        let e = book::entry_at(b.entries, p.current.entry as usize);
        player_legal(
            b.time,
            n,
            asset_position(assets, p.current.content).is_some(),
            e,
            *p,
        )
    })
}

// Whether the use that the event taken last opened can have started its entry's interval. The entry has so many open uses.
// Rules out: true for a closed use, for an entry without an interval, for a use begun after first, beside another open use.
fn started_legal(uses: u32, e: Entry, o: Open) -> bool
    ensures { result ≡ started_legal uses e o }
{
    let l = e.limits;
    let m = e.meters;
    let f = flags_of(l);
    (o.on == 1) & f.interval & (o.begin == m.first) & (uses == 1)
}

// The event taken last, of player p.
// Rules out: true for a player above 16, for a player that has no event, for a mark above 1, for a mark without a player.
fn latest_legal(x: Latest, uses: u32, e: Entry, p: Player) -> bool
    ensures { result ≡ latest_legal x uses e p }
{
    let l = p.last;
    let o = p.current;
    (x.player <= 16)
        & ((x.player == 0) | !(l.number == 0))
        & (x.started <= 1)
        & ((x.started == 0) | (!(x.player == 0) & started_legal(uses, e, o)))
}

// Rules out: the header's number taken as the player's, the open uses of another entry.
pub fn latest_passes(b: Book) -> bool
    ensures { result ≡ latest_passes b }
{
    let x = b.latest;
    let i = x.player.saturating_sub(1) as usize;
    let p = book::player_at(b.players, i);
    let k = p.current.entry as usize;
    let e = book::entry_at(b.entries, k);
    let uses = ones(marks_of(b.players, k));
    latest_legal(x, uses, e, p)
}
