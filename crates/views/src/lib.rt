// The contents of a book as plain numbers, for callers that do not have its structs: the fields in image order,
// what is left of an entry, and what stands against granting it.
#![tactic(auto)]

ghost use Rattle.std.specs.Prelude.{◌≡◌};
ghost use Rattle.model.specs.Image.{newest, asset_values, entry_values};
ghost use Rattle.views.specs.Views.{book_values, ground_values, left, left_values, player_view, view_time};

use book::{Ask, Asset, Book, Entry, Player, at_most_64};
use numbers::pick;
use rules::{flags_of, grantable, grounds_of};

// What is left where there is no limit.
const UNLIMITED: u32 = u32::MAX;

// How many assets and entries, the time, the switch, and the event taken last: its player plus 1, and its mark.
// Rules out: the two counts swapped, the mark for the player.
#[tactic(auto, unfolding(crate::specs::Views::book_values, model::specs::Book::assets_in, model::specs::Book::entries_in))]
pub fn book_values(b: Book) -> [u32; 6]
    ensures { result ≡ book_values b }
{
    let assets = at_most_64(b.assetcount);
    let entries = at_most_64(b.entrycount);
    let x = b.latest;
    [
        assets as u32,
        entries as u32,
        b.time,
        b.switch,
        x.player,
        x.started,
    ]
}

// Rules out: number and inherit swapped.
pub fn asset_values(a: Asset) -> [u32; 3]
    ensures { result ≡ asset_values a }
{
    [a.number as u32, a.inherit as u32, a.key as u32]
}

// In the order of the newest image.
// Rules out: a limit and its meter swapped, a field left out.
pub fn entry_values(e: Entry) -> [u32; 21]
    ensures { result ≡ entry_values newest e }
{
    let l = e.limits;
    let m = e.meters;
    [
        l.object as u32,
        l.asset as u32,
        l.kind as u32,
        l.flags as u32,
        l.count,
        l.timed,
        l.timer,
        l.start,
        l.end,
        l.interval,
        l.accumulated,
        m.count,
        m.timed,
        m.first,
        m.seconds,
        m.started as u32,
        l.tracked,
        l.timedvalue,
        l.mark,
        l.threshold,
        m.marks,
    ]
}

// The values have 32 bits, the number 64: its counter stands in its place, its boot number last, so that the others keep their places.
// Rules out: the answer's until for the open use's, boot number and counter swapped.
pub fn player_values(p: Player) -> [u32; 13]
    ensures { result ≡ player_view p }
{
    let l = p.last;
    let a = l.answer;
    let o = p.current;
    [
        (l.number % 4294967296) as u32,
        l.operation as u32,
        l.asset as u32,
        l.kind as u32,
        a.code as u32,
        a.entry as u32,
        a.until,
        o.on as u32,
        o.entry as u32,
        o.begin,
        o.until,
        o.content,
        (l.number / 4294967296) as u32,
    ]
}

// The time at which a book is viewed: never before its own.
// Rules out: the earlier of the two.
pub fn view_time(now: u32, time: u32) -> u32
    ensures { result ≡ view_time now time }
{
    now.max(time)
}

// Rules out: a difference where there is no limit, one that wraps.
fn left_of(flag: bool, most: u32, used: u32) -> u32
    ensures { result ≡ left flag most used }
{
    pick(flag, most.saturating_sub(used), UNLIMITED)
}

// What is left of an entry at a time when no use is due any more, under the book's switch.
// Rules out: what is used for what is left, an entry out of its dates or with its threshold full reported as grantable.
#[tactic(auto, unfolding(crate::specs::Views::left_values, rules::specs::Rules::flags_of))]
pub fn left_values(e: Entry, time: u32, switch: u32) -> [u32; 4]
    ensures { result ≡ left_values time switch e }
{
    let l = e.limits;
    let m = e.meters;
    let f = flags_of(l);
    let ask = Ask {
        player: 0,
        time: time,
        switch: switch,
    };
    let able = u32::from(grantable(l, m, ask));
    [
        able,
        left_of(f.count, l.count, m.count),
        left_of(f.timed, l.timed, m.timed),
        left_of(f.accumulated, l.accumulated, m.seconds),
    ]
}

// What stands against granting an entry to who asks, at a time when no use is due any more: 1 for a ground that stands, otherwise 0,
// in the order of document 01's words, then the switch and the threshold.
// Rules out: two grounds swapped, a ground that is reported only where no other stands.
#[tactic(auto, unfolding(crate::specs::Views::ground_values))]
pub fn ground_values(e: Entry, ask: Ask) -> [u32; 9]
    ensures { result ≡ ground_values ask e }
{
    let l = e.limits;
    let m = e.meters;
    let g = grounds_of(l, m, ask);
    [
        g.countspent,
        g.timedspent,
        g.beforestart,
        g.afterend,
        g.intervalover,
        g.secondsspent,
        g.intervalzero,
        g.switchoff,
        g.thresholdfull,
    ]
    .map(u32::from)
}
