// Reading an image, stages 24 and 25: the rules for assets and for the limits of entries.
// Each function is defined for every value of its types, whether or not an image can hold it.
#![tactic(auto)]

ghost use Rattle.std.specs.Prelude.{◌≡◌, length};
ghost use Rattle.model.specs.Book.{asset_legal, assets_legal, limit, ranges_legal, track_legal, limits_legal, entries_legal};
ghost use Rattle.image_limits.specs.Positions.{position_in};

use book::{Asset, Book, LATEST_TIME, Limits, MOST_SECONDS, MOST_TIMES, at_most_64};
use rules::{flags_of, momentary};

// The position of the first of the assets with that number.
// Rules out: the last of two with that number; a position for a number that no asset has.
pub fn asset_position(assets: &[Asset], number: u32) -> Option<usize>
    ensures { result ≡ position_in assets.now number }
{
    assets.iter().position(|a| a.number as u32 == number)
}

// Rules out: true for an asset whose number an earlier one has; true for number 0 or key 2.
pub fn asset_legal(assets: &[Asset], i: usize, a: Asset) -> bool
    ensures { result ≡ asset_legal assets.now (length assets.now) i a }
{
    ((1 <= a.number) & (a.number <= 65535))
        & (asset_position(assets, a.number as u32).unwrap_or(assets.len()) == i)
        & (a.key <= 1)
}

// Rules out: true for two assets with the same number; false for an illegal asset, key 0 with an inherit.
pub fn assets_legal(b: Book) -> bool
    ensures { result ≡ assets_legal b }
{
    let assets = &b.assets[..at_most_64(b.assetcount)];
    assets
        .iter()
        .enumerate()
        .all(|(i, a)| asset_legal(assets, i, *a))
}

// Rules out: false for a flagged limit of 0, true for one that is not flagged and not 0.
fn limit_legal(flag: bool, most: u32, v: u32) -> bool
    ensures { result ≡ limit flag most v }
{
    if flag { v <= most } else { v == 0 }
}

fn ranges_legal(l: Limits) -> bool
    ensures { result ≡ ranges_legal l }
{
    let f = flags_of(l);
    limit_legal(f.count, MOST_TIMES, l.count)
        & limit_legal(f.timed, MOST_TIMES, l.timed)
        & limit_legal(f.timed, MOST_TIMES, l.timer)
        & limit_legal(f.start, LATEST_TIME, l.start)
        & limit_legal(f.end, LATEST_TIME, l.end)
        & limit_legal(f.interval, MOST_SECONDS, l.interval)
        & limit_legal(f.accumulated, MOST_SECONDS, l.accumulated)
}

// Rules out: true for a mark or a timed value of an untracked entry, false for any timed value of a tracked one.
fn track_legal(l: Limits) -> bool
    ensures { result ≡ track_legal l }
{
    (l.tracked <= 1) & (l.mark <= 1) & ((l.tracked == 1) | ((l.timedvalue == 0) & (l.mark == 0)))
}

// Rules out: true for a start after the end, for an accumulated of a momentary kind, for a threshold above 16.
pub fn limits_legal(known: bool, l: Limits) -> bool
    ensures { result ≡ limits_legal known l }
{
    let f = flags_of(l);
    let momentary = momentary(l.kind);
    ((1 <= l.object) & (l.object <= 65535))
        & known
        & ((1 <= l.kind) & (l.kind <= 5))
        & (l.flags <= 63)
        & ranges_legal(l)
        & (!(f.start & f.end) | (l.start <= l.end))
        & (!momentary | (!f.accumulated & (l.timer == 0)))
        & track_legal(l)
        & (l.threshold <= 16)
}

// Rules out: true for an entry of an asset that the book lacks; true for an unflagged count that is not 0.
pub fn entries_legal(b: Book) -> bool
    ensures { result ≡ entries_legal b }
{
    let assets = &b.assets[..at_most_64(b.assetcount)];
    let entries = &b.entries[..at_most_64(b.entrycount)];
    entries.iter().all(|e| limits_legal(
        asset_position(assets, e.limits.asset as u32).is_some(),
        e.limits,
    ))
}
