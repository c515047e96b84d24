// The layout of an image: the newest version, how many bytes each record has by version, and the pieces of a record as bytes: the
// header, an asset, two pieces of an entry, two of a player, what version 2 adds to header, entry and player, what version 4 adds to an
// entry, and what version 5 adds to the header. Big-endian, each field in its place. Version 3 has 64 bits for a player's number, in its
// place.
// Each contract gives the whole array: the piece's values in its widths. What a version adds to a record is a piece of its own.
#![tactic(auto)]

ghost use Rattle.std.specs.Prelude.{◌≡◌, ◌*◌, ◌≤◌, [], ◌∷◌};
ghost use Rattle.numbers.specs.Fields.{bits32, laid_out};
ghost use Rattle.model.specs.Image.{header_size, asset_size, entry_size, player_size, image_length};
ghost use Rattle.image_pieces.specs.Sizes.{entries_at, players_at};
ghost use Rattle.model.specs.Image.{newest, header_start, start_values, asset_widths, asset_values, limits_widths, limits_values, meters_widths};
ghost use Rattle.model.specs.Image.{meters_values, track_widths, track_values, group_widths, group_values, last_widths, last_values};
ghost use Rattle.model.specs.Image.{open_widths, open_values};
ghost use Rattle.image_pieces.specs.Pieces.{latest_widths, latest_values};

use book::{Asset, Entry, Last, Latest, Limits, Meters, Open};

// The version that is written. The reader knows it and all before it.
pub const NEWEST: u16 = 5;

// The bytes of each piece. The header begins in the same way in every version.
pub const HEADER_START: usize = 11;

const ASSET: usize = 5;

const LIMITS: usize = 34;

const METERS: usize = 17;

const LAST: usize = 18;

const CURRENT: usize = 10;

// A player's last event before version 3, with a number of 32 bits.
const OLDER_LAST: usize = 14;

// What version 2 adds: the switch or the content, a number each; the track of an entry.
const NUMBER: usize = 4;

const TRACK: usize = 12;

// What version 4 adds: threshold and marks of an entry.
const GROUP: usize = 8;

// What version 5 adds: the event taken last.
const LATEST: usize = 8;

// The bytes of a header, an asset, an entry and a player: the sum of the pieces that the version has.
// Rules out: a piece left out, or one that the version lacks.
#[tactic(auto, unfolding(model::specs::Image::header_size))]
pub fn header_size(v: u16) -> usize
    ensures { (result ≡ header_size v) × (result ≤ 200) }
{
    if 5 <= v {
        return HEADER_START + NUMBER + LATEST;
    }
    if 2 <= v {
        return HEADER_START + NUMBER;
    }
    HEADER_START
}

#[tactic(auto, unfolding(model::specs::Image::asset_size))]
pub fn asset_size(v: u16) -> usize
    ensures { (result ≡ asset_size v) × (result ≤ 200) }
{
    ASSET
}

#[tactic(auto, unfolding(model::specs::Image::entry_size))]
pub fn entry_size(v: u16) -> usize
    ensures { (result ≡ entry_size v) × (result ≤ 200) }
{
    if 4 <= v {
        return LIMITS + METERS + TRACK + GROUP;
    }
    if 2 <= v {
        return LIMITS + METERS + TRACK;
    }
    LIMITS + METERS
}

#[tactic(auto, unfolding(model::specs::Image::player_size))]
pub fn player_size(v: u16) -> usize
    ensures { (result ≡ player_size v) × (result ≤ 200) }
{
    if 3 <= v {
        return LAST + CURRENT + NUMBER;
    }
    if 2 <= v {
        return OLDER_LAST + CURRENT + NUMBER;
    }
    OLDER_LAST + CURRENT
}

// The bytes of n records.
fn rows(width: usize, n: u8) -> usize
    requires { width ≤ 200 }
    ensures { (result ≡ width * n) × (result ≤ 51000) }
{
    width * (n as usize)
}

// Where the entries begin, and where the players.
// Rules out: an offset that does not depend on the number of assets, the width of another version.
pub fn entries_from(v: u16, assets: u8) -> usize
    ensures { (result ≡ entries_at v assets) × (result ≤ 51200) }
{
    let table = rows(asset_size(v), assets);
    header_size(v) + table
}

pub fn players_from(v: u16, assets: u8, entries: u8) -> usize
    ensures { (result ≡ players_at v assets entries) × (result ≤ 102200) }
{
    let table = rows(entry_size(v), entries);
    entries_from(v, assets) + table
}

// Rules out: the players left out.
#[tactic(auto, unfolding(model::specs::Image::image_length))]
pub fn image_length(v: u16, assets: u8, entries: u8) -> usize
    ensures { result ≡ image_length v assets entries }
{
    let table = rows(player_size(v), 16);
    players_from(v, assets, entries) + table
}

// The mark RBK, the newest version, the two counts and the book's time; what a version adds comes after them.
// Rules out: another mark or version, the counts swapped.
pub fn header_bytes(assets: u8, entries: u8, time: u32) -> [u8; HEADER_START]
    ensures { result ≡ laid_out header_start (start_values newest assets entries time) }
{
    let [v0, v1] = NEWEST.to_be_bytes();
    let [t0, t1, t2, t3] = time.to_be_bytes();
    [82, 66, 75, v0, v1, assets, entries, t0, t1, t2, t3]
}

// Rules out: number and inherit swapped, the bytes of a number in another order.
pub fn asset_bytes(a: Asset) -> [u8; ASSET]
    ensures { result ≡ laid_out (asset_widths newest) (asset_values a) }
{
    let [n0, n1] = a.number.to_be_bytes();
    let [i0, i1] = a.inherit.to_be_bytes();
    [n0, n1, i0, i1, a.key]
}

// Rules out: two fields swapped, a field of another width.
pub fn limits_bytes(l: Limits) -> [u8; LIMITS]
    ensures { result ≡ laid_out limits_widths (limits_values l) }
{
    let [o0, o1] = l.object.to_be_bytes();
    let [a0, a1] = l.asset.to_be_bytes();
    let [c0, c1, c2, c3] = l.count.to_be_bytes();
    let [t0, t1, t2, t3] = l.timed.to_be_bytes();
    let [r0, r1, r2, r3] = l.timer.to_be_bytes();
    let [s0, s1, s2, s3] = l.start.to_be_bytes();
    let [e0, e1, e2, e3] = l.end.to_be_bytes();
    let [i0, i1, i2, i3] = l.interval.to_be_bytes();
    let [u0, u1, u2, u3] = l.accumulated.to_be_bytes();
    [
        o0, o1, a0, a1, l.kind, l.flags, c0, c1, c2, c3, t0, t1, t2, t3, r0, r1, r2, r3, s0, s1,
        s2, s3, e0, e1, e2, e3, i0, i1, i2, i3, u0, u1, u2, u3,
    ]
}

// Rules out: used seconds for first, a field of another width.
pub fn meters_bytes(m: Meters) -> [u8; METERS]
    ensures { result ≡ laid_out meters_widths (meters_values m) }
{
    let [c0, c1, c2, c3] = m.count.to_be_bytes();
    let [t0, t1, t2, t3] = m.timed.to_be_bytes();
    let [f0, f1, f2, f3] = m.first.to_be_bytes();
    let [s0, s1, s2, s3] = m.seconds.to_be_bytes();
    [
        c0, c1, c2, c3, t0, t1, t2, t3, f0, f1, f2, f3, s0, s1, s2, s3, m.started,
    ]
}

// Rules out: the entry answered for the code, the bytes of a number in another order.
pub fn last_bytes(p: Last) -> [u8; LAST]
    ensures { result ≡ laid_out (last_widths newest) (last_values p) }
{
    let [n0, n1, n2, n3, n4, n5, n6, n7] = p.number.to_be_bytes();
    let [a0, a1] = p.asset.to_be_bytes();
    let [u0, u1, u2, u3] = p.answer.until.to_be_bytes();
    [
        n0,
        n1,
        n2,
        n3,
        n4,
        n5,
        n6,
        n7,
        p.operation,
        a0,
        a1,
        p.kind,
        p.answer.code,
        p.answer.entry,
        u0,
        u1,
        u2,
        u3,
    ]
}

// Rules out: the open mark and its entry swapped, begin for until.
pub fn open_bytes(c: Open) -> [u8; CURRENT]
    ensures { result ≡ laid_out open_widths (open_values c) }
{
    let [b0, b1, b2, b3] = c.begin.to_be_bytes();
    let [u0, u1, u2, u3] = c.until.to_be_bytes();
    [c.on, c.entry, b0, b1, b2, b3, u0, u1, u2, u3]
}

// A number of its own: the book's switch, the content of an open use.
// Rules out: the bytes in another order.
pub fn number_bytes(n: u32) -> [u8; NUMBER]
    ensures { result ≡ laid_out (bits32 ∷ []) (n ∷ []) }
{
    n.to_be_bytes()
}

// Rules out: the mark for the player.
pub fn latest_bytes(x: Latest) -> [u8; LATEST]
    ensures { result ≡ laid_out latest_widths (latest_values x) }
{
    let [p0, p1, p2, p3] = x.player.to_be_bytes();
    let [s0, s1, s2, s3] = x.started.to_be_bytes();
    [p0, p1, p2, p3, s0, s1, s2, s3]
}

// Rules out: the timed value for the mark.
pub fn track_bytes(l: Limits) -> [u8; TRACK]
    ensures { result ≡ laid_out (track_widths newest) (track_values l) }
{
    let [c0, c1, c2, c3] = l.tracked.to_be_bytes();
    let [t0, t1, t2, t3] = l.timedvalue.to_be_bytes();
    let [m0, m1, m2, m3] = l.mark.to_be_bytes();
    [c0, c1, c2, c3, t0, t1, t2, t3, m0, m1, m2, m3]
}

// Rules out: threshold and marks swapped.
pub fn group_bytes(e: Entry) -> [u8; GROUP]
    ensures { result ≡ laid_out (group_widths newest) (group_values newest e) }
{
    let [t0, t1, t2, t3] = e.limits.threshold.to_be_bytes();
    let [m0, m1, m2, m3] = e.meters.marks.to_be_bytes();
    [t0, t1, t2, t3, m0, m1, m2, m3]
}
