// The first half of reading an image: the header is checked, and the tables after it are read into a book, by the layout of the
// image's version. An older image gets the marks that it lacks. The contents of the tables are not checked here.
#![tactic(auto)]

ghost use Rattle.std.specs.Prelude.{◌≡◌, cond, ℕ, ◌+◌, ◌*◌, ◌-◌, ◌<◌, ◌≤◌, List, ◌++◌, length, drop, replicate, leb, MatchResult};
ghost use Rattle.numbers.specs.Fields.{bits8, bits16, bits32, bits64, number_at};
ghost use Rattle.numbers.specs.Count.{listed};
ghost use Rattle.book.specs.Blank.{no_asset, no_entry, no_player};
ghost use Rattle.book.specs.Codes.{image_code};
ghost use Rattle.model.specs.Image.{newest, number_width, asset_size, entry_size, player_size, asset_in, entry_in, player_in};
ghost use Rattle.model.specs.Image.{with_marks, marked_entries, marked, version_in, book_as, book_in};
ghost use Rattle.model.specs.Image.{header_broken};
ghost use Rattle.image_parse.specs.Versions.{wider};

use book::{
    Answer, Asset, Book, Entry, ImageError, LATEST_TIME, Last, Latest, Limits, Meters, Open,
    Player, at_most_64,
};
use image_pieces::{
    HEADER_START, NEWEST, asset_size, entries_from, entry_size, header_size, image_length,
    player_size, players_from,
};
use rules::marks_of;

fn read8(s: &[u8], at: usize) -> u8
    requires { at + 1 ≤ length s.now }
    ensures { result ≡ number_at bits8 at s.now }
{
    s[at]
}

fn read16(s: &[u8], at: usize) -> u16
    requires { at + 2 ≤ length s.now }
    ensures { result ≡ number_at bits16 at s.now }
{
    u16::from_be_bytes([s[at], s[at + 1]])
}

fn read32(s: &[u8], at: usize) -> u32
    requires { at + 4 ≤ length s.now }
    ensures { result ≡ number_at bits32 at s.now }
{
    u32::from_be_bytes([s[at], s[at + 1], s[at + 2], s[at + 3]])
}

fn read64(s: &[u8], at: usize) -> u64
    requires { at + 8 ≤ length s.now }
    ensures { result ≡ number_at bits64 at s.now }
{
    u64::from_be_bytes([
        s[at],
        s[at + 1],
        s[at + 2],
        s[at + 3],
        s[at + 4],
        s[at + 5],
        s[at + 6],
        s[at + 7],
    ])
}

// A number that a version added, 0 in those before it.
fn added32(s: &[u8], v: u16, first: u16, at: usize) -> u32
    requires { first ≤ v → at + 4 ≤ length s.now }
    ensures { result ≡ cond (leb first v) (number_at bits32 at s.now) 0 }
{
    if first <= v {
        return read32(s, at);
    }
    0
}

// A record of a table: how many bytes it has in a version, and what it is in bytes that begin with it. A field that the version lacks
// is 0.
trait Record: Copy {
    ghost bytes: { ℕ → ℕ };

    ghost held: { ℕ → List ℕ → Self };

    ghost none: { Self };

    fn width(v: u16) -> usize
        ensures { (result ≡ bytes v) × (result ≤ 200) };

    fn blank() -> Self
        ensures { result ≡ none };

    fn read(s: &[u8], v: u16) -> Self
        requires { (1 ≤ v) × (v ≤ newest) × (bytes v ≤ length s.now) }
        ensures { result ≡ held v s.now };
}

impl Record for Asset {
    ghost bytes = { asset_size };

    ghost held = { asset_in };

    ghost none = { no_asset };

    fn width(v: u16) -> usize {
        asset_size(v)
    }

    fn blank() -> Asset {
        book::blank_asset()
    }

    fn read(s: &[u8], v: u16) -> Asset {
        asset_in(s, v)
    }
}

impl Record for Entry {
    ghost bytes = { entry_size };

    ghost held = { entry_in };

    ghost none = { no_entry };

    fn width(v: u16) -> usize {
        entry_size(v)
    }

    fn blank() -> Entry {
        book::blank_entry()
    }

    fn read(s: &[u8], v: u16) -> Entry {
        entry_in(s, v)
    }
}

impl Record for Player {
    ghost bytes = { player_size };

    ghost held = { player_in };

    ghost none = { no_player };

    fn width(v: u16) -> usize {
        player_size(v)
    }

    fn blank() -> Player {
        book::blank_player()
    }

    fn read(s: &[u8], v: u16) -> Player {
        player_in(s, v)
    }
}

#[tactic(auto, unfolding(model::specs::Image::asset_size))]
fn asset_in(s: &[u8], v: u16) -> Asset
    requires { (1 ≤ v) × (v ≤ newest) × (asset_size v ≤ length s.now) }
    ensures { result ≡ asset_in v s.now }
{
    Asset {
        number: read16(s, 0),
        inherit: read16(s, 2),
        key: read8(s, 4),
    }
}

fn limits_in(s: &[u8], v: u16) -> Limits
    requires { (1 ≤ v) × (v ≤ newest) × (51 ≤ length s.now) × (entry_size v ≤ length s.now) }
    ensures { result ≡ (entry_in v s.now).limits }
{
    let tracked = added32(s, v, 2, 51);
    let timedvalue = added32(s, v, 2, 55);
    let mark = added32(s, v, 2, 59);
    let threshold = added32(s, v, 4, 63);
    Limits {
        object: read16(s, 0),
        asset: read16(s, 2),
        kind: read8(s, 4),
        flags: read8(s, 5),
        count: read32(s, 6),
        timed: read32(s, 10),
        timer: read32(s, 14),
        start: read32(s, 18),
        end: read32(s, 22),
        interval: read32(s, 26),
        accumulated: read32(s, 30),
        tracked: tracked,
        timedvalue: timedvalue,
        mark: mark,
        threshold: threshold,
    }
}

fn meters_in(s: &[u8], v: u16) -> Meters
    requires { (1 ≤ v) × (v ≤ newest) × (51 ≤ length s.now) × (entry_size v ≤ length s.now) }
    ensures { result ≡ (entry_in v s.now).meters }
{
    let marks = added32(s, v, 4, 67);
    Meters {
        count: read32(s, 34),
        timed: read32(s, 38),
        first: read32(s, 42),
        seconds: read32(s, 46),
        started: read8(s, 50),
        marks: marks,
    }
}

fn entry_in(s: &[u8], v: u16) -> Entry
    requires { (1 ≤ v) × (v ≤ newest) × (entry_size v ≤ length s.now) }
    ensures { result ≡ entry_in v s.now }
{
    Entry {
        limits: limits_in(s, v),
        meters: meters_in(s, v),
    }
}

// How many bytes more a player's number has than in versions 1 and 2: what follows it is so much further on.
fn wider(v: u16) -> usize
    ensures { result ≡ wider v }
{
    if 3 <= v {
        return 4;
    }
    0
}

// A player's number, by the width that the version has.
fn number_in(s: &[u8], v: u16) -> u64
    requires { 4 + wider v ≤ length s.now }
    ensures { result ≡ number_at (number_width v) 0 s.now }
{
    if 3 <= v {
        return read64(s, 0);
    }
    let n = read32(s, 0);
    n as u64
}

fn last_in(s: &[u8], v: u16) -> Last
    requires { (1 ≤ v) × (v ≤ newest) × (24 + wider v ≤ length s.now) × (player_size v ≤ length s.now) }
    ensures { result ≡ (player_in v s.now).last }
{
    let o = wider(v);
    Last {
        number: number_in(s, v),
        operation: read8(s, 4 + o),
        asset: read16(s, 5 + o),
        kind: read8(s, 7 + o),
        answer: Answer {
            code: read8(s, 8 + o),
            entry: read8(s, 9 + o),
            until: read32(s, 10 + o),
        },
    }
}

fn open_in(s: &[u8], v: u16) -> Open
    requires { (1 ≤ v) × (v ≤ newest) × (24 + wider v ≤ length s.now) × (player_size v ≤ length s.now) }
    ensures { result ≡ (player_in v s.now).current }
{
    let o = wider(v);
    let content = added32(s, v, 2, 24 + o);
    Open {
        on: read8(s, 14 + o),
        entry: read8(s, 15 + o),
        begin: read32(s, 16 + o),
        until: read32(s, 20 + o),
        content: content,
    }
}

fn player_in(s: &[u8], v: u16) -> Player
    requires { (1 ≤ v) × (v ≤ newest) × (player_size v ≤ length s.now) }
    ensures { result ≡ player_in v s.now }
{
    Player {
        last: last_in(s, v),
        current: open_in(s, v),
    }
}

// A table: the records at offset `at`, one after the other by the width of the version, and blank slots after them.
fn table_in<T: Record, const N: usize>(s: &[u8], v: u16, at: usize, n: usize) -> [T; N]
    requires { (1 ≤ v) × (v ≤ newest) × (n ≤ N) × (at + T.bytes v * n ≤ length s.now) }
    ensures { result ≡ listed (λ i. T.held v (drop (at + T.bytes v * i) s.now)) n ++ replicate (N - n) T.none }
{
    let width = T::width(v);
    let mut table = [T::blank(); N];
    let mut o = at;
    for i in 0..n {
        table[i] = T::read(&s[o..], v);
        o = o + width;
    }
    table
}

// The first header rule that is broken.
#[tactic(auto, unfolding(model::specs::Image::header_broken, model::specs::Image::mark_in, model::specs::Image::version_in, model::specs::Image::asset_count_in, model::specs::Image::entry_count_in, model::specs::Image::time_in))]
fn header_broken(s: &[u8]) -> Result<(), ImageError>
    ensures { MatchResult result (λ _. header_broken s.now ≡ 0) (λ e. header_broken s.now ≡ image_code e) }
{
    if s.len() < HEADER_START {
        return Err(ImageError::Length);
    }
    if !((s[0] == 82) & (s[1] == 66) & (s[2] == 75)) {
        return Err(ImageError::Mark);
    }
    let v = read16(s, 3);
    if !((1 <= v) & (v <= NEWEST)) {
        return Err(ImageError::Version);
    }
    let assets = s[5];
    let entries = s[6];
    if (64 < assets) | (64 < entries) | (LATEST_TIME < read32(s, 7)) {
        return Err(ImageError::Header);
    }
    if s.len() != image_length(v, assets, entries) {
        return Err(ImageError::Length);
    }
    Ok(())
}

// The book by the layout of the image's version.
fn book_as(s: &[u8]) -> Book
    requires { header_broken s.now ≡ 0 }
    ensures { result ≡ book_as (version_in s.now) s.now }
{
    let v = read16(s, 3);
    let assets = s[5];
    let entries = s[6];
    let assetsfrom = header_size(v);
    let entriesfrom = entries_from(v, assets);
    let playersfrom = players_from(v, assets, entries);
    let switch = added32(s, v, 2, HEADER_START);
    let player = added32(s, v, 5, 15);
    let started = added32(s, v, 5, 19);
    Book {
        time: read32(s, 7),
        switch: switch,
        latest: Latest {
            player: player,
            started: started,
        },
        assetcount: assets,
        entrycount: entries,
        assets: table_in(s, v, assetsfrom, assets as usize),
        entries: table_in(s, v, entriesfrom, entries as usize),
        players: table_in(s, v, playersfrom, 16),
    }
}

fn with_marks(marks: u32, mut e: Entry) -> Entry
    ensures { result ≡ with_marks marks e }
{
    e.meters.marks = marks;
    e
}

// The first n entries with a mark for each player that has them open.
fn marked_entries(players: [Player; 16], entries: [Entry; 64], n: usize) -> [Entry; 64]
    requires { n ≤ 64 }
    ensures { result ≡ marked_entries players entries n }
{
    let mut table = entries;
    for i in 0..n {
        table[i] = with_marks(marks_of(players, i), entries[i]);
    }
    table
}

// Version 4 is the first that says the marks; before it they follow from the open uses.
fn marked(v: u16, b: Book) -> Book
    ensures { result ≡ marked v b }
{
    if 4 <= v {
        return b;
    }
    let players = b.players;
    let entries = b.entries;
    let table = marked_entries(players, entries, at_most_64(b.entrycount));
    let mut older = b;
    older.entries = table;
    older
}

fn book_in(s: &[u8]) -> Book
    requires { header_broken s.now ≡ 0 }
    ensures { result ≡ book_in s.now }
{
    let v = read16(s, 3);
    let b = book_as(s);
    marked(v, b)
}

// Rules out: Mark for ten bytes without the mark (the length is checked first: Length); entries read from an offset that
// does not depend on the number of assets; an older image whose marks stay 0.
pub fn parse(s: &[u8]) -> Result<Book, ImageError>
    ensures { MatchResult result (λ b. (header_broken s.now ≡ 0) × (b ≡ book_in s.now)) (λ e. header_broken s.now ≡ image_code e) }
{
    header_broken(s)?;
    Ok(book_in(s))
}
