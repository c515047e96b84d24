// The book of rights, an event and an answer: the types that every crate uses, their blank values, and table lookup.
// What no event changes (limits) is kept apart from what events change (meters), so that a new field goes into one struct only.
// Fields to which an image can give an illegal value (a kind of 9, an open mark of 2) are plain numbers here; the reader validates them.
#![tactic(auto)]

ghost use Rattle.std.specs.Prelude.{◌≡◌, ◌||◌, min, get_or, nat_lt, IsTrue, MatchResult};
ghost use Rattle.book.specs.Blank.{no_asset, no_entry, no_player, no_book, closed, no_line};
ghost use Rattle.book.specs.Codes.{kind_code, event_code, image_code};
ghost use Rattle.book.specs.declared.EventError.{EventError};

// The latest time that an event can have.
pub const LATEST_TIME: u32 = 4000000000;

// The greatest count, timed count and timer.
pub const MOST_TIMES: u32 = 1000000;

// The greatest interval and accumulated.
pub const MOST_SECONDS: u32 = 100000000;

// Later than any time that an event or an until can have.
pub const NEVER: u32 = u32::MAX;

// Later than any last moment.
pub const NO_END: u64 = 4294967296;

// How many bytes an event record has, and where its last byte is.
pub const RECORD_SIZE: usize = 17;

pub const RECORD_LAST: usize = RECORD_SIZE - 1;

#[derive(Clone, Copy, Debug, PartialEq, Eq)]
pub struct Asset {
    pub number: u16,
    pub inherit: u16,
    pub key: u8,
}

// What an entry allows. The flags say which limits hold. Tracked is 1 if its uses count in the report: one time for a use of at least
// timedvalue seconds. Mark is contentAccessGranted. Threshold is how many players may have it open together, 0 for any number.
#[derive(Clone, Copy, Debug, PartialEq, Eq)]
pub struct Limits {
    pub object: u16,
    pub asset: u16,
    pub kind: u8,
    pub flags: u8,
    pub count: u32,
    pub timed: u32,
    pub timer: u32,
    pub start: u32,
    pub end: u32,
    pub interval: u32,
    pub accumulated: u32,
    pub tracked: u32,
    pub timedvalue: u32,
    pub mark: u32,
    pub threshold: u32,
}

// An entry's usage so far. Started is 0 or 1, first is the time at which the interval began. Marks has bit p set if player p has the
// entry open.
#[derive(Clone, Copy, Debug, PartialEq, Eq)]
pub struct Meters {
    pub count: u32,
    pub timed: u32,
    pub first: u32,
    pub seconds: u32,
    pub started: u8,
    pub marks: u32,
}

#[derive(Clone, Copy, Debug, PartialEq, Eq)]
pub struct Entry {
    pub limits: Limits,
    pub meters: Meters,
}

// What is returned for an event: a code of document 01's table (0 for a grant), the entry's position, and until.
#[derive(Clone, Copy, Debug, PartialEq, Eq)]
pub struct Answer {
    pub code: u8,
    pub entry: u8,
    pub until: u32,
}

// A player's latest taken event, with the answer that a resend gets. Number 0 means none yet; a number's upper 32 bits are a player's
// boot number, its lower ones the counter.
#[derive(Clone, Copy, Debug, PartialEq, Eq)]
pub struct Last {
    pub number: u64,
    pub operation: u8,
    pub asset: u16,
    pub kind: u8,
    pub answer: Answer,
}

// The use that a player has open, if on is 1. Content is the asset that its begin asked for.
#[derive(Clone, Copy, Debug, PartialEq, Eq)]
pub struct Open {
    pub on: u8,
    pub entry: u8,
    pub begin: u32,
    pub until: u32,
    pub content: u32,
}

#[derive(Clone, Copy, Debug, PartialEq, Eq)]
pub struct Player {
    pub last: Last,
    pub current: Open,
}

// One line of the usage report: how often and for how many seconds a content was used.
#[repr(C)]
#[derive(Clone, Copy, Debug, PartialEq, Eq)]
pub struct Line {
    pub content: u64,
    pub times: u64,
    pub seconds: u64,
}

// The event taken last: its player plus 1, 0 for none, and 1 if it opened a use that started its entry's interval.
#[derive(Clone, Copy, Debug, PartialEq, Eq)]
pub struct Latest {
    pub player: u32,
    pub started: u32,
}

// Slots past the counts are blank in a legal book, so that equal books are equal values. Switch is 1 if uses are metered for the report.
#[derive(Clone, Copy, Debug, PartialEq, Eq)]
pub struct Book {
    pub time: u32,
    pub switch: u32,
    pub latest: Latest,
    pub assetcount: u8,
    pub entrycount: u8,
    pub assets: [Asset; 64],
    pub entries: [Entry; 64],
    pub players: [Player; 16],
}

// What a content is used for, by its number in records and images.
#[derive(Clone, Copy, Debug, PartialEq, Eq)]
pub enum Kind {
    Play = 1,
    Display = 2,
    Execute = 3,
    Print = 4,
    Export = 5,
}

// Why an event, or the bytes of its record, are refused, by the number in document 01's table.
#[derive(Clone, Copy, Debug, PartialEq, Eq)]
pub enum EventError {
    Request = 1,
    Player = 2,
    OutOfLine = 3,
    OtherRequest = 4,
    Time = 5,
    Length = 6,
    Unusable = 10,
    AlreadyOpen = 11,
    Unsuitable = 12,
    Spent = 13,
    NotOpen = 14,
    NoMore = 15,
    Lines = 30,
    SwitchOff = 43,
    TooLate = 44,
}

// Why an image is refused, by the number in document 01's table.
#[derive(Clone, Copy, Debug, PartialEq, Eq)]
pub enum ImageError {
    Length = 20,
    Mark = 21,
    Version = 22,
    Header = 23,
    Assets = 24,
    Entries = 25,
    Players = 26,
    Meters = 27,
}

// A lent buffer is too short for what belongs into it, and was left as it was.
#[derive(Clone, Copy, Debug, PartialEq, Eq)]
pub struct NoRoom;

// Cancel takes a begin back: the film did not load.
#[derive(Clone, Copy, Debug, PartialEq, Eq)]
pub enum Request {
    Begin(Kind, u16),
    Continue,
    Stop,
    Cancel,
}

#[derive(Clone, Copy, Debug, PartialEq, Eq)]
pub struct Event {
    pub player: u8,
    pub number: u64,
    pub request: Request,
    pub time: u32,
}

// Who asks, and when, and the book's switch: what the choice of an entry reads besides the entries.
#[derive(Clone, Copy)]
pub struct Ask {
    pub player: u8,
    pub time: u32,
    pub switch: u32,
}

// What a cancel reads of the event taken last: whether it was the asking player's begin of the use that it has open, and whether that
// started the interval.
#[derive(Clone, Copy)]
pub struct Recent {
    pub begun: bool,
    pub started: bool,
}

// What stands against granting an entry, each ground under its name.
#[derive(Clone, Copy)]
pub struct Grounds {
    pub countspent: bool,
    pub timedspent: bool,
    pub beforestart: bool,
    pub afterend: bool,
    pub intervalover: bool,
    pub secondsspent: bool,
    pub intervalzero: bool,
    pub switchoff: bool,
    pub thresholdfull: bool,
}

// What the checks let an event do before the book is touched: get its stored answer again, or be taken.
#[derive(Clone, Copy, Debug, PartialEq, Eq)]
pub enum Admission {
    Resend,
    Take,
}

// What entries are ordered by, field by field: the smaller number comes first.
#[derive(Clone, Copy)]
pub struct Rank {
    pub flags: u8,
    pub last: u64,
    pub inherited: u8,
}

// The answer to an event, and the book after it.
#[derive(Clone, Copy)]
pub struct Outcome {
    pub answer: Answer,
    pub book: Book,
}

// The same with the lines of the report after it.
#[derive(Clone, Copy)]
pub struct Reported {
    pub answer: Answer,
    pub book: Book,
    pub lines: [Line; 64],
}

// What a call returns that lacks room for its result: "30 | writer's buffer too short | buffer untouched". The 30 for a list that is not
// good is an answer to an event, and no call returns it.
pub const NO_ROOM: u8 = 30;

// Rules out: two kinds with the same number, numbers from 0.
impl From<Kind> for u8 {
    ghost from_gives = { λ k n. n ≡ kind_code k };

    fn from(k: Kind) -> u8 {
        k as u8
    }
}

// Rules out: a kind for 0 or 6, a kind for another kind's number.
impl TryFrom<u8> for Kind {
    type Error = EventError;

    ghost try_from_gives = { λ n r. MatchResult r (λ k. n ≡ kind_code k)
        (λ e. (IsTrue (nat_lt n 1 || nat_lt 5 n)) × (e ≡ EventError.Request)) };

    fn try_from(n: u8) -> Result<Kind, EventError> {
        match n {
            1 => Ok(Kind::Play),
            2 => Ok(Kind::Display),
            3 => Ok(Kind::Execute),
            4 => Ok(Kind::Print),
            5 => Ok(Kind::Export),
            _ => Err(EventError::Request),
        }
    }
}

// Rules out: two refusals with the same number, the numbers of two exchanged.
impl From<EventError> for u8 {
    ghost from_gives = { λ e n. n ≡ event_code e };

    fn from(e: EventError) -> u8 {
        e as u8
    }
}

// Rules out: a stage's number with another stage.
impl From<ImageError> for u8 {
    ghost from_gives = { λ e n. n ≡ image_code e };

    fn from(e: ImageError) -> u8 {
        e as u8
    }
}

// Rules out: the number of another refusal.
impl From<NoRoom> for u8 {
    ghost from_gives = { λ _ n. n ≡ 30 };

    fn from(_e: NoRoom) -> u8 {
        NO_ROOM
    }
}

// Rules out: a number or a key that is not 0.
pub fn blank_asset() -> Asset
    ensures { result ≡ no_asset }
{
    Asset {
        number: 0,
        inherit: 0,
        key: 0,
    }
}

// Rules out: a flag or a meter that is not 0.
pub fn blank_entry() -> Entry
    ensures { result ≡ no_entry }
{
    Entry {
        limits: Limits {
            object: 0,
            asset: 0,
            kind: 0,
            flags: 0,
            count: 0,
            timed: 0,
            timer: 0,
            start: 0,
            end: 0,
            interval: 0,
            accumulated: 0,
            tracked: 0,
            timedvalue: 0,
            mark: 0,
            threshold: 0,
        },
        meters: Meters {
            count: 0,
            timed: 0,
            first: 0,
            seconds: 0,
            started: 0,
            marks: 0,
        },
    }
}

// Rules out: a last number or an open use.
pub fn blank_player() -> Player
    ensures { result ≡ no_player }
{
    Player {
        last: Last {
            number: 0,
            operation: 0,
            asset: 0,
            kind: 0,
            answer: Answer {
                code: 0,
                entry: 0,
                until: 0,
            },
        },
        current: Open {
            on: 0,
            entry: 0,
            begin: 0,
            until: 0,
            content: 0,
        },
    }
}

// The entry at a position, blank past the table's end.
// Rules out: the last entry for a position past the end, a neighbouring entry.
pub fn entry_at(entries: [Entry; 64], k: usize) -> Entry
    ensures { result ≡ get_or entries k no_entry }
{
    if k < 64 {
        return entries[k];
    }
    blank_entry()
}

// The player at a position, blank past the table's end.
// Rules out: the last player for a position past the end, a neighbouring player.
pub fn player_at(players: [Player; 16], i: usize) -> Player
    ensures { result ≡ get_or players i no_player }
{
    if i < 16 {
        return players[i];
    }
    blank_player()
}

// How many slots of a table are in use: a count above 64, which no image has, counts as 64.
// Rules out: 63 for 64, a count above 64 passed on.
pub fn at_most_64(count: u8) -> usize
    ensures { result ≡ min count 64 }
{
    usize::from(count).min(64)
}

// A line that names no content.
// Rules out: a time or a second in it.
pub fn blank_line() -> Line
    ensures { result ≡ no_line }
{
    Line {
        content: 0,
        times: 0,
        seconds: 0,
    }
}

// The empty book.
// Rules out: a time or a count that is not 0.
pub fn blank_book() -> Book
    ensures { result ≡ no_book }
{
    Book {
        time: 0,
        switch: 0,
        latest: Latest {
            player: 0,
            started: 0,
        },
        assetcount: 0,
        entrycount: 0,
        assets: [blank_asset(); 64],
        entries: [blank_entry(); 64],
        players: [blank_player(); 16],
    }
}

// A use that is not open.
// Rules out: a begin or an until left in it.
pub fn closed_use() -> Open
    ensures { result ≡ closed }
{
    Open {
        on: 0,
        entry: 0,
        begin: 0,
        until: 0,
        content: 0,
    }
}

// "Each of 1 to 15 returns entry 255 and until 0.", and so do 30, 43 and 44.
// Rules out: entry 0, the code in another place.
pub fn refusal(code: u8) -> Answer
    ensures { result ≡ record { code = code; entry = 255; until = 0 } }
{
    Answer {
        code: code,
        entry: 255,
        until: 0,
    }
}

// The same by the refusal's name.
// Rules out: the answer of another refusal.
pub fn refused(error: EventError) -> Answer
    ensures { result ≡ record { code = event_code error; entry = 255; until = 0 } }
{
    refusal(error.into())
}
