// The rules of document 01 for one entry and one player: the checks on an event's number and time, which entry is suitable and grantable,
// which of two comes first, and the least until. Everything is read from the limits and meters of one entry, so no function here takes
// a book.
// Besides, the marks of an entry that follow from the players' open uses: the reader sets them for an older image, and rule 27 asks for
// them in every image.
// Every function is total, and its contract gives its whole result.
#![tactic(auto)]

ghost use Rattle.std.specs.Prelude.{◌≡◌, ◌+◌, ◌-◌, ltb, is_some, Some, true, MatchResult};
ghost use Rattle.book.specs.Codes.{event_code};
ghost use Rattle.book.specs.Gate.{Refuse, passed};
ghost use Rattle.model.specs.Book.{grant_length, is_group, momentary, opens, marks_of};
ghost use Rattle.model.specs.Gate.{same_request, in_line, gate};
ghost use Rattle.model.specs.Step.{noted, just_begun, recent_of};
ghost use Rattle.model.specs.Choice.{fails, grounds_of, grantable, last_moment, ranks_before, cap, least_until};
ghost use Rattle.numbers.specs.Bits.{ones};
ghost use Rattle.numbers.specs.Count.{one};
ghost use Rattle.model.specs.Meters.{where_flagged};
ghost use Rattle.rules.specs.Codes.{begin_code};
ghost use Rattle.rules.specs.Line.{out_of_line};
ghost use Rattle.rules.specs.Rules.{wire_of, flags_of};

use book::{
    Admission, Answer, Ask, Event, EventError, Grounds, LATEST_TIME, Last, Latest, Limits, Meters,
    NO_END, Open, Player, Rank, Recent, Request,
};
use numbers::{ones, pick};

// The three numbers of a request, as event records and images have them.
#[derive(Clone, Copy)]
pub struct Wire {
    pub operation: u8,
    pub asset: u16,
    pub kind: u8,
}

// Which limits of an entry are flagged.
#[derive(Clone, Copy)]
pub struct Flags {
    pub count: bool,
    pub timed: bool,
    pub start: bool,
    pub end: bool,
    pub interval: bool,
    pub accumulated: bool,
}

// The number if the test passes, otherwise 0.
// Rules out: the number if the test fails, 1 for the number.
pub fn when(w: bool, v: u32) -> u32
    ensures { result ≡ where_flagged w v }
{
    pick(w, v, 0)
}

// Rules out: a kind or an asset for any request but a begin, two operations with the same number.
impl From<Request> for Wire {
    ghost from_gives = { λ q w. w ≡ wire_of q };

    fn from(q: Request) -> Wire {
        match q {
            Request::Begin(k, a) => Wire {
                operation: 1,
                asset: a,
                kind: u8::from(k),
            },
            Request::Continue => Wire {
                operation: 2,
                asset: 0,
                kind: 0,
            },
            Request::Stop => Wire {
                operation: 3,
                asset: 0,
                kind: 0,
            },
            Request::Cancel => Wire {
                operation: 4,
                asset: 0,
                kind: 0,
            },
        }
    }
}

// Rules out: taking a begin of another asset or kind for the same request.
#[tactic(auto, unfolding(model::specs::Gate::same_request))]
fn same_request(last: Last, q: Request) -> bool
    ensures { result ≡ same_request last q }
{
    let w = Wire::from(q);
    (w.operation == last.operation) & (w.asset == last.asset) & (w.kind == last.kind)
}

// Whether a number is in line after the player's last one: the next number, or counter 1 under a greater boot number; "only the largest
// 64-bit number has none after it".
// Rules out: counter 2 under a greater boot number, counter 0 there unless it is the next number, counter 1 again under the same boot
// number or under a smaller one, a number after the largest.
fn in_line(last: Last, number: u64) -> bool
    ensures { result ≡ in_line last number }
{
    let Some(next) = last.number.checked_add(1) else {
        return false;
    };
    if next == number {
        return true;
    }
    // With counter 1, and not the next one, a greater number is one with a greater boot number.
    (last.number < number) & (number % 4294967296 == 1)
}

// A number that is not in line: a resend or 4 if it is the last one, otherwise 3.
#[tactic(auto, unfolding(crate::specs::Line::out_of_line, model::specs::Gate::same_number))]
fn out_of_line(last: Last, e: Event) -> Result<Admission, EventError>
    ensures { MatchResult result (λ a. out_of_line last e ≡ passed a) (λ x. out_of_line last e ≡ Refuse (event_code x)) }
{
    if (last.number == 0) | (e.number != last.number) {
        return Err(EventError::OutOfLine);
    }
    if !same_request(last, e.request) {
        return Err(EventError::OtherRequest);
    }
    Ok(Admission::Resend)
}

// Rules out: reading the time of a resend, a resend of number 0, the time checked before the number.
#[tactic(auto, unfolding(model::specs::Gate::gate, model::specs::Gate::timely, crate::specs::Line::out_of_line))]
pub fn gate_of(now: u32, last: Last, e: Event) -> Result<Admission, EventError>
    ensures { MatchResult result (λ a. gate now last e ≡ passed a) (λ x. gate now last e ≡ Refuse (event_code x)) }
{
    if 15 < e.player {
        return Err(EventError::Player);
    }
    if !in_line(last, e.number) {
        return out_of_line(last, e);
    }
    if (e.time < now) | (LATEST_TIME < e.time) {
        return Err(EventError::Time);
    }
    Ok(Admission::Take)
}

// Rules out: storing a number, request or answer other than the event's.
pub fn noted_last(e: Event, a: Answer) -> Last
    ensures { result ≡ noted e a }
{
    let w = Wire::from(e.request);
    Last {
        number: e.number,
        operation: w.operation,
        asset: w.asset,
        kind: w.kind,
        answer: a,
    }
}

// What the header keeps of an event taken from a player.
// Rules out: the player itself for the player plus 1, the mark of an event that started no interval.
pub fn latest_by(player: u8, started: bool) -> Latest
    ensures { result ≡ record { player = player + 1; started = one started } }
{
    Latest {
        player: player as u32 + 1,
        started: u32::from(started),
    }
}

// Whether the event taken last was this player's begin of the use that it has open.
// Rules out: another player's event passed over, a begin that was refused, a begin of another use, a continue since.
#[tactic(auto, unfolding(model::specs::Step::just_begun))]
fn just_begun(latest: Latest, player: u8, last: Last, o: Open) -> bool
    ensures { result ≡ just_begun latest player last o }
{
    let a = last.answer;
    let own = player as u32 + 1;
    (latest.player == own)
        & (last.operation == 1)
        & (a.code == 0)
        & (a.entry == o.entry)
        & (a.until == o.until)
}

// What a cancel by this player reads of the event taken last.
// Rules out: the two swapped, an interval started by an event that did not start it.
pub fn recent_of(latest: Latest, player: u8, last: Last, o: Open) -> Recent
    ensures { result ≡ recent_of latest player last o }
{
    Recent {
        begun: just_begun(latest, player, last, o),
        started: latest.started == 1,
    }
}

// Rules out: two flags swapped, a flag above 32 read.
pub fn flags_of(l: Limits) -> Flags
    ensures { result ≡ flags_of l }
{
    Flags {
        count: l.flags % 2 == 1,
        timed: l.flags / 2 % 2 == 1,
        start: l.flags / 4 % 2 == 1,
        end: l.flags / 8 % 2 == 1,
        interval: l.flags / 16 % 2 == 1,
        accumulated: l.flags / 32 % 2 == 1,
    }
}

// How many seconds a grant of a kind gives at most. By its number: an entry that an image holds can have a kind that is none.
// Rules out: 59 or 61 seconds.
#[tactic(auto, unfolding(model::specs::Book::grant_length))]
pub fn grant_length(kind: u8) -> u32
    ensures { result ≡ grant_length kind }
{
    60
}

// By the kind's number, as above.
// Rules out: treating execute as momentary, or export as not.
#[tactic(auto, unfolding(model::specs::Book::momentary))]
pub fn momentary(kind: u8) -> bool
    ensures { result ≡ momentary kind }
{
    (4 <= kind) & (kind <= 5)
}

// Whether as many players have the entry open as its threshold allows.
// Rules out: a threshold of 0 that is full, one player more than the threshold, a player's mark left out.
pub fn threshold_full(l: Limits, m: Meters) -> bool
    ensures { result ≡ fails (is_group l) (ltb (ones m.marks) l.threshold) }
{
    if l.threshold == 0 {
        return false;
    }
    !(ones(m.marks) < l.threshold)
}

// Whether a player's use is open and of entry i.
// Rules out: true for a closed use, or for one of another entry.
#[tactic(auto, unfolding(model::specs::Book::opens))]
pub fn opens_entry(i: usize, o: Open) -> bool
    ensures { result ≡ opens i o }
{
    let entry = o.entry as usize;
    (o.on == 1) & (entry == i)
}

// The marks of entry i: bit p for a player p that has it open.
// Rules out: the last player left out, the marks of another entry.
pub fn marks_of(players: [Player; 16], i: usize) -> u32
    ensures { result ≡ marks_of players i }
{
    let mut marks: u32 = 0;
    let mut weight: u32 = 1;
    for p in 0..16 {
        let q = players[p];
        let w = opens_entry(i, q.current);
        marks = marks + pick(w, weight, 0);
        weight = weight * 2;
    }
    marks
}

// What stands against granting an entry to who asks.
// Rules out: end taken as excluded, a limit tested without its flag, a sum that wraps, an interval of 0 that is granted once, a tracked
// entry granted with the switch off and no mark, a full threshold passed over.
#[tactic(auto, unfolding(model::specs::Choice::grounds_of, crate::specs::Rules::flags_of))]
pub fn grounds_of(l: Limits, m: Meters, ask: Ask) -> Grounds
    ensures { result ≡ grounds_of ask l m }
{
    let t = ask.time;
    let first = m.first as u64;
    let interval = l.interval as u64;
    let due = first + interval;
    let now = t as u64;
    let f = flags_of(l);
    let full = threshold_full(l, m);
    Grounds {
        countspent: f.count & !(m.count < l.count),
        timedspent: f.timed & !(m.timed < l.timed),
        beforestart: f.start & !(l.start <= t),
        afterend: f.end & !(t <= l.end),
        intervalover: f.interval & !(!(m.started == 1) | (now < due)),
        secondsspent: f.accumulated & !(m.seconds < l.accumulated),
        intervalzero: f.interval & !(0 < l.interval),
        switchoff: (l.tracked == 1) & !((ask.switch == 1) | (l.mark == 1)),
        thresholdfull: full,
    }
}

// Rules out: a ground left out, an entry granted because only one ground stands.
pub fn grantable(l: Limits, m: Meters, ask: Ask) -> bool
    ensures { result ≡ grantable ask l m }
{
    let g = grounds_of(l, m, ask);
    !g.countspent
        & !g.timedspent
        & !g.beforestart
        & !g.afterend
        & !g.intervalover
        & !g.secondsspent
        & !g.intervalzero
        & !g.switchoff
        & !g.thresholdfull
}

// The smaller of end + 1 and, if the interval has started, first + interval; NO_END if there is neither.
// Rules out: end for end + 1, an end that is not flagged, an interval that has not started, the larger of the two.
#[tactic(auto, unfolding(model::specs::Choice::last_moment, crate::specs::Rules::flags_of))]
pub fn last_moment(l: Limits, m: Meters) -> u64
    ensures { result ≡ last_moment l m }
{
    let f = flags_of(l);
    let first = m.first as u64;
    let interval = l.interval as u64;
    let due = first + interval;
    let end = l.end as u64;
    let over = end + 1;
    let closed = pick(f.end, over, NO_END);
    closed.min(pick(f.interval & (m.started == 1), due, NO_END))
}

// Rules out: own after inherited, a later last moment first, fields compared in another order.
#[tactic(auto, unfolding(model::specs::Choice::ranks_before))]
pub fn ranks_before(a: Rank, b: Rank) -> bool
    ensures { result ≡ ranks_before a b }
{
    a.flags < b.flags
        || a.flags == b.flags && (a.last < b.last || a.last == b.last && a.inherited < b.inherited)
}

// Rules out: a cap applied without its flag, the larger of the two.
fn capped(w: bool, v: u64, x: u64) -> u64
    ensures { result ≡ cap w v x }
{
    pick(w, v.min(x), x)
}

// Rules out: a limit left out, a limit that is not flagged, first instead of t where no interval has started.
#[tactic(auto, unfolding(model::specs::Choice::least_until, crate::specs::Rules::flags_of))]
pub fn least_until(t: u32, from: u32, l: Limits, m: Meters) -> u64
    ensures { result ≡ least_until t from l m }
{
    let f = flags_of(l);
    let now = t as u64;
    let length = grant_length(l.kind) as u64;
    let granted = now + length;
    let unused = l.accumulated.saturating_sub(m.seconds) as u64;
    let paid = from as u64 + unused;
    let first = pick(m.started == 1, m.first, t) as u64;
    let interval = l.interval as u64;
    let due = first + interval;
    let end = l.end as u64;
    capped(
        f.end,
        end + 1,
        capped(f.interval, due, capped(f.accumulated, paid, granted)),
    )
}

// The entry that a begin gets, which is the one at that position, or why it gets none: "**Begin**, in order: 11, 10, 12, 13.", or 43 in
// place of 13 if some suitable entry fails for the switch only.
// Rules out: 10 before 11, 13 where nothing is suitable, 43 where an entry is granted.
pub fn begin_entry(
    on: bool,
    usable: bool,
    suits: bool,
    at: Option<usize>,
    switched: bool,
) -> Result<usize, EventError>
    ensures { MatchResult result
        (λ k. (at ≡ Some k) × (begin_code on usable suits true switched ≡ 0))
        (λ e. event_code e ≡ begin_code on usable suits (is_some at) switched) }
{
    if on {
        return Err(EventError::AlreadyOpen);
    }
    if !usable {
        return Err(EventError::Unusable);
    }
    if !suits {
        return Err(EventError::Unsuitable);
    }
    at.ok_or(pick(switched, EventError::SwitchOff, EventError::Spent))
}
