// A use of one entry: begin, continue, stop and cancel on the entry's limits and meters and the asking player's open use, and the
// settling of a use.
// Every function is total. A time that no event has (above 4000000000) grants nothing, so no sum passes 32 bits.
#![tactic(auto)]

ghost use Rattle.std.specs.Prelude.{◌≡◌, ◌≤◌};
ghost use Rattle.model.specs.Book.{latest_time};
ghost use Rattle.model.specs.Meters.{expired, shut, begun, continued, ended, cancelled};
ghost use Rattle.model.specs.Step.{starts_interval};
ghost use Rattle.model.specs.Choice.{grant_until, more_until};
ghost use Rattle.uses.specs.Uses.{kept, begin_on, continue_on, stop_on, cancel_on, released_on};
ghost use Rattle.uses.specs.Room.{Room, MoreRoom};
ghost use Rattle.uses.specs.Due.{any_due};

use book::{
    Answer, Ask, EventError, LATEST_TIME, Limits, Meters, Open, Player, Recent, closed_use, refusal,
};
use numbers::{one, pick, with_bit};
use rules::{flags_of, grantable, least_until, momentary, when};

// What an operation leaves: the answer, the entry's meters, the asking player's use, and whether it opened a use that started the
// interval.
#[derive(Clone, Copy)]
pub struct Effect {
    pub answer: Answer,
    pub meters: Meters,
    pub current: Open,
    pub started: bool,
}

// A refusal that leaves meters and use as they are.
// Rules out: an entry other than 255, meters or a use changed.
pub fn kept(code: u8, m: Meters, o: Open) -> Effect
    ensures { result ≡ kept code m o }
{
    Effect {
        answer: refusal(code),
        meters: m,
        current: o,
        started: false,
    }
}

#[tactic(auto, unfolding(model::specs::Choice::grant_until))]
fn grant_until(l: Limits, m: Meters, t: u32) -> u32
    requires { t ≤ latest_time }
    ensures { result ≡ grant_until t l m }
{
    let until = least_until(t, t, l, m) as u32;
    pick(momentary(l.kind), t, until)
}

#[tactic(auto, unfolding(model::specs::Choice::more_until))]
fn more_until(l: Limits, m: Meters, old: u32, t: u32) -> u32
    requires { t ≤ latest_time }
    ensures { result ≡ more_until t old l m }
{
    least_until(t, old, l, m) as u32
}

// Whether a begin on the entry opens a use that starts its interval.
// Rules out: a momentary use, an entry without an interval, an interval that has started.
#[tactic(auto, unfolding(model::specs::Step::starts_interval, rules::specs::Rules::flags_of))]
fn starts_interval(l: Limits, m: Meters) -> bool
    ensures { result ≡ starts_interval l m }
{
    let f = flags_of(l);
    !momentary(l.kind) & f.interval & !(m.started == 1)
}

// Rules out: a first that a later begin overwrites, a meter that rises without its flag, a mark for a momentary use.
#[tactic(auto, unfolding(model::specs::Meters::begun, rules::specs::Rules::flags_of))]
fn begun_meters(l: Limits, m: Meters, player: u8, t: u32, until: u32) -> Meters
    requires { Room t until l m }
    ensures { result ≡ begun player t until l m }
{
    let f = flags_of(l);
    let first = pick(m.started == 1, m.first, t);
    Meters {
        count: m.count + when(f.count, 1),
        timed: m.timed + when(f.timed, 1),
        first: when(f.interval, first),
        seconds: m.seconds + when(f.accumulated, until.saturating_sub(t)),
        started: one(f.interval),
        marks: pick(momentary(l.kind), m.marks, with_bit(m.marks, player, true)),
    }
}

#[tactic(auto, unfolding(model::specs::Meters::continued, rules::specs::Rules::flags_of))]
fn continued_meters(l: Limits, m: Meters, old: u32, until: u32) -> Meters
    requires { MoreRoom old until l m }
    ensures { result ≡ continued old until l m }
{
    let f = flags_of(l);
    let mut n = m;
    n.seconds = m.seconds + when(f.accumulated, until.saturating_sub(old));
    n
}

// Rules out: a count that goes back, a timed count that stays after a short use, seconds that stay after a stop, a mark that stays.
#[tactic(auto, unfolding(model::specs::Meters::ended, rules::specs::Rules::flags_of))]
pub fn ended_meters(l: Limits, m: Meters, player: u8, begin: u32, until: u32, end: u32) -> Meters
    ensures { result ≡ ended player begin until end l m }
{
    let f = flags_of(l);
    let short = end.saturating_sub(begin) < l.timer;
    let unused = when(f.accumulated, until.saturating_sub(end));
    Meters {
        count: m.count,
        timed: m.timed.saturating_sub(when(f.timed & short, 1)),
        first: m.first,
        seconds: m.seconds.saturating_sub(unused),
        started: m.started,
        marks: with_bit(m.marks, player, false),
    }
}

// Rules out: a count that stays, a timed count that a long timer keeps, an interval that stays started by the begin taken back, one
// unstarted that another use started, a mark that stays.
#[tactic(auto, unfolding(model::specs::Meters::cancelled, rules::specs::Rules::flags_of))]
fn cancelled_meters(
    l: Limits,
    m: Meters,
    player: u8,
    recent: Recent,
    begin: u32,
    until: u32,
) -> Meters
    ensures { result ≡ cancelled player recent begin until l m }
{
    let f = flags_of(l);
    let marks = with_bit(m.marks, player, false);
    let paid = when(f.accumulated, until.saturating_sub(begin));
    Meters {
        count: m.count.saturating_sub(when(f.count, 1)),
        timed: m.timed.saturating_sub(when(f.timed, 1)),
        first: pick(recent.started, 0, m.first),
        seconds: m.seconds.saturating_sub(paid),
        started: pick(recent.started, 0, m.started),
        marks: marks,
    }
}

// Neither owner calls it on an entry that is not grantable; it then answers as for a begin that finds none grantable.
// Rules out: an until past end + 1, a momentary use that opens, a grant that is not metered, a use without the content asked for.
#[tactic(auto, unfolding(crate::specs::Uses::begin_on))]
pub fn begin_on(l: Limits, m: Meters, o: Open, i: u8, asset: u16, ask: Ask) -> Effect
    ensures { result ≡ begin_on i asset ask l m o }
{
    let t = ask.time;
    if !grantable(l, m, ask) {
        return kept(u8::from(EventError::Spent), m, o);
    }
    if LATEST_TIME < t {
        return kept(u8::from(EventError::Spent), m, o);
    }
    let until = grant_until(l, m, t);
    let begun = begun_meters(l, m, ask.player, t, until);
    let use_begun = Open {
        on: 1,
        entry: i,
        begin: t,
        until: until,
        content: asset as u32,
    };
    Effect {
        answer: Answer {
            code: 0,
            entry: i,
            until: until,
        },
        meters: begun,
        current: pick(momentary(l.kind), o, use_begun),
        started: starts_interval(l, m),
    }
}

// Rules out: 15 with time unspent, a begin time that moves, seconds counted twice.
#[tactic(auto, unfolding(crate::specs::Uses::continue_on))]
pub fn continue_on(l: Limits, m: Meters, o: Open, t: u32) -> Effect
    ensures { result ≡ continue_on t l m o }
{
    if !(o.on == 1) {
        return kept(u8::from(EventError::NotOpen), m, o);
    }
    if LATEST_TIME < t {
        return kept(u8::from(EventError::NoMore), m, o);
    }
    let until = more_until(l, m, o.until, t);
    if until <= o.until {
        return kept(u8::from(EventError::NoMore), m, o);
    }
    let meters = continued_meters(l, m, o.until, until);
    Effect {
        answer: Answer {
            code: 0,
            entry: o.entry,
            until: until,
        },
        meters: meters,
        current: Open {
            on: 1,
            entry: o.entry,
            begin: o.begin,
            until: until,
            content: o.content,
        },
        started: false,
    }
}

// Rules out: a use that stays open, the old until in the answer.
#[tactic(auto, unfolding(crate::specs::Uses::stop_on))]
pub fn stop_on(l: Limits, m: Meters, o: Open, player: u8, t: u32) -> Effect
    ensures { result ≡ stop_on player t l m o }
{
    if !(o.on == 1) {
        return kept(u8::from(EventError::NotOpen), m, o);
    }
    let meters = ended_meters(l, m, player, o.begin, o.until, t);
    Effect {
        answer: Answer {
            code: 0,
            entry: o.entry,
            until: t,
        },
        meters: meters,
        current: closed_use(),
        started: false,
    }
}

// Rules out: a use taken back after another event, one that stays open, the until or the time of the cancel in the answer.
#[tactic(auto, unfolding(crate::specs::Uses::cancel_on))]
pub fn cancel_on(l: Limits, m: Meters, o: Open, player: u8, recent: Recent) -> Effect
    ensures { result ≡ cancel_on player recent l m o }
{
    if !(o.on == 1) {
        return kept(u8::from(EventError::NotOpen), m, o);
    }
    if !recent.begun {
        return kept(u8::from(EventError::TooLate), m, o);
    }
    let meters = cancelled_meters(l, m, player, recent, o.begin, o.until);
    Effect {
        answer: Answer {
            code: 0,
            entry: o.entry,
            until: o.begin,
        },
        meters: meters,
        current: closed_use(),
        started: false,
    }
}

// Rules out: until taken as included, a use that is not open.
#[tactic(auto, unfolding(model::specs::Meters::expired))]
pub fn due(o: Open, t: u32) -> bool
    ensures { result ≡ expired t o }
{
    (o.on == 1) & (o.until <= t)
}

// Rules out: a last event that settling changes.
#[tactic(auto, unfolding(model::specs::Meters::shut))]
pub fn shut_player(p: Player, t: u32) -> Player
    ensures { result ≡ shut t p }
{
    Player {
        last: p.last,
        current: pick(due(p.current, t), closed_use(), p.current),
    }
}

// Rules out: an end at t instead of its until.
#[tactic(auto, unfolding(crate::specs::Uses::released_on))]
pub fn released_meters(l: Limits, m: Meters, o: Open, player: u8, t: u32) -> Meters
    ensures { result ≡ released_on player t l m o }
{
    let ended = ended_meters(l, m, player, o.begin, o.until, o.until);
    pick(due(o, t), ended, m)
}

// Rules out: looking at the asking player only.
pub fn any_due(ps: [Player; 16], t: u32) -> bool
    ensures { result ≡ any_due t ps }
{
    ps.iter().any(|p| due(p.current, t))
}
