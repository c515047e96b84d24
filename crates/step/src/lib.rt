// One event on a book passed by value: the checks, settling, what begin, continue, stop and cancel do, and the resulting
// book.
// The rules are in the crates below and work on one entry and one player; this crate reads both from the book and stores the results.
#![tactic(auto)]

ghost use Rattle.std.specs.Prelude.{◌≡◌, ◌≤◌};
ghost use Rattle.model.specs.Book.{latest_time};
ghost use Rattle.model.specs.Step.{do_begin, do_continue, do_stop, do_cancel, done, taken_step, step, last_at};
ghost use Rattle.model.specs.Record.{decoded};
ghost use Rattle.model.specs.Choice.{catalog_of};
ghost use Rattle.uses.specs.Uses.{placed, stored};
ghost use Rattle.metering.specs.Good.{good_lines};
ghost use Rattle.step.specs.Settle.{settled_book, with};
ghost use Rattle.model.specs.Gate.{gate};
ghost use Rattle.step.specs.Step.{left, taken_from};
ghost use Rattle.model.specs.Report.{receive, lines_left, lent};
ghost use Rattle.step.specs.Lines.{lines_taken, lines_with, reported_on};

use book::{
    Admission, Answer, Ask, Book, Event, EventError, Line, Meters, Open, Outcome, Player, Recent,
    Reported, Request, at_most_64, refused,
};
use report::{Report, give_lines, take_lines};
use uses::Effect;

// What an operation leaves of an entry, and which entry that is.
#[derive(Clone, Copy)]
struct Act {
    at: usize,
    part: Effect,
}

// The book after every use that is due at t has ended, players 0 to 15 in turn.
// Rules out: settling the asking player only, changing an entry whose use is not due.
pub fn settle(b: Book, t: u32) -> Book
    ensures { result ≡ settled_book t b }
{
    let players = b.players;
    if !uses::any_due(players, t) {
        return b;
    }
    settle_all(b, t)
}

fn settle_all(b: Book, t: u32) -> Book
    ensures { result ≡ settled_book t b }
{
    let mut n = b;
    for i in 0..16 {
        let p = n.players[i];
        let o = p.current;
        let k = o.entry as usize;
        // A book that is not legal can have a use open of an entry that there is not.
        if k < 64 {
            let x = n.entries[k];
            n.entries[k].meters = uses::released_meters(x.limits, x.meters, o, i as u8, t);
        }
        n.players[i] = lent::shut_player(p, t);
    }
    n
}

// Rules out: a begin that is refused and says another reason, one that is granted another entry.
fn begin(b: Book, o: Open, asset: u16, kind: u8, ask: Ask) -> Result<Act, EventError>
    requires { ask.time ≤ latest_time }
    ensures { left result o b.entries ≡ do_begin (catalog_of b) b.entries o ask asset kind }
{
    let assets = &b.assets[..at_most_64(b.assetcount)];
    let entries = &b.entries[..at_most_64(b.entrycount)];
    let reach = choice::reach_of(assets, asset);
    let best = choice::chosen(entries, asset, reach.parent, kind, ask);
    let k = rules::begin_entry(
        o.on == 1,
        reach.usable,
        best.suits,
        best.at(),
        best.switched,
    )?;
    let x = book::entry_at(b.entries, k);
    Ok(Act {
        at: k,
        part: uses::begin_on(x.limits, x.meters, o, (k % 256) as u8, asset, ask),
    })
}

fn go_on(b: Book, o: Open, t: u32) -> Act
    requires { t ≤ latest_time }
    ensures { placed result.at result.part b.entries ≡ do_continue b.entries o t }
{
    let k = o.entry as usize;
    let x = book::entry_at(b.entries, k);
    Act {
        at: k,
        part: uses::continue_on(x.limits, x.meters, o, t),
    }
}

fn stop(b: Book, o: Open, ask: Ask) -> Act
    ensures { placed result.at result.part b.entries ≡ do_stop b.entries o ask }
{
    let k = o.entry as usize;
    let x = book::entry_at(b.entries, k);
    Act {
        at: k,
        part: uses::stop_on(x.limits, x.meters, o, ask.player, ask.time),
    }
}

fn cancel(b: Book, o: Open, player: u8, recent: Recent) -> Act
    ensures { placed result.at result.part b.entries ≡ do_cancel b.entries o player recent }
{
    let k = o.entry as usize;
    let x = book::entry_at(b.entries, k);
    Act {
        at: k,
        part: uses::cancel_on(x.limits, x.meters, o, player, recent),
    }
}

#[tactic(auto, unfolding(model::specs::Step::done))]
fn operate(b: Book, o: Open, q: Request, ask: Ask, recent: Recent) -> Result<Act, EventError>
    requires { ask.time ≤ latest_time }
    ensures { left result o b.entries ≡ done q (catalog_of b) b.entries o ask recent }
{
    match q {
        Request::Begin(kind, asset) => begin(b, o, asset, u8::from(kind), ask),
        Request::Continue => Ok(go_on(b, o, ask.time)),
        Request::Stop => Ok(stop(b, o, ask)),
        Request::Cancel => Ok(cancel(b, o, ask.player, recent)),
    }
}

// The book with other meters at entry k.
#[tactic(auto, unfolding(uses::specs::Uses::stored))]
fn metered(b: Book, k: usize, m: Meters) -> Book
    ensures { result ≡ with b (stored k m b.entries) b.players }
{
    let mut n = b;
    if k < 64 {
        n.entries[k].meters = m;
    }
    n
}

// The book with an event, its answer and the player's use stored.
// Rules out: a taken event that the header does not tell of.
#[tactic(auto, unfolding(crate::specs::Step::stored_book))]
fn store_event(b: Book, e: Event, answer: Answer, current: Open, started: bool) -> Outcome
    requires { e.player ≤ 15 }
    ensures { result ≡ taken_from b e (record { answer = answer; entries = b.entries; current = current; started = started }) }
{
    let mut n = b;
    let j = e.player as usize;
    n.players[j] = Player {
        last: rules::noted_last(e, answer),
        current: current,
    };
    n.time = e.time;
    n.latest = rules::latest_by(e.player, started);
    Outcome {
        answer: answer,
        book: n,
    }
}

fn taken(b: Book, e: Event) -> Outcome
    requires { (e.player ≤ 15) × (e.time ≤ latest_time) }
    ensures { result ≡ taken_step b e }
{
    let n = settle(b, e.time);
    let p = n.players[e.player as usize];
    let o = p.current;
    let ask = Ask {
        player: e.player,
        time: e.time,
        switch: n.switch,
    };
    let recent = rules::recent_of(n.latest, e.player, p.last, o);
    match operate(n, o, e.request, ask, recent) {
        Ok(a) => {
            let part = a.part;
            let m = metered(n, a.at, part.meters);
            store_event(m, e, part.answer, part.current, part.started)
        }
        Err(x) => store_event(n, e, refused(x), o, false),
    }
}

// Rules out: a resend that is metered again, an event that is turned away but changes the book, a grant that leaves the book untouched.
#[tactic(auto, unfolding(model::specs::Step::step, model::specs::Step::step_by))]
fn step(b: Book, e: Event) -> Outcome
    ensures { result ≡ step b e }
{
    let asking = book::player_at(b.players, e.player as usize);
    match rules::gate_of(b.time, asking.last, e) {
        Err(x) => Outcome {
            answer: refused(x),
            book: b,
        },
        Ok(Admission::Resend) => Outcome {
            answer: asking.last.answer,
            book: b,
        },
        Ok(Admission::Take) => taken(b, e),
    }
}

// What a taken event records in the lines: settling first, then the request, which was answered with a.
#[tactic(auto, unfolding(crate::specs::Lines::lines_taken))]
fn taken_lines(b: Book, e: Event, a: Answer, lines: [Line; 64]) -> [Line; 64]
    requires { e.player ≤ 15 }
    ensures { result ≡ lines_taken a b e lines }
{
    let t = e.time;
    let shut = lent::shut_player(b.players[e.player as usize], t);
    let due = metering::record_due(b, lines, t);
    metering::record_request(b, due, e.request, t, shut.current, a)
}

// The lines after an event that was answered with a.
// Rules out: a resend recorded again, a refusal recorded.
#[tactic(auto, unfolding(crate::specs::Lines::lines_with))]
fn lines_after(b: Book, e: Event, a: Answer, lines: [Line; 64]) -> [Line; 64]
    ensures { result ≡ lines_with a (gate b.time (last_at b.players e.player) e) b e lines }
{
    let asking = book::player_at(b.players, e.player as usize);
    match rules::gate_of(b.time, asking.last, e) {
        Ok(Admission::Take) => taken_lines(b, e, a, lines),
        Ok(Admission::Resend) => lines,
        Err(_) => lines,
    }
}

// Whether a list is a good one for the book.
// Rules out: a slot past the assets in use looked at.
fn good_list(b: Book, report: Report) -> bool
    ensures { result ≡ good_lines b.assets b.assetcount report.lines report.lent }
{
    metering::good_lines(&b.assets[..at_most_64(b.assetcount)], report)
}

// A record on a book, with the list of lines that it is lent, by value.
// Rules out: 6 before 30, 1 before 2, an answer other than 6 to a record of 12 or 14 bytes, a list that is not good and comes back
// changed.
#[tactic(auto, unfolding(crate::specs::Lines::reported_on, model::specs::Step::arrive, model::specs::Report::lines_read))]
pub fn step_lines(b: Book, s: &[u8], report: Report) -> Reported
    ensures { result ≡ reported_on b (decoded s.now) report.lines report.lent }
{
    let lines = report.lines;
    if !good_list(b, report) {
        return Reported {
            answer: refused(EventError::Lines),
            book: b,
            lines: lines,
        };
    }
    match record::decode(s) {
        Err(x) => Reported {
            answer: refused(x),
            book: b,
            lines: lines,
        },
        Ok(e) => {
            let o = step(b, e);
            Reported {
                answer: o.answer,
                book: o.book,
                lines: lines_after(b, e, o.answer, lines),
            }
        }
    }
}

// A record on a book, with the list that it is lent.
// Rules out: a list that is not good and comes back changed, a line past the assets touched.
pub fn step_lent(b: Book, s: &[u8], report: &mut [Line]) -> Outcome
    ensures { (result ≡ receive b (lent report.old s.now))
        × (report.new ≡ lines_left b (lent report.old s.now)) }
{
    let lines = take_lines(report);
    let list = Report {
        lines: lines,
        lent: report.len(),
    };
    let after = step_lines(b, s, list);
    give_lines(report, after.lines);
    Outcome {
        answer: after.answer,
        book: after.book,
    }
}
