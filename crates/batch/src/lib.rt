// Answers a block of event records in turn, each with one line of text.
// The loop over the records owns the book and the lines of the report: no function called for an event takes or returns them, and what
// an event changes is stored in place. The list is checked once; after that only the numbers of a raised line can leave the bound.
// Kept beside the book is what each event would otherwise recompute: a lower bound of the next until, so that settling costs one
// comparison when nothing is due, the end of each player's use, a row for each entry with what the choice needs to know of it, and
// the assets by number.
#![tactic(auto)]

ghost use Rattle.std.specs.Prelude.{◌≡◌, ◌<◌, set, true, false, MatchResult};
ghost use Rattle.book.specs.Codes.{event_code};
ghost use Rattle.book.specs.Decoded.{Invalid, Valid};
ghost use Rattle.book.specs.declared.EventError.{EventError};
ghost use Rattle.model.specs.Meters.{is_on};
ghost use Rattle.model.specs.Record.{decoded};
ghost use Rattle.model.specs.Report.{line_at, raised};
ghost use Rattle.metering.specs.Good.{good_after};
ghost use Rattle.batch.specs.Block.{Answered};
ghost use Rattle.batch.specs.StepCases.{looked, admit};

use book::{
    Admission, Ask, Book, Entry, Event, EventError, Limits, Line, NEVER, Open, Player, RECORD_LAST,
    RECORD_SIZE, Request, at_most_64, blank_entry, refused,
};
use choice::{Best, consider_row, refreshed, row_of};
use index::{end_of, ends_of, fill_places, reach_at, rows_of};
use lent::shut_player;
use metering::{good_after, good_lines, line_for, raised_for, request_line, request_seconds};
use record::decode;
use report::Report;
use rules::{begin_entry, gate_of, latest_by, noted_last, recent_of};
use text::put_line;
use uses::{begin_on, cancel_on, continue_on, ended_meters, stop_on};

// The book and the report after the records, and how many bytes of text were written.
#[derive(Clone, Copy)]
pub struct Block {
    pub book: Book,
    pub report: Report,
    pub written: usize,
}

// How many entries a begin looks at.
fn looked_at(on: bool, usable: bool, entries: usize) -> usize
    ensures { result ≡ looked on usable entries }
{
    if on {
        0
    } else {
        if usable { entries } else { 0 }
    }
}

// The entry of a continue, a stop or a cancel, which is that of the open use.
fn further_entry(o: Open) -> Result<usize, EventError>
    ensures { MatchResult result (λ k. (is_on o ≡ true) × (k ≡ o.entry)) (λ e. (is_on o ≡ false) × (e ≡ EventError.NotOpen)) }
{
    if o.on == 1 {
        Ok(o.entry as usize)
    } else {
        Err(EventError::NotOpen)
    }
}

// What a record holds if its list is good, otherwise 30.
fn received(good: bool, s: &[u8]) -> Result<Event, EventError>
    ensures { MatchResult result (λ e. admit good (decoded s.now) ≡ Valid e) (λ e. admit good (decoded s.now) ≡ Invalid (event_code e)) }
{
    if good {
        decode(s)
    } else {
        Err(EventError::Lines)
    }
}

// Raises a line by a use of so many seconds, of an entry with these limits; returns whether the list is still good.
fn raise(report: &mut [Line; 64], k: usize, l: Limits, seconds: u32, good: bool) -> bool
    requires { k < 64 }
    ensures report_after { report.new ≡ set report.old k (raised l seconds (line_at report.old k)) }
    ensures good_value { result ≡ good_after good (raised l seconds (line_at report.old k)) }
{
    let raised = raised_for(l, report[k], seconds);
    report[k] = raised;
    good_after(good, raised)
}

// If out has no room for 19 bytes per record, nothing is done.
// Rules out: a record left out or answered twice, a last record cut short that gets no line, a byte touched after the text, a taken
// event that the header does not tell of.
pub fn answer_block(b: Book, records: &[u8], out: &mut [u8], report: Report) -> Block
    ensures { Answered b report.lines report.lent records.now out.old
        result.book result.report.lines result.report.lent result.written out.new }
{
    let size = records.len();
    let count = (size + RECORD_LAST) / RECORD_SIZE;
    if out.len() / 19 < count {
        return Block {
            book: b,
            report: report,
            written: 0,
        };
    }
    let mut book = b;
    let mut lines = report.lines;
    let mut places = [0u8; 65536];
    let mut parents = [0u16; 64];
    let assets = book.assets;
    let slots = at_most_64(book.assetcount);
    let used = &assets[..slots];
    fill_places(&mut places, &mut parents, used);
    let entries = book.entries;
    let mut rows = rows_of(entries);
    let players = book.players;
    let mut ends = ends_of(players);
    let mut good = good_lines(used, report);
    let mut next: u32 = 0;
    let mut at: usize = 0;
    for i in 0..count {
        let from = RECORD_SIZE * i;
        let to = size.min(from + RECORD_SIZE);
        match received(good, &records[from..to]) {
            Err(e) => {
                at = put_line(out, at, refused(e));
                continue;
            }
            Ok(event) => {
                let request = event.request;
                // Read before the checks, which is quicker; the answer is put in once it is known.
                let noted = noted_last(event, refused(EventError::Lines));
                let j = (event.player % 16) as usize;
                let asking = book.players[j];
                let last = asking.last;
                match gate_of(book.time, last, event) {
                    Err(e) => {
                        at = put_line(out, at, refused(e));
                        continue;
                    }
                    Ok(Admission::Resend) => {
                        let again = last.answer;
                        at = put_line(out, at, again);
                        continue;
                    }
                    Ok(Admission::Take) => {
                        let t = event.time;
                        if next <= t {
                            next = NEVER;
                            for p in 0..16 {
                                let end = ends[p];
                                if end <= t {
                                    let player = book.players[p];
                                    let o = player.current;
                                    let k = o.entry as usize;
                                    if k < 64 {
                                        let x = book.entries[k];
                                        let l = x.limits;
                                        let m = x.meters;
                                        let who = p as u8;
                                        let ended = ended_meters(
                                            l, m, who, o.begin, o.until, o.until,
                                        );
                                        let y = Entry {
                                            limits: l,
                                            meters: ended,
                                        };
                                        book.entries[k] = y;
                                        let row = row_of(l, ended);
                                        rows[k] = row;
                                        if let Some(k) = line_for(book.switch, l, used, o.content) {
                                            let seconds = o.until.saturating_sub(o.begin);
                                            good = raise(&mut lines, k, l, seconds, good);
                                        }
                                    }
                                    let shutting = book.players[p];
                                    let q = shut_player(shutting, t);
                                    book.players[p] = q;
                                    ends[p] = NEVER;
                                } else {
                                    next = next.min(end);
                                }
                            }
                        }
                        let player = book.players[j];
                        let o = player.current;
                        let ask = Ask {
                            player: event.player,
                            time: t,
                            switch: book.switch,
                        };
                        let found = match request {
                            Request::Begin(sort, asset) => {
                                let kind = u8::from(sort);
                                let reach = reach_at(&places, &parents, asset);
                                let n = looked_at(
                                    o.on == 1,
                                    reach.usable,
                                    at_most_64(book.entrycount),
                                );
                                let mut best = Best::none();
                                for e in 0..n {
                                    let row = rows[e];
                                    best = consider_row(
                                        best,
                                        row,
                                        asset,
                                        reach.parent,
                                        kind,
                                        ask,
                                        e,
                                    );
                                }
                                begin_entry(
                                    o.on == 1,
                                    reach.usable,
                                    best.suits,
                                    best.at(),
                                    best.switched,
                                )
                            }
                            Request::Continue => further_entry(o),
                            Request::Stop => further_entry(o),
                            Request::Cancel => further_entry(o),
                        };
                        book.time = t;
                        let answer;
                        let current;
                        match found {
                            Ok(k) => {
                                let mut x = blank_entry();
                                if k < 64 {
                                    let held = book.entries[k];
                                    x = held;
                                }
                                let l = x.limits;
                                let m = x.meters;
                                let part = match request {
                                    Request::Begin(_, asset) => {
                                        begin_on(l, m, o, (k % 256) as u8, asset, ask)
                                    }
                                    Request::Continue => continue_on(l, m, o, t),
                                    Request::Stop => stop_on(l, m, o, ask.player, t),
                                    Request::Cancel => {
                                        let latest = book.latest;
                                        let own = book.players[j];
                                        let begin = own.last;
                                        let recent = recent_of(latest, ask.player, begin, o);
                                        cancel_on(l, m, o, ask.player, recent)
                                    }
                                };
                                if k < 64 {
                                    let meters = part.meters;
                                    let mut y = book.entries[k];
                                    y.meters = meters;
                                    book.entries[k] = y;
                                    let was = rows[k];
                                    let row = refreshed(was, l, meters);
                                    rows[k] = row;
                                }
                                answer = part.answer;
                                current = part.current;
                                // The header is written in both cases and not behind them, which is quicker.
                                let header = latest_by(ask.player, part.started);
                                book.latest = header;
                                if let Some(k) = request_line(
                                    request,
                                    answer,
                                    o,
                                    book.switch,
                                    l,
                                    used,
                                ) {
                                    let seconds = request_seconds(request, t, o);
                                    good = raise(&mut lines, k, l, seconds, good);
                                }
                                let end = end_of(current);
                                ends[j] = end;
                                next = next.min(end);
                            }
                            Err(e) => {
                                let unmarked = latest_by(ask.player, false);
                                book.latest = unmarked;
                                answer = refused(e);
                                current = o;
                            }
                        }
                        let mut stored = noted;
                        stored.answer = answer;
                        let q = Player {
                            last: stored,
                            current: current,
                        };
                        book.players[j] = q;
                        at = put_line(out, at, answer);
                    }
                }
            }
        }
    }
    Block {
        book: book,
        report: Report {
            lines: lines,
            lent: report.lent,
        },
        written: at,
    }
}
