// The book of rights for servers written in C or Rust: functions on numbers and bytes, which crate `embed_c` exports.
// No state is kept between calls. The book is passed as its image, which the caller keeps and lends. What a call returns is a number, for C;
// within this crate it is a Result.
#![tactic(auto)]

ghost use Rattle.std.specs.Prelude.{◌≡◌, ℕ, ltb, Option, List, length, get_or};
ghost use Rattle.book.specs.Blank.{no_entry};
ghost use Rattle.model.specs.Book.{asset_at, assets_in, entries_in};
ghost use Rattle.model.specs.Meters.{settled};
ghost use Rattle.model.specs.Image.{read_code};
ghost use Rattle.encode.specs.Record.{record_bytes};
ghost use Rattle.fill.specs.Fill.{fill_code, filled};
ghost use Rattle.embed.specs.Calls.{image_in, held_book, answer_code, image_after, size_after, out_after, written_after, report_after};
ghost use Rattle.views.specs.Views.{view_time, left_values, ground_values};
ghost use Rattle.embed.specs.declared.Failure.{Failure};
ghost use Rattle.embed.specs.Failure.{failure_code, result_code, result_or, Loads, found, viewed_code, viewed_out};
ghost use Rattle.embed.specs.One.{one_result, one_image, one_size, one_code, one_entry, one_until, one_report};
ghost use Rattle.embed.specs.ByValue.{AnsweredBy, OneBy};
ghost use Rattle.embed.specs.Seen.{book_code, book_out, asset_code, asset_out, entry_code, entry_out, player_code, player_out, left_code};
ghost use Rattle.embed.specs.Seen.{left_out, grounds_code, grounds_out};
ghost use Rattle.embed.specs.FromXml.{xml_code, xml_image, xml_size, xml_elements};

use batch::Block;
use book::{
    Ask, Asset, Book, Entry, ImageError, Line, NO_ROOM, NoRoom, RECORD_SIZE, Reported, at_most_64,
};
use encode::RawEvent;
use report::{Report, give_lines, take_lines};
use std::convert::AsSlice;

// What a call returns where the book has nothing at the position asked for.
const ABSENT: u8 = 31;

// Why a call leaves everything as it was.
#[derive(Clone, Copy, Debug, PartialEq, Eq)]
enum Failure {
    Image(ImageError),
    NoRoom,
    Absent,
}

impl From<ImageError> for Failure {
    ghost from_gives = { λ e f. f ≡ Failure.Image e };

    fn from(e: ImageError) -> Failure {
        Failure::Image(e)
    }
}

impl From<NoRoom> for Failure {
    ghost from_gives = { λ _ f. f ≡ Failure.NoRoom };

    fn from(_e: NoRoom) -> Failure {
        Failure::NoRoom
    }
}

impl From<Failure> for u8 {
    ghost from_gives = { λ f n. n ≡ failure_code f };

    fn from(f: Failure) -> u8 {
        match f {
            Failure::Image(e) => e.into(),
            Failure::NoRoom => NO_ROOM,
            Failure::Absent => ABSENT,
        }
    }
}

// The number that C gets.
fn code_of<T: Copy>(r: Result<T, Failure>) -> u8
    ensures { result ≡ result_code r }
{
    match r {
        Ok(_) => 0,
        Err(f) => f.into(),
    }
}

// The book in an image.
#[tactic(auto, unfolding(crate::specs::Calls::held_book))]
fn load(image: &[u8]) -> Result<Book, Failure>
    ensures { Loads image.now result }
{
    let mut held = book::blank_book();
    image_read::read(&mut held, image)?;
    Ok(held)
}

// The same for the image that is the first `size` bytes of a buffer; no byte at all if the buffer has not so many.
// Rules out: the bytes behind the image taken for a part of it.
#[tactic(auto, unfolding(crate::specs::Calls::image_in))]
fn load_from(buffer: &[u8], size: u64) -> Result<Book, Failure>
    ensures { Loads (image_in buffer.now size) result }
{
    load(buffer.get(..size as usize).unwrap_or(&[]))
}

// 0 if the image holds a legal book, otherwise the number of the refusal, 20 to 27.
// Rules out: 0 for an image that breaks a rule, the number of a later rule.
pub fn rights_check(image: &[u8]) -> u8
    ensures { result ≡ read_code image.now }
{
    code_of(load(image))
}

// rights_answer with the report by value.
// No event changes how many assets and entries there are, so the next image has the length of the one that the book now has, and its
// room is known before anything is written.
// Rules out: a refusal that touches a byte or a number.
fn answer_image(
    image: &mut [u8],
    size: &mut u64,
    records: &[u8],
    out: &mut [u8],
    report: Report,
) -> Result<Block, Failure>
    ensures { (written : ℕ) → AnsweredBy image.old size.old records.now out.old written report.lines report.lent
        (result_code result) image.new size.new out.new
        (result_or result (λ x. x.written) written) (result_or result (λ x. x.report.lines) report.lines) }
{
    let book = load_from(image, *size)?;
    if out.len() / 19 < records.len().div_ceil(RECORD_SIZE) {
        return Err(Failure::NoRoom);
    }
    if image.len() < image_write::image_length(book.assetcount, book.entrycount) {
        return Err(Failure::NoRoom);
    }
    let block = batch::answer_block(book, records, out, report);
    *size = image_write::write(&block.book, image)? as u64;
    Ok(block)
}

// Answers the records in turn, as lines of text in out, and puts the text's length into written. image is a buffer, and its
// first `size` bytes are the image: the next image takes their place, its length goes into size, and what is behind it stays.
// report is the list of lines that is lent to the first record, and to each next one as the one before it left it; what the records
// record goes into it. A list that is not good is answered: each record gets 30 255 0.
// Returns 0, or 20 to 27 if the image is refused (20 too if size is more than the buffer has), or 30 if out has no room for
// 19 bytes per record or the buffer none for the next image.
// Rules out: a refusal that touches a byte, a number or a line, a next image that is not the image of the book after the last record, a
// byte touched after the text or after the next image, a length that is not the text's or the next image's.
pub fn rights_answer(
    image: &mut [u8],
    size: &mut u64,
    records: &[u8],
    out: &mut [u8],
    written: &mut u64,
    report: &mut [Line],
) -> u8
    ensures { (result ≡ answer_code
        image.old size.old report.old records.now (length out.old))
        × (image.new ≡ image_after
        image.old size.old report.old records.now (length out.old))
        × (size.new ≡ size_after
        image.old size.old report.old records.now (length out.old))
        × (out.new ≡ out_after
        image.old size.old report.old records.now out.old)
        × (written.new ≡ written_after
        image.old size.old report.old records.now (length out.old)
        written.old)
        × (report.new ≡ report_after
        image.old size.old report.old records.now (length out.old)) }
{
    let lines = take_lines(report);
    let list = Report {
        lines: lines,
        lent: report.len(),
    };
    let answered = answer_image(image, size, records, out, list);
    if let Ok(block) = answered {
        *written = block.written as u64;
        give_lines(report, block.report.lines);
    }
    code_of(answered)
}

// rights_answer_one with the report by value.
// Rules out: a refusal that touches a byte or a number.
fn answer_event(
    image: &mut [u8],
    size: &mut u64,
    event: RawEvent,
    report: Report,
) -> Result<Reported, Failure>
    ensures { (code entry until : ℕ) → OneBy image.old size.old
        (record_bytes event.player event.number event.operation event.asset event.kind event.time)
        code entry until report.lines report.lent (result_code result) image.new size.new
        (result_or result (λ x. x.answer.code) code) (result_or result (λ x. x.answer.entry) entry)
        (result_or result (λ x. x.answer.until) until) (result_or result (λ x. x.lines) report.lines) }
{
    let book = load_from(image, *size)?;
    let after = step::step_lines(book, &encode::record_bytes(event), report);
    *size = image_write::write(&after.book, image)? as u64;
    Ok(after)
}

// One event given as numbers: the answer's code, entry and until as numbers, the next image, and the lines, the same as the record's
// step leaves. image, size and report are those of rights_answer; a list that is not good is answered 30 255 0.
// Returns 0, or 20 to 27 if the image is refused, or 30 if the buffer has no room for the next image.
// Rules out: a refusal that touches a byte, a number or a line, the image of the book before the event, an answer other than the record's.
pub fn rights_answer_one(
    image: &mut [u8],
    size: &mut u64,
    player: u8,
    number: u64,
    operation: u8,
    asset: u16,
    kind: u8,
    time: u32,
    code: &mut u8,
    entry: &mut u8,
    until: &mut u32,
    report: &mut [Line],
) -> u8
    ensures { (result ≡ one_result
        image.old size.old report.old (record_bytes player number operation asset kind time))
        × (image.new ≡ one_image
        image.old size.old report.old (record_bytes player number operation asset kind time))
        × (size.new ≡ one_size
        image.old size.old report.old (record_bytes player number operation asset kind time))
        × (code.new ≡ one_code
        image.old size.old report.old (record_bytes player number operation asset kind time)
        code.old)
        × (entry.new ≡ one_entry
        image.old size.old report.old (record_bytes player number operation asset kind time)
        entry.old)
        × (until.new ≡ one_until
        image.old size.old report.old (record_bytes player number operation asset kind time)
        until.old)
        × (report.new ≡ one_report
        image.old size.old report.old (record_bytes player number operation asset kind time)) }
{
    let event = RawEvent {
        player,
        number,
        operation,
        asset,
        kind,
        time,
    };
    let lines = take_lines(report);
    let list = Report {
        lines: lines,
        lent: report.len(),
    };
    let answered = answer_event(image, size, event, list);
    if let Ok(after) = answered {
        *code = after.answer.code;
        *entry = after.answer.entry;
        *until = after.answer.until;
        give_lines(report, after.lines);
    }
    code_of(answered)
}

// Writes the 17 bytes of the record that holds these numbers to the start of out. Returns 0, or 30 if out is too short.
// Rules out: two fields swapped, a byte touched after the record or in a buffer that is too short.
#[tactic(auto, unfolding(encode::specs::Record::record_bytes))]
pub fn rights_record(
    player: u8,
    number: u64,
    operation: u8,
    asset: u16,
    kind: u8,
    time: u32,
    out: &mut [u8],
) -> u8
    ensures value { result ≡ fill_code (record_bytes player number operation asset kind time) (length out.old) }
    ensures out_after { out.new ≡ filled (record_bytes player number operation asset kind time) out.old }
{
    let event = RawEvent {
        player,
        number,
        operation,
        asset,
        kind,
        time,
    };
    code_of(fill::fill(out, &encode::record_bytes(event)).map_err(Failure::from))
}

// Puts the numbers that a view finds in the book of an image at the start of a buffer.
// Rules out: numbers from an image that is refused, a number touched after them.
fn view<R: AsSlice<u32> + Copy, F: FnOnce(Book) -> Option<R>>(
    image: &[u8],
    out: &mut [u32],
    values: F,
) -> Result<(), Failure>
    requires { F.IsAlwaysCallable values }
    ensures { (r : Option R)
        × (read_code image.now ≡ 0 → F.post values (held_book image.now) r)
        × (result_code result ≡ viewed_code R.items image.now r (length out.old))
        × (out.new ≡ viewed_out R.items image.now r out.old) }
{
    let numbers = values(load(image)?).ok_or(Failure::Absent)?;
    fill::fill(out, numbers.as_slice())?;
    Ok(())
}

// How many assets and entries the book in the image has, its time, its switch, and the event taken last.
// Rules out: numbers from an image that is refused.
pub fn rights_book(image: &[u8], out: &mut [u32]) -> u8
    ensures value { result ≡ book_code image.now (length out.old) }
    ensures out_after { out.new ≡ book_out image.now out.old }
{
    code_of(view(image, out, |b| Some(views::book_values(b))))
}

// The entry at a position, if the book has so many.
#[tactic(auto, unfolding(model::specs::Book::entries_in))]
fn entry_in(b: Book, position: u32) -> Option<Entry>
    ensures { result ≡ found (ltb position (entries_in b)) (get_or b.entries position no_entry) }
{
    let entries = b.entries;
    entries[..at_most_64(b.entrycount)]
        .get(position as usize)
        .copied()
}

// The asset at a position, if the book has so many.
#[tactic(auto, unfolding(model::specs::Book::assets_in))]
fn asset_in(b: Book, position: u32) -> Option<Asset>
    ensures { result ≡ found (ltb position (assets_in b)) (asset_at b.assets position) }
{
    let assets = b.assets;
    assets[..at_most_64(b.assetcount)]
        .get(position as usize)
        .copied()
}

// The entry at a position: its limits and its meters, in the image's order.
// Rules out: the blank entry after the last one, a neighbouring entry.
pub fn rights_entry(image: &[u8], position: u32, out: &mut [u32]) -> u8
    ensures value { result ≡ entry_code image.now position (length out.old) }
    ensures out_after { out.new ≡ entry_out image.now position out.old }
{
    code_of(view(
        image,
        out,
        |b| entry_in(b, position).map(views::entry_values),
    ))
}

// The asset at a position: its number, inherit and key.
// Rules out: the blank asset after the last one, a neighbouring asset.
pub fn rights_asset(image: &[u8], position: u32, out: &mut [u32]) -> u8
    ensures value { result ≡ asset_code image.now position (length out.old) }
    ensures out_after { out.new ≡ asset_out image.now position out.old }
{
    code_of(view(
        image,
        out,
        |b| asset_in(b, position).map(views::asset_values),
    ))
}

// A player's last event with its answer, and the open use.
// Rules out: a player above 15.
pub fn rights_player(image: &[u8], player: u32, out: &mut [u32]) -> u8
    ensures value { result ≡ player_code image.now player (length out.old) }
    ensures out_after { out.new ≡ player_out image.now player out.old }
{
    code_of(view(image, out, |b| {
        b.players
            .get(player as usize)
            .copied()
            .map(views::player_values)
    }))
}

// The entry at a position as an event at that time finds it: uses that are over by then have ended. No use is settled for a position
// that the book has not.
#[tactic(auto, unfolding(model::specs::Book::entries_in, step::specs::Settle::settled_book))]
fn entry_then(b: Book, position: u32, when: u32) -> Option<Entry>
    ensures { result ≡ found (ltb position (entries_in b))
        (get_or (settled when b.players b.entries) position no_entry) }
{
    if at_most_64(b.entrycount) <= position as usize {
        return None;
    }
    entry_in(step::settle(b, when), position)
}

// What is left of it.
fn left_in(b: Book, position: u32, time: u32) -> Option<[u32; 4]>
    ensures { result ≡ found (ltb position (entries_in b))
        (left_values (view_time b.time time) b.switch
        (get_or (settled (view_time b.time time) b.players b.entries) position no_entry)) }
{
    let when = views::view_time(b.time, time);
    let entry = entry_then(b, position, when)?;
    Some(views::left_values(entry, when, b.switch))
}

// What stands against granting it to a player.
fn grounds_in(b: Book, position: u32, player: u8, time: u32) -> Option<[u32; 9]>
    ensures { result ≡ found (ltb position (entries_in b))
        (ground_values (record { player = player; time = view_time b.time time; switch = b.switch })
        (get_or (settled (view_time b.time time) b.players b.entries) position no_entry)) }
{
    let when = views::view_time(b.time, time);
    let ask = Ask {
        player,
        time: when,
        switch: b.switch,
    };
    let entry = entry_then(b, position, when)?;
    Some(views::ground_values(entry, ask))
}

// What is left of the entry at a position, as an event at that time would find it; at the book's time if that is later.
// Rules out: still counting a use that is over by then, an entry out of its dates reported as grantable.
pub fn rights_left(image: &[u8], position: u32, time: u32, out: &mut [u32]) -> u8
    ensures value { result ≡ left_code image.now position time (length out.old) }
    ensures out_after { out.new ≡ left_out image.now position time out.old }
{
    code_of(view(image, out, |b| left_in(b, position, time)))
}

// What stands against granting the entry at a position to a player, as a begin at that time would find it; at the book's time if that is
// later: 1 for a ground that stands, otherwise 0.
// Rules out: the grounds of the book before its uses are settled, those of a neighbouring entry.
pub fn rights_grounds(image: &[u8], position: u32, player: u8, time: u32, out: &mut [u32]) -> u8
    ensures value { result ≡ grounds_code image.now position player time (length out.old) }
    ensures out_after { out.new ≡ grounds_out image.now position player time out.old }
{
    code_of(view(image, out, |b| grounds_in(b, position, player, time)))
}

// Turns an XML rights object into the image of a fresh book, at the start of the buffer image, and puts the image's length into size
// and the number of the text's elements into elements.
// Returns 0, or 40 to 42 if the text is refused, or 30 if the buffer has no room for the image.
// Rules out: a refusal that touches a byte or a number, a byte touched after the image, the length and the elements exchanged.
pub fn rights_from_xml(text: &[u8], image: &mut [u8], size: &mut u64, elements: &mut u64) -> u8
    ensures value { result ≡ xml_code text.now image.old }
    ensures image_after { image.new ≡ xml_image text.now image.old }
    ensures size_after { size.new ≡ xml_size text.now image.old size.old }
    ensures elements_after { elements.new ≡ xml_elements text.now image.old elements.old }
{
    match xml_image::import_text(text, image) {
        Ok(r) => {
            *size = r.length as u64;
            *elements = r.elements as u64;
            0
        }
        Err(e) => u8::from(e),
    }
}
