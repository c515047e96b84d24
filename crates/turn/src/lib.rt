// What the run program does between its reads and writes: a turn, from one read of the input to the next, and loading the book from the
// bytes of rights.rbk, with the list of lines to begin with. This crate does no input or output, so the contracts can state everything
// it does.
#![tactic(auto)]

ghost use Rattle.std.specs.Prelude.{◌≡◌, false, true, List, ℕ, length, IfSome, MatchOption, MatchResult};
ghost use Rattle.book.specs.Blank.{no_book};
ghost use Rattle.book.specs.Codes.{image_code};
ghost use Rattle.model.specs.Image.{read_code, read_book};
ghost use Rattle.model.specs.Run.{zero_lines};
ghost use Rattle.report.specs.Report.{taken_lines};
ghost use Rattle.turn.specs.Turn.{inside, book_after, lines_after, written_after, out_after, kept_after, input_after, Begins};

use book::{Book, ImageError, Line, RECORD_SIZE, at_most_64};
use report::Report;

// The input buffer's size: 3,855 records, and what is kept of one more.
pub const INPUT: usize = 65551;

// Room for the lines of all records that the input buffer can hold, with a last one cut short, at most 19 bytes each.
pub const OUT: usize = 73264;

// One byte more than the longest image: these bytes are enough to refuse a longer file.
pub const IMAGE: usize = 5400;

// The next book and report, how many bytes of text are at the start of the output buffer, and how many of the next record are at the
// start of the input buffer.
#[derive(Clone, Copy)]
pub struct Turned {
    pub book: Book,
    pub report: Report,
    pub written: usize,
    pub kept: usize,
}

// Answers the records in the first n bytes of input: the whole ones, and at the end of the input one cut short too. The report is
// handed on from record to record. None if n is more than the input buffer holds.
// Rules out: the book or the lines before the records for those after them, kept bytes lost or left where they were, a record
// answered before all its bytes have come, a buffer too small for the text, a byte touched after the text or the kept bytes.
#[tactic(auto, unfolding(crate::specs::Turn::input_after, crate::specs::Turn::out_after))]
pub fn turn(
    b: Book,
    report: Report,
    input: &mut [u8; INPUT],
    n: usize,
    ended: bool,
    out: &mut [u8; OUT],
) -> Option<Turned>
    ensures done { MatchOption result (inside input.old n ≡ false) (λ _. inside input.old n ≡ true) }
    ensures book_value { IfSome result (λ t. t.book ≡ book_after b report.lines report.lent input.old n ended) }
    ensures lines_value { IfSome result (λ t. t.report.lines ≡ lines_after b report.lines report.lent input.old n ended) }
    ensures lent_value { IfSome result (λ t. t.report.lent ≡ report.lent) }
    ensures written_value { IfSome result (λ t. t.written ≡ written_after b report.lines report.lent input.old n ended) }
    ensures kept_value { IfSome result (λ t. t.kept ≡ kept_after input.old n ended) }
    ensures input_after { input.new ≡ input_after input.old n ended }
    ensures out_after { out.new ≡ out_after b report.lines report.lent input.old n ended out.old }
{
    if INPUT < n {
        return None;
    }
    let kept = numbers::pick(ended, 0, n % RECORD_SIZE);
    let whole = n - kept;
    let block = batch::answer_block(b, &input[..whole], out, report);
    input.copy_within(whole..n, 0);
    Some(Turned {
        book: block.book,
        report: block.report,
        written: block.written,
        kept: kept,
    })
}

// The report that a run begins with: a line of zeros for each asset.
// Rules out: a line that names another asset, a line of a slot past the last asset.
pub fn zero_lines(b: Book) -> Report
    ensures lines { result.lines ≡ taken_lines (zero_lines b) }
    ensures lent { result.lent ≡ length (zero_lines b) }
{
    let n = at_most_64(b.assetcount);
    let mut lines = [book::blank_line(); 64];
    for i in 0..n {
        let a = b.assets[i];
        lines[i] = Line {
            content: a.number as u64,
            times: 0,
            seconds: 0,
        };
    }
    Report {
        lines: lines,
        lent: n,
    }
}

// The book in rights.rbk, given the first n bytes of the file at the start of image: all of them, or as many as image holds.
// The answer is the one for every file f that begins with these bytes.
// Rules out: a file longer than any image, accepted for its first bytes.
pub fn load(image: &[u8; IMAGE], n: usize) -> Result<Book, ImageError>
    ensures { (f : List ℕ) → Begins image.now n f
        → MatchResult result (λ b. (read_code f ≡ 0) × (b ≡ read_book no_book f)) (λ e. read_code f ≡ image_code e) }
{
    let mut b = book::blank_book();
    image_read::read(&mut b, &image[..n.min(IMAGE)])?;
    Ok(b)
}
