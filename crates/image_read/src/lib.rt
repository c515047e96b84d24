// Reads an image: gives the book in the bytes if no rule is broken, otherwise leaves the book held before.
#![tactic(auto)]

ghost use Rattle.std.specs.Prelude.{◌≡◌, MatchResult, OnErr};
ghost use Rattle.book.specs.Codes.{image_code};
ghost use Rattle.model.specs.Book.{rule_broken};
ghost use Rattle.model.specs.Image.{read_code, read_book};

use book::{Book, ImageError};

// Stages 24 to 27 in order: the first rule that the book breaks.
#[tactic(auto, unfolding(model::specs::Book::rule_broken, model::specs::Book::switch_legal))]
fn rule_broken(b: Book) -> Result<(), ImageError>
    ensures { MatchResult result (λ _. rule_broken b ≡ 0) (λ e. rule_broken b ≡ image_code e) }
{
    if !image_limits::assets_legal(b) {
        return Err(ImageError::Assets);
    }
    if !image_limits::entries_legal(b) {
        return Err(ImageError::Entries);
    }
    if !((b.switch <= 1) & image_players::players_legal(b) & image_players::latest_passes(b)) {
        return Err(ImageError::Players);
    }
    if !image_meters::meters_legal(b) {
        return Err(ImageError::Meters);
    }
    Ok(())
}

// The header is checked first; the book is checked only if the header is valid.
// Rules out: Ok for bytes that break a rule; a refusal that leaves part of the new book, or a blank one.
#[tactic(auto, using(crate::proofs::Stages::header_refused, crate::proofs::Stages::book_judged, crate::proofs::Stages::refused_kept, crate::proofs::Stages::accepted_read))]
pub fn read(held: &mut Book, s: &[u8]) -> Result<(), ImageError>
    ensures code { MatchResult result (λ _. read_code s.now ≡ 0) (λ e. read_code s.now ≡ image_code e) }
    ensures book_after { held.new ≡ read_book held.old s.now }
    ensures kept { OnErr result (held.new ≡ held.old) }
{
    let found = image_parse::parse(s)?;
    rule_broken(found)?;
    *held = found;
    Ok(())
}
