// Decodes the bytes of an event record into an event, or says why they are refused: 6, then 2, then 1.
#![tactic(auto)]

ghost use Rattle.std.specs.Prelude.{◌≡◌, true, false, MatchResult};
ghost use Rattle.book.specs.Codes.{event_code};
ghost use Rattle.book.specs.Decoded.{Invalid, Valid};
ghost use Rattle.book.specs.declared.EventError.{EventError};
ghost use Rattle.model.specs.Book.{request_legal};
ghost use Rattle.model.specs.Record.{request_of, decoded};

use book::{Event, EventError, Kind, RECORD_SIZE, Request};

// Takes the numbers that a record or a player's stored request holds, legal or not.
// Rules out: kind 0 or 6 for a begin, a stop or a cancel that names an asset or a kind, two operations swapped.
#[tactic(auto, unfolding(model::specs::Book::request_legal, model::specs::Record::request_of, model::specs::Record::kind_of))]
fn request_of(operation: u8, asset: u16, kind: u8) -> Result<Request, EventError>
    ensures { MatchResult result
        (λ q. (request_legal operation asset kind ≡ true) × (request_of operation asset kind ≡ q))
        (λ e. (request_legal operation asset kind ≡ false) × (e ≡ EventError.Request)) }
{
    match (operation, asset, kind) {
        (1, _, _) => Ok(Request::Begin(Kind::try_from(kind)?, asset)),
        (2, 0, 0) => Ok(Request::Continue),
        (3, 0, 0) => Ok(Request::Stop),
        (4, 0, 0) => Ok(Request::Cancel),
        _ => Err(EventError::Request),
    }
}

// A player's stored request is judged by this too.
// Rules out: kind 0 or 6 for a begin, a stop or a cancel that names an asset or a kind.
pub fn request_legal(operation: u8, asset: u16, kind: u8) -> bool
    ensures { result ≡ request_legal operation asset kind }
{
    request_of(operation, asset, kind).is_ok()
}

// Rules out: 1 before 2 (player 16, operation 9), a continue that names an asset.
#[tactic(auto, unfolding(model::specs::Record::decoded, model::specs::Record::event_in))]
pub fn decode(s: &[u8]) -> Result<Event, EventError>
    ensures { MatchResult result (λ e. decoded s.now ≡ Valid e) (λ e. decoded s.now ≡ Invalid (event_code e)) }
{
    if s.len() != RECORD_SIZE {
        return Err(EventError::Length);
    }
    let player = s[0];
    if 15 < player {
        return Err(EventError::Player);
    }
    let asset = u16::from_be_bytes([s[10], s[11]]);
    let request = request_of(s[9], asset, s[12])?;
    Ok(Event {
        player: player,
        number: u64::from_be_bytes([s[1], s[2], s[3], s[4], s[5], s[6], s[7], s[8]]),
        request: request,
        time: u32::from_be_bytes([s[13], s[14], s[15], s[16]]),
    })
}
