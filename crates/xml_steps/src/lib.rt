// What has been read so far of a rights object: blank, and with one element more.
#![tactic(auto)]

ghost use Rattle.std.specs.Prelude.{◌≡◌};
ghost use Rattle.xml_model.specs.State.{blank, as_done, counted};

use book::{blank_asset, blank_book, blank_entry};
use xml_model::{Id, Ids, References, State, TextError};

// The position that stands for "no id": `State` is a type of the definitions, which have a number there.
pub const NO_POSITION: u16 = 256;

// "at most 256" elements.
const MOST_ELEMENTS: u16 = 256;

// Nothing read yet.
// Rules out: a count that is not 0, an asset that takes the first id for its own.
#[tactic(auto, unfolding(xml_model::specs::State::blank))]
pub fn blank_state() -> State
    ensures { result ≡ blank }
{
    let entry = blank_entry();
    let none = Id {
        from: 0,
        to: 0,
        asset: 0,
    };
    State {
        elements: 0,
        ids: Ids {
            count: 0,
            table: [none; 256],
        },
        asset: blank_asset(),
        assetid: NO_POSITION,
        references: References {
            count: 0,
            table: [0; 64],
        },
        limits: entry.limits,
        book: blank_book(),
    }
}

// One element more.
// Rules out: 41 for the 257th element, a 256th that is refused, another part of the state changed.
#[tactic(auto, unfolding(xml_model::specs::State::counted, xml_model::specs::State::with_elements))]
pub fn counted(mut st: State) -> Result<State, TextError>
    ensures { as_done result ≡ counted st }
{
    if MOST_ELEMENTS <= st.elements {
        return Err(TextError::TooMany);
    }
    st.elements += 1;
    Ok(st)
}
