// The types of the reader of XML rights objects (order 1 of document 02). What a reader must believe is in specs/, and the theorems
// about it are in proofs/. A place in the text is the number of bytes in front of it; a range goes from its first
// byte to the place behind its last.
#![tactic(auto)]

ghost use Rattle.std.specs.Prelude.{◌≡◌, ◌+◌, length, min, set, take};
ghost use Rattle.xml_model.specs.Codes.{text_code};
ghost use Rattle.xml_model.specs.State.{id_of, ids_in, named, referred};

use book::{Asset, Book, Limits};

// Why a text is refused, by the number in order 1 of document 02: not well formed, something in it not accepted, too many of something.
#[derive(Clone, Copy, Debug, PartialEq, Eq)]
pub enum TextError {
    Malformed = 40,
    Unaccepted = 41,
    TooMany = 42,
}

// Rules out: two errors with the same number.
impl From<TextError> for u8 {
    ghost from_gives = { λ e n. n ≡ text_code e };

    fn from(e: TextError) -> u8 {
        e as u8
    }
}

// The first fault of a text, and how far the text was looked at to tell.
#[derive(Clone, Copy, Debug, PartialEq, Eq)]
pub struct Fault {
    pub error: TextError,
    pub at: usize,
}

// An opening tag, an empty-element tag, an end tag.
#[derive(Clone, Copy, Debug, PartialEq, Eq)]
pub enum Form {
    Open,
    Empty,
    End,
}

// An attribute: its name, from `name` to `end`, and between the quotes its value.
#[derive(Clone, Copy, Debug, PartialEq, Eq)]
pub struct Attribute {
    pub name: usize,
    pub end: usize,
    pub from: usize,
    pub to: usize,
}

// What follows the name of a tag: its attributes and its end. Form tells `>` from `/>`; next is the place behind it.
#[derive(Clone, Copy, Debug, PartialEq, Eq)]
pub struct Tail {
    pub form: Form,
    pub next: usize,
}

// A unit: one tag with the text in front of it. The text goes from `from` to `at`, the name from `name` to `end`; next is the place
// behind the tag.
#[derive(Clone, Copy, Debug, PartialEq, Eq)]
pub struct Tag {
    pub form: Form,
    pub from: usize,
    pub at: usize,
    pub name: usize,
    pub end: usize,
    pub next: usize,
}

// The value of an attribute.
#[derive(Clone, Copy, Debug, PartialEq, Eq)]
pub struct Range {
    pub from: usize,
    pub to: usize,
}

// One part of a duration: a number with its letter, if it is there, and the place behind it.
#[derive(Clone, Copy, Debug, PartialEq, Eq)]
pub struct Piece {
    pub number: Option<u64>,
    pub next: usize,
}

// An id of the text, and the number of its asset once that is closed; 0 for any other element.
#[derive(Clone, Copy, Debug, PartialEq, Eq)]
pub struct Id {
    pub from: usize,
    pub to: usize,
    pub asset: u16,
}

#[derive(Clone, Copy, Debug, PartialEq, Eq)]
pub struct Ids {
    pub count: u16,
    pub table: [Id; 256],
}

impl Ids {
    // Rules out: an id behind the count, one of the 256 left out.
    #[tactic(auto, unfolding(crate::specs::State::ids_in))]
    pub fn as_slice(&self) -> &[Id]
        ensures items { result.now ≡ take (ids_in self.now) self.now.table }
        ensures size { length result.now ≡ ids_in self.now }
    {
        &self.table[..usize::from(self.count).min(256)]
    }

    // One id more, whose asset is not closed. A full table stays as it is.
    // Rules out: an id over another one, an asset that counts as closed.
    #[tactic(auto, unfolding(crate::specs::State::ids_in, crate::specs::State::id_of))]
    pub fn push(&mut self, id: Range)
        ensures { self.new ≡ record { count = min (ids_in self.old + 1) 256; table = set self.old.table (ids_in self.old) (id_of id) } }
    {
        let n = usize::from(self.count).min(256);
        if n < 256 {
            self.table[n] = Id {
                from: id.from,
                to: id.to,
                asset: 0,
            };
            self.count = (n + 1) as u16;
        } else {
            self.count = 256;
        }
    }

    // The id at position i is that of a closed asset. A position behind the table's end, as "no id" is, changes nothing.
    // Rules out: an id whose range changes.
    #[tactic(auto, unfolding(crate::specs::State::named))]
    pub fn name(&mut self, i: u16, asset: u16)
        ensures { self.new ≡ named i asset self.old }
    {
        let i = usize::from(i);
        if i < 256 {
            self.table[i].asset = asset;
        }
    }
}

// The asset references of a permission, as asset numbers. 64 are kept; more than 64 count as 65.
#[derive(Clone, Copy, Debug, PartialEq, Eq)]
pub struct References {
    pub count: u8,
    pub table: [u16; 64],
}

impl References {
    // One reference more. Those behind the 64th are counted, up to 65.
    // Rules out: 64 for more than 64, a reference over another one.
    #[tactic(auto, unfolding(crate::specs::State::referred))]
    pub fn push(&mut self, asset: u16)
        ensures { self.new ≡ referred asset self.old }
    {
        let n = usize::from(self.count);
        if n < 64 {
            self.table[n] = asset;
            self.count += 1;
        } else {
            self.count = 65;
        }
    }
}

// What has been read so far.
#[derive(Clone, Copy, Debug, PartialEq, Eq)]
pub struct State {
    pub elements: u16,
    pub ids: Ids,
    // the asset that is open, and the position of its id; 256 if it has none
    pub asset: Asset,
    pub assetid: u16,
    // of the permission that is open
    pub references: References,
    // of the kind that is open; `object` is the rights object's number
    pub limits: Limits,
    pub book: Book,
}
