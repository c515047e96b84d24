// What the last tag of an asset and of a kind adds to the book: the asset, and the entries of the kind. Rules 24 and 25 are those of
// the reader of images.
#![tactic(auto)]

ghost use Rattle.std.specs.Prelude.{◌≡◌, ◌+◌, ◌<◌, ◌≤◌};
ghost use Rattle.model.specs.Book.{assets_in, entries_in, in_book, asset_legal, limits_legal};
ghost use Rattle.xml_model.specs.State.{as_done, asset_done, how_many, asset_for, limits_for, kind_legal};
ghost use Rattle.xml_model.specs.State.{with_entries, kind_done};

use book::{Asset, Book, Entry, Limits, at_most_64, blank_entry};
use image_limits::{asset_legal, asset_position, limits_legal};
use xml_model::{State, TextError};

// Whether the asset may follow those of the book.
fn next_legal(b: Book, a: Asset) -> bool
    ensures { result ≡ asset_legal b.assets (assets_in b) (assets_in b) a }
{
    let n = at_most_64(b.assetcount);
    asset_legal(&b.assets[..n], n, a)
}

// Whether the book has an asset with that number.
fn known(b: Book, number: u16) -> bool
    ensures { result ≡ in_book b number }
{
    asset_position(&b.assets[..at_most_64(b.assetcount)], number as u32).is_some()
}

// The last tag of an asset.
// Rules out: 42 for a 65th asset whose number is given twice, an asset whose id stays unnamed.
#[tactic(auto, unfolding(model::specs::Book::assets_in, xml_model::specs::State::asset_done, xml_model::specs::State::with_ids, xml_model::specs::State::with_book, xml_model::specs::State::with_one_asset))]
pub fn asset_done(mut st: State) -> Result<State, TextError>
    ensures { as_done result ≡ asset_done st }
{
    let asset = st.asset;
    let n = at_most_64(st.book.assetcount);
    if !next_legal(st.book, asset) {
        return Err(TextError::Unaccepted);
    }
    if 64 <= n {
        return Err(TextError::TooMany);
    }
    st.book.assets[n] = asset;
    st.book.assetcount = (n + 1) as u8;
    st.ids.name(st.assetid, asset.number);
    Ok(st)
}

// How many entries a kind gives: one for each reference, or for every asset if there is none.
#[tactic(auto, unfolding(xml_model::specs::State::how_many, model::specs::Book::assets_in))]
fn how_many(st: State) -> usize
    ensures { (result ≡ how_many st) × (result ≤ 255) }
{
    if st.references.count == 0 {
        at_most_64(st.book.assetcount)
    } else {
        usize::from(st.references.count)
    }
}

// The asset of the i-th of them.
#[tactic(auto, unfolding(xml_model::specs::State::asset_for))]
fn asset_for(st: State, i: usize) -> u16
    requires { i < 64 }
    ensures { result ≡ asset_for st i }
{
    if st.references.count == 0 {
        st.book.assets[i].number
    } else {
        st.references.table[i]
    }
}

#[tactic(auto, unfolding(xml_model::specs::State::limits_for, xml_model::specs::State::for_asset))]
fn limits_for(kind: u8, st: State, i: usize) -> Limits
    requires { i < 64 }
    ensures { result ≡ limits_for kind st i }
{
    Limits {
        asset: asset_for(st, i),
        kind,
        ..st.limits
    }
}

// Rule 25 of the i-th of them.
#[tactic(auto, unfolding(model::specs::Book::in_book, model::specs::Book::assets_in))]
fn entry_legal(kind: u8, st: State, i: usize) -> bool
    requires { i < 64 }
    ensures { result ≡ limits_legal (in_book st.book (asset_for st i)) (limits_for kind st i) }
{
    limits_legal(known(st.book, asset_for(st, i)), limits_for(kind, st, i))
}

#[tactic(auto, unfolding(xml_model::specs::State::kind_legal, numbers::specs::Count::all))]
fn kind_legal(kind: u8, st: State) -> bool
    ensures { result ≡ kind_legal kind st }
{
    for i in 0..how_many(st).min(64) {
        if !entry_legal(kind, st, i) {
            return false;
        }
    }
    true
}

// The entries behind the others in the book; they are fresh.
#[tactic(auto, unfolding(xml_model::specs::State::with_entries, xml_model::specs::State::filled, model::specs::Book::entries_in))]
fn with_entries(kind: u8, st: State) -> Book
    requires { entries_in st.book + how_many st ≤ 64 }
    ensures { result ≡ with_entries kind st st.book }
{
    let mut b = st.book;
    let n = at_most_64(b.entrycount);
    let m = how_many(st);
    for i in 0..m {
        b.entries[n + i] = Entry {
            limits: limits_for(kind, st, i),
            ..blank_entry()
        };
    }
    b.entrycount = (n + m) as u8;
    b
}

// The last tag of a kind, by the kind's number, as an entry holds it.
// Rules out: 42 where an entry breaks rule 25, an entry for each asset though there are references.
#[tactic(auto, unfolding(xml_model::specs::State::kind_done, xml_model::specs::State::with_book, model::specs::Book::entries_in))]
pub fn kind_done(kind: u8, mut st: State) -> Result<State, TextError>
    ensures { as_done result ≡ kind_done kind st }
{
    let n = at_most_64(st.book.entrycount) + how_many(st);
    if !kind_legal(kind, st) {
        return Err(TextError::Unaccepted);
    }
    if 64 < n {
        return Err(TextError::TooMany);
    }
    st.book = with_entries(kind, st);
    Ok(st)
}
