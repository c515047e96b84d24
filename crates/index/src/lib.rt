// What is kept beside the book for speed.
// For each entry a row with what the choice needs to know of it, and for each player the end of its use: rank and dates are then
// computed once per change, not once for each begin that looks at the entry.
// What a begin reaches for each asset number, as two tables filled once for many begins: the position of a usable asset by its number,
// and the parent by position. No event changes an asset, so these stay valid as long as the book is served.
#![tactic(auto)]

ghost use Rattle.std.specs.Prelude.{◌≡◌, map, length, ◌<◌, cond};
ghost use Rattle.index.specs.Ends.{end_of, end_of_player};
ghost use Rattle.index.specs.Rows.{row_of_entry};
ghost use Rattle.index.specs.Places.{places_of, parents_of, reach_at};

use book::{Asset, Entry, NEVER, Open, Player};
use choice::{Reach, Row, reach_of, row_of};
use numbers::pick;

// Rules out: the row of another entry, a row left blank.
pub fn rows_of(es: [Entry; 64]) -> [Row; 64]
    ensures { result ≡ map row_of_entry es }
{
    es.map(|e| row_of(e.limits, e.meters))
}

// When a use ends, if there is one; otherwise a time later than any.
// Rules out: the until of a closed use, begin for until.
pub fn end_of(o: Open) -> u32
    ensures { result ≡ end_of o }
{
    pick(o.on == 1, o.until, NEVER)
}

// Rules out: the end of a neighbouring player, a player left out.
pub fn ends_of(players: [Player; 16]) -> [u32; 16]
    ensures { result ≡ map end_of_player players }
{
    players.map(|p| end_of(p.current))
}

// What the table holds for an asset at a position: that position, or 64 if the asset cannot be used. The tables hold bytes and plain
// numbers, as `places_of` and `parents_of` define them: 64 KiB that are filled for each block of records.
fn place_of(usable: bool, i: usize) -> u8
    requires { i < 64 }
    ensures { result ≡ cond usable i 64 }
{
    pick(usable, i as u8, 64)
}

// The position of each usable asset by its number, 64 if there is none, and each asset's parent by its position, 0 if there is none.
// The last asset is entered first, so that of two assets with the same number the first one counts.
// Rules out: the last of two assets with the same number, an asset that is no parent given as one, a position for an asset without a key.
pub fn fill_places(places: &mut [u8; 65536], parents: &mut [u16; 64], assets: &[Asset])
    ensures { (places.new ≡ places_of assets.now (length assets.now))
        × (parents.new ≡ parents_of assets.now (length assets.now)) }
{
    *places = [64; 65536];
    *parents = [0; 64];
    let n = assets.len().min(64);
    for i in (0..n).rev() {
        let a = assets[i];
        let r = reach_of(&assets[..n], a.number);
        places[a.number as usize] = place_of(r.usable, i);
        parents[i] = r.parent;
    }
}

// What a begin for an asset reaches: one lookup in each table.
// Rules out: usable at position 64, the parent at another position.
#[tactic(auto, unfolding(crate::specs::Places::reach_at))]
pub fn reach_at(places: &[u8; 65536], parents: &[u16; 64], asset: u16) -> Reach
    ensures { result ≡ reach_at places.now parents.now asset }
{
    let place = places[asset as usize];
    if place < 64 {
        return Reach {
            usable: true,
            parent: parents[place as usize],
        };
    }
    Reach {
        usable: false,
        parent: 0,
    }
}
