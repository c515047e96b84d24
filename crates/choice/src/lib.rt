// What a begin for an asset reaches in a table of assets: whether the asset is usable, and the parent whose entries also serve it.
// Then the entry that the begin gets: among the suitable and grantable ones, the one that comes first in document 01's order.
// A loop over the entries keeps the best so far. It considers one entry per turn, through a row that holds what the choice needs to
// know of it.
#![tactic(auto)]

ghost use Rattle.std.specs.Prelude.{◌≡◌, ◌+◌, ◌*◌, length, eqb};
ghost use Rattle.std.specs.List.{find};
ghost use Rattle.choice.specs.Reach.{catalog_from, parent_in, reach_in};
ghost use Rattle.choice.specs.Best.{none_found, at_of, found_after};
ghost use Rattle.choice.specs.Row.{window_of, row_of, refreshed_row, row_suits, row_open, row_taken};

use book::{Ask, Asset, Entry, Limits, Meters, Rank};
use numbers::{one, pick};
use rules::{flags_of, last_moment, ranks_before, threshold_full, when};

// Parent is the asset's inherit, or 0 for none, as an inherit is in images and in the model's `parent_of` and `suitable`.
#[derive(Clone, Copy)]
pub struct Reach {
    pub usable: bool,
    pub parent: u16,
}

// Rules out: a second asset with that number.
fn asset_named(assets: &[Asset], number: u16) -> Option<Asset>
    ensures { result ≡ find (λ a. eqb a.number number) assets.now }
{
    assets.iter().copied().find(|a| a.number == number)
}

// An inherit if it names a parent, otherwise 0. Without an inherit no asset is looked for: this is asked for each asset of a block's book.
fn parent_in(assets: &[Asset], inherit: u16) -> u16
    ensures { result ≡ parent_in (catalog_from assets.now) inherit }
{
    if inherit == 0 {
        return 0;
    }
    match asset_named(assets, inherit) {
        Some(p) => pick((p.key == 0) & (p.inherit == 0), inherit, 0),
        None => 0,
    }
}

// Rules out: using a parent or an illegal asset, reaching a parent through an illegal asset or over two levels, an inherit that is not
// in the book.
pub fn reach_of(assets: &[Asset], number: u16) -> Reach
    ensures { result ≡ reach_in (catalog_from assets.now) number }
{
    match asset_named(assets, number) {
        Some(a) => Reach {
            usable: a.key == 1,
            parent: parent_in(assets, a.inherit),
        },
        None => Reach {
            usable: false,
            parent: 0,
        },
    }
}

// An entry that can be granted, and its rank.
#[derive(Clone, Copy)]
pub struct Candidate {
    pub at: usize,
    pub rank: Rank,
}

// Whether any entry is suitable, whether one of them fails for the switch only, and the best grantable one.
#[derive(Clone, Copy)]
pub struct Best {
    pub suits: bool,
    pub switched: bool,
    pub granted: Option<Candidate>,
}

impl Best {
    // Before any entry is considered.
    // Rules out: a suitable entry, an entry to grant.
    pub fn none() -> Best
        ensures { result ≡ none_found }
    {
        Best {
            suits: false,
            switched: false,
            granted: None,
        }
    }

    // The position of the best grantable entry.
    // Rules out: another number of the entry, a position where none is grantable.
    pub fn at(self) -> Option<usize>
        ensures { result ≡ at_of self.granted }
    {
        self.granted.map(|c| c.at)
    }
}

// A rank after that of every entry.
const LAST_RANK: Rank = Rank {
    flags: 2,
    last: 0,
    inherited: 0,
};

// The entry is grantable from start (0 if none is flagged) until before window (its last moment, or 0 if a count or the seconds are
// spent, the interval is 0, or the threshold is full); if it is guarded, only with the switch on. Flags and window are the rank of an
// entry that is grantable; whether it is inherited depends on the asset asked for.
#[derive(Clone, Copy)]
pub struct Row {
    pub asset: u16,
    pub kind: u8,
    pub flags: u8,
    pub guarded: bool,
    pub start: u32,
    pub window: u64,
}

// Rules out: a limit tested without its flag, a limit that is used up left open, an interval of 0 or a full threshold left open.
#[tactic(auto, unfolding(crate::specs::Row::window_of, crate::specs::Row::spent, rules::specs::Rules::flags_of))]
fn window_of(l: Limits, m: Meters) -> u64
    ensures { result ≡ window_of l m }
{
    let f = flags_of(l);
    let spent = (f.count & (l.count <= m.count))
        | (f.timed & (l.timed <= m.timed))
        | (f.accumulated & (l.accumulated <= m.seconds))
        | ((f.interval & (l.interval == 0)) | threshold_full(l, m));
    pick(spent, 0, last_moment(l, m))
}

// Rules out: a window that closes at end, an open row where a count is spent.
#[tactic(auto, unfolding(crate::specs::Row::row_of, crate::specs::Row::start_of, rules::specs::Rules::flags_of))]
pub fn row_of(l: Limits, m: Meters) -> Row
    ensures { result ≡ row_of l m }
{
    let f = flags_of(l);
    let start = when(f.start, l.start);
    let window = window_of(l, m);
    Row {
        asset: l.asset,
        kind: l.kind,
        flags: one(!(l.flags == 0)),
        start: start,
        window: window,
        guarded: (l.tracked == 1) & !(l.mark == 1),
    }
}

// The row of an entry when its meters have changed: no event changes its limits.
// Rules out: the window of the meters before.
pub fn refreshed(row: Row, l: Limits, m: Meters) -> Row
    ensures { result ≡ refreshed_row l m row }
{
    let mut r = row;
    r.window = window_of(l, m);
    r
}

// Kind and asset in one number.
fn kind_with_asset(kind: u8, asset: u16) -> u32
    ensures { result ≡ kind * 65536 + asset }
{
    kind as u32 * 65536 + asset as u32
}

// Whether the row's entry is of the kind, and the asset's own or its parent's. Kind and asset are compared at once, which on the days of
// the bench costs less than a test of each (docs/NOTES.md, "A look back at today's forms").
fn row_suits(row: Row, asset: u16, parent: u16, kind: u8) -> bool
    ensures { result ≡ row_suits asset parent kind row }
{
    let own = kind_with_asset(kind, asset);
    // Without a parent the asset's own again.
    let inherited = pick(parent == 0, own, kind_with_asset(kind, parent));
    let k = kind_with_asset(row.kind, row.asset);
    (k == own) | (k == inherited)
}

// Whether nothing but the switch can stand against granting the row's entry to who asks.
fn row_open(row: Row, ask: Ask) -> bool
    ensures { result ≡ row_open ask row }
{
    let t = ask.time;
    let now = t as u64;
    (row.start <= t) & (now < row.window)
}

// One turn of the choice, on the entry's row. The dates are tested first: that takes two comparisons, and comparing ranks takes more.
// Rules out: every entry taken as inherited, the later entry at equal ranks, an entry that is suitable but not grantable, the switch held
// against an entry that is spent.
#[tactic(auto, unfolding(crate::specs::Row::row_taken))]
pub fn consider_row(
    best: Best,
    row: Row,
    asset: u16,
    parent: u16,
    kind: u8,
    ask: Ask,
    i: usize,
) -> Best
    ensures { result ≡ row_taken asset parent kind ask i row best }
{
    if !row_suits(row, asset, parent, kind) {
        return best;
    }
    if !row_open(row, ask) {
        return Best {
            suits: true,
            ..best
        };
    }
    if row.guarded & !(ask.switch == 1) {
        return Best {
            suits: true,
            switched: true,
            ..best
        };
    }
    let rank = Rank {
        flags: row.flags,
        last: row.window,
        inherited: one(!(row.asset == asset)),
    };
    // A test for each case: one rank picked from the two costs every turn more.
    let better = match best.granted {
        Some(held) => ranks_before(rank, held.rank),
        None => ranks_before(rank, LAST_RANK),
    };
    if !better {
        return Best {
            suits: true,
            ..best
        };
    }
    Best {
        suits: true,
        granted: Some(Candidate { at: i, rank: rank }),
        ..best
    }
}

// Rules out: the last entry left out, 12 where an entry is suitable, 13 where one is grantable.
pub fn chosen(entries: &[Entry], asset: u16, parent: u16, kind: u8, ask: Ask) -> Best
    ensures { result ≡ found_after entries.now asset parent kind ask (length entries.now) }
{
    let mut best = Best::none();
    for (i, e) in entries.iter().enumerate() {
        let row = row_of(e.limits, e.meters);
        best = consider_row(best, row, asset, parent, kind, ask, i);
    }
    best
}
