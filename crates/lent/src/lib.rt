// One player's record, lent and settled in place.
// The rule is the one for settling by value: the lent record is copied out, settled and stored back. The event loops own their players
// and settle them through `shut_player`, which lends a record to `settle_in_place`.
#![tactic(auto)]

ghost use Rattle.std.specs.Prelude.{◌≡◌};
ghost use Rattle.model.specs.Meters.{shut};

use book::Player;

// Rules out: a use that ends before its until, a last event that settling changes.
fn settle_in_place(p: &mut Player, t: u32)
    ensures { p.new ≡ shut t p.old }
{
    *p = uses::shut_player(*p, t);
}

// What the event loops call to settle: their record is lent, closed in place, and handed back.
// Rules out: an unchanged record, a last event that settling changes.
pub fn shut_player(p: Player, t: u32) -> Player
    ensures { result ≡ shut t p }
{
    let mut q = p;
    settle_in_place(&mut q, t);
    q
}
