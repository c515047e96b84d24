// Copies values to the start of a lent buffer: all of them, or none if it is too short.
#![tactic(auto)]

ghost use Rattle.std.specs.Prelude.{◌≡◌, length, MatchResult};
ghost use Rattle.fill.specs.Fill.{fill_code, filled, no_room};

use book::NoRoom;

// Rules out: a buffer touched though it is too short, a value touched after the copied ones.
pub fn fill<T: Copy>(out: &mut [T], values: &[T]) -> Result<(), NoRoom>
    ensures value { MatchResult result
        (λ _. fill_code values.now (length out.old) ≡ 0)
        (λ _. fill_code values.now (length out.old) ≡ no_room) }
    ensures out_after { out.new ≡ filled values.now out.old }
{
    let n = values.len();
    if out.len() < n {
        return Err(NoRoom);
    }
    out[..n].copy_from_slice(values);
    Ok(())
}
