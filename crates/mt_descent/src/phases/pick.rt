//! Pick: looks for the child of an interior node.

ghost use Rattle.std.specs.Prelude.{◌≡◌};
ghost use Rattle.mt_arena.specs.Accesses.{at};
ghost use Rattle.mt_descent.specs.{Seen.child_for, KeptWalks.{slice_in, IsAtPick, IsAtChild}, WalkMoves.{Continues, after_pick}};

use mt_arena::Arena;
use mt_operation::{Phase, Walk};
use mt_slices::StoredKey;

/// Looks for the child to which the key's slice belongs.
pub fn pick(arena: &Arena, key: &StoredKey, walk: &mut Walk)
    requires kept { IsAtPick arena.now key.now walk.old }
    ensures is { walk.new ≡ after_pick walk.old (child_for (at arena.now walk.old.place.node) (slice_in key.now walk.old)) }
    ensures same { Continues walk.old walk.new }
    ensures kept { IsAtChild arena.now key.now walk.new }
{
    arena.facts();
    let slice = key.slice(walk.layer);
    walk.child = arena.interior(walk.place.node).child_of(slice);
    walk.phase = Phase::Child;
}
