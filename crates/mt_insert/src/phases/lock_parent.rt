//! LockParent: locks the parent of the halves, or goes on to make a root.

ghost use Rattle.std.specs.Prelude.{◌≡◌, ◌<◌, ℕ, length, Some, IfSome, IfNone, ◌≢◌};
ghost use Rattle.mt_arena.specs.Accesses.{at};
ghost use Rattle.mt_insert.specs.{KeptSplits.{last_of, HoldsSplits, IsAtLockParent}, SplitEdits.for_parent, Climbs.IsLockParent};

use crate::halves::last;
use mt_arena::Arena;
use mt_operation::{Halves, Phase, Splits, Walk};

/// Locks the parent of the halves, which the right one names from now on; where there is none, a root
/// is made next. Only a lock is in its way: the number is that of the parent's holder, which is
/// another operation.
pub fn lock_parent(
    arena: &mut Arena,
    walk: &mut Walk,
    splits: &mut Splits,
    operation: usize,
) -> Option<usize>
    requires kept { IsAtLockParent arena.old operation splits.old }
    ensures again { IfSome result (λ holder. (parent : ℕ) × ((at arena.old (last_of splits.old).left).parent ≡ Some parent) × ((at arena.old parent).holder ≡ Some holder)) }
    ensures unchanged { IfSome result (λ holder. (arena.new ≡ arena.old) × (walk.new ≡ walk.old) × (splits.new ≡ splits.old)) }
    ensures another { HoldsSplits arena.old operation splits.old → IfSome result (λ holder. holder ≢ operation) }
    ensures locks { IfNone result (IsLockParent operation arena.old arena.new walk.old walk.new splits.old splits.new) }
{
    arena.facts();
    let Halves { left, right } = last(splits);
    let Some(parent) = arena.node(left).parent() else {
        walk.phase = Phase::RootGrow;
        return None;
    };
    if let Some(holder) = arena.node(parent).holder() {
        return Some(holder);
    }
    arena.lock(parent, operation);
    arena.set_parent(right, parent, operation);
    splits.above = Some(parent);
    walk.phase = phase_for(arena, parent);
    None
}

// What comes next by how many children the parent has.
fn phase_for(arena: &Arena, parent: usize) -> Phase
    requires there { parent < length arena.now.nodes }
    requires interior { 0 < (at arena.now parent).level }
    ensures { result ≡ for_parent (at arena.now parent) }
{
    if arena.interior(parent).is_full() {
        Phase::InteriorSplit
    } else {
        Phase::InsertChild
    }
}
