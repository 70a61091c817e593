//! LockPrev: locks the left neighbour of the empty border node.

ghost use Rattle.std.specs.Prelude.{◌≡◌, ◌≢◌, ℕ, IfSome, IfNone, Some};
ghost use Rattle.mt_rows.specs.Rows.{Bytes};
ghost use Rattle.mt_arena.specs.Accesses.{at};
ghost use Rattle.mt_remove.specs.{KeptRemovals.{HoldsRemoval, IsAtLockPrev}, Unlinks.IsLockPrev};

use mt_arena::Arena;
use mt_operation::{Phase, Removal, Walk};

/// Locks the left neighbour of the empty border node. Only a lock is in its way: the number is that of the
/// neighbour's holder, which is another operation.
pub fn lock_prev(
    arena: &mut Arena,
    walk: &mut Walk,
    removal: &mut Removal,
    operation: usize,
) -> Option<usize>
    requires kept { (key : Bytes) × IsAtLockPrev arena.old operation key walk.old removal.old }
    ensures again { IfSome result (λ holder. (left : ℕ) × ((at arena.old walk.old.place.node).previous ≡ Some left) × ((at arena.old left).holder ≡ Some holder)) }
    ensures unchanged { IfSome result (λ holder. (arena.new ≡ arena.old) × (walk.new ≡ walk.old) × (removal.new ≡ removal.old)) }
    ensures another { HoldsRemoval arena.old operation walk.old removal.old → IfSome result (λ holder. holder ≢ operation) }
    ensures locks { IfNone result (IsLockPrev operation arena.old arena.new walk.old walk.new removal.old removal.new) }
{
    arena.facts();
    let Some(left) = arena.node(walk.place.node).previous() else {
        unreachable!()
    };
    if let Some(holder) = arena.node(left).holder() {
        return Some(holder);
    }
    arena.lock(left, operation);
    removal.left = Some(left);
    walk.phase = Phase::LockAbove;
    None
}
