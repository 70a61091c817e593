//! LockAbove: locks the parent, and looks again whether the node may be taken out.

ghost use Rattle.std.specs.Prelude.{◌≡◌, ◌≢◌, ◌<◌, ℕ, true, false, IfSome, IfNone, length, Some};
ghost use Rattle.mt_rows.specs.Rows.{Bytes};
ghost use Rattle.mt_interior.specs.Places.{place_of};
ghost use Rattle.mt_arena.specs.Accesses.{at};
ghost use Rattle.mt_remove.specs.{KeptRemovals.{HoldsRemoval, IsAtLockAbove}, Unlinks.{IsChildBefore, IsLockAbove}};

use mt_arena::Arena;
use mt_operation::{Phase, Removal, Walk};

/// Locks the parent, and looks again: the node is taken out where the child before it is the left neighbour
/// that is held, else all locks are given back. Only a lock is in its way: the number is that of the
/// parent's holder, which is another operation.
pub fn lock_above(
    arena: &mut Arena,
    walk: &mut Walk,
    removal: &mut Removal,
    operation: usize,
) -> Option<usize>
    requires kept { (key : Bytes) × IsAtLockAbove arena.old operation key walk.old removal.old }
    ensures again { IfSome result (λ holder. (parent : ℕ) × ((at arena.old walk.old.place.node).parent ≡ Some parent) × ((at arena.old parent).holder ≡ Some holder)) }
    ensures unchanged { IfSome result (λ holder. (arena.new ≡ arena.old) × (walk.new ≡ walk.old) × (removal.new ≡ removal.old)) }
    ensures another { HoldsRemoval arena.old operation walk.old removal.old → IfSome result (λ holder. holder ≢ operation) }
    ensures locks { IfNone result (IsLockAbove operation arena.old arena.new walk.old walk.new removal.old removal.new) }
{
    arena.facts();
    let Some(parent) = arena.node(walk.place.node).parent() else {
        unreachable!()
    };
    if let Some(holder) = arena.node(parent).holder() {
        return Some(holder);
    }
    arena.lock(parent, operation);
    walk.phase = phase_above(arena, parent, walk, removal);
    removal.parent = Some(parent);
    None
}

// What comes next by what stands before the node in its parent.
fn phase_above(arena: &Arena, parent: usize, walk: &Walk, removal: &Removal) -> Phase
    requires there { parent < length arena.now.nodes }
    requires node_there { walk.now.place.node < length arena.now.nodes }
    requires interior { 0 < (at arena.now parent).level }
    requires place { place_of (at arena.now parent).separators (at arena.now walk.now.place.node).low < length (at arena.now parent).children }
    ensures unlinks { IsChildBefore (at arena.now parent) (at arena.now walk.now.place.node).low removal.now.left → result ≡ Phase.Unlink }
    ensures returns { ¬ IsChildBefore (at arena.now parent) (at arena.now walk.now.place.node).low removal.now.left → result ≡ Phase.Unlock }
{
    if is_child_before(
        arena,
        parent,
        arena.node(walk.place.node).low(),
        removal.left,
    ) {
        Phase::Unlink
    } else {
        Phase::Unlock
    }
}

// Whether the left neighbour is the child before the place of this fence in the parent.
fn is_child_before(arena: &Arena, parent: usize, low: u64, left: Option<usize>) -> bool
    requires there { parent < length arena.now.nodes }
    requires interior { 0 < (at arena.now parent).level }
    requires place { place_of (at arena.now parent).separators low < length (at arena.now parent).children }
    ensures yes { result ≡ true → IsChildBefore (at arena.now parent) low left }
    ensures no { result ≡ false → ¬ IsChildBefore (at arena.now parent) low left }
{
    let interior = arena.interior(parent);
    let place = interior.place_of(low);
    if place == 0 {
        return false;
    }
    left == Some(interior.children()[place - 1])
}
