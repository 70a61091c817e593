//! Lock: locks the border node.

ghost use Rattle.std.specs.Prelude.{◌≡◌, ◌≢◌, IfSome, IfNone};
ghost use Rattle.mt_arena.specs.Accesses.{at};
ghost use Rattle.mt_descent.specs.{KeptWalks.{HoldsNothing, IsAtBorder}, WalkMoves.IsLock};

use crate::walks::{is_outdated, move_on};
use mt_arena::Arena;
use mt_operation::{Phase, Walk};
use mt_slices::StoredKey;

/// Locks the border node where it was neither deleted nor split since it was remembered; else goes to
/// the next one, or begins anew. Only a lock is in its way: the number is that of the node's holder,
/// which is another operation, as the one that comes to lock holds nothing.
pub fn lock(arena: &mut Arena, key: &StoredKey, walk: &mut Walk, operation: usize) -> Option<usize>
    requires kept { IsAtBorder arena.old key.now walk.old }
    ensures again { result ≡ (at arena.old walk.old.place.node).holder }
    ensures unchanged { IfSome result (λ holder. (arena.new ≡ arena.old) × (walk.new ≡ walk.old)) }
    ensures another { HoldsNothing arena.old operation → IfSome result (λ holder. holder ≢ operation) }
    ensures locks { IfNone result (IsLock operation key.now arena.old arena.new walk.old walk.new) }
{
    arena.facts();
    let node = arena.node(walk.place.node);
    if let Some(holder) = node.holder() {
        return Some(holder);
    }
    let seen = walk.place.seen;
    if is_outdated(node, seen) {
        move_on(walk, node);
    } else {
        arena.lock(walk.place.node, operation);
        walk.phase = Phase::Judge;
    }
    None
}
