//! Lock on the way to the link of an empty layer: locks the border node, and finds whether it is in the layer
//! of that link.

ghost use Rattle.std.specs.Prelude.{◌≡◌, ◌≢◌, ◌+◌, IfSome, IfNone, length, ◌<◌, true, false};
ghost use Rattle.mt_arena.specs.{Accesses.at, Forests.tree_at};
ghost use Rattle.mt_descent.specs.KeptWalks.{HoldsNothing, IsAtBorder};
ghost use Rattle.mt_remove.specs.{KeptRemovals.IsCleaning, Ways.{IsJustBelow, IsLockWay}};

use crate::phases::clean_layer::cleaned;
use mt_arena::Arena;
use mt_operation::{Phase, Removal, Walk};
use mt_slices::StoredKey;

const SLICE_BYTES: usize = 8;

/// Locks the border node on the way to a link, as a put does. In the layer above the tree that link is taken
/// out next. Only a lock is in its way: the number is that of the node's holder, which is another operation.
pub fn lock(
    arena: &mut Arena,
    key: &StoredKey,
    walk: &mut Walk,
    removal: &Removal,
    operation: usize,
) -> Option<usize>
    requires kept { IsAtBorder arena.old key.now walk.old }
    requires cleaning { IsCleaning arena.old key.now removal.now }
    ensures again { result ≡ (at arena.old walk.old.place.node).holder }
    ensures unchanged { IfSome result (λ holder. (arena.new ≡ arena.old) × (walk.new ≡ walk.old)) }
    ensures another { HoldsNothing arena.old operation → IfSome result (λ holder. holder ≢ operation) }
    ensures locks { IfNone result (IsLockWay operation key.now arena.old arena.new walk.old walk.new removal.now) }
{
    let is_above = is_above(arena, cleaned(removal), walk.layer);
    if let Some(holder) = mt_descent::lock(arena, key, walk, operation) {
        return Some(holder);
    }
    if is_above && walk.phase == Phase::Judge {
        walk.phase = Phase::CleanLayer;
    }
    None
}

// Whether the tree is of the layer just below this one.
fn is_above(arena: &Arena, tree: usize, layer: usize) -> bool
    requires there { tree < length arena.now.trees }
    requires few { layer < 32 }
    ensures yes { result ≡ true → IsJustBelow (tree_at arena.now.trees tree) layer }
    ensures no { result ≡ false → ¬ IsJustBelow (tree_at arena.now.trees tree) layer }
{
    arena.tree(tree).prefix.as_bytes().len() / SLICE_BYTES == layer + 1
}
