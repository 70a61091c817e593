//! Judge on the way to the link of an empty layer: follows links alone.

ghost use Rattle.mt_held.specs.Holds.{HoldsBorder};
ghost use Rattle.mt_remove.specs.Ways.{Follows};

use mt_arena::Arena;
use mt_border::{Find, FoundKind};
use mt_held::{find_here, go_below, tree_at, unlock};
use mt_operation::Walk;
use mt_slices::StoredKey;

/// Follows the link on the way of the key. Where none stands the lock is given back, and the walk is done:
/// another operation has taken the layer out.
pub fn follow(arena: &mut Arena, key: &StoredKey, walk: &mut Walk, operation: usize)
    requires kept { HoldsBorder arena.old operation key.now walk.old }
    ensures { Follows operation key.now arena.old arena.new walk.old walk.new }
{
    arena.facts();
    match find_here(arena, key, walk) {
        Find::Slot(slot, FoundKind::Link) => {
            let tree = tree_at(arena.border(walk.place.node), slot);
            go_below(arena, walk, tree, operation);
        }
        Find::Slot(_, FoundKind::ThisKey) => unlock(arena, walk, operation),
        Find::Slot(_, FoundKind::OtherLong) => unlock(arena, walk, operation),
        Find::Missing => unlock(arena, walk, operation),
    }
}
