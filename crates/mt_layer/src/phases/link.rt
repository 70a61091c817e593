//! Link: writes the number of the new tree into the slot.

ghost use Rattle.std.specs.Prelude.{◌≡◌, ℕ};
ghost use Rattle.mt_rows.specs.Rows.{Bytes};
ghost use Rattle.mt_layer.specs.{KeptLayers.IsAtLink, Builds.IsLink};

use mt_arena::Arena;
use mt_operation::{Phase, Taken, Walk};

/// Writes the number of the tree beside the unstable pair.
pub fn link(arena: &mut Arena, walk: &mut Walk, operation: usize)
    requires kept { (key : Bytes) × IsAtLink arena.old operation key walk.old }
    ensures { IsLink operation arena.old arena.new walk.old walk.new }
{
    arena.facts();
    arena.link(walk.place.node, walk.slot, tree_of(walk), operation);
    walk.phase = Phase::MarkLayer;
}

// The tree that the walk makes.
pub(crate) fn tree_of(walk: &Walk) -> usize
    requires { (tree : ℕ) × (walk.now.taken ≡ Taken.Link tree) }
    ensures { walk.now.taken ≡ Taken.Link result }
{
    match walk.taken {
        Taken::Link(tree) => tree,
        _ => unreachable!(),
    }
}
