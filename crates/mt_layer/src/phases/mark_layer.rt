//! MarkLayer: makes the slot a link, and the new tree live.

ghost use Rattle.mt_rows.specs.Rows.{Bytes};
ghost use Rattle.mt_layer.specs.{KeptLayers.IsAtMarkLayer, Builds.IsMarkLayer};

use crate::phases::link::tree_of;
use mt_arena::Arena;
use mt_operation::{Phase, Walk};

/// Makes the slot a link to the tree, which is live from now on.
pub fn mark_layer(arena: &mut Arena, walk: &mut Walk, operation: usize)
    requires kept { (key : Bytes) × IsAtMarkLayer arena.old operation key walk.old }
    ensures { IsMarkLayer operation arena.old arena.new walk.old walk.new }
{
    arena.facts();
    let _pair = arena.mark_layer(walk.place.node, walk.slot, tree_of(walk), operation);
    walk.phase = Phase::Unlock;
}
