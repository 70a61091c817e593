//! Unlock behind a layer: gives the lock back, and goes on in the tree.

ghost use Rattle.mt_version.specs.Changes.{CanUnlock};
ghost use Rattle.mt_rows.specs.Rows.{Bytes};
ghost use Rattle.mt_arena.specs.Accesses.{at};
ghost use Rattle.mt_layer.specs.{KeptLayers.IsAtLeave, Builds.IsLeave};

use crate::phases::link::tree_of;
use mt_arena::Arena;
use mt_held::go_below;
use mt_operation::Walk;

/// Gives the lock of the border node back, and goes on in the tree of the next layer.
pub fn leave(arena: &mut Arena, walk: &mut Walk, operation: usize)
    requires kept { (key : Bytes) × IsAtLeave arena.old operation key walk.old }
    requires room { CanUnlock (at arena.old walk.old.place.node).version }
    ensures { IsLeave operation arena.old arena.new walk.old walk.new }
{
    let tree = tree_of(walk);
    go_below(arena, walk, tree, operation);
}
