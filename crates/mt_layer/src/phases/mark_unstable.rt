//! MarkUnstable: makes the pair of the other key unstable.

ghost use Rattle.mt_rows.specs.Rows.{Bytes};
ghost use Rattle.mt_layer.specs.{KeptLayers.IsAtMarkUnstable, Builds.IsMarkUnstable};

use mt_arena::Arena;
use mt_operation::{Phase, Walk};

/// Makes the pair of the other key unstable.
pub fn mark_unstable(arena: &mut Arena, walk: &mut Walk, operation: usize)
    requires kept { (key : Bytes) × IsAtMarkUnstable arena.old operation key walk.old }
    ensures { IsMarkUnstable operation arena.old arena.new walk.old walk.new }
{
    arena.facts();
    arena.mark_unstable(walk.place.node, walk.slot, operation);
    walk.phase = Phase::Link;
}
