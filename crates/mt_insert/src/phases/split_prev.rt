//! SplitPrev: names the right half in the border node behind it.

ghost use Rattle.mt_insert.specs.{KeptSplits.IsAtSplitPrev, Climbs.IsSplitPrev};

use crate::halves::last;
use mt_arena::Arena;
use mt_operation::{Halves, Phase, Splits, Walk};

/// Names the right half as the one before in the node behind it.
pub fn split_prev(arena: &mut Arena, walk: &mut Walk, splits: &Splits, operation: usize)
    requires kept { IsAtSplitPrev arena.old operation splits.now }
    ensures { IsSplitPrev operation arena.old arena.new walk.old walk.new splits.now splits.now }
{
    arena.facts();
    let Halves { left: _, right } = last(splits);
    if let Some(behind) = arena.node(right).next() {
        arena.set_previous(behind, right, operation);
    }
    walk.phase = Phase::LockParent;
}
