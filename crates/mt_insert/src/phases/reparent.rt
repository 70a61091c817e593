//! Reparent: names the parent's right half in one of the children that it has got.

ghost use Rattle.mt_insert.specs.{KeptSplits.IsAtReparent, Climbs.IsReparent};

use crate::halves::last;
use mt_arena::Arena;
use mt_operation::{Phase, Splits, Walk};

/// Names the right half as the parent in one of the children that it has got.
pub fn reparent(arena: &mut Arena, walk: &mut Walk, splits: &mut Splits, operation: usize)
    requires kept { IsAtReparent arena.old operation splits.old }
    ensures { IsReparent operation arena.old arena.new walk.old walk.new splits.old splits.new }
{
    arena.facts();
    let right = last(splits).right;
    let children = arena.interior(right).children();
    let (child, count) = (children[splits.moved], children.len());
    arena.set_parent(child, right, operation);
    if splits.moved + 1 == count {
        splits.moved = 0;
        walk.phase = Phase::LockParent;
    } else {
        splits.moved += 1;
        walk.phase = Phase::Reparent;
    }
}
