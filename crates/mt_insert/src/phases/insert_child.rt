//! InsertChild: puts the right half into the parent.

ghost use Rattle.mt_insert.specs.{KeptSplits.IsAtInsertChild, Climbs.IsInsertChild};

use crate::halves::{above, last};
use mt_arena::Arena;
use mt_operation::{Halves, Phase, Splits, Walk};

/// Puts the right half into the parent, and marks that for readers of its children.
pub fn insert_child(arena: &mut Arena, walk: &mut Walk, splits: &Splits, operation: usize)
    requires kept { IsAtInsertChild arena.old operation splits.now }
    ensures { IsInsertChild operation arena.old arena.new walk.old walk.new splits.now splits.now }
{
    arena.facts();
    let Halves { left, right } = last(splits);
    arena.insert_child(above(splits), left, right, operation);
    walk.phase = Phase::Unlock;
}
