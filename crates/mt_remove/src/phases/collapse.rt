//! Collapse: takes out a root that has one border node below it.

ghost use Rattle.mt_rows.specs.Rows.{Bytes};
ghost use Rattle.mt_arena.specs.Given.{AreOutUpTo};
ghost use Rattle.mt_remove.specs.{KeptRemovals.IsAtCollapse, Unlinks.IsCollapse};

use crate::neighbours::{left_of, parent_of};
use mt_arena::Arena;
use mt_operation::{Phase, Removal, Walk};

/// Takes the root out, by the step of this number: the left neighbour, its only child, is the root.
pub fn collapse(arena: &mut Arena, walk: &mut Walk, removal: &Removal, step: u64, operation: usize)
    requires kept { (key : Bytes) × IsAtCollapse arena.old operation key walk.old removal.now }
    requires upto { AreOutUpTo step arena.old.retired }
    ensures { IsCollapse operation step arena.old arena.new walk.old walk.new removal.now removal.now }
{
    arena.facts();
    let left = left_of(removal);
    let parent = parent_of(removal);
    arena.collapse(parent, left, step, operation);
    walk.phase = Phase::Unlock;
}
