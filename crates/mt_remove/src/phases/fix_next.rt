//! FixNext: names the left neighbour in the border node behind the one that was taken out.

ghost use Rattle.mt_rows.specs.Rows.{Bytes};
ghost use Rattle.mt_remove.specs.{KeptRemovals.IsAtFixNext, Unlinks.IsFixNext};

use crate::neighbours::{left_of, parent_of, phase_without};
use mt_arena::Arena;
use mt_operation::{Removal, Walk};

/// Names the left neighbour as the one before in the node behind the one that was taken out.
pub fn fix_next(arena: &mut Arena, walk: &mut Walk, removal: &Removal, operation: usize)
    requires kept { (key : Bytes) × IsAtFixNext arena.old operation key walk.old removal.now }
    ensures { IsFixNext operation arena.old arena.new walk.old walk.new removal.now removal.now }
{
    arena.facts();
    let left = left_of(removal);
    let next = phase_without(arena, parent_of(removal));
    if let Some(behind) = arena.node(left).next() {
        arena.set_previous(behind, left, operation);
    }
    walk.phase = next;
}
