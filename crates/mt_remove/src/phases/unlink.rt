//! Unlink: takes the empty border node out of its tree.

ghost use Rattle.std.specs.Prelude.{◌≡◌, ◌<◌, length};
ghost use Rattle.mt_rows.specs.Rows.{Bytes};
ghost use Rattle.mt_arena.specs.{Given.AreOutUpTo, Accesses.at};
ghost use Rattle.mt_remove.specs.{KeptRemovals.IsAtUnlink, RemovalEdits.after_unlink, Unlinks.IsUnlink};

use crate::neighbours::{left_of, parent_of, phase_without};
use mt_arena::Arena;
use mt_operation::{Phase, Removal, Walk};

/// Takes the empty border node out, by the step of this number: its left neighbour gets its range, and its
/// parent loses it.
pub fn unlink(arena: &mut Arena, walk: &mut Walk, removal: &Removal, step: u64, operation: usize)
    requires kept { (key : Bytes) × IsAtUnlink arena.old operation key walk.old removal.now }
    requires upto { AreOutUpTo step arena.old.retired }
    ensures { IsUnlink operation step arena.old arena.new walk.old walk.new removal.now removal.now }
{
    arena.facts();
    let left = left_of(removal);
    let parent = parent_of(removal);
    let next = arena.node(walk.place.node).next();
    arena.unlink(parent, left, walk.place.node, step, operation);
    walk.phase = phase_after(arena, next, parent);
}

// What comes next once the node was taken out.
fn phase_after(arena: &Arena, next: Option<usize>, parent: usize) -> Phase
    requires there { parent < length arena.now.nodes }
    requires interior { 0 < (at arena.now parent).level }
    ensures { result ≡ after_unlink next (at arena.now parent) }
{
    match next {
        Some(_) => Phase::FixNext,
        None => phase_without(arena, parent),
    }
}
