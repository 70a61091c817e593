//! The steps of a put whose keys are parted: its right halves come to their parents, level by level.

ghost use Rattle.std.specs.Prelude.{◌≡◌, ℕ};
ghost use Rattle.mt_arena.specs.Given.{AreForgotten, MayRenew};
ghost use Rattle.mt_insert.specs.KeptSplits.{HoldsSplits, KeptSplit};
ghost use Rattle.mt_operation.specs.Phases.{IsClimb};
ghost use Rattle.mt_core.specs.Climbs.{TellsClimbed};

use mt_arena::Arena;
use mt_insert::{insert_child, interior_split, lock_parent, reparent, root_grow, split_prev};
use mt_operation::{Phase, Splits, Walk};
use mt_table::Made;

/// Makes the step of the walk's phase. A node that it makes comes into the place of one that was taken
/// out, if the step `least` or an earlier one did it. If another operation is in the way, or if there is
/// no memory for a node, nothing changes but what the splits have grown.
pub(crate) fn climb_on(
    arena: &mut Arena,
    walk: &mut Walk,
    splits: &mut Splits,
    least: u64,
    operation: usize,
) -> Made
    requires phase { IsClimb walk.old.phase }
    requires kept { KeptSplit walk.old.phase arena.old operation splits.old }
    requires forgotten { AreForgotten least arena.old }
    requires renews { MayRenew least arena.old }
    ensures { TellsClimbed least operation arena.old arena.new walk.old walk.new splits.old splits.new result }
{
    arena.facts();
    match walk.phase {
        Phase::SplitPrev => {
            split_prev(arena, walk, splits, operation);
            Made::Step
        }
        Phase::LockParent => match lock_parent(arena, walk, splits, operation) {
            Some(holder) => Made::Blocked(holder),
            None => Made::Step,
        },
        Phase::InsertChild => {
            insert_child(arena, walk, splits, operation);
            Made::Step
        }
        Phase::InteriorSplit => match interior_split(arena, walk, splits, least, operation) {
            Ok(()) => Made::Step,
            Err(_) => Made::NoMemory,
        },
        Phase::Reparent => {
            reparent(arena, walk, splits, operation);
            Made::Step
        }
        Phase::RootGrow => match root_grow(arena, walk, splits, least, operation) {
            Ok(()) => Made::Step,
            Err(_) => Made::NoMemory,
        },
        _ => unreachable!(),
    }
}
