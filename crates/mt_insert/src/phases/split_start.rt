//! SplitStart: makes the right half of the full border node.

ghost use Rattle.std.specs.Prelude.{◌≡◌, ◌<◌, OnOk, OnErr};
ghost use Rattle.mt_arena.specs.{Arena.content_of, Given.{StepsFrom, AreForgotten, MayRenew}};
ghost use Rattle.mt_operation.specs.{declared.task.Task.{Task as AnyTask}, declared.prepared.Prepared.{Prepared as AnyPrepared}, Operations.IsUnsplit};
ghost use Rattle.mt_insert.specs.{KeptPuts.IsAtSplitStart, SplitEdits.{Starts, HasOneMore, half_number}, SplitStart.{IsSplitStart, IsSplitStopped}};

use mt_arena::Arena;
use mt_held::unlock;
use mt_operation::{Halves, Phase, Splits, Walk};
use mt_slices::StoredKey;
use mt_tape::Tape;
use std::alloc::AllocError;

/// Makes the right half of the full border node, marks both for readers of their range, and holds
/// both. The half comes into the place of a border node that was taken out, if the step `least` or an
/// earlier one did it. Where there is no memory the lock and the room on the tape are given back in
/// this step, and the walk is done.
pub fn split_start(
    arena: &mut Arena,
    tape: &mut Tape,
    key: &StoredKey,
    walk: &mut Walk,
    splits: &mut Splits,
    least: u64,
    operation: usize,
) -> Result<(), AllocError>
    requires kept { (task : AnyTask) × (prepared : AnyPrepared) × (task.key ≡ key.now) × IsAtSplitStart arena.old operation task prepared walk.old }
    requires none { IsUnsplit splits.old }
    requires reserved { 0 < tape.old.reserved }
    requires forgotten { AreForgotten least arena.old }
    requires renews { MayRenew least arena.old }
    ensures starts { OnOk result (IsSplitStart least operation key.now arena.old arena.new tape.old tape.new walk.old walk.new splits.old splits.new) }
    ensures stops { OnErr result (IsSplitStopped operation arena.old arena.new tape.old tape.new walk.old walk.new splits.new) }
{
    arena.facts();
    match halve(arena, key, walk, splits, least, operation) {
        Ok(()) => {
            walk.phase = Phase::SplitMove;
            Ok(())
        }
        Err(error) => {
            tape.release();
            unlock(arena, walk, operation);
            Err(error)
        }
    }
}

// Makes the right half of the walk's border node.
fn halve(
    arena: &mut Arena,
    key: &StoredKey,
    walk: &Walk,
    splits: &mut Splits,
    least: u64,
    operation: usize,
) -> Result<(), AllocError>
    requires kept { (task : AnyTask) × (prepared : AnyPrepared) × (task.key ≡ key.now) × IsAtSplitStart arena.old operation task prepared walk.now }
    requires none { IsUnsplit splits.old }
    requires forgotten { AreForgotten least arena.old }
    requires renews { MayRenew least arena.old }
    ensures is { OnOk result (Starts least operation arena.old arena.new key.now walk.now) }
    ensures splits { OnOk result (HasOneMore splits.old splits.new walk.now.place.node (half_number least arena.old)) }
    ensures unchanged_on_err { OnErr result (arena.new ≡ arena.old) }
    ensures unsplit_on_err { OnErr result (IsUnsplit splits.new) }
    ensures step { OnOk result (StepsFrom least operation arena.old arena.new) }
    ensures contents { content_of arena.new ≡ content_of arena.old }
{
    arena.facts();
    splits.halves.reserve(1)?;
    let left = walk.place.node;
    let low = arena
        .border(left)
        .separator(key.slice(walk.layer), key.mark(walk.layer));
    let right = arena.begin_split(left, low, least, operation)?;
    splits.halves.push_reserved(Halves { left, right });
    Ok(())
}
