//! SplitMove: judges the quota, and parts the keys and the new pair among the halves.

ghost use Rattle.std.specs.Prelude.{◌≡◌, ◌<◌, length};
ghost use Rattle.mt_slices.specs.Slices.{HasLayer, suffix_of};
ghost use Rattle.mt_border.specs.Entries.{with_entry};
ghost use Rattle.mt_tape.specs.Tapes.{last_write};
ghost use Rattle.mt_arena.specs.{Arena.{content_of, Guarantee}, Accesses.at, Several.AreHalved};
ghost use Rattle.mt_insert.specs.{Puts.IsPut, Placing.{entry_of, Places}, KeptSplits.{last_of, IsAtSplitMove}, SplitMove.{after_parting, TellsSplitMoved}};
ghost use Rattle.mt_operation.specs.{declared.task.Task.{Task as AnyTask}, declared.prepared.Prepared.{Prepared as AnyPrepared}};

use crate::halves::last;
use mt_arena::Arena;
use mt_border::{Entry, Held, Pair};
use mt_held::push_write;
use mt_operation::{Halves, Phase, Prepared, Splits, Task, Walk};
use mt_rows::Tenants;
use mt_slices::StoredKey;
use mt_tape::Tape;

/// Judges the quota, and parts the keys of the full border node and the new pair among the halves, by
/// the step of this number; its write goes on the tape, and the tenant's count is one more. Where the
/// tenant has as many pairs as its quota, the keys are parted without the pair, and the room on the
/// tape is given back. Tells whether there was room.
pub fn split_move(
    arena: &mut Arena,
    tape: &mut Tape,
    tenants: &mut Tenants,
    task: &Task,
    walk: &mut Walk,
    splits: &Splits,
    prepared: Prepared,
    step: u64,
    operation: usize,
) -> bool
    requires put { IsPut task.now }
    requires kept { IsAtSplitMove arena.old operation task.now prepared walk.old splits.now }
    requires reserved { 0 < tape.old.reserved }
    requires later { last_write tape.old < step }
    ensures { TellsSplitMoved result operation step task.now prepared.row arena.old arena.new tape.old tape.new tenants.old tenants.new walk.old walk.new splits.now }
{
    arena.facts();
    let is_new = tenants.count_new(task.tenant);
    walk.phase = phase_after_parting(arena, walk);
    if is_new {
        part_with(arena, tape, task, walk, splits, prepared, step, operation);
    } else {
        tape.release();
        part_without(arena, &task.key, walk, splits, operation);
    }
    is_new
}

// Parts the keys and the new pair among the halves, and puts its write on the tape.
fn part_with(
    arena: &mut Arena,
    tape: &mut Tape,
    task: &Task,
    walk: &Walk,
    splits: &Splits,
    prepared: Prepared,
    step: u64,
    operation: usize,
)
    requires put { IsPut task.now }
    requires kept { IsAtSplitMove arena.old operation task.now prepared walk.now splits.now }
    requires reserved { 0 < tape.old.reserved }
    requires later { last_write tape.old < step }
    ensures is { AreHalved (with_entry (at arena.old walk.now.place.node).slots (entry_of task.now.key walk.now.layer prepared.row step))
        arena.old.nodes arena.new.nodes walk.now.place.node (last_of splits.now).right }
    ensures nodes_alone { arena.new ≡ record arena.old { nodes = arena.new.nodes } }
    ensures places { Places task.now step arena.old arena.new tape.old tape.new }
    ensures step { Guarantee operation arena.old arena.new }
{
    arena.facts();
    let Halves { left, right } = last(splits);
    let (pair, write) = prepared.into_pair(step);
    let entry = new_entry(&task.key, walk.layer, pair);
    arena.split_border(left, right, entry.slice, entry.mark, Some(entry), operation);
    push_write(tape, write, step);
}

// Parts the keys among the halves without the new pair.
fn part_without(arena: &mut Arena, key: &StoredKey, walk: &Walk, splits: &Splits, operation: usize)
    requires kept { (task : AnyTask) × (prepared : AnyPrepared) × (task.key ≡ key.now) × IsAtSplitMove arena.old operation task prepared walk.now splits.now }
    ensures is { AreHalved (at arena.old walk.now.place.node).slots arena.old.nodes arena.new.nodes walk.now.place.node (last_of splits.now).right }
    ensures nodes_alone { arena.new ≡ record arena.old { nodes = arena.new.nodes } }
    ensures step { Guarantee operation arena.old arena.new }
    ensures contents { content_of arena.new ≡ content_of arena.old }
{
    arena.facts();
    let Halves { left, right } = last(splits);
    arena.split_border(
        left,
        right,
        key.slice(walk.layer),
        key.mark(walk.layer),
        None,
        operation,
    );
}

// What comes next once the keys are parted.
fn phase_after_parting(arena: &Arena, walk: &Walk) -> Phase
    requires there { walk.now.place.node < length arena.now.nodes }
    ensures { result ≡ after_parting (at arena.now walk.now.place.node).next }
{
    match arena.node(walk.place.node).next() {
        Some(_) => Phase::SplitPrev,
        None => Phase::LockParent,
    }
}

// The entry of a key's pair.
fn new_entry(key: &StoredKey, layer: usize, pair: Pair) -> Entry
    requires reaches { HasLayer key.now layer }
    requires suffix { pair.suffix ≡ suffix_of key.now layer }
    ensures { result ≡ entry_of key.now layer pair.row pair.stamp }
{
    Entry {
        slice: key.slice(layer),
        mark: key.mark(layer),
        held: Held::stable(pair),
    }
}
