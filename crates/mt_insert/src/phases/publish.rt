//! Publish: judges the quota, and makes the pair live that stands in the free slot.

ghost use Rattle.std.specs.Prelude.{◌≡◌, ◌<◌};
ghost use Rattle.mt_border.specs.{Entry.order_of, Entries.{place_in, with_entry}};
ghost use Rattle.mt_tape.specs.Tapes.{last_write};
ghost use Rattle.mt_arena.specs.{Edits.{with_slots, cells_with}, Arena.Guarantee, Accesses.{at, with_node}};
ghost use Rattle.mt_insert.specs.{Puts.IsPut, KeptPuts.IsAtPublish, Placing.{entry_of, Places}, Publish.TellsPublished};
ghost use Rattle.mt_held.specs.{Holds.IsAtUnlock, Moves.walk_placed};

use mt_arena::Arena;
use mt_held::push_write;
use mt_operation::{Phase, Prepared, Task, Walk};
use mt_rows::Tenants;
use mt_tape::Tape;

/// Judges the quota, and makes the pair live that stands in the free slot, placed by the step of this
/// number; its write goes on the tape, and the tenant's count is one more. Where the tenant has as many
/// pairs as its quota, nothing changes but that the room on the tape is given back: the slot stays free,
/// and is the next to be filled. Tells whether there was room.
pub fn publish(
    arena: &mut Arena,
    tape: &mut Tape,
    tenants: &mut Tenants,
    task: &Task,
    walk: &mut Walk,
    prepared: Prepared,
    step: u64,
    operation: usize,
) -> bool
    requires put { IsPut task.now }
    requires kept { IsAtPublish arena.old operation task.now prepared walk.old }
    requires reserved { 0 < tape.old.reserved }
    requires later { last_write tape.old < step }
    ensures { TellsPublished result operation step task.now prepared.row arena.old arena.new tape.old tape.new tenants.old tenants.new walk.old walk.new }
{
    arena.facts();
    if !tenants.count_new(task.tenant) {
        tape.release();
        walk.phase = Phase::Unlock;
        return false;
    }
    add_pair(arena, tape, task, walk, prepared, step, operation);
    walk.phase = Phase::Unlock;
    true
}

// Makes the pair live, and puts its write on the tape.
fn add_pair(
    arena: &mut Arena,
    tape: &mut Tape,
    task: &Task,
    walk: &Walk,
    prepared: Prepared,
    step: u64,
    operation: usize,
)
    requires put { IsPut task.now }
    requires kept { IsAtPublish arena.old operation task.now prepared walk.now }
    requires reserved { 0 < tape.old.reserved }
    requires later { last_write tape.old < step }
    ensures is { arena.new ≡ with_node arena.old walk.now.place.node (with_slots (at arena.old walk.now.place.node)
        (with_entry (at arena.old walk.now.place.node).slots (entry_of task.now.key walk.now.layer prepared.row step))
        (cells_with (at arena.old walk.now.place.node).cells (place_in (at arena.old walk.now.place.node).slots (order_of (entry_of task.now.key walk.now.layer prepared.row step)))
        (entry_of task.now.key walk.now.layer prepared.row step))) }
    ensures places { Places task.now step arena.old arena.new tape.old tape.new }
    ensures step { Guarantee operation arena.old arena.new }
    ensures kept { IsAtUnlock arena.new operation (walk_placed walk.now) }
{
    arena.facts();
    let slice = task.key.slice(walk.layer);
    let mark = task.key.mark(walk.layer);
    arena.publish_filled(walk.place.node, slice, mark, step, operation);
    push_write(tape, prepared.into_write(), step);
}
