//! Store: writes the row over the one of the key.

ghost use Rattle.std.specs.Prelude.{◌<◌};
ghost use Rattle.mt_tape.specs.Tapes.{last_write};
ghost use Rattle.mt_insert.specs.{Puts.IsPut, KeptPuts.IsAtStore, Store.IsStore};

use mt_arena::Arena;
use mt_held::push_write;
use mt_operation::{Phase, Prepared, Task, Walk};
use mt_rows::Row;
use mt_tape::Tape;

/// Writes the row over the one of the key, by the step of this number, and puts the write on the tape;
/// gives the old row back.
pub fn store(
    arena: &mut Arena,
    tape: &mut Tape,
    task: &Task,
    walk: &mut Walk,
    prepared: Prepared,
    step: u64,
    operation: usize,
) -> Row
    requires put { IsPut task.now }
    requires kept { IsAtStore arena.old operation task.now prepared walk.old }
    requires reserved { 0 < tape.old.reserved }
    requires later { last_write tape.old < step }
    ensures { IsStore operation step task.now prepared.row arena.old arena.new tape.old tape.new walk.old walk.new result }
{
    arena.facts();
    let (row, write) = prepared.into_row();
    let before = arena.store(walk.place.node, walk.slot, row, step, operation);
    push_write(tape, write, step);
    walk.phase = Phase::Unlock;
    before
}
