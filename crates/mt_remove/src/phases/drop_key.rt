//! DropKey: makes the key's pair live no more.

ghost use Rattle.std.specs.Prelude.{◌<◌};
ghost use Rattle.mt_rows.specs.Accounts.{account_of, HasPairs};
ghost use Rattle.mt_tape.specs.Tapes.{last_write};
ghost use Rattle.mt_remove.specs.{Writes.IsRemoval, KeptRemovals.{IsAtDropKey, IsUnburdened}, DropKey.IsDropKey};

use crate::emptied::go_on_emptied;
use mt_arena::Arena;
use mt_held::push_write;
use mt_operation::{Prepared, Removal, Task, Walk};
use mt_rows::Tenants;
use mt_tape::Tape;

/// Makes the pair of the key live no more by the step of this number; its write goes on the tape, and the
/// tenant's count is one less. Its slot holds the pair until it is filled again. An empty border node that is not the first child of its parent is taken
/// out next.
pub fn drop_key(
    arena: &mut Arena,
    tape: &mut Tape,
    tenants: &mut Tenants,
    task: &Task,
    walk: &mut Walk,
    removal: &mut Removal,
    prepared: Prepared,
    step: u64,
    operation: usize,
)
    requires removal { IsRemoval task.now }
    requires kept { IsAtDropKey arena.old operation task.now prepared walk.old }
    requires free { IsUnburdened removal.old }
    requires counted { HasPairs (account_of tenants.old task.now.tenant) }
    requires reserved { 0 < tape.old.reserved }
    requires later { last_write tape.old < step }
    ensures { IsDropKey operation step task.now arena.old arena.new tape.old tape.new tenants.old tenants.new walk.old walk.new removal.old removal.new }
{
    arena.facts();
    arena.let_go(walk.place.node, walk.slot, operation);
    push_write(tape, prepared.into_write(), step);
    tenants.count_removed(task.tenant);
    go_on_emptied(arena, walk, removal);
}
