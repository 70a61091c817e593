//! Fill: writes the pair of the missing key into the free slot that is taken next.

ghost use Rattle.mt_operation.specs.declared.task.Task.{Task as AnyTask};
ghost use Rattle.mt_insert.specs.{KeptPuts.IsAtFill, Fill.IsFill};

use mt_arena::Arena;
use mt_border::Held;
use mt_operation::{Phase, Prepared, Walk};

/// Writes the pair of the missing key into the free slot that is taken next. No reader finds it there
/// yet, and no step has placed it. Where the slot was ever dropped, the node is marked for its readers
/// before: one of them may remember the slot. What this slot and the other free ones held is gone then.
pub fn fill(arena: &mut Arena, walk: &mut Walk, prepared: &mut Prepared, operation: usize)
    requires kept { (task : AnyTask) × IsAtFill arena.old operation task prepared.old walk.old }
    ensures { (task : AnyTask) → IsAtFill arena.old operation task prepared.old walk.old →
        IsFill operation task prepared.old prepared.new arena.old arena.new walk.old walk.new }
{
    arena.facts();
    let pair = prepared.take_pair(0);
    arena.fill(walk.place.node, Held::stable(pair), operation);
    walk.phase = Phase::Publish;
}
