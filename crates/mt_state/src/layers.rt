//! Each phase that makes a layer makes a lawful step, and so does each that leads into one. Contracts
//! alone: no code runs.

ghost use Rattle.std.specs.Prelude.{◌≡◌, ◌+◌, ◌<◌, ◌^◌, ℕ, true, false, Some, None};
ghost use Rattle.mt_rows.specs.declared.reply.Reply.TheVariants.{NoMemory};
ghost use Rattle.mt_arena.specs.Arena.{ArenaView};
ghost use Rattle.mt_operation.specs.{declared.phase.Phase.TheVariants.{Judge, MakeLayer, Unlock}, declared.walk.Walk.Walk};
ghost use Rattle.mt_operation.specs.{declared.operation.Operation.Operation, Tables.{IsLeastBirth, op_at as operation_at}, Phases.IsLayerPhase, Tasks.ask};
ghost use Rattle.mt_state.specs.{Views.Core, Invariant.StateInvariant, KeptBack.ArenaFacts, Calls.IsLawful, Writes.wrote};
ghost use Rattle.mt_layer.specs.Builds.{IsLayerFrom, IsLeave};
ghost use Rattle.mt_remove.specs.Writes.{is_remove};
ghost use Rattle.mt_held.specs.Unlock.{MeetsLink, IsUnlock};
ghost use Rattle.mt_insert.specs.Judge.{MeetsOther};

/// Each phase that makes a layer makes a lawful step, by what its call ensures, and the invariant
/// stays: where another long key stands in the place of an operation's own; where its layer comes one
/// step nearer, or there is no memory and the lock is given back; and where an operation goes on below,
/// by a link that it found under its lock, or in the layer that it has made.
pub fn a_layer_is_a_step()
    ensures meets { (c : Core) (o : ℕ) (op : Operation) (arena : ArenaView) (w : Walk) → StateInvariant c → c.steps < 2 ^ 59 → operation_at c.table o ≡ Some op →
        op.walk.phase ≡ Judge → op.outcome ≡ None → is_remove (ask op.task) ≡ false → MeetsOther o op.task.key c.arena arena op.walk w →
        IsLawful c (wrote c arena c.tape c.accounts o op w op.outcome op.prepared) o false }
    ensures builds { (c : Core) (o : ℕ) (op : Operation) (arena : ArenaView) (w : Walk) (least : ℕ) → StateInvariant c → ArenaFacts c.arena → IsLeastBirth c.table c.steps least → c.steps < 2 ^ 59 →
        operation_at c.table o ≡ Some op → IsLayerPhase op.walk.phase → IsLayerFrom op.walk.phase least o op.task.key c.arena arena op.walk w →
        IsLawful c (wrote c arena c.tape c.accounts o op w op.outcome op.prepared) o false }
    ensures stops { (c : Core) (o : ℕ) (op : Operation) (arena : ArenaView) (w : Walk) → StateInvariant c → c.steps < 2 ^ 59 → operation_at c.table o ≡ Some op →
        op.walk.phase ≡ MakeLayer → IsUnlock o c.arena arena op.walk w →
        IsLawful c (wrote c arena c.tape c.accounts o op w (Some (record { reply = NoMemory; at = c.steps + 1 })) op.prepared) o true }
    ensures goes_below { (c : Core) (o : ℕ) (op : Operation) (arena : ArenaView) (w : Walk) → StateInvariant c → c.steps < 2 ^ 59 → operation_at c.table o ≡ Some op →
        op.walk.phase ≡ Judge → MeetsLink o op.task.key c.arena arena op.walk w →
        IsLawful c (wrote c arena c.tape c.accounts o op w op.outcome op.prepared) o false }
    ensures leaves { (c : Core) (o : ℕ) (op : Operation) (arena : ArenaView) (w : Walk) → StateInvariant c → c.steps < 2 ^ 59 → operation_at c.table o ≡ Some op →
        op.walk.phase ≡ Unlock → op.outcome ≡ None → IsLeave o c.arena arena op.walk w →
        IsLawful c (wrote c arena c.tape c.accounts o op w op.outcome op.prepared) o false }
{}
