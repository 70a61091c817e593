//! Each phase of a removal makes a lawful step. Contracts alone: no code runs.

ghost use Rattle.std.specs.Prelude.{◌≡◌, ◌≢◌, ◌+◌, ◌<◌, ◌^◌, ℕ, true, false, [], Some, None};
ghost use Rattle.mt_rows.specs.{Accounts.Accounts, declared.reply.Reply.TheVariants.{Absent, Removed}};
ghost use Rattle.mt_tape.specs.Tapes.{Kept};
ghost use Rattle.mt_arena.specs.Arena.{ArenaView, IsArena};
ghost use Rattle.mt_operation.specs.{declared.phase.Phase.TheVariants.{Lock, Judge, DropKey, Unlock}, Phases.{is_done, IsRemovalPhase}};
ghost use Rattle.mt_operation.specs.{declared.walk.Walk.Walk, declared.removal.Removal.Removal, declared.prepared.Prepared.Prepared};
ghost use Rattle.mt_operation.specs.{declared.operation.Operation.Operation, Tasks.ask, Tables.{op_at as operation_at}};
ghost use Rattle.mt_remove.specs.{Writes.{is_remove, IsRemoval}, Judge.{IsMadeReady, FindsAbsent}, DropKey.IsDropKey, Steps.IsRemovalFrom};
ghost use Rattle.mt_remove.specs.{Unlock.IsUnlockRemoval, Ways.{IsLockWay, FindsEnd}};
ghost use Rattle.mt_state.specs.{Views.Core, Invariant.StateInvariant, Calls.IsLawful, Writes.{wrote, removing}};

/// Each phase of a removal makes a lawful step, by what its call ensures, and the invariant stays: where
/// it makes all ready, or misses its key; where it takes the pair out; where it takes the empty border
/// node out of its tree, or an empty layer with its link; where it gives its locks back, and goes back to
/// the link of a layer that it has left empty; and where it locks and judges on that way.
pub fn a_removal_is_a_step()
    ensures readies { (c : Core) (o : ℕ) (op : Operation) (arena : ArenaView) (tape : Kept) (w : Walk) (prepared : Prepared) → StateInvariant c → c.steps < 2 ^ 59 → operation_at c.table o ≡ Some op →
        op.walk.phase ≡ Judge → op.outcome ≡ None → IsRemoval op.task → IsMadeReady o op.task c.arena arena c.tape tape op.walk w prepared →
        IsLawful c (wrote c arena tape c.accounts o op w op.outcome (Some prepared)) o false }
    ensures misses { (c : Core) (o : ℕ) (op : Operation) (arena : ArenaView) (w : Walk) → StateInvariant c → c.steps < 2 ^ 59 → operation_at c.table o ≡ Some op →
        op.walk.phase ≡ Judge → op.outcome ≡ None → IsRemoval op.task → FindsAbsent o op.task c.arena arena op.walk w →
        IsLawful c (wrote c arena c.tape c.accounts o op w (Some (record { reply = Absent; at = c.steps + 1 })) op.prepared) o true }
    ensures drops { (c : Core) (o : ℕ) (op : Operation) (arena : ArenaView) (tape : Kept) (accounts : Accounts) (w : Walk) (r : Removal) → StateInvariant c →
        IsArena c.arena.nodes c.arena.trees → IsArena arena.nodes arena.trees → c.steps < 2 ^ 59 → operation_at c.table o ≡ Some op →
        op.walk.phase ≡ DropKey → IsDropKey o (c.steps + 1) op.task c.arena arena c.tape tape c.accounts accounts op.walk w op.removal r →
        IsLawful c (removing c arena tape accounts o op w (Some (record { reply = Removed; at = c.steps + 1 })) None r) o false }
    ensures takes_out { (c : Core) (o : ℕ) (op : Operation) (arena : ArenaView) (w : Walk) (r : Removal) → StateInvariant c → IsArena c.arena.nodes c.arena.trees →
        c.steps < 2 ^ 59 → operation_at c.table o ≡ Some op → IsRemovalPhase op.walk.phase →
        IsRemovalFrom op.walk.phase o (c.steps + 1) op.task.key c.arena arena op.walk w op.removal r →
        IsLawful c (removing c arena c.tape c.accounts o op w op.outcome op.prepared r) o false }
    ensures returns_all { (c : Core) (o : ℕ) (op : Operation) (arena : ArenaView) (w : Walk) (r : Removal) → StateInvariant c → c.steps < 2 ^ 59 → operation_at c.table o ≡ Some op →
        op.walk.phase ≡ Unlock → is_remove (ask op.task) ≡ true → op.outcome ≢ None → op.splits.halves.items ≡ [] → IsUnlockRemoval o c.arena arena op.walk w op.removal r →
        IsLawful c (removing c arena c.tape c.accounts o op w op.outcome op.prepared r) o (is_done w.phase) }
    ensures locks_back { (c : Core) (o : ℕ) (op : Operation) (arena : ArenaView) (w : Walk) → StateInvariant c → c.steps < 2 ^ 59 → operation_at c.table o ≡ Some op →
        op.walk.phase ≡ Lock → op.outcome ≢ None → IsLockWay o op.task.key c.arena arena op.walk w op.removal →
        IsLawful c (wrote c arena c.tape c.accounts o op w op.outcome op.prepared) o false }
    ensures ends_back { (c : Core) (o : ℕ) (op : Operation) (arena : ArenaView) (w : Walk) → StateInvariant c → c.steps < 2 ^ 59 → operation_at c.table o ≡ Some op →
        op.walk.phase ≡ Judge → op.outcome ≢ None → FindsEnd o op.task.key c.arena arena op.walk w →
        IsLawful c (wrote c arena c.tape c.accounts o op w op.outcome op.prepared) o true }
{}
