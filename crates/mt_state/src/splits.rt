//! Each phase of a split makes a lawful step. Contracts alone: no code runs.

ghost use Rattle.std.specs.Prelude.{◌≡◌, ◌≢◌, ◌+◌, ◌<◌, ◌^◌, ℕ, true, false, [], Some, None};
ghost use Rattle.mt_rows.specs.{Rows.Columns, Accounts.Accounts, declared.reply.Reply.TheVariants.{New, Full, NoMemory}};
ghost use Rattle.mt_tape.specs.Tapes.{Kept};
ghost use Rattle.mt_arena.specs.Arena.{ArenaView, IsArena};
ghost use Rattle.mt_operation.specs.{declared.phase.Phase.TheVariants.{SplitStart, SplitMove, Unlock}, declared.walk.Walk.Walk, declared.splits.Splits.Splits};
ghost use Rattle.mt_operation.specs.{declared.operation.Operation.Operation, Tables.{IsLeastBirth, op_at as operation_at}, Phases.IsClimb};
ghost use Rattle.mt_insert.specs.{Puts.IsPut, SplitStart.{IsSplitStart, IsSplitStopped}, Climbs.IsClimbFrom, SplitMove.{IsSplitMove, IsSplitMoveFull}};
ghost use Rattle.mt_insert.specs.Unlock.{IsUnlockAll};
ghost use Rattle.mt_state.specs.{Views.Core, Invariant.StateInvariant, KeptBack.ArenaFacts, Calls.IsLawful, Writes.splitting};

/// Each phase of a split makes a lawful step, by what its call ensures, and the invariant stays: where
/// the right half of the full border node is made, or there is no memory and the lock is given back;
/// where the keys are parted, with the new pair or, at a full quota, without it; where a right half
/// comes nearer to its place in its parent, or a root is made; and where all locks are given back.
pub fn a_split_is_a_step()
    ensures starts { (c : Core) (o : ℕ) (op : Operation) (arena : ArenaView) (tape : Kept) (w : Walk) (s : Splits) (least : ℕ) → StateInvariant c → ArenaFacts c.arena → IsLeastBirth c.table c.steps least →
        c.steps < 2 ^ 59 → operation_at c.table o ≡ Some op → op.walk.phase ≡ SplitStart → IsSplitStart least o op.task.key c.arena arena c.tape tape op.walk w op.splits s →
        IsLawful c (splitting c arena tape c.accounts o op w op.outcome op.prepared s) o false }
    ensures stops { (c : Core) (o : ℕ) (op : Operation) (arena : ArenaView) (tape : Kept) (w : Walk) (s : Splits) → StateInvariant c → c.steps < 2 ^ 59 → operation_at c.table o ≡ Some op →
        op.walk.phase ≡ SplitStart → IsSplitStopped o c.arena arena c.tape tape op.walk w s →
        IsLawful c (splitting c arena tape c.accounts o op w (Some (record { reply = NoMemory; at = c.steps + 1 })) None s) o true }
    ensures parts { (c : Core) (o : ℕ) (op : Operation) (arena : ArenaView) (tape : Kept) (accounts : Accounts) (w : Walk) (row : Columns) → StateInvariant c → IsArena c.arena.nodes c.arena.trees →
        c.steps < 2 ^ 59 → operation_at c.table o ≡ Some op → IsPut op.task → op.walk.phase ≡ SplitMove →
        IsSplitMove o (c.steps + 1) op.task row c.arena arena c.tape tape c.accounts accounts op.walk w op.splits →
        IsLawful c (splitting c arena tape accounts o op w (Some (record { reply = New; at = c.steps + 1 })) None op.splits) o false }
    ensures fills { (c : Core) (o : ℕ) (op : Operation) (arena : ArenaView) (tape : Kept) (accounts : Accounts) (w : Walk) → StateInvariant c → c.steps < 2 ^ 59 → operation_at c.table o ≡ Some op →
        IsPut op.task → op.walk.phase ≡ SplitMove →
        IsSplitMoveFull o op.task c.arena arena c.tape tape c.accounts accounts op.walk w op.splits →
        IsLawful c (splitting c arena tape accounts o op w (Some (record { reply = Full; at = c.steps + 1 })) None op.splits) o false }
    ensures climbs { (c : Core) (o : ℕ) (op : Operation) (arena : ArenaView) (w : Walk) (s : Splits) (least : ℕ) → StateInvariant c → ArenaFacts c.arena → IsLeastBirth c.table c.steps least →
        c.steps < 2 ^ 59 → operation_at c.table o ≡ Some op → IsClimb op.walk.phase → IsClimbFrom op.walk.phase least o c.arena arena op.walk w op.splits s →
        IsLawful c (splitting c arena c.tape c.accounts o op w op.outcome op.prepared s) o false }
    ensures returns_all { (c : Core) (o : ℕ) (op : Operation) (arena : ArenaView) (w : Walk) (s : Splits) → StateInvariant c → c.steps < 2 ^ 59 → operation_at c.table o ≡ Some op →
        op.walk.phase ≡ Unlock → op.outcome ≢ None → op.splits.halves.items ≢ [] → IsUnlockAll o c.arena arena op.walk w op.splits s →
        IsLawful c (splitting c arena c.tape c.accounts o op w op.outcome op.prepared s) o true }
{}
