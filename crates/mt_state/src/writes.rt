//! Each phase of a put, from its lock on, makes a lawful step. Contracts alone: no code runs.

ghost use Rattle.std.specs.Prelude.{◌≡◌, ◌≢◌, ◌+◌, ◌<◌, ◌^◌, ℕ, true, false, [], Some, None};
ghost use Rattle.mt_rows.specs.{Rows.Columns, Accounts.Accounts, declared.reply.Reply.TheVariants.{New, Replaced, Full, NoMemory, Stale}};
ghost use Rattle.mt_tape.specs.Tapes.{Kept};
ghost use Rattle.mt_arena.specs.Arena.{ArenaView, IsArena};
ghost use Rattle.mt_operation.specs.{declared.phase.Phase.TheVariants.{Lock, Judge, Store, Fill, Publish, Unlock}, declared.walk.Walk.Walk};
ghost use Rattle.mt_operation.specs.{declared.prepared.Prepared.Prepared, declared.operation.Operation.Operation, Tables.{op_at as operation_at}, Tasks.ask};
ghost use Rattle.mt_insert.specs.{Puts.IsPut, Fill.IsFill, Publish.{IsPublish, IsPublishFull}, Store.IsStore, Judge.{IsMadeReady, FindsStale}};
ghost use Rattle.mt_state.specs.{Views.Core, Invariant.StateInvariant, Calls.IsLawful, Writes.wrote};
ghost use Rattle.mt_descent.specs.WalkMoves.{IsLock};
ghost use Rattle.mt_held.specs.Unlock.{IsUnlock};
ghost use Rattle.mt_remove.specs.Writes.{is_remove};

/// Each phase of a put makes a lawful step, by what its call ensures, and the invariant stays: where it
/// takes the lock of its border node, or goes on its way; where it makes all ready; where it has no memory,
/// or finds another stamp than the one that it asks for, and gives the lock back; where it writes over its
/// key's row, writes a new pair into a free slot, makes that pair live, or finds no room in the quota; and
/// where it gives the lock back.
pub fn a_write_is_a_step()
    ensures locks { (c : Core) (o : ℕ) (op : Operation) (arena : ArenaView) (w : Walk) → StateInvariant c → c.steps < 2 ^ 59 → operation_at c.table o ≡ Some op →
        op.walk.phase ≡ Lock → IsLock o op.task.key c.arena arena op.walk w →
        IsLawful c (wrote c arena c.tape c.accounts o op w op.outcome op.prepared) o false }
    ensures readies { (c : Core) (o : ℕ) (op : Operation) (arena : ArenaView) (tape : Kept) (w : Walk) (prepared : Prepared) → StateInvariant c → c.steps < 2 ^ 59 → operation_at c.table o ≡ Some op →
        op.walk.phase ≡ Judge → op.outcome ≡ None → IsPut op.task → IsMadeReady o op.task c.arena arena c.tape tape op.walk w prepared →
        IsLawful c (wrote c arena tape c.accounts o op w op.outcome (Some prepared)) o false }
    ensures stops { (c : Core) (o : ℕ) (op : Operation) (arena : ArenaView) (w : Walk) → StateInvariant c → c.steps < 2 ^ 59 → operation_at c.table o ≡ Some op →
        op.walk.phase ≡ Judge → op.outcome ≡ None → IsUnlock o c.arena arena op.walk w →
        IsLawful c (wrote c arena c.tape c.accounts o op w (Some (record { reply = NoMemory; at = c.steps + 1 })) op.prepared) o true }
    ensures finds_stale { (c : Core) (o : ℕ) (op : Operation) (arena : ArenaView) (w : Walk) (stamp : ℕ) → StateInvariant c → c.steps < 2 ^ 59 → operation_at c.table o ≡ Some op →
        op.walk.phase ≡ Judge → op.outcome ≡ None → IsPut op.task → FindsStale o op.task stamp c.arena arena op.walk w →
        IsLawful c (wrote c arena c.tape c.accounts o op w (Some (record { reply = Stale stamp; at = c.steps + 1 })) op.prepared) o true }
    ensures stores { (c : Core) (o : ℕ) (op : Operation) (arena : ArenaView) (tape : Kept) (w : Walk) (row before : Columns) → StateInvariant c → IsArena c.arena.nodes c.arena.trees →
        c.steps < 2 ^ 59 → operation_at c.table o ≡ Some op → IsPut op.task → op.walk.phase ≡ Store →
        IsStore o (c.steps + 1) op.task row c.arena arena c.tape tape op.walk w before →
        IsLawful c (wrote c arena tape c.accounts o op w (Some (record { reply = Replaced; at = c.steps + 1 })) None) o false }
    ensures fills_slot { (c : Core) (o : ℕ) (op : Operation) (arena : ArenaView) (w : Walk) (prepared rest : Prepared) → StateInvariant c → c.steps < 2 ^ 59 → operation_at c.table o ≡ Some op →
        op.walk.phase ≡ Fill → IsFill o op.task prepared rest c.arena arena op.walk w →
        IsLawful c (wrote c arena c.tape c.accounts o op w op.outcome (Some rest)) o false }
    ensures publishes { (c : Core) (o : ℕ) (op : Operation) (arena : ArenaView) (tape : Kept) (accounts : Accounts) (w : Walk) (row : Columns) → StateInvariant c → IsArena c.arena.nodes c.arena.trees →
        c.steps < 2 ^ 59 → operation_at c.table o ≡ Some op → IsPut op.task → op.walk.phase ≡ Publish →
        IsPublish o (c.steps + 1) op.task row c.arena arena c.tape tape c.accounts accounts op.walk w →
        IsLawful c (wrote c arena tape accounts o op w (Some (record { reply = New; at = c.steps + 1 })) None) o false }
    ensures fills { (c : Core) (o : ℕ) (op : Operation) (arena : ArenaView) (tape : Kept) (accounts : Accounts) (w : Walk) → StateInvariant c → c.steps < 2 ^ 59 → operation_at c.table o ≡ Some op →
        IsPut op.task → op.walk.phase ≡ Publish →
        IsPublishFull o op.task c.arena arena c.tape tape c.accounts accounts op.walk w →
        IsLawful c (wrote c arena tape accounts o op w (Some (record { reply = Full; at = c.steps + 1 })) None) o false }
    ensures unlocks { (c : Core) (o : ℕ) (op : Operation) (arena : ArenaView) (w : Walk) → StateInvariant c → c.steps < 2 ^ 59 → operation_at c.table o ≡ Some op →
        op.walk.phase ≡ Unlock → is_remove (ask op.task) ≡ false → op.outcome ≢ None → op.splits.halves.items ≡ [] → IsUnlock o c.arena arena op.walk w →
        IsLawful c (wrote c arena c.tape c.accounts o op w op.outcome op.prepared) o true }
{}
