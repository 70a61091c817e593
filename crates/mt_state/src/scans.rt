//! Each phase of a scan makes a lawful step. Contracts alone: no code runs.

ghost use Rattle.std.specs.{Prelude.{◌≡◌, ◌≢◌, ◌+◌, ◌<◌, ◌^◌, ◌⊎◌, ℕ, Bool, true, false, List, Some, None, IsSome, length, map}, List.Contains};
ghost use Rattle.std.specs.FinMap as pairs;
ghost use Rattle.mt_slices.specs.Keys.{tenant_of};
ghost use Rattle.mt_rows.specs.{Rows.Bytes, Maps.{is_scan, is_walked}, Limits.ArePairs, declared.reply.Reply.TheVariants.{Pairs, NoMemory}};
ghost use Rattle.mt_rows.specs.declared.command.Command.TheVariants.{Scan};
ghost use Rattle.mt_runs.specs.Scans.{Shown};
ghost use Rattle.mt_walks.specs.Walked.{IsWithin};
ghost use Rattle.mt_arena.specs.{Arena.IsArena, Accesses.at};
ghost use Rattle.mt_operation.specs.{declared.phase.Phase.TheVariants.{Snap, Check, Hop, Done}, declared.walk.Walk.Walk, declared.task.Task.Task};
ghost use Rattle.mt_operation.specs.{declared.scan.Scan.{Scan as Memory}, declared.operation.Operation.Operation, declared.outcome.Outcome.Outcome};
ghost use Rattle.mt_operation.specs.{Operations.{OperationView, scan_of}, Tasks.ask, Tables.{op_at as operation_at}};
ghost use Rattle.mt_descent.specs.{Pasts.Past, KeptWalks.IsKept, WalkMoves.Continues};
ghost use Rattle.mt_scan.specs.{Snaps.{prefix_in, IsSnap}, Checks.IsCheck, Hops.{IsAtCheck, KeptHop, HopsTo}};
ghost use Rattle.mt_state.specs.{Views.{StateView, Core, map_of}, Promises.IsAnswer, Invariant.StateInvariant, Ways.walked, Writes.scanned};
ghost use Rattle.mt_state.specs.Calls.{IsLawful, IsStillScan};

/// Each phase of a scan makes a lawful step, by what its call ensures, and the invariant stays: where it
/// sees the pairs of its border node; where it keeps them, and goes on from its next fence, or is done and
/// shows all that it has; where the node's version has changed, and it drops them; where it hops to the
/// next node, into a link's tree, or to the top; and where there is no memory for what it sees or keeps.
pub fn a_scan_is_a_step()
    ensures snaps { (c : Core) (o : ℕ) (op : Operation) (w : Walk) (scan : Memory) → StateInvariant c → IsArena c.arena.nodes c.arena.trees → c.steps < 2 ^ 59 →
        operation_at c.table o ≡ Some op → op.walk.phase ≡ Snap → IsSnap c.arena op.walk w (scan_of op.task op.scan) (scan_of op.task scan) →
        IsAtCheck c.arena op.task.key w scan.stop → IsLawful c (scanned c o op op.task w scan op.outcome) o false }
    ensures keeps { (c : Core) (o : ℕ) (op : Operation) (from : Bytes) (after : Bool) (count : ℕ) (columns : List ℕ) (task : Task) (w : Walk) (scan : Memory) →
        StateInvariant c → c.steps < 2 ^ 59 → operation_at c.table o ≡ Some op → op.walk.phase ≡ Check → ask op.task ≡ Scan from after count columns →
        IsCheck (at c.arena op.walk.place.node) (prefix_in c.arena op.walk) count columns op.walk w (scan_of op.task op.scan) (scan_of task scan) →
        IsStillScan op.task task → Continues op.walk w → w.phase ≡ Hop → KeptHop c.arena task.key w scan.stop → IsLawful c (scanned c o op task w scan op.outcome) o false }
    ensures ends { (c : Core) (o : ℕ) (op : Operation) (from : Bytes) (after : Bool) (count : ℕ) (columns : List ℕ) (task : Task) (w : Walk) (scan left : Memory) →
        StateInvariant c → c.steps < 2 ^ 59 → operation_at c.table o ≡ Some op → op.walk.phase ≡ Check → ask op.task ≡ Scan from after count columns →
        IsCheck (at c.arena op.walk.place.node) (prefix_in c.arena op.walk) count columns op.walk w (scan_of op.task op.scan) (scan_of task scan) →
        IsStillScan op.task task → Continues op.walk w → w.phase ≡ Done →
        IsLawful c (scanned c o op task w left (Some (record { reply = Pairs scan.collected.items; at = c.steps + 1 }))) o true }
    ensures drops { (c : Core) (o : ℕ) (op : Operation) (from : Bytes) (after : Bool) (count : ℕ) (columns : List ℕ) (task : Task) (w : Walk) (scan : Memory) →
        StateInvariant c → c.steps < 2 ^ 59 → operation_at c.table o ≡ Some op → op.walk.phase ≡ Check → ask op.task ≡ Scan from after count columns →
        IsCheck (at c.arena op.walk.place.node) (prefix_in c.arena op.walk) count columns op.walk w (scan_of op.task op.scan) (scan_of task scan) →
        IsStillScan op.task task → Continues op.walk w → w.phase ≢ Hop → w.phase ≢ Done → ((past : Past) → IsKept c.arena past task.key None w) →
        IsLawful c (scanned c o op task w scan op.outcome) o false }
    ensures hops { (c : Core) (o : ℕ) (op : Operation) (w : Walk) → StateInvariant c → IsArena c.arena.nodes c.arena.trees → c.steps < 2 ^ 59 →
        operation_at c.table o ≡ Some op → op.walk.phase ≡ Hop → HopsTo c.arena op.scan.stop op.walk w → Continues op.walk w →
        ((past : Past) → IsKept c.arena past op.task.key None w) → IsLawful c (walked c o op w op.outcome) o false }
    ensures stops { (c : Core) (o : ℕ) (op : Operation) (task : Task) (w : Walk) (left : Memory) → StateInvariant c → c.steps < 2 ^ 59 →
        operation_at c.table o ≡ Some op → (op.walk.phase ≡ Snap) ⊎ (op.walk.phase ≡ Check) → IsStillScan op.task task → tenant_of task.key ≡ tenant_of op.task.key →
        w.phase ≡ Done → Continues op.walk w →
        IsLawful c (scanned c o op task w left (Some (record { reply = NoMemory; at = c.steps + 1 }))) o true }
{}

/// What a scan shows where it is done may be shown: at most 64 pairs, by user keys that rise strictly.
pub fn a_scan_shows_pairs()
    ensures { (c : Core) (o : ℕ) (op : Operation) (from : Bytes) (after : Bool) (count : ℕ) (columns : List ℕ) (task : Task) (w : Walk) (scan : Memory) →
        StateInvariant c → c.steps < 2 ^ 59 → operation_at c.table o ≡ Some op → op.walk.phase ≡ Check → ask op.task ≡ Scan from after count columns →
        IsCheck (at c.arena op.walk.place.node) (prefix_in c.arena op.walk) count columns op.walk w (scan_of op.task op.scan) (scan_of task scan) →
        IsStillScan op.task task → Continues op.walk w → w.phase ≡ Done → ArePairs scan.collected.items }
{}

/// What no scan is answered: anything but pairs or want of memory; pairs that leave out a key which it walks, and which its
/// tenant had after each step from its first to its last; and a pair that its tenant had after none of these.
pub fn wrong_scans_are_refused()
    ensures another_reply { (v : StateView) (op : OperationView) (told : Outcome) → is_scan op.command ≡ true → told.reply ≢ NoMemory →
        ((ps : Shown) → told.reply ≢ Pairs ps) → ¬ IsAnswer v op told }
    ensures leaves_out { (v : StateView) (op : OperationView) (told : Outcome) (from : Bytes) (after : Bool) (count : ℕ) (columns : List ℕ) (ps : Shown) (key : Bytes) →
        op.command ≡ Scan from after count columns → told.reply ≡ Pairs ps → length ps < count → is_walked from after key ≡ true →
        ((m : ℕ) → IsWithin op.first op.last m → IsSome (pairs.get (map_of v op.tenant m) key)) → ¬ Contains (map (λ p. p.0) ps) key → ¬ IsAnswer v op told }
    ensures makes_up { (v : StateView) (op : OperationView) (told : Outcome) (from : Bytes) (after : Bool) (count : ℕ) (columns : List ℕ) (ps : Shown) (key : Bytes) →
        op.command ≡ Scan from after count columns → told.reply ≡ Pairs ps → Contains (map (λ p. p.0) ps) key →
        ((m : ℕ) → IsWithin op.first op.last m → pairs.get (map_of v op.tenant m) key ≡ None) → ¬ IsAnswer v op told }
{}
