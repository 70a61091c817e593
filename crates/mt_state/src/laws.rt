//! What the steps of others leave of an operation, and what a step leaves of the invariant. Each is a
//! contract alone: no code runs.

ghost use Rattle.std.specs.Prelude.{◌≡◌, ◌≢◌, ◌+◌, ◌<◌, ◌≤◌, ◌^◌, ℕ, Bool, true, false, Option, Some, None, length};
ghost use Rattle.mt_version.specs.Changes.{IsStable};
ghost use Rattle.mt_arena.specs.{Arena.{ArenaView, IsArena, content_of}, Layers.slot_at, NodeFacts.IsUnstable, Accesses.at, Given.GivesOut};
ghost use Rattle.mt_operation.specs.{declared.phase.Phase.Phase, declared.phase.Phase.TheVariants.{Search, Load, Confirm, SplitPrev, Reparent, FixNext, Snap, Done}};
ghost use Rattle.mt_operation.specs.{declared.outcome.Outcome.Outcome, declared.operation.Operation.Operation, declared.removal.Removal.Removal};
ghost use Rattle.mt_operation.specs.{Operations.{OperationView, SplitsView, ScanView}, Phases.{is_done, IsDescent}, declared.walk.Walk.Walk};
ghost use Rattle.mt_operation.specs.Tables.{op_at as operation_at};
ghost use Rattle.mt_state.specs.{Views.{StateView, Core, shown, KeepsPast}, Steps.LeavesOut};
ghost use Rattle.mt_state.specs.{Promises.{IsAnswer, IsInTheWay, needed_node, IsStep}, Touches.{locks_next, Touches}, KeptOperations.{IsKeptOf, IsScanKept}};
ghost use Rattle.mt_state.specs.{Invariant.{IsStampOf, AreStamps, StateInvariant, StateGuarantee}, Moves.{IsMove, IsTold}, Ways.{Descends, walked, ShowsTaken}};
ghost use Rattle.mt_state.specs.{Calls.{IsLawful, Searches, Takes, Compares}, Given.{with_given, SparesOperation}, KeptBack.{ArenaFacts, IsKeptBack}};
ghost use Rattle.mt_descent.specs.{Pasts.Past, KeptWalks.IsKept, WalkMoves.Continues, Remembered.Learns, KeptBack.GivesOutBefore};
ghost use Rattle.mt_layer.specs.KeptLayers.{GivesNoneInto};
ghost use Rattle.std.specs.FinMap as pairs;
ghost use Rattle.mt_rows.specs.{Rows.Bytes, Stamps.Stamped, declared.reply.Reply.TheVariants.{Absent, NoMemory}};
ghost use Rattle.mt_border.specs.declared.entry.Find.{Find};

/// All that is kept of an operation, at whatever phase it is, each step of another one keeps, and what a
/// scan has done too: what counts is what that step leaves to others. The step may give places out before
/// it goes on: none that the operation remembers, which stays kept back. An answer that was right stays
/// right.
pub fn others_keep_theirs()
    ensures kept { (old new : Core) (o q : ℕ) (op : Operation) → IsArena old.arena.nodes old.arena.trees → IsArena new.arena.nodes new.arena.trees → AreStamps new → StateGuarantee old new o →
        q ≢ o → old.steps < new.steps → operation_at old.table q ≡ Some op → IsKeptBack old.arena q op → IsKeptOf old q op → IsKeptOf new q op }
    ensures scanned { (old new : Core) (o q : ℕ) (op : Operation) → IsArena new.arena.nodes new.arena.trees → AreStamps new → StateGuarantee old new o → q ≢ o → old.steps < new.steps →
        IsScanKept old op → IsScanKept new op }
    ensures remembered { (old new : Core) (o q : ℕ) (op : Operation) → IsArena old.arena.nodes old.arena.trees → ArenaFacts new.arena → StateGuarantee old new o →
        q ≢ o → operation_at old.table q ≡ Some op → IsKeptBack old.arena q op → IsKeptOf old q op → IsKeptBack new.arena q op }
    ensures answers { (old new : StateView) (op : OperationView) (told : Outcome) → KeepsPast old new → op.last ≤ old.steps →
        IsAnswer old op told → IsAnswer new op told }
{}

/// All that is kept of an operation stays where blank nodes come in places that it has nothing to do with.
pub fn kept_stays_where_places_are_given_out()
    ensures { (c : Core) (mid : ArenaView) (o : ℕ) (op : Operation) → IsArena c.arena.nodes c.arena.trees → SparesOperation c.arena mid o op →
        IsKeptOf c o op → IsKeptOf (with_given c mid) o op }
{}

/// Nothing that an operation remembers is given out if only those places are that were taken out by its
/// birth.
pub fn nothing_remembered_is_given_out()
    ensures { (old mid : ArenaView) (o : ℕ) (op : Operation) → GivesOutBefore op.birth old mid → IsKeptBack old o op → GivesNoneInto o old mid →
        content_of mid ≡ content_of old → SparesOperation old mid o op }
{}

/// The contents stand where places are given out.
pub fn contents_stand_where_places_are_given_out()
    ensures { (old mid : ArenaView) → IsArena old.nodes old.trees → GivesOut old mid → content_of mid ≡ content_of old }
{}

/// Each row that the contents have was written by the step of its stamp. That step was made, none after it
/// wrote the key, and the tape has its write where it goes back so far.
pub fn a_row_has_its_steps_stamp()
    ensures { (c : Core) (q : ℕ × Bytes) (row : Stamped) → AreStamps c → pairs.get (content_of c.arena) q ≡ Some row → IsStampOf c.steps c.tape q row.stamp }
{}

/// A step that brings of its own operation what it has to keeps the invariant over all operations,
/// and may be told.
pub fn a_step_keeps_the_invariant()
    ensures invariant { (old new : Core) (o : ℕ) (before after : Operation) → StateInvariant old → IsMove old new o before after →
        IsTold old new o before after → old.steps < 2 ^ 59 → ArenaFacts old.arena → ArenaFacts new.arena → StateInvariant new }
    ensures told { (old new : Core) (o : ℕ) (before after : Operation) → StateInvariant old → IsMove old new o before after →
        IsTold old new o before after → old.steps < 2 ^ 59 → IsStep (shown old) (shown new) o (is_done after.walk.phase) }
{}

/// What is refused: an operation told to wait for a node that it doesn't need, at a phase that needs none,
/// or for a lock where it is only to read; a step that changes the keys of a node which another
/// operation holds; and one that changes a live node which its operation neither holds nor locks, unless
/// the phase is one of three that name a node anew.
pub fn wrong_steps_are_refused()
    ensures for_another_node { (v : ArenaView) (phase : Phase) (w : Walk) (s : SplitsView) (r : Removal) (g : ScanView) (k holder : ℕ) → needed_node phase v w s r ≡ Some k →
        (at v k).holder ≢ Some holder → ¬ IsInTheWay v phase w s r g holder }
    ensures for_none { (v : ArenaView) (phase : Phase) (w : Walk) (s : SplitsView) (r : Removal) (g : ScanView) (holder : ℕ) → needed_node phase v w s r ≡ None → ¬ IsInTheWay v phase w s r g holder }
    ensures lock_alone { (v : ArenaView) (phase : Phase) (w : Walk) (s : SplitsView) (r : Removal) (g : ScanView) (k holder : ℕ) → locks_next phase ≡ false → phase ≢ Load → phase ≢ Snap →
        needed_node phase v w s r ≡ Some k → IsStable (at v k).version → ¬ IsInTheWay v phase w s r g holder }
    ensures of_another { (op : OperationView) (o q k : ℕ) (old new : ArenaView) → Touches op o old new → k < length old.nodes → q ≢ o →
        (at old k).holder ≡ Some q → (at new k).holder ≢ Some o → (at new k).slots ≡ (at old k).slots }
    ensures of_nobody { (op : OperationView) (o k : ℕ) (old new : ArenaView) → Touches op o old new → k < length old.nodes →
        op.phase ≢ SplitPrev → op.phase ≢ FixNext → op.phase ≢ Reparent → (at old k).version.deleted ≡ false →
        (at old k).holder ≢ Some o → (at new k).holder ≢ Some o → at new k ≡ at old k }
{}

/// What is refused too: a step that leaves out a phase, so that an operation does in one step what two are for.
pub fn a_step_leaves_out_no_phase()
    ensures { (old new : StateView) (o : ℕ) (done : Bool) (p q : Phase) → LeavesOut p q → (s : IsStep old new o done) → s.before.phase ≡ p → s.after.phase ≢ q }
{}

/// Each phase of an operation that holds nothing makes a lawful step, by what its call ensures, and the
/// invariant stays: where it looks for the node of its key; where a get searches that, and misses its
/// key or finds a slot; where it takes what the slot holds, or has no memory to show it; and where it
/// compares the version, and is done or goes on its way.
pub fn a_look_is_a_step()
    ensures descends { (c : Core) (o : ℕ) (op : Operation) (w : Walk) → StateInvariant c → c.steps < 2 ^ 59 → operation_at c.table o ≡ Some op →
        IsDescent op.walk.phase → Descends op.walk w → Learns c.arena op.walk w → ((past : Past) → IsKept c.arena past op.task.key None w) →
        IsLawful c (walked c o op w op.outcome) o false }
    ensures misses { (c : Core) (o : ℕ) (op : Operation) (w : Walk) (found : Find) → StateInvariant c → IsArena c.arena.nodes c.arena.trees → c.steps < 2 ^ 59 →
        operation_at c.table o ≡ Some op → op.walk.phase ≡ Search → Searches c op w found → w.phase ≡ Confirm →
        IsLawful c (walked c o op w (Some (record { reply = Absent; at = c.steps + 1 }))) o false }
    ensures finds { (c : Core) (o : ℕ) (op : Operation) (w : Walk) (found : Find) → StateInvariant c → IsArena c.arena.nodes c.arena.trees → c.steps < 2 ^ 59 →
        operation_at c.table o ≡ Some op → op.walk.phase ≡ Search → Searches c op w found → w.phase ≡ Load →
        IsLawful c (walked c o op w op.outcome) o false }
    ensures takes { (c : Core) (o : ℕ) (op : Operation) (w : Walk) (row : Option Stamped) (told : Option Outcome) → StateInvariant c → IsArena c.arena.nodes c.arena.trees → c.steps < 2 ^ 59 →
        operation_at c.table o ≡ Some op → op.walk.phase ≡ Load → Takes c op w row → ShowsTaken op row w told →
        IsLawful c (walked c o op w told) o false }
    ensures stops { (c : Core) (o : ℕ) (op : Operation) (w : Walk) → StateInvariant c → IsArena c.arena.nodes c.arena.trees → c.steps < 2 ^ 59 →
        operation_at c.table o ≡ Some op → op.walk.phase ≡ Load → w.phase ≡ Done → Continues op.walk w →
        IsLawful c (walked c o op w (Some (record { reply = NoMemory; at = c.steps + 1 }))) o true }
    ensures ends { (c : Core) (o : ℕ) (op : Operation) (w : Walk) → StateInvariant c → c.steps < 2 ^ 59 →
        operation_at c.table o ≡ Some op → op.walk.phase ≡ Confirm → Compares c op w → w.phase ≡ Done →
        IsLawful c (walked c o op w op.outcome) o true }
    ensures goes_back { (c : Core) (o : ℕ) (op : Operation) (w : Walk) → StateInvariant c → c.steps < 2 ^ 59 →
        operation_at c.table o ≡ Some op → op.walk.phase ≡ Confirm → Compares c op w → w.phase ≢ Done →
        IsLawful c (walked c o op w None) o false }
{}
