//! What a settled number of a store says that is owned alone, that a round comes to each log, and what a crash may leave
//! once a checkpoint was written or given up; each the contract of a function that does nothing.

ghost use Rattle.std.specs.Prelude.{◌≡◌, ◌⊎◌, ◌+◌, ◌<◌, ℕ, List, [], ◌∷◌, Option, Some, Ok, length};
ghost use Rattle.mt_rows.specs.{Accounts.Accounts, declared.record.TenantPair.TenantPair};
ghost use Rattle.mt_state.specs.Views.{StateView};
ghost use Rattle.mt_log_files.specs.declared.worker.WorkerFiles.{WorkerFiles};
ghost use Rattle.mt_checkpoint.specs.Checkpoints.{Walk};
ghost use Rattle.mt_pages.specs.declared.walk.PageWalk.{PageWalk};
ghost use Rattle.mt_slots.specs.{declared.store_slots.StoreSlots.StoreSlots, declared.checkpointing.Checkpointing.Checkpointing};
ghost use Rattle.mt_slots.specs.{Places.{next_slot, with}, Keeps.{Mays, KeepsSlots, or_none}, Calls.Ends};
ghost use Rattle.mt_stored.specs.declared.checkpoints.CheckpointStop.{CheckpointStop};
ghost use Rattle.mt_stored.specs.Checkpoints.{Scanner, BeginsWalk, AddsPages, StopsAtBegin, StopsInWalk};
ghost use Rattle.mt_settle.specs.{Turns.Turn, Settles.Settles};
ghost use Rattle.mt_store_logs.specs.declared.store_log.StoreLog.{StoreLog};
ghost use Rattle.mt_stored.specs.{declared.source.OwnState.OwnState, Stores.{DoesStore, IsNewStore, IsRecoveredStore, IsSettled}, Keeping.turn_after};
ghost use Rattle.mt_stored.specs.{declared.turns.TurnStop.TurnStop, NextTurns.GoOnTo, TurnParts.Begins, WholeTurns.{Parts, WritesTurn, StopsTurn}};
ghost use Rattle.mt_stored.specs.Shared.{Seen, Somewhere, DoesShared};

use crate::digests::Digests;
use mt_book::Desk;
use mt_disk::Disk;
use std::sync::ledger::Ledger;

/// Of whatever has a state and its logs as `Store` has: it is the number of steps that were made when the
/// Settle began, and so at its end, and every log goes up to it.
pub fn a_settled_number_is_reached_by_all_logs<D: Disk, S>()
    ensures { (source : S → OwnState) (logs : S → List (StoreLog D)) (n : ℕ) (old new : S) →
        Settles (λ (s : S) (turn : Turn) (t : S). DoesStore D.is_honest D.state D.failures turn (source s) (logs s) (source t) (logs t)) (length (logs old)) old new (Ok n)
        → (n ≡ (source old).state.steps) × IsSettled (source new).state (logs new) }
{}

/// The first turn of a new store goes to generation 1. That of a recovered store goes to the generation after that from which it
/// was recovered.
///
/// Of whatever has a state and its logs as `Store` has, and goes on to a generation: after a whole turn the next one goes to the
/// generation after that. After a turn that was stopped the next one goes to the same generation, and finishes it.
pub fn a_turn_is_finished_before_the_next<L: Ledger, T: Desk<L>, D: Disk, K: Disk, G: Digests, S>()
    ensures first { (files : List (WorkerFiles D)) (bare : StoreSlots D) (accounts : Accounts) (v : StateView) (logs : List (StoreLog D)) (slots : Option (StoreSlots D)) → 0 < length files
        → IsNewStore D.is_honest D.state D.failures files bare accounts v logs slots → GoOnTo 1 logs }
    ensures recovered { (files : List (WorkerFiles D)) (found : StoreSlots D) (accounts : Accounts) (v : StateView) (logs : List (StoreLog D)) (slots : Option (StoreSlots D)) → 0 < length files
        → (up : IsRecoveredStore D.is_honest D.state D.failures files found accounts v logs slots) → GoOnTo (up.generation + 1) logs }
    ensures whole { (source : S → OwnState) (logs : S → List (StoreLog D)) (g h worker : ℕ) (tenants : List ℕ) (old new : Parts S T K G) → GoOnTo g (logs old.logs)
        → WritesTurn (λ (s : S) (turn : Turn) (t : S). DoesStore D.is_honest D.state D.failures turn (source s) (logs s) (source t) (logs t)) T.does worker K.is_honest K.state K.failures G.does (length (logs old.logs)) h tenants old new
        → (h ≡ g) × GoOnTo (g + 1) (logs new.logs) }
    ensures stopped { (source : S → OwnState) (logs : S → List (StoreLog D)) (g h worker : ℕ) (tenants : List ℕ) (stop : TurnStop) (old new : Parts S T K G) → GoOnTo g (logs old.logs)
        → StopsTurn (λ (s : S) (turn : Turn) (t : S). DoesStore D.is_honest D.state D.failures turn (source s) (logs s) (source t) (logs t)) T.does worker K.is_honest K.state K.failures G.does (length (logs old.logs)) h tenants stop old new
        → GoOnTo g (logs new.logs) }
{}

/// Of whatever has logs behind locks: after all went to the generation of a turn, the log at each worker's place was seen at that
/// generation, under its lock.
pub fn each_log_goes_to_the_generation_of_a_turn<D: Disk, G: Digests, S>()
    ensures { (seen : S → Seen) (count generation closed : ℕ) (old new : S) (was is : G) →
        Begins (λ (s : S) (turn : Turn) (t : S). DoesShared D.is_honest D.state D.failures D.was_refused (seen s) turn (seen t)) G.does count generation closed old was new is →
        (log : ℕ) → log < count → Somewhere (λ (before after : StoreLog D). after.log.generation ≡ generation) log }
{}

/// In a round over some logs each of them has its turn within as many turns as there are logs, wherever the round
/// stands.
pub fn each_log_has_its_turn_in_a_round()
    ensures { (count next log : ℕ) → log < count → (turns : ℕ) × (turns < count) × (turn_after count next turns ≡ log) }
{}

/// Over disks that keep the rules: a checkpoint that was written surely stands in the slot that did not have the newest
/// one. One that was given up before its end leaves none there more. Of the other slot a crash may
/// leave what it might before.
pub fn a_checkpoint_that_is_written_stands_in_its_slot<L: Ledger, S: Desk<L>, D: Disk>()
    ensures written { (worker : ℕ) (mays : Mays) (old looked shown : Scanner S) (tenants : List ℕ) (slots left : StoreSlots D) (start walk : PageWalk) (begun writing : Checkpointing D) (w : Walk)
        → KeepsSlots D.is_honest D.state D.failures mays slots → BeginsWalk S.does worker D.is_honest D.state D.failures old tenants slots w.first looked start begun
        → AddsPages S.does worker D.is_honest D.state D.failures looked start begun w.pairs shown walk writing → Ends D.is_honest D.state D.failures writing w.last left
        → KeepsSlots D.is_honest D.state D.failures (with (next_slot slots.newest) (Some w ∷ []) (or_none (next_slot slots.newest) mays)) left }
    ensures given_up { (worker : ℕ) (mays : Mays) (old new : Scanner S) (tenants : List ℕ) (slots left : StoreSlots D) (stop : CheckpointStop)
        → KeepsSlots D.is_honest D.state D.failures mays slots
        → StopsAtBegin S.does worker D.is_honest D.state D.failures old slots stop new left ⊎ StopsInWalk S.does worker D.is_honest D.state D.failures old tenants slots stop new left
        → KeepsSlots D.is_honest D.state D.failures (or_none (next_slot slots.newest) mays) left }
{}
