//! How a tape goes forward, what no notes are, and what happens to a store that is owned alone, as events. These are
//! laws, each the contract of a function that does nothing.

ghost use Rattle.std.specs.Prelude.{◌≡◌, ◌≢◌, ◌<◌, ◌≤◌, ◌+◌, ◌++◌, ◌∷◌, [], ℕ, map, length, vec_len, List, Option, Some, None, Result, Ok, slice_get};
ghost use Rattle.mt_rows.specs.{declared.refusal.Refusal.{Refusal as AnyRefusal}, declared.refusal.Refusal.TheVariants.{BadLog, StampsFall, OverQuota}};
ghost use Rattle.mt_rows.specs.{Tenants.Contents, Accounts.Accounts};
ghost use Rattle.mt_disk.specs.declared.mem.MemDisk.{MemDisk as AnyDisk};
ghost use Rattle.mt_slots.specs.declared.store_slots.StoreSlots.{StoreSlots as AnySlots};
ghost use Rattle.mt_lives.specs.{declared.live_slots.LiveSlots.{LiveSlots as AnyLiveSlots}, declared.live_slots.LiveSlots.TheVariants.Rest};
ghost use Rattle.mt_log_files.specs.declared.worker.WorkerFiles.{WorkerFiles};
ghost use Rattle.mt_store_logs.specs.{declared.store_log.StoreLog.{StoreLog as AnyLog}, Places.{mark_in, slot_of}, Taking.files_of};
ghost use Rattle.mt_settle.specs.{Turns.BroughtUp, Settles.Settles};
ghost use Rattle.mt_core.specs.Rights.{IsRightState};
ghost use Rattle.mt_stored.specs.{declared.stores.Store.{Store as AnyStore}, Stores.{IsNewStore, IsRecoveredStore}};
ghost use Rattle.mt_recover.specs.declared.recovering.Recovered.{Recovered as AnyRecovered};
ghost use Rattle.mt_tape.specs.{declared.entry.Entry.{Entry as AnyEntry}, Tapes.RisesOver, Histories.{contents_at, IsLegalTape}};
ghost use Rattle.mt_drains.specs.Drains.{record_of};
ghost use Rattle.mt_crashes.specs.Fronts.{after_changes};
ghost use Rattle.mt_runs.specs.{declared.event.Event.{Event as AnyEvent}, declared.event.Answer.{Answer as AnyAnswer}, Runs.Finished, Placings.Quotas};
ghost use Rattle.mt_lives.specs.declared.events.CrashImages.{CrashImages};
ghost use Rattle.mt_lives.specs.declared.events.StoreEvent.TheVariants.{Core, Take, Tidy, SettleBegin, SettleNext, CheckBegin, CheckStep, Crash};
ghost use Rattle.mt_lives.specs.{declared.events.StoreNote.TheVariants.{Took, Settled, CheckBegun, CheckWrites, CheckEnded, TurnEnded, Recovered, Refused, NoSuch}, Earlier.{earlier_entries, AreTold}};
ghost use Rattle.mt_lives.specs.{declared.serving.Serving.{Serving as AnyServing}, Holds.{quotas_of, Holds}, Returns.IsFresh, Forced.AllCrash, Steps.GoesOn};
ghost use Rattle.mt_lives.specs.Lives.{Life, Standing, new_standing, story_in, steps_in, IsNoted, Notes, NotesLead};
ghost use Rattle.mt_lives.specs.Owned.{with_state, AreTurnNotes, IsTurn, IsWholeSettle};

use mt_disk::{Disk, MemDisk};
use mt_settle::Logs;
use mt_stored::Store;

/// A tape goes forward: the pairs after a step are those at its floor, with the writes of the tape up to that step made
/// over them, the oldest first, as a recovery makes them. This asks that what a log tells of each write makes the row
/// after it of the row before it.
#[tactic(auto, using(crate::proofs::Forward::forward))]
pub fn a_tape_goes_forward()
    ensures { (floor m : ℕ) (entries : List AnyEntry) (now : Contents) → RisesOver floor entries → IsLegalTape entries now → AreTold entries → floor ≤ m →
        contents_at entries now m ≡ after_changes (contents_at entries now floor) (map record_of (earlier_entries m entries)) }
{}

/// What is never noted. Of a recovery: a cutoff before a number that was settled, or that such a number is given again. Of
/// a Settle: an answer of less than the step after which it began, or of more than the last step. Of a crash: that files
/// are bad, fall, or are over a quota. Of a store that serves: NoSuch of an operation, of a tidying, or of a Settle that begins by a free
/// name. Of a take: an answer with which its operation didn't finish. Of a turn or its checkpoint: that it begins or ends at another number than that of the last step, that a turn
/// begins while one is made, or that one ends while none is made.
pub fn wrong_notes_are_refused()
    ensures settled_number_lost { (quotas : Quotas) (old new : Standing) (images : CrashImages) (r : AnyRecovered) →
        r.cutoff < old.settled → ¬ IsNoted quotas old (Crash images) (Recovered r) new }
    ensures settled_number_given_again { (quotas : Quotas) (old new : Standing) (images : CrashImages) (r : AnyRecovered) →
        r.resume < old.settled → ¬ IsNoted quotas old (Crash images) (Recovered r) new }
    ensures settle_before_it_began { (quotas : Quotas) (old new : Standing) (id begun number : ℕ) →
        old.begun id ≡ Some begun → number < begun → ¬ IsNoted quotas old (SettleNext id) (Settled number) new }
    ensures settle_past_the_last_step { (quotas : Quotas) (old new : Standing) (life : Life) (id number : ℕ) →
        old.now ≡ Ok life → steps_in life < number → ¬ IsNoted quotas old (SettleNext id) (Settled number) new }
    ensures own_files_are_bad { (quotas : Quotas) (old new : Standing) (images : CrashImages) (log offset : ℕ) →
        ¬ IsNoted quotas old (Crash images) (Refused (BadLog log offset)) new }
    ensures own_stamps_fall { (quotas : Quotas) (old new : Standing) (images : CrashImages) (log stamp : ℕ) →
        ¬ IsNoted quotas old (Crash images) (Refused (StampsFall log stamp)) new }
    ensures own_pairs_are_too_many { (quotas : Quotas) (old new : Standing) (images : CrashImages) (tenant : ℕ) →
        ¬ IsNoted quotas old (Crash images) (Refused (OverQuota tenant)) new }
    ensures operation_of_no_life { (quotas : Quotas) (old new : Standing) (life : Life) (e : AnyEvent) →
        old.now ≡ Ok life → ¬ IsNoted quotas old (Core e) NoSuch new }
    ensures tidying_of_no_life { (quotas : Quotas) (old new : Standing) (life : Life) →
        old.now ≡ Ok life → ¬ IsNoted quotas old Tidy NoSuch new }
    ensures answer_of_no_last_step { (quotas : Quotas) (old new : Standing) (life : Life) (op : ℕ) (answer : AnyAnswer) →
        old.now ≡ Ok life → ¬ Finished (story_in life) op answer → ¬ IsNoted quotas old (Take op) (Took answer) new }
    ensures open_settle_of_no_name { (quotas : Quotas) (old new : Standing) (life : Life) (id : ℕ) →
        old.now ≡ Ok life → old.begun id ≡ None → ¬ IsNoted quotas old (SettleBegin id) NoSuch new }
    ensures turn_begun_elsewhere { (quotas : Quotas) (old new : Standing) (life : Life) (number : ℕ) →
        old.now ≡ Ok life → number ≢ steps_in life → ¬ IsNoted quotas old CheckBegin (CheckBegun number) new }
    ensures checkpoint_begun_elsewhere { (quotas : Quotas) (old new : Standing) (life : Life) (number : ℕ) →
        old.now ≡ Ok life → number ≢ steps_in life → ¬ IsNoted quotas old CheckStep (CheckWrites number) new }
    ensures checkpoint_ended_elsewhere { (quotas : Quotas) (old new : Standing) (life : Life) (number : ℕ) →
        old.now ≡ Ok life → number ≢ steps_in life → ¬ IsNoted quotas old CheckStep (CheckEnded number) new }
    ensures second_turn { (quotas : Quotas) (old new : Standing) (number : ℕ) →
        old.check ≢ None → ¬ IsNoted quotas old CheckBegin (CheckBegun number) new }
    ensures no_turn_ended { (quotas : Quotas) (old new : Standing) → old.check ≡ None → ¬ IsNoted quotas old CheckStep TurnEnded new }
{}

/// The server's store that is owned alone and was just made stands as a new one. Its state is right, and nothing has a
/// name yet: no event, and no Settle. Its first turn goes to generation 1.
pub fn an_owned_store_begins_as_a_new_one()
    ensures { (accounts : Accounts) (serving : AnyServing) (files : List (WorkerFiles AnyDisk)) (bare slots : AnySlots AnyDisk) (logs : List (AnyLog AnyDisk)) → 0 < length files → length files ≤ 64
        → IsNewStore ⟦<MemDisk as Disk>⟧.is_honest ⟦<MemDisk as Disk>⟧.state ⟦<MemDisk as Disk>⟧.failures files bare accounts serving.state logs (Some slots)
        → IsRightState serving.state → IsFresh serving → serving.generation ≡ 1 → Holds accounts (Rest slots) new_standing logs (Some serving) }
{}

/// A store whose disks crashed, each to its image, and that was recovered from what they left of its files stands as
/// after that crash, noted Recovered. Its state is right, and nothing has a name. Its next turn goes
/// to the generation to which the other store's goes.
pub fn an_owned_store_is_recovered_as_after_a_crash()
    ensures { (accounts : Accounts) (slots found now : AnySlots AnyDisk) (was : Option AnyServing) (serving : AnyServing) (old left new : List (AnyLog AnyDisk))
        (images : CrashImages) → AllCrash images old slots left found
        → (up : IsRecoveredStore ⟦<MemDisk as Disk>⟧.is_honest ⟦<MemDisk as Disk>⟧.state ⟦<MemDisk as Disk>⟧.failures (map files_of left) found accounts serving.state new (Some now))
        → serving.generation ≡ up.generation + 1 → IsRightState serving.state → IsFresh serving → (r : AnyRecovered) × GoesOn accounts (Rest slots) (Rest now) (Crash images) (Recovered r) old was new (Some serving) }
{}

/// A turn of that store is a list of events of its log: a reopening if the log isn't open, and flushes. Their notes
/// tell what the turn told. All that held of the store holds after them.
pub fn a_turn_of_an_owned_store_is_a_list_of_events()
    ensures { (accounts : Accounts) (slots : AnyLiveSlots) (standing : Standing) (serving : AnyServing) (worker : ℕ) (told : Result ℕ AnyRefusal) (log : AnyLog AnyDisk)
        (old new : AnyStore AnyDisk ⟦<MemDisk as Disk>⟧) →
        Holds accounts slots standing old.logs.items (Some serving) → old.source.state ≡ serving.state → slice_get old.logs.items worker ≡ Some log
        → ⟦<Store<MemDisk> as Logs>⟧.does old (BroughtUp worker told) new
        → IsTurn accounts slots standing worker (mark_in (slot_of log)) told new.logs.items (with_state new.source.state serving) }
{}

/// A Settle of that store is a Settle of the events, by any name that no open one has. It begins, each log has its
/// turn, and the last turn tells what the store answered. So a number that it answered is settled. All that held of
/// the store holds after it.
pub fn a_settle_of_an_owned_store_is_a_settle()
    ensures { (accounts : Accounts) (slots : AnyLiveSlots) (standing : Standing) (serving : AnyServing) (id : ℕ) (told : Result ℕ AnyRefusal)
        (old new : AnyStore AnyDisk ⟦<MemDisk as Disk>⟧) →
        Holds accounts slots standing old.logs.items (Some serving) → old.source.state ≡ serving.state → standing.begun id ≡ None
        → Settles ⟦<Store<MemDisk> as Logs>⟧.does (vec_len old.logs) old new told
        → IsWholeSettle accounts slots standing id old.source.state.steps (vec_len old.logs) told new.logs.items (with_state new.source.state serving) }
{}

/// The number of such a Settle is at most every later cutoff, whatever happens before that crash. And it is at most the
/// number after which the next life counts on. So no number up to it is ever given again.
pub fn a_number_that_an_owned_store_settled_is_kept()
    ensures { (accounts : Accounts) (slots : AnyLiveSlots) (standing last : Standing) (serving : AnyServing) (id steps count number : ℕ) (logs : List (AnyLog AnyDisk))
        (notes : Notes) (images : CrashImages) (r : AnyRecovered) (settle : IsWholeSettle accounts slots standing id steps count (Ok number) logs serving) →
        NotesLead (quotas_of accounts) settle.next (notes ++ (Crash images, Recovered r) ∷ []) last → (number ≤ r.cutoff) × (number ≤ r.resume) }
{}

/// What no turn and no Settle of such a store is told as: notes of another log's turn; a Settle with a number over the
/// last step, or by the name of an open one.
pub fn wrong_turns_and_settles_are_refused()
    ensures turn_of_another_log { (worker other : ℕ) (mark other_mark : Option ℕ) (told other_told : Result ℕ AnyRefusal) (notes : Notes) →
        worker ≢ other → AreTurnNotes worker mark told notes → ¬ AreTurnNotes other other_mark other_told notes }
    ensures settle_over_the_last_step { (accounts : Accounts) (slots : AnyLiveSlots) (standing : Standing) (life : Life) (serving : AnyServing) (id steps count number : ℕ) (logs : List (AnyLog AnyDisk)) →
        standing.now ≡ Ok life → steps_in life < number → ¬ IsWholeSettle accounts slots standing id steps count (Ok number) logs serving }
    ensures settle_of_an_open_name { (accounts : Accounts) (slots : AnyLiveSlots) (standing : Standing) (serving : AnyServing) (id steps count : ℕ) (told : Result ℕ AnyRefusal) (logs : List (AnyLog AnyDisk)) →
        standing.begun id ≢ None → ¬ IsWholeSettle accounts slots standing id steps count told logs serving }
{}
