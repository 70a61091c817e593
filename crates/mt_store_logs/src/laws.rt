//! What a crash may leave of a store's logs, whatever was called on them: laws, each the contract of a function
//! that does nothing. Their premise is a disk that keeps the rules.

ghost use Rattle.std.specs.{Prelude.{◌≡◌, ◌≢◌, ◌⊎◌, ◌+◌, ◌≤◌, ◌^◌, ℕ, max, true, false, List, map, Option, None, Some}, Option.option_map};
ghost use Rattle.std.specs.FinMap as pairs;
ghost use Rattle.mt_rows.specs.{Rows.Bytes, declared.record.Batch.Batch, declared.refusal.Refusal.Refusal};
ghost use Rattle.mt_rows.specs.{Stamps.restamped_row, Tenants.{Contents as Pairs}, TenantPairs.pairs_of};
ghost use Rattle.mt_rows.specs.declared.refusal.Refusal.TheVariants as refusals;
ghost use Rattle.mt_batches.specs.Batches.{IsInOrder};
ghost use Rattle.mt_disk.specs.{declared.mem.MemDisk.MemDisk, Mem.mem_state};
ghost use Rattle.mt_log.specs.{declared.batch.Front.Front, declared.batch.LogBatch.{LogBatch, TheVariants.Resume}};
ghost use Rattle.mt_log.specs.Contents.{Contents, Rises, JoinsAndRises, mark_of, no_batches, with_batch, contents_of};
ghost use Rattle.mt_crashes.specs.{Fronts.In, Stores.{LogNow, at_rest, MayLeaveFront}, Bases.{CheckpointView, Slots}, Histories.{Placed, pairs_upto}};
ghost use Rattle.mt_crashes.specs.{Invariants.RisePlaced, Recoveries.{HasSlot, IsRecovered}};
ghost use Rattle.mt_recover.specs.{declared.resuming.LogSlot.LogSlot, Resumes.{HasResumed, FailsToResume}};
ghost use Rattle.mt_generations.specs.Chains.{EndsLog, BeginBy, IsRecoveredOver};
ghost use Rattle.mt_log_files.specs.Files.{Spare, Has, MayLeaveFile};
ghost use Rattle.mt_chain_files.specs.Turns.{FilesNow, now_of, AreOfTurn, ShowFiles};
ghost use Rattle.mt_store_logs.specs.{declared.store_log.StoreLog.StoreLog, Places.{disk_in, worker_of, OnLast}, Opens.{Opens, FailsToOpen, Makes, MakesLog}};
ghost use Rattle.mt_store_logs.specs.{Ends.{IsEndOf, Stands, keeping, Rests, StandsInTurn, KeepStarts}, Recovers.{ResumesLog, FailsToResumeLog, IsRecoveredOf, ServesAgain}, Rereads.KeepRules};
ghost use Rattle.mt_rows.specs.Accounts.{Accounts};
ghost use Rattle.mt_recover.specs.declared.recovering.Recovered.{Recovered};
ghost use Rattle.mt_slots.specs.{declared.store_slots.StoreSlots.StoreSlots, Keeps.{NewestEndsBy, only_these}};
ghost use Rattle.mt_store_logs.specs.Turns.{ReopensLog, FailsToReopenLog, BeginsNextLog, FailsToBeginNextLog, GivesUpOlderLog, FailsToGiveUpOlderLog};
ghost use Rattle.mt_store_logs.specs.{Waits.{AppendsKept, FailsToAppend, Reopens, FailsToReopen}, Crashes.{IsCrashedOn, IsCrashed}, declared.crashing.FileImages.FileImages};
ghost use Rattle.mt_store_logs.specs.{Shows.{Shows, IsHonest, WaitsIn, drained_upto, IsIn, IsInDoubt, ComesToRest}, OldBases.{IsOldBase, AreOldUpto, TellHistory}};

use mt_disk::Disk;

/// What happens to the end of a log happens to the whole one, and it stays its end. Both end at one step, and the same
/// batch waits for both. A batch is in both, or is in doubt in both. A log that comes to rest does so with the front of
/// which a crash left the end.
pub fn the_whole_log_goes_as_its_end()
    ensures itself { (log : LogNow) → IsEndOf log log }
    ensures mark { (whole last : LogNow) → IsEndOf whole last → mark_of last.had ≡ mark_of whole.had }
    ensures drained { (whole last : LogNow) (kept : Option Batch) → IsEndOf whole last → drained_upto last kept ≡ drained_upto whole kept }
    ensures waits { (whole last : LogNow) (kept : Option Batch) → IsEndOf whole last → WaitsIn last kept → WaitsIn whole kept }
    ensures longer { (whole last : Contents) (b : LogBatch) → EndsLog whole last → EndsLog (with_batch b whole) (with_batch b last) }
    ensures front { (whole last : LogNow) (front : Contents) → IsEndOf whole last → MayLeaveFront last front
        → (all : Contents) × MayLeaveFront whole all × EndsLog all front }
    ensures is_in { (whole last next : LogNow) (kept : Option Batch) → IsEndOf whole last → IsIn kept last next
        → (all : LogNow) × IsIn kept whole all × IsEndOf all next }
    ensures in_doubt { (whole last next : LogNow) (kept : Option Batch) → IsEndOf whole last → IsInDoubt kept last next
        → (all : LogNow) × IsInDoubt kept whole all × IsEndOf all next }
    ensures rests { (whole last next : LogNow) → IsEndOf whole last → ComesToRest last next
        → (all : LogNow) × ComesToRest whole all × IsEndOf all next }
{}

/// A log is not the end of a whole one if it ends elsewhere, or has a batch that the whole one lacks.
pub fn another_log_is_not_the_end()
    ensures elsewhere { (whole last : LogNow) → mark_of last.had ≢ mark_of whole.had → ¬ IsEndOf whole last }
    ensures batch { (whole last : LogNow) (b : LogBatch) → In b last.had.batches → ¬ In b whole.had.batches → ¬ IsEndOf whole last }
{}

/// A batch that was drained where the whole log's drains ended waits for it. If one waits, or is appended, the drains end
/// where it does.
pub fn a_drained_batch_waits<D: Disk>()
    ensures { (now : LogNow) (log : StoreLog D) (b : Batch) → Stands D.is_honest D.state now log → log.kept ≡ None → IsInOrder b
        → b.from ≡ drained_upto now log.kept → Stands D.is_honest D.state now (keeping b log) }
{}

/// An append that succeeds leaves the whole log at rest, with the batch; a worker's drains still end where they did.
pub fn an_append_comes_to_rest<D: Disk>()
    ensures { (now : LogNow) (old new : StoreLog D) → Stands D.is_honest D.state now old → OnLast (AppendsKept D.is_honest D.state D.failures) old new
        → (next : LogNow) × Stands D.is_honest D.state next new × IsIn old.kept now next × (drained_upto next new.kept ≡ drained_upto now old.kept) }
{}

/// One that fails leaves the batch waiting, perhaps in doubt; it is never out of turn.
pub fn a_failed_append_waits<D: Disk>()
    ensures { (now : LogNow) (e : Refusal) (old new : StoreLog D) → Stands D.is_honest D.state now old
        → OnLast (FailsToAppend D.is_honest D.state D.failures e) old new
        → (next : LogNow) × Stands D.is_honest D.state next new × IsInDoubt old.kept now next × (new.kept ≡ old.kept)
        × ((mark : ℕ) → e ≢ refusals.WrongTurn mark) }
{}

/// A log that is opened again comes to rest, and then has the batch that waited.
pub fn a_reopened_log_has_its_batch<D: Disk>()
    ensures { (now : LogNow) (old new : StoreLog D) → Stands D.is_honest D.state now old → OnLast (Reopens D.is_honest D.state D.failures) old new
        → (mid next : LogNow) × ComesToRest now mid × Stands D.is_honest D.state next new × IsIn old.kept mid next
        × (drained_upto next new.kept ≡ drained_upto now old.kept) }
{}

/// One that is not, or whose batch is not appended, is as before, or has come to rest first. Its file is in the
/// format, and its batch not out of turn.
pub fn a_log_that_is_not_reopened_waits<D: Disk>()
    ensures { (now : LogNow) (e : Refusal) (old new : StoreLog D) → Stands D.is_honest D.state now old
        → OnLast (FailsToReopen D.is_honest D.state D.failures e) old new
        → (mid next : LogNow) × (mid ≡ now ⊎ ComesToRest now mid) × Stands D.is_honest D.state next new × IsInDoubt old.kept mid next × (new.kept ≡ old.kept)
        × ((number offset : ℕ) → e ≢ refusals.BadLog number offset) × ((mark : ℕ) → e ≢ refusals.WrongTurn mark) }
{}

/// In a turn all three files of a worker's log stay those of its whole log as its last log is appended to. So it is if that
/// fails, or if a drained batch waits. Each file's log begins where it did.
pub fn a_log_in_a_turn_is_appended_to<D: Disk>()
    ensures appended { (g : ℕ) (now : LogNow) (files : FilesNow) (old new : StoreLog D) → StandsInTurn D.is_honest D.state g now files old
        → OnLast (AppendsKept D.is_honest D.state D.failures) old new
        → (next : LogNow) × (then : FilesNow) × StandsInTurn D.is_honest D.state g next then new × KeepStarts files then × IsIn old.kept now next
        × (drained_upto next new.kept ≡ drained_upto now old.kept) }
    ensures failed { (g : ℕ) (now : LogNow) (files : FilesNow) (e : Refusal) (old new : StoreLog D) → StandsInTurn D.is_honest D.state g now files old
        → OnLast (FailsToAppend D.is_honest D.state D.failures e) old new
        → (next : LogNow) × (then : FilesNow) × StandsInTurn D.is_honest D.state g next then new × KeepStarts files then × IsInDoubt old.kept now next
        × (new.kept ≡ old.kept) × ((mark : ℕ) → e ≢ refusals.WrongTurn mark) }
    ensures waits { (g : ℕ) (now : LogNow) (files : FilesNow) (log : StoreLog D) (b : Batch) → StandsInTurn D.is_honest D.state g now files log
        → log.kept ≡ None → IsInOrder b → b.from ≡ drained_upto now log.kept → StandsInTurn D.is_honest D.state g now files (keeping b log) }
{}

/// So it is when a recovery gives the last log its resume batch. If that fails, the files are those of the log without the
/// batch, or that is in doubt.
pub fn a_log_in_a_turn_is_resumed<D: Disk>()
    ensures resumed { (g : ℕ) (c : Contents) (kept to : ℕ) (files : FilesNow) (old new : StoreLog D) → StandsInTurn D.is_honest D.state g (at_rest c) files old
        → old.kept ≡ None → to ≤ 2 ^ 59 → ResumesLog D.is_honest D.state D.failures kept to old new
        → (then : FilesNow) × Rises (Resume (mark_of c) to kept)
        × StandsInTurn D.is_honest D.state g (at_rest (with_batch (Resume (mark_of c) to kept) c)) then new × KeepStarts files then }
    ensures failed { (g : ℕ) (c : Contents) (kept to : ℕ) (e : Refusal) (files : FilesNow) (old new : StoreLog D)
        → StandsInTurn D.is_honest D.state g (at_rest c) files old → to ≤ 2 ^ 59 → FailsToResumeLog D.is_honest D.state D.failures kept to e old new
        → (next : LogNow) × (then : FilesNow) × AreOfTurn g next then × ShowFiles D.is_honest D.state then new.log.files × KeepStarts files then
        × ((next ≡ at_rest c) ⊎ (Rises (Resume (mark_of c) to kept) × (next ≡ record { had = c; doubt = Some (Resume (mark_of c) to kept) }))) }
{}

/// So it is as the log is opened again, whatever the file for the next log shows. Then it comes to rest, and has the batch that
/// waited. If it is not opened, or the batch is not appended, there was no memory, or the device failed.
pub fn a_log_in_a_turn_is_opened_again<D: Disk>()
    ensures reopened { (g : ℕ) (now : LogNow) (files : FilesNow) (old new : StoreLog D) → StandsInTurn D.is_honest D.state g now files old
        → ReopensLog D.is_honest D.state D.failures old new
        → (mid next : LogNow) × (then : FilesNow) × ComesToRest now mid × StandsInTurn D.is_honest D.state g next then new × KeepStarts files then
        × IsIn old.kept mid next × (drained_upto next new.kept ≡ drained_upto now old.kept) }
    ensures failed { (g : ℕ) (now : LogNow) (files : FilesNow) (e : Refusal) (old new : StoreLog D) → StandsInTurn D.is_honest D.state g now files old
        → FailsToReopenLog D.is_honest D.state D.failures e old new
        → (mid next : LogNow) × (then : FilesNow) × (mid ≡ now ⊎ ComesToRest now mid) × StandsInTurn D.is_honest D.state g next then new
        × KeepStarts files then × IsInDoubt old.kept mid next × (new.kept ≡ old.kept) × ((e ≡ refusals.Memory) ⊎ (e ≡ refusals.Device)) }
{}

/// So it is as the next log is begun, if the last one is that of the turn's first generation. The file of that stays. If it
/// fails, the next log may be there or not, or nothing has changed. Its file is never found not to be spare.
pub fn the_next_log_of_a_turn_is_begun<D: Disk>()
    ensures begun { (g : ℕ) (now : LogNow) (files : FilesNow) (old new : StoreLog D) → StandsInTurn D.is_honest D.state g now files old
        → old.log.generation ≡ g → BeginsNextLog D.is_honest D.state D.failures old new
        → (then : FilesNow) × StandsInTurn D.is_honest D.state g now then new × (now_of g then ≡ now_of g files) }
    ensures failed { (g : ℕ) (now : LogNow) (files : FilesNow) (e : Refusal) (old new : StoreLog D) → StandsInTurn D.is_honest D.state g now files old
        → old.log.generation ≡ g → FailsToBeginNextLog D.is_honest D.state D.failures e old new
        → (then : FilesNow) × StandsInTurn D.is_honest D.state g now then new × (now_of g then ≡ now_of g files) }
    ensures refusal { (g : ℕ) (now : LogNow) (files : FilesNow) (e : Refusal) (old new : StoreLog D) → StandsInTurn D.is_honest D.state g now files old
        → old.log.generation ≡ g → FailsToBeginNextLog D.is_honest D.state D.failures e old new → e ≢ refusals.LogCount }
{}

/// Once the older log is given up, its file is spare, and the files are still of the turn. The file of the last log stays. If
/// it fails, the older log may be there or not, and it may be given up again.
pub fn the_older_log_of_a_turn_is_given_up<D: Disk>()
    ensures given_up { (g : ℕ) (now : LogNow) (files : FilesNow) (old new : StoreLog D) → StandsInTurn D.is_honest D.state g now files old
        → old.log.generation ≡ g + 1 → GivesUpOlderLog D.is_honest D.state D.failures old new
        → (then : FilesNow) × StandsInTurn D.is_honest D.state g now then new × (now_of g then ≡ Spare) × (now_of (g + 1) then ≡ now_of (g + 1) files) }
    ensures failed { (g : ℕ) (now : LogNow) (files : FilesNow) (e : Refusal) (old new : StoreLog D) → StandsInTurn D.is_honest D.state g now files old
        → old.log.generation ≡ g + 1 → FailsToGiveUpOlderLog D.is_honest D.state D.failures e old new
        → (then : FilesNow) × StandsInTurn D.is_honest D.state g now then new × (now_of (g + 1) then ≡ now_of (g + 1) files) }
{}

/// If the older file is spare, the next generation is the turn's first one, and the file for the one after it is spare. It
/// may also go back: as long as that file is spare for certain, the turn before is one of the worker's files too. So one
/// generation tells the turn of all workers while their older logs are given up one by one.
pub fn a_turn_goes_on_to_the_next_generation<D: Disk>()
    ensures on { (g : ℕ) (now : LogNow) (files : FilesNow) (log : StoreLog D) → StandsInTurn D.is_honest D.state g now files log → now_of g files ≡ Spare
        → StandsInTurn D.is_honest D.state (g + 1) now files log × (now_of (g + 1 + 1) files ≡ Spare) }
    ensures back { (g : ℕ) (now : LogNow) (files : FilesNow) (log : StoreLog D) → StandsInTurn D.is_honest D.state (g + 1) now files log
        → now_of (g + 1 + 1) files ≡ Spare → log.next_in_doubt ≡ false
        → (then : FilesNow) × StandsInTurn D.is_honest D.state g now then log × (now_of g then ≡ Spare) × (now_of (g + 1) then ≡ now_of (g + 1) files) }
{}

/// Once a recovery has given up the older log, the generation of the last log alone is left: it is the turn's first one, and
/// the file for the next one is spare. The file of the last log stays. So it is whether the older log counted before or not.
/// If it fails, the log is in the turn from the generation before, and its older log may be there or not.
pub fn a_recovery_leaves_one_generation<D: Disk>()
    ensures first { (g : ℕ) (now : LogNow) (files : FilesNow) (old new : StoreLog D) → StandsInTurn D.is_honest D.state g now files old
        → old.log.generation ≡ g → old.next_in_doubt ≡ false → GivesUpOlderLog D.is_honest D.state D.failures old new
        → (then : FilesNow) × StandsInTurn D.is_honest D.state g now then new × (now_of g then ≡ now_of g files) × (now_of (g + 1) then ≡ Spare) }
    ensures next { (g : ℕ) (now : LogNow) (files : FilesNow) (old new : StoreLog D) → StandsInTurn D.is_honest D.state g now files old
        → old.log.generation ≡ g + 1 → GivesUpOlderLog D.is_honest D.state D.failures old new
        → (then : FilesNow) × StandsInTurn D.is_honest D.state (g + 1) now then new × (now_of (g + 1) then ≡ now_of (g + 1) files)
        × (now_of (g + 1 + 1) then ≡ Spare) }
    ensures failed { (g : ℕ) (now : LogNow) (files : FilesNow) (e : Refusal) (old new : StoreLog D) → StandsInTurn D.is_honest D.state (g + 1) now files old
        → old.log.generation ≡ g + 1 → old.next_in_doubt ≡ false
        → FailsToGiveUpOlderLog D.is_honest D.state D.failures e old new
        → (then : FilesNow) × StandsInTurn D.is_honest D.state g now then new × (now_of (g + 1) then ≡ now_of (g + 1) files) }
{}

/// Whatever a crash leaves of the file of the last log, a log is there. It begins by the step at which the whole log ends, if
/// the batches of that join and rise.
pub fn a_last_log_began_by_where_it_ends<D: Disk>()
    ensures { (g : ℕ) (now : LogNow) (files : FilesNow) (log : StoreLog D) → StandsInTurn D.is_honest D.state g now files log → JoinsAndRises now.had
        → (x : Option Contents) → MayLeaveFile (now_of log.log.generation files) x → (c : Contents) × (x ≡ Some c) × (c.start ≤ mark_of now.had) }
{}

/// The three files of a log that was made are those of a log without batches: the plain one has it, and the numbered ones are
/// spare. So it stands in its first turn, if it was made as the log that it is.
pub fn a_log_that_was_made_is_in_its_first_turn<D: Disk>()
    ensures files { (worker count : ℕ) (old new : StoreLog D)
        → IsHonest D.is_honest old.log.files.plain × IsHonest D.is_honest old.log.files.even × IsHonest D.is_honest old.log.files.odd
        → MakesLog D.is_honest D.state D.failures worker count old new
        → AreOfTurn 0 (at_rest (no_batches worker count)) (record { plain = Has (at_rest (no_batches worker count)); even = Spare; odd = Spare })
        × ShowFiles D.is_honest D.state (record { plain = Has (at_rest (no_batches worker count)); even = Spare; odd = Spare }) new.log.files }
    ensures stands { (worker count : ℕ) (old new : StoreLog D)
        → IsHonest D.is_honest old.log.files.plain × IsHonest D.is_honest old.log.files.even × IsHonest D.is_honest old.log.files.odd
        → worker_of old ≡ worker → old.log.owner.logs ≡ count → new.next_in_doubt ≡ false → MakesLog D.is_honest D.state D.failures worker count old new
        → StandsInTurn D.is_honest D.state 0 (at_rest (no_batches worker count))
        (record { plain = Has (at_rest (no_batches worker count)); even = Spare; odd = Spare }) new }
{}

/// A log that was opened stands in its turn. Its last log is the end of the whole one, and the files are those of that, which
/// rests. If the last log is of the turn's first generation, the file for the next one is spare. Else the older one rests.
pub fn a_log_that_was_opened_is_in_its_turn<D: Disk>()
    ensures { (g : ℕ) (whole last : Contents) (files : FilesNow) (log : StoreLog D) → AreOfTurn g (at_rest whole) files
        → ShowFiles D.is_honest D.state files log.log.files → now_of log.log.generation files ≡ Has (at_rest last) → last.generation ≡ log.log.generation
        → EndsLog whole last
        → ((log.log.generation ≡ g) × (now_of (g + 1) files ≡ Spare)) ⊎ ((log.log.generation ≡ g + 1) × Rests (now_of g files))
        → log.next_in_doubt ≡ false → log.kept ≡ None → (log.log.owner.worker ≡ whole.worker) × (log.log.owner.logs ≡ whole.logs)
        → StandsInTurn D.is_honest D.state g (at_rest whole) files log }
{}

/// A log that was made has no batches.
pub fn a_log_that_was_made_is_empty<D: Disk>()
    ensures { (worker count : ℕ) (old new : LogSlot D) → IsHonest D.is_honest old → Makes D.is_honest D.state D.failures worker count (disk_in old) new
        → IsHonest D.is_honest new × Shows D.state (at_rest (no_batches worker count)) new }
{}

/// An opening reads a front that a crash might have left, and brings the log to rest with it. One that fails
/// leaves what a crash might leave before, and is refused for memory or by the device.
pub fn an_opening_comes_to_rest<D: Disk>()
    ensures opened { (now : LogNow) (old new : LogSlot D) (front : Front) → IsHonest D.is_honest old → Shows D.state now old
        → Opens D.is_honest D.state D.failures (disk_in old) new front
        → MayLeaveFront now (contents_of front) × IsHonest D.is_honest new × Shows D.state (at_rest (contents_of front)) new }
    ensures failed { (now : LogNow) (e : Refusal) (old new : LogSlot D) → now.had.generation ≡ 0 → IsHonest D.is_honest old → Shows D.state now old
        → FailsToOpen D.is_honest D.state D.failures e (disk_in old) new
        → IsHonest D.is_honest new × Shows D.state now new × ((number offset : ℕ) → e ≢ refusals.BadLog number offset) }
{}

/// A recovery brings a log to rest with its resume batch, or leaves that in doubt, or the log as it was.
pub fn a_resume_batch_comes_to_rest<D: Disk>()
    ensures resumed { (c : Contents) (kept to : ℕ) (old new : LogSlot D) → IsHonest D.is_honest old → Shows D.state (at_rest c) old
        → to ≤ 2 ^ 59 → HasResumed D.is_honest D.state D.failures kept to old new
        → Rises (Resume (mark_of c) to kept) × IsHonest D.is_honest new × Shows D.state (at_rest (with_batch (Resume (mark_of c) to kept) c)) new }
    ensures failed { (c : Contents) (kept to : ℕ) (e : Refusal) (old new : LogSlot D) → IsHonest D.is_honest old → Shows D.state (at_rest c) old
        → to ≤ 2 ^ 59 → FailsToResume D.is_honest D.state D.failures kept to e old new
        → IsHonest D.is_honest new × (Shows D.state (at_rest c) new
        ⊎ (Rises (Resume (mark_of c) to kept) × Shows D.state (record { had = c; doubt = Some (Resume (mark_of c) to kept) }) new)) }
{}

/// Once a store serves again, its newest checkpoint ends by the step from which the store goes on. Each log goes up to that
/// step. So the newest is settled, and nothing is owed.
pub fn the_checkpoint_that_was_used_is_settled<D: Disk>()
    ensures ends { (accounts : Accounts) (r : Recovered) (generation : ℕ) (old new : List (StoreLog D)) (slots now : StoreSlots D)
        → (is : ServesAgain D.is_honest D.state D.failures accounts r generation old slots new now) → NewestEndsBy (only_these is.found) r.resume now }
    ensures owed { (accounts : Accounts) (r : Recovered) (generation : ℕ) (old new : List (StoreLog D)) (slots now : StoreSlots D)
        → ServesAgain D.is_honest D.state D.failures accounts r generation old slots new now → now.owed ≡ 0 }
{}

/// What is recovered by a second reading is recovered of what was seen first, over disks that keep the rules. If all chains
/// begin at step 0, it is what is recovered of whole logs.
pub fn a_recovery_is_of_what_was_seen<D: Disk>()
    ensures over { (accounts : Accounts) (seen : Slots) (fronts : List Front) (r : Recovered) (logs : List (StoreLog D)) (slots : StoreSlots D)
        → KeepRules D.is_honest D.state D.failures logs slots → IsRecoveredOf (KeepRules D.is_honest D.state D.failures logs slots) accounts seen fronts r
        → IsRecoveredOver (map contents_of fronts) seen r.cutoff r.resume r.used (pairs_of r.pairs.items) }
    ensures whole { (accounts : Accounts) (seen : Slots) (fronts : List Front) (r : Recovered) (logs : List (StoreLog D)) (slots : StoreSlots D)
        → KeepRules D.is_honest D.state D.failures logs slots → IsRecoveredOf (KeepRules D.is_honest D.state D.failures logs slots) accounts seen fronts r
        → BeginBy 0 (map contents_of fronts) → IsRecovered (map contents_of fronts) seen r.cutoff r.resume r.used (pairs_of r.pairs.items) }
{}

/// A crash changes nothing of what a crash may leave.
pub fn a_crash_leaves_what_it_might()
    ensures { (now : LogNow) (image : Bytes) (old new : LogSlot MemDisk) → Shows mem_state now old → IsCrashedOn image (disk_in old) new → Shows mem_state now new }
{}

/// Nor does it change anything of what it may leave of all files of a worker's log.
pub fn a_crash_leaves_of_all_files_what_it_might()
    ensures { (files : FilesNow) (images : FileImages) (old new : StoreLog MemDisk) → ShowFiles (λ (d : MemDisk). true) mem_state files old.log.files
        → IsCrashed images old new → ShowFiles (λ (d : MemDisk). true) mem_state files new.log.files }
{}

/// A checkpoint of format 1 tells no stamps: each of its rows is read with the number of steps before the walk. A
/// recovery that uses it gives each row as it was at the cutoff. The row's stamp is its own, or that number if its own is
/// lower. This asks that up to the end of the walk no change was told of changed columns, as no log of format 1 tells of
/// these. After it both formats may follow.
pub fn an_old_checkpoint_gives_each_row()
    ensures { (k cutoff resume : ℕ) (fronts : List Contents) (read : Slots) (found : Pairs) (c : CheckpointView) (history : List Placed) (key : ℕ × Bytes) →
        RisePlaced 0 history → HasSlot read k c → IsOldBase c.from c.to history c.pairs → AreOldUpto c.to history → TellHistory c.from fronts history →
        IsRecovered fronts read cutoff resume (Some k) found →
        pairs.get found key ≡ option_map (restamped_row (max c.from)) (pairs.get (pairs_upto cutoff history) key) }
{}
