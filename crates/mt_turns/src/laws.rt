//! Laws of a worker's log in a turn, each the contract of a function that does nothing.

ghost use Rattle.std.specs.Prelude.{◌≡◌, ◌≢◌, ◌⊎◌, ◌+◌, ◌^◌, ◌≤◌, ℕ};
ghost use Rattle.mt_rows.specs.declared.refusal.Refusal.{Refusal};
ghost use Rattle.mt_rows.specs.declared.refusal.Refusal.TheVariants as refusals;
ghost use Rattle.mt_log_generations.specs.Headers.{parity_of};
ghost use Rattle.mt_log.specs.{declared.log_file.LogFile.LogFile, Contents.{Contents, mark_of}};
ghost use Rattle.mt_crashes.specs.Stores.{LogNow, at_rest};
ghost use Rattle.mt_recover.specs.declared.resuming.LogSlot.{LogSlot};
ghost use Rattle.mt_log_files.specs.Slots.{disk_in, file_of, GivesUp, NotGivenUp};
ghost use Rattle.mt_log_files.specs.{Shows.IsHonest, Files.{FileNow, Spare, Has, MayHave, ShowsFile}, Workers.AreFilesOf};
ghost use Rattle.mt_turns.specs.{declared.worker_log.WorkerLog.WorkerLog, Logs.{last_of, ReplacesLast}};
ghost use Rattle.mt_turns.specs.Turns.{IsSpent, BeginsNext, NextNotBegun, FailsToBeginNext, OnOlder, GivesUpOlder, FailsToGiveUpOlder};
ghost use Rattle.mt_turns.specs.Shows.{AreOfOneWorker, next_log, IsOf, ShowsOf, ShowsWorker, LeavesMeanwhile};

use mt_disk::Disk;

/// At rest the last log ends where the whole log does. So an open one does not end past the last step, and only the last
/// generation has none after it.
pub fn the_last_log_ends_where_the_whole_one_does<D: Disk>()
    ensures ends { (g : ℕ) (log first : Contents) (worker : WorkerLog D) →
        ShowsWorker D.is_honest D.state g (at_rest log) (Has (at_rest first)) Spare worker → mark_of first ≡ mark_of log }
    ensures mark { (log first : Contents) (worker : WorkerLog D) (file : LogFile D) →
        ShowsWorker D.is_honest D.state worker.generation (at_rest log) (Has (at_rest first)) Spare worker →
        last_of worker ≡ LogSlot.Open file → file.mark ≡ mark_of log }
    ensures spent { (log first : Contents) (worker : WorkerLog D) →
        ShowsWorker D.is_honest D.state worker.generation (at_rest log) (Has (at_rest first)) Spare worker → IsSpent worker → worker.generation ≡ 2 ^ 59 }
{}

/// The next log is begun where the whole log ends: both files are those of the whole log then. If that failed, the next log may
/// be there or not, or nothing has changed. Its file is never found not to be spare. At each moment of the call a crash leaves
/// the next log or none, and the last one.
pub fn the_next_log_is_begun<D: Disk>()
    ensures begun { (log first : Contents) (old new : WorkerLog D) →
        ShowsWorker D.is_honest D.state old.generation (at_rest log) (Has (at_rest first)) Spare old → BeginsNext D.is_honest D.state D.failures old new →
        ShowsWorker D.is_honest D.state old.generation (at_rest log) (Has (at_rest first)) (Has (at_rest (next_log old.generation log))) new }
    ensures failed { (log first : Contents) (e : Refusal) (old new : WorkerLog D) →
        ShowsWorker D.is_honest D.state old.generation (at_rest log) (Has (at_rest first)) Spare old → FailsToBeginNext D.is_honest D.state D.failures e old new →
        (new ≡ old) ⊎ ShowsWorker D.is_honest D.state old.generation (at_rest log) (Has (at_rest first)) (MayHave (next_log old.generation log)) new }
    ensures refusal { (log first : Contents) (e : Refusal) (old new : WorkerLog D) →
        ShowsWorker D.is_honest D.state old.generation (at_rest log) (Has (at_rest first)) Spare old → FailsToBeginNext D.is_honest D.state D.failures e old new →
        e ≢ refusals.LogCount }
    ensures meanwhile { (log first : Contents) (old new : WorkerLog D) →
        ShowsWorker D.is_honest D.state old.generation (at_rest log) (Has (at_rest first)) Spare old →
        BeginsNext D.is_honest D.state D.failures old new ⊎ NextNotBegun D.is_honest D.state D.failures old new →
        LeavesMeanwhile D.state (next_log old.generation log) (file_of (old.generation + 1) old.files) (file_of (old.generation + 1) new.files)
        × (disk_in (file_of old.generation new.files) ≡ disk_in (file_of old.generation old.files))
        × AreFilesOf old.generation (at_rest log) (Has (at_rest first)) (MayHave (next_log old.generation log)) }
{}

/// The older log is given up, whatever has become of the next one. Its file is spare then, so the next generation is the first
/// one, and the worker may begin another log. If that failed, the older log may be there or not, and is given up again. At each
/// moment of the call a crash leaves the older log or none, and what it might leave of the next one.
pub fn the_older_log_is_given_up<D: Disk>()
    ensures given_up { (g : ℕ) (now next : LogNow) (first : Contents) (old new : WorkerLog D) → old.generation ≡ g + 1 →
        ShowsWorker D.is_honest D.state g now (Has (at_rest first)) (Has next) old → GivesUpOlder D.is_honest D.state D.failures old new →
        ShowsWorker D.is_honest D.state g now Spare (Has next) new × ShowsWorker D.is_honest D.state (g + 1) now (Has next) Spare new }
    ensures given_up_again { (g : ℕ) (now next : LogNow) (first : Contents) (old new : WorkerLog D) → old.generation ≡ g + 1 →
        ShowsWorker D.is_honest D.state g now (MayHave first) (Has next) old → GivesUpOlder D.is_honest D.state D.failures old new →
        ShowsWorker D.is_honest D.state g now Spare (Has next) new × ShowsWorker D.is_honest D.state (g + 1) now (Has next) Spare new }
    ensures failed { (g : ℕ) (now next : LogNow) (first : Contents) (file : LogFile D) (e : Refusal) (old new : WorkerLog D) → old.generation ≡ g + 1 →
        file_of g old.files ≡ LogSlot.Open file → ShowsWorker D.is_honest D.state g now (Has (at_rest first)) (Has next) old →
        FailsToGiveUpOlder D.is_honest D.state D.failures e old new → ShowsWorker D.is_honest D.state g now (MayHave first) (Has next) new }
    ensures failed_again { (g : ℕ) (now next : LogNow) (first : Contents) (e : Refusal) (old new : WorkerLog D) → old.generation ≡ g + 1 →
        ShowsWorker D.is_honest D.state g now (MayHave first) (Has next) old → FailsToGiveUpOlder D.is_honest D.state D.failures e old new →
        ShowsWorker D.is_honest D.state g now (MayHave first) (Has next) new }
    ensures meanwhile { (g : ℕ) (now next : LogNow) (first : Contents) (file : LogFile D) (old new : WorkerLog D) → old.generation ≡ g + 1 →
        file_of g old.files ≡ LogSlot.Open file → ShowsWorker D.is_honest D.state g now (Has (at_rest first)) (Has next) old →
        OnOlder (GivesUp D.is_honest D.state D.failures) old new
        ⊎ OnOlder (NotGivenUp D.is_honest D.state D.failures) old new →
        LeavesMeanwhile D.state first (file_of g old.files) (file_of g new.files) × (file_of (g + 1) new.files ≡ file_of (g + 1) old.files)
        × AreFilesOf g now (MayHave first) (Has next) }
    ensures meanwhile_again { (g : ℕ) (now next : LogNow) (first : Contents) (old new : WorkerLog D) → old.generation ≡ g + 1 →
        ShowsWorker D.is_honest D.state g now (MayHave first) (Has next) old →
        OnOlder (GivesUp D.is_honest D.state D.failures) old new
        ⊎ OnOlder (NotGivenUp D.is_honest D.state D.failures) old new →
        LeavesMeanwhile D.state first (file_of g old.files) (file_of g new.files) × (file_of (g + 1) new.files ≡ file_of (g + 1) old.files)
        × AreFilesOf g now (MayHave first) (Has next) }
{}

/// The last log is appended to, or opened again, at its place. If its file and the other one are those of what has become of the
/// whole log, that is what the worker shows.
pub fn the_last_log_has_another_place<D: Disk>()
    ensures first { (g : ℕ) (now then : LogNow) (file first next : FileNow) (old new : WorkerLog D) (slot : LogSlot D) → old.generation ≡ g →
        ReplacesLast slot old new → AreOfOneWorker now then → ShowsWorker D.is_honest D.state g now file next old → ShowsOf D.is_honest D.state g first slot →
        AreFilesOf g then first next → ShowsWorker D.is_honest D.state g then first next new }
    ensures next { (g : ℕ) (now then : LogNow) (first file next : FileNow) (old new : WorkerLog D) (slot : LogSlot D) → old.generation ≡ g + 1 →
        ReplacesLast slot old new → AreOfOneWorker now then → ShowsWorker D.is_honest D.state g now first file old → ShowsOf D.is_honest D.state (g + 1) next slot →
        AreFilesOf g then first next → ShowsWorker D.is_honest D.state g then first next new }
{}

/// What the place of a numbered file shows here is what it shows as the file of its parity.
pub fn a_numbered_file_shows_the_same<D: Disk>()
    ensures numbered { (g : ℕ) (file : FileNow) (slot : LogSlot D) → 1 ≤ g → ShowsOf D.is_honest D.state g file slot → ShowsFile D.state (parity_of g) file slot }
    ensures back { (g : ℕ) (file : FileNow) (slot : LogSlot D) → IsHonest D.is_honest slot → IsOf g file → ShowsFile D.state (parity_of g) file slot →
        ShowsOf D.is_honest D.state g file slot }
{}
