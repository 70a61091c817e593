//! Laws of numbered files and of a worker's files, each the contract of a function that does nothing.

ghost use Rattle.std.specs.{Prelude.{◌≡◌, ◌≢◌, ◌+◌, ◌<◌, ◌≤◌, ℕ, [], List, Option, Some, None}, Option.option_map, List.AllZip};
ghost use Rattle.mt_rows.specs.declared.refusal.Refusal.{Refusal};
ghost use Rattle.mt_rows.specs.declared.refusal.Refusal.TheVariants as refusals;
ghost use Rattle.mt_log_generations.specs.{Headers.{IsHeader, parity_of}, declared.header.{Header.Header, Parity.Parity}};
ghost use Rattle.mt_log.specs.{declared.batch.Front.Front, declared.log_file.LogFile.LogFile, Contents.{Contents, contents_of}, Numbered.begun_log};
ghost use Rattle.mt_log.specs.declared.batch.LogBatch.{LogBatch};
ghost use Rattle.mt_crashes.specs.{Bases.Slots, Stores.{Store, LogNow, new_store, Leads, at_rest, MayLeaveFront, MayLeaveFronts, MayLeaveSlots}};
ghost use Rattle.mt_generations.specs.{Chains.EndsLog, Standings.{IsChosen, IsPart}, Turns.StandsWhole};
ghost use Rattle.mt_recover.specs.declared.resuming.LogSlot.{LogSlot};
ghost use Rattle.mt_log_files.specs.Slots.{disk_in, OpensNumbered, FailsToOpenNumbered, Begins, NotBegun, FindsNotSpare, GivesUp, NotGivenUp};
ghost use Rattle.mt_log_files.specs.{Shows.IsHonest, Files.{FileNow, Spare, Has, MayHave, MayLeaveFile, found_as, ShowsFile, TellsLog}};
ghost use Rattle.mt_log_files.specs.Looks.{Looks, FailsToLook};
ghost use Rattle.mt_log_files.specs.Workers.{AreFilesOf, Files, Found, AllHaveFiles, MayLeaveFiles, standings_of};

use mt_disk::Disk;

/// An opening of a numbered file finds what a crash might have left, and the file is as it was found. One that fails leaves
/// what a crash might leave before, and the file is never a bad log.
pub fn an_opening_finds_what_might_be_left<D: Disk>()
    ensures opened { (parity : Parity) (file : FileNow) (old new : LogSlot D) (found : Option Front) → IsHonest D.is_honest old
        → ShowsFile D.state parity file old → OpensNumbered D.is_honest D.state D.failures parity (disk_in old) new found
        → MayLeaveFile file (option_map contents_of found) × IsHonest D.is_honest new × ShowsFile D.state parity (found_as (option_map contents_of found)) new }
    ensures failed { (parity : Parity) (file : FileNow) (e : Refusal) (old new : LogSlot D) → IsHonest D.is_honest old
        → ShowsFile D.state parity file old → FailsToOpenNumbered D.is_honest D.state D.failures parity e (disk_in old) new
        → IsHonest D.is_honest new × ShowsFile D.state parity file new × ((number offset : ℕ) → e ≢ refusals.BadLog number offset) }
{}

/// A file is as it was after its header was read, or could not be read. If the header tells a generation, a crash may leave
/// the log of that generation. It rests in the file if no batch of it is in doubt.
pub fn a_header_tells_the_log_that_might_be_left<D: Disk>()
    ensures told { (parity : Parity) (file : FileNow) (old new : LogSlot D) (told : ℕ) → IsHonest D.is_honest old
        → ShowsFile D.state parity file old → Looks D.is_honest D.state D.failures (disk_in old) new told
        → IsHonest D.is_honest new × ShowsFile D.state parity file new × (0 < told → TellsLog D.state parity file told new) }
    ensures failed { (parity : Parity) (file : FileNow) (old new : LogSlot D) → IsHonest D.is_honest old
        → ShowsFile D.state parity file old → FailsToLook D.is_honest D.state D.failures (disk_in old) new
        → IsHonest D.is_honest new × ShowsFile D.state parity file new }
{}

/// A log that was begun in a spare file is there, without batches. If its beginning failed, it may be there or not. A spare
/// file is never found not to be one.
pub fn a_log_is_begun_in_a_spare_file<D: Disk>()
    ensures begun { (parity : Parity) (h : Header) (old new : LogSlot D) → IsHeader h → parity_of h.generation ≡ parity → IsHonest D.is_honest old
        → ShowsFile D.state parity Spare old → Begins D.is_honest D.state D.failures h (disk_in old) new
        → IsHonest D.is_honest new × ShowsFile D.state parity (Has (at_rest (begun_log h))) new }
    ensures failed { (parity : Parity) (h : Header) (old new : LogSlot D) → IsHeader h → parity_of h.generation ≡ parity → IsHonest D.is_honest old
        → ShowsFile D.state parity Spare old → NotBegun D.is_honest D.state D.failures h (disk_in old) new
        → IsHonest D.is_honest new × ShowsFile D.state parity (MayHave (begun_log h)) new }
    ensures never_refused { (parity : Parity) (old new : LogSlot D) → IsHonest D.is_honest old
        → ShowsFile D.state parity Spare old → ¬ FindsNotSpare D.is_honest D.state D.failures (disk_in old) new }
{}

/// A file that was given up is spare, whatever it was. If that failed, a log that was open may be there or not.
pub fn a_file_is_given_up<D: Disk>()
    ensures spare { (parity : Parity) (old new : LogSlot D) → IsHonest D.is_honest old
        → GivesUp D.is_honest D.state D.failures (disk_in old) new → IsHonest D.is_honest new × ShowsFile D.state parity Spare new }
    ensures failed { (parity : Parity) (c : Contents) (log : LogFile D) (new : LogSlot D) → IsHonest D.is_honest (LogSlot.Open log)
        → ShowsFile D.state parity (Has (at_rest c)) (LogSlot.Open log) → NotGivenUp D.is_honest D.state D.failures (Some log.disk) new
        → IsHonest D.is_honest new × ShowsFile D.state parity (MayHave c) new }
    ensures failed_again { (parity : Parity) (c : Contents) (disk : D) (new : LogSlot D) → IsHonest D.is_honest (LogSlot.Closed disk)
        → ShowsFile D.state parity (MayHave c) (LogSlot.Closed disk) → NotGivenUp D.is_honest D.state D.failures (Some disk) new
        → IsHonest D.is_honest new × ShowsFile D.state parity (MayHave c) new }
{}

/// The files of a worker are those of its log at each moment of a turn. Its first log. The next log being begun, and
/// begun. A batch being appended to the last log, or known to be there or not. The older log being given up, and given up;
/// and then the next generation is the first one.
pub fn the_files_are_those_of_the_log_throughout_a_turn()
    ensures whole { (now : LogNow) → AreFilesOf 0 now (Has now) Spare }
    ensures begun { (g : ℕ) (now : LogNow) (first : FileNow) (c : Contents) → now.doubt ≡ None → IsPart now.had now.had.batches [] c
        → AreFilesOf g now first Spare → AreFilesOf g now first (MayHave c) }
    ensures settled { (g : ℕ) (now : LogNow) (first : FileNow) (c : Contents) → AreFilesOf g now first (MayHave c) → AreFilesOf g now first (Has (at_rest c)) }
    ensures appends_next { (g : ℕ) (log next : Contents) (first : FileNow) (b : LogBatch) → AreFilesOf g (at_rest log) first (Has (at_rest next))
        → AreFilesOf g (record { had = log; doubt = Some b }) first (Has (record { had = next; doubt = Some b })) }
    ensures appends_first { (g : ℕ) (log first : Contents) (b : LogBatch) → AreFilesOf g (at_rest log) (Has (at_rest first)) Spare
        → AreFilesOf g (record { had = log; doubt = Some b }) (Has (record { had = first; doubt = Some b })) Spare }
    ensures known { (g : ℕ) (now : LogNow) (first next : FileNow) (x y : Option Contents) → AreFilesOf g now first next → MayLeaveFile first x
        → MayLeaveFile next y → (log : Contents) × MayLeaveFront now log × AreFilesOf g (at_rest log) (found_as x) (found_as y) }
    ensures giving_up { (g : ℕ) (now : LogNow) (c : Contents) (next : FileNow) → AreFilesOf g now (Has (at_rest c)) next → AreFilesOf g now (MayHave c) next }
    ensures given_up { (g : ℕ) (now : LogNow) (c : Contents) (next : FileNow) → AreFilesOf g now (MayHave c) next → AreFilesOf g now Spare next }
    ensures turned { (g : ℕ) (now next : LogNow) → AreFilesOf g now Spare (Has next) → AreFilesOf (g + 1) now (Has next) Spare }
{}

/// Whatever a crash leaves of all workers' files, at any moments of a turn: there are chains to recover from, which are the
/// ends of whole logs that a crash might have left. One generation has to stand whole.
pub fn whatever_is_left_of_the_files_is_enough()
    ensures { (g count n h : ℕ) (s : Store) (files : List Files) (found : List Found) (read : Slots) →
        0 < count → count ≤ 64 → Leads n (new_store count) s → AllHaveFiles g s.logs files → MayLeaveFiles files found → MayLeaveSlots s.slots read →
        StandsWhole h s (standings_of g found) →
        (fronts : List Contents) × MayLeaveFronts s.logs fronts
        × ((m : ℕ) × (chains : List Contents) × IsChosen (standings_of g found) read m chains × AllZip EndsLog fronts chains) }
{}
