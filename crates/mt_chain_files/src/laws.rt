//! Laws of the log files of a store, each the contract of a function that does nothing.

ghost use Rattle.std.specs.{Prelude.{◌≡◌, ◌≢◌, ◌⊎◌, ◌+◌, ◌<◌, ◌≤◌, ℕ, Bool, true, List, length, map, Option, Some, None, slice_get}, List.AllZip};
ghost use Rattle.mt_rows.specs.{Tenants.{Contents as Pairs}};
ghost use Rattle.mt_rows.specs.declared.refusal.Refusal.TheVariants as refusals;
ghost use Rattle.mt_log.specs.{declared.batch.Front.Front, Contents.contents_of};
ghost use Rattle.mt_chain_files.specs.Rereads.{reader_from, AreHonest, AllAreRead, PlainStay, ChainIsAhead};
ghost use Rattle.mt_crashes.specs.{Histories.pairs_upto, Bases.Slots, Stores.{Store, LogNow, new_store, Leads, MayLeaveSlots}};
ghost use Rattle.mt_generations.specs.Chains.{IsRecoveredOver};
ghost use Rattle.mt_chains.specs.Files.{standing_of};
ghost use Rattle.mt_log_files.specs.{declared.worker.WorkerFiles.WorkerFiles, Files.{Spare, Has}};
ghost use Rattle.mt_chain_files.specs.{declared.fault.FilesFault.FilesFault, declared.opening.Chains.Chains};
ghost use Rattle.mt_chain_files.specs.{Plain.IsGivenUpAt, Chosen.{NeedPlain, StopsAtPlain, RefusesFiles, OpensChains, StopsChains}, Lasts.AreOpenAtTheirEnds, Turns.{FilesNow, now_of, AreOfTurn, StaysWhole, ShowFiles, ComeToRest, StayTheirs}};

use mt_disk::Disk;

/// The last log of each worker is open after all files were, over any disk. It is the one of the next generation, if the
/// worker is told to have begun that, and else the one of the generation of the chains. It ends where the worker's chain
/// does. There are as many places as before, and a chain for each worker.
pub fn each_last_log_is_open_at_its_end<D: Disk>()
    ensures { (slots : Slots) (old new : List (WorkerFiles D)) (chains : Chains) → OpensChains D.is_honest D.state D.failures slots old new chains →
        AreOpenAtTheirEnds chains new × (length new ≡ length old) × (length chains.fronts.items ≡ length old) × (length chains.begun.items ≡ length old) }
{}

/// A store's own log files, over disks that keep the rules, at any moment of a turn. If they are opened, the chains are the
/// ends of whole logs that a crash might have left, so a recovery from them gives what the history says. The chains tell
/// which file has each worker's last log. If the files are not opened, the device failed, or there was no memory, and the
/// call may be made again. One generation has to stand whole, whatever a crash leaves.
pub fn files_of_a_store_are_never_refused<D: Disk>()
    ensures opened { (g count n h : ℕ) (s : Store) (files : List FilesNow) (slots : Slots) (old new : List (WorkerFiles D)) (chains : Chains) →
        0 < count → count ≤ 64 → Leads n (new_store count) s → AllZip (AreOfTurn g) s.logs files → MayLeaveSlots s.slots slots → StaysWhole g h s files →
        AllZip (ShowFiles D.is_honest D.state) files old → OpensChains D.is_honest D.state D.failures slots old new chains →
        ComeToRest D.is_honest D.state g files s.logs new chains }
    ensures recovered { (g count n h : ℕ) (s : Store) (files : List FilesNow) (slots : Slots) (old new : List (WorkerFiles D)) (chains : Chains)
        (cutoff resume : ℕ) (used : Option ℕ) (found : Pairs) →
        0 < count → count ≤ 64 → Leads n (new_store count) s → AllZip (AreOfTurn g) s.logs files → MayLeaveSlots s.slots slots → StaysWhole g h s files →
        AllZip (ShowFiles D.is_honest D.state) files old → OpensChains D.is_honest D.state D.failures slots old new chains →
        IsRecoveredOver (map contents_of chains.fronts.items) slots cutoff resume used found → found ≡ pairs_upto cutoff s.history }
    ensures failed { (g count n h : ℕ) (s : Store) (files : List FilesNow) (slots : Slots) (old new : List (WorkerFiles D)) (e : FilesFault) →
        0 < count → count ≤ 64 → Leads n (new_store count) s → AllZip (AreOfTurn g) s.logs files → MayLeaveSlots s.slots slots → StaysWhole g h s files →
        AllZip (ShowFiles D.is_honest D.state) files old → StopsChains D.is_honest D.state D.failures slots e old new →
        ((e.refusal ≡ refusals.Memory) ⊎ (e.refusal ≡ refusals.Device)) × StayTheirs D.is_honest D.state g h s new }
{}

/// The files of a store whose first logs stand in plain files are of its first turn. Once the older log of a worker is
/// given up and the next one is there, its files are of the turn after that.
pub fn one_turn_follows_another()
    ensures first { (now : LogNow) → now.had.generation ≡ 0 → AreOfTurn 0 now (record { plain = Has now; even = Spare; odd = Spare }) }
    ensures next { (g : ℕ) (now next : LogNow) (files : FilesNow) → AreOfTurn g now files → now_of g files ≡ Spare → now_of (g + 1) files ≡ Has next →
        AreOfTurn (g + 1) now files }
{}

/// A plain file that was given up is no log, over a disk that keeps the rules. If plain files are needed, and one of them is
/// such a file, there are no chains. Then all that is told is `LogCount`, or that there is no memory. The file is never told
/// to be a bad log.
pub fn a_plain_file_that_was_given_up_is_no_log<D: Disk>()
    ensures opened { (place : ℕ) (slots : Slots) (old new : List (WorkerFiles D)) (chains : Chains) → IsGivenUpAt D.is_honest D.state D.failures place old →
        (o : OpensChains D.is_honest D.state D.failures slots old new chains) → ¬ NeedPlain (map standing_of o.reads.first) slots }
    ensures refused { (place : ℕ) (slots : Slots) (e : FilesFault) (old new : List (WorkerFiles D)) → IsGivenUpAt D.is_honest D.state D.failures place old →
        (r : RefusesFiles D.is_honest D.state D.failures slots e old new) → NeedPlain (map standing_of r.reads.first) slots →
        (e ≡ record { log = None; refusal = refusals.LogCount }) ⊎ (e ≡ record { log = None; refusal = refusals.Memory }) }
    ensures never_bad { (place : ℕ) (slots : Slots) (e : FilesFault) (old new : List (WorkerFiles D)) (number offset : ℕ) → IsGivenUpAt D.is_honest D.state D.failures place old →
        StopsAtPlain D.is_honest D.state D.failures slots e old new → e.log ≡ Some place → e.refusal ≢ refusals.BadLog number offset }
{}

/// What was opened stays opened when its logs are only read again. Of chains that begin at a numbered generation no plain file
/// is read. Also if a reading fails, the files show what they showed.
pub fn what_is_read_again_stays_opened<D: Disk>()
    ensures opened { (slots : Slots) (old mid new : List (WorkerFiles D)) (chains : Chains) → AllAreRead D.is_honest D.state D.failures true mid new →
        (0 < chains.generation → PlainStay mid new) → OpensChains D.is_honest D.state D.failures slots old mid chains →
        OpensChains D.is_honest D.state D.failures slots old new chains }
    ensures shows { (well : Bool) (files : List FilesNow) (old new : List (WorkerFiles D)) → AllAreRead D.is_honest D.state D.failures well old new →
        AllZip (ShowFiles D.is_honest D.state) files old → AllZip (ShowFiles D.is_honest D.state) files new }
{}

/// Over disks that keep the rules each worker's chain can be read again whole: a reader that begins with it gives its batches.
pub fn each_chain_can_be_read_again<D: Disk>()
    ensures { (slots : Slots) (old new : List (WorkerFiles D)) (chains : Chains) → OpensChains D.is_honest D.state D.failures slots old new chains →
        (k : ℕ) (front : Front) (files : WorkerFiles D) (begun : Bool) → slice_get chains.fronts.items k ≡ Some front → slice_get new k ≡ Some files →
        slice_get chains.begun.items k ≡ Some begun → AreHonest D.is_honest files →
        ChainIsAhead D.is_honest D.state (contents_of front).batches files (reader_from chains.generation (Some begun)) }
{}
