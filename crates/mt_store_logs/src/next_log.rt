//! The files of a worker's log, taken out and put back, and the file for its next log, which may stand there or not.

ghost use Rattle.std.specs.Prelude.{◌≡◌, ◌⊎◌, ◌+◌, Some, IfOk, OnOk, IfErr};
ghost use Rattle.mt_log_generations.specs.Headers.{parity_of};
ghost use Rattle.mt_log.specs.declared.batch.Front.{Front};
ghost use Rattle.mt_log_files.specs.Slots.{disk_in, file_of, with_file, OpensNumbered, FailsToOpenNumbered};
ghost use Rattle.mt_turns.specs.Logs.{TurnsTo};
ghost use Rattle.mt_store_logs.specs.{Places.no_files, Turns.{FindsNext, FindsNoNext, FailsToFind}};

use crate::store_log::no_files;
use mt_disk::Disk;
use mt_log::Front;
use mt_log_files::{WorkerFiles, open_numbered};
use mt_log_generations::Parity;
use mt_rows::Refusal;
use mt_turns::WorkerLog;
use std::alloc::Global;
use std::mem;

/// Opens the file for the next log again. If it has a log of the next generation, that is the last one then. Else the last
/// one is the same, and no next log was begun. An error closes the file.
pub(crate) fn find_next<D: Disk + Drop>(
    alloc: Global,
    log: &mut WorkerLog<D>,
) -> Result<(), Refusal>
    ensures owner { log.new.owner ≡ log.old.owner }
    ensures ok { OnOk result (FindsNext D.is_honest D.state D.failures log.old log.new ⊎ FindsNoNext D.is_honest D.state D.failures log.old log.new) }
    ensures err { IfErr result (λ e. FailsToFind D.is_honest D.state D.failures e log.old log.new) }
{
    let generation = log.generation();
    let mut files = take_files(log);
    match open_next(alloc, &mut files, generation) {
        Ok(found) => {
            put_files(log, last_with(&found, generation), files);
            Ok(())
        }
        Err(refusal) => {
            put_files(log, generation, files);
            Err(refusal)
        }
    }
}

// The last generation, if this was found in the file for the log after a generation.
fn last_with(found: &Option<Front>, generation: u64) -> u64
    ensures { ((front : Front) × (found.now ≡ Some front) × (front.generation ≡ generation + 1) × (result ≡ generation + 1)) ⊎ (((front : Front) → found.now ≡ Some front → front.generation ≡ generation + 1 → ⊥) × (result ≡ generation)) }
{
    match found {
        Some(front) => {
            if generation < front.generation && front.generation - generation == 1 {
                front.generation
            } else {
                generation
            }
        }
        None => generation,
    }
}

// Opens the file for the log after a generation: the odd file after an even generation, else the even one.
fn open_next<D: Disk + Drop>(
    alloc: Global,
    files: &mut WorkerFiles<D>,
    generation: u64,
) -> Result<Option<Front>, Refusal>
    ensures rest { files.new ≡ with_file (generation + 1) (file_of (generation + 1) files.new) files.old }
    ensures ok { IfOk result (OpensNumbered D.is_honest D.state D.failures (parity_of (generation + 1)) (disk_in (file_of (generation + 1) files.old)) (file_of (generation + 1) files.new)) }
    ensures err { IfErr result (λ e. FailsToOpenNumbered D.is_honest D.state D.failures (parity_of (generation + 1)) e (disk_in (file_of (generation + 1) files.old)) (file_of (generation + 1) files.new)) }
{
    if generation % 2 == 0 {
        open_numbered(alloc, &mut files.odd, Parity::Odd)
    } else {
        open_numbered(alloc, &mut files.even, Parity::Even)
    }
}

/// Takes the files of a worker's log out. It has none then, and its last generation is 0.
pub(crate) fn take_files<D: Disk + Drop>(log: &mut WorkerLog<D>) -> WorkerFiles<D>
    ensures files { result ≡ log.old.files }
    ensures log { TurnsTo 0 no_files log.old log.new }
{
    let away = WorkerLog::new(log.worker(), log.logs(), 0, no_files());
    mem::replace(log, away).into_files()
}

/// Puts other files into a worker's log, of which the last log is of a generation.
pub(crate) fn put_files<D: Disk + Drop>(
    log: &mut WorkerLog<D>,
    generation: u64,
    files: WorkerFiles<D>,
)
    ensures { TurnsTo generation files log.old log.new }
{
    *log = WorkerLog::new(log.worker(), log.logs(), generation, files);
}
