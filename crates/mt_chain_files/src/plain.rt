//! The plain files of all workers, opened.

ghost use Rattle.std.specs.{Prelude.{◌≡◌, Some, length, IfErr, OnOk}, List.AllZip};
ghost use Rattle.mt_chains.specs.Files.{SameNumbered};
ghost use Rattle.mt_chain_files.specs.Plain.{OpensPlainAs, FailsAtPlain, OpensPlainFiles, StopsPlainFiles};

use crate::fault::FilesFault;
use crate::watching::Watch;
use mt_chains::WorkerLogs;
use mt_disk::Disk;
use mt_log_files::{WorkerFiles, open_plain};
use mt_rows::Refusal;
use std::alloc::Global;

/// Opens the plain file of each worker, in their order, and adds its front to what was read of the worker's files. There is
/// none if the file is empty or begins with 00. `watch` is told of each worker whose file was opened.
///
/// An error tells the worker with the file that was not opened, and why. The files of those before it are opened, and
/// those of those after it are as they were. No disk is lost.
pub fn open_plain_files<D: Disk + Drop, W: Watch>(
    alloc: Global,
    files: &mut [WorkerFiles<D>],
    logs: &mut [WorkerLogs],
    watch: &mut W,
) -> Result<(), FilesFault>
    requires { length logs.old ≡ length files.old }
    ensures numbered { AllZip SameNumbered logs.old logs.new }
    ensures ok { OnOk result (OpensPlainFiles D.is_honest D.state D.failures files.old files.new logs.new) }
    ensures err { IfErr result (λ e. StopsPlainFiles D.is_honest D.state D.failures e files.old files.new) }
{
    for place in 0..files.len() {
        if let Err(refusal) = open_plain_file(alloc, &mut files[place], &mut logs[place]) {
            return Err(FilesFault::at(place, refusal));
        }
        watch.opened_plain(place + 1, files.len());
    }
    Ok(())
}

// Opens the plain file of one worker.
fn open_plain_file<D: Disk + Drop>(
    alloc: Global,
    files: &mut WorkerFiles<D>,
    logs: &mut WorkerLogs,
) -> Result<(), Refusal>
    ensures numbered { logs.new.numbered ≡ logs.old.numbered }
    ensures ok { OnOk result (OpensPlainAs D.is_honest D.state D.failures logs.new files.old files.new) }
    ensures err { IfErr result (λ e. FailsAtPlain D.is_honest D.state D.failures e files.old files.new) }
{
    logs.plain = open_plain(alloc, &mut files.plain)?;
    Ok(())
}
