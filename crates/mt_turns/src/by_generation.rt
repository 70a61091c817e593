//! A worker's files, by the generations of the logs that stand in them.

ghost use Rattle.std.specs.Prelude.{◌≡◌, OnOk, OnErr, IfErr};
ghost use Rattle.mt_log_generations.specs.Headers.{IsHeader};
ghost use Rattle.mt_log_files.specs.Slots.{disk_in, file_of, with_file, Begins, FailsToBeginAt, GivesUp, NotGivenUp};
ghost use Rattle.mt_turns.specs.Files.{closed_on, OnFile};

use mt_disk::{DeviceFailed, Disk};
use mt_gates::BeginFault;
use mt_log_files::{WorkerFiles, begin, give_up, take_disk};
use mt_log_generations::Header;
use mt_recover::LogSlot;

/// The place of the file that has a generation's log.
pub(crate) fn file<D: Disk>(files: &WorkerFiles<D>, generation: u64) -> &LogSlot<D>
    ensures { result.now ≡ file_of generation files.now }
{
    if generation == 0 {
        return &files.plain;
    }
    if generation % 2 == 0 {
        &files.even
    } else {
        &files.odd
    }
}

/// Begins a generation's log in its file. At an error its place is closed.
pub(crate) fn begin_in<D: Disk + Drop>(
    files: &mut WorkerFiles<D>,
    header: Header,
) -> Result<(), BeginFault>
    requires { IsHeader header }
    ensures ok { OnOk result (OnFile header.generation (Begins D.is_honest D.state D.failures header) files.old files.new) }
    ensures err { IfErr result (λ e. OnFile header.generation (FailsToBeginAt D.is_honest D.state D.failures e header) files.old files.new) }
{
    let mut slot = files.replace(header.generation, LogSlot::Away);
    let begun = begin(&mut slot, header);
    let _away = files.replace(header.generation, slot);
    begun
}

/// Gives the file of a generation up. Its place is closed then, also at an error.
pub(crate) fn give_up_in<D: Disk + Drop>(
    files: &mut WorkerFiles<D>,
    generation: u64,
) -> Result<(), DeviceFailed>
    ensures ok { OnOk result (OnFile generation (GivesUp D.is_honest D.state D.failures) files.old files.new) }
    ensures err { OnErr result (OnFile generation (NotGivenUp D.is_honest D.state D.failures) files.old files.new) }
{
    let mut slot = files.replace(generation, LogSlot::Away);
    let given_up = give_up(&mut slot);
    let _away = files.replace(generation, slot);
    given_up
}

/// Closes the place of the file of a generation, over its disk as it is.
pub(crate) fn close_in<D: Disk + Drop>(files: &mut WorkerFiles<D>, generation: u64)
    ensures { files.new ≡ with_file generation (closed_on (disk_in (file_of generation files.old))) files.old }
{
    let mut slot = files.replace(generation, LogSlot::Away);
    let closed = closed_place(take_disk(&mut slot));
    let _away = files.replace(generation, closed);
}

// The place of a closed file, empty if there is no disk.
fn closed_place<D: Disk + Drop>(disk: Option<D>) -> LogSlot<D>
    ensures { result ≡ closed_on disk }
{
    disk.map_or(LogSlot::Away, LogSlot::Closed)
}
