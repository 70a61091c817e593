//! What the headers of the numbered files of all workers tell.

ghost use Rattle.std.specs.Prelude.{◌≡◌, ◌≤◌, [], length, vec_capacity, IfOk, OnOk, IfErr, OnErr};
ghost use Rattle.mt_chain_files.specs.Headers.{latest, first_counting, LooksAtWorker, FailsToLookAtWorker, LooksAtFiles, StopsLooking};

use crate::fault::FilesFault;
use mt_disk::{DeviceFailed, Disk};
use mt_log_files::{WorkerFiles, look};
use mt_rows::Refusal;
use std::alloc::Global;

// The greatest generation.
const MAX_GENERATION: u64 = 1 << 59;

/// The generations of the logs in a worker's numbered files, as their headers tell them. A file without a log has 0.
#[derive(Clone, Copy, Debug, PartialEq, Eq)]
pub struct Told {
    pub even: u64,
    pub odd: u64,
}

impl Told {
    // The later one.
    fn latest(self) -> u64
        ensures { result ≡ latest self }
    {
        self.even.max(self.odd)
    }
}

/// From which generation on files count at first: the least of the latest generations of all workers. No later one has a
/// log of each worker.
pub(crate) fn first_counting(told: &[Told]) -> u64
    ensures { result ≡ first_counting told.now }
{
    let mut least = MAX_GENERATION;
    for one in told {
        least = least.min(one.latest());
    }
    least
}

/// Reads the headers of both numbered files of each worker, in the order of the workers. No plain file is touched.
///
/// An error is `Memory` of no worker if there is no room for what they tell: then nothing has changed. Else it is `Device`
/// of the worker with the file that was not read. The files of those after it are as they were. No disk is lost.
pub(crate) fn look_at_files<D: Disk + Drop>(
    alloc: Global,
    files: &mut [WorkerFiles<D>],
) -> Result<Vec<Told>, FilesFault>
    ensures ok { IfOk result (λ told. LooksAtFiles D.is_honest D.state D.failures files.old files.new told.items) }
    ensures err { IfErr result (λ e. StopsLooking D.is_honest D.state D.failures e files.old files.new) }
{
    let mut told = match Vec::with_capacity(alloc, files.len()) {
        Ok(told) => told,
        Err(_) => return Err(FilesFault::of_all(Refusal::Memory)),
    };
    match look_at_all(files, &mut told) {
        Ok(()) => Ok(told),
        Err(fault) => Err(fault),
    }
}

// The same, into a list with room for all.
fn look_at_all<D: Disk + Drop>(
    files: &mut [WorkerFiles<D>],
    told: &mut Vec<Told>,
) -> Result<(), FilesFault>
    requires none { told.old.items ≡ [] }
    requires room { length files.old ≤ vec_capacity told.old }
    ensures ok { OnOk result (LooksAtFiles D.is_honest D.state D.failures files.old files.new told.new.items) }
    ensures err { IfErr result (λ e. StopsLooking D.is_honest D.state D.failures e files.old files.new) }
{
    for place in 0..files.len() {
        match look_at(&mut files[place]) {
            Ok(one) => told.push_reserved(one),
            Err(_) => return Err(FilesFault::at(place, Refusal::Device)),
        }
    }
    Ok(())
}

// Reads both headers of one worker.
fn look_at<D: Disk + Drop>(files: &mut WorkerFiles<D>) -> Result<Told, DeviceFailed>
    ensures ok { IfOk result (LooksAtWorker D.is_honest D.state D.failures files.old files.new) }
    ensures err { OnErr result (FailsToLookAtWorker D.is_honest D.state D.failures files.old files.new) }
{
    let even = look(&mut files.even)?;
    let odd = look(&mut files.odd)?;
    Ok(Told { even, odd })
}
