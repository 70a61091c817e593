//! A worker's log over its files, and the parts of a turn.

ghost use Rattle.std.specs.Prelude.{◌≡◌, ◌<◌, ◌≤◌, IfErr, IfOk, OnOk};
ghost use Rattle.mt_turns.specs.Logs.{last_of, mark_in, IsWith, ReplacesLast};
ghost use Rattle.mt_turns.specs.Turns.{IsNextHeader, HasNoNext, BeginsNext, FailsToBeginNext, GivesUpOlder, FailsToGiveUpOlder};

use crate::by_generation::{begin_in, close_in, file, give_up_in};
use crate::log_owner::LogOwner;
use mt_disk::Disk;
use mt_gates::BeginFault;
use mt_log_files::WorkerFiles;
use mt_log_generations::Header;
use mt_recover::LogSlot;
use mt_rows::Refusal;

// The last generation, and the last step.
const MAX_STEP: u64 = 1 << 59;

/// A worker's log over its three files. The last log of its chain is that of `generation`, and is the one that is appended to.
#[derive(Drop)]
pub struct WorkerLog<D: Disk> {
    owner: LogOwner,
    generation: u64,
    files: WorkerFiles<D>,
}

impl<D: Disk + Drop> WorkerLog<D> {
    /// The log of a worker, one of 1 to 64, whose last generation is this one.
    pub fn new(worker: u8, logs: u8, generation: u64, files: WorkerFiles<D>) -> Self
        requires whose { worker < logs }
        requires few { logs ≤ 64 }
        ensures { IsWith worker logs generation files result }
    {
        WorkerLog {
            owner: LogOwner { worker, logs },
            generation,
            files,
        }
    }

    /// Whose log it is.
    pub fn worker(&self) -> u8
        ensures { result ≡ self.now.owner.worker }
    {
        self.owner.worker
    }

    /// Of how many logs it is one.
    pub fn logs(&self) -> u8
        ensures { result ≡ self.now.owner.logs }
    {
        self.owner.logs
    }

    /// The last generation of which it has a log.
    pub fn generation(&self) -> u64
        ensures { result ≡ self.now.generation }
    {
        self.generation
    }

    /// The places of its files.
    pub fn files(&self) -> &WorkerFiles<D>
        ensures { result.now ≡ self.now.files }
    {
        &self.files
    }

    /// The places of its files.
    pub fn into_files(self) -> WorkerFiles<D>
        ensures { result ≡ self.files }
    {
        self.files
    }

    /// The place of the log of the last generation, which is appended to.
    pub fn last(&self) -> &LogSlot<D>
        ensures { result.now ≡ last_of self.now }
    {
        file(&self.files, self.generation)
    }

    /// Puts another place for it, and gives what was there.
    pub fn replace_last(&mut self, slot: LogSlot<D>) -> LogSlot<D>
        ensures was { result ≡ last_of self.old }
        ensures is { ReplacesLast slot self.old self.new }
    {
        self.files.replace(self.generation, slot)
    }

    /// The step up to which the last log goes, if it is open.
    pub fn mark(&self) -> Option<u64>
        ensures { result ≡ mark_in (last_of self.now) }
    {
        match self.last() {
            LogSlot::Open(log) => Some(log.mark()),
            LogSlot::Failed(_) | LogSlot::Closed(_) | LogSlot::Away => None,
        }
    }

    /// Begins the log of the next generation where the last one ends, in its file, which has to be spare. That log is the
    /// last one then.
    ///
    /// The error is `Device` if the last log isn't open, and `Spent` after generation 2^59 or step 2^59. Then nothing has
    /// changed. It is `Device` too if the disk of the next log failed: that log may be there or not. So the last one is
    /// closed, and nothing is appended to it before both files were opened again. It is `LogCount` if the file isn't spare:
    /// that file is closed then, and no file has changed.
    pub fn begin_next(&mut self) -> Result<(), Refusal>
        ensures ok { OnOk result (BeginsNext D.is_honest D.state D.failures self.old self.new) }
        ensures err { IfErr result (λ e. FailsToBeginNext D.is_honest D.state D.failures e self.old self.new) }
    {
        let header = self.next_header()?;
        match begin_in(&mut self.files, header) {
            Ok(()) => {
                self.generation = header.generation;
                Ok(())
            }
            Err(BeginFault::Device) => {
                close_in(&mut self.files, self.generation);
                Err(Refusal::Device)
            }
            Err(BeginFault::NotShut) => Err(Refusal::LogCount),
        }
    }

    // The header of the next log, which begins where the last one ends.
    fn next_header(&self) -> Result<Header, Refusal>
        ensures ok { IfOk result (λ header. IsNextHeader header self.now) }
        ensures err { IfErr result (λ e. HasNoNext e self.now) }
    {
        match self.mark() {
            Some(start) if self.generation < MAX_STEP && start <= MAX_STEP => Ok(Header {
                worker: self.owner.worker,
                logs: self.owner.logs,
                generation: self.generation + 1,
                start,
            }),
            Some(_) => Err(Refusal::Spent),
            None => Err(Refusal::Device),
        }
    }

    /// Gives up the file of the generation before the last one, whatever its place is. It is spare then. There is none before
    /// generation 0.
    ///
    /// An error is `Device`: that log may be there or not, its place is closed, and the call may be made again.
    pub fn give_up_older(&mut self) -> Result<(), Refusal>
        ensures ok { OnOk result (GivesUpOlder D.is_honest D.state D.failures self.old self.new) }
        ensures err { IfErr result (λ e. FailsToGiveUpOlder D.is_honest D.state D.failures e self.old self.new) }
    {
        if self.generation == 0 {
            return Ok(());
        }
        give_up_in(&mut self.files, self.generation - 1).map_err(|_| Refusal::Device)
    }
}
