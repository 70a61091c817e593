//! The log of a worker in a running store, and the batch that waits for it.

ghost use Rattle.std.specs.{Prelude.{◌≡◌, ◌↔◌, ◌≢◌, ◌-◌, false, List, None, IsTrue, is_ok, IfOk, IfErr, IfSome, OnOk}, Option.option_map};
ghost use Rattle.mt_log.specs.declared.batch.{LogBatch.{LogBatch as AnyBatch}, ReadBatch.{ReadBatch as AnyRead}};
ghost use Rattle.mt_recover.specs.Sources.{Gives, IsReadable};
ghost use Rattle.mt_chain_files.specs.Rereads.{ChainIsAhead, IsNumbered};
ghost use Rattle.mt_store_logs.specs.Rereads.{LogIsRead};
ghost use Rattle.mt_turns.specs.Logs.{IsWith};
ghost use Rattle.mt_store_logs.specs.Places.{last_log_of, mark_in, slot_of, worker_of, with_last, without_last, no_files, OnLast};
ghost use Rattle.mt_store_logs.specs.Turns.{BeginsNextLog, FailsToBeginNextLog, LooksForNext, FailsToLook, ReopensLog, FailsToReopenLog, GivesUpOlderLog, FailsToGiveUpOlderLog};
ghost use Rattle.mt_store_logs.specs.Standing.{TellsOf};
ghost use Rattle.mt_store_logs.specs.{Kinds.kind_of, FailedFiles.{failed_generation, is_refusal, was_refused_at}};
ghost use Rattle.mt_store_logs.specs.Waits.{Reopens, FailsToReopen};

use crate::failed_file::FailedFile;
use crate::last_log::{LastLog, WaitingBatch};
use crate::next_log::{find_next, put_files, take_files};
use crate::standing::Generations;
use mt_chain_files::ChainReader;
use mt_disk::Disk;
use mt_log::{ReadBatch, ReadFault};
use mt_log_files::WorkerFiles;
use mt_recover::LogSlot;
use mt_rows::Refusal;
use mt_turns::WorkerLog;
use std::alloc::Global;

/// The log of a worker over its three files, and the batch that it keeps. That one was drained, and the log is not known
/// to have it. It goes into the log before any other, and the next one drained begins where it ends. Batches go to the last
/// log of the worker. If a disk failed as the next log was begun, that one may be there or not, and it is looked for before
/// the last one is opened again. No log stands that is older than `oldest`.
#[derive(Drop)]
pub struct StoreLog<D: Disk> {
    log: WorkerLog<D>,
    kept: Option<WaitingBatch>,
    next_in_doubt: bool,
    oldest: u64,
}

impl<D: Disk + Drop> StoreLog<D> {
    /// A worker's log that keeps no batch. Its last log is the one that is told, and none is older.
    pub fn new(log: WorkerLog<D>) -> Self
        ensures log { result.log ≡ log }
        ensures none { result.kept ≡ None }
        ensures sure { result.next_in_doubt ≡ false }
        ensures oldest { result.oldest ≡ log.generation }
    {
        let oldest = log.generation();
        StoreLog {
            log,
            kept: None,
            next_in_doubt: false,
            oldest,
        }
    }

    /// Whose log it is.
    pub fn worker(&self) -> u8
        ensures { result ≡ worker_of self.now }
    {
        self.log.worker()
    }

    /// The last generation of which it has a log.
    pub fn generation(&self) -> u64
        ensures { result ≡ self.now.log.generation }
    {
        self.log.generation()
    }

    /// The last generation of which it has a log, and whether a log of an earlier one may stand.
    pub fn generations(&self) -> Generations
        ensures { TellsOf self.now result }
    {
        let last = self.log.generation();
        Generations {
            last,
            has_older: self.oldest < last,
        }
    }

    /// Its files, and which of them has the last log.
    pub fn log(&self) -> &WorkerLog<D>
        ensures { result.now ≡ self.now.log }
    {
        &self.log
    }

    /// The place of its last log.
    pub fn slot(&self) -> &LogSlot<D>
        ensures { result.now ≡ slot_of self.now }
    {
        self.log.last()
    }

    /// The step up to which its last log goes, if that is open.
    pub fn mark(&self) -> Option<u64>
        ensures { result ≡ mark_in (slot_of self.now) }
    {
        self.log.mark()
    }

    /// Whether a batch is kept.
    pub fn keeps(&self) -> bool
        ensures { IsTrue result ↔ (self.now.kept ≢ None) }
    {
        self.kept.is_some()
    }

    /// The file whose disk failed, if the last call was refused by `Device`: that for the next log as long as that one may be
    /// there or not, else that of the last one. After `give_up_older` it is `older_file`.
    pub fn failed_file(&self) -> FailedFile
        ensures kind { result.kind ≡ kind_of (failed_generation self.now) }
        ensures refused { is_refusal result.error ≡ was_refused_at D.was_refused (failed_generation self.now) self.now.log.files }
    {
        if self.next_in_doubt {
            FailedFile::after(self.log.files(), self.log.generation())
        } else {
            FailedFile::of(self.log.files(), self.log.generation())
        }
    }

    /// The file of the generation before the last one.
    pub fn older_file(&self) -> FailedFile
        ensures kind { result.kind ≡ kind_of (self.now.log.generation - 1) }
        ensures refused { is_refusal result.error ≡ was_refused_at D.was_refused (self.now.log.generation - 1) self.now.log.files }
    {
        FailedFile::of(self.log.files(), self.log.generation().saturating_sub(1))
    }

    // Takes its last log out. Its place is empty then.
    pub(crate) fn take_last(&mut self) -> LastLog<D>
        ensures last { result ≡ last_log_of self.old }
        ensures rest { self.new ≡ without_last self.old }
    {
        let slot = self.log.replace_last(LogSlot::Away);
        LastLog {
            worker: self.log.worker(),
            generation: self.log.generation(),
            slot,
            kept: self.kept.take(),
        }
    }

    // Puts a last log in its place.
    pub(crate) fn put_last(&mut self, last: LastLog<D>)
        ensures { self.new ≡ with_last last self.old }
    {
        let LastLog {
            worker: _,
            generation: _,
            slot,
            kept,
        } = last;
        let _was = self.log.replace_last(slot);
        self.kept = kept;
    }

    /// Opens the log again if it isn't open, and appends the batch that is kept unless the log has it. If the next log may be
    /// there or not, it is looked for first, and it is the last one if it is there.
    ///
    /// An error keeps the batch. Only a `Closed` log is read: a plain file in generation 0, else a numbered one. If that has
    /// no log, the error is `LogCount`. As long as the next log may be there or not, the last one is not opened.
    pub fn reopen(&mut self, alloc: Global) -> Result<(), Refusal>
        ensures worker { worker_of self.new ≡ worker_of self.old }
        ensures ok { OnOk result (ReopensLog D.is_honest D.state D.failures self.old self.new) }
        ensures err { IfErr result (λ e. FailsToReopenLog D.is_honest D.state D.failures e self.old self.new) }
    {
        self.look_for_next(alloc)?;
        self.reopen_last(alloc)
    }

    // Opens the last log again.
    fn reopen_last(&mut self, alloc: Global) -> Result<(), Refusal>
        ensures worker { worker_of self.new ≡ worker_of self.old }
        ensures ok { OnOk result (OnLast (Reopens D.is_honest D.state D.failures) self.old self.new) }
        ensures err { IfErr result (λ e. OnLast (FailsToReopen D.is_honest D.state D.failures e) self.old self.new) }
    {
        let mut last = self.take_last();
        let told = last.reopen(alloc);
        self.put_last(last);
        told
    }

    // Opens the file for the next log again, if that log may be there or not. An error leaves it so.
    fn look_for_next(&mut self, alloc: Global) -> Result<(), Refusal>
        ensures worker { worker_of self.new ≡ worker_of self.old }
        ensures ok { OnOk result (LooksForNext D.is_honest D.state D.failures self.old self.new) }
        ensures err { IfErr result (λ e. FailsToLook D.is_honest D.state D.failures e self.old self.new) }
    {
        if self.next_in_doubt {
            find_next(alloc, &mut self.log)?;
            self.next_in_doubt = false;
        }
        Ok(())
    }

    /// Begins the log of the next generation where the last one ends, in its file, which has to be spare. That log is the last
    /// one then. The error is as `WorkerLog::begin_next` says. If the disk failed in that, the last log is closed, and the next
    /// one may be there or not.
    pub fn begin_next(&mut self) -> Result<(), Refusal>
        ensures worker { worker_of self.new ≡ worker_of self.old }
        ensures ok { OnOk result (BeginsNextLog D.is_honest D.state D.failures self.old self.new) }
        ensures err { IfErr result (λ e. FailsToBeginNextLog D.is_honest D.state D.failures e self.old self.new) }
    {
        let was_open = self.mark().is_some();
        match self.log.begin_next() {
            Ok(()) => {
                self.next_in_doubt = false;
                Ok(())
            }
            Err(Refusal::Device) if was_open => {
                self.next_in_doubt = true;
                Err(Refusal::Device)
            }
            Err(refusal) => Err(refusal),
        }
    }

    /// Gives up the file of the generation before the last one, whatever its place is. It is spare then. There is none before
    /// generation 0. An error is `Device`: that log may be there or not, and the call may be made again.
    pub fn give_up_older(&mut self) -> Result<(), Refusal>
        ensures worker { worker_of self.new ≡ worker_of self.old }
        ensures ok { OnOk result (GivesUpOlderLog D.is_honest D.state D.failures self.old self.new) }
        ensures err { IfErr result (λ e. FailsToGiveUpOlderLog D.is_honest D.state D.failures e self.old self.new) }
    {
        let last = self.log.generation();
        match self.log.give_up_older() {
            Ok(()) => {
                self.oldest = self.oldest.max(last);
                Ok(())
            }
            Err(refusal) => {
                self.oldest = last.saturating_sub(1);
                Err(refusal)
            }
        }
    }

    // The next batch of its chain, read again. An error leaves its files open.
    pub(crate) fn read_again(
        &mut self,
        alloc: Global,
        reader: &mut ChainReader,
    ) -> Result<Option<ReadBatch>, ReadFault>
        ensures ahead { IfOk result (λ given. (batches : List AnyBatch) → ChainIsAhead D.is_honest D.state batches self.old.log.files reader.old
            → Gives (λ rest. ChainIsAhead D.is_honest D.state rest self.new.log.files reader.new) batches (option_map (λ (b : AnyRead). b.batch) given)) }
        ensures format { IfOk result (λ given. IfSome given (λ (b : AnyRead). IsReadable b.batch)) }
        ensures read { LogIsRead D.is_honest D.state D.failures (is_ok result) self.old self.new }
        ensures plain { IsNumbered reader.old → IsNumbered reader.new × (self.new.log.files.plain ≡ self.old.log.files.plain) }
    {
        let generation = self.log.generation();
        let mut files = take_files(&mut self.log);
        let given = reader.read(alloc, &mut files);
        put_files(&mut self.log, generation, files);
        given
    }

    // Takes its files out. It has none then, and keeps no batch.
    pub(crate) fn take_files(&mut self) -> WorkerFiles<D>
        ensures files { result ≡ self.old.log.files }
        ensures log { IsWith (worker_of self.old) self.old.log.owner.logs 0 no_files self.new.log }
        ensures none { self.new.kept ≡ None }
        ensures sure { self.new.next_in_doubt ≡ false }
    {
        self.kept = None;
        self.next_in_doubt = false;
        take_files(&mut self.log)
    }

    // Puts other files in their place, of which the last log is of a generation. The log before it may stand.
    pub(crate) fn put_files(&mut self, generation: u64, files: WorkerFiles<D>)
        ensures log { IsWith (worker_of self.old) self.old.log.owner.logs generation files self.new.log }
        ensures kept { self.new.kept ≡ self.old.kept }
        ensures sure { self.new.next_in_doubt ≡ false }
        ensures oldest { self.new.oldest ≡ generation - 1 }
    {
        self.next_in_doubt = false;
        self.oldest = generation.saturating_sub(1);
        put_files(&mut self.log, generation, files);
    }
}

/// No files.
pub(crate) fn no_files<D: Disk + Drop>() -> WorkerFiles<D>
    ensures { result ≡ no_files }
{
    WorkerFiles {
        plain: LogSlot::Away,
        even: LogSlot::Away,
        odd: LogSlot::Away,
    }
}
