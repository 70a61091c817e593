//! The last log of a worker: its place, and the batch that waits for it.

ghost use Rattle.std.specs.Prelude.{◌≡◌, ◌↔◌, ◌≢◌, None, Some, IsTrue, IfOk, IfErr, OnOk};
ghost use Rattle.mt_batches.specs.Batches.{IsBounded};
ghost use Rattle.mt_log.specs.Contents.{IsBatch};
ghost use Rattle.mt_recover.specs.{declared.resuming.LogSlot.LogSlot, declared.resuming.LogSlot.TheVariants.{Open, Failed, Closed}};
ghost use Rattle.mt_store_logs.specs.Places.{log_with, mark_in};
ghost use Rattle.mt_store_logs.specs.Waits.{AppendsKept, FailsToAppend, AppendsNew, FailsToAppendNew, opened_with, Reopens, FailsToReopen};

use crate::by_kind::open_generation;
use mt_disk::Disk;
use mt_drains::DrainedBatch;
use mt_log::laws::a_bounded_batch_is_taken;
use mt_log::{AppendFault, FailedLog, LogFile};
use mt_recover::LogSlot;
use mt_rows::{Batch, Refusal};
use std::alloc::Global;
use std::marker::Model;
use std::mem;

/// A batch that waits for its log, which takes it: it has 4,096 records at most. Seen as a `Batch`.
#[derive(Debug, Drop)]
pub struct WaitingBatch {
    batch: Batch,
}

impl Model for WaitingBatch {
    ghost use Rattle.mt_batches.specs.Batches.{IsBounded};
    ghost use Rattle.mt_rows.specs.declared.record.Batch.{Batch};

    ghost Value = { Batch };

    ghost view = { λ w. w.batch };

    ghost invariant = { λ w. IsBounded w.batch };
}

impl WaitingBatch {
    fn new(batch: Batch) -> Self
        requires { IsBounded batch }
        ensures { result ≡ batch }
    {
        WaitingBatch { batch }
    }

    /// The step up to which it goes.
    pub fn to(&self) -> u64
        ensures { result ≡ self.now.to }
    {
        self.batch.to
    }

    // The batch, which an append takes.
    fn into_batch(self) -> Batch
        ensures is { result ≡ self }
        ensures bounded { IsBounded result }
        ensures taken { IsBatch result }
    {
        a_bounded_batch_is_taken();
        let WaitingBatch { batch } = self;
        batch
    }
}

/// The last log of a worker, of a generation: its place, and the batch that is kept for it. A `StoreLog` is seen by it.
#[derive(Drop)]
pub struct LastLog<D: Disk> {
    pub(crate) worker: u8,
    pub(crate) generation: u64,
    pub(crate) slot: LogSlot<D>,
    pub(crate) kept: Option<WaitingBatch>,
}

// What an append made of a log and of the batch.
#[derive(Drop)]
struct Appending<D: Disk> {
    log: LastLog<D>,
    told: Result<(), Refusal>,
}

impl<D: Disk + Drop> LastLog<D> {
    // An open log that keeps no batch.
    fn open(worker: u8, generation: u64, file: LogFile<D>) -> Self
        ensures { result ≡ log_with worker generation (Open file) None }
    {
        LastLog {
            worker,
            generation,
            slot: LogSlot::Open(file),
            kept: None,
        }
    }

    /// The step up to which an open log goes; none of a closed one.
    pub(crate) fn mark(&self) -> Option<u64>
        ensures { result ≡ mark_in self.now.slot }
    {
        match &self.slot {
            LogSlot::Open(log) => Some(log.mark()),
            LogSlot::Failed(_) | LogSlot::Closed(_) | LogSlot::Away => None,
        }
    }

    /// Appends the batch that is kept, if there is one, unless the log goes up to its end already. An error
    /// keeps it; the log is as it was, unless its disk failed. Then it has the batch whole or not at all, and
    /// has to be opened again.
    pub(crate) fn append_kept(&mut self, alloc: Global) -> Result<(), Refusal>
        ensures worker { self.new.worker ≡ self.old.worker }
        ensures generation { self.new.generation ≡ self.old.generation }
        ensures ok { OnOk result (AppendsKept D.is_honest D.state D.failures self.old self.new) }
        ensures err { IfErr result (λ e. FailsToAppend D.is_honest D.state D.failures e self.old self.new) }
    {
        match mem::replace(&mut self.slot, LogSlot::Away) {
            LogSlot::Open(file) => {
                let Appending { log, told } = append_kept_to(
                    alloc,
                    self.worker,
                    self.generation,
                    file,
                    self.kept.take(),
                );
                *self = log;
                told
            }
            other => {
                self.slot = other;
                Err(Refusal::Device)
            }
        }
    }

    /// Appends a batch of the log's worker. An error keeps it, as `append_kept` does; it is `WrongTurn` if the
    /// batch begins elsewhere than the log ends.
    pub(crate) fn append(&mut self, alloc: Global, drained: DrainedBatch) -> Result<(), Refusal>
        requires whose { drained.worker ≡ self.old.worker }
        requires none { self.old.kept ≡ None }
        requires bounded { IsBounded drained.batch }
        ensures worker { self.new.worker ≡ self.old.worker }
        ensures generation { self.new.generation ≡ self.old.generation }
        ensures ok { OnOk result (AppendsNew D.is_honest D.state D.failures drained.batch self.old self.new) }
        ensures err { IfErr result (λ e. FailsToAppendNew D.is_honest D.state D.failures e drained.batch self.old self.new) }
    {
        let from = drained.batch().from;
        self.kept = Some(WaitingBatch::new(drained.into_batch()));
        match self.mark() {
            Some(mark) if mark != from => Err(Refusal::WrongTurn(mark)),
            _ => self.append_kept(alloc),
        }
    }

    /// Opens a log again that isn't open, and appends the batch that is kept unless the log has it. An error
    /// keeps the batch. Only a `Closed` log is read.
    pub(crate) fn reopen(&mut self, alloc: Global) -> Result<(), Refusal>
        ensures worker { self.new.worker ≡ self.old.worker }
        ensures generation { self.new.generation ≡ self.old.generation }
        ensures ok { OnOk result (Reopens D.is_honest D.state D.failures self.old self.new) }
        ensures err { IfErr result (λ e. FailsToReopen D.is_honest D.state D.failures e self.old self.new) }
    {
        match mem::replace(&mut self.slot, LogSlot::Away) {
            LogSlot::Open(file) => {
                self.slot = LogSlot::Open(file);
                self.append_kept(alloc)
            }
            LogSlot::Failed(log) => self.reopen_failed(alloc, log),
            LogSlot::Closed(disk) => self.reopen_closed(alloc, disk),
            LogSlot::Away => self.append_kept(alloc),
        }
    }

    // Opens a log again on which an append failed, into an empty place.
    fn reopen_failed(&mut self, alloc: Global, log: FailedLog<D>) -> Result<(), Refusal>
        ensures worker { self.new.worker ≡ self.old.worker }
        ensures generation { self.new.generation ≡ self.old.generation }
        ensures ok { OnOk result (Reopens D.is_honest D.state D.failures (log_with self.old.worker self.old.generation (Failed log) self.old.kept) self.new) }
        ensures err { IfErr result (λ e. FailsToReopen D.is_honest D.state D.failures e (log_with self.old.worker self.old.generation (Failed log) self.old.kept) self.new) }
    {
        match log.reopen() {
            Ok(file) => {
                self.slot = LogSlot::Open(file);
                self.append_kept(alloc)
            }
            Err(log) => {
                self.slot = LogSlot::Failed(log);
                Err(Refusal::Device)
            }
        }
    }

    // Opens the disk of a closed log, into an empty place.
    fn reopen_closed(&mut self, alloc: Global, disk: D) -> Result<(), Refusal>
        ensures worker { self.new.worker ≡ self.old.worker }
        ensures generation { self.new.generation ≡ self.old.generation }
        ensures ok { OnOk result (Reopens D.is_honest D.state D.failures (log_with self.old.worker self.old.generation (Closed disk) self.old.kept) self.new) }
        ensures err { IfErr result (λ e. FailsToReopen D.is_honest D.state D.failures e (log_with self.old.worker self.old.generation (Closed disk) self.old.kept) self.new) }
    {
        open_generation(alloc, disk, self.generation, &mut self.slot)?;
        self.append_kept(alloc)
    }
}

// Appends a batch to an open log, if there is one.
fn append_kept_to<D: Disk + Drop>(
    alloc: Global,
    worker: u8,
    generation: u64,
    file: LogFile<D>,
    kept: Option<WaitingBatch>,
) -> Appending<D>
    ensures worker { result.log.worker ≡ worker }
    ensures generation { result.log.generation ≡ generation }
    ensures ok { OnOk result.told (AppendsKept D.is_honest D.state D.failures (opened_with worker generation file kept) result.log) }
    ensures err { IfErr result.told (λ e. FailsToAppend D.is_honest D.state D.failures e (opened_with worker generation file kept) result.log) }
{
    match kept {
        Some(waiting) => append_to(alloc, worker, generation, file, waiting),
        None => Appending {
            log: LastLog::open(worker, generation, file),
            told: Ok(()),
        },
    }
}

// Appends a batch to an open log.
fn append_to<D: Disk + Drop>(
    alloc: Global,
    worker: u8,
    generation: u64,
    file: LogFile<D>,
    waiting: WaitingBatch,
) -> Appending<D>
    ensures worker { result.log.worker ≡ worker }
    ensures generation { result.log.generation ≡ generation }
    ensures ok { OnOk result.told (AppendsKept D.is_honest D.state D.failures (opened_with worker generation file (Some waiting)) result.log) }
    ensures err { IfErr result.told (λ e. FailsToAppend D.is_honest D.state D.failures e (opened_with worker generation file (Some waiting)) result.log) }
{
    if waiting.to() == file.mark() {
        return Appending {
            log: LastLog::open(worker, generation, file),
            told: Ok(()),
        };
    }
    match file.append(alloc, waiting.into_batch()) {
        Ok(file) => Appending {
            log: LastLog::open(worker, generation, file),
            told: Ok(()),
        },
        Err(AppendFault::Device(log, batch)) => kept_by(
            worker,
            generation,
            LogSlot::Failed(log),
            batch,
            Refusal::Device,
        ),
        Err(AppendFault::Memory(file, batch)) => kept_by(
            worker,
            generation,
            LogSlot::Open(file),
            batch,
            Refusal::Memory,
        ),
        Err(AppendFault::WrongTurn(file, batch, mark)) => kept_by(
            worker,
            generation,
            LogSlot::Open(file),
            batch,
            Refusal::WrongTurn(mark),
        ),
    }
}

// A batch that is kept.
fn kept_by<D: Disk + Drop>(
    worker: u8,
    generation: u64,
    slot: LogSlot<D>,
    batch: Batch,
    fault: Refusal,
) -> Appending<D>
    requires { IsBounded batch }
    ensures { result ≡ record { log = log_with worker generation slot (Some batch); told = Err fault } }
{
    Appending {
        log: LastLog {
            worker,
            generation,
            slot,
            kept: Some(WaitingBatch::new(batch)),
        },
        told: Err(fault),
    }
}
