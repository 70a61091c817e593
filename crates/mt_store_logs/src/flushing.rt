//! A worker drained into its log.

ghost use Rattle.std.specs.Prelude.{◌≡◌, None, IfOk, OnOk, IfErr};
ghost use Rattle.mt_store_logs.specs.{Flushes.{Flushes, FailsToFlush, DrainsIn, FailsToDrain, DrainsUpto, FailsInDrains}, LogTurns.{BringsUp, FailsToBringUp}, Places.{worker_of, OnLast}};

use crate::last_log::LastLog;
use crate::source::Source;
use crate::store_log::StoreLog;
use mt_disk::Disk;
use mt_rows::Refusal;
use std::alloc::Global;

/// That a worker's log was flushed: whose it is, and the step up to which it then had all of the worker's
/// changes. Only `flush` makes one.
#[derive(Debug, Drop)]
pub struct Flushed {
    worker: u8,
    mark: u64,
}

impl Flushed {
    /// Whose log it was.
    pub fn worker(&self) -> u8
        ensures { result ≡ self.now.worker }
    {
        self.worker
    }

    /// The step up to which the log had all of the worker's changes.
    pub fn mark(&self) -> u64
        ensures { result ≡ self.now.mark }
    {
        self.mark
    }
}

/// A log's turn: opens the log again if its disk failed, then flushes it. The log then has all of its worker's
/// changes up to the step that is told.
///
/// Errors: those of `StoreLog::reopen`, after which nothing was drained; else those of `flush`.
pub fn bring_up<D: Disk + Drop, S: Source>(
    alloc: Global,
    log: &mut StoreLog<D>,
    source: &mut S,
    upto: u64,
) -> Result<Flushed, Refusal>
    requires { S.serves source.old (worker_of log.old) upto }
    ensures ok { IfOk result (λ flushed. BringsUp D.is_honest D.state D.failures S.gives upto flushed.mark log.old log.new source.old source.new) }
    ensures whose { IfOk result (λ flushed. flushed.worker ≡ worker_of log.old) }
    ensures worker { worker_of log.new ≡ worker_of log.old }
    ensures err { IfErr result (λ e. FailsToBringUp D.is_honest D.state D.failures S.gives upto e log.old log.new source.old source.new) }
{
    match log.reopen(alloc) {
        Ok(()) => flush(alloc, log, source, upto),
        Err(refusal) => Err(refusal),
    }
}

/// Appends the batch that is kept, then drains the log's worker and appends what that gave, till the log goes
/// up to the step `upto` at least. The log then has all of its worker's changes up to the step that is told.
///
/// Errors: `Device` if the log is closed, or its disk fails; then it is closed. `Memory` if a growth is refused,
/// or the file has 2^60 bytes. `WrongTurn` if a batch does not begin where the log ends. Nothing is drained
/// while a batch is kept; a drain that is refused memory changes nothing; a drained batch that is not appended
/// is kept.
pub fn flush<D: Disk + Drop, S: Source>(
    alloc: Global,
    log: &mut StoreLog<D>,
    source: &mut S,
    upto: u64,
) -> Result<Flushed, Refusal>
    requires { S.serves source.old (worker_of log.old) upto }
    ensures ok { IfOk result (λ flushed. OnLast (λ old new. Flushes D.is_honest D.state D.failures S.gives (worker_of log.old) upto flushed.mark old new source.old source.new) log.old log.new) }
    ensures whose { IfOk result (λ flushed. flushed.worker ≡ worker_of log.old) }
    ensures worker { worker_of log.new ≡ worker_of log.old }
    ensures err { IfErr result (λ e. OnLast (λ old new. FailsToFlush D.is_honest D.state D.failures S.gives (worker_of log.old) upto e old new source.old source.new) log.old log.new) }
{
    let mut last = log.take_last();
    let told = flush_last(alloc, &mut last, source, upto);
    log.put_last(last);
    told
}

// The same of a last log.
fn flush_last<D: Disk + Drop, S: Source>(
    alloc: Global,
    log: &mut LastLog<D>,
    source: &mut S,
    upto: u64,
) -> Result<Flushed, Refusal>
    requires { S.serves source.old log.old.worker upto }
    ensures ok { IfOk result (λ flushed. Flushes D.is_honest D.state D.failures S.gives log.old.worker upto flushed.mark log.old log.new source.old source.new) }
    ensures whose { IfOk result (λ flushed. flushed.worker ≡ log.old.worker) }
    ensures worker { log.new.worker ≡ log.old.worker }
    ensures generation { log.new.generation ≡ log.old.generation }
    ensures err { IfErr result (λ e. FailsToFlush D.is_honest D.state D.failures S.gives log.old.worker upto e log.old log.new source.old source.new) }
{
    let worker = log.worker;
    log.append_kept(alloc)?;
    let mark = drain_upto(alloc, log, source, worker, upto)?;
    Ok(Flushed { worker, mark })
}

// Drains the worker into a log that keeps no batch, till the log goes up to a step.
fn drain_upto<D: Disk + Drop, S: Source>(
    alloc: Global,
    log: &mut LastLog<D>,
    source: &mut S,
    worker: u8,
    upto: u64,
) -> Result<u64, Refusal>
    requires serves { S.serves source.old worker upto }
    requires whose { log.old.worker ≡ worker }
    requires none { log.old.kept ≡ None }
    ensures worker { log.new.worker ≡ worker }
    ensures generation { log.new.generation ≡ log.old.generation }
    ensures ok { IfOk result (λ mark. DrainsUpto D.is_honest D.state D.failures S.gives worker upto mark log.old log.new source.old source.new) }
    ensures err { IfErr result (λ e. FailsInDrains D.is_honest D.state D.failures S.gives worker upto e log.old log.new source.old source.new) }
{
    let mut mark = drain_once(alloc, log, source, worker, upto)?;
    while mark < upto {
        match drain_once(alloc, log, source, worker, upto) {
            Ok(next) => mark = next,
            Err(refusal) => return Err(refusal),
        }
    }
    Ok(mark)
}

// Drains the worker once, and appends its batch. The step up to which the log goes then.
fn drain_once<D: Disk + Drop, S: Source>(
    alloc: Global,
    log: &mut LastLog<D>,
    source: &mut S,
    worker: u8,
    upto: u64,
) -> Result<u64, Refusal>
    requires serves { S.serves source.old worker upto }
    requires whose { log.old.worker ≡ worker }
    requires none { log.old.kept ≡ None }
    ensures worker { log.new.worker ≡ worker }
    ensures generation { log.new.generation ≡ log.old.generation }
    ensures ok { IfOk result (λ mark. DrainsIn D.is_honest D.state D.failures S.gives worker upto mark log.old log.new source.old source.new) }
    ensures serves { OnOk result (S.serves source.new worker upto) }
    ensures err { IfErr result (λ e. FailsToDrain D.is_honest D.state D.failures S.gives worker e log.old log.new source.old source.new) }
{
    let drained = source.drain(worker, upto)?;
    let to = drained.batch().to;
    log.append(alloc, drained)?;
    Ok(to)
}
