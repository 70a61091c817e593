//! A store's logs behind locks: one for each log, which is taken before the book's.

ghost use Rattle.std.specs.Prelude.{◌≡◌, ◌<◌, length, vec_len, IfOk, IfErr};
ghost use Rattle.mt_store_logs.specs.Places.{worker_of};
ghost use Rattle.mt_stored.specs.Shared.{IsElsewhere, gone_as};

use crate::beginning::bring_up_and_begin;
use crate::changes::{LogChange, change_of};
use crate::keeping::Learns;
use crate::source::SharedBook;
use log::{Log, warn};
use mt_book::{Clerk, Desk};
use mt_disk::Disk;
use mt_history::Naming;
use mt_log::FileKind;
use mt_rows::Refusal;
use mt_settle::Logs;
use mt_store_files::StoreFile;
use mt_store_logs::{FailedFile, Flushed, Generations, StoreLog, bring_up};
use std::alloc::{AllocError, Global};
use std::sync::ledger::Ledger;
use std::sync::{Mutex, MutexGuard, Wait};
use std::time::Clock;

/// The logs of a book, at most 255, and a clerk that drains it into them. Others give turns too, so a turn says nothing of the
/// next one. Of each it says that it was one of a log of that worker, and what it added to the book's history. It warns of a
/// log that closes, and of one that is open again. A log at the place of another worker has no turn, and is refused by
/// `LogCount`. So is one that is at another generation than it was to go to. If memory was refused to a log's disk, the refusal is `Memory`, and not `Device`.
#[derive(Drop)]
pub struct SharedLogs<'a, L: Ledger, J: Naming, R: Wait + Clock, D: Disk + Drop> {
    book: SharedBook<'a, L, J, R>,
    logs: &'a [Mutex<StoreLog<D>>],
}

impl<'a, L: Ledger, J: Naming, R: Wait + Clock, D: Disk + Drop> SharedLogs<'a, L, J, R, D> {
    pub fn new(rt: &'a R, clerk: Clerk<'a, L, J>, logs: &'a [Mutex<StoreLog<D>>]) -> Self
        ensures clerk { result.book.clerk ≡ clerk.entry }
        ensures logs { result.logs.now ≡ logs.now }
    {
        let book = SharedBook { rt, clerk };
        SharedLogs { book, logs }
    }

    /// The clerk.
    pub fn into_clerk(self) -> Clerk<'a, L, J>
        ensures { result ≡ self.entry.book.clerk }
    {
        self.book.clerk
    }
}

impl<L: Ledger, J: Naming, C: Wait + Clock, D: Disk + Drop> Logs for SharedLogs<'_, L, J, C, D> {
    ghost use Rattle.std.specs.Prelude.{min};
    ghost use Rattle.mt_stored.specs.Shared.{DoesShared};

    ghost logs = { λ s. min (length s.logs.now) 255 };

    ghost does = { λ old turn new. DoesShared D.is_honest D.state D.failures D.was_refused old.book.clerk.mark turn new.book.clerk.mark };

    fn count(&self) -> u8 {
        self.logs.len().min(255) as u8
    }

    fn bring_up<R: Wait + Clock + Log>(
        &mut self,
        rt: &R,
        alloc: Global,
        log: u8,
    ) -> Result<Flushed, Refusal> {
        let mut guard = lock_at(rt, self.logs, log)?;
        let own = &mut *guard;
        let before = own.mark();
        let steps = self.book.clerk.look(rt).steps;
        let told = bring_up(alloc, &mut *own, &mut self.book, steps);
        let file = own.failed_file();
        // Under the log's lock, so that its warnings come in the order of its changes.
        warn_of(rt, log, before, own.mark(), file);
        file.tell(told)
    }

    fn begin_next<R: Wait + Clock + Log>(
        &mut self,
        rt: &R,
        alloc: Global,
        log: u8,
        generation: u64,
    ) -> Result<Flushed, Refusal> {
        let mut guard = lock_at(rt, self.logs, log)?;
        let own = &mut *guard;
        let before = own.mark();
        let steps = self.book.clerk.look(rt).steps;
        let told = bring_up_and_begin(alloc, &mut *own, &mut self.book, steps, generation);
        let file = own.failed_file();
        warn_of(rt, log, before, own.mark(), file);
        gone_to(own, generation, file.tell(told))
    }

    fn give_up_older<R: Wait + Clock + Log>(&mut self, rt: &R, log: u8) -> Result<(), Refusal> {
        let mut guard = lock_at(rt, self.logs, log)?;
        let own = &mut *guard;
        let told = own.give_up_older();
        own.older_file().tell(told)
    }

    fn generations<R: Wait>(&self, rt: &R, log: u8) -> Result<Generations, Refusal> {
        Ok(lock_at(rt, self.logs, log)?.generations())
    }
}

/// They learn what a clerk has seen.
impl<'a, L: Ledger, J: Naming, R: Wait + Clock, D: Disk + Drop> Learns<Clerk<'a, L, J>>
    for SharedLogs<'a, L, J, R, D> {
    ghost use Rattle.mt_stored.specs.Shared.{LearnsSeen};

    ghost learns = { λ old clerk new. LearnsSeen old.book.clerk.mark clerk.mark new.book.clerk.mark };

    fn learn(&mut self, clerk: &Clerk<'a, L, J>) {
        self.book.clerk.learn(clerk);
    }
}

// The log at a worker's place, locked. It is refused if it is another worker's.
fn lock_at<'a, D: Disk + Drop, R: Wait>(
    rt: &R,
    logs: &'a [Mutex<StoreLog<D>>],
    log: u8,
) -> Result<MutexGuard<'a, StoreLog<D>>, Refusal>
    requires { log < length logs.now }
    ensures own { IfOk result (λ guard. worker_of guard.value ≡ log) }
    ensures err { IfErr result (λ e. IsElsewhere D log e) }
{
    let guard = logs[usize::from(log)].lock(rt);
    if guard.worker() == log {
        Ok(guard)
    } else {
        Err(Refusal::LogCount)
    }
}

// What was told of a log that was to go to this generation. It is refused if the log is at another one.
fn gone_to<D: Disk + Drop>(
    log: &StoreLog<D>,
    generation: u64,
    told: Result<Flushed, Refusal>,
) -> Result<Flushed, Refusal>
    ensures { result ≡ gone_as log.now.log.generation generation told }
{
    match told {
        Ok(_) if log.generation() != generation => Err(Refusal::LogCount),
        _ => told,
    }
}

// Warns of a log that closed in a turn, with the file whose disk failed and why, or is open again.
fn warn_of<R: Log>(rt: &R, log: u8, before: Option<u64>, after: Option<u64>, failed: FailedFile) {
    if let Some(change) = change_of(log, before, after) {
        match (change, failed.error) {
            (LogChange::Closed(_), Some(error)) => {
                let file = file_of(log, failed.kind);
                warn!(rt; "{change}: {file}: {error}");
            }
            _ => warn!(rt; "{change}"),
        }
    }
}

// The file of this kind of a worker's log.
fn file_of(log: u8, kind: FileKind) -> StoreFile {
    match kind {
        FileKind::Plain => StoreFile::Log(usize::from(log)),
        FileKind::Numbered(parity) => StoreFile::Numbered(usize::from(log), parity),
    }
}

/// Each log behind a lock of its own.
pub fn locked_logs<D: Disk + Drop>(
    alloc: Global,
    logs: Vec<StoreLog<D>>,
) -> Result<Vec<Mutex<StoreLog<D>>>, AllocError>
    ensures { IfOk result (λ locks. vec_len locks ≡ vec_len logs) }
{
    let mut locks = Vec::new(alloc);
    for log in logs {
        locks.push(Mutex::new(log))?;
    }
    Ok(locks)
}

/// The logs, of which nobody holds a lock any more.
pub fn unlocked_logs<D: Disk + Drop>(
    alloc: Global,
    locks: Vec<Mutex<StoreLog<D>>>,
) -> Result<Vec<StoreLog<D>>, AllocError>
    ensures { IfOk result (λ logs. vec_len logs ≡ vec_len locks) }
{
    let mut logs = Vec::new(alloc);
    for lock in locks {
        logs.push(lock.into_inner())?;
    }
    Ok(logs)
}
