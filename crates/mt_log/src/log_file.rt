//! A log on its disk: made, opened and appended to.

ghost use Rattle.std.specs.Prelude.{◌≡◌, ◌↔◌, ◌<◌, ◌≤◌, ◌^◌, ◌++◌, ◌∷◌, [], length, IsTrue, IfOk, IfErr, OnOk, OnErr, ℕ};
ghost use Rattle.mt_disk.specs.Disk.{CountsFailure, GoesUp, synced};
ghost use Rattle.mt_log.specs.{declared.batch.LogBatch.LogBatch, declared.reader.FileKind.FileKind, Format.{body, told_body}};
ghost use Rattle.mt_log.specs.{Contents.{IsBatch, IsLogBatch, Rises, from_of, to_of, log_bytes, no_batches}, Fronts.IsAtRest};
ghost use Rattle.mt_log.specs.Logs.{Created, Appended, FailedIn, GivesBack, GivesLogBack, Opened, GivesDiskBack, IsSyncedOf, FailsToSync, fault_with};

use crate::batch::Front;
use crate::failed_log::{End, FailedLog};
use crate::fault::{AppendFault, OpenFault, ReadFault, ResumeFault};
use crate::gate::add;
use crate::log_end::set_right;
use crate::reader::{FileKind, HEADER_BYTES};
use crate::windows::{Found, read_front};
use crate::writer::{batch_block, resume_block};
use mt_disk::{DeviceFailed, Disk};
use mt_rows::Batch;
use std::alloc::Global;

// The longest file that is appended to.
const MAX_END: usize = 1 << 60;

// Whether a file is so long that it is appended to no more.
fn is_full(end: usize) -> bool
    ensures { IsTrue result ↔ 2 ^ 60 ≤ end }
{
    end >= MAX_END
}

// A file of so many bytes is not read.
pub(crate) const LENGTH_LIMIT: usize = 1 << 63;

/// A log whose end gate stands closed at `end`, with nothing behind it; its last batch goes up to step
/// `mark`, or it begins there.
#[derive(Drop)]
pub struct LogFile<D: Disk> {
    pub(crate) disk: D,
    end: usize,
    mark: u64,
}

impl<D: Disk> LogFile<D> {
    /// Makes the log of a worker, one of so many logs, with no batches; whatever the disk held is lost.
    /// A crash in it, or an error, may leave anything: the file is made anew.
    pub fn create(mut disk: D, worker: u8, logs: u8) -> Result<LogFile<D>, (DeviceFailed, D)>
        requires worker { worker < logs }
        requires logs { logs ≤ 64 }
        ensures ok { IfOk result (Created D.is_honest D.state D.failures disk worker logs) }
        ensures err { IfErr result (λ e. GoesUp (D.failures disk) (D.failures e.1) × (D.is_honest e.1 ≡ D.is_honest disk)) }
    {
        match write_new(&mut disk, worker, logs) {
            Ok(()) => Ok(LogFile::at(disk, HEADER_BYTES, 0)),
            Err(failed) => Err((failed, disk)),
        }
    }

    /// Opens a log of format 1 or 2, and gives its front, whether its batches rise and join or not. Its end is set right: a
    /// gate that was torn is closed, and what stands behind it is cut off. The log of a generation, in its place, is
    /// refused at 0.
    pub fn open(alloc: Global, mut disk: D) -> Result<(LogFile<D>, Front), OpenFault<D>>
        ensures ok { IfOk result (λ r. Opened FileKind.Plain D.is_honest D.state D.failures disk r.0 r.1) }
        ensures err { IfErr result (GivesDiskBack FileKind.Plain D.is_honest D.state D.failures disk) }
    {
        match open_file(alloc, &mut disk) {
            Ok(found) => Ok((LogFile::at(disk, found.end, found.mark), found.front)),
            Err(ReadFault::Device) => Err(OpenFault::Device(disk)),
            Err(ReadFault::Memory) => Err(OpenFault::Memory(disk)),
            Err(ReadFault::Bad { number, offset }) => Err(OpenFault::BadLog {
                disk,
                number,
                offset,
            }),
        }
    }

    // A log at rest, whose front ends there.
    pub(crate) fn at(disk: D, end: usize, mark: u64) -> LogFile<D>
        ensures { result ≡ record { disk = disk; end = end; mark = mark } }
    {
        LogFile { disk, end, mark }
    }

    /// The step at which its last batch ends, its start if it has none. That is 0 but for the log of a generation.
    pub fn mark(&self) -> u64
        ensures { result ≡ self.now.mark }
    {
        self.mark
    }

    /// Where it ends: how many bytes stand before its end gate.
    pub fn end(&self) -> usize
        ensures { result ≡ self.now.end }
    {
        self.end
    }

    /// Its disk, to be looked at.
    pub fn disk(&self) -> &D
        ensures { result.now ≡ self.now.disk }
    {
        &self.disk
    }

    /// Its disk.
    pub fn into_disk(self) -> D
        ensures { result ≡ self.disk }
    {
        self.disk
    }

    /// Appends a batch: whole, or not at all.
    pub fn append(mut self, alloc: Global, batch: Batch) -> Result<LogFile<D>, AppendFault<D>>
        requires { IsBatch batch }
        ensures ok { IfOk result (Appended D.is_honest D.state D.failures self (LogBatch.Records batch)) }
        ensures err { IfErr result (GivesBack D.is_honest D.state D.failures self batch) }
    {
        if batch.from != self.mark {
            let mark = self.mark;
            return Err(AppendFault::WrongTurn(self, batch, mark));
        }
        if is_full(self.end) {
            return Err(AppendFault::Memory(self, batch));
        }
        let block = match batch_block(alloc, &batch) {
            Ok(block) => block,
            Err(_) => return Err(AppendFault::Memory(self, batch)),
        };
        let before = End::new(self.end, self.mark);
        let after = End::new(self.end + block.len(), batch.to);
        match self.add_block(&block, batch.to) {
            Ok(()) => Ok(self),
            Err(_) => Err(AppendFault::Device(
                FailedLog::new(self.into_disk(), before, after),
                batch,
            )),
        }
    }

    /// Appends the batch with which a recovery ends: records of any log with a stamp over `kept` and at
    /// most `to` are void.
    pub fn append_resume(
        mut self,
        alloc: Global,
        kept: u64,
        to: u64,
    ) -> Result<LogFile<D>, ResumeFault<D>>
        requires order { self.mark ≤ to }
        requires last { to ≤ 2 ^ 59 }
        requires kept { kept ≤ to }
        ensures ok { IfOk result (Appended D.is_honest D.state D.failures self (LogBatch.Resume self.mark to kept)) }
        ensures err { IfErr result (GivesLogBack D.is_honest D.state D.failures self (LogBatch.Resume self.mark to kept)) }
    {
        if is_full(self.end) {
            return Err(ResumeFault::Memory(self));
        }
        let block = match resume_block(alloc, self.mark, to, kept) {
            Ok(block) => block,
            Err(_) => return Err(ResumeFault::Memory(self)),
        };
        match self.add_block(&block, to) {
            Ok(()) => Ok(self),
            Err(_) => Err(ResumeFault::Device(self.into_disk())),
        }
    }

    // Adds a batch that goes up to `to`, spelled behind its length and before the next closed gate.
    fn add_block(&mut self, block: &[u8], to: u64) -> Result<(), DeviceFailed>
        requires { self.old.end < 2 ^ 60 }
        ensures ok { (b : LogBatch) → block.now ≡ told_body (body b) ++ 0 ∷ [] → ((version : ℕ) → IsLogBatch version b) → Rises b → from_of b ≡ self.old.mark → to_of b ≡ to
            → OnOk result (Appended D.is_honest D.state D.failures self.old b self.new) }
        ensures err { (b : LogBatch) → block.now ≡ told_body (body b) ++ 0 ∷ [] → Rises b → from_of b ≡ self.old.mark
            → OnErr result (FailedIn D.is_honest D.state D.failures self.old b self.new.disk) }
    {
        add(&mut self.disk, self.end, block)?;
        self.end += block.len();
        self.mark = to;
        Ok(())
    }
}

// A header and a closed gate in place of what the disk held.
fn write_new<D: Disk>(disk: &mut D, worker: u8, logs: u8) -> Result<(), DeviceFailed>
    ensures made { IsTrue (D.is_honest disk.old) → OnOk result (IsAtRest (log_bytes (no_batches worker logs)) 8 (D.state disk.new)) }
    ensures honest { D.is_honest disk.new ≡ D.is_honest disk.old }
    ensures count { CountsFailure result (D.failures disk.old) (D.failures disk.new) }
{
    disk.cut(0)?;
    disk.write_at(0, &[b'M', b'T', b'L', b'O', b'G', 2, worker, logs, 0])?;
    disk.sync()
}

// Syncs a file, and tells its length. What was left by an append that failed is durable before it is read:
// of a gate that was torn open, a crash could else still leave either.
fn synced_len<D: Disk>(disk: &mut D) -> Result<usize, ReadFault>
    ensures ok { IfOk result (IsSyncedOf D.is_honest D.state D.failures disk.old disk.new) }
    ensures err { IfErr result (FailsToSync D.is_honest D.state D.failures disk.old disk.new) }
{
    disk.sync()?;
    let len = disk.len()?;
    if len >= LENGTH_LIMIT {
        return Err(ReadFault::Memory);
    }
    Ok(len)
}

// Opens a log on its disk.
fn open_file<D: Disk>(alloc: Global, disk: &mut D) -> Result<Found, ReadFault>
    ensures ok { IfOk result (λ found. Opened FileKind.Plain D.is_honest D.state D.failures disk.old (record { disk = disk.new; end = found.end; mark = found.mark }) found.front) }
    ensures err { IfErr result (λ e. GivesDiskBack FileKind.Plain D.is_honest D.state D.failures disk.old (fault_with disk.new e)) }
{
    let len = synced_len(disk)?;
    let found = read_front(alloc, disk, FileKind::Plain, len)?;
    set_right(disk, found.end, found.gate)?;
    Ok(found)
}
