//! A slot: made and written.

ghost use Rattle.std.specs.{Prelude.{◌≡◌, ◌↔◌, ◌≤◌, ◌^◌, [], ◌∷◌, ℕ, Bool, IsTrue, Result, Option, Some, None, Ok, Err, OnOk, OnErr, IfOk, IfErr}, List.All};
ghost use Rattle.mt_disk.specs.{Disk.{CountsFailure, LeavesOnly}, declared.disk.DeviceFailed.DeviceFailed};
ghost use Rattle.mt_rows.specs.{Rows.Bytes, Commands.IsKey};
ghost use Rattle.mt_checkpoint.specs.{Format.head_bytes, Checkpoints.{Walk, IsWalk, walk_bytes, IsOneOf, IsClosedAtRest, IsBehindGate, IsStaged}};
ghost use Rattle.mt_checkpoint.specs.{Faults.told_as, declared.fault.FaultCause.TheVariants.Device};
ghost use Rattle.mt_checkpoint.specs.Slots.{LeavesOrNone, HasDurably};
ghost use Rattle.mt_checkpoint.specs.Writes.{LeavesClosed, GivesUp, Begun, FailsToBegin, Added, FailsToAdd, RefusesPairs, Ended, TellsDigest, FailsToEnd, RefusesEnd};
ghost use Rattle.mt_checkpoint.specs.Staging.{CutsBehind, StopsOn, StagesWalk, ClearsAfter};

use crate::back::reads_back;
use crate::bounded::write_bounded;
use crate::checkpoint::may_end;
use crate::fault::{FaultCause, WriteFault};
use crate::gate::{SHUT, close_gate, cut_behind, open_gate, stage, synced_gate, write_head};
use crate::seen::SeenPairs;
use crate::windows::WINDOW_BYTES;
use crate::writer::{ENTRIES_AT, FORMAT, entries, head, last_entry};
use mt_digests::FileDigest;
use mt_disk::{DeviceFailed, Disk};
use mt_rows::TenantPair;
use sha2::{Digest, Sha256};
use std::alloc::Global;

// The bytes of a last entry.
const LAST_BYTES: usize = 9;

// The longest file that is written on.
const MAX_END: usize = 1 << 60;

// Whether a file is so long that it is written on no more.
fn is_full(end: usize) -> bool
    ensures { IsTrue result ↔ 2 ^ 60 ≤ end }
{
    end >= MAX_END
}

/// A checkpoint that is being written. Its gate stands closed whatever a crash leaves; its file ends at `end`.
#[derive(Drop)]
pub struct Writer<D: Disk> {
    disk: D,
    end: usize,
    first: u64,
    owed: usize,
    seen: SeenPairs,
    hash: Sha256,
}

/// Makes a slot, without a checkpoint. A crash in it, or an error, may leave anything: the slot is made anew.
pub fn create_slot<D: Disk>(disk: &mut D) -> Result<(), DeviceFailed>
    ensures made { IsTrue (D.is_honest disk.old) → OnOk result (IsClosedAtRest (D.state disk.new)) }
    ensures honest { D.is_honest disk.new ≡ D.is_honest disk.old }
    ensures count { CountsFailure result (D.failures disk.old) (D.failures disk.new) }
{
    close_gate(disk)
}

impl<D: Disk> Writer<D> {
    /// Begins a checkpoint of a walk that began after step `first`. What the slot had is lost.
    pub fn begin(mut disk: D, first: u64) -> Result<Writer<D>, (DeviceFailed, D)>
        ensures ok { IfOk result (Begun D.is_honest D.state D.failures disk first) }
        ensures err { IfErr result (λ e. FailsToBegin D.is_honest D.state D.failures disk e.1) }
    {
        match begin_on(&mut disk, first) {
            Ok(()) => Ok(Writer {
                disk,
                end: ENTRIES_AT,
                first,
                owed: 0,
                seen: SeenPairs::new(),
                hash: Sha256::new_with_prefix(head(FORMAT, first)),
            }),
            Err(failed) => Err((failed, disk)),
        }
    }

    /// Adds pairs after those before. Less than 4 MiB aren't durable then. Pairs that don't rise after those before by
    /// tenant and key are refused. An error gives the checkpoint up.
    pub fn add(mut self, alloc: Global, pairs: &[TenantPair]) -> Result<Writer<D>, WriteFault<D>>
        requires { All (λ p. IsKey p.key) pairs.now }
        ensures ok { IfOk result (Added D.is_honest D.state D.failures self pairs.now) }
        ensures err { IfErr result (FailsToAdd D.is_honest D.state D.failures self) }
        ensures refused { IfErr result (λ e. RefusesPairs D.is_honest D.state D.failures self pairs.now e.cause) }
    {
        match self.added(alloc, pairs) {
            Ok(()) => Ok(self),
            Err(cause) => Err(self.stopped(cause)),
        }
    }

    /// Ends the checkpoint of a walk that ended after step `last`: from then on the slot has it. What has no walk's
    /// steps or stamps is refused. It is read back before its gate is opened, and its digest is told.
    ///
    /// An error gives the checkpoint up. If the gate was opened and that failed, the slot has it whole or not at all.
    pub fn end(mut self, alloc: Global, last: u64) -> Result<(D, FileDigest), WriteFault<D>>
        ensures ok { IfOk result (λ r. Ended D.is_honest D.state D.failures self last r.0) }
        ensures digest { IfOk result (λ r. TellsDigest D.is_honest D.state D.failures self last r.1) }
        ensures err { IfErr result (FailsToEnd D.is_honest D.state D.failures self last) }
        ensures refused { IfErr result (λ e. RefusesEnd D.is_honest D.state D.failures self last e.cause) }
    {
        let digest = match self.staged(alloc, last) {
            Ok(digest) => digest,
            Err(cause) => return Err(self.stopped(cause)),
        };
        let mut disk = self.into_disk();
        match open_or_clear(&mut disk) {
            Ok(()) => Ok((disk, digest)),
            Err(cause) => Err(WriteFault { cause, disk }),
        }
    }

    /// Gives the checkpoint up: the file is cut to its closed gate. That isn't synced, since no crash opens the gate.
    /// If the cut fails, the next beginning in this slot cuts before it writes.
    pub fn give_up(self) -> Result<D, (DeviceFailed, D)>
        ensures ok { IfOk result (λ d. GivesUp D.is_honest D.state D.failures self (D.failures self.disk) (Ok tt) d × LeavesClosed D.is_honest D.state D.failures self d) }
        ensures err { IfErr result (λ e. GivesUp D.is_honest D.state D.failures self (D.failures self.disk) (Err e.0) e.1 × LeavesClosed D.is_honest D.state D.failures self e.1) }
    {
        let mut disk = self.into_disk();
        match cut_behind(&mut disk) {
            Ok(()) => Ok(disk),
            Err(failed) => Err((failed, disk)),
        }
    }

    /// Its disk as it stands. The gate stays closed, and the file is not cut.
    pub fn into_disk(self) -> D
        ensures { result ≡ self.disk }
    {
        let Writer { disk, .. } = self;
        disk
    }

    // Adds pairs.
    fn added(&mut self, alloc: Global, pairs: &[TenantPair]) -> Result<(), FaultCause>
        requires { All (λ p. IsKey p.key) pairs.now }
        ensures ok { OnOk result (Added D.is_honest D.state D.failures self.old pairs.now self.new) }
        ensures err { IfErr result (StopsOn D.is_honest D.state D.failures self.old self.new) }
        ensures refused { IfErr result (RefusesPairs D.is_honest D.state D.failures self.old pairs.now) }
    {
        if is_full(self.end) {
            return Err(FaultCause::Memory);
        }
        let block = entries(alloc, pairs)?;
        if !self.seen.take(alloc, pairs)? {
            return Err(FaultCause::NotAWalk);
        }
        self.owed = write_bounded(&mut self.disk, self.end, self.owed, &block)?;
        self.end += block.len();
        self.hash.update(&block);
        Ok(())
    }

    // Writes the last entry, if this is a walk then, makes all of it durable, and reads it back. The gate stays closed.
    fn staged(&mut self, alloc: Global, last: u64) -> Result<FileDigest, FaultCause>
        ensures ok { IfOk result (StagesWalk D.is_honest D.state D.failures self.old last self.new) }
        ensures err { IfErr result (StopsOn D.is_honest D.state D.failures self.old self.new) }
        ensures refused { IfErr result (RefusesEnd D.is_honest D.state D.failures self.old last) }
    {
        if !may_end(self.first, last, self.seen.greatest()) {
            return Err(FaultCause::NotAWalk);
        }
        if is_full(self.end) {
            return Err(FaultCause::Memory);
        }
        let mut window = Vec::from_elem(alloc, 0, WINDOW_BYTES)?;
        stage(&mut self.disk, self.end, last)?;
        self.hash.update(last_entry(last));
        let digest = FileDigest {
            len: (self.end + LAST_BYTES - 1) as u64,
            sha256: self.hash.finalize_reset(),
        };
        if reads_back(&mut self.disk, &mut window, digest)? {
            Ok(digest)
        } else {
            Err(FaultCause::NotReadBack)
        }
    }

    // Gives it up, for this cause, which its disk may tell to be want of memory.
    fn stopped(self, cause: FaultCause) -> WriteFault<D>
        ensures cause { result.cause ≡ told_as (D.was_refused self.disk) cause }
        ensures cut { (cut : Result (Unit {0}) DeviceFailed) × CutsBehind D.is_honest D.state D.failures self.disk cut result.disk }
    {
        let mut disk = self.into_disk();
        let cause = cause.told_by(&disk);
        // What fails here is not told: the next beginning in this slot cuts before it writes.
        let _ = cut_behind(&mut disk);
        WriteFault { cause, disk }
    }
}

// Closes the gate of a slot, if it isn't closed.
fn shut<D: Disk>(disk: &mut D) -> Result<(), DeviceFailed>
    ensures shut { IsTrue (D.is_honest disk.old) → OnOk result (IsClosedAtRest (D.state disk.new)) }
    ensures leaves { LeavesOrNone D.is_honest D.state D.failures disk.old disk.new }
    ensures honest { D.is_honest disk.new ≡ D.is_honest disk.old }
    ensures count { CountsFailure result (D.failures disk.old) (D.failures disk.new) }
{
    let (_, gate) = synced_gate(disk)?;
    if gate == Some(SHUT) {
        return Ok(());
    }
    close_gate(disk)
}

// Closes the gate of a slot, and cuts after it.
fn clear<D: Disk>(disk: &mut D) -> Result<(), DeviceFailed>
    ensures behind { IsTrue (D.is_honest disk.old) → OnOk result (IsBehindGate [] (D.state disk.new)) }
    ensures leaves { LeavesOrNone D.is_honest D.state D.failures disk.old disk.new }
    ensures honest { D.is_honest disk.new ≡ D.is_honest disk.old }
    ensures count { CountsFailure result (D.failures disk.old) (D.failures disk.new) }
{
    shut(disk)?;
    cut_behind(disk)
}

// Begins a checkpoint on its disk.
fn begin_on<D: Disk>(disk: &mut D, first: u64) -> Result<(), DeviceFailed>
    ensures staged { IsTrue (D.is_honest disk.old) → OnOk result (IsStaged (head_bytes 2 first) (D.state disk.new)) }
    ensures leaves { LeavesOrNone D.is_honest D.state D.failures disk.old disk.new }
    ensures honest { D.is_honest disk.new ≡ D.is_honest disk.old }
    ensures count { CountsFailure result (D.failures disk.old) (D.failures disk.new) }
{
    clear(disk)?;
    write_head(disk, first)
}

// Opens the gate of a checkpoint that is staged. If that fails, the slot is cleared, as far as its disk lets it.
fn open_or_clear<D: Disk>(disk: &mut D) -> Result<(), FaultCause>
    ensures opened { IsTrue (D.is_honest disk.old) → (w : Walk) → IsWalk w → IsStaged (walk_bytes 2 w) (D.state disk.old)
        → OnOk result (HasDurably w (D.state disk.new)) }
    ensures image { IsTrue (D.is_honest disk.old) → (text : Bytes) → IsStaged text (D.state disk.old)
        → OnOk result ((D.state disk.new).image ≡ 1 ∷ text) }
    ensures leaves { IsTrue (D.is_honest disk.old) → (w : Walk) → IsWalk w → IsStaged (walk_bytes 2 w) (D.state disk.old)
        → LeavesOnly (IsOneOf (None ∷ Some w ∷ [])) (D.state disk.old) (D.state disk.new) }
    ensures honest { D.is_honest disk.new ≡ D.is_honest disk.old }
    ensures count { OnOk result (D.failures disk.new ≡ D.failures disk.old) }
    ensures cleared { OnErr result (ClearsAfter D.is_honest D.state D.failures disk.old disk.new) }
    ensures cause { IfErr result (λ cause. (refused : Bool) × (cause ≡ told_as refused Device)) }
{
    match open_gate(disk) {
        Ok(()) => Ok(()),
        Err(DeviceFailed) => {
            let cause = FaultCause::Device.told_by(disk);
            // What fails here is not told: the next beginning in this slot clears it before it writes.
            let _ = clear(disk);
            Err(cause)
        }
    }
}
