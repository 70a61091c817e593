//! Both slots at rest.

ghost use Rattle.std.specs.Prelude.{◌≡◌, ◌↔◌, Some, None, IsTrue, IfOk, IfErr, OnOk, OnErr};
ghost use Rattle.mt_checkpoint.specs.{Slots.ReadSlot, Faults.{read_cause, told_as}, declared.fault.FaultCause.TheVariants.Device};
ghost use Rattle.mt_slots.specs.declared.slot.Slot.TheVariants.{First};
ghost use Rattle.mt_slots.specs.{Crashes.{MayLeaveBoth, AreCrashed, AreLeftOrCrashed}, Places.{other_of, disk_of, next_slot, slots_with, with_newest}};
ghost use Rattle.mt_slots.specs.Calls.{MakesSlot, FailsToMakeSlot, MakesBoth, StopsMaking, TellsBoth, StopsReading, Begins, FailsToBeginIn};
ghost use Rattle.mt_slots.specs.Loads.{FailsToReadIn, LoadsSlot, FailsToLoad};

use crate::checkpointing::Checkpointing;
use crate::fault::SlotFault;
use crate::slot::{Slot, slot_after};
use mt_checkpoint::{
    Checkpoint, FaultCause, ReadFault, SeenCheckpoint, Writer, create_slot, look_at, read_valid,
};
use mt_disk::{DeviceFailed, Disk, MemDisk, SystemError};
use std::alloc::{AllocError, Global};

/// Two slots, each at rest, and which of them has the newest checkpoint. That one is never written over. It tells too
/// how far each log has to go before that checkpoint is settled.
#[derive(Drop)]
pub struct StoreSlots<D: Disk> {
    first: D,
    second: D,
    newest: Option<Slot>,
    owed: u64,
}

impl<D: Disk> StoreSlots<D> {
    /// Slots on these disks, as these are found. No checkpoint of them counts as the newest one, and nothing is owed.
    pub fn found(first: D, second: D) -> StoreSlots<D>
        ensures { result ≡ slots_with First first second None 0 }
    {
        StoreSlots::with(Slot::First, first, second, None, 0)
    }

    /// Makes both anew, without a checkpoint, the first one first. What their disks held is lost. After an error,
    /// which is of the device, they are made anew again.
    pub fn create(&mut self) -> Result<(), SlotFault>
        ensures ok { OnOk result (MakesBoth D.is_honest D.state D.failures self.old self.new) }
        ensures err { IfErr result (λ e. StopsMaking D.is_honest D.state D.failures e self.old self.new) }
    {
        self.newest = None;
        self.owed = 0;
        make_slot(&mut self.first, Slot::First)?;
        make_slot(&mut self.second, Slot::Second)
    }

    /// What both slots have, the first one's first. None of their pairs are kept. An error tells the slot that was not
    /// read. Which one is the newest, and what it owes, stay as they were.
    pub fn look(&mut self, alloc: Global) -> Result<[Option<SeenCheckpoint>; 2], SlotFault>
        ensures ok { IfOk result (TellsBoth D.is_honest D.state D.failures self.old self.new) }
        ensures err { IfErr result (λ e. StopsReading D.is_honest D.state D.failures e self.old self.new) }
    {
        let first = look_at_slot(alloc, &mut self.first, Slot::First)?;
        let second = look_at_slot(alloc, &mut self.second, Slot::Second)?;
        Ok([first, second])
    }

    /// What one slot has, with its pairs. The other one isn't read. Which one is the newest, and what it owes, stay as
    /// they were.
    pub fn load(&mut self, alloc: Global, slot: Slot) -> Result<Option<Checkpoint>, SlotFault>
        ensures ok { IfOk result (LoadsSlot D.is_honest D.state D.failures slot self.old self.new) }
        ensures err { IfErr result (λ e. FailsToLoad D.is_honest D.state D.failures slot e self.old self.new) }
    {
        match slot {
            Slot::First => load_slot(alloc, &mut self.first, slot),
            Slot::Second => load_slot(alloc, &mut self.second, slot),
        }
    }

    /// From now on this slot has the newest checkpoint: the store was recovered from it. None counts if it was
    /// recovered without one. It owes nothing: the recovery left each log going up to the step that it resumes
    /// after, and the checkpoint ends at most there.
    pub fn keep(&mut self, used: Option<Slot>)
        ensures { self.new ≡ with_newest used self.old }
    {
        self.newest = used;
        self.owed = 0;
    }

    /// The slot of the newest checkpoint.
    pub fn newest(&self) -> Option<Slot>
        ensures { result ≡ self.now.newest }
    {
        self.newest
    }

    /// Why the last call that failed of a slot's disk did so, if the system told it.
    pub fn last_error(&self, slot: Slot) -> Option<SystemError>
        ensures { (result ≡ Some SystemError.OutOfMemory) ↔ IsTrue (D.was_refused (disk_of slot self.now)) }
    {
        match slot {
            Slot::First => self.first.last_error(),
            Slot::Second => self.second.last_error(),
        }
    }

    /// The step up to which each log has to go before another checkpoint is begun: where the newest one ends, if
    /// it was ended here. It is 0 if nothing is owed. The newest is settled once each log goes that far.
    pub fn owed(&self) -> u64
        ensures { result ≡ self.now.owed }
    {
        self.owed
    }

    /// The slot that the next checkpoint is written in.
    pub fn next_slot(&self) -> Slot
        ensures { result ≡ next_slot self.now.newest }
    {
        slot_after(self.newest)
    }

    /// Begins a checkpoint of a walk that began after step `first`, in the next slot. What that slot had is
    /// lost, also after an error.
    pub fn begin(self, first: u64) -> Result<Checkpointing<D>, (SlotFault, StoreSlots<D>)>
        ensures ok { IfOk result (Begins D.is_honest D.state D.failures self first) }
        ensures err { IfErr result (λ e. FailsToBeginIn D.is_honest D.state D.failures self e.1) }
        ensures fault { IfErr result (λ e. e.0 ≡ record { slot = next_slot self.newest; cause = told_as (D.was_refused (disk_of (next_slot self.newest) e.1)) Device }) }
    {
        let slot = self.next_slot();
        let (newest, owed) = (self.newest, self.owed);
        let (disk, other) = self.parted(slot);
        match Writer::begin(disk, first) {
            Ok(writer) => Ok(Checkpointing::new(writer, other, newest, owed)),
            Err((DeviceFailed, disk)) => {
                let cause = FaultCause::Device.told_by(&disk);
                Err((
                    SlotFault { slot, cause },
                    StoreSlots::with(slot, disk, other, newest, owed),
                ))
            }
        }
    }

    /// Their disks, the first one's first.
    pub fn into_disks(self) -> (D, D)
        ensures first { result.0 ≡ self.first }
        ensures second { result.1 ≡ self.second }
    {
        (self.first, self.second)
    }

    /// The slots of which this one has this disk.
    pub(crate) fn with(
        slot: Slot,
        disk: D,
        other: D,
        newest: Option<Slot>,
        owed: u64,
    ) -> StoreSlots<D>
        ensures { result ≡ slots_with slot disk other newest owed }
    {
        let (first, second) = match slot {
            Slot::First => (disk, other),
            Slot::Second => (other, disk),
        };
        StoreSlots {
            first,
            second,
            newest,
            owed,
        }
    }

    // The disk of a slot, and that of the other one.
    fn parted(self, slot: Slot) -> (D, D)
        ensures this { result.0 ≡ disk_of slot self }
        ensures other { result.1 ≡ disk_of (other_of slot) self }
    {
        match slot {
            Slot::First => (self.first, self.second),
            Slot::Second => (self.second, self.first),
        }
    }
}

impl StoreSlots<MemDisk> {
    /// Whether a crash now may leave these files.
    pub fn may_leave(&self, first: &[u8], second: &[u8]) -> bool
        ensures { IsTrue result ↔ MayLeaveBoth first.now second.now self.now }
    {
        self.first.may_leave(first) && self.second.may_leave(second)
    }

    /// Crashes: each is found again with its file. No checkpoint of them counts as the newest one, and nothing is
    /// owed. After an error some have crashed.
    pub fn crash(&mut self, alloc: Global, first: &[u8], second: &[u8]) -> Result<(), AllocError>
        requires { MayLeaveBoth first.now second.now self.old }
        ensures ok { OnOk result (AreCrashed first.now second.now self.old self.new) }
        ensures err { OnErr result (AreLeftOrCrashed first.now second.now self.old self.new) }
    {
        let first = first.to_vec(alloc)?;
        let second = second.to_vec(alloc)?;
        self.newest = None;
        self.owed = 0;
        self.first.crash(first)?;
        self.second.crash(second)
    }
}

// Makes one slot.
fn make_slot<D: Disk>(disk: &mut D, slot: Slot) -> Result<(), SlotFault>
    ensures ok { OnOk result (MakesSlot D.is_honest D.state D.failures disk.old disk.new) }
    ensures err { IfErr result (λ e. (e ≡ record { slot = slot; cause = Device }) × FailsToMakeSlot D.is_honest D.state D.failures disk.old disk.new) }
{
    create_slot(disk).map_err(|_| SlotFault {
        slot,
        cause: FaultCause::Device,
    })
}

// Reads one slot through.
fn look_at_slot<D: Disk>(
    alloc: Global,
    disk: &mut D,
    slot: Slot,
) -> Result<Option<SeenCheckpoint>, SlotFault>
    ensures ok { IfOk result (ReadSlot D.is_honest D.state D.failures disk.old disk.new) }
    ensures err { IfErr result (FailsToReadIn D.is_honest D.state D.failures slot disk.old disk.new) }
{
    look_at(alloc, disk).map_err(|fault| SlotFault {
        slot,
        cause: cause_of(fault),
    })
}

// Reads one slot.
fn load_slot<D: Disk>(
    alloc: Global,
    disk: &mut D,
    slot: Slot,
) -> Result<Option<Checkpoint>, SlotFault>
    ensures ok { IfOk result (ReadSlot D.is_honest D.state D.failures disk.old disk.new) }
    ensures err { IfErr result (FailsToReadIn D.is_honest D.state D.failures slot disk.old disk.new) }
{
    read_valid(alloc, disk).map_err(|fault| SlotFault {
        slot,
        cause: cause_of(fault),
    })
}

// Why a slot was not read.
fn cause_of(fault: ReadFault) -> FaultCause
    ensures { result ≡ read_cause fault }
{
    match fault {
        ReadFault::Device => FaultCause::Device,
        ReadFault::Memory => FaultCause::Memory,
    }
}
