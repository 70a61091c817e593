//! A checkpoint that is being written in one of the two slots.

ghost use Rattle.std.specs.{Prelude.{◌≡◌, IfOk, IfErr}, List.All};
ghost use Rattle.mt_rows.specs.Commands.{IsKey};
ghost use Rattle.mt_slots.specs.{Places.{next_slot, slots_with, given_up, checkpointing_with}, Calls.{Adds, FailsToAddIn, Ends, FailsToEndIn, GivesUpIn}};
ghost use Rattle.mt_checkpoint.specs.Writes.{RefusesPairs, TellsDigest, RefusesEnd};

use crate::fault::SlotFault;
use crate::slot::{Slot, slot_after};
use crate::store_slots::StoreSlots;
use mt_checkpoint::{FileDigest, WriteFault, Writer};
use mt_disk::Disk;
use mt_rows::TenantPair;
use std::alloc::Global;

/// A checkpoint that is being written. The other slot is at rest. It has the newest checkpoint, if either has.
#[derive(Drop)]
pub struct Checkpointing<D: Disk> {
    writer: Writer<D>,
    other: D,
    newest: Option<Slot>,
    owed: u64,
}

impl<D: Disk> Checkpointing<D> {
    pub(crate) fn new(
        writer: Writer<D>,
        other: D,
        newest: Option<Slot>,
        owed: u64,
    ) -> Checkpointing<D>
        ensures { result ≡ checkpointing_with writer other newest owed }
    {
        Checkpointing {
            writer,
            other,
            newest,
            owed,
        }
    }

    /// The slot that it is written in.
    pub fn slot(&self) -> Slot
        ensures { result ≡ next_slot self.now.newest }
    {
        slot_after(self.newest)
    }

    /// Adds pairs after those before. An error gives the checkpoint up. Pairs that don't rise after those before by
    /// tenant and key are such an error.
    pub fn add(
        self,
        alloc: Global,
        pairs: &[TenantPair],
    ) -> Result<Checkpointing<D>, (SlotFault, StoreSlots<D>)>
        requires { All (λ p. IsKey p.key) pairs.now }
        ensures ok { IfOk result (Adds D.is_honest D.state D.failures self pairs.now) }
        ensures err { IfErr result (λ e. FailsToAddIn D.is_honest D.state D.failures e.0 self e.1) }
        ensures refused { IfErr result (λ e. RefusesPairs D.is_honest D.state D.failures self.writer pairs.now e.0.cause) }
    {
        let slot = self.slot();
        match self.writer.add(alloc, pairs) {
            Ok(writer) => Ok(Checkpointing::new(writer, self.other, self.newest, self.owed)),
            Err(fault) => Err(stopped(fault, slot, self.other, self.newest, self.owed)),
        }
    }

    /// Ends the checkpoint of a walk that ended after step `last`. From then on it is the newest one, and it owes
    /// that each log goes up to `last`. Its digest is told. After an error the newest and what it owes are as before,
    /// and the next one is begun in the same slot. What is no walk up to `last` is such an error.
    pub fn end(
        self,
        alloc: Global,
        last: u64,
    ) -> Result<(StoreSlots<D>, FileDigest), (SlotFault, StoreSlots<D>)>
        ensures ok { IfOk result (λ r. Ends D.is_honest D.state D.failures self last r.0) }
        ensures digest { IfOk result (λ r. TellsDigest D.is_honest D.state D.failures self.writer last r.1) }
        ensures err { IfErr result (λ e. FailsToEndIn D.is_honest D.state D.failures e.0 self last e.1) }
        ensures refused { IfErr result (λ e. RefusesEnd D.is_honest D.state D.failures self.writer last e.0.cause) }
    {
        let slot = self.slot();
        match self.writer.end(alloc, last) {
            Ok((disk, digest)) => Ok((
                StoreSlots::with(slot, disk, self.other, Some(slot), last),
                digest,
            )),
            Err(fault) => Err(stopped(fault, slot, self.other, self.newest, self.owed)),
        }
    }

    /// Gives the checkpoint up. Its slot is cut to its closed gate; if that fails, the next beginning in it cuts before
    /// it writes. The newest and what it owes are as before.
    pub fn give_up(self) -> StoreSlots<D>
        ensures { GivesUpIn D.is_honest D.state D.failures self result }
    {
        let slot = self.slot();
        match self.writer.give_up() {
            Ok(disk) => StoreSlots::with(slot, disk, self.other, self.newest, self.owed),
            Err((_, disk)) => StoreSlots::with(slot, disk, self.other, self.newest, self.owed),
        }
    }

    /// The slots as they stand. The checkpoint is not cut, and stays behind its closed gate.
    pub fn into_slots(self) -> StoreSlots<D>
        ensures { result ≡ given_up self }
    {
        let slot = self.slot();
        StoreSlots::with(
            slot,
            self.writer.into_disk(),
            self.other,
            self.newest,
            self.owed,
        )
    }
}

// What a call that was stopped leaves: both slots at rest, and which of them it was.
fn stopped<D: Disk>(
    fault: WriteFault<D>,
    slot: Slot,
    other: D,
    newest: Option<Slot>,
    owed: u64,
) -> (SlotFault, StoreSlots<D>)
    ensures fault { result.0 ≡ record { slot = slot; cause = fault.cause } }
    ensures slots { result.1 ≡ slots_with slot fault.disk other newest owed }
{
    let WriteFault { cause, disk } = fault;
    (
        SlotFault { slot, cause },
        StoreSlots::with(slot, disk, other, newest, owed),
    )
}
