//! The second reading of a store's logs, and of the slot whose checkpoint is used.

ghost use Rattle.std.specs.{Prelude.{◌≡◌, ◌≢◌, ◌⊎◌, ◌<◌, ◌≤◌, ◌^◌, ℕ, List, None, length, is_ok, IfOk, IfSome}, Option.option_map};
ghost use Rattle.mt_rows.specs.declared.refusal.Refusal.TheVariants.{Memory, Device};
ghost use Rattle.mt_log.specs.declared.batch.{LogBatch.{LogBatch as AnyBatch}, ReadBatch.{ReadBatch as AnyRead}};
ghost use Rattle.mt_recover.specs.Sources.{Gives, IsReadable};
ghost use Rattle.mt_slots.specs.Places.{number_of};
ghost use Rattle.mt_store_logs.specs.Rereads.{readers_of, AreNumbered, KeepPlain, LogsAreRead, IsLeft};

use crate::fault::{LogRefusal, StoreRefusal};
use crate::store_log::StoreLog;
use mt_chain_files::{ChainReader, Chains};
use mt_checkpoint::Checkpoint;
use mt_disk::Disk;
use mt_log::{ReadBatch, ReadFault};
use mt_recover::Source;
use mt_rows::Refusal;
use mt_slots::{Slot, StoreSlots};
use std::alloc::{AllocError, Global};

/// Reads the chains of a store again, each from its worker's files, and loads a slot. It keeps the fault of a call, with the
/// log or the slot that is its cause.
pub struct SecondReading<'a, D: Disk> {
    logs: &'a mut [StoreLog<D>],
    slots: &'a mut StoreSlots<D>,
    readers: &'a mut [ChainReader],
    fault: Option<StoreRefusal>,
}

impl<'a, D: Disk + Drop> SecondReading<'a, D> {
    /// Of these logs and slots. Each reader is at the first batch of its worker's chain.
    pub(crate) fn new(
        logs: &'a mut [StoreLog<D>],
        slots: &'a mut StoreSlots<D>,
        readers: &'a mut [ChainReader],
    ) -> Self
        ensures same_logs { result.logs.ghost_name ≡ logs.entry.ghost_name }
        ensures logs { result.logs.now ≡ logs.old }
        ensures same_slots { result.slots.ghost_name ≡ slots.entry.ghost_name }
        ensures slots { result.slots.now ≡ slots.old }
        ensures readers { result.readers.now ≡ readers.old }
        ensures none { result.fault ≡ None }
    {
        SecondReading {
            logs,
            slots,
            readers,
            fault: None,
        }
    }

    /// Its fault, if a call has failed. The logs and the slots are let go as they stand.
    pub(crate) fn end(self) -> Option<StoreRefusal>
        ensures logs { self.exit.0.now ≡ self.entry.logs.now }
        ensures slots { self.exit.1.0.now ≡ self.entry.slots.now }
        ensures fault { result ≡ self.entry.fault }
    {
        let SecondReading {
            logs: _logs,
            slots: _slots,
            readers: _readers,
            fault,
        } = self;
        fault
    }
}

impl<D: Disk + Drop> Source for SecondReading<'_, D> {
    ghost use Rattle.std.specs.Prelude.{length, min};
    ghost use Rattle.mt_store_logs.specs.Rereads.{Follows, IsLeft, Holds, Told};

    ghost logs = { λ s. min (length s.logs.now) (length s.readers.now) };

    ghost follows = { λ start now. Follows D.is_honest D.state D.failures start now };

    ghost left = { λ s k batches. IsLeft D.is_honest D.state D.failures s.logs.now s.readers.now k batches };

    ghost holds = { λ s number held. Holds D.is_honest D.state D.failures s.slots.now number held };

    ghost refused = { λ s e. Told s.fault };

    fn next(&mut self, alloc: Global, log: usize) -> Result<Option<ReadBatch>, Refusal> {
        match read_next(alloc, self.logs, self.readers, log) {
            Ok(given) => Ok(given),
            Err(fault) => {
                let refusal = refusal_of(fault);
                self.fault = Some(StoreRefusal::Logs(LogRefusal::at(log, refusal)));
                Err(refusal)
            }
        }
    }

    fn load(&mut self, alloc: Global, slot: u8) -> Result<Option<Checkpoint>, Refusal> {
        match self.slots.load(alloc, slot_of(slot)) {
            Ok(checkpoint) => Ok(checkpoint),
            Err(fault) => {
                self.fault = Some(StoreRefusal::Slot(fault));
                Err(fault.cause.refusal())
            }
        }
    }
}

// The next batch of the chain of the worker at a place.
fn read_next<D: Disk + Drop>(
    alloc: Global,
    logs: &mut [StoreLog<D>],
    readers: &mut [ChainReader],
    place: usize,
) -> Result<Option<ReadBatch>, ReadFault>
    requires log { place < length logs.old }
    requires reader { place < length readers.old }
    ensures logs { length logs.new ≡ length logs.old }
    ensures readers { length readers.new ≡ length readers.old }
    ensures given { IfOk result (λ given. (batches : List AnyBatch) → IsLeft D.is_honest D.state D.failures logs.old readers.old place batches
        → Gives (IsLeft D.is_honest D.state D.failures logs.new readers.new place) batches (option_map (λ (b : AnyRead). b.batch) given)) }
    ensures others { (other : ℕ) (batches : List AnyBatch) → other ≢ place → IsLeft D.is_honest D.state D.failures logs.old readers.old other batches
        → IsLeft D.is_honest D.state D.failures logs.new readers.new other batches }
    ensures format { IfOk result (λ given. IfSome given (λ (b : AnyRead). IsReadable b.batch)) }
    ensures read { LogsAreRead D.is_honest D.state D.failures (is_ok result) logs.old logs.new }
    ensures plain { AreNumbered readers.old → AreNumbered readers.new × KeepPlain logs.old logs.new }
{
    logs[place].read_again(alloc, &mut readers[place])
}

// Why a log was not read again. If it has no such header any more, its disk has changed.
fn refusal_of(fault: ReadFault) -> Refusal
    ensures { (result ≡ Memory) ⊎ (result ≡ Device) }
{
    match fault {
        ReadFault::Memory => Refusal::Memory,
        ReadFault::Device | ReadFault::Bad { .. } => Refusal::Device,
    }
}

// The slot of this number.
fn slot_of(number: u8) -> Slot
    requires { number < 2 }
    ensures { number_of result ≡ number }
{
    if number == 0 {
        Slot::First
    } else {
        Slot::Second
    }
}

/// A reader of each worker's chain.
pub(crate) fn readers_of(alloc: Global, chains: &Chains) -> Result<Vec<ChainReader>, AllocError>
    requires { chains.now.generation ≤ 2 ^ 59 }
    ensures { IfOk result (λ readers. readers.items ≡ readers_of chains.now) }
{
    let mut readers = Vec::new(alloc);
    for begun in &chains.begun {
        readers.push(ChainReader::new(chains.generation, *begun))?;
    }
    Ok(readers)
}
