//! A worker's chain, read again from its files that are open.

ghost use Rattle.std.specs.{Prelude.{◌≡◌, ◌≤◌, ◌^◌, ℕ, List, Some, is_ok, IsTrue, IfOk, IfSome}, Option.option_map};
ghost use Rattle.mt_log.specs.declared.batch.{LogBatch.{LogBatch as AnyBatch}, ReadBatch.{ReadBatch as AnyRead}};
ghost use Rattle.mt_log_files.specs.Slots.{file_of, with_file};
ghost use Rattle.mt_recover.specs.Sources.{Gives, IsReadable};
ghost use Rattle.mt_chain_files.specs.Rereads.{kind_of, reader_from, SlotIsRead, FilesAreRead, AreToGive, LogIsAhead, ChainIsAhead, NextIsAhead, Counts, IsNumbered};
ghost use Rattle.mt_log.specs.Rereading.{IsOnlyRead};

use mt_disk::Disk;
use mt_log::{BatchReader, FileKind, LogFile, ReadBatch, ReadFault};
use mt_log_files::WorkerFiles;
use mt_log_generations::Parity;
use mt_recover::LogSlot;
use std::alloc::Global;

/// Reads a worker's chain again, batch by batch: its log of one generation, and then that of the next one, if it has one.
#[derive(Clone, Copy)]
pub struct ChainReader {
    generation: u64,
    next: Option<u64>,
    reader: Option<BatchReader>,
}

impl ChainReader {
    /// Of the chain from a generation on, which has a log of the next one or not.
    pub fn new(generation: u64, begun: bool) -> ChainReader
        requires { generation ≤ 2 ^ 59 }
        ensures { result ≡ reader_from generation (Some begun) }
    {
        ChainReader {
            generation,
            next: if begun { Some(generation + 1) } else { None },
            reader: None,
        }
    }

    /// The next batch of the chain. None after the last one, and if a place has no open log, or no batch stands where the
    /// log goes on. Over disks that keep their rules each batch is given that an opening told of. An error gives none, and
    /// leaves the files open.
    pub fn read<D: Disk + Drop>(
        &mut self,
        alloc: Global,
        files: &mut WorkerFiles<D>,
    ) -> Result<Option<ReadBatch>, ReadFault>
        ensures ahead { IfOk result (λ given. (batches : List AnyBatch) → ChainIsAhead D.is_honest D.state batches files.old self.old
            → Gives (λ rest. ChainIsAhead D.is_honest D.state rest files.new self.new) batches (option_map (λ (b : AnyRead). b.batch) given)) }
        ensures format { IfOk result (λ given. IfSome given (λ (b : AnyRead). IsReadable b.batch)) }
        ensures read { FilesAreRead D.is_honest D.state D.failures (is_ok result) files.old files.new }
        ensures plain { IsNumbered self.old → IsNumbered self.new × (files.new.plain ≡ files.old.plain) }
    {
        match self.step(alloc, files)? {
            Some(given) => Ok(Some(given)),
            None => self.go_on(alloc, files),
        }
    }

    // The first batch of the next log.
    fn go_on<D: Disk + Drop>(
        &mut self,
        alloc: Global,
        files: &mut WorkerFiles<D>,
    ) -> Result<Option<ReadBatch>, ReadFault>
        ensures ahead { IfOk result (λ given. (batches : List AnyBatch) → NextIsAhead D.is_honest D.state self.old.generation self.old.next batches files.old self.old.reader
            → Gives (λ rest. ChainIsAhead D.is_honest D.state rest files.new self.new) batches (option_map (λ (b : AnyRead). b.batch) given)) }
        ensures format { IfOk result (λ given. IfSome given (λ (b : AnyRead). IsReadable b.batch)) }
        ensures read { FilesAreRead D.is_honest D.state D.failures (is_ok result) files.old files.new }
        ensures plain { IsNumbered self.old → IsNumbered self.new × (files.new.plain ≡ files.old.plain) }
    {
        match self.next {
            Some(next) => {
                *self = ChainReader {
                    generation: next,
                    next: None,
                    reader: None,
                };
                self.step(alloc, files)
            }
            None => Ok(None),
        }
    }

    // The next batch of the log that it is at.
    fn step<D: Disk + Drop>(
        &mut self,
        alloc: Global,
        files: &mut WorkerFiles<D>,
    ) -> Result<Option<ReadBatch>, ReadFault>
        ensures ahead { IfOk result (λ given. (batches : List AnyBatch)
            → LogIsAhead D.is_honest D.state (kind_of self.old.generation) batches (file_of self.old.generation files.old) self.old.reader
            → Gives (λ rest. LogIsAhead D.is_honest D.state (kind_of self.old.generation) rest (file_of self.old.generation files.new) self.new.reader) batches (option_map (λ (b : AnyRead). b.batch) given)) }
        ensures format { IfOk result (λ given. IfSome given (λ (b : AnyRead). IsReadable b.batch)) }
        ensures read { SlotIsRead D.is_honest D.state D.failures (is_ok result) (file_of self.old.generation files.old) (file_of self.old.generation files.new) }
        ensures files { files.new ≡ with_file self.old.generation (file_of self.old.generation files.new) files.old }
        ensures place { self.new ≡ record self.old { reader = self.new.reader } }
    {
        let mut slot = files.replace(self.generation, LogSlot::Away);
        let given = read_slot(alloc, &mut slot, kind_of(self.generation), &mut self.reader);
        let _away = files.replace(self.generation, slot);
        given
    }
}

// Of which kind the file of a generation's log is.
fn kind_of(generation: u64) -> FileKind
    ensures { result ≡ kind_of generation }
{
    if generation == 0 {
        FileKind::Plain
    } else {
        FileKind::Numbered(Parity::of(generation))
    }
}

// The next batch of the log in a place, none if none is open there.
fn read_slot<D: Disk + Drop>(
    alloc: Global,
    slot: &mut LogSlot<D>,
    kind: FileKind,
    reader: &mut Option<BatchReader>,
) -> Result<Option<ReadBatch>, ReadFault>
    ensures ahead { IfOk result (λ given. (batches : List AnyBatch) → LogIsAhead D.is_honest D.state kind batches slot.old reader.old
        → Gives (λ rest. LogIsAhead D.is_honest D.state kind rest slot.new reader.new) batches (option_map (λ (b : AnyRead). b.batch) given)) }
    ensures format { IfOk result (λ given. IfSome given (λ (b : AnyRead). IsReadable b.batch)) }
    ensures read { SlotIsRead D.is_honest D.state D.failures (is_ok result) slot.old slot.new }
{
    match slot {
        LogSlot::Open(log) => read_log(alloc, log, kind, reader),
        LogSlot::Failed(_) | LogSlot::Closed(_) | LogSlot::Away => Ok(None),
    }
}

// The next batch of a log.
fn read_log<D: Disk>(
    alloc: Global,
    log: &mut LogFile<D>,
    kind: FileKind,
    reader: &mut Option<BatchReader>,
) -> Result<Option<ReadBatch>, ReadFault>
    ensures ahead { IsTrue (D.is_honest log.old.disk) → IfOk result (λ given. (batches : List AnyBatch) → AreToGive D.is_honest D.state kind batches log.old reader.old
        → Gives (λ rest. AreToGive D.is_honest D.state kind rest log.new reader.new) batches (option_map (λ (b : AnyRead). b.batch) given)) }
    ensures format { IfOk result (λ given. IfSome given (λ (b : AnyRead). IsReadable b.batch)) }
    ensures log { IsOnlyRead D.is_honest D.state log.old log.new }
    ensures count { Counts (is_ok result) (D.failures log.old.disk) (D.failures log.new.disk) }
{
    let mut at = match *reader {
        Some(at) => at,
        None => BatchReader::begin(alloc, log, kind)?,
    };
    let given = at.next(alloc, log)?;
    *reader = Some(at);
    Ok(given)
}
