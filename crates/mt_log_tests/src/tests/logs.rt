//! Batches, and logs on any disk, that the tests share.

use super::*;
use mt_disk::Disk;
use mt_log::{BatchReader, LoggedBatch, OpenFault, ReadBatch};

/// The header of log 0 of 1, and its closed gate.
pub const EMPTY: [u8; 9] = [0x4d, 0x54, 0x4c, 0x4f, 0x47, 2, 0, 1, 0];

/// What came of a call.
#[derive(Clone, Copy, Debug, PartialEq, Eq)]
pub enum Told {
    /// A log whose batches join and rise, up to this step; and how many these are.
    Front(u64, usize),
    /// A log whose batches don't; its mark, and how many they are.
    Falls(u64, usize),
    /// No log: the number and the offset that are told.
    Bad(u8, u64),
    /// A batch that begins here, not at this mark.
    Turn(u64, u64),
    Device,
    Memory,
}

/// A put of tenant 7, key 6b, column 76.
pub fn put_at(stamp: u64) -> Change {
    put(stamp, 0, b'k', b'v')
}

/// Appends a batch of that put over step `from` and up to step `to`, or gives the log's disk back.
pub fn append<D: Disk>(
    alloc: Global,
    log: LogFile<D>,
    from: u64,
    to: u64,
    stamp: u64,
) -> Result<LogFile<D>, (D, Told)> {
    append_all(alloc, log, &[put_at(stamp)], from, to)
}

/// Appends a batch of these changes, or gives the log's disk back.
pub fn append_all<D: Disk>(
    alloc: Global,
    log: LogFile<D>,
    placed: &[Change],
    from: u64,
    to: u64,
) -> Result<LogFile<D>, (D, Told)> {
    let Ok(batch) = batch_of(alloc, placed, 0, from, to) else {
        return Err((log.into_disk(), Told::Memory));
    };
    match log.append(alloc, batch) {
        Ok(log) => Ok(log),
        Err(AppendFault::WrongTurn(log, batch, mark)) => {
            Err((log.into_disk(), Told::Turn(batch.from, mark)))
        }
        Err(AppendFault::Memory(log, _)) => Err((log.into_disk(), Told::Memory)),
        Err(AppendFault::Device(log, _)) => Err((log.into_disk(), Told::Device)),
    }
}

/// Appends batches of a step each, up to this step or the first call that fails. Gives the disk and the mark that was reached.
pub fn append_up_to<D: Disk>(alloc: Global, log: LogFile<D>, last: u64) -> (D, u64) {
    let mut log = log;
    for from in log.mark()..last {
        log = match append(alloc, log, from, from + 1, from + 1) {
            Ok(log) => log,
            Err((disk, _)) => return (disk, from),
        };
    }
    let mark = log.mark();
    (log.into_disk(), mark)
}

/// Opens a disk and appends to it in this way. Where it doesn't open, its mark is 0.
pub fn go_on<D: Disk>(alloc: Global, disk: D, last: u64) -> (D, u64) {
    match LogFile::open(alloc, disk) {
        Ok((log, _front)) => append_up_to(alloc, log, last),
        Err(fault) => (not_opened(fault).0, 0),
    }
}

/// The disk that an opening gave back, and why.
pub fn not_opened<D: Disk>(fault: OpenFault<D>) -> (D, Told) {
    match fault {
        OpenFault::Device(disk) => (disk, Told::Device),
        OpenFault::Memory(disk) => (disk, Told::Memory),
        OpenFault::BadLog {
            disk,
            number,
            offset,
        } => (disk, Told::Bad(number, offset)),
    }
}

// Whether the stamps of a batch rise strictly, over its beginning and up to its end.
fn rises(batch: &LoggedBatch) -> bool {
    batch.fall().is_none() && batch.from() <= batch.to()
}

// What is told of batches, by whether each begins where the one before it ends, and rises.
fn joined(mark: u64, batches: &[LogBatch]) -> Told {
    let (mut step, mut are_joined) = (0, true);
    for batch in batches {
        let in_order = match batch {
            LogBatch::Records(batch) | LogBatch::OldRecords(batch) => rises(batch),
            LogBatch::Resume { from, to, kept } => from <= to && kept <= to,
        };
        are_joined = are_joined && in_order && batch.from() == step;
        step = batch.to();
    }
    if are_joined && step == mark {
        Told::Front(step, batches.len())
    } else {
        Told::Falls(mark, batches.len())
    }
}

/// What comes of opening a disk, and the disk.
pub fn opened_on<D: Disk>(alloc: Global, disk: D) -> (D, Told) {
    match LogFile::open(alloc, disk) {
        Ok((log, front)) => {
            let mark = log.mark();
            (log.into_disk(), joined(mark, &front.batches))
        }
        Err(fault) => not_opened(fault),
    }
}

/// The front of a log in a plain file with these bytes.
pub fn front_of(alloc: Global, image: &[u8]) -> Result<Front, AllocError> {
    match LogFile::open(alloc, disk_with(alloc, image, 0, 99)?) {
        Ok((_log, front)) => Ok(front),
        Err(_) => Err(AllocError),
    }
}

// Whether these are printed alike.
fn are_alike(alloc: Global, batch: &LogBatch, other: &LogBatch) -> Result<bool, AllocError> {
    let text = format!(in alloc; "{batch:?}")?;
    Ok(text.as_str() == format!(in alloc; "{other:?}")?.as_str())
}

/// The records of a log that is read again, if that gives the batches of its front and no others.
pub fn read_again<D: Disk>(
    alloc: Global,
    log: &mut LogFile<D>,
    kind: FileKind,
    front: &Front,
) -> Result<Option<Vec<Record>>, AllocError> {
    let begun = BatchReader::begin(alloc, log, kind);
    let mut reader = begun.ok().ok_or(AllocError)?;
    let mut records = Vec::new(alloc);
    for batch in &front.batches {
        let Ok(Some(read)) = reader.next(alloc, log) else {
            return Ok(None);
        };
        let ReadBatch {
            batch: again,
            records: mut more,
        } = read;
        records.append(&mut more)?;
        if !are_alike(alloc, &again, batch)? {
            return Ok(None);
        }
    }
    match reader.next(alloc, log) {
        Ok(None) => Ok(Some(records)),
        _ => Ok(None),
    }
}

/// A disk on which this image is durable, one call of which fails, and all from another on.
pub fn disk_with(alloc: Global, image: &[u8], fail: u64, stop: u64) -> Result<MemDisk, AllocError> {
    let (image, fails) = (image.to_vec(alloc)?, [fail].to_vec(alloc)?);
    MemDisk::with_image(alloc, image, fails, Some(stop))
}

/// What comes of opening a file with these bytes.
pub fn opened(alloc: Global, image: &[u8]) -> Result<Told, AllocError> {
    let (_disk, told) = opened_on(alloc, disk_with(alloc, image, 0, 99)?);
    Ok(told)
}
