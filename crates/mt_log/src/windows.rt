//! A log's front, read from its disk a batch at a time.
//!
//! Of the file no more is held than one batch, with the gate and the length after it. A length counts only
//! if as many bytes follow in the file, so that no more is allocated than the file has.

ghost use Rattle.std.specs.Prelude.{◌≡◌, ◌<◌, ◌≤◌, ◌^◌, [], IsTrue, IfOk, IfErr, MatchResult};
ghost use Rattle.mt_rows.specs.Rows.{Bytes};
ghost use Rattle.mt_log.specs.{declared.fault.ReadFault.TheVariants.{Bad}, declared.reader.FileKind.FileKind, Fronts.IsOfKind};
ghost use Rattle.mt_log.specs.{Rereading.{CountsReads, IsNotBad}, Stops.{IsWindow, AreBatches, BeginsSo, IsWithinLimits, IsStop, IsFoundAt, IsRead, IsBadRead, IsStartOf, IsStopOf, IsFrontOf, IsFaultOf}};

use crate::batch::{Front, LogBatch};
use crate::batch_reader::BatchReader;
use crate::fault::ReadFault;
use crate::reader::{FileKind, Head, NUMBERED_BYTES, Start, start_of};
use mt_disk::Disk;
use std::alloc::Global;

/// The bytes of a gate and of the length after it.
pub(crate) const HEAD_BYTES: usize = 5;

/// A log's front as it was read: the gate at `end` is its first that isn't open.
#[derive(Drop)]
pub struct Found {
    pub front: Front,
    pub end: usize,
    pub gate: u8,
    pub mark: u64,
}

/// The front of a log, from a file of this kind and this length.
pub(crate) fn read_front<D: Disk>(
    alloc: Global,
    disk: &mut D,
    kind: FileKind,
    len: usize,
) -> Result<Found, ReadFault>
    requires { len < 2 ^ 63 }
    ensures ok { IfOk result (IsFrontOf kind D.is_honest D.state disk.old len) }
    ensures err { IfErr result (IsFaultOf kind D.is_honest D.state disk.old len) }
    ensures same { IsTrue (D.is_honest disk.old) → D.state disk.new ≡ D.state disk.old }
    ensures honest { D.is_honest disk.new ≡ D.is_honest disk.old }
    ensures count { CountsReads result (D.failures disk.old) (D.failures disk.new) }
{
    let start = read_start(alloc, disk, kind, len)?;
    let mut batches = Vec::new(alloc);
    let (reader, mark) = read_batches(alloc, disk, len, start, &mut batches)?;
    found_of(start, batches, reader, mark)
}

// The front that begins so, and whose batches stop there.
fn found_of(
    start: Start,
    batches: Vec<LogBatch>,
    reader: BatchReader,
    mark: u64,
) -> Result<Found, ReadFault>
    requires limits { IsWithinLimits start }
    requires batches { AreBatches start.version start.start mark batches.items }
    ensures ok { IfOk result (IsFoundAt reader.place) }
    ensures of { IfOk result (λ found. found.front.generation ≡ start.generation) }
    ensures err { IfErr result (λ e. e ≡ Bad start.worker reader.place) }
    ensures told { (kind : FileKind) (image : Bytes) → IsOfKind kind start.generation → BeginsSo image start → IsStop start.version start.place image batches.items reader
        → MatchResult result (IsRead image) (IsBadRead kind image) }
{
    match reader.head {
        Head::Shut(gate) => Ok(Found {
            front: Front {
                version: start.version,
                worker: start.worker,
                logs: start.logs,
                generation: start.generation,
                start: start.start,
                batches,
            },
            end: reader.place,
            gate,
            mark,
        }),
        Head::Open(_) | Head::Bad => Err(ReadFault::Bad {
            number: start.worker,
            offset: reader.place as u64,
        }),
    }
}

/// What a log begins with, from a file of this kind and this length.
pub(crate) fn read_start<D: Disk>(
    alloc: Global,
    disk: &mut D,
    kind: FileKind,
    len: usize,
) -> Result<Start, ReadFault>
    ensures ok { IfOk result (IsStartOf kind D.is_honest D.state disk.old len) }
    ensures err { IfErr result (IsFaultOf kind D.is_honest D.state disk.old len) }
    ensures same { IsTrue (D.is_honest disk.old) → D.state disk.new ≡ D.state disk.old }
    ensures honest { D.is_honest disk.new ≡ D.is_honest disk.old }
    ensures count { CountsReads result (D.failures disk.old) (D.failures disk.new) }
{
    let bytes = read_window(alloc, disk, len, 0, NUMBERED_BYTES + HEAD_BYTES)?;
    start_of(kind, &bytes)
}

// The batches of a log that begins so, up to the first gate that isn't open; and the step up to which they go.
fn read_batches<D: Disk>(
    alloc: Global,
    disk: &mut D,
    len: usize,
    start: Start,
    batches: &mut Vec<LogBatch>,
) -> Result<(BatchReader, u64), ReadFault>
    requires none { batches.old.items ≡ [] }
    requires header { start.place ≤ len }
    requires short { len < 2 ^ 63 }
    ensures ok { IfOk result (λ stop. IsStopOf D.is_honest D.state disk.old len start batches.new.items stop.0 stop.1) }
    ensures err { IfErr result IsNotBad }
    ensures same { IsTrue (D.is_honest disk.old) → D.state disk.new ≡ D.state disk.old }
    ensures honest { D.is_honest disk.new ≡ D.is_honest disk.old }
    ensures count { CountsReads result (D.failures disk.old) (D.failures disk.new) }
{
    let mut reader = BatchReader::new(start, len);
    let mut mark = start.start;
    while let Some(read) = reader.step(alloc, disk)? {
        mark = read.batch.to();
        batches.push(read.batch)?;
    }
    Ok((reader, mark))
}

/// Up to so many bytes of a file of this length, from a place in it on: as many as it has.
pub(crate) fn read_window<D: Disk>(
    alloc: Global,
    disk: &mut D,
    len: usize,
    place: usize,
    count: usize,
) -> Result<Vec<u8>, ReadFault>
    requires { place ≤ len }
    ensures ok { IfOk result (IsWindow D.is_honest D.state disk.old len place count) }
    ensures err { IfErr result IsNotBad }
    ensures same { IsTrue (D.is_honest disk.old) → D.state disk.new ≡ D.state disk.old }
    ensures honest { D.is_honest disk.new ≡ D.is_honest disk.old }
    ensures count { CountsReads result (D.failures disk.old) (D.failures disk.new) }
{
    let size = count.min(len - place);
    let mut bytes = Vec::from_elem(alloc, 0, size)?;
    disk.read(place, &mut bytes)?;
    Ok(bytes)
}
