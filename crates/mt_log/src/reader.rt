//! A log's bytes as its header, its gates and its batches.

ghost use Rattle.std.specs.Prelude.{◌≡◌, ◌<◌, ◌≤◌, ◌^◌, [], ◌∷◌, ◌++◌, ◌↔◌, IsTrue, length, drop, IfSome, IfNone, IfOk, IfErr};
ghost use Rattle.mt_fields.specs.Reading.{Gives};
ghost use Rattle.mt_log_generations.specs.Headers.{header_bytes, parity_of, IsHeader};
ghost use Rattle.mt_log.specs.{Format.{header, IsVersion}, Fronts.HasNoPlainHeader, Reading.{records_at, resume_at, batch_kind_at, batch_in}};
ghost use Rattle.mt_log.specs.declared.reader.FileKind.{FileKind};
ghost use Rattle.mt_log.specs.Stops.{IsHead, IsStart, IsNoHeader, IsBadHeader, IsBadStart, IsBehind};

use crate::batch::ReadBatch;
use crate::fault::{DecodeFault, ReadFault};
use crate::order::is_step;
use crate::records::record_list_of;
use mt_fields::{u8_at, u32_at, u64_at};
use mt_gates::OPEN;
use mt_log_generations::{Header, HeaderFault, Parity, header_of};
use std::alloc::{AllocError, Global};

/// The bytes of a header of format 1 or 2.
pub const HEADER_BYTES: usize = 8;

/// The bytes of the outer gate and of a header of format 3.
pub const NUMBERED_BYTES: usize = 25;

// The greatest number of logs.
const MAX_LOGS: u8 = 64;

/// Of which kind a file is.
#[derive(Clone, Copy)]
pub enum FileKind {
    /// `wal-WW`: its log is of format 1 or 2, and of no generation.
    Plain,
    /// `wal-WW-0` or `wal-WW-1`: its log is of format 3, after an outer gate.
    Numbered(Parity),
}

/// What stands at a gate, by its first bytes alone.
#[derive(Clone, Copy)]
pub enum Head {
    /// A gate that isn't open.
    Shut(u8),
    /// An open gate before a body of so many bytes.
    Open(u32),
    /// No gate, or an open one without a whole length.
    Bad,
}

/// What a log begins with: the number of its format, whose it is, of how many, its generation, the step after which it
/// begins, where its first gate is, and what stands there.
#[derive(Clone, Copy)]
pub struct Start {
    pub version: u8,
    pub worker: u8,
    pub logs: u8,
    pub generation: u64,
    pub start: u64,
    pub place: usize,
    pub head: Head,
}

// The number of the format with old records, of the one without generations, and of that with them.
const OLD_FORMAT: u8 = 1;

const FORMAT: u8 = 2;

const NUMBERED_FORMAT: u8 = 3;

/// What a log begins with in a file of this kind, by its first bytes.
pub fn start_of(kind: FileKind, bytes: &[u8]) -> Result<Start, ReadFault>
    ensures ok { IfOk result (IsStart kind bytes.now) }
    ensures err { IfErr result (IsBadStart kind bytes.now) }
{
    match kind {
        FileKind::Plain => plain_start_of(bytes),
        FileKind::Numbered(parity) => numbered_start_of(parity, bytes),
    }
}

// What a log of format 1 or 2 begins with.
fn plain_start_of(bytes: &[u8]) -> Result<Start, ReadFault>
    ensures ok { IfOk result (IsStart FileKind.Plain bytes.now) }
    ensures err { IfErr result (IsBadStart FileKind.Plain bytes.now) }
{
    let (version, worker, logs) = plain_header_of(bytes).ok_or(HeaderFault::Bad(0))?;
    if worker >= logs || logs > MAX_LOGS {
        return Err(HeaderFault::Bad(worker).into());
    }
    let (_, behind) = bytes.split_at(HEADER_BYTES);
    let head = head_of(behind);
    Ok(Start {
        version,
        worker,
        logs,
        generation: 0,
        start: 0,
        place: HEADER_BYTES,
        head,
    })
}

// What the log of a generation begins with, in the file of this parity.
fn numbered_start_of(parity: Parity, bytes: &[u8]) -> Result<Start, ReadFault>
    ensures ok { IfOk result (IsStart (FileKind.Numbered parity) bytes.now) }
    ensures err { IfErr result (IsBadStart (FileKind.Numbered parity) bytes.now) }
{
    let header = numbered_header_of(parity, bytes)?;
    let (_, behind) = bytes.split_at(NUMBERED_BYTES);
    let head = head_of(behind);
    Ok(Start {
        version: NUMBERED_FORMAT,
        worker: header.worker,
        logs: header.logs,
        generation: header.generation,
        start: header.start,
        place: NUMBERED_BYTES,
        head,
    })
}

// The header of format 3 that an open outer gate stands before, of a generation of this parity.
fn numbered_header_of(parity: Parity, bytes: &[u8]) -> Result<Header, HeaderFault>
    ensures header { IfOk result IsHeader }
    ensures place { IfOk result (λ h. parity_of h.generation ≡ parity) }
    ensures whole { IfOk result (λ h. bytes.now ≡ 1 ∷ (header_bytes h ++ drop 25 bytes.now)) }
    ensures err { IfErr result (IsBadHeader parity bytes.now) }
{
    let header = header_after_gate(bytes)?;
    if Parity::of(header.generation) != parity {
        return Err(HeaderFault::Bad(header.worker));
    }
    Ok(header)
}

// The header of format 3 that an open outer gate stands before.
fn header_after_gate(bytes: &[u8]) -> Result<Header, HeaderFault>
    ensures header { IfOk result IsHeader }
    ensures whole { IfOk result (λ h. bytes.now ≡ 1 ∷ (header_bytes h ++ drop 25 bytes.now)) }
    ensures err { IfErr result (IsNoHeader bytes.now) }
{
    let [gate, behind @ ..] = bytes else {
        return Err(HeaderFault::Bad(0));
    };
    if *gate != OPEN {
        return Err(HeaderFault::Bad(0));
    }
    match behind.split_first_chunk() {
        Some((header, _)) => header_of(header),
        None => Err(HeaderFault::Bad(0)),
    }
}

// The format, the worker and the number of logs that a header names.
fn plain_header_of(bytes: &[u8]) -> Option<(u8, u8, u8)>
    ensures some { IfSome result (λ h. bytes.now ≡ header h.0 h.1 h.2 ++ drop 8 bytes.now) }
    ensures version { IfSome result (λ h. IsVersion h.0) }
    ensures none { IfNone result (HasNoPlainHeader bytes.now) }
{
    if bytes.len() < HEADER_BYTES {
        return None;
    }
    let (front, _) = bytes.split_at(HEADER_BYTES);
    let (version, worker, logs) = (front[5], front[6], front[7]);
    if version < OLD_FORMAT || version > FORMAT {
        return None;
    }
    if front != [b'M', b'T', b'L', b'O', b'G', version, worker, logs].as_slice() {
        return None;
    }
    Some((version, worker, logs))
}

// A gate, and where it is open the length behind it.
fn head_of(bytes: &[u8]) -> Head
    ensures { IsHead bytes.now result }
{
    let [gate, behind @ ..] = bytes else {
        return Head::Bad;
    };
    if *gate != OPEN {
        return Head::Shut(*gate);
    }
    match behind {
        [a, b, c, d, ..] => Head::Open(u32::from_be_bytes([*a, *b, *c, *d])),
        _ => Head::Bad,
    }
}

/// The batch whose body the first so many bytes are, and what stands at the gate behind it. None if they
/// are no batch's body in the format of this number.
pub fn batch_of(
    alloc: Global,
    version: u8,
    size: usize,
    bytes: &[u8],
) -> Result<Option<(ReadBatch, Head)>, AllocError>
    requires few { size < 2 ^ 32 }
    requires within { size ≤ length bytes.now }
    ensures { IfOk result (IsBehind version size bytes.now) }
{
    let (body, behind) = bytes.split_at(size);
    match body_of(alloc, version, body) {
        Ok(read) => Ok(Some((read, head_of(behind)))),
        Err(DecodeFault::Bad) => Ok(None),
        Err(DecodeFault::Memory) => Err(AllocError),
    }
}

// A batch that takes all of the bytes.
#[tactic(auto, unfolding(crate::specs::Reading::batch_in))]
fn body_of(alloc: Global, version: u8, bytes: &[u8]) -> Result<ReadBatch, DecodeFault>
    ensures { Gives (λ read. read.batch) result (batch_in version bytes.now) }
{
    let (kind, rest) = u8_at(bytes)?;
    let (batch, rest) = kind_of(alloc, version, kind, rest)?;
    if !rest.is_empty() {
        return Err(DecodeFault::Bad);
    }
    Ok(batch)
}

#[tactic(auto, unfolding(crate::specs::Reading::batch_kind_at))]
fn kind_of(
    alloc: Global,
    version: u8,
    kind: u8,
    rest: &[u8],
) -> Result<(ReadBatch, &[u8]), DecodeFault>
    ensures { Gives (λ x. (x.0.batch, x.1.now)) result (batch_kind_at version kind rest.now) }
{
    match kind {
        0 if version == OLD_FORMAT => records_of(alloc, true, rest),
        1 => resume_of(alloc, rest),
        2 => records_of(alloc, false, rest),
        _ => Err(DecodeFault::Bad),
    }
}

// A resume batch, behind its first byte.
#[tactic(auto, unfolding(crate::specs::Reading::resume_at))]
fn resume_of(alloc: Global, bytes: &[u8]) -> Result<(ReadBatch, &[u8]), DecodeFault>
    ensures { Gives (λ x. (x.0.batch, x.1.now)) result (resume_at bytes.now) }
{
    let (from, rest) = u64_at(bytes)?;
    let (to, rest) = u64_at(rest)?;
    let (kept, rest) = u64_at(rest)?;
    if !is_step(to) {
        return Err(DecodeFault::Bad);
    }
    Ok((ReadBatch::resume(alloc, from, to, kept), rest))
}

// A batch of records, after its first byte: an old one, or not.
#[tactic(auto, unfolding(crate::specs::Reading::records_at))]
fn records_of(alloc: Global, old: bool, bytes: &[u8]) -> Result<(ReadBatch, &[u8]), DecodeFault>
    ensures { Gives (λ x. (x.0.batch, x.1.now)) result (records_at old bytes.now) }
{
    let (from, rest) = u64_at(bytes)?;
    let (to, rest) = u64_at(rest)?;
    let (count, rest) = u32_at(rest)?;
    let (records, rest) = record_list_of(alloc, old, count as usize, rest)?;
    if !is_step(to) {
        return Err(DecodeFault::Bad);
    }
    Ok((ReadBatch::of_records(old, from, to, records), rest))
}
