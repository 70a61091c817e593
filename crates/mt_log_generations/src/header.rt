//! A header of format 3 as its bytes, and back.

ghost use Rattle.std.specs.Prelude.{◌≡◌, ◌↔◌, IsTrue, IfOk, IfErr};
ghost use Rattle.mt_log_generations.specs.{declared.header.Header.Header, Headers.{header_bytes, begun_text, parity_of, IsHeader, FitsEightBytes}, Reading.{IsHeaderIn, AreBad}};

use crate::fault::HeaderFault;

// The number of the format.
const FORMAT: u8 = 3;

// The greatest number of logs.
const MAX_LOGS: u8 = 64;

// The greatest step, and the greatest generation.
const MAX_STEP: u64 = 1 << 59;

/// Where the header begins, after the outer gate.
pub(crate) const HEADER_AT: usize = 1;

/// The bytes of a header.
pub(crate) const HEADER_BYTES: usize = 24;

/// What a numbered file's header says: whose log it is, of how many, its generation, and the step after which it begins.
#[derive(Clone, Copy, Debug, PartialEq, Eq)]
pub struct Header {
    pub worker: u8,
    pub logs: u8,
    pub generation: u64,
    pub start: u64,
}

/// The text of a log without batches: its header and a closed batch gate.
pub(crate) fn begun(header: Header) -> [u8; 25]
    ensures { result ≡ begun_text header }
{
    let generation = header.generation.to_be_bytes();
    let start = header.start.to_be_bytes();
    [
        b'M',
        b'T',
        b'L',
        b'O',
        b'G',
        FORMAT,
        header.worker,
        header.logs,
        generation[0],
        generation[1],
        generation[2],
        generation[3],
        generation[4],
        generation[5],
        generation[6],
        generation[7],
        start[0],
        start[1],
        start[2],
        start[3],
        start[4],
        start[5],
        start[6],
        start[7],
        0,
    ]
}

/// Which of a worker's two numbered files: generation g has its log in the one that has g's parity.
#[derive(Clone, Copy, Debug, PartialEq, Eq)]
pub enum Parity {
    /// `wal-WW-0`.
    Even,
    /// `wal-WW-1`.
    Odd,
}

impl Parity {
    /// That of a generation.
    pub fn of(generation: u64) -> Parity
        ensures { result ≡ parity_of generation }
    {
        if generation % 2 == 0 {
            Parity::Even
        } else {
            Parity::Odd
        }
    }
}

// Whether each number has its limits.
fn is_header(header: Header) -> bool
    ensures { IsTrue result ↔ IsHeader header }
{
    header.worker < header.logs
        && header.logs <= MAX_LOGS
        && header.generation >= 1
        && header.generation <= MAX_STEP
        && header.start <= MAX_STEP
}

// The numbers at their places in a header: those of the header that these bytes are, if they are one.
fn numbers_of(bytes: &[u8; 24]) -> Header
    ensures is { (h : Header) → FitsEightBytes h → bytes.now ≡ header_bytes h → result ≡ h }
    ensures fits { FitsEightBytes result }
{
    let generation = u64::from_be_bytes([
        bytes[8], bytes[9], bytes[10], bytes[11], bytes[12], bytes[13], bytes[14], bytes[15],
    ]);
    let start = u64::from_be_bytes([
        bytes[16], bytes[17], bytes[18], bytes[19], bytes[20], bytes[21], bytes[22], bytes[23],
    ]);
    Header {
        worker: bytes[6],
        logs: bytes[7],
        generation,
        start,
    }
}

/// The header that these bytes are. A number past its limits is refused with the worker, all else with 0.
pub fn header_of(bytes: &[u8; 24]) -> Result<Header, HeaderFault>
    ensures ok { IfOk result (IsHeaderIn bytes.now) }
    ensures err { IfErr result (AreBad bytes.now) }
{
    let header = numbers_of(bytes);
    let text = begun(header);
    let (spelled, _) = text.split_at(HEADER_BYTES);
    if bytes.as_slice() != spelled {
        return Err(HeaderFault::Bad(0));
    }
    if !is_header(header) {
        return Err(HeaderFault::Bad(header.worker));
    }
    Ok(header)
}
