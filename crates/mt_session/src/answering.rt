//! Answering what has been read, as far as one call is to go.

ghost use Rattle.std.specs.Prelude.{◌≡◌, ◌≤◌, ◌<◌, ◌⊎◌, ℕ, length, OnOk};
ghost use Rattle.mt_session.specs.Answering.{IsAnswered};
ghost use Rattle.mt_streams.specs.Buffering.{Counts};

use crate::ended::ServeFault;
use crate::turns::answer_front;
use bytes::BytesMut;
use mt_caller::Caller;
use mt_streams::Sink;
use std::alloc::Global;

/// How many bytes make the output full: half its room. All replies but those to long scans have room
/// after fewer.
pub const FULL_BYTES: usize = 32_768;

/// Why a call of `answer` stops.
#[derive(Drop)]
pub enum Stop {
    /// What is left of the input is less than a frame.
    Waits,
    /// The output holds `FULL_BYTES` or more, or `calls` requests were answered. What is left of the
    /// input may begin with whole frames.
    Full,
    /// What is left of the input begins with no frame of a request. That was told `BadFrame`, and nothing
    /// after it is answered.
    Refused,
    /// A growth was refused to a command, or a command is stuck.
    Memory,
}

/// Answers the whole requests at the front of the input, one after the other, `calls` at most, and takes
/// them off the input. It stops after the first whose reply leaves the output full.
///
/// The replies come after what the output holds. What has no room there is written before. The caller is asked for
/// `calls` requests at most, also if memory runs out. The only error is that the writer failed.
pub fn answer<C: Caller, W: Sink>(
    alloc: Global,
    caller: &mut C,
    opened: &mut bool,
    input: &mut BytesMut,
    output: &mut BytesMut,
    writer: &mut W,
    calls: u32,
) -> Result<Stop, ServeFault>
    ensures answered { (count : ℕ) × (count ≤ calls) × (result ≡ Ok Stop.Full → (FULL_BYTES ≤ length output.new.items) ⊎ (count ≡ calls)) × (result ≡ Ok Stop.Memory → count < calls)
        × IsAnswered C.exchanges count input.old.items opened.old caller.old (W.contents writer.old) output.old.items result input.new.items opened.new caller.new (W.contents writer.new) output.new.items }
    ensures onward { result ≡ Ok Stop.Full → 0 < calls → length input.new.items < length input.old.items }
    ensures held { OnOk result (length output.old.items ≤ 65536 → length output.new.items ≤ 65536) }
    ensures counts { Counts (W.failures writer.old) (W.failures writer.new) result }
{
    for _ in 0..calls {
        if let Some(stop) = answer_front(alloc, caller, opened, input, output, writer)? {
            return Ok(stop);
        }
        if output.len() >= FULL_BYTES {
            return Ok(Stop::Full);
        }
    }
    Ok(Stop::Full)
}
