//! Replies as bytes.

ghost use Rattle.std.specs.Prelude.{◌≡◌, ◌++◌, length, map, take, IfOk, OnOk, OnErr};
ghost use Rattle.mt_rows.specs.Stamps.{unstamped};
ghost use Rattle.mt_fields.specs.Reading.{Gives, each_at};
ghost use Rattle.mt_wire.specs.{Replies.reply_spelling, Fronts.IsReplyFront};
ghost use Rattle.mt_wire.specs.ReplyReading.{pair_at, pairs_at, found_at, scanned_at, settled_at, reply_kind_at, reply_in, found_stamped_at, stale_at};

use crate::fault::DecodeFault;
use crate::frame::{Announced, LENGTH_BYTES, read_length};
use crate::message::{RefusalNumber, ReplyFront, Shown, WireReply};
use crate::writing::write_reply;
use bytes::BytesMut;
use mt_fields::{string_of, u8_at, u64_at};
use mt_row_fields::row_of;
use mt_rows::{Key, PairList, ShownPairs, StampedRow};
use mt_streams::flush;
use std::alloc::{AllocError, Global};
use std::io;

/// The longest body of a reply's frame: 64 pairs, each of a key of 251 bytes and a row of 16 columns
/// of 1,024 bytes.
pub const REPLY_BYTES: usize = 1_066_882;

/// Writes a reply's frame at the end. An error leaves what was written before.
pub fn encode(reply: &WireReply, out: &mut Vec<u8>) -> Result<(), AllocError>
    ensures ok { OnOk result (out.new.items ≡ out.old.items ++ reply_spelling reply.now) }
    ensures err { OnErr result (out.new.items ≡ out.old.items) }
{
    let len = out.len();
    let written = write_unbuffered(reply, out);
    if written.is_err() {
        out.truncate(len);
        return Err(AllocError);
    }
    Ok(())
}

// Writes a reply's frame at the end, or a beginning of it: a buffer without room keeps nothing back.
fn write_unbuffered(reply: &WireReply, out: &mut Vec<u8>) -> io::Result<()>
    ensures ok { OnOk result (out.new.items ≡ out.old.items ++ reply_spelling reply.now) }
    ensures front { take (length out.old.items) out.new.items ≡ out.old.items }
{
    let mut buffer = BytesMut::new(*out.allocator());
    write_reply(reply, &mut buffer, out)?;
    flush(&mut buffer, out)
}

/// What stands at the front of these bytes. Only a refused growth is an error.
pub fn decode_reply(alloc: Global, bytes: &[u8]) -> Result<ReplyFront, AllocError>
    ensures { IfOk result (IsReplyFront bytes.now) }
{
    match read_length(bytes, REPLY_BYTES) {
        Announced::Partial => Ok(ReplyFront::Partial),
        Announced::Bad => Ok(ReplyFront::Bad),
        Announced::Body(len) => {
            let (_, rest) = bytes.split_at(LENGTH_BYTES);
            let (body, _) = rest.split_at(len);
            match reply_of(alloc, body) {
                Ok(reply) => Ok(ReplyFront::Whole(reply, LENGTH_BYTES + len)),
                Err(DecodeFault::Bad) => Ok(ReplyFront::Bad),
                Err(DecodeFault::Memory) => Err(AllocError),
            }
        }
    }
}

#[tactic(auto, unfolding(crate::specs::ReplyReading::pair_at))]
fn pair_of(alloc: Global, bytes: &[u8]) -> Result<((Key, StampedRow), &[u8]), DecodeFault>
    ensures { Gives (λ x. (unstamped x.0, x.1.now)) result (pair_at bytes.now) }
{
    let (key, rest) = string_of(alloc, bytes)?;
    let key = Key::new(key);
    let (row, rest) = row_of(alloc, rest)?;
    Ok(((key, StampedRow { stamp: 0, row }), rest))
}

fn list_of(
    alloc: Global,
    count: u8,
    bytes: &[u8],
) -> Result<(Vec<(Key, StampedRow)>, &[u8]), DecodeFault>
    ensures { Gives (λ x. (map unstamped x.0.items, x.1.now)) result (each_at pair_at count bytes.now) }
{
    let mut pairs = Vec::with_capacity(alloc, usize::from(count))?;
    let mut rest = bytes;
    for _ in 0..count {
        let (pair, after) = pair_of(alloc, rest)?;
        pairs.push(pair)?;
        rest = after;
    }
    Ok((pairs, rest))
}

#[tactic(auto, using(crate::proofs::Tests::pairs_tests), unfolding(crate::specs::ReplyReading::pairs_at))]
fn pairs_of(alloc: Global, bytes: &[u8]) -> Result<(ShownPairs, &[u8]), DecodeFault>
    ensures { Gives (λ x. (x.0, x.1.now)) result (pairs_at bytes.now) }
{
    let (count, rest) = u8_at(bytes)?;
    let (pairs, rest) = list_of(alloc, count, rest)?;
    if !PairList::fits(&pairs) {
        return Err(DecodeFault::Bad);
    }
    Ok((ShownPairs::of(PairList::new(pairs)), rest))
}

#[tactic(auto, unfolding(crate::specs::ReplyReading::found_at))]
fn found_of(alloc: Global, bytes: &[u8]) -> Result<(WireReply, &[u8]), DecodeFault>
    ensures { Gives (λ x. (x.0, x.1.now)) result (found_at bytes.now) }
{
    let (row, rest) = row_of(alloc, bytes)?;
    Ok((WireReply::Told(Shown::Found(row)), rest))
}

#[tactic(auto, unfolding(crate::specs::ReplyReading::found_stamped_at))]
fn found_stamped_of(alloc: Global, bytes: &[u8]) -> Result<(WireReply, &[u8]), DecodeFault>
    ensures { Gives (λ x. (x.0, x.1.now)) result (found_stamped_at bytes.now) }
{
    let (stamp, rest) = u64_at(bytes)?;
    let (row, rest) = row_of(alloc, rest)?;
    Ok((
        WireReply::Told(Shown::FoundStamped(StampedRow { stamp, row })),
        rest,
    ))
}

#[tactic(auto, unfolding(crate::specs::ReplyReading::stale_at))]
fn stale_of(bytes: &[u8]) -> Result<(WireReply, &[u8]), DecodeFault>
    ensures { Gives (λ x. (x.0, x.1.now)) result (stale_at bytes.now) }
{
    let (stamp, rest) = u64_at(bytes)?;
    Ok((WireReply::Told(Shown::Stale(stamp)), rest))
}

#[tactic(auto, unfolding(crate::specs::ReplyReading::scanned_at))]
fn scanned_of(alloc: Global, bytes: &[u8]) -> Result<(WireReply, &[u8]), DecodeFault>
    ensures { Gives (λ x. (x.0, x.1.now)) result (scanned_at bytes.now) }
{
    let (pairs, rest) = pairs_of(alloc, bytes)?;
    Ok((WireReply::Told(Shown::Pairs(pairs)), rest))
}

#[tactic(auto, unfolding(crate::specs::ReplyReading::settled_at))]
fn settled_of(bytes: &[u8]) -> Result<(WireReply, &[u8]), DecodeFault>
    ensures { Gives (λ x. (x.0, x.1.now)) result (settled_at bytes.now) }
{
    let (number, rest) = u64_at(bytes)?;
    Ok((WireReply::Settled(number), rest))
}

#[tactic(auto, unfolding(crate::specs::ReplyReading::reply_kind_at))]
fn kind_of(alloc: Global, kind: u8, rest: &[u8]) -> Result<(WireReply, &[u8]), DecodeFault>
    ensures { Gives (λ x. (x.0, x.1.now)) result (reply_kind_at kind rest.now) }
{
    match kind {
        0 => Ok((WireReply::Opened, rest)),
        1 => Ok((WireReply::Told(Shown::Absent), rest)),
        2 => found_of(alloc, rest),
        3 => Ok((WireReply::Told(Shown::New), rest)),
        4 => Ok((WireReply::Told(Shown::Replaced), rest)),
        5 => Ok((WireReply::Told(Shown::Removed), rest)),
        6 => scanned_of(alloc, rest),
        7 => settled_of(rest),
        8 => Ok((WireReply::Told(Shown::Full), rest)),
        9 => Ok((WireReply::Told(Shown::NoMemory), rest)),
        10 => found_stamped_of(alloc, rest),
        11 => stale_of(rest),
        12..=128 => Err(DecodeFault::Bad),
        129..=255 => Ok((WireReply::Refused(RefusalNumber::new(kind - 128)), rest)),
    }
}

#[tactic(auto, unfolding(crate::specs::ReplyReading::reply_in))]
fn reply_of(alloc: Global, bytes: &[u8]) -> Result<WireReply, DecodeFault>
    ensures { Gives (λ r. r) result (reply_in bytes.now) }
{
    let (kind, rest) = u8_at(bytes)?;
    let (reply, rest) = kind_of(alloc, kind, rest)?;
    if !rest.is_empty() {
        return Err(DecodeFault::Bad);
    }
    Ok(reply)
}
