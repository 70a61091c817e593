//! A checkpoint's bytes as its head and its items. Each byte is read once. The list of pairs grows with the
//! entries that stand there.

ghost use Rattle.std.specs.Prelude.{◌≡◌, [], ◌++◌, drop, IfSome, IfNone, IfOk};
ghost use Rattle.mt_fields.specs.Reading.{Gives};
ghost use Rattle.mt_checkpoint.specs.{Format.head_bytes, Reading.{stamp_at, pair_at, last_at, item_kind_at, item_at, IsHead, HasNoHead, Takes}};

use crate::writer::{FORMAT, HEAD_BYTES, OLD_FORMAT, head};
use mt_fields::{DecodeFault, u8_at, u32_at, u64_at};
use mt_row_fields::{key_of, row_of};
use mt_rows::{StampedRow, TenantPair};
use std::alloc::{AllocError, Global};

/// The most bytes of an item: a first byte, a tenant, a key of 251 bytes, a stamp, a row of 16 columns of 1,024 bytes.
pub const ITEM_BYTES: usize = 16_683;

/// What a checkpoint begins with: the number of its format, and the number of steps before the walk.
#[derive(Clone, Copy)]
pub struct Head {
    pub version: u8,
    pub first: u64,
}

/// What follows a head.
#[derive(Drop)]
pub enum Item {
    Pair(TenantPair),
    /// The end, and the number of steps after the walk.
    Last(u64),
}

/// What follows entries.
#[derive(Clone, Copy)]
pub enum Stop {
    /// More entries may.
    More,
    /// The end.
    Last(u64),
    /// Neither.
    Bad,
}

/// The head, from the bytes after a gate.
pub fn head_of(bytes: &[u8]) -> Option<Head>
    ensures some { IfSome result (λ h. IsHead h × (bytes.now ≡ head_bytes h.version h.first ++ drop 14 bytes.now)) }
    ensures none { IfNone result (HasNoHead bytes.now) }
{
    if bytes.len() < HEAD_BYTES {
        return None;
    }
    let (front, _) = bytes.split_at(HEAD_BYTES);
    let version = front[5];
    if version < OLD_FORMAT || version > FORMAT {
        return None;
    }
    let first = u64::from_be_bytes([
        front[6], front[7], front[8], front[9], front[10], front[11], front[12], front[13],
    ]);
    if front == head(version, first).as_slice() {
        Some(Head { version, first })
    } else {
        None
    }
}

/// The entries of a window after this head, up to what is no entry; or up to its last bytes if it isn't
/// `whole`, that is, if the file goes on after it. How many bytes they have, and what follows them.
pub fn take_items(
    alloc: Global,
    head: Head,
    window: &[u8],
    whole: bool,
    pairs: &mut Vec<TenantPair>,
) -> Result<(usize, Stop), AllocError>
    requires { pairs.old.items ≡ [] }
    ensures { IfOk result (λ r. Takes head window.now whole pairs.new.items r.0 r.1) }
{
    let mut rest = window;
    loop {
        let used = window.len() - rest.len();
        if !whole && rest.len() < ITEM_BYTES {
            return Ok((used, Stop::More));
        }
        let (item, after) = match item_of(alloc, head, rest) {
            Ok(found) => found,
            Err(DecodeFault::Bad) => return Ok((used, Stop::Bad)),
            Err(DecodeFault::Memory) => return Err(AllocError),
        };
        match item {
            Item::Pair(pair) => {
                pairs.push(pair)?;
                rest = after;
            }
            Item::Last(last) => return Ok((used, Stop::Last(last))),
        }
    }
}

#[tactic(auto, unfolding(crate::specs::Reading::item_at))]
fn item_of(alloc: Global, head: Head, bytes: &[u8]) -> Result<(Item, &[u8]), DecodeFault>
    ensures { Gives (λ x. (x.0, x.1.now)) result (item_at head bytes.now) }
{
    let (kind, rest) = u8_at(bytes)?;
    item_kind_of(alloc, head, kind, rest)
}

#[tactic(auto, unfolding(crate::specs::Reading::item_kind_at))]
fn item_kind_of(
    alloc: Global,
    head: Head,
    kind: u8,
    rest: &[u8],
) -> Result<(Item, &[u8]), DecodeFault>
    ensures { Gives (λ x. (x.0, x.1.now)) result (item_kind_at head kind rest.now) }
{
    match kind {
        1 => pair_of(alloc, head, rest),
        2 => last_of(rest),
        _ => Err(DecodeFault::Bad),
    }
}

#[tactic(auto, unfolding(crate::specs::Reading::pair_at))]
fn pair_of(alloc: Global, head: Head, bytes: &[u8]) -> Result<(Item, &[u8]), DecodeFault>
    ensures { Gives (λ x. (x.0, x.1.now)) result (pair_at head bytes.now) }
{
    let (tenant, rest) = u32_at(bytes)?;
    let (key, rest) = key_of(alloc, rest)?;
    let (stamp, rest) = stamp_of(head, rest)?;
    let (row, rest) = row_of(alloc, rest)?;
    let row = StampedRow { stamp, row };
    Ok((Item::Pair(TenantPair { tenant, key, row }), rest))
}

// The stamp of an entry's row. Format 1 tells none: there it is the number of steps before the walk.
#[tactic(auto, unfolding(crate::specs::Reading::stamp_at))]
fn stamp_of(head: Head, bytes: &[u8]) -> Result<(u64, &[u8]), DecodeFault>
    ensures { Gives (λ x. (x.0, x.1.now)) result (stamp_at head bytes.now) }
{
    if head.version == OLD_FORMAT {
        return Ok((head.first, bytes));
    }
    u64_at(bytes)
}

#[tactic(auto, unfolding(crate::specs::Reading::last_at))]
fn last_of(bytes: &[u8]) -> Result<(Item, &[u8]), DecodeFault>
    ensures { Gives (λ x. (x.0, x.1.now)) result (last_at bytes.now) }
{
    let (last, rest) = u64_at(bytes)?;
    Ok((Item::Last(last), rest))
}
