//! What the tree of the next layer begins with: its prefix, and the entry of the key that is there.
//!
//! Errors: `AllocError`. Units: bytes.

ghost use Rattle.std.specs.Prelude.{◌≡◌, ◌<◌, ◌+◌, ◌*◌, IfOk, length, take, drop};
ghost use Rattle.mt_slices.specs.Slices.{mark_at};
ghost use Rattle.mt_border.specs.{Held.{Pair as AnyPair}, Held.Stable, HeldParts.pair_in_parts, Entry.IsStablePair, Node.{IsLive, entry_at}};
ghost use Rattle.mt_layer.specs.NewLayers.{entry_below};

use mt_arena::Prefix;
use mt_border::{Border, Entry, Held, HeldRef, Pair, PairParts, Suffix};
use mt_slices::{Mark, StoredKey, slice_at};
use std::alloc::{AllocError, Global};

// The bytes of a slice.
const SLICE_BYTES: usize = 8;

// How many of the first eight bytes there are, or that more follow.
fn mark_at(bytes: &[u8]) -> Mark
    ensures { result ≡ mark_at bytes.now }
{
    let own = bytes.len();
    if own <= SLICE_BYTES {
        Mark::Short(own as u8)
    } else {
        Mark::Long
    }
}

// What follows the first eight bytes.
fn rest_behind(bytes: &[u8]) -> &[u8]
    ensures { result.now ≡ drop 8 bytes.now }
{
    &bytes[bytes.len().min(SLICE_BYTES)..]
}

// The entry that the pair of a longer key has in the next layer.
fn entry_of(alloc: Global, pair: &PairParts) -> Result<Entry, AllocError>
    ensures { IfOk result (λ entry. entry ≡ entry_below (pair_in_parts pair.now)) }
{
    let rest = pair.suffix.as_bytes();
    let suffix = Suffix::from_slice(alloc, rest_behind(rest))?;
    let row = pair.row.share()?;
    Ok(Entry {
        slice: slice_at(rest),
        mark: mark_at(rest),
        held: Held::stable(Pair::new(alloc, suffix, row, pair.stamp)?),
    })
}

/// The entry that the pair of a slot has in the next layer.
pub(crate) fn entry_below(alloc: Global, border: &Border, slot: usize) -> Result<Entry, AllocError>
    requires live { IsLive border.now slot }
    requires stable { IsStablePair (entry_at border.now slot).held }
    ensures { (pair : AnyPair) → (entry_at border.now slot).held ≡ Stable pair → IfOk result (λ entry. entry ≡ entry_below pair) }
{
    match border.load(slot).map(Held::seen) {
        Some(HeldRef::Stable(pair)) => entry_of(alloc, pair),
        _ => unreachable!(),
    }
}

/// The first bytes of all keys that begin as this one does down to the layer.
pub(crate) fn prefix_below(
    alloc: Global,
    key: &StoredKey,
    layer: usize,
) -> Result<Prefix, AllocError>
    requires { 8 * (layer + 1) < length key.now }
    ensures { IfOk result (λ prefix. prefix ≡ take (8 * (layer + 1)) key.now) }
{
    let bytes = key.as_bytes();
    let prefix = Vec::from_slice(alloc, &bytes[..SLICE_BYTES * (layer + 1)])?;
    Ok(Prefix::new(prefix))
}
