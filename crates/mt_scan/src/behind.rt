//! Where a scan goes on behind a stretch of keys that it has kept.

ghost use Rattle.std.specs.Prelude.{◌≡◌, ◌≤◌, ℕ, length, IfOk};
ghost use Rattle.mt_slices.specs.Keys.{IsStoredKey};
ghost use Rattle.mt_scan.specs.Goings.{HasBehind, IsNextFence};

use mt_operation::Stop;
use mt_slices::StoredKey;
use std::alloc::{AllocError, Global};

/// The next fence of a scan.
#[derive(Drop)]
pub(crate) enum NextFence {
    /// None: the tenant has no keys there.
    Over,
    /// The one that it has, which is behind the stretch already.
    Here,
    /// This key.
    At(StoredKey),
}

/// The next fence behind a stretch of keys of a tree that ends so. An error comes where memory is refused.
pub(crate) fn next_fence(
    alloc: Global,
    prefix: &[u8],
    key: &StoredKey,
    stop: Stop,
) -> Result<NextFence, AllocError>
    requires { HasBehind prefix.now stop }
    ensures { IfOk result (IsNextFence prefix.now key.now stop) }
{
    match stop {
        Stop::Link(slice, _) => behind_link(alloc, prefix, key, slice),
        Stop::Next(slice) => Ok(stored_fence(StoredKey::least_from(alloc, prefix, slice)?)),
        Stop::Tree => match StoredKey::least_behind(alloc, prefix)? {
            Some(fence) => Ok(stored_fence(fence)),
            None => Ok(NextFence::Over),
        },
        Stop::Tenant => Ok(NextFence::Over),
    }
}

// Behind a link's own prefix, unless the scan is there already: it may have begun within the link's tree.
fn behind_link(
    alloc: Global,
    prefix: &[u8],
    key: &StoredKey,
    slice: u64,
) -> Result<NextFence, AllocError>
    requires { length prefix.now ≤ 246 }
    ensures { (tree : ℕ) → IfOk result (IsNextFence prefix.now key.now (Stop.Link slice tree)) }
{
    let fence = StoredKey::least_through(alloc, prefix, slice)?;
    // For the proof: the fence is a stored key.
    let _bytes = fence.as_bytes();
    if *key < fence {
        Ok(NextFence::At(fence))
    } else {
        Ok(NextFence::Here)
    }
}

// This key, which may be stored.
fn stored_fence(fence: StoredKey) -> NextFence
    ensures is { result ≡ NextFence.At fence }
    ensures stored { IsStoredKey fence }
{
    // For the proof: the fence is a stored key.
    let _bytes = fence.as_bytes();
    NextFence::At(fence)
}
