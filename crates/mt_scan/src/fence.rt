//! Where a scan stands among the entries of a border node.

ghost use Rattle.std.specs.Prelude.{◌≡◌};
ghost use Rattle.mt_slices.specs.{Marks.mark_rank, Slices.{HasLayer, slice_of, mark_of, suffix_of}};
ghost use Rattle.mt_border.specs.Rows.{entry_seen};
ghost use Rattle.mt_scan.specs.Looks.{behind_at};

use mt_border::{EntryRef, HeldRef};
use mt_slices::{Mark, StoredKey};
use std::cmp::Ordering;

/// The fence that a scan has reached, as a layer sees it, and whether the key at the fence is done with too.
#[derive(Clone, Copy)]
pub(crate) struct Fence<'a> {
    pub slice: u64,
    pub mark: Mark,
    pub suffix: &'a [u8],
    pub after: bool,
}

/// The fence of a key in a layer.
pub(crate) fn fence_of(key: &StoredKey, layer: usize, after: bool) -> Fence<'_>
    requires { HasLayer key.now layer }
    ensures slice { result.slice ≡ slice_of key.now layer }
    ensures mark { result.mark ≡ mark_of key.now layer }
    ensures suffix { result.suffix.now ≡ suffix_of key.now layer }
    ensures after { result.after ≡ after }
{
    Fence {
        slice: key.slice(layer),
        mark: key.mark(layer),
        suffix: key.suffix(layer),
        after,
    }
}

impl<'a> Fence<'a> {
    /// Whether the fence is past an entry, so that the scan is done with it. A link stands behind all keys of its
    /// slice that end there, and for all that go on.
    pub(crate) fn is_past(self, entry: EntryRef<'_>) -> bool
        ensures { result ≡ behind_at self.entry.slice self.entry.mark self.entry.suffix.now self.entry.after (entry_seen entry.entry) }
    {
        if entry.slice != self.slice {
            return entry.slice < self.slice;
        }
        let own = rank(entry.mark);
        let reached = rank(self.mark);
        if own != reached {
            return own < reached;
        }
        match entry.held.seen() {
            HeldRef::Link(_) => false,
            HeldRef::Stable(pair) | HeldRef::Unstable(pair) => {
                match pair.suffix.as_bytes().cmp(self.suffix) {
                    Ordering::Less => true,
                    Ordering::Equal => self.after,
                    Ordering::Greater => false,
                }
            }
        }
    }
}

// Where a mark stands in their order.
fn rank(mark: Mark) -> u8
    ensures { result ≡ mark_rank mark }
{
    match mark {
        Mark::Short(count) => count,
        Mark::Long => 9,
    }
}
