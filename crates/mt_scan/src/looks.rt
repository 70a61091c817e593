//! What Snap looks for in the entries of a border node.

ghost use Rattle.std.specs.{Prelude.{◌≡◌, ◌≤◌, ◌/◌, ◌++◌, ◌∷◌, ℕ, [], take, IsTrue, ◌↔◌, Some, OnOk, IfOk, IfErr}, Int.{w64, to_be_bytes}, List.All};
ghost use Rattle.mt_slices.specs.{Marks.IsMark, Slices.piece_bytes};
ghost use Rattle.mt_border.specs.{Held.Link, HeldParts.pair_in_parts, Contents.row_of, Entry.pair_of, Node.entries_of, Rows.entry_seen};
ghost use Rattle.mt_readings.specs.{Reading.{read, stop}, Tenancies.own_pairs};
ghost use Rattle.mt_scan.specs.{Snaps.IsOver, Looks.{behind_at, has_unstable, TellsLink, NamesTenant, IsOfTenant, EndsAt}};

use crate::fence::Fence;
use mt_border::{Border, EntryRef, Held, HeldRef, PairParts};
use mt_operation::{Seen, Stop};
use mt_rows::StampedRow;
use mt_slices::Mark;
use std::alloc::AllocError;

/// Whether an unstable slot stands among the entries from the fence on, up to the first link.
pub(crate) fn has_unstable(border: &Border, fence: Fence<'_>) -> bool
    ensures { result ≡ has_unstable (behind_at fence.entry.slice fence.entry.mark fence.entry.suffix.now fence.entry.after) (entries_of border.now) }
{
    for entry in border.entries() {
        if fence.is_past(entry) {
            continue;
        }
        match entry.held.seen() {
            HeldRef::Stable(_) => {}
            HeldRef::Unstable(_) => return true,
            HeldRef::Link(_) => return false,
        }
    }
    false
}

/// Notes the tenant's pairs from the fence on, up to the first link, and tells that link's slice and tree.
/// An error comes where memory is refused; some pairs are noted then.
pub(crate) fn see(
    border: &Border,
    prefix: &[u8],
    tenant: u32,
    fence: Fence<'_>,
    seen: &mut Seen,
) -> Result<Option<(u64, usize)>, AllocError>
    requires names { All (NamesTenant prefix.now) (entries_of border.now) }
    requires tenant { IsOfTenant prefix.now tenant }
    ensures seen { OnOk result (seen.new ≡ seen.old ++ own_pairs tenant prefix.now
        (read (behind_at fence.entry.slice fence.entry.mark fence.entry.suffix.now fence.entry.after) (entries_of border.now))) }
    ensures link { IfOk result (TellsLink
        (stop (behind_at fence.entry.slice fence.entry.mark fence.entry.suffix.now fence.entry.after) (entries_of border.now))) }
{
    for entry in border.entries() {
        if fence.is_past(entry) {
            continue;
        }
        match pair_or_tree(entry.held) {
            Ok(pair) => see_pair(prefix, tenant, entry, pair, seen)?,
            Err(tree) => return Ok(Some((entry.slice, tree))),
        }
    }
    Ok(None)
}

// The pair that an entry counts as, or the number of the tree to which it links.
fn pair_or_tree(held: &Held) -> Result<&PairParts, usize>
    ensures pair { IfOk result (λ pair. pair_of held.now ≡ Some (pair_in_parts pair.now)) }
    ensures tree { IfErr result (λ tree. held.now ≡ Link tree) }
{
    match held.seen() {
        HeldRef::Stable(pair) | HeldRef::Unstable(pair) => Ok(pair),
        HeldRef::Link(tree) => Err(tree),
    }
}

// Notes a pair, if it is the tenant's.
fn see_pair(
    prefix: &[u8],
    tenant: u32,
    entry: EntryRef<'_>,
    pair: &PairParts,
    seen: &mut Seen,
) -> Result<(), AllocError>
    requires names { NamesTenant prefix.now (entry_seen entry) }
    requires tenant { IsOfTenant prefix.now tenant }
    ensures { OnOk result (seen.new ≡ seen.old ++ own_pairs tenant prefix.now ((entry_seen entry.entry, pair_in_parts pair.now) ∷ [])) }
{
    let own = entry.slice.to_be_bytes();
    let piece = &own[..bytes_of(entry.mark)];
    if !prefix.is_empty() {
        let row = stamped_row(pair)?;
        seen.push(&prefix[4..], piece, pair.suffix.as_bytes(), row)
    } else if is_own(tenant, entry.slice) {
        let row = stamped_row(pair)?;
        seen.push(&[], &piece[4..], pair.suffix.as_bytes(), row)
    } else {
        Ok(())
    }
}

// A share of a pair's row, with its stamp.
fn stamped_row(pair: &PairParts) -> Result<StampedRow, AllocError>
    ensures { IfOk result (λ row. row ≡ row_of (pair_in_parts pair.now)) }
{
    let row = pair.row.share()?;
    let stamp = pair.stamp;
    Ok(StampedRow { stamp, row })
}

// Whether a slice of the top layer is that of the tenant's keys.
fn is_own(tenant: u32, slice: u64) -> bool
    ensures { IsTrue result ↔ (slice / 4294967296 ≡ tenant) }
{
    slice >> 32 == u64::from(tenant)
}

// How many of the eight bytes of a slice are a key's own.
fn bytes_of(mark: Mark) -> usize
    requires { IsMark mark }
    ensures within { result ≤ 8 }
    ensures piece { (slice : ℕ) → piece_bytes slice mark ≡ take result (to_be_bytes w64 slice) }
{
    match mark {
        Mark::Short(count) => usize::from(count),
        Mark::Long => 8,
    }
}

/// How the stretch ends: at the link, if that is the tenant's; else with the tenant, where the node's range
/// goes so far, or with the node or its tree.
pub(crate) fn stop_at(
    link: Option<(u64, usize)>,
    layer: usize,
    tenant: u32,
    high: Option<u64>,
) -> Stop
    ensures { EndsAt tenant layer link high result }
{
    if let Some((slice, tree)) = link
        && !is_over(layer, tenant, slice)
    {
        return Stop::Link(slice, tree);
    }
    match high {
        None if layer == 0 => Stop::Tenant,
        None => Stop::Tree,
        Some(high) if is_over(layer, tenant, high) => Stop::Tenant,
        Some(high) => Stop::Next(high),
    }
}

// Whether a slice of a layer is that of a greater tenant's keys.
fn is_over(layer: usize, tenant: u32, slice: u64) -> bool
    ensures { IsTrue result ↔ IsOver tenant layer slice }
{
    layer == 0 && slice >> 32 > u64::from(tenant)
}
