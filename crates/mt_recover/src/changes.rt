//! The changes that a recovery replays: of each tenant's key that changed the row that stands there now.
//!
//! Changes come in the order of their stamps, so each is made of what the last one left.

ghost use Rattle.std.specs.Prelude.{◌≡◌, IfOk, OnOk};
ghost use Rattle.mt_rows.specs.{Tenants.{Contents as Pairs, owned_cmp}, TenantPairs.{owner_of, pairs_of}, Stamps.stamp_in};
ghost use Rattle.mt_crashes.specs.Fronts.{replayed, with_replayed};
ghost use Rattle.mt_recover.specs.{Pairs.Ascend, Changes.AreAfter};
ghost use Rattle.std.specs.FinMap as fin;

use mt_rows::{Key, Record, StampedRow, TenantPair, Write, merge};
use std::alloc::{AllocError, Global};
use std::cmp::Ordering;
use std::collections::BTreeMap;

/// By tenant and key the row that stands there now, none if the pair is gone.
pub(crate) type Changes = BTreeMap<(u32, Key), Option<StampedRow>>;

/// Makes a record's change of what stands at its key: what earlier changes left, or else what a list that ascends has.
pub(crate) fn add(
    alloc: Global,
    changes: &mut Changes,
    pairs: &[TenantPair],
    change: Record,
) -> Result<(), AllocError>
    requires { Ascend pairs.now }
    ensures { OnOk result ((m : Pairs) → AreAfter changes.old (pairs_of pairs.now) m → AreAfter changes.new (pairs_of pairs.now) (with_replayed m change)) }
{
    let Record {
        stamp,
        tenant,
        key,
        write,
    } = change;
    let owner = (tenant, key);
    if let Some(row) = changes.get_mut(&owner) {
        return replay_over(alloc, row, stamp, write);
    }
    let mut row = listed_row(pairs, &owner)?;
    replay_over(alloc, &mut row, stamp, write)?;
    changes.insert(owner, row)?;
    Ok(())
}

// Makes a change of what stands at a key, unless that has its stamp or a later one.
fn replay_over(
    alloc: Global,
    row: &mut Option<StampedRow>,
    stamp: u64,
    write: Write,
) -> Result<(), AllocError>
    ensures { OnOk result (row.new ≡ replayed stamp write row.old) }
{
    if stamp <= stamp_in(row) {
        return Ok(());
    }
    match write {
        Write::Removed => *row = None,
        Write::Whole(whole) => *row = Some(StampedRow { stamp, row: whole }),
        Write::Changed(change) => {
            if let Some(old) = row {
                old.row = merge(alloc, Some(&old.row), &change)?;
                old.stamp = stamp;
            }
        }
    }
    Ok(())
}

// The stamp of a row, 0 of none.
fn stamp_in(row: &Option<StampedRow>) -> u64
    ensures { result ≡ stamp_in row.now }
{
    row.as_ref().map_or(0, |row| row.stamp)
}

// The row of an owner in a list that ascends, shared with it.
fn listed_row(pairs: &[TenantPair], owner: &(u32, Key)) -> Result<Option<StampedRow>, AllocError>
    requires { Ascend pairs.now }
    ensures { IfOk result (λ row. row ≡ fin.get (pairs_of pairs.now) owner.now) }
{
    match pairs.binary_search_by(|pair| order(pair, owner)) {
        Ok(place) => Ok(Some(pairs[place].row.share()?)),
        Err(_) => Ok(None),
    }
}

/// How a pair's owner stands to another one.
pub(crate) fn order(pair: &TenantPair, owner: &(u32, Key)) -> Ordering
    ensures { result ≡ owned_cmp (owner_of pair.now) owner.now }
{
    pair.tenant.cmp(&owner.0).then(pair.key.cmp(&owner.1))
}
