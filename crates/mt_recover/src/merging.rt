//! One merge of pairs that ascend and of changes.

ghost use Rattle.std.specs.{Prelude.{◌≡◌, ◌++◌, ◌∷◌, true, false, ℕ, Option, IfOk, OnOk, MatchOption}, declared.cmp.Ordering.TheVariants.Less, Ordering.{is_lt, is_eq}, Option.option_map};
ghost use Rattle.mt_rows.specs.{Rows.Bytes, Stamps.Stamped, Tenants.owned_cmp, TenantPairs.{owner_of, pairs_of}, declared.record.TenantPair.{TenantPair as AnyPair}};
ghost use Rattle.mt_tape.specs.Histories.{with_row};
ghost use Rattle.std.specs.FinMap as fin;
ghost use Rattle.mt_recover.specs.{Pairs.{Ascend, AreBefore, first_order, pair_for}, Changes.AreAfter};

use crate::changes::{Changes, order};
use mt_rows::{Key, StampedRow, TenantPair};
use std::alloc::{AllocError, Global};
use std::cmp::Ordering;
use std::collections::VecDeque;

/// Pairs after changes, by tenant and key. Each pair is moved, or changed by the changes of its key. If nothing
/// changes, the list stays.
pub(crate) fn merged(
    alloc: Global,
    pairs: Vec<TenantPair>,
    changes: Changes,
) -> Result<Vec<TenantPair>, AllocError>
    requires { Ascend pairs.items }
    ensures after { IfOk result (λ ps. AreAfter changes (pairs_of pairs.items) (pairs_of ps.items)) }
    ensures ascend { IfOk result (λ ps. Ascend ps.items) }
{
    if changes.is_empty() {
        return Ok(pairs);
    }
    let mut left = VecDeque::from(pairs);
    let listed = with_changes(alloc, &mut left, changes)?;
    with_rest(listed, left)
}

// The pairs up to the last change, after the changes. Those behind it are left.
fn with_changes(
    alloc: Global,
    left: &mut VecDeque<TenantPair>,
    changes: Changes,
) -> Result<Vec<TenantPair>, AllocError>
    requires { Ascend left.old.items }
    ensures after { IfOk result (λ listed. AreAfter changes (pairs_of left.old.items) (pairs_of (listed.items ++ left.new.items))) }
    ensures ascend { IfOk result (λ listed. Ascend (listed.items ++ left.new.items)) }
{
    let mut listed = Vec::with_capacity(alloc, left.len().max(changes.len()))?;
    for (owner, row) in changes {
        make(&mut listed, left, owner, row)?;
    }
    Ok(listed)
}

// Lists the pairs before an owner that comes after all listed ones, and the pair that its row makes. The pair that it
// had is let go.
fn make(
    listed: &mut Vec<TenantPair>,
    left: &mut VecDeque<TenantPair>,
    owner: (u32, Key),
    row: Option<StampedRow>,
) -> Result<(), AllocError>
    requires ascend { Ascend (listed.old.items ++ left.old.items) }
    requires before { AreBefore owner listed.old.items }
    ensures pairs { OnOk result (pairs_of (listed.new.items ++ left.new.items) ≡ with_row (pairs_of (listed.old.items ++ left.old.items)) owner row) }
    ensures ascend { OnOk result (Ascend (listed.new.items ++ left.new.items)) }
    ensures before { OnOk result ((next : ℕ × Bytes) → owned_cmp owner next ≡ Less → AreBefore next listed.new.items) }
{
    list_before(listed, left, &owner)?;
    drop(take_first(left, &owner));
    list_row(listed, owner, row)
}

// Lists the pair of an owner, if it has a row.
fn list_row(
    listed: &mut Vec<TenantPair>,
    owner: (u32, Key),
    row: Option<StampedRow>,
) -> Result<(), AllocError>
    ensures { OnOk result (listed.new.items ≡ listed.old.items ++ pair_for owner row) }
{
    if let Some(row) = row {
        let (tenant, key) = owner;
        listed.push(TenantPair { tenant, key, row })?;
    }
    Ok(())
}

// Lists the pairs before an owner.
fn list_before(
    listed: &mut Vec<TenantPair>,
    left: &mut VecDeque<TenantPair>,
    owner: &(u32, Key),
) -> Result<(), AllocError>
    requires before { AreBefore owner.now listed.old.items }
    ensures same { OnOk result (listed.new.items ++ left.new.items ≡ listed.old.items ++ left.old.items) }
    ensures before { OnOk result (AreBefore owner.now listed.new.items) }
    ensures all { OnOk result (is_lt (first_order owner.now left.new.items) ≡ false) }
{
    while let Some(pair) = next_before(left, owner) {
        listed.push(pair)?;
    }
    Ok(())
}

// The next pair, if it comes before an owner.
fn next_before(left: &mut VecDeque<TenantPair>, owner: &(u32, Key)) -> Option<TenantPair>
    ensures { MatchOption result ((left.new.items ≡ left.old.items) × (is_lt (first_order owner.now left.old.items) ≡ false)) (λ p. (left.old.items ≡ p ∷ left.new.items) × (is_lt (owned_cmp (owner_of p) owner.now) ≡ true)) }
{
    if first_order(left, owner).is_lt() {
        left.pop_front()
    } else {
        None
    }
}

// Takes the next pair, if it is the owner's.
fn take_first(left: &mut VecDeque<TenantPair>, owner: &(u32, Key)) -> Option<TenantPair>
    ensures { MatchOption result ((left.new.items ≡ left.old.items) × (is_eq (first_order owner.now left.old.items) ≡ false)) (λ p. (left.old.items ≡ p ∷ left.new.items) × (is_eq (owned_cmp (owner_of p) owner.now) ≡ true)) }
{
    if first_order(left, owner).is_eq() {
        left.pop_front()
    } else {
        None
    }
}

// How the next pair's owner stands to another one. If none is left, it stands after it.
fn first_order(left: &VecDeque<TenantPair>, owner: &(u32, Key)) -> Ordering
    ensures { result ≡ first_order owner.now left.now.items }
{
    match left.front() {
        Some(pair) => order(pair, owner),
        None => Ordering::Greater,
    }
}

// Listed pairs, and all that are left.
fn with_rest(
    mut listed: Vec<TenantPair>,
    left: VecDeque<TenantPair>,
) -> Result<Vec<TenantPair>, AllocError>
    ensures { IfOk result (λ ps. ps.items ≡ listed.items ++ left.items) }
{
    for pair in left {
        listed.push(pair)?;
    }
    Ok(listed)
}
