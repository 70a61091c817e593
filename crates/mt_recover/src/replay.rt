//! The records that a recovery replays, in the order of their stamps.

ghost use Rattle.std.specs.Prelude.{◌≡◌, ◌⊎◌, length, map, None, IfOk, IfErr, OnOk, IsPermutation, if◌then◌else◌};
ghost use Rattle.mt_rows.specs.{Tenants.{Contents as Pairs}, TenantPairs.pairs_of, declared.refusal.Refusal.TheVariants.{Memory}};
ghost use Rattle.mt_log.specs.Contents.{contents_of};
ghost use Rattle.mt_crashes.specs.{Fronts.{Numbers, all_voids, is_replayed, with_replayed}, Recoveries.AreSet};
ghost use Rattle.mt_recover.specs.{Falls.first_fall, Orders.DontFall, Pairs.Ascend, Changes.AreAfter, Sources.AreLeft, Takes.{ReadAgain, StopsTaking}, Replays.{counts, Knows, AreReplayed, IsReplayed}};

use crate::changes::{Changes, add};
use crate::merging::merged;
use crate::records::{begin, take_record};
use crate::source::Source;
use crate::voids::{Walk, is_next_void, voids};
use mt_log::Front;
use mt_rows::{Record, Refusal, TenantPair};
use std::alloc::{AllocError, Global};
use std::collections::BTreeMap;

/// The pairs after the changes of all logs with a stamp over `base`, at most `cutoff`, and not void. The logs are read
/// again for it.
pub(crate) fn replay<S: Source>(
    alloc: Global,
    source: &mut S,
    fronts: &mut [Front],
    pairs: Vec<TenantPair>,
    base: u64,
    cutoff: u64,
) -> Result<Vec<TenantPair>, Refusal>
    requires logs { S.logs source.old ≡ length fronts.old }
    requires set { AreSet (map contents_of fronts.old) }
    requires rise { first_fall (map contents_of fronts.old) ≡ None }
    requires ascend { Ascend pairs.items }
    ensures read { ReadAgain S.logs S.follows S.left source.old (map contents_of fronts.old) (AreLeft (S.left source.old) (map contents_of fronts.old)) source.new (map contents_of fronts.new) }
    ensures replayed { IfOk result (λ after. IsReplayed (map contents_of fronts.new) base cutoff (pairs_of pairs.items) (pairs_of after.items)) }
    ensures ascend { IfOk result (λ after. Ascend after.items) }
    ensures stops { IfErr result (λ e. (e ≡ Memory) ⊎ StopsTaking S.logs S.follows S.left S.refused (AreLeft (S.left source.old) (map contents_of fronts.old)) source.new (map contents_of fronts.new) e) }
{
    let mut voids = voids(alloc, fronts)?;
    voids.sort_unstable_by_key(|void| void.0);
    let changes = changed(alloc, source, fronts, &voids, &pairs, base, cutoff)?;
    Ok(merged(alloc, pairs, changes)?)
}

// What these changes leave at each key, by ranges in the order of their first numbers.
fn changed<S: Source>(
    alloc: Global,
    source: &mut S,
    fronts: &mut [Front],
    voids: &[(u64, u64)],
    pairs: &[TenantPair],
    base: u64,
    cutoff: u64,
) -> Result<Changes, Refusal>
    requires logs { S.logs source.old ≡ length fronts.old }
    requires set { AreSet (map contents_of fronts.old) }
    requires rise { first_fall (map contents_of fronts.old) ≡ None }
    requires ascend { Ascend pairs.now }
    requires order { DontFall (λ (v : Numbers). v.0) 0 voids.now }
    requires voids { IsPermutation (all_voids (map contents_of fronts.old)) voids.now }
    ensures read { ReadAgain S.logs S.follows S.left source.old (map contents_of fronts.old) (AreLeft (S.left source.old) (map contents_of fronts.old)) source.new (map contents_of fronts.new) }
    ensures replayed { IfOk result (AreReplayed (map contents_of fronts.new) base cutoff (pairs_of pairs.now)) }
    ensures stops { IfErr result (λ e. (e ≡ Memory) ⊎ StopsTaking S.logs S.follows S.left S.refused (AreLeft (S.left source.old) (map contents_of fronts.old)) source.new (map contents_of fronts.new) e) }
{
    let mut lanes = begin(alloc, source, fronts)?;
    let mut walk = Walk::default();
    let mut changes = BTreeMap::new(alloc);
    while let Some(record) = take_record(alloc, source, fronts, &mut lanes)? {
        replay_one(
            alloc,
            &mut changes,
            pairs,
            record,
            voids,
            &mut walk,
            base,
            cutoff,
        )?;
    }
    Ok(changes)
}

// Makes the change of a record, if it is replayed.
fn replay_one(
    alloc: Global,
    changes: &mut Changes,
    pairs: &[TenantPair],
    change: Record,
    voids: &[(u64, u64)],
    walk: &mut Walk,
    base: u64,
    cutoff: u64,
) -> Result<(), AllocError>
    requires ascend { Ascend pairs.now }
    requires order { DontFall (λ (v : Numbers). v.0) 0 voids.now }
    requires knows { Knows voids.now change.stamp walk.old }
    ensures replayed { OnOk result ((m : Pairs) → AreAfter changes.old (pairs_of pairs.now) m → AreAfter changes.new (pairs_of pairs.now) (if is_replayed voids.now base cutoff change then with_replayed m change else m)) }
    ensures knows { OnOk result (Knows voids.now change.stamp walk.new) }
{
    if !counts(change.stamp, voids, walk, base, cutoff) {
        return Ok(());
    }
    add(alloc, changes, pairs, change)
}

// Whether a record of this stamp is replayed.
fn counts(stamp: u64, voids: &[(u64, u64)], walk: &mut Walk, base: u64, cutoff: u64) -> bool
    requires order { DontFall (λ (v : Numbers). v.0) 0 voids.now }
    requires knows { Knows voids.now stamp walk.old }
    ensures is { result ≡ counts voids.now base cutoff stamp }
    ensures knows { Knows voids.now stamp walk.new }
{
    base < stamp && stamp <= cutoff && !is_next_void(voids, walk, stamp)
}
