//! Crashes of a store, and its recoveries.

ghost use Rattle.std.specs.{Prelude.{◌≡◌, ◌≢◌, ◌≤◌, ◌^◌, true, false, length, IfOk, IfErr, OnOk}, List.All};
ghost use Rattle.mt_rows.specs.TenantPairs.{pairs_of, quota_in, IsTenantPair, AreDistinct, AreStampedUpto, HasTenants, KeepsQuotas};
ghost use Rattle.mt_state.specs.Begins.{HaveNoPairs};
ghost use Rattle.mt_core.specs.{Restores.IsRestored, Rights.IsRightState};
ghost use Rattle.mt_store_logs.specs.Places.{workers_of};
ghost use Rattle.mt_lives.specs.{Returns.{Begins, AreRecovered, AreNotRecovered}, Steps.CrashesTo};
ghost use Rattle.mt_lives.specs.declared.live_slots.LiveSlots.TheVariants.{Rest, Away};
ghost use Rattle.mt_lives.specs.Forced.{MayLeaveAll, AllCrash, IsCrashForced, CrashesFrom};

use crate::events::{CrashImages, StoreNote};
use crate::live_slots::LiveSlots;
use crate::serving::Serving;
use mt_core::State;
use mt_disk::MemDisk;
use mt_recover::Recovered;
use mt_rows::{Refusal, TenantPair, Tenants};
use mt_slots::StoreSlots;
use mt_store_logs::{NoWatch, RecoveredStore, StoreLog, crash_logs, recover_store};
use std::alloc::{AllocError, Global};

/// Gives up a turn that is made. Crashes all disks, each to its image, and recovers the store. `NoSuch` if
/// the disks may not leave these images: then nothing else has changed. After an error some disks have crashed.
pub(crate) fn crash(
    alloc: Global,
    tenants: &Tenants,
    logs: &mut [StoreLog<MemDisk>],
    slots: &mut LiveSlots,
    serving: &mut Option<Serving>,
    images: &CrashImages,
) -> Result<StoreNote, AllocError>
    requires few { length logs.old ≤ 64 }
    requires empty { HaveNoPairs tenants.now }
    requires there { slots.old ≢ Away }
    ensures crashes { IfOk result (λ note. CrashesTo tenants.now slots.old slots.new note logs.old serving.old logs.new serving.new) }
    ensures count { OnOk result (length logs.new ≡ length logs.old) }
    ensures workers { OnOk result (workers_of logs.new ≡ workers_of logs.old) }
    ensures forced { IfOk result (λ note. CrashesFrom tenants.now images.now slots.old slots.new note logs.old logs.new) }
{
    slots.rest();
    match slots {
        LiveSlots::Rest(slots) => crash_at_rest(alloc, tenants, logs, slots, serving, images),
        LiveSlots::Turns(_) | LiveSlots::Writes(_) | LiveSlots::Away => unreachable!(),
    }
}

// The same of slots at rest.
fn crash_at_rest(
    alloc: Global,
    tenants: &Tenants,
    logs: &mut [StoreLog<MemDisk>],
    slots: &mut StoreSlots<MemDisk>,
    serving: &mut Option<Serving>,
    images: &CrashImages,
) -> Result<StoreNote, AllocError>
    requires few { length logs.old ≤ 64 }
    requires empty { HaveNoPairs tenants.now }
    ensures crashes { IfOk result (λ note. CrashesTo tenants.now (Rest slots.old) (Rest slots.new) note logs.old serving.old logs.new serving.new) }
    ensures count { OnOk result (length logs.new ≡ length logs.old) }
    ensures workers { OnOk result (workers_of logs.new ≡ workers_of logs.old) }
    ensures forced { IfOk result (λ note. IsCrashForced tenants.now images.now note slots.old slots.new logs.old logs.new) }
{
    if !crash_all(alloc, logs, slots, images)? {
        return Ok(StoreNote::NoSuch);
    }
    *serving = None;
    match come_back(alloc, tenants, logs, slots) {
        Ok((recovered, begun)) => {
            *serving = Some(begun);
            Ok(StoreNote::Recovered(recovered))
        }
        Err(refusal) => Ok(StoreNote::Refused(refusal)),
    }
}

// Crashes all disks, each to its image. False if they may not leave these: then nothing has changed.
fn crash_all(
    alloc: Global,
    logs: &mut [StoreLog<MemDisk>],
    slots: &mut StoreSlots<MemDisk>,
    images: &CrashImages,
) -> Result<bool, AllocError>
    ensures workers { workers_of logs.new ≡ workers_of logs.old }
    ensures crashed { IfOk result (λ crashed. crashed ≡ true → AllCrash images.now logs.old slots.old logs.new slots.new) }
    ensures unchanged { IfOk result (λ crashed. crashed ≡ false → (logs.new ≡ logs.old) × (slots.new ≡ slots.old) × (¬ MayLeaveAll images.now logs.old slots.old)) }
{
    if !slots.may_leave(&images.first, &images.second) {
        return Ok(false);
    }
    if !crash_logs(alloc, logs, &images.logs)? {
        return Ok(false);
    }
    slots.crash(alloc, &images.first, &images.second)?;
    Ok(true)
}

// Recovers a store from its logs and slots, with what it has when it serves again.
fn come_back(
    alloc: Global,
    tenants: &Tenants,
    logs: &mut [StoreLog<MemDisk>],
    slots: &mut StoreSlots<MemDisk>,
) -> Result<(Recovered, Serving), Refusal>
    requires few { length logs.old ≤ 64 }
    requires empty { HaveNoPairs tenants.now }
    ensures workers { workers_of logs.new ≡ workers_of logs.old }
    ensures recovered { IfOk result (λ r. AreRecovered tenants.now slots.old slots.new r.0 r.1.generation logs.old logs.new) }
    ensures begins { IfOk result (λ r. Begins tenants.now r.0 logs.new r.1) }
    ensures err { IfErr result (λ e. AreNotRecovered tenants.now slots.old slots.new e logs.old logs.new) }
{
    let RecoveredStore {
        recovered,
        generation,
    } = match recover_store(alloc, logs, slots, tenants, &mut NoWatch) {
        Ok(store) => store,
        Err(refused) => return Err(refused.refusal()),
    };
    match restored(alloc, tenants, logs.len() as u8, &recovered) {
        Ok(state) => Ok((recovered, Serving::new(alloc, state, generation + 1))),
        Err(AllocError) => Err(Refusal::Memory),
    }
}

// The state that a recovery leaves.
fn restored(
    alloc: Global,
    tenants: &Tenants,
    logs: u8,
    recovered: &Recovered,
) -> Result<State, AllocError>
    requires logs { logs ≤ 64 }
    requires empty { HaveNoPairs tenants.now }
    requires steps { recovered.now.resume ≤ 2 ^ 59 }
    requires limits { All IsTenantPair recovered.now.pairs.items }
    requires stamps { AreStampedUpto recovered.now.resume recovered.now.pairs.items }
    requires distinct { AreDistinct recovered.now.pairs.items }
    requires tenants { HasTenants (quota_in tenants.now) (pairs_of recovered.now.pairs.items) }
    requires quotas { KeepsQuotas (quota_in tenants.now) (pairs_of recovered.now.pairs.items) }
    ensures restored { IfOk result (λ state. IsRestored recovered.now.resume logs tenants.now recovered.now.pairs.items state) }
    ensures right { IfOk result IsRightState }
{
    let tenants = tenants.copied()?;
    let pairs = copied(alloc, &recovered.pairs)?;
    let state = State::restore(alloc, recovered.resume, logs, tenants, pairs)?;
    state.facts();
    Ok(state)
}

// The same pairs again.
fn copied(alloc: Global, pairs: &[TenantPair]) -> Result<Vec<TenantPair>, AllocError>
    ensures { IfOk result (λ copy. copy.items ≡ pairs.now) }
{
    let mut copy = Vec::new(alloc);
    for pair in pairs {
        copy.push(again(pair)?)?;
    }
    Ok(copy)
}

// The same pair again.
fn again(pair: &TenantPair) -> Result<TenantPair, AllocError>
    ensures { IfOk result (λ copy. copy ≡ pair.now) }
{
    Ok(TenantPair {
        tenant: pair.tenant,
        key: pair.key.clone()?,
        row: pair.row.share()?,
    })
}
