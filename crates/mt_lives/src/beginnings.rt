//! A new store.

ghost use Rattle.std.specs.Prelude.{◌≡◌, ◌<◌, ◌≤◌, true, List, length, Some, IfOk, IfErr};
ghost use Rattle.mt_disk.specs.{declared.mem.MemDisk.{MemDisk as AnyDisk}, Mem.mem_state};
ghost use Rattle.mt_slots.specs.{declared.store_slots.StoreSlots.{StoreSlots as AnySlots}, Calls.MakesBoth};
ghost use Rattle.mt_lives.specs.declared.live_slots.LiveSlots.TheVariants.{Rest};
ghost use Rattle.mt_state.specs.Begins.{HaveNoPairs};
ghost use Rattle.mt_store_logs.specs.{declared.store_log.StoreLog.{StoreLog as AnyLog}, Places.AreInOrder, Opens.{AreClosedOn, MakesAll}};
ghost use Rattle.mt_lives.specs.{declared.serving.Serving.{Serving as AnyServing}, Lives.{new_standing, IsMemoryOrDevice}, Holds.Holds};

use crate::live_slots::LiveSlots;
use crate::running::Store;
use crate::serving::Serving;
use mt_core::State;
use mt_disk::MemDisk;
use mt_log_files::WorkerFiles;
use mt_rows::{Refusal, Tenants};
use mt_slots::StoreSlots;
use mt_store_logs::{closed_logs, create_logs};
use std::alloc::Global;

/// A new store on these files. The logs are made before the slots. Errors: `Device`, `Memory`.
pub(crate) fn created(
    alloc: Global,
    tenants: &Tenants,
    files: Vec<WorkerFiles<MemDisk>>,
    mut slots: StoreSlots<MemDisk>,
) -> Result<Store, Refusal>
    requires some { 0 < length files.items }
    requires few { length files.items ≤ 64 }
    requires empty { HaveNoPairs tenants.now }
    ensures ok { IfOk result (λ store. Holds tenants.now store.slots new_standing store.logs.items store.serving) }
    ensures count { IfOk result (λ store. length store.logs.items ≡ length files.items) }
    ensures order { IfOk result (λ store. AreInOrder store.logs.items) }
    ensures made { IfOk result (λ store. (closed : List (AnyLog AnyDisk)) × AreClosedOn (length files.items) files.items closed × MakesAll (λ (d : AnyDisk). true) mem_state (λ d. d.failures) closed store.logs.items) }
    ensures slots { IfOk result (λ store. (made : AnySlots AnyDisk) × (store.slots ≡ Rest made) × MakesBoth (λ (d : AnyDisk). true) mem_state (λ d. d.failures) slots made) }
    ensures serves { IfOk result (λ store. (serving : AnyServing) × (store.serving ≡ Some serving)) }
    ensures err { IfErr result IsMemoryOrDevice }
{
    let mut logs = closed_logs(alloc, files)?;
    if let Err(refused) = create_logs(&mut logs) {
        return Err(refused.refusal);
    }
    if let Err(fault) = slots.create() {
        return Err(fault.cause.refusal());
    }
    let state = State::new(alloc, logs.len() as u8, tenants.copied()?)?;
    state.facts();
    let serving = Some(Serving::new(alloc, state, 1));
    Ok(Store {
        logs,
        slots: LiveSlots::Rest(slots),
        serving,
    })
}
