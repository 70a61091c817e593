//! A store that is owned alone: a state, a log for each of its workers, and the slots of its checkpoints.

ghost use Rattle.std.specs.Prelude.{◌≡◌, ◌<◌, ◌≤◌, ◌↔◌, length, vec_len, IfOk, IfErr, IfSome, IsTrue, OnOk, IsSome};
ghost use Rattle.mt_state.specs.Begins.{HaveNoPairs, new_state};
ghost use Rattle.mt_book.specs.Keeping.{IsUnasked};
ghost use Rattle.mt_store_logs.specs.{Opens.AreClosedOn, Places.AreInOrder};
ghost use Rattle.mt_stored.specs.Stores.{no_memory};

use crate::beginning::bring_up_and_begin;
use crate::keeping::Learns;
use crate::source::OwnState;
use log::Log;
use mt_book::Book;
use mt_core::State;
use mt_disk::Disk;
use mt_log_files::WorkerFiles;
use mt_rows::{Refusal, Tenants};
use mt_settle::{Logs, next_generation, settle};
use mt_slots::StoreSlots;
use mt_store_logs::{
    Flushed, Generations, LogRefusal, NoWatch, RecoveredStore, StoreLog, StoreRefusal, Watch,
    bring_up, closed_logs, create_logs, recover_store,
};
use std::alloc::{AllocError, Global};
use std::sync::Wait;
use std::sync::ledger::Ledger;
use std::time::Clock;

/// A state, the log of each of its workers, in their order, and the slots of its checkpoints. One without logs
/// keeps nothing, and has no slots.
#[derive(Drop)]
pub struct Store<D: Disk + Drop> {
    source: OwnState,
    logs: Vec<StoreLog<D>>,
    slots: Option<StoreSlots<D>>,
    ghost all: { length source.state.logs ≡ vec_len logs },
    ghost order: { AreInOrder logs.items },
}

// No memory, for none of the files.
const NO_MEMORY: StoreRefusal = StoreRefusal::Logs(LogRefusal {
    log: None,
    refusal: Refusal::Memory,
});

impl<D: Disk + Drop> Store<D> {
    ghost use Rattle.mt_settle.specs.Settles.{StopsSettling};
    ghost use Rattle.mt_stored.specs.NextTurns.{IsNextTurn};
    ghost use Rattle.mt_stored.specs.Stores.{IsNewStore, IsNotMade, IsRecoveredStore, IsNotRecoveredStore, IsSettled, DoesStore};

    /// A store that keeps nothing: a new state without logs.
    pub fn without_logs(alloc: Global, tenants: Tenants) -> Result<Store<D>, AllocError>
        requires { HaveNoPairs tenants }
        ensures new { IfOk result (λ store. store.source.state ≡ new_state 0 tenants) }
        ensures unasked { IfOk result (λ store. IsUnasked store.source.state) }
    {
        let state = State::new(alloc, 0, tenants)?;
        Ok(Store {
            source: OwnState { state },
            logs: Vec::new(alloc),
            slots: None,
        })
    }

    /// A new store over the files of 1 to 64 workers, whatever they held, with the log of a worker on each, in their
    /// order, and over two slots. The logs are made before the slots.
    ///
    /// An error tells the log or the slot whose disk failed, or that memory was refused. The disks are gone then,
    /// and may hold anything.
    pub fn create(
        alloc: Global,
        files: Vec<WorkerFiles<D>>,
        mut slots: StoreSlots<D>,
        tenants: Tenants,
    ) -> Result<Store<D>, StoreRefusal>
        requires some { 0 < vec_len files }
        requires few { vec_len files ≤ 64 }
        requires empty { HaveNoPairs tenants }
        ensures ok { IfOk result (λ store. IsNewStore D.is_honest D.state D.failures files.items slots tenants store.source.state store.logs.items store.slots) }
        ensures unasked { IfOk result (λ store. IsUnasked store.source.state) }
        ensures err { IfErr result (IsNotMade (vec_len files)) }
    {
        let mut logs = closed(alloc, files)?;
        create_logs(&mut logs)?;
        slots.create()?;
        match State::new(alloc, logs.len() as u8, tenants) {
            Ok(state) => Ok(Store {
                source: OwnState { state },
                logs,
                slots: Some(slots),
            }),
            Err(_) => Err(NO_MEMORY),
        }
    }

    /// The store that the files of 1 to 64 workers and two slots hold, recovered, and each of its logs with the batch
    /// with which a recovery ends.
    ///
    /// An error tells the slot that was not read, the log that was not opened, got no such batch or was not given up, or
    /// why there is no recovery. The disks are gone then, and can be recovered again.
    pub fn recover(
        alloc: Global,
        files: Vec<WorkerFiles<D>>,
        slots: StoreSlots<D>,
        tenants: Tenants,
    ) -> Result<Store<D>, StoreRefusal>
        requires few { vec_len files ≤ 64 }
        requires empty { HaveNoPairs tenants }
        ensures ok { IfOk result (λ store. IsRecoveredStore D.is_honest D.state D.failures files.items slots tenants store.source.state store.logs.items store.slots) }
        ensures unasked { IfOk result (λ store. IsUnasked store.source.state) }
        ensures err { IfErr result (IsNotRecoveredStore D.is_honest D.state D.failures files.items slots tenants) }
    {
        Store::recover_watched(alloc, files, slots, tenants, &mut NoWatch)
    }

    /// The same, with somebody who is told how far it is.
    pub fn recover_watched<W: Watch>(
        alloc: Global,
        files: Vec<WorkerFiles<D>>,
        mut slots: StoreSlots<D>,
        tenants: Tenants,
        watch: &mut W,
    ) -> Result<Store<D>, StoreRefusal>
        requires few { vec_len files ≤ 64 }
        requires empty { HaveNoPairs tenants }
        ensures ok { IfOk result (λ store. IsRecoveredStore D.is_honest D.state D.failures files.items slots tenants store.source.state store.logs.items store.slots) }
        ensures unasked { IfOk result (λ store. IsUnasked store.source.state) }
        ensures err { IfErr result (IsNotRecoveredStore D.is_honest D.state D.failures files.items slots tenants) }
    {
        let mut logs = closed(alloc, files)?;
        let RecoveredStore {
            recovered,
            generation: _,
        } = recover_store(alloc, &mut logs, &mut slots, &tenants, watch)?;
        let count = logs.len() as u8;
        match State::restore(alloc, recovered.resume, count, tenants, recovered.pairs) {
            Ok(state) => Ok(Store {
                source: OwnState { state },
                logs,
                slots: Some(slots),
            }),
            Err(_) => Err(NO_MEMORY),
        }
    }

    /// A store of these, if the logs are as many as the state has, and each stands at its worker's place.
    pub fn joined(
        state: State,
        logs: Vec<StoreLog<D>>,
        slots: Option<StoreSlots<D>>,
    ) -> Option<Store<D>>
        ensures some { IfSome result (λ store. (store.source.state ≡ state) × (store.logs ≡ logs) × (store.slots ≡ slots)) }
        ensures when { IsSome result ↔ ((length state.logs ≡ vec_len logs) × AreInOrder logs.items) }
    {
        if usize::from(state.logs()) != logs.len() {
            return None;
        }
        if !are_in_order(&logs) {
            return None;
        }
        Some(Store {
            source: OwnState { state },
            logs,
            slots,
        })
    }

    /// The state.
    pub fn state(&self) -> &State
        ensures { result.now ≡ self.now.source.state }
    {
        &self.source.state
    }

    /// The state, its logs and its slots.
    pub fn into_parts(self) -> (State, Vec<StoreLog<D>>, Option<StoreSlots<D>>)
        ensures state { result.0 ≡ self.source.state }
        ensures logs { result.1 ≡ self.logs }
        ensures slots { result.2 ≡ self.slots }
    {
        let Store {
            source,
            logs,
            slots,
        } = self;
        (source.state, logs, slots)
    }

    /// The generation to which the next turn of all logs goes. It is 0 if there are no logs, or if no generation is left.
    pub fn next_turn<R: Wait>(&self, rt: &R) -> u64
        ensures { IsNextTurn self.now.logs.items result }
    {
        next_generation(rt, self).unwrap_or(0)
    }

    /// Settles for the last time: with Ok every log goes up to the last step that was made. A store without
    /// logs has nothing to settle. An error is that of the first log that was not brought up to date.
    pub fn settle_last<R: Wait + Clock + Log>(
        &mut self,
        rt: &R,
        alloc: Global,
    ) -> Result<(), Refusal>
        ensures settled { OnOk result (IsSettled self.new.source.state self.new.logs.items) }
        ensures state { self.new.source.state.steps ≡ self.old.source.state.steps }
        ensures err { IfErr result (StopsSettling (λ old turn new. DoesStore D.is_honest D.state D.failures turn old.source old.logs.items new.source new.logs.items) (vec_len self.old.logs) self.old self.new) }
    {
        if self.logs.is_empty() {
            return Ok(());
        }
        let _ = settle(rt, alloc, self)?;
        Ok(())
    }
}

impl<D: Disk + Drop> Logs for Store<D> {
    ghost use Rattle.mt_stored.specs.Stores.{DoesStore};
    ghost use Rattle.std.specs.Prelude.{vec_len};

    ghost logs = { λ s. vec_len s.logs };

    ghost does = { λ old turn new. DoesStore D.is_honest D.state D.failures turn old.source old.logs.items new.source new.logs.items };

    fn count(&self) -> u8 {
        self.source.state.logs()
    }

    fn bring_up<R: Wait + Clock + Log>(
        &mut self,
        _rt: &R,
        alloc: Global,
        log: u8,
    ) -> Result<Flushed, Refusal> {
        let steps = self.source.state.steps();
        bring_up(
            alloc,
            &mut self.logs[usize::from(log)],
            &mut self.source,
            steps,
        )
    }

    fn begin_next<R: Wait + Clock + Log>(
        &mut self,
        _rt: &R,
        alloc: Global,
        log: u8,
        generation: u64,
    ) -> Result<Flushed, Refusal> {
        let steps = self.source.state.steps();
        bring_up_and_begin(
            alloc,
            &mut self.logs[usize::from(log)],
            &mut self.source,
            steps,
            generation,
        )
    }

    fn give_up_older<R: Wait + Clock + Log>(&mut self, _rt: &R, log: u8) -> Result<(), Refusal> {
        self.logs[usize::from(log)].give_up_older()
    }

    fn generations<R: Wait>(&self, _rt: &R, log: u8) -> Result<Generations, Refusal> {
        Ok(self.logs[usize::from(log)].generations())
    }
}

/// A store that is owned alone learns nothing of a book.
impl<L: Ledger, D: Disk + Drop> Learns<Book<L>> for Store<D> {
    ghost use Rattle.std.specs.Prelude.{◌≡◌};

    ghost learns = { λ old book new. new ≡ old };

    fn learn(&mut self, _book: &Book<L>) {}
}

// Closed logs on these files, in their order.
fn closed<D: Disk + Drop>(
    alloc: Global,
    files: Vec<WorkerFiles<D>>,
) -> Result<Vec<StoreLog<D>>, StoreRefusal>
    requires { vec_len files ≤ 64 }
    ensures ok { IfOk result (λ logs. AreClosedOn (vec_len files) files.items logs.items) }
    ensures count { IfOk result (λ logs. vec_len logs ≡ vec_len files) }
    ensures err { IfErr result (λ e. e ≡ no_memory) }
{
    match closed_logs(alloc, files) {
        Ok(logs) => Ok(logs),
        Err(_) => Err(NO_MEMORY),
    }
}

// Whether each log stands at its worker's place.
fn are_in_order<D: Disk + Drop>(logs: &[StoreLog<D>]) -> bool
    ensures { IsTrue result ↔ AreInOrder logs.now }
{
    for place in 0..logs.len() {
        if usize::from(logs[place].worker()) != place {
            return false;
        }
    }
    true
}
