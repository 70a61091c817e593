//! What drains workers: a state that is owned alone, and a book behind its lock.

ghost use Rattle.std.specs.Prelude.{◌≡◌};

use mt_book::{Clerk, drain};
use mt_core::State;
use mt_drains::DrainedBatch;
use mt_history::Naming;
use mt_store_logs::Source;
use std::alloc::AllocError;
use std::sync::Wait;
use std::sync::ledger::Ledger;
use std::time::Clock;

/// A state that is owned alone. It says all that a drain did to it.
#[derive(Drop)]
pub(crate) struct OwnState {
    pub state: State,
}

impl Source for OwnState {
    ghost use Rattle.std.specs.Prelude.{◌<◌, ◌≤◌, length};
    ghost use Rattle.mt_core.specs.Drains.{Drains};

    ghost serves = { λ s worker upto. (worker < length s.state.logs) × (upto ≤ s.state.steps) };

    ghost gives = { λ old new worker batch. Drains old.state new.state worker batch };

    fn drain(&mut self, worker: u8, _upto: u64) -> Result<DrainedBatch, AllocError> {
        self.state.drain(worker)
    }
}

/// A book behind its lock, which others use too, for a clerk. A drain waits till the book has as many steps as it is to go up to.
#[derive(Drop)]
pub(crate) struct SharedBook<'a, L: Ledger, J: Naming, R: Wait + Clock> {
    pub rt: &'a R,
    pub clerk: Clerk<'a, L, J>,
}

impl<L: Ledger, J: Naming, R: Wait + Clock> Source for SharedBook<'_, L, J, R> {
    ghost use Rattle.mt_stored.specs.Shared.{gives_batch};

    ghost serves = { λ s worker upto. Unit {0} };

    ghost gives = { λ old new worker batch. gives_batch old.clerk.mark new.clerk.mark worker batch };

    fn drain(&mut self, worker: u8, upto: u64) -> Result<DrainedBatch, AllocError> {
        drain(self.rt, &mut self.clerk, worker, upto)
    }
}
