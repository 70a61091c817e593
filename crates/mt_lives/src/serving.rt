//! What a store has while it serves.

ghost use Rattle.std.specs.Prelude.{◌≡◌, ◌<◌, ◌^◌, []};
ghost use Rattle.mt_lives.specs.{Parts.TurnsOn, Serving.TidiesServing};

use mt_core::{Roster, State};
use mt_drains::DrainedBatch;
use mt_store_logs::Source;
use std::alloc::{AllocError, Global};
use std::collections::BTreeMap;

/// The state of a life, the names of its events, the Settles that have begun in it, and the generation of logs to which
/// the turn goes that is made, or the next one.
#[derive(Drop)]
pub struct Serving {
    pub state: State,
    pub roster: Roster,
    pub settles: BTreeMap<u64, Settle>,
    pub generation: u64,
}

/// A Settle: after how many steps it began, the log that comes next, and the least step up to which those
/// before it go.
#[derive(Clone, Copy, Debug)]
pub struct Settle {
    pub begun: u64,
    pub next: u8,
    pub least: u64,
}

impl Serving {
    /// A life begins. The next turn goes to this generation.
    pub(crate) fn new(alloc: Global, state: State, generation: u64) -> Self
        ensures state { result.state ≡ state }
        ensures tickets { result.roster.tickets.entries ≡ [] }
        ensures names { result.roster.names.entries ≡ [] }
        ensures settles { result.settles.entries ≡ [] }
        ensures generation { result.generation ≡ generation }
    {
        Serving {
            state,
            roster: Roster::new(alloc),
            settles: BTreeMap::new(alloc),
            generation,
        }
    }

    /// Gives up the writes that neither an operation nor a log needs any more.
    pub(crate) fn tidy(&mut self)
        ensures { TidiesServing self.old self.new }
    {
        self.state.tidy();
        self.state.facts();
    }

    /// A turn has ended. The next one goes to the generation after it.
    pub(crate) fn turn_on(&mut self)
        ensures on { TurnsOn self.old self.new }
        ensures fits { self.old.generation < 2 ^ 64 }
    {
        self.generation = self.generation.saturating_add(1);
    }
}

impl Source for Serving {
    ghost use Rattle.std.specs.Prelude.{◌<◌, ◌≤◌, length};
    ghost use Rattle.mt_lives.specs.Serving.{DrainsServing};

    ghost serves = { λ s worker upto. (worker < length s.state.logs) × (upto ≤ s.state.steps) };

    ghost gives = { DrainsServing };

    fn drain(&mut self, worker: u8, _upto: u64) -> Result<DrainedBatch, AllocError> {
        let drained = self.state.drain(worker);
        self.state.facts();
        drained
    }
}
