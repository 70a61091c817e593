//! The slots of a store as it runs, and the turn of all logs that may be made: a checkpoint is written in one of them.

ghost use Rattle.std.specs.Prelude.{◌≡◌};
ghost use Rattle.mt_slots.specs.Places.{given_up};
ghost use Rattle.mt_lives.specs.{Checks.at_rest, Parts.in_turn};

use crate::serving::Settle;
use mt_disk::MemDisk;
use mt_pages::PageWalk;
use mt_rows::TenantPair;
use mt_slots::{Checkpointing, StoreSlots};
use std::mem;

/// The slots of a store.
#[derive(Drop)]
pub enum LiveSlots {
    /// Both are at rest, and no turn is made.
    Rest(StoreSlots<MemDisk>),
    /// Both are at rest, and a turn goes on at one of the logs.
    Turns(Turn),
    /// A turn goes on at its checkpoint, which is written in one of them.
    Writes(Check),
    /// They are in a call.
    Away,
}

/// A turn at one of its logs.
#[derive(Drop)]
pub struct Turn {
    pub slots: StoreSlots<MemDisk>,
    pub stage: TurnStage,
}

/// What comes next, log by log. After all logs have begun, the checkpoint is written; after that they are settled; and
/// then the older ones are given up.
#[derive(Clone, Copy, Debug)]
pub enum TurnStage {
    /// This log is brought up to date and followed by its next one; after the last log the checkpoint begins.
    Begins(u8),
    /// The next log of this Settle is brought up to date.
    Settles(Settle),
    /// The older log of this worker is given up.
    GivesUp(u8),
}

/// A checkpoint that is being written: its slot, where its walk over all pairs stands, and what comes next.
#[derive(Drop)]
pub struct Check {
    pub writing: Checkpointing<MemDisk>,
    pub walk: PageWalk,
    pub stage: CheckStage,
}

/// What comes next.
#[derive(Drop)]
pub enum CheckStage {
    /// The walk's next scan begins; after its last one the checkpoint ends.
    Begins,
    /// The scan of this name makes a step.
    Scans(u64),
    /// These pairs, which the walk's last page showed, are added.
    Adds(Vec<TenantPair>),
}

impl LiveSlots {
    /// Ends the turn that is made, if one is, and leaves the slots as they stand, as a crash does.
    pub fn rest(&mut self)
        ensures { self.new ≡ at_rest self.old }
    {
        *self = match mem::replace(self, LiveSlots::Away) {
            LiveSlots::Rest(slots) => LiveSlots::Rest(slots),
            LiveSlots::Turns(turn) => LiveSlots::Rest(turn.slots),
            LiveSlots::Writes(check) => LiveSlots::Rest(check.into_slots()),
            LiveSlots::Away => LiveSlots::Away,
        };
    }

    /// Begins a turn, if both are at rest and none is made.
    pub(crate) fn begin_turn(&mut self)
        ensures { self.new ≡ in_turn self.old }
    {
        *self = match mem::replace(self, LiveSlots::Away) {
            LiveSlots::Rest(slots) => LiveSlots::Turns(Turn {
                slots,
                stage: TurnStage::Begins(0),
            }),
            other => other,
        };
    }
}

impl Check {
    // Its slots as they stand.
    fn into_slots(self) -> StoreSlots<MemDisk>
        ensures { result ≡ given_up self.writing }
    {
        let Check {
            writing,
            walk: _,
            stage: _,
        } = self;
        writing.into_slots()
    }
}
