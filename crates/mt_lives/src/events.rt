//! What happens to a store, and what is noted of it.

use mt_recover::Recovered;
use mt_rows::Refusal;
use mt_runs::{Answer, Event, Told};
use mt_store_logs::FileImages;

/// What happens next. Workers and disks are told by their number, from 0 on, Settles by a number of the
/// caller's choice.
#[derive(Debug, Drop)]
pub enum StoreEvent {
    /// An operation is begun, or makes a step. Its answer is taken with its last step.
    Core(Event),
    /// An operation makes a step. If that is its last one, its answer waits till it is taken.
    Move { op: u64 },
    /// The answer of an operation that has made its last step is taken.
    Take { op: u64 },
    /// The state gives up the writes of its tape that neither an operation nor a log needs any more.
    Tidy,
    /// A worker is drained once into its log: of all its changes since, or of the first 4,096.
    Flush { worker: u8 },
    /// A log whose disk failed is opened again, and given the batch that waits for it.
    Reopen { worker: u8 },
    /// A Settle begins.
    SettleBegin { id: u64 },
    /// Its next log has a turn: the log is opened again if its disk failed, and flushed up to the last step.
    SettleNext { id: u64 },
    /// A checkpoint's turn begins, if the newest checkpoint is settled and there are tenants.
    CheckBegin,
    /// It goes on by one part: a log is brought up to date and followed by its next one, the checkpoint begins in the slot
    /// that doesn't have the newest one, a scan of its walk begins or makes a step, what a scan showed is added, the
    /// checkpoint ends, a log is settled, or an older log is given up.
    CheckStep,
    /// A turn that is made is given up. All disks crash at this moment, each to its image, and the store is recovered.
    Crash(CrashImages),
}

/// What a crash leaves of all files: of each log, and of the two slots.
#[derive(Debug, Drop)]
pub struct CrashImages {
    pub logs: Vec<FileImages>,
    pub first: Vec<u8>,
    pub second: Vec<u8>,
}

/// What is noted of an event.
#[derive(Debug, Drop)]
pub enum StoreNote {
    /// What the operation was answered.
    Told(Told),
    /// The operation has made its last step.
    Finished,
    /// Its answer, with which it finished before.
    Took(Answer),
    /// The writes were given up.
    Tidied,
    /// The log has all of its worker's changes up to this step.
    Flushed(u64),
    /// The log is open, and no batch waits for it.
    Reopened,
    /// The Settle has begun, after so many steps.
    Begun(u64),
    /// The Settle's next log has all of its worker's changes; others are left.
    Turned,
    /// So had the last one: all changes up to this step are in the logs.
    Settled(u64),
    /// The turn of a checkpoint has begun, after so many steps.
    CheckBegun(u64),
    /// One log's part of the turn was done; others are left.
    CheckTurned,
    /// The checkpoint itself has begun, after so many steps.
    CheckWrites(u64),
    /// What the scan of its walk was answered. Unless that goes on or showed pairs, the turn is given up.
    CheckTold(Told),
    /// It has the pairs of one scan more.
    CheckAdded,
    /// It has ended, after so many steps, and is the newest one. The turn goes on.
    CheckEnded(u64),
    /// The turn has ended: one generation of logs stands.
    TurnEnded,
    /// The store serves again, with these pairs.
    Recovered(Recovered),
    /// `Device` or `Memory`: after a crash the store does not serve, a turn is given up, and else the log may have to be
    /// opened again.
    Refused(Refusal),
    /// Nothing of that name is open, or is open already, or the disks may not leave what the crash tells. Nothing
    /// has changed, but that a crash gives up a turn. So it is of a turn that may not begin.
    NoSuch,
}
