//! What a worker keeps its answers in.

ghost use Rattle.std.specs.Prelude.{◌≡◌, ◌↔◌, ◌+◌, ◌<◌, IsTrue, true, false};

use log::Log;
use mt_rows::Refusal;
use mt_settle::{Logs, settle};
use std::alloc::Global;
use std::sync::Wait;
use std::time::Clock;

/// After so many answers a worker's own log has a turn, and one log more.
pub const FLUSH_ANSWERS: u32 = 1_024;

/// So many answers since the last time that logs had a turn for their number.
#[derive(Drop)]
pub struct Since {
    answers: u32,
    pub ghost few: { answers < 1024 },
}

impl Since {
    // Counts an answer; whether it is the 1,024th, after which counting begins anew.
    fn count(&mut self) -> bool
        ensures more { result ≡ false → (self.old.answers + 1 < 1024) × (self.new.answers ≡ self.old.answers + 1) }
        ensures full { result ≡ true → (self.old.answers + 1 ≡ 1024) × (self.new.answers ≡ 0) }
    {
        if self.answers + 1 < FLUSH_ANSWERS {
            self.answers += 1;
            return false;
        }
        self.answers = 0;
        true
    }
}

/// Logs that learn what a desk has seen. Their next turn is made after all of it.
pub trait Learns<D> {
    /// What they learn of a desk.
    ghost learns: { Self → D → Self → Type 0 };

    fn learn(&mut self, desk: &D)
        ensures { learns self.old desk.now self.new };
}

/// The logs in which a worker keeps what it answers, how many answers its own log may lack, and which log is next
/// in its round.
#[derive(Drop)]
pub struct Keeper<S: Logs + Drop> {
    alloc: Global,
    logs: S,
    worker: u8,
    since: Since,
    next: u8,
}

impl<S: Logs + Drop> Keeper<S> {
    ghost use Rattle.mt_stored.specs.Keeping.{Counts, IsTurnNext, keeping};
    ghost use Rattle.mt_settle.specs.Settles.{Settles};

    /// The keeper of a worker, who has answered nothing yet.
    pub fn new(alloc: Global, logs: S, worker: u8) -> Self
        ensures logs { result.logs ≡ logs }
        ensures worker { result.worker ≡ worker }
        ensures since { result.since.answers ≡ 0 }
        ensures next { result.next ≡ 0 }
    {
        Keeper {
            alloc,
            logs,
            worker,
            since: Since { answers: 0 },
            next: 0,
        }
    }

    /// The logs.
    pub fn into_logs(self) -> S
        ensures { result ≡ self.logs }
    {
        self.logs
    }

    /// Whether logs have a turn with the next answer.
    pub fn is_turn_next(&self) -> bool
        ensures { IsTrue result ↔ IsTurnNext S.logs (keeping self.now.logs self.now.worker self.now.since.answers self.now.next) }
    {
        self.since.answers + 1 == FLUSH_ANSWERS && self.worker < self.logs.count()
    }

    /// Counts an answer. At each 1,024th it gives the worker's own log a turn, and then one log more: the next
    /// one of a round over all of them. So a log whose disk failed is opened again, and one whose worker answers
    /// nothing has its changes too. What fails there waits for the log's next turn.
    pub fn count_answer<R: Wait + Clock + Log>(&mut self, rt: &R)
        ensures counts { Counts S.does S.logs (keeping self.old.logs self.old.worker self.old.since.answers self.old.next) (keeping self.new.logs self.new.worker self.new.since.answers self.new.next) }
    {
        if !self.since.count() {
            return;
        }
        let count = self.logs.count();
        if self.worker >= count {
            return;
        }
        let _ = self.logs.bring_up(rt, self.alloc, self.worker);
        let log = self.next % count;
        self.next = log + 1;
        if log != self.worker {
            let _ = self.logs.bring_up(rt, self.alloc, log);
        }
    }

    /// Lets the logs learn what a desk has seen.
    pub fn learn<D>(&mut self, desk: &D)
    where
        S: Learns<D>,
        ensures learns { S.learns self.old.logs desk.now self.new.logs }
        ensures same { (self.new.since ≡ self.old.since) × (self.new.worker ≡ self.old.worker) × (self.new.next ≡ self.old.next) }
    {
        self.logs.learn(desk);
    }

    /// Brings all logs up to date, and answers the step up to which all is kept.
    pub fn settle<R: Wait + Clock + Log>(&mut self, rt: &R) -> Result<u64, Refusal>
        ensures settles { Settles S.does (S.logs self.old.logs) self.old.logs self.new.logs result }
        ensures same { (self.new.since ≡ self.old.since) × (self.new.worker ≡ self.old.worker) × (self.new.next ≡ self.old.next) }
    {
        settle(rt, self.alloc, &mut self.logs)
    }
}
