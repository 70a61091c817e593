//! Logs of a store, of which one is brought up to date in a turn.

ghost use Rattle.std.specs.Prelude.{◌≡◌, ◌<◌, ℕ, IfOk};
ghost use Rattle.mt_settle.specs.Turns.{Turn, BroughtUp, BegunNext, GivenUp, Told, mark_told};

use log::Log;
use mt_rows::Refusal;
use mt_store_logs::{Flushed, Generations};
use std::alloc::Global;
use std::sync::Wait;
use std::time::Clock;

/// The logs of a store, one for each worker. `does` is what they say of a turn, and may say nothing.
pub trait Logs {
    /// How many there are.
    ghost logs: { Self → ℕ };

    /// What a turn made of them.
    ghost does: { Self → Turn → Self → Type 0 };

    /// How many there are, 0 where no logs are kept.
    fn count(&self) -> u8
        ensures { result ≡ logs self.now };

    /// Opens a log again if its disk failed, then gives it what its worker has changed since the last time.
    /// Returns that this log was flushed, and up to which step. An error loses nothing: what the log lacks goes
    /// into it before anything else. It may warn through `rt`.
    fn bring_up<R: Wait + Clock + Log>(
        &mut self,
        rt: &R,
        alloc: Global,
        log: u8,
    ) -> Result<Flushed, Refusal>
        requires { log < logs self.old }
        ensures whose { IfOk result (λ flushed. flushed.worker ≡ log) }
        ensures does { does self.old (BroughtUp log (mark_told result)) self.new }
        ensures same { logs self.new ≡ logs self.old };

    /// Brings a log up to date. If its last log is of an earlier generation than this one, the next one is begun where
    /// it ends, with nothing between the two. Returns that this log was flushed, and up to which step. Errors are those
    /// of `bring_up`, or the next log was not begun.
    fn begin_next<R: Wait + Clock + Log>(
        &mut self,
        rt: &R,
        alloc: Global,
        log: u8,
        generation: u64,
    ) -> Result<Flushed, Refusal>
        requires { log < logs self.old }
        ensures whose { IfOk result (λ flushed. flushed.worker ≡ log) }
        ensures does { does self.old (BegunNext log generation (mark_told result)) self.new }
        ensures same { logs self.new ≡ logs self.old };

    /// Gives up the log of the generation before a log's last one, if there is one. It may be there or not after an
    /// error, and the call may be made again.
    fn give_up_older<R: Wait + Clock + Log>(&mut self, rt: &R, log: u8) -> Result<(), Refusal>
        requires { log < logs self.old }
        ensures does { does self.old (GivenUp log result) self.new }
        ensures same { logs self.new ≡ logs self.old };

    /// The generation of a log's last log, and whether a log of an earlier one may stand.
    fn generations<R: Wait>(&self, rt: &R, log: u8) -> Result<Generations, Refusal>
        requires { log < logs self.now }
        ensures { does self.now (Told log result) self.now };
}
