//! The first and the last part of a turn of all logs.
//!
//! A turn goes to a generation. The log of each worker that is of an earlier one is followed by its next log. Then a
//! checkpoint is written, then all logs are settled, and then the older logs are given up. If a turn is stopped, the next
//! one goes to the same generation, and finishes it.

ghost use Rattle.std.specs.Prelude.{◌≡◌};
ghost use Rattle.mt_settle.specs.Parts.{TellsBegun, TellsGivenUp};

use crate::logs::Logs;
use log::Log;
use mt_rows::Refusal;
use std::alloc::Global;
use std::sync::Wait;
use std::time::Clock;

/// Brings all logs up to date, in their order, and begins the next one of each that is of an earlier generation than this
/// one. An error is that of the first log that was not brought up or whose next one was not begun; no later one was asked.
pub fn begin_all<R: Wait + Clock + Log, S: Logs>(
    rt: &R,
    alloc: Global,
    logs: &mut S,
    generation: u64,
) -> Result<(), Refusal>
    ensures begins { TellsBegun S.does generation (S.logs logs.old) logs.old logs.new result }
    ensures same { S.logs logs.new ≡ S.logs logs.old }
{
    for log in 0..logs.count() {
        let _ = logs.begin_next(rt, alloc, log, generation)?;
    }
    Ok(())
}

/// Gives up the older log of each worker, in their order. An error is that of the first log that refused it; no later
/// one was asked.
pub fn give_up_all<R: Wait + Clock + Log, S: Logs>(rt: &R, logs: &mut S) -> Result<(), Refusal>
    ensures gives { TellsGivenUp S.does (S.logs logs.old) logs.old logs.new result }
    ensures same { S.logs logs.new ≡ S.logs logs.old }
{
    for log in 0..logs.count() {
        logs.give_up_older(rt, log)?;
    }
    Ok(())
}
