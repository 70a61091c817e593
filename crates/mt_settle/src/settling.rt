//! All logs, one after the other.

ghost use Rattle.std.specs.Prelude.{◌≡◌, ◌<◌};
ghost use Rattle.mt_settle.specs.{Turns.BroughtUp, Settles.Settles};

use crate::logs::Logs;
use log::Log;
use mt_rows::Refusal;
use std::alloc::Global;
use std::sync::Wait;
use std::time::Clock;

/// Brings each log up to date, in their order, and answers the least step that they told: up to it every
/// log has all of its worker's changes.
///
/// Errors: `NoStore` where there are no logs; else that of the first log that could not be brought up to
/// date. Those before it were; of those behind it none was asked.
pub fn settle<R: Wait + Clock + Log, S: Logs>(
    rt: &R,
    alloc: Global,
    logs: &mut S,
) -> Result<u64, Refusal>
    ensures settles { Settles S.does (S.logs logs.old) logs.old logs.new result }
    ensures same { S.logs logs.new ≡ S.logs logs.old }
{
    let count = logs.count();
    if count == 0 {
        return Err(Refusal::NoStore);
    }
    let mut least = brought_up(rt, alloc, logs, 0)?;
    for log in 1..count {
        least = least.min(brought_up(rt, alloc, logs, log)?);
    }
    Ok(least)
}

// Brings a log up to date; the step up to which it was flushed.
fn brought_up<R: Wait + Clock + Log, S: Logs>(
    rt: &R,
    alloc: Global,
    logs: &mut S,
    log: u8,
) -> Result<u64, Refusal>
    requires { log < S.logs logs.old }
    ensures does { S.does logs.old (BroughtUp log result) logs.new }
    ensures same { S.logs logs.new ≡ S.logs logs.old }
{
    match logs.bring_up(rt, alloc, log) {
        Ok(flushed) => Ok(flushed.mark()),
        Err(refusal) => Err(refusal),
    }
}
