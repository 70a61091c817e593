//! The parts of a turn on a worker's log.

ghost use Rattle.std.specs.Prelude.{◌≡◌, IfOk, IfErr};
ghost use Rattle.mt_store_logs.specs.{Places.worker_of, Turns.{FlushesAndBegins, FailsToFlushAndBegin}};

use crate::flushing::{Flushed, flush};
use crate::source::Source;
use crate::store_log::StoreLog;
use mt_disk::Disk;
use mt_rows::Refusal;
use std::alloc::Global;

/// Drains the log's worker and appends what that gives, as `flush` does. Then the next log is begun where the last one ends,
/// and it is the last one. Its file has to be spare.
///
/// Errors: those of `flush`, after which no log was begun. `Spent` after generation 2^59 or step 2^59. `Device` if the disk of
/// the next log failed: that log may be there or not, and the last one is closed. `StoreLog::reopen` looks for it.
pub fn flush_and_begin<D: Disk + Drop, S: Source>(
    alloc: Global,
    log: &mut StoreLog<D>,
    source: &mut S,
    upto: u64,
) -> Result<Flushed, Refusal>
    requires { S.serves source.old (worker_of log.old) upto }
    ensures ok { IfOk result (λ flushed. FlushesAndBegins D.is_honest D.state D.failures S.gives upto flushed.mark log.old log.new source.old source.new) }
    ensures whose { IfOk result (λ flushed. flushed.worker ≡ worker_of log.old) }
    ensures worker { worker_of log.new ≡ worker_of log.old }
    ensures err { IfErr result (λ e. FailsToFlushAndBegin D.is_honest D.state D.failures S.gives upto e log.old log.new source.old source.new) }
{
    let flushed = flush(alloc, log, source, upto)?;
    match log.begin_next() {
        Ok(()) => Ok(flushed),
        Err(refusal) => Err(refusal),
    }
}
