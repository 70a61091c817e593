//! A log that is brought up to date, and followed by its next one if it is of an earlier generation than a turn goes to.

ghost use Rattle.std.specs.Prelude.{◌≡◌, IfOk, IfErr};
ghost use Rattle.mt_store_logs.specs.Places.{worker_of};
ghost use Rattle.mt_stored.specs.Begins.{BringsUpAndBegins, FailsToBringUpAndBegin, FlushesOrBegins, FailsToFlushOrBegin};

use mt_disk::Disk;
use mt_rows::Refusal;
use mt_store_logs::{Flushed, Source, StoreLog, flush, flush_and_begin};
use std::alloc::Global;

/// Opens a log again if its disk failed, or if its next log may be there or not, and flushes it. If its last log is of
/// an earlier generation than this one, its next log is begun where it ends.
///
/// Errors: those of `StoreLog::reopen`, after which nothing was drained; else those of `flush`, or of `flush_and_begin`.
pub fn bring_up_and_begin<D: Disk + Drop, S: Source>(
    alloc: Global,
    log: &mut StoreLog<D>,
    source: &mut S,
    upto: u64,
    generation: u64,
) -> Result<Flushed, Refusal>
    requires { S.serves source.old (worker_of log.old) upto }
    ensures ok { IfOk result (λ flushed. BringsUpAndBegins D.is_honest D.state D.failures S.gives upto generation flushed.mark log.old log.new source.old source.new) }
    ensures whose { IfOk result (λ flushed. flushed.worker ≡ worker_of log.old) }
    ensures worker { worker_of log.new ≡ worker_of log.old }
    ensures err { IfErr result (λ e. FailsToBringUpAndBegin D.is_honest D.state D.failures S.gives upto generation e log.old log.new source.old source.new) }
{
    match log.reopen(alloc) {
        Ok(()) => flush_or_begin(alloc, log, source, upto, generation),
        Err(refusal) => Err(refusal),
    }
}

// Flushes a log that is open, and begins its next one if it is of an earlier generation than this.
fn flush_or_begin<D: Disk + Drop, S: Source>(
    alloc: Global,
    log: &mut StoreLog<D>,
    source: &mut S,
    upto: u64,
    generation: u64,
) -> Result<Flushed, Refusal>
    requires { S.serves source.old (worker_of log.old) upto }
    ensures ok { IfOk result (λ flushed. FlushesOrBegins D.is_honest D.state D.failures S.gives upto generation flushed.mark log.old log.new source.old source.new) }
    ensures whose { IfOk result (λ flushed. flushed.worker ≡ worker_of log.old) }
    ensures worker { worker_of log.new ≡ worker_of log.old }
    ensures err { IfErr result (λ e. FailsToFlushOrBegin D.is_honest D.state D.failures S.gives upto generation e log.old log.new source.old source.new) }
{
    if log.generation() < generation {
        flush_and_begin(alloc, log, source, upto)
    } else {
        flush(alloc, log, source, upto)
    }
}
