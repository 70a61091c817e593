//! A turn of all logs, with a checkpoint between its parts.

ghost use Rattle.std.specs.Prelude.{◌≡◌, ◌<◌, IfOk, IfErr, OnOk, Ok, vec_len};
ghost use Rattle.mt_settle.specs.Next.{TellsNext};
ghost use Rattle.mt_stored.specs.{Checkpoints.scanner, TurnParts.{Begins, TellsOther, StopsBeginning, WritesSlot, StopsSlot, TellsEnd, TellsOlder}, WholeTurns.{parts, WritesTurn, StopsTurn}};

use crate::checkpoints::{CheckpointStop, write_checkpoint};
use crate::digests::{Digested, Digests};
use log::Log;
use mt_book::{Desk, Pass};
use mt_disk::Disk;
use mt_rows::Refusal;
use mt_settle::{Logs, begin_all, give_up_all, next_generation, settle};
use mt_slots::StoreSlots;
use std::alloc::Global;
use std::sync::Wait;
use std::sync::ledger::Ledger;
use std::time::Clock;

/// Why a turn of all logs is not whole.
#[derive(Clone, Copy, Debug, PartialEq, Eq)]
pub enum TurnStop {
    /// The checkpoint was given up.
    Checkpoint(CheckpointStop),
    /// The digest of a file was not cleared or not kept.
    Digest(Digested, Refusal),
    /// A log did not tell of its generations, or go to the turn's; or it was not settled, or its older one not given up.
    Logs(Refusal),
}

/// Makes a turn of all logs to this generation. It has to be the one that they tell, as `next_generation` says: so a turn that
/// was left half done is finished before another begins. Each log that is of an earlier one is followed by its next log. Then a
/// checkpoint is written over the desk, as `write_checkpoint` does. Then all logs are settled. If all go up to the
/// checkpoint's end, the older ones are given up.
///
/// The digests of a generation's files, and of a slot, are cleared before those are written. They are kept of the logs that
/// are closed when all have gone on, and of the checkpoint when it was written. Those of the older logs are cleared again before
/// these are given up.
///
/// There has to be a tenant. A walk over none makes no step, and such a checkpoint stands for nothing that is given up.
///
/// The slots come back in each case. An error is that of the first part that was refused; no later part was begun. It is
/// `LogCount`, before anything is done, if the logs tell of another generation. It is `Device` if the logs were settled up to
/// an earlier step than the checkpoint's end.
pub fn write_turn<L: Ledger, R: Wait + Clock + Log, D: Desk<L>, S: Logs, K: Disk, G: Digests>(
    rt: &R,
    alloc: Global,
    desk: &mut D,
    pass: &mut Pass<L>,
    logs: &mut S,
    tenants: Vec<u32>,
    slots: StoreSlots<K>,
    digests: &mut G,
    generation: u64,
) -> Result<StoreSlots<K>, (TurnStop, StoreSlots<K>)>
    requires some { 0 < vec_len tenants }
    ensures ok { IfOk result (λ left. WritesTurn S.does D.does pass.old.worker K.is_honest K.state K.failures G.does (S.logs logs.old) generation tenants.items (parts logs.old (scanner desk.old pass.old.seen pass.old.share.amount) slots digests.old) (parts logs.new (scanner desk.new pass.new.seen pass.new.share.amount) left digests.new)) }
    ensures err { IfErr result (λ e. StopsTurn S.does D.does pass.old.worker K.is_honest K.state K.failures G.does (S.logs logs.old) generation tenants.items e.0 (parts logs.old (scanner desk.old pass.old.seen pass.old.share.amount) slots digests.old) (parts logs.new (scanner desk.new pass.new.seen pass.new.share.amount) e.1 digests.new)) }
    ensures worker { pass.new.worker ≡ pass.old.worker }
    ensures same { S.logs logs.new ≡ S.logs logs.old }
{
    let closed = match begin_next(rt, alloc, logs, digests, generation) {
        Ok(closed) => closed,
        Err(stop) => return Err((stop, slots)),
    };
    let slots = match write_slot(rt, alloc, desk, pass, tenants, slots, digests) {
        Ok(slots) => slots,
        Err(stopped) => return Err(stopped),
    };
    match settle_and_give_up(rt, alloc, logs, digests, slots.owed(), closed) {
        Ok(()) => Ok(slots),
        Err(stop) => Err((stop, slots)),
    }
}

// All logs go to this generation, if they tell of it. Its digests are cleared first, and those of the logs before are kept
// then. Their generation is told.
fn begin_next<R: Wait + Clock + Log, S: Logs, G: Digests>(
    rt: &R,
    alloc: Global,
    logs: &mut S,
    digests: &mut G,
    generation: u64,
) -> Result<u64, TurnStop>
    ensures ok { IfOk result (λ closed. Begins S.does G.does (S.logs logs.old) generation closed logs.old digests.old logs.new digests.new) }
    ensures err { IfErr result (λ stop. StopsBeginning S.does G.does (S.logs logs.old) generation stop logs.old digests.old logs.new digests.new) }
    ensures same { S.logs logs.new ≡ S.logs logs.old }
{
    let count = logs.count();
    if let Err(refusal) = expect_next(rt, logs, generation) {
        return Err(TurnStop::Logs(refusal));
    }
    if let Err(refusal) = digests.clear_logs(count, generation) {
        return Err(TurnStop::Digest(Digested::OfLogs(generation), refusal));
    }
    if let Err(refusal) = begin_all(rt, alloc, logs, generation) {
        return Err(TurnStop::Logs(refusal));
    }
    let closed = generation.saturating_sub(1);
    match digests.keep_logs(count, closed) {
        Ok(()) => Ok(closed),
        Err(refusal) => Err(TurnStop::Digest(Digested::OfLogs(closed), refusal)),
    }
}

// Whether the logs tell that the next turn goes to this generation. It is refused if they don't.
fn expect_next<R: Wait, S: Logs>(rt: &R, logs: &S, generation: u64) -> Result<(), Refusal>
    ensures ok { OnOk result (TellsNext S.does (S.logs logs.now) logs.now (Ok generation)) }
    ensures err { IfErr result (λ e. TellsOther S.does (S.logs logs.now) generation e logs.now) }
{
    let next = next_generation(rt, logs)?;
    if next == generation {
        Ok(())
    } else {
        Err(Refusal::LogCount)
    }
}

// Writes a checkpoint into the slot that has not the newest one. Its digest is cleared first, and kept then.
fn write_slot<L: Ledger, R: Wait + Clock, D: Desk<L>, K: Disk, G: Digests>(
    rt: &R,
    alloc: Global,
    desk: &mut D,
    pass: &mut Pass<L>,
    tenants: Vec<u32>,
    slots: StoreSlots<K>,
    digests: &mut G,
) -> Result<StoreSlots<K>, (TurnStop, StoreSlots<K>)>
    ensures ok { IfOk result (λ left. WritesSlot D.does pass.old.worker K.is_honest K.state K.failures G.does tenants.items (scanner desk.old pass.old.seen pass.old.share.amount) slots digests.old (scanner desk.new pass.new.seen pass.new.share.amount) left digests.new) }
    ensures err { IfErr result (λ e. StopsSlot D.does pass.old.worker K.is_honest K.state K.failures G.does tenants.items e.0 (scanner desk.old pass.old.seen pass.old.share.amount) slots digests.old (scanner desk.new pass.new.seen pass.new.share.amount) e.1 digests.new) }
    ensures worker { pass.new.worker ≡ pass.old.worker }
{
    let slot = slots.next_slot();
    if let Err(refusal) = digests.clear_slot(slot) {
        return Err((TurnStop::Digest(Digested::OfSlot(slot), refusal), slots));
    }
    let (slots, digest) = match write_checkpoint(rt, alloc, desk, pass, tenants, slots) {
        Ok(written) => written,
        Err((stop, slots)) => return Err((TurnStop::Checkpoint(stop), slots)),
    };
    match digests.keep_slot(slot, digest) {
        Ok(()) => Ok(slots),
        Err(refusal) => Err((TurnStop::Digest(Digested::OfSlot(slot), refusal), slots)),
    }
}

// Settles all logs, and then gives up the older ones with their digests, if all logs go up to the step that is owed.
fn settle_and_give_up<R: Wait + Clock + Log, S: Logs, G: Digests>(
    rt: &R,
    alloc: Global,
    logs: &mut S,
    digests: &mut G,
    owed: u64,
    closed: u64,
) -> Result<(), TurnStop>
    ensures ends { TellsEnd S.does G.does (S.logs logs.old) owed closed logs.old digests.old logs.new digests.new result }
    ensures same { S.logs logs.new ≡ S.logs logs.old }
{
    match settle(rt, alloc, logs) {
        Ok(number) => give_up_if_settled(rt, logs, digests, owed, closed, number),
        Err(refusal) => Err(TurnStop::Logs(refusal)),
    }
}

// Clears the digests of the closed logs and gives up the older logs after a Settle told a number, if that is at least what
// is owed. No clause of logs behind locks says that it is.
fn give_up_if_settled<R: Wait + Clock + Log, S: Logs, G: Digests>(
    rt: &R,
    logs: &mut S,
    digests: &mut G,
    owed: u64,
    closed: u64,
    number: u64,
) -> Result<(), TurnStop>
    ensures older { TellsOlder S.does G.does (S.logs logs.old) owed closed number logs.old digests.old logs.new digests.new result }
    ensures same { S.logs logs.new ≡ S.logs logs.old }
{
    if number < owed {
        return Err(TurnStop::Logs(Refusal::Device));
    }
    if let Err(refusal) = digests.clear_logs(logs.count(), closed) {
        return Err(TurnStop::Digest(Digested::OfLogs(closed), refusal));
    }
    match give_up_all(rt, logs) {
        Ok(()) => Ok(()),
        Err(refusal) => Err(TurnStop::Logs(refusal)),
    }
}
