//! The turner: beside the crew it makes the turns of all logs that are due, with their checkpoints, and settles by the
//! clock.

ghost use Rattle.std.specs.Prelude.{◌≡◌, ◌<◌, IfSome, length};
ghost use Rattle.mt_service.specs.Turning.{SettlesOwed, TellsReady, next_after};

use crate::accounts::rising_tenants;
use crate::turns::{Turns, Woken};
use crate::warnings::TurnWarning;
use log::{Log, warn};
use mt_book::{Desk, Pass};
use mt_disk::{Disk, SystemError};
use mt_options::{StorePlace, TenantQuota};
use mt_recover::LogSlot;
use mt_rows::Refusal;
use mt_settle::{Logs, settle};
use mt_slots::StoreSlots;
use mt_store_logs::StoreLog;
use mt_stored::{CheckpointStop, Checks, Digests, DueTurn, TurnStop, write_turn};
use std::alloc::Global;
use std::sync::ledger::Ledger;
use std::sync::{Mutex, Wait};
use std::time::Clock;

/// Who makes a store's turns, with a pass of its own over any desk, over any logs, and with any digests. It also settles by
/// the clock: so far all is settled up to a step. Its next turn goes to a generation.
#[derive(Drop)]
pub struct Turner<
    'a,
    L: Ledger,
    R: Wait + Clock,
    D: Desk<L> + Drop,
    S: Logs + Drop,
    G: Digests + Drop,
> {
    rt: &'a R,
    alloc: Global,
    desk: D,
    pass: Pass<L>,
    logs: S,
    tenants: &'a [TenantQuota],
    digests: G,
    settled: u64,
    next: u64,
}

impl<'a, L: Ledger, R: Wait + Clock, D: Desk<L> + Drop, S: Logs + Drop, G: Digests + Drop> Turner<
    'a,
    L,
    R,
    D,
    S,
    G,
> {
    /// A turner with this pass, which has settled nothing. Its first turn goes to this generation.
    pub fn new(
        rt: &'a R,
        alloc: Global,
        desk: D,
        pass: Pass<L>,
        logs: S,
        tenants: &'a [TenantQuota],
        digests: G,
        next: u64,
    ) -> Self
        ensures desk { result.desk ≡ desk }
        ensures pass { result.pass ≡ pass }
        ensures logs { result.logs ≡ logs }
        ensures tenants { result.tenants.now ≡ tenants.now }
        ensures digests { result.digests ≡ digests }
        ensures settled { result.settled ≡ 0 }
        ensures next { result.next ≡ next }
    {
        Turner {
            rt,
            alloc,
            desk,
            pass,
            logs,
            tenants,
            digests,
            settled: 0,
            next,
        }
    }

    /// The pass, the desk, and the logs.
    pub fn into_parts(self) -> (Pass<L>, D, S)
        ensures pass { result.0 ≡ self.entry.pass }
        ensures desk { result.1 ≡ self.entry.desk }
        ensures logs { result.2 ≡ self.entry.logs }
    {
        (self.pass, self.desk, self.logs)
    }
}

impl<L: Ledger, R: Wait + Clock + Log, D: Desk<L> + Drop, S: Logs + Drop, G: Digests + Drop> Turner<
    '_,
    L,
    R,
    D,
    S,
    G,
> {
    ghost use Rattle.mt_service.specs.{Turning.{turning, TellsTurn, Finishes, SettlesByClock}, Turners.{turner_of, Works, MayTurn}};
    ghost use Rattle.mt_stored.specs.{Checkpoints.scanner, Checks.{IsDue, TakesDue}};

    /// Makes the turns that fall due, and settles when the store's place says so, till serving is over. A turn that is
    /// under way or due then is made. If turns are due by bytes, it looks at these logs each second.
    pub fn run<K: Disk + Drop>(
        &mut self,
        turns: &Turns<K>,
        place: &StorePlace,
        logs: &[Mutex<StoreLog<K>>],
    )
        ensures { Works D.does K.is_honest K.state K.failures S.does S.logs G.does self.old.tenants.now (turner_of self.old) (turner_of self.new) }
    {
        if self.tenants.is_empty() || is_idle(place) {
            return;
        }
        let mut clock = SettleClock::new(place.settle_every);
        let longest = longest_wait(place);
        for _ in self.rt.forever() {
            let millis = clock.pause(longest);
            match turns.wait(self.rt, millis) {
                Woken::Over => {
                    see_length(self.rt, turns, place, logs);
                    self.finish(&mut turns.lock(self.rt).checks);
                    return;
                }
                Woken::Due => self.make_turn_if_due(turns),
                Woken::Late => {
                    see_length(self.rt, turns, place, logs);
                    if clock.passes(millis) {
                        self.settle_if_answered();
                    }
                }
            }
        }
        unreachable!()
    }

    /// Makes a turn if one is due. Others settle meanwhile.
    pub fn make_turn_if_due<K: Disk + Drop>(&mut self, turns: &Turns<K>)
        ensures turn { MayTurn D.does K.is_honest K.state K.failures S.does S.logs G.does self.old.tenants.now (turner_of self.old) (turner_of self.new) }
        ensures tenants { self.new.tenants.now ≡ self.old.tenants.now }
    {
        // The lock is free again when the turn begins.
        let due = self.take_due(&mut turns.lock(self.rt).checks);
        let Some(due) = due else {
            return;
        };
        let told = self.make_turn(due);
        let error = system_error(&told);
        let stop = turns.lock(self.rt).checks.end_turn(told);
        self.warn_of(stop, error);
    }

    /// Makes the last turn, if one is due, over checks that nobody uses meanwhile. None is due then.
    pub fn finish<K: Disk + Drop>(&mut self, checks: &mut Checks<K>)
        ensures none { 0 < length self.old.tenants.now → ¬ IsDue checks.new }
        ensures turn { 0 < length self.old.tenants.now → Finishes D.does K.is_honest K.state K.failures S.does S.logs G.does self.old.tenants.now checks.old (turning self.old.logs (scanner self.old.desk self.old.pass.seen self.old.pass.share.amount) self.old.pass.worker self.old.digests self.old.settled self.old.next)
            checks.new (turning self.new.logs (scanner self.new.desk self.new.pass.seen self.new.pass.share.amount) self.new.pass.worker self.new.digests self.new.settled self.new.next) }
    {
        let Some(due) = self.take_due(checks) else {
            return;
        };
        let told = self.make_turn(due);
        let error = system_error(&told);
        let stop = checks.end_turn(told);
        self.warn_of(stop, error);
    }

    // The turn that is due, if one is. Without tenants nothing is to be kept, and no turn is made.
    fn take_due<K: Disk + Drop>(&self, checks: &mut Checks<K>) -> Option<DueTurn<K>>
        ensures some { IfSome result (λ due. 0 < length self.now.tenants.now) }
        ensures takes { 0 < length self.now.tenants.now → TakesDue checks.old result checks.new }
    {
        if self.tenants.is_empty() {
            return None;
        }
        checks.take_due()
    }

    // Makes the turn that is due, with a checkpoint of all tenants. After a whole turn the next one goes to the generation after
    // its own. The slots come back in each case.
    fn make_turn<K: Disk + Drop>(
        &mut self,
        due: DueTurn<K>,
    ) -> Result<StoreSlots<K>, (TurnStop, StoreSlots<K>)>
        requires some { 0 < length self.old.tenants.now }
        ensures turn { TellsTurn D.does K.is_honest K.state K.failures S.does S.logs G.does self.old.tenants.now due (turning self.old.logs (scanner self.old.desk self.old.pass.seen self.old.pass.share.amount) self.old.pass.worker self.old.digests self.old.settled self.old.next) result
            (turning self.new.logs (scanner self.new.desk self.new.pass.seen self.new.pass.share.amount) self.new.pass.worker self.new.digests self.new.settled self.new.next) }
        ensures tenants { self.new.tenants.now ≡ self.old.tenants.now }
    {
        let DueTurn { settled, slots } = due;
        let ready = get_ready(
            self.rt,
            self.alloc,
            &mut self.logs,
            self.tenants,
            settled,
            slots.owed(),
        );
        match ready {
            Ok(tenants) => {
                let told = write_turn(
                    self.rt,
                    self.alloc,
                    &mut self.desk,
                    &mut self.pass,
                    &mut self.logs,
                    tenants,
                    slots,
                    &mut self.digests,
                    self.next,
                );
                self.next = next_after(self.next, &told);
                told
            }
            Err(refusal) => Err((TurnStop::Logs(refusal), slots)),
        }
    }

    // Settles if a step was made since it last settled by the clock. What is refused waits for the next time; a log that
    // closes was warned of.
    fn settle_if_answered(&mut self)
        ensures settles { SettlesByClock D.does S.does S.logs (turning self.old.logs (scanner self.old.desk self.old.pass.seen self.old.pass.share.amount) self.old.pass.worker self.old.digests self.old.settled self.old.next)
            (turning self.new.logs (scanner self.new.desk self.new.pass.seen self.new.pass.share.amount) self.new.pass.worker self.new.digests self.new.settled self.new.next) }
        ensures tenants { self.new.tenants.now ≡ self.old.tenants.now }
    {
        let steps = self.desk.look(self.rt).steps;
        if steps <= self.settled {
            return;
        }
        if let Ok(number) = settle(self.rt, self.alloc, &mut self.logs) {
            self.settled = number;
        }
    }

    // Warns of a turn that was stopped.
    fn warn_of(&self, stop: Option<TurnStop>, error: Option<SystemError>) {
        if let Some(stop) = stop {
            let warning = TurnWarning { stop, error };
            warn!(self.rt; "{warning}");
        }
    }
}

// To which generation the next turn goes, by what is told of one to this generation.
fn next_after<A: Drop, B: Drop>(generation: u64, told: &Result<A, B>) -> u64
    ensures { result ≡ next_after generation told.now }
{
    match told {
        Ok(_) => generation.saturating_add(1),
        Err(_) => generation,
    }
}

// Why the last call failed of the disk in whose slot a turn wrote that was stopped, if the system told it.
fn system_error<K: Disk>(
    told: &Result<StoreSlots<K>, (TurnStop, StoreSlots<K>)>,
) -> Option<SystemError> {
    match told {
        Err((TurnStop::Checkpoint(CheckpointStop::Slot(fault)), slots)) => {
            slots.last_error(fault.slot)
        }
        _ => None,
    }
}

// Whether a store's place asks for nothing that a turner does.
fn is_idle(place: &StorePlace) -> bool {
    place.checkpoint == 0 && place.checkpoint_bytes == 0 && place.settle_every == 0
}

// Counts by how much the logs have grown, if turns are due by bytes. A log that is closed doesn't tell how long it is, and
// then nothing is counted.
fn see_length<R: Wait, K: Disk + Drop>(
    rt: &R,
    turns: &Turns<K>,
    place: &StorePlace,
    logs: &[Mutex<StoreLog<K>>],
) {
    if place.checkpoint_bytes == 0 {
        return;
    }
    if let Some(length) = length_of(rt, logs) {
        turns.lock(rt).checks.see_length(length);
    }
}

// How long the last logs are together, in bytes, if all are open.
fn length_of<R: Wait, K: Disk + Drop>(rt: &R, logs: &[Mutex<StoreLog<K>>]) -> Option<u64> {
    let mut length: u64 = 0;
    for log in logs {
        let end = end_of(log.lock(rt).slot())?;
        length = length.saturating_add(end);
    }
    Some(length)
}

// Where a log ends, in bytes, if it is open.
fn end_of<K: Disk>(slot: &LogSlot<K>) -> Option<u64> {
    match slot {
        LogSlot::Open(file) => Some(file.end() as u64),
        LogSlot::Failed(_) | LogSlot::Closed(_) | LogSlot::Away => None,
    }
}

// A number up to which all logs are settled: this one, if as much as is owed, else what a Settle tells.
fn settle_owed<R: Wait + Clock + Log, S: Logs>(
    rt: &R,
    alloc: Global,
    logs: &mut S,
    settled: u64,
    owed: u64,
) -> Result<u64, Refusal>
    ensures { SettlesOwed S.does S.logs settled owed logs.old result logs.new }
{
    if owed <= settled {
        return Ok(settled);
    }
    settle(rt, alloc, logs)
}

// All that a turn needs before it begins: the newest checkpoint is settled, so that the one before it may be written over;
// and the numbers of all tenants.
fn get_ready<R: Wait + Clock + Log, S: Logs>(
    rt: &R,
    alloc: Global,
    logs: &mut S,
    tenants: &[TenantQuota],
    settled: u64,
    owed: u64,
) -> Result<Vec<u32>, Refusal>
    ensures { TellsReady S.does S.logs tenants.now settled owed logs.old result logs.new }
{
    let number = settle_owed(rt, alloc, logs, settled, owed)?;
    if number < owed {
        return Err(Refusal::Device);
    }
    match rising_tenants(alloc, tenants) {
        Ok(numbers) => Ok(numbers),
        Err(_) => Err(Refusal::Memory),
    }
}

// The longest that a turner waits at a time, in milliseconds; and if it looks at the length of logs.
const LONGEST_WAIT: u32 = 60_000;

const LOOK_EVERY: u32 = 1_000;

fn longest_wait(place: &StorePlace) -> u32 {
    if place.checkpoint_bytes == 0 {
        LONGEST_WAIT
    } else {
        LOOK_EVERY
    }
}

// When a turner settles: each so many milliseconds, 0 for never, and how many are left.
#[derive(Drop)]
struct SettleClock {
    every: u32,
    left: u32,
}

impl SettleClock {
    fn new(every: u32) -> SettleClock {
        SettleClock { every, left: every }
    }

    // How long to wait, at most so long.
    fn pause(&self, longest: u32) -> u32 {
        if self.every == 0 {
            longest
        } else {
            self.left.min(longest)
        }
    }

    // So many milliseconds have passed; whether it is time to settle.
    fn passes(&mut self, millis: u32) -> bool {
        self.left = self.left.saturating_sub(millis);
        if self.every == 0 || self.left != 0 {
            return false;
        }
        self.left = self.every;
        true
    }
}
