//! Who answers a session's commands: a pass of a book, over any desk, and over any logs.

ghost use Rattle.std.specs.Prelude.{◌≡◌, None};
ghost use Rattle.mt_service.specs.Telling.{told_of};

use crate::turns::Turns;
use log::Log;
use mt_book::{CallFault, Desk, NoGate, Pass, Runner, call};
use mt_disk::Disk;
use mt_loop::Sharing;
use mt_options::{TenantQuota, is_listed};
use mt_rows::{Command, Refusal, Reply};
use mt_runs::Answer;
use mt_session::{Caller, CallerFault};
use mt_settle::Logs;
use mt_stored::{Keeper, Learns};
use std::alloc::Global;
use std::sync::Wait;
use std::sync::ledger::Ledger;
use std::time::Clock;

/// A caller that asks a desk through a pass, for the tenant that its session opened, and keeps what it
/// answers in logs, if there are some. It counts each settled answer; a turn that is due then is another thread's.
///
/// Before a call it waits for the baton. It gives it back before a log's turn and before a Settle, and whoever writes what was
/// answered has to give it back too.
#[derive(Drop)]
pub struct DeskCaller<
    'a,
    L: Ledger,
    R: Wait + Clock,
    D: Desk<L> + Drop,
    S: Logs + Drop,
    K: Disk + Drop,
> {
    rt: &'a R,
    alloc: Global,
    desk: D,
    pass: Pass<L>,
    keeper: Keeper<S>,
    turns: &'a Turns<K>,
    tenants: &'a [TenantQuota],
    opened: Option<u32>,
    runner: Runner<'a>,
    calls: u32,
}

impl<'a, L: Ledger, R: Wait + Clock, D: Desk<L> + Drop, S: Logs + Drop, K: Disk + Drop> DeskCaller<
    'a,
    L,
    R,
    D,
    S,
    K,
> {
    /// A caller with this pass, of which no tenant is opened, and which has the baton at this place.
    pub fn new(
        rt: &'a R,
        alloc: Global,
        desk: D,
        pass: Pass<L>,
        keeper: Keeper<S>,
        turns: &'a Turns<K>,
        tenants: &'a [TenantQuota],
        runner: Runner<'a>,
    ) -> Self
        ensures desk { result.desk ≡ desk }
        ensures pass { result.pass ≡ pass }
        ensures keeper { result.keeper ≡ keeper }
        ensures turns { result.turns.now ≡ turns.now }
        ensures tenants { result.tenants.now ≡ tenants.now }
        ensures opened { result.opened ≡ None }
        ensures runner { result.runner ≡ runner.entry }
    {
        DeskCaller {
            rt,
            alloc,
            desk,
            pass,
            keeper,
            turns,
            tenants,
            opened: None,
            runner,
            calls: 0,
        }
    }

    /// Its place at the baton.
    pub fn runner(&self) -> Runner<'a>
        ensures { result ≡ self.now.runner }
    {
        self.runner
    }

    /// The pass, the desk, and the logs.
    pub fn into_parts(self) -> (Pass<L>, D, S)
        ensures pass { result.0 ≡ self.entry.pass }
        ensures desk { result.1 ≡ self.entry.desk }
        ensures logs { result.2 ≡ self.entry.keeper.logs }
    {
        (self.pass, self.desk, self.keeper.into_logs())
    }
}

impl<
    L: Ledger,
    R: Wait + Clock + Log,
    D: Desk<L> + Drop,
    S: Logs + Learns<D> + Drop,
    K: Disk + Drop,
> Caller for DeskCaller<'_, L, R, D, S, K> {
    ghost use Rattle.mt_service.specs.Asking.{AsksDesk, asker};
    ghost use Rattle.mt_stored.specs.Keeping.{keeping};

    ghost exchanges = { λ old e new. AsksDesk D.does S.learns S.does S.logs (asker old.desk old.pass.worker old.pass.seen old.pass.share.amount old.tenants.now old.opened (keeping old.keeper.logs old.keeper.worker old.keeper.since.answers old.keeper.next)) e
        (asker new.desk new.pass.worker new.pass.seen new.pass.share.amount new.tenants.now new.opened (keeping new.keeper.logs new.keeper.worker new.keeper.since.answers new.keeper.next)) };

    fn open(&mut self, tenant: u32) -> Result<(), Refusal> {
        if !is_listed(self.tenants, tenant) {
            return Err(Refusal::NoTenant(tenant));
        }
        self.opened = Some(tenant);
        Ok(())
    }

    fn call(&mut self, alloc: Global, command: Command) -> Result<Reply, CallerFault> {
        let Some(tenant) = self.opened else {
            return Err(CallerFault::Refused(Refusal::NotOpen));
        };
        self.calls = self.runner.take(self.rt, self.calls);
        let called = call(
            self.rt,
            alloc,
            &mut self.desk,
            &mut self.pass,
            tenant,
            command,
            &NoGate {},
        );
        if called.is_ok() {
            if self.keeper.is_turn_next() {
                self.runner.give();
            }
            self.keeper.count_answer(self.rt);
        }
        told(called)
    }

    fn settle(&mut self) -> Result<u64, Refusal> {
        self.runner.give();
        self.keeper.learn(&self.desk);
        let settled = self.keeper.settle(self.rt)?;
        self.turns.count_settled(self.rt, settled);
        Ok(settled)
    }
}

/// Sessions share it: whichever has its turn has its own tenant opened.
impl<
    L: Ledger,
    R: Wait + Clock + Log,
    D: Desk<L> + Drop,
    S: Logs + Learns<D> + Drop,
    K: Disk + Drop,
> Sharing for DeskCaller<'_, L, R, D, S, K> {
    ghost use Rattle.mt_service.specs.Loops.{Resumes};

    ghost opened = { λ caller. caller.opened };

    ghost resumes = { λ old new. Resumes old new };

    fn opened(&self) -> Option<u32> {
        self.opened
    }

    fn resume(&mut self, tenant: Option<u32>) {
        self.opened = tenant;
    }
}

// What the session is told for a call's result.
fn told(called: Result<Answer, CallFault>) -> Result<Reply, CallerFault>
    ensures { result ≡ told_of called }
{
    match called {
        Ok(answer) => Ok(answer.reply),
        Err(CallFault::Refused(refusal)) => Err(CallerFault::Refused(refusal)),
        Err(CallFault::Spent(_)) => Err(CallerFault::Refused(Refusal::Spent)),
    }
}
