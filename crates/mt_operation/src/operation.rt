//! One operation: its task, and what it remembers between its steps.

ghost use Rattle.std.specs.Prelude.{◌≡◌, ◌<◌, ◌==◌, ◌↔◌, [], None, length, OnOk, IsErrOf};
ghost use Rattle.mt_slices.specs.Keys.{IsStoredKey, stored_key, tenant_of, user_key_of};
ghost use Rattle.mt_rows.specs.Commands.{key_of};
ghost use Rattle.mt_operation.specs.{Operations.{begun, scan_of, no_scan, IsUnsplit, counted, is_unfinished}, Tasks.{ask, command_of}};

use crate::outcome::Outcome;
use crate::phase::Phase;
use crate::prepared::Prepared;
use crate::removal::Removal;
use crate::scan::Scan;
use crate::splits::Splits;
use crate::task::{Request, Task};
use crate::walk::Walk;
use mt_slices::KeyRefusal;
use std::alloc::Global;

/// An operation that was begun and whose answer was not taken. Its first step has the number
/// `walk.first`, and its last one so far the number `last`; both are 0 where it has made none. Each step
/// writes these two, so they stand first. Its birth is the number of steps made when it was begun: the
/// state writes it as it admits the operation, and no step changes it.
#[derive(Drop)]
pub struct Operation {
    pub walk: Walk,
    pub last: u64,
    pub birth: u64,
    pub task: Task,
    pub outcome: Option<Outcome>,
    pub prepared: Option<Prepared>,
    pub splits: Splits,
    pub removal: Removal,
    pub scan: Scan,
}

impl Operation {
    /// An operation that has made no step: its walk begins at the top tree. Its birth is 0 until it is
    /// admitted.
    pub fn new(alloc: Global, task: Task) -> Self
        ensures is { result ≡ begun task result.splits result.scan }
        ensures unsplit { IsUnsplit result.splits }
        ensures unscanned { scan_of task result.scan ≡ no_scan task.key (ask task) }
    {
        let aim = task.request.aim();
        let after = task.request.begins_after();
        Operation {
            task,
            walk: Walk::new(aim, 0),
            last: 0,
            birth: 0,
            outcome: None,
            prepared: None,
            splits: Splits::new(alloc),
            removal: Removal::new(),
            scan: Scan::new(alloc, after),
        }
    }

    /// Becomes one of this request that has made no step, in the memory of its key and with the room that is left.
    /// All else that it had is freed. An error leaves an operation of which nothing is said.
    pub fn renew(
        &mut self,
        alloc: Global,
        worker: u8,
        tenant: u32,
        request: Request,
    ) -> Result<(), KeyRefusal>
        ensures is { OnOk result (self.new ≡ begun self.new.task self.new.splits self.new.scan) }
        ensures task { OnOk result (self.new.task ≡ record { worker = worker; tenant = tenant; request = request; key = self.new.task.key; spare = self.new.task.spare }) }
        ensures key { OnOk result (self.new.task.key ≡ stored_key tenant (key_of (command_of request))) }
        ensures stored { OnOk result (IsStoredKey self.new.task.key) }
        ensures tenant { OnOk result (tenant_of self.new.task.key ≡ tenant) }
        ensures user_key { OnOk result (user_key_of self.new.task.key ≡ key_of (command_of request)) }
        ensures key_long { IsErrOf result KeyRefusal.KeyLong ↔ (251 < length (key_of (command_of request))) }
        ensures unsplit { OnOk result (IsUnsplit self.new.splits) }
        ensures unscanned { OnOk result (scan_of self.new.task self.new.scan ≡ no_scan self.new.task.key (ask self.new.task)) }
    {
        self.task.key.rewrite(tenant, request.key().as_bytes())?;
        // For the proof.
        let _ = self.task.key.as_bytes();
        self.walk = Walk::new(request.aim(), 0);
        self.last = 0;
        self.birth = 0;
        self.outcome = None;
        self.prepared = None;
        self.splits = Splits::new(alloc);
        self.removal = Removal::new();
        self.scan = Scan::new(alloc, request.begins_after());
        self.task.worker = worker;
        self.task.tenant = tenant;
        self.task.request = request;
        Ok(())
    }

    /// Frees what it has made ready, split and scanned.
    pub fn clear(&mut self, alloc: Global)
        ensures unprepared { self.new.prepared ≡ None }
        ensures unsplit { IsUnsplit self.new.splits }
        ensures unscanned { (self.new.scan.collected.items ≡ []) × (self.new.scan.seen ≡ []) }
    {
        self.prepared = None;
        self.splits = Splits::new(alloc);
        self.scan = Scan::new(alloc, false);
    }

    /// The number of its first step, 0 where it has made none.
    pub fn first(&self) -> u64
        ensures { result ≡ self.now.walk.first }
    {
        self.walk.first
    }

    /// Whether it has a step left.
    pub fn is_unfinished(&self) -> bool
        ensures { result ≡ is_unfinished self.now }
    {
        !matches!(self.walk.phase, Phase::Done)
    }

    /// Notes that the step of this number was made; whether it was the first one.
    #[inline(always)]
    pub fn count(&mut self, step: u64) -> bool
        ensures is { self.new ≡ counted self.old step self.old.walk.first }
        ensures first { result ≡ (self.old.walk.first == 0) }
    {
        self.last = step;
        let is_first = self.walk.first == 0;
        if is_first {
            self.walk.first = step;
        }
        is_first
    }
}
