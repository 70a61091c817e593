//! A checkpoint, written over a desk that is in use: all pairs of its tenants, a page after the other.
//!
//! Each page is a scan of the desk, as any client asks for one, so others use the desk between any two of its steps.
//! No lock is held meanwhile: the slots are the writer's own. A checkpoint that can't go on is given up, and the
//! newest one stays as it is.

ghost use Rattle.std.specs.{Prelude.{◌≡◌, IfOk, IfErr, IfSome, slice_get}, List.All};
ghost use Rattle.mt_rows.specs.Commands.{IsKey};
ghost use Rattle.mt_pages.specs.Pages.{TakesAt};
ghost use Rattle.mt_stored.specs.Checkpoints.{scanner, refusal_in, TellsPage, AddsToTheEnd, StopsAdding, WritesCheckpoint, GivesUp};

use mt_book::{CallFault, Desk, NoGate, Pass, call};
use mt_disk::Disk;
use mt_pages::PageWalk;
use mt_rows::{PairList, Refusal, Reply, TenantPair};
use mt_slots::{Checkpointing, FileDigest, SlotFault, StoreSlots};
use std::alloc::{AllocError, Global};
use std::sync::Wait;
use std::sync::ledger::Ledger;
use std::time::Clock;

/// Why a checkpoint was not written.
#[derive(Clone, Copy, Debug, PartialEq, Eq)]
pub enum CheckpointStop {
    /// A call on this slot failed, for this cause.
    Slot(SlotFault),
    /// A scan was refused, or memory was.
    Scan(Refusal),
}

impl CheckpointStop {
    /// The refusal that tells it.
    pub fn refusal(self) -> Refusal
        ensures { result ≡ refusal_in self }
    {
        match self {
            CheckpointStop::Slot(fault) => fault.cause.refusal(),
            CheckpointStop::Scan(refusal) => refusal,
        }
    }
}

/// Writes a checkpoint of these tenants' pairs into the slot that doesn't hold the newest one. It begins at the number
/// of steps that the desk shows before its first scan, and ends at the one that the desk shows after its last. Only if
/// the tenants rise does the slot have a checkpoint then. Its digest is told.
///
/// The slots come back in each case. After an error the newest checkpoint is as before, and what was written is cut.
/// Errors: what a slot's call failed for; `Memory`, also for a scan that is answered so; what refuses a scan; `Spent`.
pub fn write_checkpoint<L: Ledger, R: Wait + Clock, D: Desk<L>, K: Disk>(
    rt: &R,
    alloc: Global,
    desk: &mut D,
    pass: &mut Pass<L>,
    tenants: Vec<u32>,
    slots: StoreSlots<K>,
) -> Result<(StoreSlots<K>, FileDigest), (CheckpointStop, StoreSlots<K>)>
    ensures ok { IfOk result (λ written. WritesCheckpoint D.does pass.old.worker K.is_honest K.state K.failures (scanner desk.old pass.old.seen pass.old.share.amount) tenants.items slots written.1 (scanner desk.new pass.new.seen pass.new.share.amount) written.0) }
    ensures err { IfErr result (λ e. GivesUp D.does pass.old.worker K.is_honest K.state K.failures (scanner desk.old pass.old.seen pass.old.share.amount) tenants.items slots e.0 (scanner desk.new pass.new.seen pass.new.share.amount) e.1) }
    ensures worker { pass.new.worker ≡ pass.old.worker }
{
    let mut walk = PageWalk::new(alloc, tenants);
    let first = desk.look(rt).steps;
    let writing = match slots.begin(first) {
        Ok(writing) => writing,
        Err((fault, slots)) => return Err((CheckpointStop::Slot(fault), slots)),
    };
    let writing = match add_pages(rt, alloc, desk, pass, &mut walk, writing) {
        Ok(writing) => writing,
        Err(stopped) => return Err(stopped),
    };
    let last = desk.look(rt).steps;
    match writing.end(alloc, last) {
        Ok(written) => Ok(written),
        Err((fault, slots)) => Err((CheckpointStop::Slot(fault), slots)),
    }
}

// Adds the pages of a walk, up to its end. A page that isn't shown gives the checkpoint up.
fn add_pages<L: Ledger, R: Wait + Clock, D: Desk<L>, K: Disk>(
    rt: &R,
    alloc: Global,
    desk: &mut D,
    pass: &mut Pass<L>,
    walk: &mut PageWalk,
    writing: Checkpointing<K>,
) -> Result<Checkpointing<K>, (CheckpointStop, StoreSlots<K>)>
    ensures ok { IfOk result (λ more. AddsToTheEnd D.does pass.old.worker K.is_honest K.state K.failures (scanner desk.old pass.old.seen pass.old.share.amount) walk.old writing (scanner desk.new pass.new.seen pass.new.share.amount) walk.new more) }
    ensures err { IfErr result (λ e. StopsAdding D.does pass.old.worker K.is_honest K.state K.failures (scanner desk.old pass.old.seen pass.old.share.amount) walk.old writing e.0 (scanner desk.new pass.new.seen pass.new.share.amount) e.1) }
    ensures worker { pass.new.worker ≡ pass.old.worker }
{
    let mut writing = writing;
    for _ in rt.forever() {
        match next_page(rt, alloc, desk, pass, walk) {
            Ok(Some(pairs)) => match writing.add(alloc, pairs.as_slice()) {
                Ok(more) => writing = more,
                Err((fault, slots)) => return Err((CheckpointStop::Slot(fault), slots)),
            },
            Ok(None) => return Ok(writing),
            Err(refusal) => return Err((CheckpointStop::Scan(refusal), writing.give_up())),
        }
    }
    unreachable!()
}

// The pairs of a walk's next page, as a scan of the desk shows them. After the last page there are none.
fn next_page<L: Ledger, R: Wait + Clock, D: Desk<L>>(
    rt: &R,
    alloc: Global,
    desk: &mut D,
    pass: &mut Pass<L>,
    walk: &mut PageWalk,
) -> Result<Option<Vec<TenantPair>>, Refusal>
    ensures keys { IfOk result (λ page. IfSome page (λ pairs. All (λ p. IsKey p.key) pairs.items)) }
    ensures tells { TellsPage D.does pass.old.worker (scanner desk.old pass.old.seen pass.old.share.amount) walk.old result (scanner desk.new pass.new.seen pass.new.share.amount) walk.new }
    ensures worker { pass.new.worker ≡ pass.old.worker }
{
    let Some((tenant, scan)) = walk.next(alloc)? else {
        return Ok(None);
    };
    let reply = match call(rt, alloc, desk, pass, tenant, scan, &NoGate {}) {
        Ok(answer) => answer.reply,
        Err(CallFault::Refused(refusal)) => return Err(refusal),
        Err(CallFault::Spent(_)) => return Err(Refusal::Spent),
    };
    match reply {
        Reply::Pairs(page) => Ok(Some(take_page(alloc, walk, &page)?)),
        _ => Err(Refusal::Memory),
    }
}

// Takes the page that a scan showed.
fn take_page(
    alloc: Global,
    walk: &mut PageWalk,
    page: &PairList,
) -> Result<Vec<TenantPair>, AllocError>
    ensures keys { IfOk result (λ pairs. All (λ p. IsKey p.key) pairs.items) }
    ensures takes { IfOk result (λ pairs. TakesAt (slice_get walk.old.tenants.items walk.old.place) page.now walk.old walk.new pairs.items) }
{
    // What a page shows has keys: its limits come with its pairs.
    let _pairs = page.as_slice();
    walk.take(alloc, page)
}
