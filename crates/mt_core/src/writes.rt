//! The steps of an operation that locks, writes or gives back. Those that only look stand in `looks.rt`,
//! and those of a removal alone in `removals.rt`.

ghost use Rattle.std.specs.Prelude.{◌≡◌, ◌≢◌, Some, None, [], false, if◌then◌else◌};
ghost use Rattle.mt_operation.specs.Tasks.{ask};
ghost use Rattle.mt_insert.specs.{KeptPuts.{IsAtStore, IsAtPublish}, KeptSplits.IsAtSplitMove};
ghost use Rattle.mt_remove.specs.Writes.{is_remove};
ghost use Rattle.mt_core.specs.Writes.{parts, Writes, WritesAt, WritesNodes, WritesTape, MayWrite, MayLock, MayJudge, MayPut, MayFill, MayBegin, MayClimb, MayBuild, MayUnlock, TellsLocked, TellsJudged, TellsStored, TellsFilled, TellsPublished, TellsBegun, TellsParted, TellsClimbed, TellsBuilt, TellsUnlocked};

use crate::climbs::climb_on;
use crate::layers::build_on;
use crate::looks::no_memory;
use crate::removals::{drop_pair, judge_back, judge_removal, lock_back, take_out, unlock_removal};
use mt_arena::Arena;
use mt_insert::Judged;
use mt_operation::{Operation, Outcome, Phase, Prepared, Request, Task};
use mt_rows::{Reply, Tenants};
use mt_table::Made;
use mt_tape::Tape;
use std::alloc::Global;

/// Makes the step of this number of the operation of this id, that locks, writes or gives back. All
/// other steps it leaves to others. It may give out places that the step `least` or an earlier one took
/// out.
pub(crate) fn write(
    alloc: Global,
    arena: &mut Arena,
    tape: &mut Tape,
    tenants: &mut Tenants,
    operation: &mut Operation,
    step: u64,
    least: u64,
    id: usize,
) -> Made
    requires { MayWrite operation.old.walk.phase id step least (parts arena.old tape.old tenants.old) operation.old }
    ensures { WritesAt operation.old.walk.phase id step least (parts arena.old tape.old tenants.old) (parts arena.new tape.new tenants.new) operation.old result operation.new }
{
    match operation.walk.phase {
        Phase::Lock => take_lock(arena, operation, id),
        Phase::Judge => judge_node(alloc, arena, tape, operation, step, id),
        Phase::Store => store_row(arena, tape, operation, step, id),
        Phase::Fill => fill_slot(arena, operation, id),
        Phase::Publish => publish_pair(arena, tape, tenants, operation, step, id),
        Phase::SplitStart => begin_split(arena, tape, operation, step, least, id),
        Phase::SplitMove => part_keys(arena, tape, tenants, operation, step, id),
        Phase::SplitPrev => climb(arena, operation, least, id),
        Phase::LockParent => climb(arena, operation, least, id),
        Phase::InsertChild => climb(arena, operation, least, id),
        Phase::InteriorSplit => climb(arena, operation, least, id),
        Phase::Reparent => climb(arena, operation, least, id),
        Phase::RootGrow => climb(arena, operation, least, id),
        Phase::MakeLayer => build(alloc, arena, operation, step, least, id),
        Phase::MarkUnstable => build(alloc, arena, operation, step, least, id),
        Phase::Link => build(alloc, arena, operation, step, least, id),
        Phase::MarkLayer => build(alloc, arena, operation, step, least, id),
        Phase::DropKey => drop_pair(arena, tape, tenants, operation, step, id),
        Phase::LockPrev => take_out(arena, operation, step, id),
        Phase::LockAbove => take_out(arena, operation, step, id),
        Phase::Unlink => take_out(arena, operation, step, id),
        Phase::FixNext => take_out(arena, operation, step, id),
        Phase::Collapse => take_out(arena, operation, step, id),
        Phase::CleanLayer => take_out(arena, operation, step, id),
        Phase::Unlock => give_back(arena, operation, id),
        _ => Made::Nothing,
    }
}

// Takes the lock of the border node, on the way to its key or back to a link.
#[inline(never)]
fn take_lock(arena: &mut Arena, operation: &mut Operation, id: usize) -> Made
    requires { MayLock id arena.old operation.old }
    ensures { WritesNodes id (TellsLocked id) arena.old arena.new operation.old result operation.new }
{
    match operation.outcome {
        None => lock_onward(arena, operation, id),
        Some(_) => lock_back(arena, operation, id),
    }
}

// On the way to its key.
fn lock_onward(arena: &mut Arena, operation: &mut Operation, id: usize) -> Made
    requires may { MayLock id arena.old operation.old }
    requires untold { operation.old.outcome ≡ None }
    ensures { WritesNodes id (TellsLocked id) arena.old arena.new operation.old result operation.new }
{
    match mt_descent::lock(arena, &operation.task.key, &mut operation.walk, id) {
        Some(holder) => Made::Blocked(holder),
        None => Made::Step,
    }
}

// Looks under the lock for the key that is put or removed, or for a link on the way back.
#[inline(never)]
fn judge_node(
    alloc: Global,
    arena: &mut Arena,
    tape: &mut Tape,
    operation: &mut Operation,
    step: u64,
    id: usize,
) -> Made
    requires { MayJudge id arena.old operation.old }
    ensures { WritesTape id (TellsJudged id step) arena.old arena.new tape.old tape.new operation.old result operation.new }
{
    match operation.outcome {
        None if removes(&operation.task) => judge_removal(arena, tape, operation, step, id),
        None => judge_put(alloc, arena, tape, operation, step, id),
        Some(_) => judge_back(arena, operation, id),
    }
}

// Looks for the key under the lock, and makes all growths of the placing step. Where another stamp stands
// than the put asks for, that one is told.
fn judge_put(
    alloc: Global,
    arena: &mut Arena,
    tape: &mut Tape,
    operation: &mut Operation,
    step: u64,
    id: usize,
) -> Made
    requires may { MayJudge id arena.old operation.old }
    requires untold { operation.old.outcome ≡ None }
    requires stays { is_remove (ask operation.old.task) ≡ false }
    ensures { WritesTape id (TellsJudged id step) arena.old arena.new tape.old tape.new operation.old result operation.new }
{
    match mt_insert::judge(alloc, arena, tape, &operation.task, &mut operation.walk, id) {
        Judged::Ready(prepared) => {
            operation.prepared = Some(prepared);
            Made::Step
        }
        Judged::GoesOn => Made::Step,
        Judged::Stale(stamp) => {
            operation.outcome = Some(placed(Reply::Stale(stamp), step));
            Made::Step
        }
        Judged::NoMemory => {
            operation.outcome = Some(no_memory(step));
            Made::Step
        }
    }
}

// Writes the row over the one that is there.
#[inline(never)]
fn store_row(
    arena: &mut Arena,
    tape: &mut Tape,
    operation: &mut Operation,
    step: u64,
    id: usize,
) -> Made
    requires { MayPut step tape.old operation.old (λ prepared. IsAtStore arena.old id operation.old.task prepared operation.old.walk) }
    ensures { WritesTape id (TellsStored id step) arena.old arena.new tape.old tape.new operation.old result operation.new }
{
    let prepared = take_ready(&mut operation.prepared);
    mt_insert::store(
        arena,
        tape,
        &operation.task,
        &mut operation.walk,
        prepared,
        step,
        id,
    );
    operation.outcome = Some(placed(Reply::Replaced, step));
    Made::Step
}

// Writes the pair into a free slot.
#[inline(never)]
fn fill_slot(arena: &mut Arena, operation: &mut Operation, id: usize) -> Made
    requires { MayFill id arena.old operation.old }
    ensures { WritesNodes id (TellsFilled id) arena.old arena.new operation.old result operation.new }
{
    let mut prepared = take_ready(&mut operation.prepared);
    mt_insert::fill(arena, &mut operation.walk, &mut prepared, id);
    operation.prepared = Some(prepared);
    Made::Step
}

// Judges the quota, and makes the pair live.
#[inline(never)]
fn publish_pair(
    arena: &mut Arena,
    tape: &mut Tape,
    tenants: &mut Tenants,
    operation: &mut Operation,
    step: u64,
    id: usize,
) -> Made
    requires { MayPut step tape.old operation.old (λ prepared. IsAtPublish arena.old id operation.old.task prepared operation.old.walk) }
    ensures { Writes id (TellsPublished id step) (parts arena.old tape.old tenants.old) (parts arena.new tape.new tenants.new) operation.old result operation.new }
{
    let prepared = take_ready(&mut operation.prepared);
    let is_new = mt_insert::publish(
        arena,
        tape,
        tenants,
        &operation.task,
        &mut operation.walk,
        prepared,
        step,
        id,
    );
    operation.outcome = Some(put_told(is_new, step));
    Made::Step
}

// Makes the right half of the full border node. If there is no memory for it, the operation is done.
#[inline(never)]
fn begin_split(
    arena: &mut Arena,
    tape: &mut Tape,
    operation: &mut Operation,
    step: u64,
    least: u64,
    id: usize,
) -> Made
    requires { MayBegin id least arena.old tape.old operation.old }
    ensures { WritesTape id (TellsBegun id step least) arena.old arena.new tape.old tape.new operation.old result operation.new }
{
    match mt_insert::split_start(
        arena,
        tape,
        &operation.task.key,
        &mut operation.walk,
        &mut operation.splits,
        least,
        id,
    ) {
        Ok(()) => Made::Step,
        Err(_) => {
            operation.prepared = None;
            operation.outcome = Some(no_memory(step));
            Made::Step
        }
    }
}

// Judges the quota, and parts the keys among the halves.
#[inline(never)]
fn part_keys(
    arena: &mut Arena,
    tape: &mut Tape,
    tenants: &mut Tenants,
    operation: &mut Operation,
    step: u64,
    id: usize,
) -> Made
    requires { MayPut step tape.old operation.old (λ prepared. IsAtSplitMove arena.old id operation.old.task prepared operation.old.walk operation.old.splits) }
    ensures { Writes id (TellsParted id step) (parts arena.old tape.old tenants.old) (parts arena.new tape.new tenants.new) operation.old result operation.new }
{
    let prepared = take_ready(&mut operation.prepared);
    let is_new = mt_insert::split_move(
        arena,
        tape,
        tenants,
        &operation.task,
        &mut operation.walk,
        &operation.splits,
        prepared,
        step,
        id,
    );
    operation.outcome = Some(put_told(is_new, step));
    Made::Step
}

// Brings a right half nearer to its place in its parent, or makes a root.
#[inline(never)]
fn climb(arena: &mut Arena, operation: &mut Operation, least: u64, id: usize) -> Made
    requires { MayClimb id least arena.old operation.old }
    ensures { WritesNodes id (TellsClimbed id least) arena.old arena.new operation.old result operation.new }
{
    climb_on(arena, &mut operation.walk, &mut operation.splits, least, id)
}

// Brings a layer one step nearer. If there is no memory for its tree, the operation is done.
#[inline(never)]
fn build(
    alloc: Global,
    arena: &mut Arena,
    operation: &mut Operation,
    step: u64,
    least: u64,
    id: usize,
) -> Made
    requires { MayBuild id least arena.old operation.old }
    ensures { WritesNodes id (TellsBuilt id step least) arena.old arena.new operation.old result operation.new }
{
    match build_on(
        alloc,
        arena,
        &operation.task.key,
        &mut operation.walk,
        least,
        id,
    ) {
        Ok(()) => Made::Step,
        Err(_) => {
            operation.outcome = Some(no_memory(step));
            Made::Step
        }
    }
}

// Gives all locks back. An operation without an outcome has made a layer, and goes on there.
#[inline(never)]
fn give_back(arena: &mut Arena, operation: &mut Operation, id: usize) -> Made
    requires { MayUnlock id arena.old operation.old }
    ensures { WritesNodes id (TellsUnlocked id) arena.old arena.new operation.old result operation.new }
{
    match operation.outcome {
        None => leave_layer(arena, operation, id),
        Some(_) if !operation.splits.halves.is_empty() => unlock_splits(arena, operation, id),
        Some(_) if removes(&operation.task) => unlock_removal(arena, operation, id),
        Some(_) => unlock_one(arena, operation, id),
    }
}

// Gives the lock of the border node back, and goes on in the tree of the next layer.
fn leave_layer(arena: &mut Arena, operation: &mut Operation, id: usize) -> Made
    requires may { MayUnlock id arena.old operation.old }
    requires untold { operation.old.outcome ≡ None }
    ensures { WritesNodes id (TellsUnlocked id) arena.old arena.new operation.old result operation.new }
{
    mt_layer::leave(arena, &mut operation.walk, id);
    Made::Step
}

// Gives the locks of all nodes of the splits back.
fn unlock_splits(arena: &mut Arena, operation: &mut Operation, id: usize) -> Made
    requires may { MayUnlock id arena.old operation.old }
    requires told { operation.old.outcome ≢ None }
    requires some { operation.old.splits.halves.items ≢ [] }
    ensures { WritesNodes id (TellsUnlocked id) arena.old arena.new operation.old result operation.new }
{
    mt_insert::unlock_all(arena, &mut operation.walk, &mut operation.splits, id);
    Made::Step
}

// Gives the lock of the border node back.
fn unlock_one(arena: &mut Arena, operation: &mut Operation, id: usize) -> Made
    requires may { MayUnlock id arena.old operation.old }
    requires told { operation.old.outcome ≢ None }
    requires none { operation.old.splits.halves.items ≡ [] }
    requires stays { is_remove (ask operation.old.task) ≡ false }
    ensures { WritesNodes id (TellsUnlocked id) arena.old arena.new operation.old result operation.new }
{
    mt_held::unlock(arena, &mut operation.walk, id);
    Made::Step
}

// Whether what an operation was begun with removes a key.
fn removes(task: &Task) -> bool
    ensures { result ≡ is_remove (ask task.now) }
{
    match task.request {
        Request::Remove { .. } => true,
        Request::Get { .. } | Request::Put { .. } | Request::PutIf { .. } | Request::Scan { .. } =>
            false,
    }
}

/// Takes what an operation has made ready.
pub(crate) fn take_ready(prepared: &mut Option<Prepared>) -> Prepared
    requires { prepared.old ≢ None }
    ensures ready { prepared.old ≡ Some result }
    ensures none { prepared.new ≡ None }
{
    match prepared.take() {
        Some(prepared) => prepared,
        None => unreachable!(),
    }
}

/// The outcome of an operation that this step has judged or placed.
pub(crate) fn placed(reply: Reply, step: u64) -> Outcome
    ensures { result ≡ record { reply = reply; at = step } }
{
    Outcome { reply, at: step }
}

// That of a put of a new key, whether there was room for it.
fn put_told(is_new: bool, step: u64) -> Outcome
    ensures { result ≡ record { reply = if is_new then Reply.New else Reply.Full; at = step } }
{
    placed(if is_new { Reply::New } else { Reply::Full }, step)
}
