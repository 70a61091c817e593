//! The steps of a removal from its look at its border node on, and of its way back to the link of a layer that
//! it has left empty.

ghost use Rattle.std.specs.Prelude.{◌≡◌, ◌≢◌, IfSome, IfNone, ℕ, None, [], true};
ghost use Rattle.mt_arena.specs.Given.{AreOutUpTo};
ghost use Rattle.mt_operation.specs.{Operations.{SplitsView, ScanView}, Phases.IsRemovalPhase, Tasks.ask};
ghost use Rattle.mt_remove.specs.{KeptRemovals.{HoldsRemoval, KeptRemoval}, Steps.IsRemovalFrom, Writes.is_remove};
ghost use Rattle.mt_state.specs.Promises.{IsInTheWay};
ghost use Rattle.mt_core.specs.Writes.{parts, Writes, WritesNodes, WritesTape, MayLock, MayJudge, MayDrop, MayTake, MayUnlock, TellsLocked, TellsJudged, TellsDropped, TellsTaken, TellsUnlocked};

use crate::looks::{absent, no_memory};
use crate::writes::{placed, take_ready};
use mt_arena::Arena;
use mt_operation::{Operation, Phase, Removal, Walk};
use mt_remove::{
    Looked, clean_layer, collapse, drop_key, fix_next, follow, judge, lock, lock_above, lock_prev,
    unlink, unlock,
};
use mt_rows::{Reply, Tenants};
use mt_slices::StoredKey;
use mt_table::Made;
use mt_tape::Tape;

/// Looks for the key under the lock, and makes all growths of the step that takes it out.
pub(crate) fn judge_removal(
    arena: &mut Arena,
    tape: &mut Tape,
    operation: &mut Operation,
    step: u64,
    id: usize,
) -> Made
    requires may { MayJudge id arena.old operation.old }
    requires untold { operation.old.outcome ≡ None }
    requires removes { is_remove (ask operation.old.task) ≡ true }
    ensures { WritesTape id (TellsJudged id step) arena.old arena.new tape.old tape.new operation.old result operation.new }
{
    match judge(arena, tape, &operation.task, &mut operation.walk, id) {
        Looked::Ready(prepared) => {
            operation.prepared = Some(prepared);
            Made::Step
        }
        Looked::GoesOn => Made::Step,
        Looked::Absent => {
            operation.outcome = Some(absent(step));
            Made::Step
        }
        Looked::NoMemory => {
            operation.outcome = Some(no_memory(step));
            Made::Step
        }
    }
}

/// Takes the pair of the key out.
#[inline(never)]
pub(crate) fn drop_pair(
    arena: &mut Arena,
    tape: &mut Tape,
    tenants: &mut Tenants,
    operation: &mut Operation,
    step: u64,
    id: usize,
) -> Made
    requires { MayDrop id step (parts arena.old tape.old tenants.old) operation.old }
    ensures { Writes id (TellsDropped id step) (parts arena.old tape.old tenants.old) (parts arena.new tape.new tenants.new) operation.old result operation.new }
{
    let prepared = take_ready(&mut operation.prepared);
    drop_key(
        arena,
        tape,
        tenants,
        &operation.task,
        &mut operation.walk,
        &mut operation.removal,
        prepared,
        step,
        id,
    );
    operation.outcome = Some(placed(Reply::Removed, step));
    Made::Step
}

/// Brings an empty border node one step nearer to its end, or an empty layer.
#[inline(never)]
pub(crate) fn take_out(arena: &mut Arena, operation: &mut Operation, step: u64, id: usize) -> Made
    requires { MayTake id step arena.old operation.old }
    ensures { WritesNodes id (TellsTaken id step) arena.old arena.new operation.old result operation.new }
{
    match take_out_by(
        arena,
        &operation.task.key,
        &mut operation.walk,
        &mut operation.removal,
        step,
        id,
    ) {
        Some(holder) => Made::Blocked(holder),
        None => Made::Step,
    }
}

/// Gives all locks of a removal back. Where it has left its layer empty, it goes back to the link.
pub(crate) fn unlock_removal(arena: &mut Arena, operation: &mut Operation, id: usize) -> Made
    requires may { MayUnlock id arena.old operation.old }
    requires told { operation.old.outcome ≢ None }
    requires none { operation.old.splits.halves.items ≡ [] }
    requires removes { is_remove (ask operation.old.task) ≡ true }
    ensures { WritesNodes id (TellsUnlocked id) arena.old arena.new operation.old result operation.new }
{
    unlock(arena, &mut operation.walk, &mut operation.removal, id);
    Made::Step
}

/// Takes the lock of the border node on the way back to a link.
pub(crate) fn lock_back(arena: &mut Arena, operation: &mut Operation, id: usize) -> Made
    requires may { MayLock id arena.old operation.old }
    requires told { operation.old.outcome ≢ None }
    ensures { WritesNodes id (TellsLocked id) arena.old arena.new operation.old result operation.new }
{
    match lock(
        arena,
        &operation.task.key,
        &mut operation.walk,
        &operation.removal,
        id,
    ) {
        Some(holder) => Made::Blocked(holder),
        None => Made::Step,
    }
}

/// Follows a link on the way back; where there is none, another operation has taken the layer out.
pub(crate) fn judge_back(arena: &mut Arena, operation: &mut Operation, id: usize) -> Made
    requires may { MayJudge id arena.old operation.old }
    requires told { operation.old.outcome ≢ None }
    ensures { (step : ℕ) → WritesNodes id (TellsJudged id step) arena.old arena.new operation.old result operation.new }
{
    follow(arena, &operation.task.key, &mut operation.walk, id);
    Made::Step
}

// Makes the step of the walk's phase, by its number. Only a lock is in its way: the number is that of its
// holder, which is another operation.
fn take_out_by(
    arena: &mut Arena,
    key: &StoredKey,
    walk: &mut Walk,
    removal: &mut Removal,
    step: u64,
    operation: usize,
) -> Option<usize>
    requires phase { IsRemovalPhase walk.old.phase }
    requires kept { KeptRemoval walk.old.phase arena.old operation key.now walk.old removal.old }
    requires upto { AreOutUpTo step arena.old.retired }
    ensures again { IfSome result (λ holder. (s : SplitsView) (g : ScanView) → IsInTheWay arena.old walk.old.phase walk.old s removal.old g holder) }
    ensures unchanged { IfSome result (λ holder. (arena.new ≡ arena.old) × (walk.new ≡ walk.old) × (removal.new ≡ removal.old)) }
    ensures another { HoldsRemoval arena.old operation walk.old removal.old → IfSome result (λ holder. holder ≢ operation) }
    ensures takes { IfNone result (IsRemovalFrom walk.old.phase operation step key.now arena.old arena.new walk.old walk.new removal.old removal.new) }
{
    arena.facts();
    match walk.phase {
        Phase::LockPrev => lock_prev(arena, walk, removal, operation),
        Phase::LockAbove => lock_above(arena, walk, removal, operation),
        Phase::Unlink => {
            unlink(arena, walk, removal, step, operation);
            None
        }
        Phase::FixNext => {
            fix_next(arena, walk, removal, operation);
            None
        }
        Phase::Collapse => {
            collapse(arena, walk, removal, step, operation);
            None
        }
        Phase::CleanLayer => clean_layer(arena, key, walk, removal, step, operation),
        _ => unreachable!(),
    }
}
