//! Judge: looks for the key in the border node that the operation holds, and makes all growths of the
//! step that takes it out.

ghost use Rattle.std.specs.Prelude.{◌≡◌, Some, IfOk, OnOk, OnErr};
ghost use Rattle.mt_border.specs.{Contents.row_of, Held.{Pair as AnyPair}, Entry.pair_of, Node.{IsLive, entry_at}, declared.entry.FoundKind.TheVariants.ThisKey};
ghost use Rattle.mt_arena.specs.{NodeView.place_at, Accesses.at, Layers.slot_at};
ghost use Rattle.mt_descent.specs.KeptWalks.{IsAtBorder, IsInSlot};
ghost use Rattle.mt_held.specs.{Holds.HoldsBorder, Taping.reserving};
ghost use Rattle.mt_remove.specs.{Writes.{IsRemoval, ReadyIn}, Judge.TellsLooked};

use mt_arena::Arena;
use mt_border::{Border, Find, FoundKind, Held};
use mt_held::{find_here, go_below, tree_at, unlock};
use mt_operation::{Phase, Prepared, Task, Walk};
use mt_rows::StampedRow;
use mt_tape::{Entry, Tape};
use std::alloc::AllocError;

/// What became of a removal's look at its border node.
#[derive(Drop)]
pub enum Looked {
    /// The key is there, and all growths of the step that takes it out are made.
    Ready(Prepared),
    /// A link stands there: the lock was given back, and it goes on in the link's tree.
    GoesOn,
    /// The key is missing; the lock was given back, and the walk is done.
    Absent,
    /// There is no memory; the lock was given back, and the walk is done.
    NoMemory,
}

/// Looks for the key in the border node that the operation holds. Where the node has it, all growths are made
/// of the step that takes it out. A link leads into its tree; where the node misses the key, or has another
/// long one in its place, the lock is given back.
pub fn judge(
    arena: &mut Arena,
    tape: &mut Tape,
    task: &Task,
    walk: &mut Walk,
    operation: usize,
) -> Looked
    requires removal { IsRemoval task.now }
    requires kept { HoldsBorder arena.old operation task.now.key walk.old }
    ensures { TellsLooked operation task.now arena.old arena.new tape.old tape.new walk.old walk.new result }
{
    arena.facts();
    match find_here(arena, &task.key, walk) {
        Find::Slot(slot, FoundKind::ThisKey) => {
            make_ready(arena, tape, task, walk, slot, operation)
        }
        Find::Slot(slot, FoundKind::Link) => {
            let tree = tree_at(arena.border(walk.place.node), slot);
            go_below(arena, walk, tree, operation);
            Looked::GoesOn
        }
        Find::Slot(_, FoundKind::OtherLong) => {
            unlock(arena, walk, operation);
            Looked::Absent
        }
        Find::Missing => {
            unlock(arena, walk, operation);
            Looked::Absent
        }
    }
}

// Makes all growths of the step that takes the key out of its slot.
fn make_ready(
    arena: &mut Arena,
    tape: &mut Tape,
    task: &Task,
    walk: &mut Walk,
    slot: usize,
    operation: usize,
) -> Looked
    requires removal { IsRemoval task.now }
    requires kept { HoldsBorder arena.old operation task.now.key walk.old }
    requires slot { IsInSlot (at arena.old walk.old.place.node) slot task.now.key walk.old.layer ThisKey }
    ensures { TellsLooked operation task.now arena.old arena.new tape.old tape.new walk.old walk.new result }
{
    arena.facts();
    match prepare(arena, tape, task, walk, slot) {
        Ok(prepared) => {
            walk.slot = slot;
            walk.phase = Phase::DropKey;
            Looked::Ready(prepared)
        }
        Err(_) => {
            unlock(arena, walk, operation);
            Looked::NoMemory
        }
    }
}

// All growths of the step that takes the key out of its slot, with room for its write on the tape. An error
// leaves the tape as it was.
fn prepare(
    arena: &Arena,
    tape: &mut Tape,
    task: &Task,
    walk: &Walk,
    slot: usize,
) -> Result<Prepared, AllocError>
    requires removal { IsRemoval task.now }
    requires kept { IsAtBorder arena.now task.now.key walk.now }
    requires slot { IsInSlot (at arena.now walk.now.place.node) slot task.now.key walk.now.layer ThisKey }
    ensures ready { IfOk result (λ prepared. ReadyIn (slot_at (at arena.now walk.now.place.node) (place_at (at arena.now walk.now.place.node) slot)).held task.now prepared) }
    ensures reserved { OnOk result (tape.new ≡ reserving tape.old) }
    ensures unchanged_on_err { OnErr result (tape.new ≡ tape.old) }
{
    let prepared = prepared(arena.border(walk.place.node), task, slot)?;
    tape.reserve()?;
    Ok(prepared)
}

// The removal of a slot's row.
fn prepared(border: &Border, task: &Task, slot: usize) -> Result<Prepared, AllocError>
    requires live { IsLive border.now slot }
    requires pair { (pair : AnyPair) × (pair_of (entry_at border.now slot).held ≡ Some pair) }
    ensures { IfOk result (λ prepared. ReadyIn (entry_at border.now slot).held task.now prepared) }
{
    let write = Entry {
        step: 0,
        worker: task.worker,
        tenant: task.tenant,
        key: task.spare.copied(task.request.key())?,
        before: Some(row_at(border, slot)?),
        after: None,
        change: None,
    };
    Ok(Prepared::of_write(write))
}

// The row of a slot that has a pair, with its stamp, shared.
fn row_at(border: &Border, slot: usize) -> Result<StampedRow, AllocError>
    requires live { IsLive border.now slot }
    requires pair { (pair : AnyPair) × (pair_of (entry_at border.now slot).held ≡ Some pair) }
    ensures { IfOk result (λ row. (pair : AnyPair) → pair_of (entry_at border.now slot).held ≡ Some pair → row ≡ row_of pair) }
{
    match border.load(slot).and_then(Held::pair) {
        Some(pair) => Ok(StampedRow {
            stamp: pair.stamp,
            row: pair.row.share()?,
        }),
        None => unreachable!(),
    }
}
