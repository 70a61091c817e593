//! What a put makes ready under its lock, so that the step which places it takes no memory.
//!
//! Errors: `AllocError`, which changes nothing.

ghost use Rattle.std.specs.{Prelude.{◌≡◌, ◌<◌, true, IfOk, OnOk, OnErr, Some, None}, Option.option_map};
ghost use Rattle.mt_slices.specs.Slices.{suffix_of, HasLayer};
ghost use Rattle.mt_rows.specs.{Changes.changed, Stamps.{columns_in, stamp_in}};
ghost use Rattle.mt_border.specs.{Contents.row_of, Entry.pair_of, Node.{IsLive, entry_at}};
ghost use Rattle.mt_arena.specs.Accesses.{at};
ghost use Rattle.mt_operation.specs.Tasks.{command_of, ask};
ghost use Rattle.mt_descent.specs.KeptWalks.{IsAtBorder};
ghost use Rattle.mt_insert.specs.{Puts.{change_of, is_put, IsReady, MeetsStamp}, Judge.{StandsIn, ReadyFor, standing_in}};
ghost use Rattle.mt_held.specs.Taping.{reserving};

use mt_arena::Arena;
use mt_border::{Border, Held, Suffix};
use mt_operation::{Prepared, Request, Task, Walk};
use mt_rows::{Change, Row, RowRoom, StampedRow, merge_in};
use mt_tape::{Entry, Tape};
use std::alloc::{AllocError, Global};

// What a put writes.
fn change_of(request: &Request) -> &Change
    requires { is_put (command_of request.now) ≡ true }
    ensures { result.now ≡ change_of (command_of request.now) }
{
    match request {
        Request::Put { change, .. } | Request::PutIf { change, .. } => change,
        Request::Get { .. } | Request::Remove { .. } | Request::Scan { .. } => unreachable!(),
    }
}

// The row that a change makes of this one, or of none, in this room.
fn merged(
    alloc: Global,
    room: &RowRoom,
    before: Option<&StampedRow>,
    change: &Change,
) -> Result<Row, AllocError>
    ensures { IfOk result (λ row. row ≡ changed change.now (columns_in (option_map (λ r. r.now) before.entry))) }
{
    match before {
        Some(before) => merge_in(alloc, room, Some(&before.row), change),
        None => merge_in(alloc, room, None, change),
    }
}

// What a put's write keeps of its change: a share of it where a row stood.
fn kept_change(task: &Task, before: Option<&StampedRow>) -> Result<Option<Change>, AllocError>
    requires { is_put (ask task.now) ≡ true }
    ensures { IfOk result (λ kept. kept ≡ option_map (λ was. change_of (ask task.now)) (option_map (λ r. r.now) before.entry)) }
{
    match before {
        Some(_) => Ok(Some(change_of(&task.request).share()?)),
        None => Ok(None),
    }
}

// The row that a put makes of this one, or of none, and the write of it, still without its number. The put
// may write over the stamp that stands there.
fn prepared(
    alloc: Global,
    task: &Task,
    before: Option<StampedRow>,
    suffix: Suffix,
) -> Result<Prepared, AllocError>
    requires put { is_put (ask task.now) ≡ true }
    requires met { MeetsStamp (ask task.now) (stamp_in before) }
    ensures suffix { before ≡ None → IfOk result (λ prepared. prepared.suffix ≡ suffix) }
    ensures ready { IfOk result (λ prepared. IsReady task.now before prepared) }
{
    let change = change_of(&task.request);
    let row = merged(alloc, task.spare.row(), before.as_ref(), change)?;
    let kept = kept_change(task, before.as_ref())?;
    let is_new = before.is_none();
    let write = Entry {
        step: 0,
        worker: task.worker,
        tenant: task.tenant,
        key: task.spare.copied(task.request.key())?,
        before,
        after: Some(row.share()?),
        change: kept,
    };
    if is_new {
        Prepared::new(alloc, suffix, row, write)
    } else {
        Ok(Prepared::of_row(row, write))
    }
}

// The row of a slot with its stamp, shared.
fn row_at(border: &Border, slot: usize) -> Result<Option<StampedRow>, AllocError>
    requires { IsLive border.now slot }
    ensures { IfOk result (λ row. row ≡ option_map row_of (pair_of (entry_at border.now slot).held)) }
{
    match border.load(slot).and_then(Held::pair) {
        Some(pair) => Ok(Some(StampedRow {
            stamp: pair.stamp,
            row: pair.row.share()?,
        })),
        None => Ok(None),
    }
}

// What is made ready over the row of a slot.
fn prepared_over(
    alloc: Global,
    border: &Border,
    task: &Task,
    slot: usize,
) -> Result<Prepared, AllocError>
    requires put { is_put (ask task.now) ≡ true }
    requires live { IsLive border.now slot }
    requires met { MeetsStamp (ask task.now) (stamp_in (option_map row_of (pair_of (entry_at border.now slot).held))) }
    ensures { IfOk result (λ prepared. IsReady task.now (option_map row_of (pair_of (entry_at border.now slot).held)) prepared) }
{
    let before = row_at(border, slot)?;
    prepared(alloc, task, before, Suffix::empty())
}

// What is made ready where the key is missing.
fn prepared_new(alloc: Global, task: &Task, layer: usize) -> Result<Prepared, AllocError>
    requires put { is_put (ask task.now) ≡ true }
    requires met { MeetsStamp (ask task.now) 0 }
    requires reaches { HasLayer task.now.key layer }
    ensures suffix { IfOk result (λ prepared. prepared.suffix ≡ suffix_of task.now.key layer) }
    ensures ready { IfOk result (λ prepared. IsReady task.now None prepared) }
{
    let suffix = Suffix::from_slice(alloc, task.key.suffix(layer))?;
    prepared(alloc, task, None, suffix)
}

// All growths of the step that places the put, but for the tape's.
fn prepared_for(
    alloc: Global,
    arena: &Arena,
    task: &Task,
    walk: &Walk,
    slot: Option<usize>,
) -> Result<Prepared, AllocError>
    requires put { is_put (ask task.now) ≡ true }
    requires kept { IsAtBorder arena.now task.now.key walk.now }
    requires slot { StandsIn (at arena.now walk.now.place.node) task.now.key walk.now.layer slot }
    requires met { MeetsStamp (ask task.now) (stamp_in (standing_in (at arena.now walk.now.place.node) slot)) }
    ensures { IfOk result (λ prepared. ReadyFor (at arena.now walk.now.place.node) task.now walk.now.layer slot prepared) }
{
    match slot {
        Some(slot) => prepared_over(alloc, arena.border(walk.place.node), task, slot),
        None => prepared_new(alloc, task, walk.layer),
    }
}

/// All growths of the step that places the put, by the slot that has its key, and room for its write
/// on the tape. An error leaves the tape as it was.
pub(crate) fn prepare(
    alloc: Global,
    arena: &Arena,
    tape: &mut Tape,
    task: &Task,
    walk: &Walk,
    slot: Option<usize>,
) -> Result<Prepared, AllocError>
    requires put { is_put (ask task.now) ≡ true }
    requires kept { IsAtBorder arena.now task.now.key walk.now }
    requires slot { StandsIn (at arena.now walk.now.place.node) task.now.key walk.now.layer slot }
    requires met { MeetsStamp (ask task.now) (stamp_in (standing_in (at arena.now walk.now.place.node) slot)) }
    ensures ready { IfOk result (λ prepared. ReadyFor (at arena.now walk.now.place.node) task.now walk.now.layer slot prepared) }
    ensures reserved { OnOk result (tape.new ≡ reserving tape.old) }
    ensures unchanged_on_err { OnErr result (tape.new ≡ tape.old) }
{
    let prepared = prepared_for(alloc, arena, task, walk, slot)?;
    tape.reserve()?;
    Ok(prepared)
}
