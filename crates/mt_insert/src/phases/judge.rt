//! Judge: looks for the key in the border node that the operation holds, judges the stamp that stands
//! there, and makes all growths of the step that places its change.

ghost use Rattle.std.specs.{Prelude.{◌≡◌, ◌<◌, ◌==◌, if◌then◌else◌, length, true, false}, Option.option_map};
ghost use Rattle.mt_rows.specs.Stamps.{stamp_in};
ghost use Rattle.mt_border.specs.{Contents.row_of, Entry.pair_of, Node.{IsLive, entries_of, entry_at}};
ghost use Rattle.mt_arena.specs.Accesses.{at};
ghost use Rattle.mt_operation.specs.Tasks.{ask, command_of};
ghost use Rattle.mt_descent.specs.KeptWalks.{IsAtBorder};
ghost use Rattle.mt_insert.specs.{Puts.{IsPut, MeetsStamp}, Judge.{StandsIn, TellsJudged, after_judge, standing_in}};
ghost use Rattle.mt_held.specs.Holds.{HoldsBorder};

use crate::prepare::prepare;
use mt_arena::Arena;
use mt_border::{Border, Find, FoundKind, Held};
use mt_held::{find_here, go_below, tree_at, unlock};
use mt_operation::{Phase, Prepared, Request, Task, Walk};
use mt_slices::StoredKey;
use mt_tape::Tape;
use std::alloc::Global;

/// What became of a put's look at its border node.
#[derive(Drop)]
pub enum Judged {
    /// All growths of the step that places it are made.
    Ready(Prepared),
    /// It goes on in the tree of the next layer, and the lock was given back; or that tree is to be
    /// made.
    GoesOn,
    /// Another stamp stands at the key than the one that the put asks for: this one, 0 for no row. The
    /// lock was given back, and the walk is done.
    Stale(u64),
    /// There is no memory; the lock was given back, and the walk is done.
    NoMemory,
}

/// Looks for the key in the border node that the operation holds. Where the node has it or misses it,
/// the stamp that stands there is judged first. A put that asks for another one gives its lock back. For
/// all others all growths are made of the step that will place the row. That is `store`, `publish` behind
/// `fill`, or `split_move` behind `split_start` where the node is full. A link leads into its tree; where another
/// long key stands in the key's place, a layer is to be made for both.
pub fn judge(
    alloc: Global,
    arena: &mut Arena,
    tape: &mut Tape,
    task: &Task,
    walk: &mut Walk,
    operation: usize,
) -> Judged
    requires put { IsPut task.now }
    requires kept { HoldsBorder arena.old operation task.now.key walk.old }
    ensures { TellsJudged operation task.now arena.old arena.new tape.old tape.new walk.old walk.new result }
{
    arena.facts();
    match find_here(arena, &task.key, walk) {
        Find::Missing => judge_stamp(alloc, arena, tape, task, walk, None, operation),
        Find::Slot(slot, FoundKind::ThisKey) => {
            judge_stamp(alloc, arena, tape, task, walk, Some(slot), operation)
        }
        Find::Slot(slot, FoundKind::OtherLong) => {
            walk.slot = slot;
            walk.phase = Phase::MakeLayer;
            Judged::GoesOn
        }
        Find::Slot(slot, FoundKind::Link) => {
            let tree = tree_at(arena.border(walk.place.node), slot);
            go_below(arena, walk, tree, operation);
            Judged::GoesOn
        }
    }
}

// Judges the stamp that stands at the key, by the slot that has it, and then makes all ready.
fn judge_stamp(
    alloc: Global,
    arena: &mut Arena,
    tape: &mut Tape,
    task: &Task,
    walk: &mut Walk,
    slot: Option<usize>,
    operation: usize,
) -> Judged
    requires put { IsPut task.now }
    requires kept { HoldsBorder arena.old operation task.now.key walk.old }
    requires slot { StandsIn (at arena.old walk.old.place.node) task.now.key walk.old.layer slot }
    ensures { TellsJudged operation task.now arena.old arena.new tape.old tape.new walk.old walk.new result }
{
    arena.facts();
    let stamp = standing_stamp(arena, &task.key, walk, slot);
    if !meets_stamp(&task.request, stamp) {
        unlock(arena, walk, operation);
        return Judged::Stale(stamp);
    }
    make_ready(alloc, arena, tape, task, walk, slot, operation)
}

// The stamp that stands at the key, by the slot that has it: 0 where it is missing.
fn standing_stamp(arena: &Arena, key: &StoredKey, walk: &Walk, slot: Option<usize>) -> u64
    requires kept { IsAtBorder arena.now key.now walk.now }
    requires slot { StandsIn (at arena.now walk.now.place.node) key.now walk.now.layer slot }
    ensures { result ≡ stamp_in (standing_in (at arena.now walk.now.place.node) slot) }
{
    match slot {
        Some(slot) => stamp_at(arena.border(walk.place.node), slot),
        None => 0,
    }
}

// The stamp of a slot's pair.
fn stamp_at(border: &Border, slot: usize) -> u64
    requires { IsLive border.now slot }
    ensures { result ≡ stamp_in (option_map row_of (pair_of (entry_at border.now slot).held)) }
{
    match border.load(slot).and_then(Held::pair) {
        Some(pair) => pair.stamp,
        None => 0,
    }
}

// Whether a put may be placed where this stamp stands.
fn meets_stamp(request: &Request, standing: u64) -> bool
    ensures yes { result ≡ true → MeetsStamp (command_of request.now) standing }
    ensures no { result ≡ false → ¬ MeetsStamp (command_of request.now) standing }
{
    match request {
        Request::PutIf { stamp, .. } => standing == *stamp,
        Request::Get { .. } | Request::Put { .. } | Request::Remove { .. } | Request::Scan { .. } =>
            true,
    }
}

// Makes all growths of the step that places the row, by the slot that has the key.
fn make_ready(
    alloc: Global,
    arena: &mut Arena,
    tape: &mut Tape,
    task: &Task,
    walk: &mut Walk,
    slot: Option<usize>,
    operation: usize,
) -> Judged
    requires put { IsPut task.now }
    requires kept { HoldsBorder arena.old operation task.now.key walk.old }
    requires slot { StandsIn (at arena.old walk.old.place.node) task.now.key walk.old.layer slot }
    requires met { MeetsStamp (ask task.now) (stamp_in (standing_in (at arena.old walk.old.place.node) slot)) }
    ensures { TellsJudged operation task.now arena.old arena.new tape.old tape.new walk.old walk.new result }
{
    arena.facts();
    match prepare(alloc, arena, tape, task, walk, slot) {
        Ok(prepared) => {
            go_on(arena, walk, slot);
            Judged::Ready(prepared)
        }
        Err(_) => {
            unlock(arena, walk, operation);
            Judged::NoMemory
        }
    }
}

// Goes on to place the row, by the slot that has the key.
fn go_on(arena: &Arena, walk: &mut Walk, slot: Option<usize>)
    requires there { walk.old.place.node < length arena.now.nodes }
    requires border { (at arena.now walk.old.place.node).level ≡ 0 }
    ensures { walk.new ≡ after_judge (at arena.now walk.old.place.node) slot walk.old }
{
    match slot {
        Some(slot) => {
            walk.slot = slot;
            walk.phase = Phase::Store;
        }
        None => walk.phase = for_missing(arena.border(walk.place.node)),
    }
}

// What comes next where the node misses the key.
fn for_missing(border: &Border) -> Phase
    ensures { result ≡ (if length (entries_of border.now) == 15 then Phase.SplitStart else Phase.Fill) }
{
    if border.is_full() {
        Phase::SplitStart
    } else {
        Phase::Fill
    }
}
