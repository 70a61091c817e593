//! Check: compares the border node's version, and keeps what was seen there.

ghost use Rattle.std.specs.Prelude.{◌≡◌, ◌≢◌, ℕ, List, Option, Some, None, IfOk, OnOk, OnErr};
ghost use Rattle.mt_slices.specs.Keys.{IsStoredKey};
ghost use Rattle.mt_rows.specs.Stamps.{Stamped};
ghost use Rattle.mt_arena.specs.Accesses.{at};
ghost use Rattle.mt_operation.specs.{declared.phase.Phase.TheVariants.Done, Operations.scan_of};
ghost use Rattle.mt_descent.specs.{Pasts.Past, WalkMoves.Continues};
ghost use Rattle.mt_scan.specs.{Snaps.prefix_in, Checks.{Asks, MayCheck, walk_to, GoesBehind, IsUnchanged, ChecksOr}};
ghost use Rattle.mt_scan.specs.{Goings.{HasBehind, at_next, phase_at, IsStoredBehind, Keeps}, Hops.{IsAtCheck, KeptScan}};

use crate::behind::{NextFence, next_fence};
use crate::collect::collect;
use mt_arena::Arena;
use mt_descent::{blocker, move_on};
use mt_operation::{Phase, Scan, Task, Walk};
use std::alloc::{AllocError, Global};

/// Compares the border node's version with the remembered one. Where it stands, the pairs that were seen
/// are kept, each as it is shown, up to as many in all as the task asks for: then the scan is done, else
/// it goes on behind their stretch, at its next fence. Where it doesn't, they are forgotten. A marked node
/// is in its way: nothing has changed then. An error comes if memory is refused for what it keeps, so only if the
/// version stands; the walk is as it was then.
pub fn check(
    alloc: Global,
    arena: &Arena,
    task: &mut Task,
    walk: &mut Walk,
    scan: &mut Scan,
) -> Result<Option<usize>, AllocError>
    requires kept { IsAtCheck arena.now task.old.key walk.old scan.old.stop }
    requires asked { MayCheck task.old scan.old.collected.items }
    ensures checks { (count : ℕ) (columns : List ℕ) → Asks task.old count columns →
        IfOk result (ChecksOr (at arena.now walk.old.place.node) (prefix_in arena.now walk.old) count columns walk.old walk.new
        (scan_of task.old scan.old) (scan_of task.new scan.new)) }
    ensures blocked { IfOk result (λ held. (holder : ℕ) → held ≡ Some holder → (scan.new ≡ scan.old) × (task.new ≡ task.old)) }
    ensures task { task.new ≡ record task.old { key = task.new.key } }
    ensures kept { IfOk result (λ held. held ≡ None → walk.new.phase ≢ Done → (past : Past) (row : Option Stamped) →
        KeptScan walk.new.phase arena.now past task.new.key row walk.new scan.new.stop) }
    ensures same { Continues walk.old walk.new }
    ensures stands_on_err { OnErr result (walk.new ≡ walk.old) }
    ensures task_on_err { OnErr result (task.new ≡ task.old) }
    ensures unchanged_on_err { OnErr result (IsUnchanged (at arena.now walk.old.place.node) walk.old) }
{
    arena.facts();
    let node = arena.node(walk.place.node);
    if let Some(holder) = blocker(node) {
        return Ok(Some(holder));
    }
    if node.version().same_but_lock(walk.place.seen) {
        let prefix = arena.tree(walk.place.tree).prefix.as_bytes();
        keep(alloc, prefix, task, walk, scan)?;
    } else {
        scan.seen.clear();
        move_on(walk, node);
    }
    Ok(None)
}

// The version stands: keeps the pairs that were seen, and is done, or goes on behind them.
fn keep(
    alloc: Global,
    prefix: &[u8],
    task: &mut Task,
    walk: &mut Walk,
    scan: &mut Scan,
) -> Result<(), AllocError>
    requires asked { MayCheck task.old scan.old.collected.items }
    requires fence { HasBehind prefix.now scan.old.stop }
    ensures keeps { (count : ℕ) (columns : List ℕ) → Asks task.old count columns →
        OnOk result (Keeps prefix.now count columns walk.old walk.new (scan_of task.old scan.old) (scan_of task.new scan.new)) }
    ensures task { task.new ≡ record task.old { key = task.new.key } }
    ensures same { Continues walk.old walk.new }
    ensures stands_on_err { OnErr result (walk.new ≡ walk.old) }
    ensures task_on_err { OnErr result (task.new ≡ task.old) }
{
    if collect(alloc, task, scan)? {
        walk.phase = Phase::Done;
        return Ok(());
    }
    go_behind(alloc, prefix, task, walk, scan)
}

// Goes on at the next fence, if there is one.
fn go_behind(
    alloc: Global,
    prefix: &[u8],
    task: &mut Task,
    walk: &mut Walk,
    scan: &mut Scan,
) -> Result<(), AllocError>
    requires { HasBehind prefix.now scan.old.stop }
    ensures goes { OnOk result (GoesBehind prefix.now scan.old.stop (scan_of task.old scan.old) (scan_of task.new scan.new) walk.old walk.new) }
    ensures stored { OnOk result (IsStoredBehind prefix.now scan.old.stop (scan_of task.new scan.new)) }
    ensures task { task.new ≡ record task.old { key = task.new.key } }
    ensures same { Continues walk.old walk.new }
    ensures stands_on_err { OnErr result (walk.new ≡ walk.old) }
    ensures task_on_err { OnErr result (task.new ≡ task.old) }
{
    let next = next_fence(alloc, prefix, &task.key, scan.stop)?;
    go_to(next, task, walk, scan);
    Ok(())
}

// Goes on at this fence.
fn go_to(next: NextFence, task: &mut Task, walk: &mut Walk, scan: &mut Scan)
    ensures scan { scan_of task.new scan.new ≡ at_next next (scan_of task.old scan.old) }
    ensures walk { walk.new ≡ walk_to (phase_at next) walk.old }
    ensures task { task.new ≡ record task.old { key = task.new.key } }
    ensures stored { IsStoredKey task.new.key }
{
    walk.phase = match next {
        NextFence::Over => Phase::Done,
        NextFence::Here => Phase::Hop,
        NextFence::At(fence) => {
            task.key = fence;
            scan.after = false;
            Phase::Hop
        }
    };
    // For the proof: the key is a stored one.
    let _bytes = task.key.as_bytes();
}
