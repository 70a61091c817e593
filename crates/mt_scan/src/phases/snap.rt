//! Snap: reads the border node from the reached fence on.

ghost use Rattle.std.specs.Prelude.{◌≡◌, ℕ, Some, None, IfOk, OnErr};
ghost use Rattle.mt_arena.specs.Accesses.{at};
ghost use Rattle.mt_operation.specs.Operations.{scan_of};
ghost use Rattle.mt_descent.specs.{KeptWalks.IsAtBorder, WalkMoves.Continues};
ghost use Rattle.mt_scan.specs.{Snaps.{next_at, AreSettled, SnapsOr}, Hops.IsAtCheck};

use crate::fence::fence_of;
use crate::looks::{has_unstable, see, stop_at};
use mt_arena::Arena;
use mt_border::Border;
use mt_operation::{Phase, Scan, Stop, Task, Walk};
use std::alloc::AllocError;

/// Reads the pairs of the border node from the fence on, up to the first link, and notes how that stretch
/// of keys ends. An unstable slot among them is in its way, whatever its tenant: nothing has changed then.
/// An error comes if memory is refused for what it reads; the walk is as it was then.
pub fn snap(
    arena: &Arena,
    task: &Task,
    walk: &mut Walk,
    scan: &mut Scan,
) -> Result<Option<usize>, AllocError>
    requires kept { IsAtBorder arena.now task.now.key walk.old }
    ensures snaps { IfOk result (SnapsOr arena.now walk.old walk.new (scan_of task.now scan.old) (scan_of task.now scan.new)) }
    ensures blocked { IfOk result (λ held. (holder : ℕ) → held ≡ Some holder → scan.new ≡ scan.old) }
    ensures kept { IfOk result (λ held. held ≡ None → IsAtCheck arena.now task.now.key walk.new scan.new.stop) }
    ensures same { Continues walk.old walk.new }
    ensures stands_on_err { OnErr result (walk.new ≡ walk.old) }
    ensures settled_on_err { OnErr result (AreSettled (at arena.now walk.old.place.node) (scan_of task.now scan.old) walk.old.layer) }
{
    arena.facts();
    let border = arena.border(walk.place.node);
    let fence = fence_of(&task.key, walk.layer, scan.after);
    if has_unstable(border, fence) {
        return Ok(arena.node(walk.place.node).holder());
    }
    let prefix = arena.tree(walk.place.tree).prefix.as_bytes();
    let tenant = task.key.tenant();
    scan.seen.clear();
    let link = see(border, prefix, tenant, fence, &mut scan.seen)?;
    scan.stop = stop_at(link, walk.layer, tenant, border.high());
    walk.next = next_of(border, scan.stop);
    walk.phase = Phase::Check;
    Ok(None)
}

// The node behind this one, where the stretch ends with the node.
fn next_of(border: &Border, stop: Stop) -> Option<usize>
    ensures { result ≡ next_at border.now.next stop }
{
    match stop {
        Stop::Next(_) => border.next(),
        Stop::Link(_, _) | Stop::Tree | Stop::Tenant => None,
    }
}
