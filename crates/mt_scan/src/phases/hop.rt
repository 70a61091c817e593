//! Hop: goes on behind the stretch of keys that was kept.

ghost use Rattle.std.specs.Prelude.{◌≡◌, Option, IfNone};
ghost use Rattle.mt_rows.specs.Stamps.{Stamped};
ghost use Rattle.mt_descent.specs.{Pasts.Past, KeptWalks.IsKept, WalkMoves.Continues};
ghost use Rattle.mt_scan.specs.Hops.{KeptHop, after_next, HopsTo, AnswersHop};

use mt_arena::{Arena, Node};
use mt_descent::{blocker, into, onto};
use mt_operation::{Stop, Walk};
use mt_slices::StoredKey;

/// Goes on behind the stretch that was kept: in the tree of its link, at the next node, or from the top
/// tree on, as it does where the next node was deleted. Nothing fails; a next node that is marked is in
/// its way, and the walk stays as it was.
pub fn hop(arena: &Arena, key: &StoredKey, walk: &mut Walk, stop: Stop) -> Option<usize>
    requires kept { KeptHop arena.now key.now walk.old stop }
    ensures again { AnswersHop arena.now stop walk.old walk.new result }
    ensures is { IfNone result (HopsTo arena.now stop walk.old walk.new) }
    ensures same { Continues walk.old walk.new }
    ensures kept { (past : Past) (row : Option Stamped) → IfNone result (IsKept arena.now past key.now row walk.new) }
{
    arena.facts();
    match stop {
        Stop::Link(_, tree) => {
            into(walk, tree, walk.layer + 1);
            None
        }
        Stop::Next(_) => {
            let next = walk.next.unwrap();
            let node = arena.node(next);
            if let Some(holder) = blocker(node) {
                return Some(holder);
            }
            come_to(walk, next, node);
            None
        }
        Stop::Tree | Stop::Tenant => {
            into(walk, 0, 0);
            None
        }
    }
}

// Comes to the next node, or begins at the top tree where that was deleted.
fn come_to(walk: &mut Walk, next: usize, node: &Node)
    ensures { walk.new ≡ after_next walk.old next node.now }
{
    if node.version().is_deleted() {
        into(walk, 0, 0);
    } else {
        onto(walk, next, node.version());
    }
}
