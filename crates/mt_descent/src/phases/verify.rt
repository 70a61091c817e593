//! Verify: compares the interior node's version.

ghost use Rattle.std.specs.Prelude.{Option, IfNone};
ghost use Rattle.mt_rows.specs.Stamps.{Stamped};
ghost use Rattle.mt_arena.specs.Accesses.{at};
ghost use Rattle.mt_descent.specs.{Pasts.Past, KeptWalks.{IsKept, IsAtVerify}, WalkMoves.{AnswersAgain, Continues, Verifies}};

use crate::walks::{blocker, is_outdated, onto};
use mt_arena::Arena;
use mt_operation::{Phase, Walk};
use mt_slices::StoredKey;

/// Compares the interior node's version with the remembered one: where it stands, the walk goes on
/// at the child; where the node was deleted or split, it begins anew.
pub fn verify(arena: &Arena, key: &StoredKey, walk: &mut Walk) -> Option<usize>
    requires kept { IsAtVerify arena.now key.now walk.old }
    ensures again { AnswersAgain (at arena.now walk.old.place.node) walk.old walk.new result }
    ensures is { IfNone result (Verifies (at arena.now walk.old.place.node) walk.old walk.new) }
    ensures same { Continues walk.old walk.new }
    ensures kept { (past : Past) (row : Option Stamped) → IfNone result (IsKept arena.now past key.now row walk.new) }
{
    arena.facts();
    let node = arena.node(walk.place.node);
    if let Some(holder) = blocker(node) {
        return Some(holder);
    }
    let now = node.version();
    if now.same_but_lock(walk.place.seen) {
        onto(walk, walk.child, walk.child_seen);
        return None;
    }
    if is_outdated(node, walk.place.seen) {
        walk.phase = Phase::Enter;
        return None;
    }
    walk.place.seen = now;
    walk.phase = Phase::Pick;
    None
}
