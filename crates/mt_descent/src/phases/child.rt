//! Child: reads the child's version.

ghost use Rattle.std.specs.Prelude.{◌≡◌, IfNone};
ghost use Rattle.mt_arena.specs.Accesses.{at};
ghost use Rattle.mt_descent.specs.{KeptWalks.{IsAtChild, IsAtVerify}, WalkMoves.{AnswersAgain, Continues, after_child}};

use crate::walks::blocker;
use mt_arena::Arena;
use mt_operation::{Phase, Walk};
use mt_slices::StoredKey;

/// Reads the child's version, and remembers it.
pub fn child(arena: &Arena, key: &StoredKey, walk: &mut Walk) -> Option<usize>
    requires kept { IsAtChild arena.now key.now walk.old }
    ensures again { AnswersAgain (at arena.now walk.old.child) walk.old walk.new result }
    ensures is { IfNone result (walk.new ≡ after_child walk.old (at arena.now walk.old.child).version) }
    ensures same { Continues walk.old walk.new }
    ensures kept { IfNone result (IsAtVerify arena.now key.now walk.new) }
{
    arena.facts();
    let child = arena.node(walk.child);
    if let Some(holder) = blocker(child) {
        return Some(holder);
    }
    walk.child_seen = child.version();
    walk.phase = Phase::Verify;
    None
}
