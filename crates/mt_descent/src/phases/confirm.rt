//! Confirm: compares the border node's version.

ghost use Rattle.std.specs.Prelude.{◌≡◌, ◌<◌, Option, IfNone};
ghost use Rattle.mt_rows.specs.Stamps.{Stamped};
ghost use Rattle.mt_arena.specs.Accesses.{at};
ghost use Rattle.mt_descent.specs.{Pasts.Past, KeptWalks.{IsKept, IsAtBorder, IsAtConfirm}, WalkMoves.{AnswersAgain, Continues, after_confirm, Confirms}};

use crate::walks::{blocker, into, move_on};
use mt_arena::Arena;
use mt_operation::{Phase, Taken, Walk};
use mt_slices::StoredKey;

/// Compares the border node's version with the remembered one: where it stands, the operation is
/// done, or goes on in the tree of a link.
pub fn confirm(arena: &Arena, key: &StoredKey, walk: &mut Walk) -> Option<usize>
    requires kept { IsAtBorder arena.now key.now walk.old }
    ensures again { AnswersAgain (at arena.now walk.old.place.node) walk.old walk.new result }
    ensures is { IfNone result (Confirms (at arena.now walk.old.place.node) walk.old walk.new) }
    ensures same { Continues walk.old walk.new }
    ensures kept { (past : Past) (row : Option Stamped) → IsAtConfirm arena.now past key.now row walk.old →
        IfNone result (IsKept arena.now past key.now row walk.new) }
{
    arena.facts();
    let node = arena.node(walk.place.node);
    if let Some(holder) = blocker(node) {
        return Some(holder);
    }
    if node.version().same_but_lock(walk.place.seen) {
        finish(walk);
    } else {
        move_on(walk, node);
    }
    None
}

// The version stands: on with what was taken.
fn finish(walk: &mut Walk)
    requires { walk.old.layer < 32 }
    ensures { walk.new ≡ after_confirm walk.old.taken walk.old }
{
    match walk.taken {
        Taken::Link(tree) => into(walk, tree, walk.layer + 1),
        _ => walk.phase = Phase::Done,
    }
}
