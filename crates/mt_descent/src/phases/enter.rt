//! Enter: reads the tree's record and its root's version.

ghost use Rattle.std.specs.Prelude.{◌≡◌, Option, IfNone};
ghost use Rattle.mt_rows.specs.Stamps.{Stamped};
ghost use Rattle.mt_arena.specs.{Forests.tree_at, Accesses.at};
ghost use Rattle.mt_descent.specs.{Pasts.Past, KeptWalks.{IsKept, IsAtEnter}, WalkMoves.{AnswersAgain, Continues, after_enter}};

use crate::walks::{blocker, into, onto};
use mt_arena::{Arena, Standing};
use mt_operation::Walk;
use mt_slices::StoredKey;

/// Reads the tree's record and its root's version, and remembers it. A dead tree leads to the top one.
pub fn enter(arena: &Arena, key: &StoredKey, walk: &mut Walk) -> Option<usize>
    requires kept { IsAtEnter arena.now key.now walk.old }
    ensures again { AnswersAgain (at arena.now (tree_at arena.now.trees walk.old.place.tree).root) walk.old walk.new result }
    ensures is { let tree = tree_at arena.now.trees walk.old.place.tree in
        IfNone result (walk.new ≡ after_enter tree.standing walk.old tree.root (at arena.now tree.root).version) }
    ensures same { Continues walk.old walk.new }
    ensures kept { (past : Past) (row : Option Stamped) → IfNone result (IsKept arena.now past key.now row walk.new) }
{
    arena.facts();
    let tree = arena.tree(walk.place.tree);
    let root = arena.node(tree.root);
    if let Some(holder) = blocker(root) {
        return Some(holder);
    }
    if tree.standing == Standing::Dead {
        into(walk, 0, 0);
    } else {
        onto(walk, tree.root, root.version());
    }
    None
}
