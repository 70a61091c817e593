//! Unlock: gives all locks of a removal back, and goes on to a layer that it has left empty.

ghost use Rattle.std.specs.Prelude.{◌≡◌, ◌<◌, ℕ, length, true, false, Some, None};
ghost use Rattle.mt_version.specs.Changes.{CanUnlock};
ghost use Rattle.mt_rows.specs.Rows.{Bytes};
ghost use Rattle.mt_arena.specs.{Arena.{content_of, Guarantee}, Accesses.at};
ghost use Rattle.mt_held.specs.{Holds.MayReturn, Moves.given_back};
ghost use Rattle.mt_remove.specs.{KeptRemovals.{IsAmong, IsAtUnlockRemoval}, RemovalEdits.ReturnsRemoval, Unlock.{EmptiesLayer, IsUnlockRemoval}};

use crate::emptied::is_empty_border;
use mt_arena::Arena;
use mt_operation::{Phase, Removal, Walk};

/// Gives all locks of a removal back. Where it has left the root of its layer an empty border node, it goes
/// on at the top, for the link of that layer's tree; else the walk is done.
pub fn unlock(arena: &mut Arena, walk: &mut Walk, removal: &mut Removal, operation: usize)
    requires kept { (key : Bytes) × IsAtUnlockRemoval arena.old operation key walk.old removal.old }
    requires room { (k : ℕ) → IsAmong walk.old removal.old k → CanUnlock (at arena.old k).version }
    ensures { IsUnlockRemoval operation arena.old arena.new walk.old walk.new removal.old removal.new }
{
    arena.facts();
    let cleans = empties_layer(arena, walk, removal);
    give_back_all(arena, walk, removal, operation);
    *removal = Removal::new();
    if cleans {
        removal.cleans = Some(walk.place.tree);
        walk.place.tree = 0;
        walk.layer = 0;
        walk.phase = Phase::Enter;
    } else {
        walk.phase = Phase::Done;
    }
}

// Whether the removal has left the root of its layer an empty border node.
fn empties_layer(arena: &Arena, walk: &Walk, removal: &Removal) -> bool
    requires there { walk.now.place.tree < length arena.now.trees }
    ensures yes { result ≡ true → EmptiesLayer arena.now walk.now removal.now }
    ensures no { result ≡ false → ¬ EmptiesLayer arena.now walk.now removal.now }
{
    arena.facts();
    if !removal.emptied || walk.layer == 0 {
        return false;
    }
    let root = arena.tree(walk.place.tree).root;
    if root != walk.place.node && removal.left != Some(root) {
        return false;
    }
    is_empty_border(arena, root)
}

// Gives the locks of all nodes of a removal back.
fn give_back_all(arena: &mut Arena, walk: &Walk, removal: &Removal, operation: usize)
    requires kept { (key : Bytes) × IsAtUnlockRemoval arena.old operation key walk.now removal.now }
    requires room { (k : ℕ) → IsAmong walk.now removal.now k → CanUnlock (at arena.old k).version }
    ensures is { ReturnsRemoval arena.old arena.new walk.now removal.now }
    ensures step { Guarantee operation arena.old arena.new }
    ensures contents { content_of arena.new ≡ content_of arena.old }
{
    arena.facts();
    unlock_some(arena, removal.below, operation);
    unlock_some(arena, removal.parent, operation);
    unlock_some(arena, removal.left, operation);
    arena.unlock(walk.place.node, operation);
}

// Gives a lock back, where there is one.
fn unlock_some(arena: &mut Arena, node: Option<usize>, operation: usize)
    requires may { (k : ℕ) → node ≡ Some k → (level : ℕ) × MayReturn arena.old operation level k }
    requires room { (k : ℕ) → node ≡ Some k → CanUnlock (at arena.old k).version }
    ensures is { (k : ℕ) → node ≡ Some k → arena.new ≡ given_back arena.old k }
    ensures none { node ≡ None → arena.new ≡ arena.old }
    ensures step { Guarantee operation arena.old arena.new }
    ensures contents { content_of arena.new ≡ content_of arena.old }
{
    if let Some(node) = node {
        arena.unlock(node, operation);
    }
}
