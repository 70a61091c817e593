//! Unlock: gives all locks back.

ghost use Rattle.std.specs.Prelude.{◌≡◌, ℕ, Some, None};
ghost use Rattle.mt_version.specs.Changes.{CanUnlock};
ghost use Rattle.mt_arena.specs.{Arena.{content_of, Guarantee}, Accesses.at};
ghost use Rattle.mt_held.specs.Moves.{given_back};
ghost use Rattle.mt_insert.specs.{Unlock.{Returns, IsUnlockAll}, KeptSplits.{IsAmong, IsAtUnlockAll, MayReturnBoth}};

use mt_arena::Arena;
use mt_operation::{Halves, Phase, Splits, Walk};

/// Gives the locks of all nodes of the splits back: the walk is done.
pub fn unlock_all(arena: &mut Arena, walk: &mut Walk, splits: &mut Splits, operation: usize)
    requires kept { IsAtUnlockAll arena.old operation splits.old }
    requires room { (k : ℕ) → IsAmong splits.old k → CanUnlock (at arena.old k).version }
    ensures { IsUnlockAll operation arena.old arena.new walk.old walk.new splits.old splits.new }
{
    arena.facts();
    unlock_above(arena, splits, operation);
    unlock_halves(arena, splits, operation);
    splits.halves.clear();
    splits.moved = 0;
    walk.phase = Phase::Done;
}

// Gives the lock of the node above the halves back, where the operation holds one.
fn unlock_above(arena: &mut Arena, splits: &mut Splits, operation: usize)
    requires kept { IsAtUnlockAll arena.old operation splits.old }
    requires room { (k : ℕ) → splits.old.above ≡ Some k → CanUnlock (at arena.old k).version }
    ensures is { (k : ℕ) → splits.old.above ≡ Some k → arena.new ≡ given_back arena.old k }
    ensures none { splits.old.above ≡ None → arena.new ≡ arena.old }
    ensures splits { splits.new ≡ record splits.old { above = None } }
    ensures step { Guarantee operation arena.old arena.new }
    ensures contents { content_of arena.new ≡ content_of arena.old }
{
    if let Some(above) = splits.above.take() {
        arena.unlock(above, operation);
    }
}

// Gives the locks of the halves of all splits back.
fn unlock_halves(arena: &mut Arena, splits: &Splits, operation: usize)
    requires kept { IsAtUnlockAll arena.old operation splits.now }
    requires none { splits.now.above ≡ None }
    requires room { (k : ℕ) → IsAmong splits.now k → CanUnlock (at arena.old k).version }
    ensures is { Returns arena.old arena.new splits.now }
    ensures step { Guarantee operation arena.old arena.new }
    ensures contents { content_of arena.new ≡ content_of arena.old }
{
    arena.facts();
    for halves in splits.halves.as_slice() {
        unlock_both(arena, *halves, operation);
    }
}

// Gives the locks of a node and its right half back.
fn unlock_both(arena: &mut Arena, halves: Halves, operation: usize)
    requires kept { (level : ℕ) × MayReturnBoth arena.old operation level halves }
    requires left_room { CanUnlock (at arena.old halves.left).version }
    requires right_room { CanUnlock (at arena.old halves.right).version }
    ensures is { arena.new ≡ given_back (given_back arena.old halves.left) halves.right }
    ensures step { Guarantee operation arena.old arena.new }
    ensures contents { content_of arena.new ≡ content_of arena.old }
{
    arena.facts();
    arena.unlock(halves.left, operation);
    arena.unlock(halves.right, operation);
}
