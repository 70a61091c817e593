//! The calls. Each is over the arena, or the tape, and what the operation remembers, its `Walk`.

ghost use Rattle.std.specs.Prelude.{◌≡◌, ◌<◌, ℕ};
ghost use Rattle.mt_version.specs.Changes.{CanUnlock};
ghost use Rattle.mt_border.specs.{Held.Link, Node.{IsLive, entry_at}};
ghost use Rattle.mt_tape.specs.Tapes.{last_write};
ghost use Rattle.mt_arena.specs.Accesses.{at};
ghost use Rattle.mt_descent.specs.{KeptWalks.IsAtBorder, WalkMoves.FindsIn};
ghost use Rattle.mt_held.specs.{Holds.IsAtUnlock, Taping.pushed, Unlock.{IsUnlock, GoesInto}};

use mt_arena::Arena;
use mt_border::laws::suffix_fits_mark;
use mt_border::{Border, Find, Held, HeldRef};
use mt_operation::{Phase, Walk};
use mt_slices::StoredKey;
use mt_tape::{Entry, Tape};

/// What the walk's border node has of the key.
pub fn find_here(arena: &Arena, key: &StoredKey, walk: &Walk) -> Find
    requires kept { IsAtBorder arena.now key.now walk.now }
    ensures { FindsIn (at arena.now walk.now.place.node) key.now walk.now.layer result }
{
    suffix_fits_mark();
    let border = arena.border(walk.place.node);
    border.find(
        key.slice(walk.layer),
        key.mark(walk.layer),
        key.suffix(walk.layer),
    )
}

/// The tree to which a slot leads, which is a link.
pub fn tree_at(border: &Border, slot: usize) -> usize
    requires live { IsLive border.now slot }
    requires link { (tree : ℕ) × ((entry_at border.now slot).held ≡ Link tree) }
    ensures { (entry_at border.now slot).held ≡ Link result }
{
    match border.load(slot).map(Held::seen) {
        Some(HeldRef::Link(tree)) => tree,
        _ => unreachable!(),
    }
}

/// Puts a write that the step of this number placed on the tape.
pub fn push_write(tape: &mut Tape, mut write: Entry, step: u64)
    requires reserved { 0 < tape.old.reserved }
    requires later { last_write tape.old < step }
    ensures { tape.new ≡ pushed tape.old (record write { step = step }) }
{
    write.step = step;
    tape.push(write);
}

/// Gives the lock of the border node back: the walk is done.
pub fn unlock(arena: &mut Arena, walk: &mut Walk, operation: usize)
    requires kept { IsAtUnlock arena.old operation walk.old }
    requires room { CanUnlock (at arena.old walk.old.place.node).version }
    ensures { IsUnlock operation arena.old arena.new walk.old walk.new }
{
    arena.unlock(walk.place.node, operation);
    walk.phase = Phase::Done;
}

/// Gives the lock of the border node back, and goes on in this tree of the next layer.
pub fn go_below(arena: &mut Arena, walk: &mut Walk, tree: usize, operation: usize)
    requires kept { IsAtUnlock arena.old operation walk.old }
    requires room { CanUnlock (at arena.old walk.old.place.node).version }
    requires layer { walk.old.layer < 32 }
    ensures { GoesInto operation tree arena.old arena.new walk.old walk.new }
{
    arena.unlock(walk.place.node, operation);
    walk.place.tree = tree;
    walk.layer += 1;
    walk.phase = Phase::Enter;
}
