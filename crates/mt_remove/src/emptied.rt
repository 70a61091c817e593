//! What comes next once a slot was taken out of a border node.

ghost use Rattle.std.specs.Prelude.{◌≡◌, ◌<◌, length, false, true, [], Some};
ghost use Rattle.mt_arena.specs.Accesses.{at};
ghost use Rattle.mt_remove.specs.RemovalEdits.{IsToUnlink, GoesOnEmptied};

use mt_arena::Arena;
use mt_operation::{Phase, Removal, Walk};

/// Goes on once a slot was taken out of the border node: an empty one that is not the first child of the
/// parent that it names is taken out too.
pub(crate) fn go_on_emptied(arena: &Arena, walk: &mut Walk, removal: &mut Removal)
    requires there { walk.old.place.node < length arena.now.nodes }
    requires border { (at arena.now walk.old.place.node).level ≡ 0 }
    ensures { GoesOnEmptied arena.now walk.old walk.new removal.old removal.new }
{
    arena.facts();
    removal.emptied = arena.border(walk.place.node).is_empty();
    walk.phase = phase_emptied(arena, walk.place.node);
}

// What comes next for a border node that has one slot less.
fn phase_emptied(arena: &Arena, node: usize) -> Phase
    requires there { node < length arena.now.nodes }
    requires border { (at arena.now node).level ≡ 0 }
    ensures unlinks { IsToUnlink arena.now node → result ≡ Phase.LockPrev }
    ensures returns { ¬ IsToUnlink arena.now node → result ≡ Phase.Unlock }
{
    if is_to_unlink(arena, node) {
        Phase::LockPrev
    } else {
        Phase::Unlock
    }
}

// Whether the border node is empty, and begins behind the parent that it names.
fn is_to_unlink(arena: &Arena, node: usize) -> bool
    requires there { node < length arena.now.nodes }
    requires border { (at arena.now node).level ≡ 0 }
    ensures yes { result ≡ true → IsToUnlink arena.now node }
    ensures no { result ≡ false → ¬ IsToUnlink arena.now node }
{
    arena.facts();
    let Some(parent) = arena.node(node).parent() else {
        return false;
    };
    arena.border(node).is_empty() && arena.node(parent).low() < arena.node(node).low()
}

/// Whether the node is a border node without a key.
pub(crate) fn is_empty_border(arena: &Arena, node: usize) -> bool
    requires { node < length arena.now.nodes }
    ensures yes { result ≡ true → ((at arena.now node).level ≡ 0) × ((at arena.now node).slots ≡ []) }
    ensures no { result ≡ false → (at arena.now node).level ≡ 0 → (at arena.now node).slots ≡ [] → ⊥ }
{
    match arena.node(node).border() {
        Some(border) => border.is_empty(),
        None => false,
    }
}
