//! What a removal holds beside its border node, and what comes next by what its parent has left.

ghost use Rattle.std.specs.Prelude.{◌≡◌, ◌≢◌, ◌<◌, length, Some, None};
ghost use Rattle.mt_arena.specs.Accesses.{at};
ghost use Rattle.mt_remove.specs.RemovalEdits.{for_rest};

use mt_arena::Arena;
use mt_operation::{Phase, Removal};

/// The left neighbour.
pub(crate) fn left_of(removal: &Removal) -> usize
    requires { removal.now.left ≢ None }
    ensures { removal.now.left ≡ Some result }
{
    match removal.left {
        Some(left) => left,
        None => unreachable!(),
    }
}

/// The parent.
pub(crate) fn parent_of(removal: &Removal) -> usize
    requires { removal.now.parent ≢ None }
    ensures { removal.now.parent ≡ Some result }
{
    match removal.parent {
        Some(parent) => parent,
        None => unreachable!(),
    }
}

/// What comes next by what the parent has left.
pub(crate) fn phase_without(arena: &Arena, parent: usize) -> Phase
    requires there { parent < length arena.now.nodes }
    requires interior { 0 < (at arena.now parent).level }
    ensures { result ≡ for_rest (at arena.now parent) }
{
    let is_root = arena.node(parent).version().is_root();
    let count = arena.interior(parent).children().len();
    if is_root && count == 1 {
        Phase::Collapse
    } else {
        Phase::Unlock
    }
}
