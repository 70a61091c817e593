//! Search: looks for the key in a border node.

ghost use Rattle.std.specs.Prelude.{◌≡◌, ◌≤◌, Option};
ghost use Rattle.mt_border.specs.declared.entry.Find.{Find as AnyFind};
ghost use Rattle.mt_rows.specs.Stamps.{Stamped};
ghost use Rattle.mt_arena.specs.Accesses.{at};
ghost use Rattle.mt_descent.specs.{Pasts.{Past, IsNow, AreStamped}, KeptWalks.{IsKept, IsAtBorder}, WalkMoves.{Continues, after_search, FindsIn}};

use mt_arena::Arena;
use mt_border::laws::suffix_fits_mark;
use mt_border::{Find, FoundKind};
use mt_operation::{Phase, Taken, Walk};
use mt_slices::StoredKey;

/// Looks for the key in the border node, by the step of this number.
pub fn search(arena: &Arena, key: &StoredKey, walk: &mut Walk, step: u64)
    requires kept { IsAtBorder arena.now key.now walk.old }
    ensures is { (found : AnyFind) × FindsIn (at arena.now walk.old.place.node) key.now walk.old.layer found × (walk.new ≡ after_search found walk.old step) }
    ensures same { Continues walk.old walk.new }
    ensures kept { (past : Past) (row : Option Stamped) → AreStamped past arena.now → IsNow past step arena.now → walk.old.first ≤ step → IsKept arena.now past key.now row walk.new }
{
    arena.facts();
    suffix_fits_mark();
    let layer = walk.layer;
    let border = arena.border(walk.place.node);
    let found = border.find(key.slice(layer), key.mark(layer), key.suffix(layer));
    go_on(walk, found, step);
}

// What a search goes on with.
fn go_on(walk: &mut Walk, found: Find, step: u64)
    ensures { walk.new ≡ after_search found walk.old step }
{
    match found {
        Find::Missing | Find::Slot(_, FoundKind::OtherLong) => {
            walk.taken = Taken::Missing;
            walk.right_at = step;
            walk.phase = Phase::Confirm;
        }
        Find::Slot(slot, FoundKind::ThisKey | FoundKind::Link) => {
            walk.slot = slot;
            walk.right_at = step;
            walk.phase = Phase::Load;
        }
    }
}
