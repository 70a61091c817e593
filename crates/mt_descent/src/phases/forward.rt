//! Forward: reads the next border node.

ghost use Rattle.std.specs.{Prelude.{◌≡◌, ℕ, Option, Some, None, IfNone, IsNone}, Option.ForSome};
ghost use Rattle.mt_rows.specs.Stamps.{Stamped};
ghost use Rattle.mt_arena.specs.Accesses.{at};
ghost use Rattle.mt_descent.specs.{Pasts.Past, KeptWalks.{slice_in, IsKept, IsAtForward}, WalkMoves.{AnswersAgain, Continues, walk_here, after_forward}};

use crate::walks::{arrival, blocker};
use mt_arena::{Arena, Node};
use mt_operation::{Phase, Walk};
use mt_slices::StoredKey;

/// Reads the next border node: goes there where the key's slice belongs there or behind it, else
/// stays here.
pub fn forward(arena: &Arena, key: &StoredKey, walk: &mut Walk) -> Option<usize>
    requires kept { IsAtForward arena.now key.now walk.old }
    ensures again { ForSome walk.old.next (λ j. AnswersAgain (at arena.now j) walk.old walk.new result) }
    ensures last { walk.old.next ≡ None → IsNone result × (walk.new ≡ walk_here walk.old) }
    ensures is { (j : ℕ) → walk.old.next ≡ Some j →
        IfNone result (walk.new ≡ after_forward walk.old (slice_in key.now walk.old) j (at arena.now j)) }
    ensures same { Continues walk.old walk.new }
    ensures kept { (past : Past) (row : Option Stamped) → IfNone result (IsKept arena.now past key.now row walk.new) }
{
    arena.facts();
    let Some(next) = walk.next else {
        walk.phase = arrival(walk.aim);
        return None;
    };
    let node = arena.node(next);
    if let Some(holder) = blocker(node) {
        return Some(holder);
    }
    let slice = key.slice(walk.layer);
    go_to(walk, slice, next, node);
    None
}

// Goes to the next node, stays here, or begins anew where that one was deleted.
fn go_to(walk: &mut Walk, slice: u64, next: usize, node: &Node)
    ensures { walk.new ≡ after_forward walk.old slice next node.now }
{
    if node.version().is_deleted() {
        walk.phase = Phase::Enter;
    } else if node.low() <= slice {
        walk.place.node = next;
        walk.place.seen = node.version();
        walk.next = node.next();
        walk.phase = Phase::Forward;
    } else {
        walk.phase = arrival(walk.aim);
    }
}
