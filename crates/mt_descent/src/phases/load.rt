//! Load: reads the slot that was found, live or dropped since.

ghost use Rattle.std.specs.{Prelude.{◌≡◌, ◌<◌, ◌≤◌, IfOk, IfErr, length}, Option.option_map};
ghost use Rattle.mt_arena.specs.Accesses.{at};
ghost use Rattle.mt_descent.specs.{Pasts.Past, KeptWalks.{IsKept, IsAtLoad}, WalkMoves.{IsBlockedAt, IsShownAt, Continues, after_load, Loads}};
ghost use Rattle.mt_border.specs.{declared.border.TheConstants.SLOTS, Slots.held_in, HeldParts.pair_in_parts, Contents.row_of};
ghost use Rattle.mt_arena.specs.NodeFacts.{IsUnstable};

use mt_arena::Arena;
use mt_border::{HeldRef, PairParts};
use mt_operation::{Phase, Taken, Walk};
use mt_slices::StoredKey;

/// Reads what the slot holds that was found, whether it is live or was dropped since: the key's pair, or
/// nothing where there is a link. A live slot that is unstable is an error, with the number of the
/// operation that is making it a link.
pub fn load<'a>(
    arena: &'a Arena,
    key: &StoredKey,
    walk: &mut Walk,
) -> Result<Option<&'a PairParts>, usize>
    requires kept { (past : Past) × IsAtLoad arena.now past key.now walk.old }
    ensures again { IfErr result (λ holder. (walk.new ≡ walk.old) × IsBlockedAt (at arena.now walk.old.place.node) walk.old.slot holder) }
    ensures is { IfOk result (λ taken. Loads (at arena.now walk.old.place.node) walk.old walk.new (option_map (λ pair. row_of (pair_in_parts pair.now)) taken)) }
    ensures same { Continues walk.old walk.new }
    ensures kept { (past : Past) → IsAtLoad arena.now past key.now walk.old →
        IfOk result (λ taken. IsKept arena.now past key.now (option_map (λ pair. row_of (pair_in_parts pair.now)) taken) walk.new) }
{
    arena.facts();
    taken_at(arena, walk)
}

// What the slot holds.
fn taken_at<'a>(arena: &'a Arena, walk: &mut Walk) -> Result<Option<&'a PairParts>, usize>
    requires there { walk.old.place.node < length arena.now.nodes }
    requires border { (at arena.now walk.old.place.node).level ≡ 0 }
    requires within { walk.old.slot < SLOTS }
    ensures again { IfErr result (λ holder. (walk.new ≡ walk.old) × IsBlockedAt (at arena.now walk.old.place.node) walk.old.slot holder) }
    ensures is { IfOk result (λ taken. Loads (at arena.now walk.old.place.node) walk.old walk.new (option_map (λ pair. row_of (pair_in_parts pair.now)) taken)) }
{
    arena.facts();
    let border = arena.border(walk.place.node);
    match border.stands_in(walk.slot).seen() {
        HeldRef::Stable(pair) => {
            take(walk, Taken::Row, walk.first.max(pair.stamp));
            Ok(Some(pair))
        }
        HeldRef::Link(tree) => {
            take(walk, Taken::Link(tree), walk.right_at);
            Ok(None)
        }
        HeldRef::Unstable(_) => wait_at(arena, walk),
    }
}

// The slot is unstable: where it is live, the load is to be made again.
fn wait_at<'a>(arena: &'a Arena, walk: &mut Walk) -> Result<Option<&'a PairParts>, usize>
    requires there { walk.old.place.node < length arena.now.nodes }
    requires border { (at arena.now walk.old.place.node).level ≡ 0 }
    requires unstable { IsUnstable (held_in (at arena.now walk.old.place.node).cells.helds walk.old.slot) }
    requires shown { IsShownAt (at arena.now walk.old.place.node) walk.old.slot }
    ensures again { IfErr result (λ holder. (walk.new ≡ walk.old) × IsBlockedAt (at arena.now walk.old.place.node) walk.old.slot holder) }
    ensures is { IfOk result (λ taken. Loads (at arena.now walk.old.place.node) walk.old walk.new (option_map (λ pair. row_of (pair_in_parts pair.now)) taken)) }
{
    arena.facts();
    match arena.border(walk.place.node).load(walk.slot) {
        Some(_) => match arena.node(walk.place.node).holder() {
            Some(holder) => Err(holder),
            None => unreachable!(),
        },
        None => {
            take(walk, Taken::Nothing, walk.right_at);
            Ok(None)
        }
    }
}

// Notes what a load took, and the step after which it is right.
fn take(walk: &mut Walk, taken: Taken, at: u64)
    ensures { walk.new ≡ after_load walk.old taken at }
{
    walk.taken = taken;
    walk.right_at = at;
    walk.phase = Phase::Confirm;
}
