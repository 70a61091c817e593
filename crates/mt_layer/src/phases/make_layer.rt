//! MakeLayer: makes the tree of the next layer.

ghost use Rattle.std.specs.Prelude.{◌≡◌, IfOk, OnOk, OnErr};
ghost use Rattle.mt_border.specs.{Held.{Pair as AnyPair}, Held.Stable};
ghost use Rattle.mt_arena.specs.{Layers.slot_at, Arena.content_of, Given.{StepsFrom, AreForgotten, MayRenew}, Accesses.at, Layering.{prefix_below, tree_number, with_layer_at}};
ghost use Rattle.mt_descent.specs.KeptWalks.{walk_place};
ghost use Rattle.mt_insert.specs.KeptPuts.{IsAtMakeLayer};
ghost use Rattle.mt_layer.specs.{NewLayers.entry_below, Builds.IsMakeLayer};
ghost use Rattle.mt_held.specs.Unlock.{IsUnlock};

use crate::below::{entry_below, prefix_below};
use mt_arena::Arena;
use mt_held::unlock;
use mt_operation::{Phase, Taken, Walk};
use mt_slices::StoredKey;
use std::alloc::{AllocError, Global};

/// Makes the tree of the next layer, with the other key's pair as its one entry. The tree comes into the
/// record of a dead one, and its root into the place of a border node that was taken out, each if the
/// step `least` or an earlier one did it. If there is no memory, the lock is given back in this step, and
/// the walk is done.
pub fn make_layer(
    alloc: Global,
    arena: &mut Arena,
    key: &StoredKey,
    walk: &mut Walk,
    least: u64,
    operation: usize,
) -> Result<(), AllocError>
    requires kept { IsAtMakeLayer arena.old operation key.now walk.old }
    requires forgotten { AreForgotten least arena.old }
    requires renews { MayRenew least arena.old }
    ensures makes { OnOk result (IsMakeLayer least operation key.now arena.old arena.new walk.old walk.new) }
    ensures unlocks { OnErr result (IsUnlock operation arena.old arena.new walk.old walk.new) }
{
    arena.facts();
    match grow_layer(alloc, arena, key, walk, least, operation) {
        Ok(tree) => {
            walk.taken = Taken::Link(tree);
            walk.phase = Phase::MarkUnstable;
            Ok(())
        }
        Err(error) => {
            unlock(arena, walk, operation);
            Err(error)
        }
    }
}

// Makes the tree, behind all growths of what stands in it.
fn grow_layer(
    alloc: Global,
    arena: &mut Arena,
    key: &StoredKey,
    walk: &Walk,
    least: u64,
    operation: usize,
) -> Result<usize, AllocError>
    requires kept { IsAtMakeLayer arena.old operation key.now walk.now }
    requires forgotten { AreForgotten least arena.old }
    requires renews { MayRenew least arena.old }
    ensures number { IfOk result (λ tree. tree ≡ tree_number least arena.old) }
    ensures is { (pair : AnyPair) → (slot_at (at arena.old walk.now.place.node) (walk_place arena.old walk.now)).held ≡ Stable pair →
        OnOk result (arena.new ≡ with_layer_at arena.old (prefix_below arena.old walk.now.place.node (walk_place arena.old walk.now)) (entry_below pair) least operation) }
    ensures unchanged_on_err { OnErr result (arena.new ≡ arena.old) }
    ensures step { OnOk result (StepsFrom least operation arena.old arena.new) }
    ensures contents { content_of arena.new ≡ content_of arena.old }
{
    arena.facts();
    let prefix = prefix_below(alloc, key, walk.layer)?;
    let entry = entry_below(alloc, arena.border(walk.place.node), walk.slot)?;
    arena.make_layer(prefix, entry, least, operation)
}
