//! The steps of an operation that makes a layer, until it gives its lock back.

ghost use Rattle.mt_arena.specs.Given.{AreForgotten, MayRenew};
ghost use Rattle.mt_layer.specs.KeptLayers.{KeptLayer};
ghost use Rattle.mt_operation.specs.Phases.{IsLayerPhase};
ghost use Rattle.mt_core.specs.Layers.{TellsBuilt};

use mt_arena::Arena;
use mt_layer::{link, make_layer, mark_layer, mark_unstable};
use mt_operation::{Phase, Walk};
use mt_slices::StoredKey;
use std::alloc::{AllocError, Global};

/// Makes the step of the walk's phase. A tree that it makes comes into the place of one that was taken
/// out, and its root too, if the step `least` or an earlier one did it. An error comes if there is no
/// memory for the tree; then the lock is given back in this step, and the walk is done.
pub(crate) fn build_on(
    alloc: Global,
    arena: &mut Arena,
    key: &StoredKey,
    walk: &mut Walk,
    least: u64,
    operation: usize,
) -> Result<(), AllocError>
    requires phase { IsLayerPhase walk.old.phase }
    requires kept { KeptLayer walk.old.phase arena.old operation key.now walk.old }
    requires forgotten { AreForgotten least arena.old }
    requires renews { MayRenew least arena.old }
    ensures { TellsBuilt least operation arena.old arena.new key.now walk.old walk.new result }
{
    arena.facts();
    match walk.phase {
        Phase::MakeLayer => make_layer(alloc, arena, key, walk, least, operation),
        Phase::MarkUnstable => {
            mark_unstable(arena, walk, operation);
            Ok(())
        }
        Phase::Link => {
            link(arena, walk, operation);
            Ok(())
        }
        Phase::MarkLayer => {
            mark_layer(arena, walk, operation);
            Ok(())
        }
        _ => unreachable!(),
    }
}
