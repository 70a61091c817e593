//! InteriorSplit: splits the full parent as the right half comes in.

ghost use Rattle.std.specs.Prelude.{◌≡◌, OnOk, OnErr};
ghost use Rattle.mt_arena.specs.Given.{AreForgotten, MayRenew};
ghost use Rattle.mt_insert.specs.{KeptSplits.IsAtInteriorSplit, Climbs.{AreSame, IsInteriorSplit}};

use crate::halves::{above, last};
use mt_arena::Arena;
use mt_operation::{Halves, Phase, Splits, Walk};
use std::alloc::AllocError;

/// Splits the full parent as the right half comes in: marks it for readers of its range, and gives its
/// upper children to its own right half, which the operation holds. This half comes into the place of an
/// interior node that was taken out, if the step `least` or an earlier one did it. An error leaves all as
/// it was.
pub fn interior_split(
    arena: &mut Arena,
    walk: &mut Walk,
    splits: &mut Splits,
    least: u64,
    operation: usize,
) -> Result<(), AllocError>
    requires kept { IsAtInteriorSplit arena.old operation splits.old }
    requires forgotten { AreForgotten least arena.old }
    requires renews { MayRenew least arena.old }
    ensures splits { OnOk result (IsInteriorSplit least operation arena.old arena.new walk.old walk.new splits.old splits.new) }
    ensures unchanged_on_err { OnErr result ((arena.new ≡ arena.old) × (walk.new ≡ walk.old) × AreSame splits.old splits.new) }
{
    arena.facts();
    let Halves { left, right } = last(splits);
    let parent = above(splits);
    // For the proof: an interior node has no next one.
    let _ = arena.interior(parent);
    splits.halves.reserve(1)?;
    let half = arena.split_interior(parent, left, right, least, operation)?;
    splits.halves.push_reserved(Halves {
        left: parent,
        right: half,
    });
    splits.above = None;
    walk.phase = Phase::Reparent;
    Ok(())
}
