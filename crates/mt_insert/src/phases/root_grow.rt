//! RootGrow: makes a root over the halves of the old one.

ghost use Rattle.std.specs.Prelude.{◌≡◌, OnOk, OnErr};
ghost use Rattle.mt_arena.specs.Given.{AreForgotten, MayRenew};
ghost use Rattle.mt_insert.specs.{KeptSplits.IsAtRootGrow, Climbs.IsRootGrow};

use crate::halves::last;
use mt_arena::Arena;
use mt_operation::{Halves, Phase, Splits, Walk};
use std::alloc::AllocError;

/// Makes an interior root over the halves of the old one, and holds it. The root comes into the place of an
/// interior node that was taken out, if the step `least` or an earlier one did it. An error leaves all as
/// it was.
pub fn root_grow(
    arena: &mut Arena,
    walk: &mut Walk,
    splits: &mut Splits,
    least: u64,
    operation: usize,
) -> Result<(), AllocError>
    requires kept { IsAtRootGrow arena.old operation splits.old }
    requires forgotten { AreForgotten least arena.old }
    requires renews { MayRenew least arena.old }
    ensures grows { OnOk result (IsRootGrow least operation arena.old arena.new walk.old walk.new splits.old splits.new) }
    ensures unchanged_on_err { OnErr result ((arena.new ≡ arena.old) × (walk.new ≡ walk.old) × (splits.new ≡ splits.old)) }
{
    arena.facts();
    let Halves { left, right } = last(splits);
    splits.above = Some(arena.grow_root(left, right, least, operation)?);
    walk.phase = Phase::Unlock;
    Ok(())
}
