//! The nodes of the last split.

ghost use Rattle.std.specs.Prelude.{◌≡◌, ◌<◌, length, Some, None, ◌≢◌};
ghost use Rattle.mt_insert.specs.KeptSplits.{last_of};

use mt_operation::{Halves, Splits};

// The last split.
pub(crate) fn last(splits: &Splits) -> Halves
    requires { 0 < length splits.now.halves.items }
    ensures { result ≡ last_of splits.now }
{
    splits.halves[splits.halves.len() - 1]
}

// The node above the last split.
pub(crate) fn above(splits: &Splits) -> usize
    requires { splits.now.above ≢ None }
    ensures { splits.now.above ≡ Some result }
{
    match splits.above {
        Some(node) => node,
        None => unreachable!(),
    }
}
