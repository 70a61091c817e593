//! What a splitting operation holds beside its border node.

ghost use Rattle.mt_operation.specs.Operations.{IsUnsplit};

use std::alloc::Global;

/// A node that is split, and its right half.
#[derive(Clone, Copy, Debug)]
pub struct Halves {
    pub left: usize,
    pub right: usize,
}

/// The nodes that an operation has split, the lowest first, each one level below the next; and the
/// node above the last ones, once it is held: their parent, or the root that was made over them. Of the
/// children that the last right half has got, the first `moved` name it as their parent.
#[derive(Drop)]
pub struct Splits {
    pub halves: Vec<Halves>,
    pub above: Option<usize>,
    pub moved: usize,
}

impl Splits {
    /// Those of an operation that has split nothing.
    pub fn new(alloc: Global) -> Self
        ensures { IsUnsplit result }
    {
        Splits {
            halves: Vec::new(alloc),
            above: None,
            moved: 0,
        }
    }
}
