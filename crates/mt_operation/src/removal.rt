//! What a removing operation holds beside its border node, and which layer it goes to clean.

ghost use Rattle.std.specs.Prelude.{◌≡◌};
ghost use Rattle.mt_operation.specs.Operations.{no_removal};

/// What a removal remembers from the step on that empties its border node. All of it is small and copied.
///
/// `emptied` says whether the operation itself has emptied the border node that it holds. `left`, `parent`
/// and `below` are the left neighbour, the parent and the root of the layer below, once they are held.
/// `cleans` is the tree whose link the operation goes to take out, once it has left that tree's root empty.
#[derive(Clone, Copy, Debug)]
pub struct Removal {
    pub emptied: bool,
    pub left: Option<usize>,
    pub parent: Option<usize>,
    pub below: Option<usize>,
    pub cleans: Option<usize>,
}

impl Removal {
    /// That of an operation that has removed nothing.
    pub fn new() -> Self
        ensures { result ≡ no_removal }
    {
        Removal {
            emptied: false,
            left: None,
            parent: None,
            below: None,
            cleans: None,
        }
    }
}
