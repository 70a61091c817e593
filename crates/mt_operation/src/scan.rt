//! What a scan remembers between its steps.
//!
//! The key of its task is the fence that it has reached: all its tenant's keys below the fence are done
//! with. The pairs that it has collected are shown in the end; those that it has seen wait for Check.

ghost use Rattle.std.specs.Prelude.{◌≡◌, []};

use crate::seen::Seen;
use mt_rows::{Key, StampedRow};
use std::alloc::Global;

/// How the stretch of keys ends that a scan has read of a border node.
#[derive(Clone, Copy, PartialEq, Eq, Debug)]
pub enum Stop {
    /// At the link of this slice, to the tree of this number.
    Link(u64, usize),
    /// With the border node, at this slice, where the next node begins.
    Next(u64),
    /// With the tree.
    Tree,
    /// With the tenant's keys.
    Tenant,
}

/// What a scan remembers: whether it begins behind the key that is its fence, as it may until it has come
/// to a first one of its own; what it has collected, each row as it is shown; and what it has seen of its
/// border node, with the end of that stretch. Of any other operation all of it is empty.
#[derive(Drop)]
pub struct Scan {
    pub after: bool,
    pub collected: Vec<(Key, StampedRow)>,
    pub seen: Seen,
    pub stop: Stop,
}

impl Scan {
    /// One that has collected nothing.
    pub fn new(alloc: Global, after: bool) -> Self
        ensures after { result.after ≡ after }
        ensures collected { result.collected.items ≡ [] }
        ensures seen { result.seen ≡ [] }
        ensures stop { result.stop ≡ Stop.Tree }
    {
        Scan {
            after,
            collected: Vec::new(alloc),
            seen: Seen::new(alloc),
            stop: Stop::Tree,
        }
    }
}
