//! What holds of all interior nodes, as a law for the crates above. No code runs.

ghost use Rattle.std.specs.Prelude.{◌≡◌, ℕ, ◌+◌, ◌≤◌, List, length};
ghost use Rattle.mt_interior.specs.Node.{IsInterior};

use crate::node::SEPARATORS;

/// A node has up to fifteen separators, and up to one child more.
pub fn a_node_has_up_to_fifteen_separators()
    ensures number { SEPARATORS ≡ 15 }
    ensures separators { (separators children : List ℕ) → IsInterior separators children →
        length separators ≤ SEPARATORS }
    ensures children { (separators children : List ℕ) → IsInterior separators children →
        length children ≤ SEPARATORS + 1 }
{}
