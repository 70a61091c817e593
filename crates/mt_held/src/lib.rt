//! What an operation does with the border node that it holds, in whichever of its phases.
//!
//! Puts and removals, and those that make a layer, look for their key there (`find_here`) and follow a link
//! (`tree_at`). The step that places a change puts its write on the tape (`push_write`). In the end the lock
//! is given back: the walk is done (`unlock`), or goes on in a tree of the next layer (`go_below`). What is
//! kept of the node meanwhile stands in `specs/Holds.antt`, and `laws` say that it stays under the steps of
//! all others.
//!
//! No call takes memory, and none can fail. A call changes at most the node that the operation holds. Units:
//! steps by their numbers.
#![tactic(auto)]

mod calls;
pub mod laws;

pub use calls::{find_here, go_below, push_write, tree_at, unlock};
