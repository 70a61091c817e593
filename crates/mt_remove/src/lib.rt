//! An operation that removes a key: how it takes the pair out, and behind it an empty border node, and a layer
//! whose last pair it was.
//!
//! Each phase is one call over the arena and what the operation remembers, its `Walk` and its `Removal`, in a
//! file named as the phase. `judge` looks for the key under the lock, and `drop_key` takes its pair out.
//! `lock_prev`, `lock_above`, `unlink`, `fix_next` and `collapse` take an empty border node out of its tree.
//! `unlock` gives all locks back; where a layer was left empty, the operation goes back to the link of it by
//! `lock` and `follow`, and `clean_layer` takes that link out, with its tree. What is kept of a removal by its
//! next phase stands in `specs/KeptRemovals.antt`.
//!
//! Errors: `judge` alone takes memory; where there is none, it gives its lock back and says so. No other phase
//! fails. Units: nodes, slots, trees and steps by their numbers.
#![tactic(auto)]

mod emptied;
pub mod laws;
mod neighbours;
pub mod phases;

pub use phases::clean_layer::clean_layer;
pub use phases::collapse::collapse;
pub use phases::drop_key::drop_key;
pub use phases::fix_next::fix_next;
pub use phases::follow::follow;
pub use phases::judge::{Looked, judge};
pub use phases::lock::lock;
pub use phases::lock_above::lock_above;
pub use phases::lock_prev::lock_prev;
pub use phases::unlink::unlink;
pub use phases::unlock::unlock;
