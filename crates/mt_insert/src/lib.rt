//! A put that holds its border node: how it looks, places its row, splits nodes that are full, and gives its
//! locks back.
//!
//! Each phase is one call over the arena, the tape and what the operation remembers, its `Walk`, in a file
//! named as the phase. `judge` looks for the key and makes all growths; `store`, or `fill` and
//! `publish`, place the row. Where the node is full, `split_start` makes the right half, `split_move` parts the keys and places
//! the pair, `split_prev` names the right half in the node behind; then, from level to level, `lock_parent`
//! and `insert_child`, or `interior_split` and `reparent` where the parent is full, or `root_grow` where
//! there is none. `unlock_all` gives the locks of a split back. What is kept of a put by its next phase stands in `specs/KeptPuts.antt` and
//! `specs/KeptSplits.antt`, what each step does in the file of its phase (`specs/Judge.antt` to
//! `specs/Unlock.antt`, and `specs/Climbs.antt` for the six that bring a right half to its place), and
//! what a put writes in `specs/Puts.antt`.
//!
//! A step changes at most nodes that the operation holds. Placing takes no memory, and neither it nor giving
//! a lock back can fail. Errors: `AllocError`, from `split_start`, which then gives its lock back, and from
//! `interior_split` and `root_grow`, which leave all as it was and may be called again. Units: steps by
//! their numbers.
#![tactic(auto)]

mod halves;
pub mod laws;
pub mod phases;
mod prepare;

pub use phases::fill::fill;
pub use phases::insert_child::insert_child;
pub use phases::interior_split::interior_split;
pub use phases::judge::{Judged, judge};
pub use phases::lock_parent::lock_parent;
pub use phases::publish::publish;
pub use phases::reparent::reparent;
pub use phases::root_grow::root_grow;
pub use phases::split_move::split_move;
pub use phases::split_prev::split_prev;
pub use phases::split_start::split_start;
pub use phases::store::store;
pub use phases::unlock::unlock_all;
