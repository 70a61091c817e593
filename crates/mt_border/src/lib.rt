//! Border nodes: the leaves of the index, which hold its keys.
//!
//! A key is seen here as its *slice*, eight bytes as one number, its *mark*, which tells how many
//! of them are the key's own or that the key goes on, and its *suffix*, the bytes behind. A node
//! holds up to fifteen of them in order, each with its row, or with a link to the tree that holds
//! all longer keys of the slice. Start with `border.rt`.
//!
//! Source: the border nodes of Mao, Kohler and Morris, "Cache Craftiness for Fast Multicore
//! Key-Value Storage" (EuroSys 2012). Fences, unstable pairs and the place of a cut are this
//! project's own.
#![tactic(auto)]

pub mod border;
pub mod contents;
pub mod entry;
mod iter;
pub mod keeping;
pub mod laws;
mod marks;
pub mod number;
mod places;
mod slots;
mod split;
pub mod suffix;

pub use border::{Border, SLOTS};
pub use entry::{Entry, EntryRef, Find, FoundKind, Held, HeldRef, Pair, PairParts};
pub use iter::Entries;
pub use number::NodeNumber;
pub use suffix::Suffix;
