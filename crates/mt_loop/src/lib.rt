//! Many connections, one thread: what a connection keeps, and what it does when it has its turn.
//!
//! `specs/Connections.antt` says what a connection has read and told so far. A turn keeps to it, whatever
//! its stream does, and its last turn leaves a session as `serve` makes it.
#![tactic(auto)]

pub mod connection;
pub mod event_loop;
pub mod inbox;
pub mod laws;
pub mod sharing;
pub mod table;
pub mod unsent;

pub use connection::{Connection, Next, PIECE_BYTES, TURN_CALLS};
pub use event_loop::{EventLoop, Limits, LoopFault, Pause, Socket};
pub use inbox::Door;
pub use sharing::{Shared, Sharing};
pub use table::{Counts, Halves, Room, Stream, Table, UNSENT_SECONDS};
pub use unsent::Unsent;
