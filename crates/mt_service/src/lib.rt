//! The server as a library: a listener's sessions, answered by a crew of workers over one book.
//!
//! `open_store` opens the store that the options name, and listens; `verify_store` only reads one. `run_server` makes its book, gives each worker a pass,
//! lets the crew serve, settles at the end, and tells the sum of the answers. A worker answers a stream's
//! session by `serve` of `mt_session`, with a caller that asks the book through its pass, and keeps the answers
//! in the store's logs. `specs/Asking.antt` says what such a caller may answer. Beside the crew a turner makes the
//! turns of all logs that are due, as `specs/Turning.antt` says.
#![tactic(auto)]

mod accepting;
mod accounts;
pub mod callers;
mod connections;
pub mod faults;
pub mod folder_digests;
pub mod laws;
pub mod loops;
mod progress;
pub mod running;
pub mod served_store;
pub mod turners;
pub mod turns;
pub mod verifying;
mod warnings;
pub mod workers;

pub use callers::DeskCaller;
pub use faults::ServerFault;
pub use folder_digests::FolderDigests;
pub use laws::a_settled_number_covers_each_answer_that_was_seen;
pub use loops::{LoopWorker, Looper, Workers};
pub use running::{Ending, Totals, run_server, totals_of};
pub use served_store::{OpenStore, open_store};
pub use turners::Turner;
pub use turns::{Turns, Woken};
pub use verifying::{StoreReport, verify_store};
pub use workers::SessionWorker;
