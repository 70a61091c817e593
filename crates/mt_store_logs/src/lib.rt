//! What a running store does with the logs of its workers.
//!
//! A `StoreLog` is the log of a worker over its three files, with the batch that waits for its last log. `flush` drains a
//! worker into its last log. `StoreLog::reopen` opens that again if its disk failed, and `bring_up` does both. `flush_and_begin`
//! begins the next log too, and `StoreLog::give_up_older` gives the older one up. `open_logs` opens all files, and
//! `recover_store` brings a store up again from its logs and its slots. `crash_logs` lets logs in memory crash.
//!
//! `specs/Waits.antt` says what each does to the batch that waits, and `specs/Turns.antt` what becomes of the three files.
//! `specs/Shows.antt` says what a crash may leave of a last log, and `specs/Ends.antt` of all three files.
//!
//! Units: steps, as records are stamped with them.
#![tactic(auto)]

mod by_kind;
mod crashing;
mod failed_file;
mod fault;
mod flushing;
mod last_log;
pub mod laws;
mod next_log;
mod opening;
mod recovering;
mod second_reading;
mod source;
mod standing;
mod store_log;
mod taking;
mod turning;

pub use crashing::{FileImages, crash_logs};
pub use failed_file::FailedFile;
pub use fault::{LogRefusal, StoreRefusal};
pub use flushing::{Flushed, bring_up, flush};
pub use last_log::{LastLog, WaitingBatch};
pub use mt_chain_files::{Chains, NoWatch, Watch};
pub use opening::{closed_logs, create_logs, open_logs};
pub use recovering::{RecoveredStore, recover_store};
pub use source::Source;
pub use standing::Generations;
pub use store_log::StoreLog;
pub use turning::flush_and_begin;
