//! The folder of a store: the names of its files, that one server alone has it open, and why a store
//! isn't served, in words.
//!
//! What a file holds is said in `mt_log` and `mt_checkpoint`. Here files are found, opened and made.
#![tactic(auto)]

pub mod digests;
pub mod fault;
pub mod file_report;
pub mod folder;
pub mod labels;
pub mod names;
pub mod os_folder;
pub mod read_file;
pub mod read_folder;
pub mod system;

pub use fault::{FolderFault, LogCounts, StoreFault};
pub use file_report::{Comparison, FileReport, Holding, report_on};
pub use folder::StoreFolder;
pub use labels::{Label, StrangeLog, Suspects};
pub use names::{FolderFile, StoreFile};
pub use os_folder::OsFolder;
pub use read_folder::ReadFolder;
pub use system::FolderSystem;
