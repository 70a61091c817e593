//! A file as the logs see it: what a read gives, and what a crash may leave.
//!
//! `specs/Disk.antt` says it in one place, `Disk` is it as a trait, and `MemDisk` keeps it. A `CachedDisk`
//! keeps it over any `SystemFile`, also after syncs that failed. Of a real file, an `OsFile`, nothing says
//! that it keeps the rules of a `SystemFile`: a theorem over a disk has that as its premise.
#![tactic(auto)]

pub mod cached;
pub mod calls;
pub mod disk;
pub mod edit;
pub mod file;
pub mod laws;
pub mod mem;
pub mod mem_file;
pub mod system;
pub mod system_error;

pub use cached::CachedDisk;
pub use calls::FileCalls;
pub use disk::{DeviceFailed, Disk};
pub use file::{FileDisk, OsFile};
pub use mem::MemDisk;
pub use mem_file::MemFile;
pub use system::{FileFault, SystemFile};
pub use system_error::SystemError;
