//! Digests of files behind a gate, each in a digest file of its own: how many bytes follow the gate, and their SHA-256.
//!
//! `specs/Digests.antt` says what a digest file has, of any bytes, and when it agrees with its file.
#![tactic(auto)]

mod compare;
mod digest_file;
mod fault;
mod file_digest;
pub mod laws;

pub use compare::{agrees, digest_of};
pub use digest_file::{clear_digest, read_digest, write_digest};
pub use fault::DigestFault;
pub use file_digest::{FileDigest, digest_behind};
