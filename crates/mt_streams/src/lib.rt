//! Readers and writers as sessions and scripts see them: they may tell which bytes they gave and took,
//! and how often they failed.
#![tactic(auto)]

pub mod buffering;
pub mod streams;
pub mod writing;

pub use buffering::{BUFFER_BYTES, flush, write_buffered};
pub use streams::{Sink, Source};
pub use writing::write_whole;
