//! Tests of `mt_checkpoint`: bytes worked out by hand, each of their beginnings and each byte changed, walks that make no
//! checkpoint, a file of two windows, and what a crash or a failure at any call leaves. Also tests of `mt_slots`: which slot a
//! checkpoint is written in, and what both are read as; and of `mt_pages`: which pairs a walk shows.
#![tactic(auto)]

#[cfg(test)]
mod tests;
