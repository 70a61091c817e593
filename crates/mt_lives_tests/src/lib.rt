//! Tests of `mt_lives`: runs with two workers, turns and crashes, stopped at every call of a disk, with each call of a
//! disk failing once, with two failing, and with a growth refused.
#![tactic(auto)]

#[cfg(test)]
mod tests;
