//! Tests of the lower crates: examples with known answers, and each public call once.
//!
//! `PairList::fits` and `Records` are left to `mt_session_tests` and `mt_log_tests`. The calls of nodes, of `mt_arena` and of the
//! phases over it are left to the scripts of `mt_script_tests`, which make them on every run.
#![tactic(auto)]

#[cfg(test)]
mod tests;
