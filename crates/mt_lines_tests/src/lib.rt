//! Tests of `mt_lines`: lines with their answers, and how the program ends.
//!
//! Whole scripts are files, in `mt_script_tests`.
#![tactic(auto)]

#[cfg(test)]
mod lines;
