//! What the steps of a scan make of what it has walked of its tenant's map.
//!
//! A scan goes on by stretches: Snap sees one, Check keeps it. The laws here say what a scan has done
//! behind each such step, from what the step's call ensures, and that it is lawful in the end.
#![tactic(auto)]

pub mod laws;
