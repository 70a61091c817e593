//! The law of one order over histories: what the threads of a server did to one state behind its lock,
//! period by period, has one order.
#![tactic(auto)]

pub mod laws;
