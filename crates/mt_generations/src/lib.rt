//! What is left of a store's logs if older generations of them are given up, and that a recovery from that loses nothing: words and laws.
#![tactic(auto)]

pub mod laws;
