//! Tests of `mt_core`: a put and gets call by call, runs of events with what each is told, places that are used again, and
//! `State::restore`: what it restores is there, at the number that was asked for, and counting goes on.
#![tactic(auto)]

#[cfg(test)]
mod tests;
