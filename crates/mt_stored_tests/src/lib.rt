//! Tests of a running server's logs, each behind a lock of its own: several workers, of whom each has a log. Of the
//! checkpoints that they write, and of turns of all logs. Of when a worker gives the baton of its book back. And of a store of
//! 100,000 pairs, with two workers and their logs; of one whose files are of format 1; and of one that isn't made or recovered,
//! since a disk of one of its files fails.
//!
//! But for two the workers' sessions are played without sockets: by one thread in the order of a table, or by a thread each.
#![tactic(auto)]

#[cfg(test)]
mod tests;
