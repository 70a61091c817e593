//! Tests of `mt_loop`: connections in a table, over streams in memory that move a byte at a time, have nothing now,
//! are interrupted and fail, each at every place in turn; and three loops with hundreds of sockets.
//!
//! What no clause says: that sessions come to these bytes at all, that a turn stops at 64 requests and at a full
//! output, that a round gives each connection its turn, and that loops go on till all is told.
//!
//! And of `mt_resp_session`: what sessions of RESP are told, at each cut of their bytes.
#![tactic(auto)]

#[cfg(test)]
mod clients;
#[cfg(test)]
mod loops;
#[cfg(test)]
mod words;
