//! Tests of `mt_wire`, `mt_session` and `mt_alone`: frames byte by byte, both ways, and whole sessions, from worked
//! bytes to worked bytes. The sessions are over plain maps, over a state, and over a book by the server's caller.
//!
//! `rows` has the worked sessions, `ways` the ways in which each is run. `pieces` has streams that
//! cut, fail, are interrupted and wait. A client of its fails if it is asked for more while a
//! reply is due. A real one would wait without end: so a test fails, and doesn't hang.
//!
//! What no clause says: that frames and sessions come to these bytes at all, that each reply is written before more
//! is asked, and how many writes a session takes.
#![tactic(auto)]

#[cfg(test)]
mod tests;
