//! Tests of the logs, from a disk up to a running store: `mt_disk`, `mt_log_generations`, `mt_log`, `mt_recover` and
//! `mt_store_logs`.
//!
//! Of one log: which calls fail, what a crash may leave, bytes worked out by hand, and real files. Of the log of a generation: its
//! bytes, each of them changed, and the calls on a file of a system (`files`); its numbered file, from spare to spare, and a store
//! that is recovered from it (`chains`). Of the logs of a store that are recovered (`slots`): logs worked out by hand, each refusal,
//! and older logs. Of those of a running store (`stores`): changes on their way into a log, each call of a disk failing, alone and
//! with a later one, crashes, and which log is told if some are not opened. And of a store in a turn.
#![tactic(auto)]

#[cfg(test)]
mod tests;
