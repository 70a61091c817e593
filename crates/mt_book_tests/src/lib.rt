//! Tests of `mt_book`. Several threads and several workers call. They are told behind the lock what a book tells that is
//! owned alone. Other calls are over a desk that lies. A gate holds a call. The tape is looked at. A baton is
//! awaited and handed on. And a test of `mt_history`: a counter behind a lock, that two threads step and take answers of.
#![tactic(auto)]

#[cfg(test)]
mod tests;
