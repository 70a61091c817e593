//! Tests of the server's parts: its words, the stores in its folders, and whole servers with clients in threads of
//! the same process.
#![tactic(auto)]

#[cfg(test)]
mod tests;
