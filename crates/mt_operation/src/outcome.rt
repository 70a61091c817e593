//! What an operation answers.

use mt_rows::Reply;

/// The reply to an operation, and the number of the step at which it is placed: the command has this
/// reply where it is made just then, between that step and the next.
#[derive(Drop)]
pub struct Outcome {
    pub reply: Reply,
    pub at: u64,
}
