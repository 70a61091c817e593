//! Keys, rows and changed columns as fields of a format: those of a reply, and of a log's record.
//!
//! `specs/Format.antt` spells a row and changed columns, and `specs/Reading.antt` says what reading from left to right gives.
#![tactic(auto)]

mod changes;
mod rows;

pub use changes::{change_len, change_of, put_change};
pub use rows::{key_of, put_key, put_row, row_len, row_of};
