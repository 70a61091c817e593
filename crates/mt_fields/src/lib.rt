//! Fields of a format: numbers, most significant byte first, and strings, read from the front of
//! bytes and written behind others.
//!
//! `specs/Fields.antt` spells a string, and `specs/Reading.antt` says what reading from left to right
//! gives.
#![tactic(auto)]

mod fault;
mod fields;

pub use fault::DecodeFault;
pub use fields::{
    put_string, put_u32, put_u64, slice_of, string_of, text_of, u8_at, u16_at, u32_at, u64_at,
};
