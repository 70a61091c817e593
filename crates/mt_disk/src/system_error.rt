//! Why a call of a disk failed, as the system tells it.

use std::fmt::{self, Display, Formatter};

/// Why a call of a disk failed.
#[derive(Clone, Copy, Debug, PartialEq, Eq)]
pub enum SystemError {
    /// Memory was refused, and nothing was done.
    OutOfMemory,
    /// The system's number of the error.
    Number(i32),
}

impl Display for SystemError {
    fn fmt<W: fmt::Write>(&self, f: &mut Formatter<W>) -> fmt::Result {
        match *self {
            SystemError::OutOfMemory => f.write_str("out of memory"),
            SystemError::Number(number) => {
                let mut text = [0u8; 128];
                let len = os::error_text(number, &mut text);
                text.make_ascii_lowercase();
                match str::from_utf8(&text[..len]) {
                    Ok(text) => f.write_str(text),
                    Err(_) => write!(f, "error {number}"),
                }
            }
        }
    }
}
