//! What a key has behind its slice.
//!
//! Up to thirty bytes stand in the suffix itself, so in the block of the pair that owns it. More of
//! them stand on the heap. Errors: `AllocError`, for those alone.

ghost use Rattle.std.specs.Prelude.{◌≡◌, ◌≤◌, [], length, IsOk, IfOk};

use std::alloc::{AllocError, Global};
use std::marker::Model;

/// The most bytes that stand in place.
const SHORT_BYTES: usize = 30;

/// The bytes of a key behind its slice; none, where the key ends in it.
#[derive(Debug, Drop)]
pub struct Suffix {
    bytes: SuffixBytes,
}

#[derive(Debug, Drop)]
enum SuffixBytes {
    Short(ShortBytes),
    Long(Vec<u8>),
}

impl Model for Suffix {
    ghost use Rattle.std.specs.Prelude.{List, ℕ};
    ghost use Rattle.mt_border.specs.Suffixes.{bytes_in};

    ghost Value = { List ℕ };

    ghost view = { λ s. bytes_in s.bytes };
}

impl Suffix {
    /// No bytes.
    pub fn empty() -> Self
        ensures { result ≡ [] }
    {
        Suffix {
            bytes: SuffixBytes::Short(ShortBytes::new(&[])),
        }
    }

    /// A suffix of these bytes. Thirty or fewer take no memory.
    pub fn from_slice(alloc: Global, bytes: &[u8]) -> Result<Self, AllocError>
        ensures value { IfOk result (λ suffix. suffix ≡ bytes.now) }
        ensures short { length bytes.now ≤ 30 → IsOk result }
    {
        let bytes = if bytes.len() <= SHORT_BYTES {
            SuffixBytes::Short(ShortBytes::new(bytes))
        } else {
            SuffixBytes::Long(Vec::from_slice(alloc, bytes)?)
        };
        Ok(Suffix { bytes })
    }

    pub fn as_bytes(&self) -> &[u8]
        ensures { result.now ≡ self.now }
    {
        match &self.bytes {
            SuffixBytes::Short(short) => short.as_bytes(),
            SuffixBytes::Long(bytes) => bytes,
        }
    }
}

/// Up to thirty bytes.
#[derive(Debug, Drop)]
struct ShortBytes {
    len: u8,
    bytes: [u8; SHORT_BYTES],
}

impl Model for ShortBytes {
    ghost use Rattle.std.specs.Prelude.{◌≤◌, List, ℕ, take};

    ghost Value = { List ℕ };

    ghost view = { λ s. take s.len s.bytes };

    ghost invariant = { λ s. s.len ≤ 30 };
}

impl ShortBytes {
    fn new(bytes: &[u8]) -> Self
        requires { length bytes.now ≤ SHORT_BYTES }
        ensures { result ≡ bytes.now }
    {
        let mut own = [0; SHORT_BYTES];
        own[..bytes.len()].copy_from_slice(bytes);
        ShortBytes {
            len: bytes.len() as u8,
            bytes: own,
        }
    }

    fn as_bytes(&self) -> &[u8]
        ensures { result.now ≡ self.now }
    {
        &self.bytes[..usize::from(self.len)]
    }
}
