//! The number of another node as a node keeps it: in 32 bits, or none.

ghost use Rattle.std.specs.Prelude.{◌≡◌, ◌<◌, Some, None};

use std::marker::Model;

// What stands there where there is none. No node has this number.
const NONE: u32 = 0xFFFF_FFFF;

/// The number of a node, or none.
#[derive(Debug, Drop)]
pub struct NodeNumber {
    number: u32,
}

impl Model for NodeNumber {
    ghost use Rattle.std.specs.Prelude.{ℕ, Option};
    ghost use Rattle.mt_border.specs.Numbers.{number_in};

    ghost Value = { Option ℕ };

    ghost view = { λ n. number_in n.number };
}

impl NodeNumber {
    pub fn none() -> Self
        ensures { result ≡ None }
    {
        NodeNumber { number: NONE }
    }

    /// Not every number of 64 bits can be kept.
    pub fn of(number: usize) -> Self
        requires { number < 4294967295 }
        ensures { result ≡ Some number }
    {
        NodeNumber {
            number: number as u32,
        }
    }

    pub fn get(&self) -> Option<usize>
        ensures { result ≡ self.now }
    {
        if self.number < NONE {
            Some(self.number as usize)
        } else {
            None
        }
    }

    /// The same number once more.
    pub fn copied(&self) -> Self
        ensures { result ≡ self.now }
    {
        NodeNumber {
            number: self.number,
        }
    }
}
