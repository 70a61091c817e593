//! Signed numbers of 64 bits, as columns have them.

ghost use Rattle.std.specs.Prelude.{◌≡◌, ◌++◌, length, take, OnOk};
ghost use Rattle.mt_resp.specs.Numbers.{signed_of, spelling, difference, ranged, sum_of};

use crate::arguments::{Amount, number_in};
use itoa::Buffer;
use std::alloc::AllocError;

/// The signed number that a column is, 0 if the column is empty.
pub fn signed_in(column: &[u8]) -> Option<Amount>
    ensures { result ≡ signed_of column.now }
{
    match column {
        [] => Some(Amount::Up(0)),
        [45, digits @ ..] => match number_in(1 << 63, digits) {
            Some(0) | None => None,
            Some(size) => Some(Amount::Down(size)),
        },
        _ => Some(Amount::Up(number_in(i64::MAX as u64, column)?)),
    }
}

impl Amount {
    /// The sum with another number, if it has 64 bits.
    pub fn plus(self, other: Amount) -> Option<Amount>
        ensures { result ≡ sum_of self other }
    {
        match (self, other) {
            (Amount::Up(a), Amount::Up(b)) => Amount::Up(a.checked_add(b)?).ranged(),
            (Amount::Up(up), Amount::Down(down)) => difference(up, down).ranged(),
            (Amount::Down(down), Amount::Up(up)) => difference(up, down).ranged(),
            (Amount::Down(a), Amount::Down(b)) => Amount::Down(a.checked_add(b)?).ranged(),
        }
    }

    // The number, if it has 64 bits.
    fn ranged(self) -> Option<Amount>
        ensures { result ≡ ranged self }
    {
        match self {
            Amount::Up(size) if size >= 1 << 63 => None,
            Amount::Down(size) if size > 1 << 63 => None,
            number => Some(number),
        }
    }

    /// Writes it in decimal. What was written before stays, also if it fails.
    pub fn write(self, out: &mut Vec<u8>) -> Result<(), AllocError>
        ensures ok { OnOk result (out.new.items ≡ out.old.items ++ spelling self) }
        ensures front { take (length out.old.items) out.new.items ≡ out.old.items }
    {
        let mut buffer = Buffer::new();
        match self {
            Amount::Up(size) => out.extend_from_slice(buffer.format(size).as_bytes()),
            Amount::Down(size) => {
                out.push(b'-')?;
                out.extend_from_slice(buffer.format(size).as_bytes())
            }
        }
    }
}

// So far up, then so far down.
fn difference(up: u64, down: u64) -> Amount
    ensures { result ≡ difference up down }
{
    if up < down {
        Amount::Down(down - up)
    } else {
        Amount::Up(up - down)
    }
}
