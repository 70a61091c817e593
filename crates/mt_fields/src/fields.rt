//! Fields, read from the front of some bytes and written behind others.
//!
//! A reader gives a value and the bytes behind it. A writer leaves what was written before, also
//! where it fails.

ghost use Rattle.std.specs.{Prelude.{◌≡◌, ◌<◌, ◌^◌, ◌++◌, length, take, OnOk}, Int.{w16, w32, w64, to_be_bytes}};
ghost use Rattle.mt_fields.specs.{Fields.string, Reading.{Gives, byte_at, number_at, taken_at, string_at}};

use crate::fault::DecodeFault;
use byteorder::{BigEndian, ByteOrder};
use std::alloc::{AllocError, Global};

/// A byte.
pub fn u8_at(bytes: &[u8]) -> Result<(u8, &[u8]), DecodeFault>
    ensures { Gives (λ x. (x.0, x.1.now)) result (byte_at bytes.now) }
{
    match bytes {
        [] => Err(DecodeFault::Bad),
        [byte, rest @ ..] => Ok((*byte, rest)),
    }
}

/// A number of two bytes.
#[tactic(auto, using(crate::proofs::Numbers::numbers))]
pub fn u16_at(bytes: &[u8]) -> Result<(u16, &[u8]), DecodeFault>
    ensures { Gives (λ x. (x.0, x.1.now)) result (number_at w16 bytes.now) }
{
    if bytes.len() < 2 {
        return Err(DecodeFault::Bad);
    }
    let (front, rest) = bytes.split_at(2);
    Ok((BigEndian::read_u16(front), rest))
}

/// A number of four bytes.
#[tactic(auto, using(crate::proofs::Numbers::numbers))]
pub fn u32_at(bytes: &[u8]) -> Result<(u32, &[u8]), DecodeFault>
    ensures { Gives (λ x. (x.0, x.1.now)) result (number_at w32 bytes.now) }
{
    if bytes.len() < 4 {
        return Err(DecodeFault::Bad);
    }
    let (front, rest) = bytes.split_at(4);
    Ok((BigEndian::read_u32(front), rest))
}

/// A number of eight bytes.
#[tactic(auto, using(crate::proofs::Numbers::numbers))]
pub fn u64_at(bytes: &[u8]) -> Result<(u64, &[u8]), DecodeFault>
    ensures { Gives (λ x. (x.0, x.1.now)) result (number_at w64 bytes.now) }
{
    if bytes.len() < 8 {
        return Err(DecodeFault::Bad);
    }
    let (front, rest) = bytes.split_at(8);
    Ok((BigEndian::read_u64(front), rest))
}

/// So many bytes.
pub fn slice_of(count: usize, bytes: &[u8]) -> Result<(&[u8], &[u8]), DecodeFault>
    ensures { Gives (λ x. (x.0.now, x.1.now)) result (taken_at count bytes.now) }
{
    if bytes.len() < count {
        return Err(DecodeFault::Bad);
    }
    Ok(bytes.split_at(count))
}

/// The bytes of a string, where they are.
#[tactic(auto, unfolding(crate::specs::Reading::string_at))]
pub fn text_of(bytes: &[u8]) -> Result<(&[u8], &[u8]), DecodeFault>
    ensures { Gives (λ x. (x.0.now, x.1.now)) result (string_at bytes.now) }
{
    let (count, rest) = u16_at(bytes)?;
    slice_of(usize::from(count), rest)
}

/// A string, copied.
pub fn string_of(alloc: Global, bytes: &[u8]) -> Result<(Vec<u8>, &[u8]), DecodeFault>
    ensures { Gives (λ x. (x.0.items, x.1.now)) result (string_at bytes.now) }
{
    let (text, rest) = text_of(bytes)?;
    Ok((Vec::from_slice(alloc, text)?, rest))
}

/// A number of four bytes. What was written before stays, also where it fails.
pub fn put_u32(out: &mut Vec<u8>, number: u32) -> Result<(), AllocError>
    ensures ok { OnOk result (out.new.items ≡ out.old.items ++ to_be_bytes w32 number) }
    ensures front { take (length out.old.items) out.new.items ≡ out.old.items }
{
    out.extend_from_slice(&number.to_be_bytes())
}

/// A number of eight bytes. What was written before stays, also where it fails.
pub fn put_u64(out: &mut Vec<u8>, number: u64) -> Result<(), AllocError>
    ensures ok { OnOk result (out.new.items ≡ out.old.items ++ to_be_bytes w64 number) }
    ensures front { take (length out.old.items) out.new.items ≡ out.old.items }
{
    out.extend_from_slice(&number.to_be_bytes())
}

/// A string. What was written before stays, also where it fails.
pub fn put_string(out: &mut Vec<u8>, text: &[u8]) -> Result<(), AllocError>
    requires { length text.now < 2 ^ 16 }
    ensures ok { OnOk result (out.new.items ≡ out.old.items ++ string text.now) }
    ensures front { take (length out.old.items) out.new.items ≡ out.old.items }
{
    out.extend_from_slice(&(text.len() as u16).to_be_bytes())?;
    out.extend_from_slice(text)
}
