//! A checkpoint as the bytes that are written.

ghost use Rattle.std.specs.{Prelude.{◌≡◌, ◌++◌, IfOk, OnOk}, List.{flat_map, All, AllByRecursion}};
ghost use Rattle.mt_rows.specs.Commands.{IsKey};
ghost use Rattle.mt_checkpoint.specs.{Format.{head_bytes, entry_bytes, last_bytes}, Checkpoints.IsPair};

use mt_fields::{put_u32, put_u64};
use mt_row_fields::{put_key, put_row};
use mt_rows::TenantPair;
use std::alloc::{AllocError, Global};

/// Where the head begins, after the gate.
pub(crate) const HEAD_AT: usize = 1;

/// The bytes of a head.
pub(crate) const HEAD_BYTES: usize = 14;

/// Where the entries begin.
pub(crate) const ENTRIES_AT: usize = 15;

/// The format in which no entry tells a stamp.
pub(crate) const OLD_FORMAT: u8 = 1;

/// The format that is written.
pub(crate) const FORMAT: u8 = 2;

/// The head of a checkpoint, in the format of this number.
pub(crate) fn head(version: u8, first: u64) -> [u8; 14]
    ensures { result ≡ head_bytes version first }
{
    let number = first.to_be_bytes();
    [
        b'M', b'T', b'C', b'K', b'P', version, number[0], number[1], number[2], number[3],
        number[4], number[5], number[6], number[7],
    ]
}

/// Its last entry.
pub(crate) fn last_entry(last: u64) -> [u8; 9]
    ensures { result ≡ last_bytes last }
{
    let number = last.to_be_bytes();
    [
        2, number[0], number[1], number[2], number[3], number[4], number[5], number[6], number[7],
    ]
}

// An entry, in format 2.
fn put_entry(out: &mut Vec<u8>, pair: &TenantPair) -> Result<(), AllocError>
    requires { IsKey pair.now.key }
    ensures ok { OnOk result (out.new.items ≡ out.old.items ++ entry_bytes 2 pair.now) }
    ensures limits { OnOk result (IsPair pair.now) }
{
    // Read, so that the proof knows its limits.
    let _columns = pair.row.row.columns();
    out.push(1)?;
    put_u32(out, pair.tenant)?;
    put_key(out, &pair.key)?;
    put_u64(out, pair.row.stamp)?;
    put_row(out, &pair.row.row)
}

/// Entries, one after the other, in format 2.
pub(crate) fn entries(alloc: Global, pairs: &[TenantPair]) -> Result<Vec<u8>, AllocError>
    requires { All (λ p. IsKey p.key) pairs.now }
    ensures ok { IfOk result (λ block. block.items ≡ flat_map (entry_bytes 2) pairs.now) }
    ensures limits { IfOk result (λ _. AllByRecursion IsPair pairs.now) }
{
    let mut block = Vec::new(alloc);
    for pair in pairs {
        put_entry(&mut block, pair)?;
    }
    Ok(block)
}
