//! Strings longer than a column.
//!
//! A string is the columns of a row from the first on, up to and with the first that is shorter than 1,024 bytes.
//! Columns after that one play no part, so a put of a string leaves them.
//!
//! Units: bytes.

ghost use Rattle.std.specs.Prelude.{◌≡◌, ◌++◌, ◌≤◌, length, take, IfOk, OnOk};
ghost use Rattle.std.specs.List.{All};
ghost use Rattle.mt_rows.specs.Changes.{indexed};
ghost use Rattle.mt_resp.specs.Strings.{columns_of, value_of};

use mt_rows::column::COLUMN_BYTES;
use mt_rows::{Column, NamedColumns};
use std::alloc::{AllocError, Global};

/// The longest string, in bytes: fourteen columns, and one that is shorter.
pub const STRING_BYTES: usize = 15_359;

/// The columns of a string.
pub fn columns_of(alloc: Global, value: &[u8]) -> Result<NamedColumns, AllocError>
    requires { length value.now ≤ 15359 }
    ensures { IfOk result (λ change. change ≡ indexed 0 (columns_of value.now)) }
{
    let mut columns = Vec::with_capacity(alloc, value.len() / COLUMN_BYTES + 1)?;
    let mut index = 0u8;
    let mut rest = value;
    while rest.len() >= COLUMN_BYTES {
        let (piece, after) = rest.split_at(COLUMN_BYTES);
        columns.push((index, Column::from_slice(alloc, piece)?))?;
        index += 1;
        rest = after;
    }
    columns.push((index, Column::from_slice(alloc, rest)?))?;
    Ok(NamedColumns::new(columns))
}

/// How long the string of these columns is.
pub fn value_len(columns: &[Column]) -> usize
    requires few { length columns.now ≤ 16 }
    requires short { All (λ column. length column ≤ 1024) columns.now }
    ensures { result ≡ length (value_of columns.now) }
{
    let mut len = 0;
    for column in columns {
        let bytes = column.as_bytes();
        len += bytes.len();
        if bytes.len() < COLUMN_BYTES {
            return len;
        }
    }
    len
}

/// Writes the string of these columns. What was written before stays, also if it fails.
pub fn write_value(columns: &[Column], out: &mut Vec<u8>) -> Result<(), AllocError>
    ensures ok { OnOk result (out.new.items ≡ out.old.items ++ value_of columns.now) }
    ensures front { take (length out.old.items) out.new.items ≡ out.old.items }
{
    for column in columns {
        let bytes = column.as_bytes();
        out.extend_from_slice(bytes)?;
        if bytes.len() < COLUMN_BYTES {
            return Ok(());
        }
    }
    Ok(())
}
