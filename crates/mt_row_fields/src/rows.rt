//! Keys and rows, read from the front of some bytes and written after others.
//!
//! A reader gives a value and the bytes after it. A writer leaves what was written before, also if it
//! fails.

ghost use Rattle.std.specs.Prelude.{◌≡◌, ◌≤◌, ◌++◌, length, take, OnOk};
ghost use Rattle.mt_rows.specs.{Rows.IsRow, Commands.IsKey};
ghost use Rattle.mt_fields.specs.{Fields.string, Reading.{Gives, string_at, each_at}};
ghost use Rattle.mt_row_fields.specs.{Format.row_bytes, Reading.{row_at, key_at}};

use mt_fields::{DecodeFault, put_string, string_of, text_of, u8_at};
use mt_rows::key::USER_KEY_BYTES;
use mt_rows::{Column, Key, Row};
use std::alloc::{AllocError, Global};

/// A user key.
#[tactic(auto, unfolding(crate::specs::Reading::key_at))]
pub fn key_of(alloc: Global, bytes: &[u8]) -> Result<(Key, &[u8]), DecodeFault>
    ensures { Gives (λ x. (x.0, x.1.now)) result (key_at bytes.now) }
{
    let (key, rest) = string_of(alloc, bytes)?;
    if key.len() > USER_KEY_BYTES {
        return Err(DecodeFault::Bad);
    }
    Ok((Key::new(key), rest))
}

/// A row.
#[tactic(auto, using(crate::proofs::Tests::row_tests), unfolding(crate::specs::Reading::row_at))]
pub fn row_of(alloc: Global, bytes: &[u8]) -> Result<(Row, &[u8]), DecodeFault>
    ensures { Gives (λ x. (x.0, x.1.now)) result (row_at bytes.now) }
{
    let (count, rest) = u8_at(bytes)?;
    let (columns, rest) = columns_of(alloc, count, rest)?;
    if !Row::fits(&columns) {
        return Err(DecodeFault::Bad);
    }
    Ok((Row::new(alloc, columns)?, rest))
}

// So many columns, in a list made by their count, which is a byte.
fn columns_of(alloc: Global, count: u8, bytes: &[u8]) -> Result<(Vec<Column>, &[u8]), DecodeFault>
    ensures { Gives (λ x. (x.0.items, x.1.now)) result (each_at string_at count bytes.now) }
{
    let mut columns = Vec::with_capacity(alloc, usize::from(count))?;
    let mut rest = bytes;
    for _ in 0..count {
        let (column, after) = column_of(alloc, rest)?;
        columns.push(column)?;
        rest = after;
    }
    Ok((columns, rest))
}

// A column.
pub(crate) fn column_of(alloc: Global, bytes: &[u8]) -> Result<(Column, &[u8]), DecodeFault>
    ensures { Gives (λ x. (x.0, x.1.now)) result (string_at bytes.now) }
{
    let (text, rest) = text_of(bytes)?;
    Ok((Column::from_slice(alloc, text)?, rest))
}

/// A user key. What was written before stays, also if it fails.
pub fn put_key(out: &mut Vec<u8>, key: &Key) -> Result<(), AllocError>
    requires { IsKey key.now }
    ensures ok { OnOk result (out.new.items ≡ out.old.items ++ string key.now) }
    ensures front { take (length out.old.items) out.new.items ≡ out.old.items }
{
    put_string(out, key.as_bytes())
}

/// A row. What was written before stays, also if it fails.
pub fn put_row(out: &mut Vec<u8>, row: &Row) -> Result<(), AllocError>
    ensures ok { OnOk result (out.new.items ≡ out.old.items ++ row_bytes row.now) }
    ensures front { take (length out.old.items) out.new.items ≡ out.old.items }
{
    put_columns(out, row.columns())
}

fn put_columns(out: &mut Vec<u8>, columns: &[Column]) -> Result<(), AllocError>
    requires { IsRow columns.now }
    ensures ok { OnOk result (out.new.items ≡ out.old.items ++ row_bytes columns.now) }
    ensures front { take (length out.old.items) out.new.items ≡ out.old.items }
{
    out.push(columns.len() as u8)?;
    for column in columns {
        put_string(out, column.as_bytes())?;
    }
    Ok(())
}

/// How many bytes a row is spelled with.
pub fn row_len(row: &Row) -> usize
    ensures exact { result ≡ length (row_bytes row.now) }
    ensures few { result ≤ 16417 }
    ensures limits { IsRow row.now }
{
    columns_len(row.columns())
}

fn columns_len(columns: &[Column]) -> usize
    requires { IsRow columns.now }
    ensures exact { result ≡ length (row_bytes columns.now) }
    ensures few { result ≤ 16417 }
{
    let mut len = 1;
    for column in columns {
        len += 2 + column.as_bytes().len();
    }
    len
}
