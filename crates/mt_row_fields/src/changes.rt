//! Changed columns of a row, each with its index, read from the front of some bytes and written after
//! others.

ghost use Rattle.std.specs.Prelude.{◌≡◌, ◌≤◌, ◌<◌, ◌^◌, ◌++◌, length, take, OnOk};
ghost use Rattle.mt_rows.specs.Changes.{IsChange};
ghost use Rattle.mt_fields.specs.Reading.{Gives, each_at};
ghost use Rattle.mt_row_fields.specs.{Format.{named_bytes, change_bytes}, Reading.{named_at, change_at}};

use crate::rows::column_of;
use mt_fields::{DecodeFault, put_string, u8_at};
use mt_rows::{Change, Column, NamedColumns};
use std::alloc::{AllocError, Global};

/// Columns by index, such as a change writes.
#[tactic(auto, using(crate::proofs::Tests::change_tests), unfolding(crate::specs::Reading::change_at))]
pub fn change_of(alloc: Global, bytes: &[u8]) -> Result<(Change, &[u8]), DecodeFault>
    ensures { Gives (λ x. (x.0, x.1.now)) result (change_at bytes.now) }
{
    let (count, rest) = u8_at(bytes)?;
    let (columns, rest) = named_list_of(alloc, count, rest)?;
    match Change::new(NamedColumns::new(columns)) {
        Ok(change) => Ok((change, rest)),
        Err(_) => Err(DecodeFault::Bad),
    }
}

// So many columns by index, in a list made by their count, which is a byte.
fn named_list_of(
    alloc: Global,
    count: u8,
    bytes: &[u8],
) -> Result<(Vec<(u8, Column)>, &[u8]), DecodeFault>
    ensures { Gives (λ x. (x.0.items, x.1.now)) result (each_at named_at count bytes.now) }
{
    let mut columns = Vec::with_capacity(alloc, usize::from(count))?;
    let mut rest = bytes;
    for _ in 0..count {
        let (column, after) = named_of(alloc, rest)?;
        columns.push(column)?;
        rest = after;
    }
    Ok((columns, rest))
}

// A column by its index.
#[tactic(auto, unfolding(crate::specs::Reading::named_at))]
fn named_of(alloc: Global, bytes: &[u8]) -> Result<((u8, Column), &[u8]), DecodeFault>
    ensures { Gives (λ x. (x.0, x.1.now)) result (named_at bytes.now) }
{
    let (index, rest) = u8_at(bytes)?;
    let (column, rest) = column_of(alloc, rest)?;
    Ok(((index, column), rest))
}

/// Changed columns. What was written before stays, also if it fails.
pub fn put_change(out: &mut Vec<u8>, change: &Change) -> Result<(), AllocError>
    ensures ok { OnOk result (out.new.items ≡ out.old.items ++ change_bytes change.now) }
    ensures front { take (length out.old.items) out.new.items ≡ out.old.items }
{
    put_list(out, change.columns())
}

fn put_list(out: &mut Vec<u8>, columns: &[(u8, Column)]) -> Result<(), AllocError>
    requires { IsChange columns.now }
    ensures ok { OnOk result (out.new.items ≡ out.old.items ++ change_bytes columns.now) }
    ensures front { take (length out.old.items) out.new.items ≡ out.old.items }
{
    out.push(columns.len() as u8)?;
    for named in columns {
        put_named(out, named.0, named.1.as_bytes())?;
    }
    Ok(())
}

fn put_named(out: &mut Vec<u8>, index: u8, column: &[u8]) -> Result<(), AllocError>
    requires { length column.now < 2 ^ 16 }
    ensures ok { OnOk result (out.new.items ≡ out.old.items ++ named_bytes (index, column.now)) }
    ensures front { take (length out.old.items) out.new.items ≡ out.old.items }
{
    out.push(index)?;
    put_string(out, column)
}

/// How many bytes changed columns are spelled with.
pub fn change_len(change: &Change) -> usize
    ensures exact { result ≡ length (change_bytes change.now) }
    ensures few { result ≤ 16433 }
    ensures limits { IsChange change.now }
{
    list_len(change.columns())
}

fn list_len(columns: &[(u8, Column)]) -> usize
    requires { IsChange columns.now }
    ensures exact { result ≡ length (change_bytes columns.now) }
    ensures few { result ≤ 16433 }
{
    let mut len = 1;
    for named in columns {
        len += 3 + named.1.as_bytes().len();
    }
    len
}
