//! What is made of a row that was read. Each function fails only if a growth is refused.

ghost use Rattle.std.specs.Prelude.{◌≡◌, ◌++◌, ◌∷◌, [], IfOk};
ghost use Rattle.mt_rows.specs.{Rows.column, Stamps.columns_in};
ghost use Rattle.mt_resp.specs.{Strings.value_of, Numbers.{signed_of, spelling}, Edits.{edited_of, is_put, put_edited, old_string, string_edited, add_edited}};

use crate::arguments::Amount;
use crate::asked::{Edit, When};
use crate::signed::signed_in;
use crate::strings::{STRING_BYTES, columns_of, write_value};
use crate::told::{Failure, Told};
use mt_rows::{Column, NamedColumns, StampedRow};
use std::alloc::{AllocError, Global};

/// What is made of a row.
#[derive(Debug, Drop)]
pub enum Edited {
    /// The row stays, and this is told.
    Kept(Told),
    /// These columns are to be put, and this is told if they are.
    Put(NamedColumns, Told),
}

/// What an edit makes of the row that a get of the whole row found, or of none.
pub fn after_edit(
    alloc: Global,
    edit: &Edit,
    found: Option<StampedRow>,
) -> Result<Edited, AllocError>
    ensures { IfOk result (λ made. made ≡ edited_of edit.now found) }
{
    match edit {
        Edit::Put(change, when, shows_old) => put_edited(change, *when, *shows_old, found),
        Edit::Append(word) => append_edited(alloc, columns_in(&found), word.as_bytes()),
        Edit::Add(index, amount) => add_edited(alloc, columns_in(&found), *index, *amount),
    }
}

fn columns_in(found: &Option<StampedRow>) -> &[Column]
    ensures { result.now ≡ columns_in found.now }
{
    match found {
        Some(row) => row.row.columns(),
        None => &[],
    }
}

// A put of columns, if the key is as asked.
fn put_edited(
    change: &NamedColumns,
    when: When,
    shows_old: bool,
    found: Option<StampedRow>,
) -> Result<Edited, AllocError>
    ensures { IfOk result (λ made. made ≡ put_edited change.now when shows_old found) }
{
    if is_put(when, &found) {
        let change = change.clone()?;
        let told = if shows_old {
            old_string(found)
        } else {
            Told::Fine
        };
        return Ok(Edited::Put(change, told));
    }
    let told = if shows_old {
        old_string(found)
    } else {
        Told::Nil
    };
    Ok(Edited::Kept(told))
}

// Whether a put is done at such a key.
fn is_put(when: When, found: &Option<StampedRow>) -> bool
    ensures { result ≡ is_put when found.now }
{
    match when {
        When::Always => true,
        When::New => found.is_none(),
        When::There => found.is_some(),
    }
}

// The string that was there, or nil.
fn old_string(found: Option<StampedRow>) -> Told
    ensures { result ≡ old_string found }
{
    match found {
        Some(row) => Told::Value(row),
        None => Told::Nil,
    }
}

// The string of these columns with a word after it.
fn append_edited(alloc: Global, columns: &[Column], word: &[u8]) -> Result<Edited, AllocError>
    ensures { IfOk result (λ made. made ≡ string_edited (value_of columns.now ++ word.now)) }
{
    let mut value = Vec::new(alloc);
    write_value(columns, &mut value)?;
    value.extend_from_slice(word)?;
    string_edited(alloc, &value)
}

// A put of a string, if it isn't too long.
fn string_edited(alloc: Global, value: &[u8]) -> Result<Edited, AllocError>
    ensures { IfOk result (λ made. made ≡ string_edited value.now) }
{
    if value.len() > STRING_BYTES {
        return Ok(Edited::Kept(Told::Failed(Failure::LongString)));
    }
    let change = columns_of(alloc, value)?;
    Ok(Edited::Put(change, Told::Number(value.len() as u64)))
}

// The number in a column goes up or down.
fn add_edited(
    alloc: Global,
    columns: &[Column],
    index: u8,
    amount: Amount,
) -> Result<Edited, AllocError>
    ensures { IfOk result (λ made. made ≡ add_edited index (signed_of (column columns.now index)) amount) }
{
    let number = match columns.get(usize::from(index)) {
        Some(column) => signed_in(column.as_bytes()),
        None => Some(Amount::Up(0)),
    };
    let Some(number) = number else {
        return Ok(Edited::Kept(Told::Failed(Failure::NoInteger)));
    };
    let Some(sum) = number.plus(amount) else {
        return Ok(Edited::Kept(Told::Failed(Failure::Overflow)));
    };
    let change = number_in_column(alloc, index, sum)?;
    Ok(Edited::Put(change, Told::Signed(sum)))
}

// A column with a number.
fn number_in_column(alloc: Global, index: u8, number: Amount) -> Result<NamedColumns, AllocError>
    ensures { IfOk result (λ change. change ≡ (index, spelling number) ∷ []) }
{
    let mut text = Vec::new(alloc);
    number.write(&mut text)?;
    let mut columns = Vec::with_capacity(alloc, 1)?;
    columns.push((index, Column::new(alloc, text)?))?;
    Ok(NamedColumns::new(columns))
}
