//! What commands of a row's fields ask: a field is the index of a column.

ghost use Rattle.std.specs.Prelude.{◌≡◌, ◌<◌, IfOk};
ghost use Rattle.mt_rows.specs.declared.command.Command.{Command};
ghost use Rattle.mt_resp.specs.declared.asked.Asked.{Asked};
ghost use Rattle.mt_resp.specs.{Arguments.column_of, Making.columns_in, FieldCommands.{put_shape, put_fields, column_shape, column_asked, columns_asked, add_to_field, fields_asked}};

use crate::arguments::{Amount, amount_in, are_fields, column_in};
use crate::asked::{Asked, failed, miscounted};
use crate::making::{columns_in, get_of, key_in, named_in};
use crate::names::FieldName;
use crate::on_numbers::add_asked;
use crate::told::{Failure, Shape};
use crate::word::Word;
use mt_rows::{Column, Command, Key, NamedColumns};
use std::alloc::{AllocError, Global};

/// What a command of fields asks.
pub fn fields_asked(
    alloc: Global,
    word: &[u8],
    name: FieldName,
    words: &[Word],
) -> Result<Asked, AllocError>
    ensures { IfOk result (λ asked. asked ≡ fields_asked word.now name words.now) }
{
    match (name, words) {
        (FieldName::Put, [key, pairs @ ..]) => put_fields(alloc, word, key, pairs, true),
        (FieldName::PutFine, [key, pairs @ ..]) => put_fields(alloc, word, key, pairs, false),
        (FieldName::Get, [key, field]) => column_asked(alloc, FieldName::Get, key, field),
        (FieldName::Has, [key, field]) => column_asked(alloc, FieldName::Has, key, field),
        (FieldName::Length, [key, field]) => column_asked(alloc, FieldName::Length, key, field),
        (FieldName::GetSome, [key, fields @ ..]) if !fields.is_empty() => {
            columns_asked(alloc, key, fields)
        }
        (FieldName::GetAll, [key]) => Ok(Asked::Call(get_of(alloc, key)?, Shape::Fields)),
        (FieldName::Width, [key]) => Ok(Asked::Call(get_of(alloc, key)?, Shape::Width)),
        (FieldName::UpBy, [key, field, amount]) => {
            add_to_field(alloc, key, field, amount_in(amount.as_bytes()))
        }
        (_, _) => miscounted(alloc, word),
    }
}

// How one column is shown.
fn column_shape(name: FieldName, index: u8) -> Shape
    ensures { result ≡ column_shape name index }
{
    match name {
        FieldName::Has => Shape::HasColumn(index),
        FieldName::Length => Shape::ColumnLength(index),
        _ => Shape::Column(index),
    }
}

fn column_asked(
    alloc: Global,
    name: FieldName,
    key: &Word,
    field: &Word,
) -> Result<Asked, AllocError>
    ensures { IfOk result (λ asked. asked ≡ column_asked name key.now (column_of field.now)) }
{
    match column_in(field.as_bytes()) {
        None => failed(Failure::NoField),
        Some(index) => Ok(Asked::Call(get_of(alloc, key)?, column_shape(name, index))),
    }
}

fn columns_asked(alloc: Global, key: &Word, fields: &[Word]) -> Result<Asked, AllocError>
    ensures { IfOk result (λ asked. asked ≡ columns_asked key.now (columns_in fields.now)) }
{
    match columns_in(alloc, fields)? {
        None => failed(Failure::NoField),
        Some(indexes) => Ok(Asked::Pick(get_of(alloc, key)?, indexes)),
    }
}

fn add_to_field(
    alloc: Global,
    key: &Word,
    field: &Word,
    amount: Option<Amount>,
) -> Result<Asked, AllocError>
    ensures { IfOk result (λ asked. asked ≡ add_to_field key.now (column_of field.now) amount) }
{
    match column_in(field.as_bytes()) {
        None => failed(Failure::NoField),
        Some(index) => add_asked(alloc, key, index, amount),
    }
}

// A put of these columns.
fn put_named(key: Key, columns: Vec<(u8, Column)>, counted: bool) -> Asked
    ensures { result ≡ Asked.Call (Command.Put key columns.items) (put_shape counted columns.items) }
{
    let shape = if counted {
        Shape::PutCounted(columns.len() as u64)
    } else {
        Shape::Put
    };
    let change = NamedColumns::new(columns);
    Asked::Call(Command::Put { key, change }, shape)
}

// A put of columns by fields.
fn put_fields(
    alloc: Global,
    word: &[u8],
    key: &Word,
    pairs: &[Word],
    counted: bool,
) -> Result<Asked, AllocError>
    ensures { IfOk result (λ asked. asked ≡ put_fields word.now key.now pairs.now counted) }
{
    if pairs.is_empty() {
        return miscounted(alloc, word);
    }
    if pairs.len() % 2 == 1 {
        return miscounted(alloc, word);
    }
    if !are_fields(pairs) {
        return failed(Failure::NoField);
    }
    let key = key_in(alloc, key)?;
    let columns = named_in(alloc, pairs)?;
    Ok(put_named(key, columns, counted))
}
