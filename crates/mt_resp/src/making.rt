//! Commands of the store, made of words. Each function fails only if a growth is refused.

ghost use Rattle.std.specs.{Prelude.{◌≡◌, ◌≤◌, [], ◌++◌, length, map, Some, None, IfOk, OnOk}, Option.option_map};
ghost use Rattle.mt_rows.specs.declared.command.Command.{Command};
ghost use Rattle.mt_resp.specs.{Arguments.column_of, Making.{get, change_of, put_of, puts, is_column, field_value, with_column, named_from, columns_in}};

use crate::arguments::column_in;
use crate::strings::{STRING_BYTES, columns_of};
use crate::word::Word;
use mt_rows::{Column, ColumnIndexes, Command, Key, NamedColumns};
use std::alloc::{AllocError, Global};
use std::marker::Model;

/// Commands, in their order.
#[derive(Debug, Drop)]
pub struct CommandList {
    commands: Vec<Command>,
}

impl Model for CommandList {
    ghost use Rattle.std.specs.Prelude.{List};
    ghost use Rattle.mt_rows.specs.declared.command.Command.{Command};

    ghost Value = { List Command };

    ghost view = { λ l. l.commands.items };
}

impl CommandList {
    pub fn new(commands: Vec<Command>) -> Self
        ensures { result ≡ commands.items }
    {
        CommandList { commands }
    }

    pub fn len(&self) -> usize
        ensures { result ≡ length self.now }
    {
        self.commands.len()
    }

    /// The commands, which are not copied.
    pub fn into_vec(self) -> Vec<Command>
        ensures { result.items ≡ self }
    {
        self.commands
    }
}

pub fn key_in(alloc: Global, word: &Word) -> Result<Key, AllocError>
    ensures { IfOk result (λ key. key ≡ word.now) }
{
    Ok(Key::new(Vec::from_slice(alloc, word.as_bytes())?))
}

/// A copy of a word.
pub fn copy_of(alloc: Global, word: &[u8]) -> Result<Word, AllocError>
    ensures { IfOk result (λ copy. copy ≡ word.now) }
{
    Ok(Word::new(Vec::from_slice(alloc, word)?))
}

/// A get of the whole row.
pub fn get_of(alloc: Global, key: &Word) -> Result<Command, AllocError>
    ensures { IfOk result (λ command. command ≡ get key.now) }
{
    let key = key_in(alloc, key)?;
    Ok(Command::Get {
        key,
        columns: ColumnIndexes::new(Vec::new(alloc)),
    })
}

pub fn remove_of(alloc: Global, key: &Word) -> Result<Command, AllocError>
    ensures { IfOk result (λ command. command ≡ Command.Remove key.now) }
{
    let key = key_in(alloc, key)?;
    Ok(Command::Remove { key })
}

/// What a put of a string writes, unless the string is too long.
pub fn change_of(alloc: Global, value: &Word) -> Result<Option<NamedColumns>, AllocError>
    ensures { IfOk result (λ change. change ≡ change_of value.now) }
{
    if value.as_bytes().len() > STRING_BYTES {
        return Ok(None);
    }
    Ok(Some(columns_of(alloc, value.as_bytes())?))
}

/// A put, or one that asks for a stamp.
pub fn put_of(stamp: Option<u64>, key: Key, change: NamedColumns) -> Command
    ensures { result ≡ put_of stamp key change }
{
    match stamp {
        None => Command::Put { key, change },
        Some(stamp) => Command::PutIf { key, stamp, change },
    }
}

pub fn gets_of(alloc: Global, keys: &[Word]) -> Result<CommandList, AllocError>
    ensures { IfOk result (λ list. list ≡ map get keys.now) }
{
    let mut commands = Vec::with_capacity(alloc, keys.len())?;
    for key in keys {
        commands.push(get_of(alloc, key)?)?;
    }
    Ok(CommandList::new(commands))
}

pub fn removes_of(alloc: Global, keys: &[Word]) -> Result<CommandList, AllocError>
    ensures { IfOk result (λ list. list ≡ map (λ k. Command.Remove k) keys.now) }
{
    let mut commands = Vec::with_capacity(alloc, keys.len())?;
    for key in keys {
        commands.push(remove_of(alloc, key)?)?;
    }
    Ok(CommandList::new(commands))
}

/// Puts of keys with their values, if each key has one that isn't too long.
pub fn puts_of(alloc: Global, words: &[Word]) -> Result<Option<CommandList>, AllocError>
    ensures { IfOk result (λ list. list ≡ puts words.now) }
{
    let mut commands = Vec::with_capacity(alloc, words.len() / 2)?;
    let mut rest = words;
    while let [key, value, after @ ..] = rest {
        match change_of(alloc, value)? {
            Some(change) => {
                let key = key_in(alloc, key)?;
                commands.push(Command::Put { key, change })?;
            }
            None => return Ok(None),
        }
        rest = after;
    }
    if rest.is_empty() {
        return Ok(Some(CommandList::new(commands)));
    }
    Ok(None)
}

/// The columns that fields name, in the fields' order, if each is an index.
pub fn columns_in(alloc: Global, fields: &[Word]) -> Result<Option<ColumnIndexes>, AllocError>
    ensures { IfOk result (λ indexes. indexes ≡ columns_in fields.now) }
{
    let mut indexes = Vec::with_capacity(alloc, fields.len())?;
    let mut rest = fields;
    while let [field, after @ ..] = rest {
        match column_in(field.as_bytes()) {
            Some(index) => indexes.push(index)?,
            None => return Ok(None),
        }
        rest = after;
    }
    Ok(Some(ColumnIndexes::new(indexes)))
}

// Whether a field is the index.
fn is_field(field: &Word, index: u8) -> bool
    ensures { result ≡ is_column index (column_of field.now) }
{
    match column_in(field.as_bytes()) {
        Some(column) => column == index,
        None => false,
    }
}

// The last value of a field.
fn last_value(pairs: &[Word], index: u8) -> Option<&Word>
    ensures { option_map (λ w. w.now) result ≡ field_value index pairs.now }
{
    let mut found = None;
    let mut rest = pairs;
    while let [field, value, after @ ..] = rest {
        rest = after;
        if is_field(field, index) {
            found = Some(value);
        }
    }
    found
}

// The last value of a field, if it has one, after others.
fn push_value(
    alloc: Global,
    columns: &mut Vec<(u8, Column)>,
    index: u8,
    pairs: &[Word],
) -> Result<(), AllocError>
    ensures { OnOk result (columns.new.items ≡ columns.old.items ++ with_column index (field_value index pairs.now) []) }
{
    match last_value(pairs, index) {
        Some(value) => {
            columns.push((index, Column::from_slice(alloc, value.as_bytes())?))?;
            Ok(())
        }
        None => Ok(()),
    }
}

/// The columns that pairs of a field and a value name, in the order of their indexes. Of a field that is named twice the last value counts.
pub fn named_in(alloc: Global, pairs: &[Word]) -> Result<Vec<(u8, Column)>, AllocError>
    ensures { IfOk result (λ columns. columns.items ≡ named_from 16 0 pairs.now) }
{
    let mut columns = Vec::with_capacity(alloc, pairs.len() / 2)?;
    for index in 0..16u8 {
        push_value(alloc, &mut columns, index, pairs)?;
    }
    Ok(columns)
}
