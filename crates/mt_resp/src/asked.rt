//! What the words of a command ask.

ghost use Rattle.std.specs.Prelude.{◌≡◌, IfOk};
ghost use Rattle.mt_resp.specs.{Asking.{meaning, asked_by}, Failing.{failed, miscounted}};

use crate::arguments::Amount;
use crate::making::{CommandList, copy_of};
use crate::names::{field_name, key_name, link_name, number_name, reason, string_name};
use crate::on_fields::fields_asked;
use crate::on_keys::keys_asked;
use crate::on_links::link_asked;
use crate::on_numbers::numbers_asked;
use crate::on_strings::strings_asked;
use crate::told::{Failure, Shape, Told};
use crate::word::{Word, Words};
use mt_rows::{ColumnIndexes, Command, Key, NamedColumns};
use std::alloc::{AllocError, Global};

/// What a command asks.
#[derive(Debug, Drop)]
pub enum Asked {
    /// What the store has no part in.
    Told(Told),
    /// The tenant of this number from here on.
    Select(u32),
    /// The connection as it was at its beginning.
    Reset,
    /// The end of the connection.
    Quit,
    /// The end of the connection, of which nothing is told: no client of ours sends this.
    Close,
    /// A command of the store, and how its reply is shown.
    Call(Command, Shape),
    /// A get, of whose row these columns are shown.
    Pick(Command, ColumnIndexes),
    /// Commands, whose replies are a list.
    Each(CommandList, Shape),
    /// Commands, whose numbers are added up.
    Sum(CommandList, Shape),
    /// Commands, of which all are to be done.
    All(CommandList, Shape),
    /// A row is read, changed, and put back if its stamp still stands.
    Change(Key, Edit),
    /// A string is shown, and its row taken away.
    Take(Key),
    /// Keys from a cursor on, of those that are like the pattern, if there is one.
    Scan {
        cursor: u64,
        pattern: Option<Word>,
        count: u64,
    },
    /// Pairs in the order of their keys, with their stamps if so asked.
    Range {
        from: Key,
        way: RangeWay,
        count: u64,
        stamps: bool,
    },
    /// All pairs of the tenant are taken away, and it is told how many there were, if so asked.
    Clear {
        counted: bool,
    },
    /// What was changed outlives a crash.
    Settle,
    /// What the server knows.
    Status(Status),
}

/// What is made of a row that was read.
#[derive(Debug, Drop)]
pub enum Edit {
    /// These columns are put, if the key is as asked; the string that was there is shown, if so asked.
    Put(NamedColumns, When, bool),
    /// These bytes come after the string.
    Append(Word),
    /// The number in a column goes up or down.
    Add(u8, Amount),
}

/// At which keys a put is done.
#[derive(Clone, Copy, Debug)]
pub enum When {
    Always,
    New,
    There,
}

/// Which keys a range has.
#[derive(Clone, Copy, Debug)]
pub enum RangeWay {
    /// From a key on.
    From,
    /// After it.
    After,
    /// Those that begin with it.
    Prefix,
}

/// What is asked of the server.
#[derive(Clone, Copy, Debug)]
pub enum Status {
    /// How many pairs the tenant has.
    Count,
    /// What the server is doing.
    Info,
    /// The time.
    Time,
}

/// What the words of a command ask. Only a refused growth is an error.
pub fn meaning_of(alloc: Global, words: &Words) -> Result<Asked, AllocError>
    ensures { IfOk result (λ asked. asked ≡ meaning words.now) }
{
    match words.as_slice() {
        [] => Ok(Asked::Told(Told::Nothing)),
        [word, words @ ..] => asked_by(alloc, word.as_bytes(), words),
    }
}

// What a command of this name asks.
fn asked_by(alloc: Global, word: &[u8], words: &[Word]) -> Result<Asked, AllocError>
    ensures { IfOk result (λ asked. asked ≡ asked_by word.now words.now) }
{
    if let Some(name) = string_name(word) {
        return strings_asked(alloc, word, name, words);
    }
    if let Some(name) = number_name(word) {
        return numbers_asked(alloc, word, name, words);
    }
    if let Some(name) = field_name(word) {
        return fields_asked(alloc, word, name, words);
    }
    if let Some(name) = key_name(word) {
        return keys_asked(alloc, word, name, words);
    }
    if let Some(name) = link_name(word) {
        return link_asked(alloc, word, name, words);
    }
    match reason(word) {
        Some(failure) => failed(failure),
        None => Ok(Asked::Told(Told::Unknown(copy_of(alloc, word)?))),
    }
}

pub fn failed(failure: Failure) -> Result<Asked, AllocError>
    ensures { IfOk result (λ asked. asked ≡ failed failure) }
{
    Ok(Asked::Told(Told::Failed(failure)))
}

/// A command of this name has another number of words.
pub fn miscounted(alloc: Global, word: &[u8]) -> Result<Asked, AllocError>
    ensures { IfOk result (λ asked. asked ≡ miscounted word.now) }
{
    Ok(Asked::Told(Told::Arity(copy_of(alloc, word)?)))
}
