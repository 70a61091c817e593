//! What commands of strings ask.

ghost use Rattle.std.specs.{Prelude.{◌≡◌, ◌-◌, ◌^◌, IfOk}, List.list_any};
ghost use Rattle.mt_resp.specs.declared.asked.{Asked.{Asked}, Edit.{Edit}};
ghost use Rattle.mt_resp.specs.{Arguments.number_of, Making.change_of, StringCommands.{strings_asked, page_asked, each_asked}};
ghost use Rattle.mt_resp.specs.SetOptions.{put_asked, put_at, replace_asked, is_expiry, options_refused, when_of, shown_asked, set_asked};

use crate::arguments::{begins_path, number_in};
use crate::asked::{Asked, Edit, When, failed, miscounted};
use crate::making::{change_of, copy_of, get_of, gets_of, key_in, put_of, puts_of};
use crate::names::{StringName, is_named};
use crate::told::{Failure, Shape};
use crate::word::Word;
use std::alloc::{AllocError, Global};

/// What a command of strings asks.
pub fn strings_asked(
    alloc: Global,
    word: &[u8],
    name: StringName,
    words: &[Word],
) -> Result<Asked, AllocError>
    ensures { IfOk result (λ asked. asked ≡ strings_asked word.now name words.now) }
{
    match (name, words) {
        (StringName::Get, [key]) => Ok(Asked::Call(get_of(alloc, key)?, Shape::Value)),
        (StringName::Get, [path, _]) => page_asked(alloc, word, path),
        (StringName::Set, [key, value, options @ ..]) => set_asked(alloc, key, value, options),
        (StringName::GetEach, [_, ..]) => Ok(Asked::Each(gets_of(alloc, words)?, Shape::Value)),
        (StringName::SetEach, [_, _, ..]) => each_asked(alloc, word, words),
        (StringName::SetNew, [key, value]) => put_asked(alloc, key, value, Some(0), Shape::Changed),
        (StringName::Length, [key]) => Ok(Asked::Call(get_of(alloc, key)?, Shape::Length)),
        (StringName::GetSet, [key, value]) => {
            replace_asked(alloc, key, value, When::Always, true)
        }
        (StringName::GetTake, [key]) => Ok(Asked::Take(key_in(alloc, key)?)),
        (StringName::Append, [key, value]) => append_asked(alloc, key, value),
        (_, _) => miscounted(alloc, word),
    }
}

// A GET of two words: a browser's, if the first one is a path.
fn page_asked(alloc: Global, word: &[u8], path: &Word) -> Result<Asked, AllocError>
    ensures { IfOk result (λ asked. asked ≡ page_asked word.now path.now) }
{
    if begins_path(path.as_bytes()) {
        return Ok(Asked::Close);
    }
    miscounted(alloc, word)
}

// SET with its options.
fn set_asked(alloc: Global, key: &Word, value: &Word, options: &[Word]) -> Result<Asked, AllocError>
    ensures { IfOk result (λ asked. asked ≡ set_asked key.now value.now options.now) }
{
    match options {
        [] => put_asked(alloc, key, value, None, Shape::Put),
        [option] if is_named(option.as_bytes(), b"nx") => {
            put_asked(alloc, key, value, Some(0), Shape::PutIf)
        }
        [option] if is_named(option.as_bytes(), b"xx") => {
            replace_asked(alloc, key, value, When::There, false)
        }
        [option] if is_named(option.as_bytes(), b"get") => {
            replace_asked(alloc, key, value, When::Always, true)
        }
        [option, stamp] if is_named(option.as_bytes(), b"ifstamp") => {
            put_at(alloc, key, stamp, value, Shape::PutIf)
        }
        [option, other] if is_named(option.as_bytes(), b"get") => {
            shown_asked(alloc, key, value, other, options)
        }
        [other, option] if is_named(option.as_bytes(), b"get") => {
            shown_asked(alloc, key, value, other, options)
        }
        _ => options_refused(options),
    }
}

// NX or XX, with GET.
fn shown_asked(
    alloc: Global,
    key: &Word,
    value: &Word,
    option: &Word,
    options: &[Word],
) -> Result<Asked, AllocError>
    ensures { IfOk result (λ asked. asked ≡ shown_asked key.now value.now (when_of option.now) options.now) }
{
    if is_named(option.as_bytes(), b"nx") {
        return replace_asked(alloc, key, value, When::New, true);
    }
    if is_named(option.as_bytes(), b"xx") {
        return replace_asked(alloc, key, value, When::There, true);
    }
    options_refused(options)
}

// Options that a SET has not.
fn options_refused(options: &[Word]) -> Result<Asked, AllocError>
    ensures { IfOk result (λ asked. asked ≡ options_refused options.now) }
{
    if has_expiry(options) {
        return failed(Failure::NoExpiry);
    }
    failed(Failure::Syntax)
}

fn has_expiry(options: &[Word]) -> bool
    ensures { result ≡ list_any is_expiry options.now }
{
    options.iter().any(|option| is_expiry(option.as_bytes()))
}

// Whether an option asks for an expiry.
fn is_expiry(word: &[u8]) -> bool
    ensures { result ≡ is_expiry word.now }
{
    is_named(word, b"ex")
        || is_named(word, b"px")
        || is_named(word, b"exat")
        || is_named(word, b"pxat")
        || is_named(word, b"keepttl")
}

// A put of a string, of whatever stamp or of one.
fn put_asked(
    alloc: Global,
    key: &Word,
    value: &Word,
    stamp: Option<u64>,
    shape: Shape,
) -> Result<Asked, AllocError>
    ensures { IfOk result (λ asked. asked ≡ put_asked key.now stamp shape (change_of value.now)) }
{
    match change_of(alloc, value)? {
        None => failed(Failure::LongString),
        Some(change) => Ok(Asked::Call(put_of(stamp, key_in(alloc, key)?, change), shape)),
    }
}

/// A put that asks for the stamp that a word is.
pub fn put_at(
    alloc: Global,
    key: &Word,
    stamp: &Word,
    value: &Word,
    shape: Shape,
) -> Result<Asked, AllocError>
    ensures { IfOk result (λ asked. asked ≡ put_at key.now (number_of (2 ^ 64 - 1) stamp.now) value.now shape) }
{
    match number_in(u64::MAX, stamp.as_bytes()) {
        None => failed(Failure::NoInteger),
        Some(stamp) => put_asked(alloc, key, value, Some(stamp), shape),
    }
}

// A put that needs to know what is there.
fn replace_asked(
    alloc: Global,
    key: &Word,
    value: &Word,
    when: When,
    shows_old: bool,
) -> Result<Asked, AllocError>
    ensures { IfOk result (λ asked. asked ≡ replace_asked key.now when shows_old (change_of value.now)) }
{
    match change_of(alloc, value)? {
        None => failed(Failure::LongString),
        Some(change) => Ok(Asked::Change(key_in(alloc, key)?, Edit::Put(change, when, shows_old))),
    }
}

// MSET.
fn each_asked(alloc: Global, word: &[u8], pairs: &[Word]) -> Result<Asked, AllocError>
    ensures { IfOk result (λ asked. asked ≡ each_asked word.now pairs.now) }
{
    if pairs.len() % 2 == 1 {
        return miscounted(alloc, word);
    }
    match puts_of(alloc, pairs)? {
        None => failed(Failure::LongString),
        Some(commands) => Ok(Asked::All(commands, Shape::Put)),
    }
}

fn append_asked(alloc: Global, key: &Word, value: &Word) -> Result<Asked, AllocError>
    ensures { IfOk result (λ asked. asked ≡ Asked.Change key.now (Edit.Append value.now)) }
{
    let key = key_in(alloc, key)?;
    Ok(Asked::Change(key, Edit::Append(copy_of(alloc, value.as_bytes())?)))
}
