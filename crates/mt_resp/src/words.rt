//! Commands as bytes: the words of the command at the front of some bytes.
//!
//! A command is an array of bulk strings, or a line of words with spaces between them. Format: `specs/Grammar.antt`.

ghost use Rattle.std.specs.Prelude.{◌≡◌, ◌≤◌, ◌<◌, ◌+◌, [], length, IfOk};
ghost use Rattle.mt_resp.specs.{Steps.Gives, Commands.{any_at, Reads}};
ghost use Rattle.mt_resp.specs.Reading.{sign_at, end_at, taken_at, digits_at, number_at, word_at, each_at, array_at, line_at, line_words};

use crate::stop::{Fault, Stop};
use crate::word::{Word, Words};
use std::alloc::{AllocError, Global};

/// The longest command, in bytes, with all that spells it.
pub const COMMAND_BYTES: usize = 65_536;

/// The most words of a command.
pub const COMMAND_WORDS: usize = 1_024;

/// What stands at the front of some bytes.
#[derive(Drop)]
pub enum Front {
    /// A command: its words, none for an empty line, and how many bytes spell it.
    Whole(Words, usize),
    /// Less than a command.
    Partial,
    /// No command begins so.
    Bad(Fault),
}

/// What stands at the front of these bytes. Only a refused growth is an error.
#[tactic(auto, unfolding(crate::specs::Commands::command_at))]
pub fn decode(alloc: Global, bytes: &[u8]) -> Result<Front, AllocError>
    ensures { IfOk result (Reads bytes.now) }
{
    match any_of(alloc, bytes) {
        Ok((words, rest)) => {
            let len = bytes.len() - rest.len();
            if len > COMMAND_BYTES {
                return Ok(Front::Bad(Fault::Long));
            }
            Ok(Front::Whole(Words::new(words), len))
        }
        Err(Stop::Partial) => {
            if bytes.len() < COMMAND_BYTES {
                Ok(Front::Partial)
            } else {
                Ok(Front::Bad(Fault::Long))
            }
        }
        Err(Stop::Bad(fault)) => Ok(Front::Bad(fault)),
        Err(Stop::Memory) => Err(AllocError),
    }
}

// The bytes after a byte that must come first.
fn sign_of(sign: u8, bytes: &[u8]) -> Result<&[u8], Stop>
    ensures { Gives (λ x. x.now) result (sign_at sign bytes.now) }
{
    match bytes {
        [] => Err(Stop::Partial),
        [first, rest @ ..] => {
            if *first == sign {
                Ok(rest)
            } else {
                Err(Stop::Bad(Fault::Spelling))
            }
        }
    }
}

// The bytes after the end of a line, CR LF.
#[tactic(auto, unfolding(crate::specs::Reading::end_at))]
fn end_of(bytes: &[u8]) -> Result<&[u8], Stop>
    ensures { Gives (λ x. x.now) result (end_at bytes.now) }
{
    let rest = sign_of(13, bytes)?;
    sign_of(10, rest)
}

// So many bytes, and those after them.
fn taken_of(count: usize, bytes: &[u8]) -> Result<(&[u8], &[u8]), Stop>
    ensures { Gives (λ x. (x.0.now, x.1.now)) result (taken_at count bytes.now) }
{
    if bytes.len() < count {
        return Err(Stop::Partial);
    }
    Ok(bytes.split_at(count))
}

// The digits that are left of a number, and the end of its line; past `most` there is this fault.
fn digits_of(most: usize, over: Fault, begun: usize, bytes: &[u8]) -> Result<(usize, &[u8]), Stop>
    requires few { most ≤ 65536 }
    requires small { begun ≤ most }
    ensures value { Gives (λ x. (x.0, x.1.now)) result (digits_at most over begun bytes.now) }
    ensures most { IfOk result (λ x. x.0 ≤ most) }
{
    let mut value = begun;
    let mut rest = bytes;
    loop {
        match rest {
            [] => return Err(Stop::Partial),
            [byte, after @ ..] => {
                if *byte < 48 || *byte > 57 {
                    let after = end_of(rest)?;
                    return Ok((value, after));
                }
                let next = value * 10 + usize::from(*byte - 48);
                if next > most {
                    return Err(Stop::Bad(over));
                }
                value = next;
                rest = after;
            }
        }
    }
}

// A number of at most `most` with no zero before it, on a line of its own.
fn number_of(most: usize, over: Fault, bytes: &[u8]) -> Result<(usize, &[u8]), Stop>
    requires few { 9 ≤ most }
    requires small { most ≤ 65536 }
    ensures value { Gives (λ x. (x.0, x.1.now)) result (number_at most over bytes.now) }
    ensures most { IfOk result (λ x. x.0 ≤ most) }
{
    match bytes {
        [] => Err(Stop::Partial),
        [48, rest @ ..] => {
            let rest = end_of(rest)?;
            Ok((0, rest))
        }
        [digit @ 49..=57, rest @ ..] => digits_of(most, over, usize::from(*digit - 48), rest),
        [_, ..] => Err(Stop::Bad(Fault::Spelling)),
    }
}

// A word: a bulk string.
#[tactic(auto, unfolding(crate::specs::Reading::word_at))]
fn word_of(alloc: Global, bytes: &[u8]) -> Result<(Word, &[u8]), Stop>
    ensures { Gives (λ x. (x.0, x.1.now)) result (word_at bytes.now) }
{
    let rest = sign_of(36, bytes)?;
    let (count, rest) = number_of(COMMAND_BYTES, Fault::Long, rest)?;
    let (text, rest) = taken_of(count, rest)?;
    let rest = end_of(rest)?;
    Ok((Word::new(Vec::from_slice(alloc, text)?), rest))
}

// So many words.
fn words_of(alloc: Global, count: usize, bytes: &[u8]) -> Result<(Vec<Word>, &[u8]), Stop>
    ensures { Gives (λ x. (x.0.items, x.1.now)) result (each_at word_at count bytes.now) }
{
    let mut words = Vec::new(alloc);
    let mut rest = bytes;
    for _ in 0..count {
        let (word, after) = word_of(alloc, rest)?;
        words.push(word)?;
        rest = after;
    }
    Ok((words, rest))
}

// The words of an array, after its sign.
#[tactic(auto, unfolding(crate::specs::Reading::array_at))]
fn array_of(alloc: Global, bytes: &[u8]) -> Result<(Vec<Word>, &[u8]), Stop>
    ensures { Gives (λ x. (x.0.items, x.1.now)) result (array_at bytes.now) }
{
    let (count, rest) = number_of(COMMAND_WORDS, Fault::ManyWords, bytes)?;
    words_of(alloc, count, rest)
}

// The words of a line up to LF.
fn line_of(alloc: Global, bytes: &[u8]) -> Result<(Vec<Word>, &[u8]), Stop>
    ensures { Gives (λ x. (x.0.items, x.1.now)) result (line_words [] bytes.now) }
{
    let mut words = Vec::new(alloc);
    let mut word = Vec::new(alloc);
    let mut rest = bytes;
    while let [byte, after @ ..] = rest {
        match *byte {
            10 => {
                if !word.is_empty() {
                    words.push(Word::new(word))?;
                }
                return Ok((words, after));
            }
            9 | 13 | 32 => {
                if !word.is_empty() {
                    words.push(Word::new(word))?;
                    word = Vec::new(alloc);
                }
            }
            0 | 34 | 39 => return Err(Stop::Bad(Fault::Spelling)),
            other => word.push(other)?,
        }
        rest = after;
    }
    Err(Stop::Partial)
}

// The words of a line, if they are few enough.
#[tactic(auto, unfolding(crate::specs::Reading::line_at))]
fn few_of(alloc: Global, bytes: &[u8]) -> Result<(Vec<Word>, &[u8]), Stop>
    ensures { Gives (λ x. (x.0.items, x.1.now)) result (line_at bytes.now) }
{
    let (words, rest) = line_of(alloc, bytes)?;
    if words.len() > COMMAND_WORDS {
        return Err(Stop::Bad(Fault::ManyWords));
    }
    Ok((words, rest))
}

// An array or a line, however long, and the bytes after it.
fn any_of(alloc: Global, bytes: &[u8]) -> Result<(Vec<Word>, &[u8]), Stop>
    ensures { Gives (λ x. (x.0.items, x.1.now)) result (any_at bytes.now) }
{
    match bytes {
        [] => Err(Stop::Partial),
        [42, rest @ ..] => array_of(alloc, rest),
        [_, ..] => few_of(alloc, bytes),
    }
}
