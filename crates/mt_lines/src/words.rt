//! The words of a line, and what a word can mean.
//!
//! Each reader answers exactly what `specs/Words.antt` says the word means, `BadLine` where it means
//! nothing, or `Memory`.

ghost use Rattle.std.specs.{Prelude.{◌≡◌, ◌<◌, ◌≤◌, length, IfOk, IfErr}, List.prefix_len};
ghost use Rattle.mt_lines.specs.Words.{Means, words_of, next, no_more, is_text, number_up_to, name_word, hex_of, key_word, parted, column_word, is_space, is_of_word, is_no_sign};

use crate::fault::LineFault;
use hex::FromHexError;
use mt_rows::{Column, Key};
use std::alloc::Global;

/// The greatest name of an operation.
pub const MAX_NAME: u32 = 999_999;

/// The first word of some bytes, and the bytes behind it.
#[tactic(auto, using(crate::proofs::WordLemmas::word_rules), unfolding(crate::specs::Words::words_of))]
pub fn next_word(bytes: &[u8]) -> Result<(&[u8], &[u8]), LineFault>
    ensures word { Means (λ r. (r.0.now, words_of r.1.now)) result (next (words_of bytes.now)) }
    ensures shorter { IfOk result (λ r. length r.1.now < length bytes.now) }
    ensures no_memory { IfErr result (λ e. e ≡ LineFault.BadLine) }
{
    let start = spaces_before(bytes);
    if start == bytes.len() {
        return Err(LineFault::BadLine);
    }
    let (_, from_word) = bytes.split_at(start);
    let end = first_space(from_word);
    Ok(from_word.split_at(end))
}

// How many spaces stand at the front.
fn spaces_before(bytes: &[u8]) -> usize
    ensures spaces { result ≡ prefix_len is_space bytes.now }
    ensures within { result ≤ length bytes.now }
{
    bytes
        .iter()
        .position(|byte| *byte != b' ')
        .unwrap_or(bytes.len())
}

// The place of the first space, or the length.
fn first_space(bytes: &[u8]) -> usize
    ensures place { result ≡ prefix_len is_of_word bytes.now }
    ensures within { result ≤ length bytes.now }
{
    bytes
        .iter()
        .position(|byte| *byte == b' ')
        .unwrap_or(bytes.len())
}

/// That no word is left.
pub fn end_of_words(bytes: &[u8]) -> Result<(), LineFault>
    ensures { Means (λ r. r) result (no_more (words_of bytes.now)) }
{
    match next_word(bytes) {
        Ok(_) => Err(LineFault::BadLine),
        Err(_) => Ok(()),
    }
}

/// Whether a word is this text.
pub fn is_text(word: &[u8], text: &str) -> bool
    ensures { result ≡ is_text word.now text.now }
{
    word == text.as_bytes()
}

/// A decimal number of at most `most`.
pub fn number(word: &[u8], most: u32) -> Result<u32, LineFault>
    ensures number { Means (λ n. n) result (number_up_to most word.now) }
    ensures most { IfOk result (λ n. n ≤ most) }
{
    let number = long_number(word, u64::from(most))?;
    Ok(number as u32)
}

/// The same, of a number that may have 64 bits.
#[tactic(auto, using(crate::proofs::WordLemmas::digits_grow), unfolding(crate::specs::Words::number_up_to))]
pub fn long_number(word: &[u8], most: u64) -> Result<u64, LineFault>
    ensures number { Means (λ n. n) result (number_up_to most word.now) }
    ensures most { IfOk result (λ n. n ≤ most) }
{
    if word.is_empty() {
        return Err(LineFault::BadLine);
    }
    let mut value = 0;
    for byte in word {
        if !byte.is_ascii_digit() {
            return Err(LineFault::BadLine);
        }
        let longer = u128::from(value) * 10 + u128::from(*byte - b'0');
        if longer > u128::from(most) {
            return Err(LineFault::BadLine);
        }
        value = longer as u64;
    }
    Ok(value)
}

/// A name of an operation.
#[tactic(auto, unfolding(crate::specs::Words::name_word))]
pub fn name(word: &[u8]) -> Result<u32, LineFault>
    ensures { Means (λ n. n) result (name_word word.now) }
{
    let name = number(word, MAX_NAME)?;
    if name == 0 {
        return Err(LineFault::BadLine);
    }
    Ok(name)
}

/// The bytes that pairs of hexadecimal digits write.
#[tactic(auto, unfolding(crate::specs::Words::hex_of))]
pub fn hex_bytes(alloc: Global, text: &[u8]) -> Result<Vec<u8>, LineFault>
    ensures { Means (λ bytes. bytes.items) result (hex_of text.now) }
{
    match hex::decode(alloc, text) {
        Ok(bytes) => Ok(bytes),
        Err(FromHexError::OutOfMemory) => Err(LineFault::Memory),
        Err(_) => Err(LineFault::BadLine),
    }
}

/// A key: pairs of hexadecimal digits, or `-` for the empty one.
#[tactic(auto, unfolding(crate::specs::Words::key_word))]
pub fn key(alloc: Global, word: &[u8]) -> Result<Key, LineFault>
    ensures { Means (λ key. key) result (key_word word.now) }
{
    if is_text(word, "-") {
        return Ok(Key::new(Vec::new(alloc)));
    }
    Ok(Key::new(hex_bytes(alloc, word)?))
}

/// A column of a put.
#[tactic(auto, unfolding(crate::specs::Words::column_word))]
pub fn column(alloc: Global, word: &[u8]) -> Result<(u8, Column), LineFault>
    ensures { Means (λ column. column) result (column_word word.now) }
{
    let (index, text) = parts(word)?;
    let index = number(index, 255)? as u8;
    let bytes = hex_bytes(alloc, text)?;
    Ok((index, Column::new(alloc, bytes)?))
}

// What stands before the first `=`, and what behind it.
#[tactic(auto, unfolding(crate::specs::Words::parted))]
fn parts(word: &[u8]) -> Result<(&[u8], &[u8]), LineFault>
    ensures { Means (λ r. (r.0.now, r.1.now)) result (parted word.now) }
{
    let place = first_sign(word);
    if place == word.len() {
        return Err(LineFault::BadLine);
    }
    let (index, _) = word.split_at(place);
    let (_, text) = word.split_at(place + 1);
    Ok((index, text))
}

// The place of the first `=`, or the length.
fn first_sign(word: &[u8]) -> usize
    ensures place { result ≡ prefix_len is_no_sign word.now }
    ensures within { result ≤ length word.now }
{
    word.iter()
        .position(|byte| *byte == b'=')
        .unwrap_or(word.len())
}
