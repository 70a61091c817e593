//! Arguments of commands: numbers, each spelled in one way, and fields.

ghost use Rattle.std.specs.Prelude.{◌≡◌, ◌≤◌, ◌<◌, IfSome};
ghost use Rattle.mt_resp.specs.Arguments.{number_of, amount_of, turned, column_of, are_fields, digits_of, begins_path};

use crate::word::Word;

/// What is added to a number.
#[derive(Clone, Copy, Debug)]
pub enum Amount {
    Up(u64),
    Down(u64),
}

impl Amount {
    /// The other way.
    pub fn turned(self) -> Amount
        ensures { result ≡ turned self }
    {
        match self {
            Amount::Up(size) => Amount::Down(size),
            Amount::Down(size) => Amount::Up(size),
        }
    }
}

/// The number of at most `most` that a word is, with no zero before it.
pub fn number_in(most: u64, word: &[u8]) -> Option<u64>
    requires { 9 ≤ most }
    ensures value { result ≡ number_of most word.now }
    ensures small { IfSome result (λ n. n ≤ most) }
{
    match word {
        [48] => Some(0),
        [digit @ 49..=57, rest @ ..] => digits_in(most, u64::from(*digit - 48), rest),
        _ => None,
    }
}

// The number that has begun so, with its other digits.
fn digits_in(most: u64, begun: u64, digits: &[u8]) -> Option<u64>
    requires { begun ≤ most }
    ensures value { result ≡ digits_of most begun digits.now }
    ensures small { IfSome result (λ n. n ≤ most) }
{
    let mut value = begun;
    for digit in digits {
        if *digit < 48 || *digit > 57 {
            return None;
        }
        let next = u128::from(value) * 10 + u128::from(*digit - 48);
        if next > u128::from(most) {
            return None;
        }
        value = next as u64;
    }
    Some(value)
}

/// The amount that a word is: a number below 2^63, or a minus and one that isn't 0.
pub fn amount_in(word: &[u8]) -> Option<Amount>
    ensures { result ≡ amount_of word.now }
{
    match word {
        [45, digits @ ..] => match number_in(i64::MAX as u64, digits) {
            Some(0) | None => None,
            Some(size) => Some(Amount::Down(size)),
        },
        _ => Some(Amount::Up(number_in(i64::MAX as u64, word)?)),
    }
}

/// The index of a column that a field is.
pub fn column_in(word: &[u8]) -> Option<u8>
    ensures value { result ≡ column_of word.now }
    ensures small { IfSome result (λ index. index < 16) }
{
    match word {
        [digit @ 48..=57] => Some(*digit - 48),
        [49, digit @ 48..=53] => Some(*digit - 38),
        _ => None,
    }
}

/// Whether each first word of a pair is a field.
pub fn are_fields(pairs: &[Word]) -> bool
    ensures { result ≡ are_fields pairs.now }
{
    let mut rest = pairs;
    while let [field, _, after @ ..] = rest {
        if column_in(field.as_bytes()).is_none() {
            return false;
        }
        rest = after;
    }
    true
}

/// Whether a word begins with a slash, as a path does.
pub fn begins_path(word: &[u8]) -> bool
    ensures { result ≡ begins_path word.now }
{
    matches!(word, [47, ..])
}
