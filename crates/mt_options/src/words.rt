//! The two decimal numbers of a word `T:Q`.

ghost use Rattle.std.specs.{Prelude.{◌≡◌, ◌≤◌, length}, Option.option_map, List.prefix_len};
ghost use Rattle.mt_options.specs.Words.{number_of, parted, is_no_colon};

/// A decimal number that fits a u32: digits alone, at least one.
#[tactic(auto, using(crate::proofs::WordLemmas::digits_grow), unfolding(crate::specs::Words::number_of))]
pub(crate) fn number(word: &[u8]) -> Option<u32>
    ensures { result ≡ number_of word.now }
{
    if word.is_empty() {
        return None;
    }
    let mut value = 0;
    for byte in word {
        if !byte.is_ascii_digit() {
            return None;
        }
        let longer = u64::from(value) * 10 + u64::from(*byte - b'0');
        if longer > u64::from(u32::MAX) {
            return None;
        }
        value = longer as u32;
    }
    Some(value)
}

/// What stands before the first colon, and what behind it.
#[tactic(auto, unfolding(crate::specs::Words::parted))]
pub(crate) fn parts(word: &[u8]) -> Option<(&[u8], &[u8])>
    ensures { option_map (λ r. (r.0.now, r.1.now)) result ≡ parted word.now }
{
    let place = first_colon(word);
    if place == word.len() {
        return None;
    }
    let (tenant, _) = word.split_at(place);
    let (_, quota) = word.split_at(place + 1);
    Some((tenant, quota))
}

// The place of the first colon, or the length.
#[tactic(auto, using(crate::proofs::WordLemmas::colon_rules))]
fn first_colon(word: &[u8]) -> usize
    ensures place { result ≡ prefix_len is_no_colon word.now }
    ensures within { result ≤ length word.now }
{
    for (place, byte) in word.iter().enumerate() {
        if *byte == b':' {
            return place;
        }
    }
    word.len()
}
