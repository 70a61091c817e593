//! Patterns of keys, as the protocol's own server has them. A match takes at most as many steps as the pattern's length times the
//! text's.

ghost use Rattle.std.specs.{Prelude.{◌≡◌, ◌≤◌, ◌∷◌, length, false, IfSome, IfNone}, Option.option_map};
ghost use Rattle.mt_resp.specs.{Patterns.{is_between, class_at, left_if, after_item, is_like}, Matching.{class_item, at_star, Stops, IsTaken}};

/// Whether a text is like a pattern.
pub fn is_like(pattern: &[u8], text: &[u8]) -> bool
    ensures { result ≡ is_like pattern.now text.now }
{
    let Some((mut others, mut rest)) = taken_part(pattern, text) else {
        return false;
    };
    while let [_, after @ ..] = others {
        match found_part(after, rest) {
            Some((next, left)) => {
                others = next;
                rest = left;
            }
            None => return false,
        }
    }
    true
}

// What is left of a pattern and of a text after the items up to a star, or to the end of both.
fn taken_part<'a>(pattern: &'a [u8], text: &'a [u8]) -> Option<(&'a [u8], &'a [u8])>
    ensures taken { IfSome result (λ x. IsTaken pattern.now text.now x.0.now x.1.now) }
    ensures stops { IfSome result (λ x. Stops x.0.now x.1.now) }
    ensures none { IfNone result (is_like pattern.now text.now ≡ false) }
{
    let mut others = pattern;
    let mut rest = text;
    while let [byte, after @ ..] = rest {
        if at_star(others) {
            return Some((others, rest));
        }
        others = after_item(others, *byte)?;
        rest = after;
    }
    if others.is_empty() || at_star(others) {
        return Some((others, rest));
    }
    None
}

fn at_star(pattern: &[u8]) -> bool
    ensures { result ≡ at_star pattern.now }
{
    matches!(pattern, [42, ..])
}

// The same at the first place of the text at which the items fit.
fn found_part<'a>(pattern: &'a [u8], text: &'a [u8]) -> Option<(&'a [u8], &'a [u8])>
    ensures same { IfSome result (λ x. is_like (42 ∷ pattern.now) text.now ≡ is_like x.0.now x.1.now) }
    ensures stops { IfSome result (λ x. Stops x.0.now x.1.now) }
    ensures shorter { IfSome result (λ x. length x.0.now ≤ length pattern.now) }
    ensures none { IfNone result (is_like (42 ∷ pattern.now) text.now ≡ false) }
{
    let mut rest = text;
    while let [_, after @ ..] = rest {
        if let Some(found) = taken_part(pattern, rest) {
            return Some(found);
        }
        rest = after;
    }
    taken_part(pattern, rest)
}

// What is left of a pattern that begins with no star, if its first item takes the byte.
fn after_item(pattern: &[u8], byte: u8) -> Option<&[u8]>
    ensures { option_map (λ x. x.now) result ≡ after_item pattern.now byte }
{
    match pattern {
        [] => None,
        [63, rest @ ..] => Some(rest),
        [91, 94, class @ ..] => {
            let (found, rest) = class_at(class, byte);
            left_if(!found, rest)
        }
        [91, class @ ..] => {
            let (found, rest) = class_at(class, byte);
            left_if(found, rest)
        }
        [92, own, rest @ ..] => left_if(byte == *own, rest),
        [own, rest @ ..] => left_if(byte == *own, rest),
    }
}

fn left_if(taken: bool, rest: &[u8]) -> Option<&[u8]>
    ensures { option_map (λ x. x.now) result ≡ left_if taken rest.now }
{
    if taken { Some(rest) } else { None }
}

// Whether a class has a byte, and the pattern after the class.
fn class_at(class: &[u8], byte: u8) -> (bool, &[u8])
    ensures { (result.0, result.1.now) ≡ class_at byte false class.now }
{
    let mut found = false;
    let mut rest = class;
    while let [own, after @ ..] = rest {
        if *own == 93 {
            return (found, after);
        }
        let (taken, after) = class_item(*own, after, byte);
        found = found || taken;
        rest = after;
    }
    (found, rest)
}

// Whether a byte is one that the next item of a class has, and the class after the item.
fn class_item(own: u8, after: &[u8], byte: u8) -> (bool, &[u8])
    ensures { (result.0, result.1.now) ≡ class_item own after.now byte }
{
    match after {
        [escaped, rest @ ..] if own == 92 => (byte == *escaped, rest),
        [45, end, rest @ ..] => (is_between(own, *end, byte), rest),
        _ => (byte == own, after),
    }
}

// Whether a byte is one of a range, whichever end comes first.
fn is_between(low: u8, high: u8, byte: u8) -> bool
    ensures { result ≡ is_between low high byte }
{
    low <= byte && byte <= high || high <= byte && byte <= low
}
