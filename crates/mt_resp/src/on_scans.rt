//! What commands ask that show many keys.

ghost use Rattle.std.specs.{Prelude.{◌≡◌, ◌-◌, ◌^◌, IfOk}, Option.option_map};
ghost use Rattle.mt_resp.specs.{Arguments.number_of, ScanCommands.{count_of, scan_of, scan_asked, way_of, range_of, range_asked}};

use crate::arguments::number_in;
use crate::asked::{Asked, RangeWay, failed};
use crate::making::{copy_of, key_in};
use crate::names::is_named;
use crate::told::Failure;
use crate::word::Word;
use std::alloc::{AllocError, Global};

/// SCAN with its options: MATCH and COUNT, each once.
pub fn scan_asked(alloc: Global, cursor: &Word, options: &[Word]) -> Result<Asked, AllocError>
    ensures { IfOk result (λ asked. asked ≡ scan_asked (number_of (2 ^ 64 - 1) cursor.now) options.now) }
{
    let cursor = number_in(u64::MAX, cursor.as_bytes());
    match options {
        [] => scan_of(alloc, cursor, None, Some(10)),
        [option, pattern] if is_named(option.as_bytes(), b"match") => {
            scan_of(alloc, cursor, Some(pattern), Some(10))
        }
        [option, count] if is_named(option.as_bytes(), b"count") => {
            scan_of(alloc, cursor, None, count_in(count))
        }
        [option, pattern, other, count]
            if is_named(option.as_bytes(), b"match") && is_named(other.as_bytes(), b"count") => {
            scan_of(alloc, cursor, Some(pattern), count_in(count))
        }
        [option, count, other, pattern]
            if is_named(option.as_bytes(), b"count") && is_named(other.as_bytes(), b"match") => {
            scan_of(alloc, cursor, Some(pattern), count_in(count))
        }
        _ => failed(Failure::Syntax),
    }
}

// A number of keys.
fn count_in(word: &Word) -> Option<u64>
    ensures { result ≡ count_of word.now }
{
    number_in(i64::MAX as u64, word.as_bytes())
}

// A SCAN from a cursor on, of keys like a pattern, if there is one.
fn scan_of(
    alloc: Global,
    cursor: Option<u64>,
    pattern: Option<&Word>,
    count: Option<u64>,
) -> Result<Asked, AllocError>
    ensures { IfOk result (λ asked. asked ≡ scan_of cursor (option_map (λ w. w.now) pattern.entry) count) }
{
    let Some(cursor) = cursor else {
        return failed(Failure::NoCursor);
    };
    let Some(count) = count else {
        return failed(Failure::NoInteger);
    };
    let pattern = match pattern {
        None => None,
        Some(pattern) => Some(copy_of(alloc, pattern.as_bytes())?),
    };
    Ok(Asked::Scan {
        cursor,
        pattern,
        count,
    })
}

/// RANGE with its options: AFTER or PREFIX, and STAMPS.
pub fn range_asked(
    alloc: Global,
    from: &Word,
    count: &Word,
    options: &[Word],
) -> Result<Asked, AllocError>
    ensures { IfOk result (λ asked. asked ≡ range_asked from.now (count_of count.now) options.now) }
{
    let count = count_in(count);
    match options {
        [] => range_of(alloc, from, count, Some(RangeWay::From), false),
        [option] if is_named(option.as_bytes(), b"stamps") => {
            range_of(alloc, from, count, Some(RangeWay::From), true)
        }
        [option] => range_of(alloc, from, count, way_of(option.as_bytes()), false),
        [option, other] if is_named(other.as_bytes(), b"stamps") => {
            range_of(alloc, from, count, way_of(option.as_bytes()), true)
        }
        _ => failed(Failure::Syntax),
    }
}

// A RANGE from a key on, or after it, or of those that begin with it.
fn way_of(option: &[u8]) -> Option<RangeWay>
    ensures { result ≡ way_of option.now }
{
    match option {
        option if is_named(option, b"after") => Some(RangeWay::After),
        option if is_named(option, b"prefix") => Some(RangeWay::Prefix),
        _ => None,
    }
}

fn range_of(
    alloc: Global,
    from: &Word,
    count: Option<u64>,
    way: Option<RangeWay>,
    stamps: bool,
) -> Result<Asked, AllocError>
    ensures { IfOk result (λ asked. asked ≡ range_of from.now count way stamps) }
{
    let Some(count) = count else {
        return failed(Failure::NoInteger);
    };
    let Some(way) = way else {
        return failed(Failure::Syntax);
    };
    Ok(Asked::Range {
        from: key_in(alloc, from)?,
        way,
        count,
        stamps,
    })
}
