//! How lists of keys and of pairs are written. Each function leaves what was written before, also if it fails.

ghost use Rattle.std.specs.{Prelude.{◌≡◌, ◌≤◌, ◌++◌, length, take, OnOk}, List.{filter, flat_map, count_by}};
ghost use Rattle.mt_resp.specs.{Grammar.bulk, Lists.{is_matched, is_begun, keys_text, scan_text, items, pair_text, range_text}};

use crate::patterns::is_like;
use crate::word::Word;
use crate::writing::{write_bulk, write_decimal, write_number, write_string};
use mt_rows::{Key, PairList, StampedRow};
use std::alloc::AllocError;

/// The cursor to go on from, and the keys that are like the pattern.
pub fn write_scan(
    cursor: u64,
    pairs: &PairList,
    pattern: &Option<Word>,
    out: &mut Vec<u8>,
) -> Result<(), AllocError>
    ensures ok { OnOk result (out.new.items ≡ out.old.items ++ scan_text cursor pairs.now pattern.now) }
    ensures front { take (length out.old.items) out.new.items ≡ out.old.items }
{
    out.extend_from_slice(b"*2\r\n")?;
    write_decimal(cursor, out)?;
    write_matched(pairs.as_slice(), pattern, out)
}

// A list of the keys that are like the pattern.
fn write_matched(
    pairs: &[(Key, StampedRow)],
    pattern: &Option<Word>,
    out: &mut Vec<u8>,
) -> Result<(), AllocError>
    ensures ok { OnOk result (out.new.items ≡ out.old.items ++ keys_text pattern.now pairs.now) }
    ensures front { take (length out.old.items) out.new.items ≡ out.old.items }
{
    write_number(b'*', count_matched(pairs, pattern) as u64, out)?;
    write_keys(pairs, pattern, out)
}

fn count_matched(pairs: &[(Key, StampedRow)], pattern: &Option<Word>) -> usize
    ensures { result ≡ count_by (is_matched pattern.now) pairs.now }
{
    pairs
        .iter()
        .filter(|pair| is_matched(pattern, pair))
        .count()
}

// The keys that are like the pattern.
fn write_keys(
    pairs: &[(Key, StampedRow)],
    pattern: &Option<Word>,
    out: &mut Vec<u8>,
) -> Result<(), AllocError>
    ensures ok { OnOk result (out.new.items ≡ out.old.items ++ flat_map (λ pair. bulk pair.0) (filter (is_matched pattern.now) pairs.now)) }
    ensures front { take (length out.old.items) out.new.items ≡ out.old.items }
{
    for pair in pairs {
        if is_matched(pattern, pair) {
            write_bulk(pair.0.as_bytes(), out)?;
        }
    }
    Ok(())
}

// Whether a key is like the pattern.
fn is_matched(pattern: &Option<Word>, pair: &(Key, StampedRow)) -> bool
    ensures { result ≡ is_matched pattern.now pair.now }
{
    match pattern {
        Some(pattern) => is_like(pattern.as_bytes(), pair.0.as_bytes()),
        None => true,
    }
}

/// The pairs whose keys begin with the prefix, with their stamps if so asked.
pub fn write_range(
    pairs: &PairList,
    prefix: &Option<Key>,
    stamps: bool,
    out: &mut Vec<u8>,
) -> Result<(), AllocError>
    ensures ok { OnOk result (out.new.items ≡ out.old.items ++ range_text pairs.now prefix.now stamps) }
    ensures front { take (length out.old.items) out.new.items ≡ out.old.items }
{
    let pairs = pairs.as_slice();
    write_number(b'*', items(pairs, prefix, stamps) as u64, out)?;
    write_pairs(pairs, prefix, stamps, out)
}

// How many items a list of pairs has.
fn items(pairs: &[(Key, StampedRow)], prefix: &Option<Key>, stamps: bool) -> usize
    requires { length pairs.now ≤ 64 }
    ensures { result ≡ items prefix.now stamps pairs.now }
{
    let count = count_begun(pairs, prefix);
    if stamps { count * 3 } else { count * 2 }
}

fn count_begun(pairs: &[(Key, StampedRow)], prefix: &Option<Key>) -> usize
    ensures { result ≡ count_by (is_begun prefix.now) pairs.now }
{
    pairs.iter().filter(|pair| is_begun(prefix, pair)).count()
}

// The same without how many there are.
fn write_pairs(
    pairs: &[(Key, StampedRow)],
    prefix: &Option<Key>,
    stamps: bool,
    out: &mut Vec<u8>,
) -> Result<(), AllocError>
    ensures ok { OnOk result (out.new.items ≡ out.old.items ++ flat_map (pair_text stamps) (filter (is_begun prefix.now) pairs.now)) }
    ensures front { take (length out.old.items) out.new.items ≡ out.old.items }
{
    for pair in pairs {
        if is_begun(prefix, pair) {
            write_pair(pair, stamps, out)?;
        }
    }
    Ok(())
}

// Whether a key begins with the prefix.
fn is_begun(prefix: &Option<Key>, pair: &(Key, StampedRow)) -> bool
    ensures { result ≡ is_begun prefix.now pair.now }
{
    match prefix {
        Some(prefix) => pair.0.as_bytes().starts_with(prefix.as_bytes()),
        None => true,
    }
}

// A key, its string, and its stamp if so asked.
fn write_pair(pair: &(Key, StampedRow), stamps: bool, out: &mut Vec<u8>) -> Result<(), AllocError>
    ensures ok { OnOk result (out.new.items ≡ out.old.items ++ pair_text stamps pair.now) }
    ensures front { take (length out.old.items) out.new.items ≡ out.old.items }
{
    write_bulk(pair.0.as_bytes(), out)?;
    write_string(pair.1.row.columns(), out)?;
    if stamps {
        return write_number(b':', pair.1.stamp, out);
    }
    Ok(())
}
