//! Records as a log's batch spells them.
//!
//! No list is made by a number that was read: it grows with the records that stand there.

ghost use Rattle.std.specs.Prelude.{◌≡◌};
ghost use Rattle.mt_fields.specs.Reading.{Gives, each_at};
ghost use Rattle.mt_log.specs.Reading.{record_at, write_at};

use crate::fault::DecodeFault;
use mt_fields::{u8_at, u32_at, u64_at};
use mt_row_fields::{change_of, key_of, row_of};
use mt_rows::{Record, Write};
use std::alloc::Global;

/// So many records, old ones or not, and the bytes after them.
pub(crate) fn record_list_of(
    alloc: Global,
    old: bool,
    count: usize,
    bytes: &[u8],
) -> Result<(Vec<Record>, &[u8]), DecodeFault>
    ensures { Gives (λ x. (x.0.items, x.1.now)) result (each_at (record_at old) count bytes.now) }
{
    let mut records = Vec::new(alloc);
    let mut rest = bytes;
    for _ in 0..count {
        let (record, after) = record_of(alloc, old, rest)?;
        records.push(record)?;
        rest = after;
    }
    Ok((records, rest))
}

// A record. An old one tells of no changed columns.
#[tactic(auto, unfolding(crate::specs::Reading::record_at))]
fn record_of(alloc: Global, old: bool, bytes: &[u8]) -> Result<(Record, &[u8]), DecodeFault>
    ensures { Gives (λ x. (x.0, x.1.now)) result (record_at old bytes.now) }
{
    let (stamp, rest) = u64_at(bytes)?;
    let (tenant, rest) = u32_at(rest)?;
    let (key, rest) = key_of(alloc, rest)?;
    let (write, rest) = write_of(alloc, old, rest)?;
    let record = Record {
        stamp,
        tenant,
        key,
        write,
    };
    Ok((record, rest))
}

// What became of a key.
#[tactic(auto, unfolding(crate::specs::Reading::write_at, crate::specs::Reading::write_kind_at, crate::specs::Reading::whole_at, crate::specs::Reading::changed_at))]
fn write_of(alloc: Global, old: bool, bytes: &[u8]) -> Result<(Write, &[u8]), DecodeFault>
    ensures { Gives (λ x. (x.0, x.1.now)) result (write_at old bytes.now) }
{
    let (kind, rest) = u8_at(bytes)?;
    match kind {
        0 => Ok((Write::Removed, rest)),
        1 => {
            let (row, rest) = row_of(alloc, rest)?;
            Ok((Write::Whole(row), rest))
        }
        2 if !old => {
            let (change, rest) = change_of(alloc, rest)?;
            Ok((Write::Changed(change), rest))
        }
        _ => Err(DecodeFault::Bad),
    }
}
