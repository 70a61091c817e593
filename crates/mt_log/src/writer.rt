//! A batch as the bytes that are appended: its length, its body, and the next gate, closed.

ghost use Rattle.std.specs.{Prelude.{◌≡◌, ◌≤◌, ◌<◌, ◌*◌, ◌^◌, ◌++◌, ◌∷◌, [], length, IfOk, OnOk}, List.{flat_map, All}};
ghost use Rattle.mt_rows.specs.{Commands.IsKey, Limits.AreRecords};
ghost use Rattle.mt_batches.specs.Batches.{IsRecord, IsWrite};
ghost use Rattle.mt_log.specs.{declared.batch.LogBatch.LogBatch, Format.{record_bytes, body, told_body, write_bytes}, Contents.IsBatch};

use mt_fields::{put_u32, put_u64};
use mt_row_fields::{change_len, put_change, put_key, put_row, row_len};
use mt_rows::{Batch, Record, Write};
use std::alloc::{AllocError, Global};

/// A body has fewer bytes, and a batch fewer records.
pub(crate) const BODY_LIMIT: usize = 1 << 32;

/// The bytes of a batch of records before its records: its kind, two steps and a count.
pub(crate) const RECORDS_HEAD: usize = 21;

// How many bytes are told of what became of a key.
fn write_len(write: &Write) -> usize
    ensures exact { result ≡ length (write_bytes write.now) }
    ensures few { result ≤ 16434 }
    ensures limits { IsWrite write.now }
{
    match write {
        Write::Removed => 1,
        Write::Whole(row) => 1 + row_len(row),
        Write::Changed(change) => 1 + change_len(change),
    }
}

// How many bytes a record is spelled with.
fn record_len(change: &Record) -> usize
    requires { IsKey change.now.key }
    ensures exact { result ≡ length (record_bytes change.now) }
    ensures few { result ≤ 16699 }
    ensures limits { IsRecord change.now }
{
    let (_stamp, _tenant) = (change.stamp, change.tenant);
    14 + change.key.as_bytes().len() + write_len(&change.write)
}

// How many bytes records are spelled with.
pub(crate) fn records_len(records: &[Record]) -> usize
    requires few { length records.now < 2 ^ 32 }
    requires limits { AreRecords records.now }
    ensures exact { result ≡ length (flat_map record_bytes records.now) }
    ensures small { result < 2 ^ 47 }
    ensures each { All IsRecord records.now }
{
    let mut len = 0;
    for record in records {
        len += record_len(record);
    }
    len
}

// What became of a key.
fn put_write(out: &mut Vec<u8>, write: &Write) -> Result<(), AllocError>
    ensures { OnOk result (out.new.items ≡ out.old.items ++ write_bytes write.now) }
{
    match write {
        Write::Removed => {
            out.push(0)?;
            Ok(())
        }
        Write::Whole(row) => {
            out.push(1)?;
            put_row(out, row)
        }
        Write::Changed(change) => {
            out.push(2)?;
            put_change(out, change)
        }
    }
}

// A record.
fn put_record(out: &mut Vec<u8>, change: &Record) -> Result<(), AllocError>
    requires { IsKey change.now.key }
    ensures { OnOk result (out.new.items ≡ out.old.items ++ record_bytes change.now) }
{
    put_u64(out, change.stamp)?;
    put_u32(out, change.tenant)?;
    put_key(out, &change.key)?;
    put_write(out, &change.write)
}

// Records, one after the other.
fn put_records(out: &mut Vec<u8>, records: &[Record]) -> Result<(), AllocError>
    requires { AreRecords records.now }
    ensures { OnOk result (out.new.items ≡ out.old.items ++ flat_map record_bytes records.now) }
{
    for record in records {
        put_record(out, record)?;
    }
    Ok(())
}

// The body of a batch of records.
fn put_body(out: &mut Vec<u8>, batch: &Batch) -> Result<(), AllocError>
    requires { length batch.now.records < 2 ^ 32 }
    ensures { OnOk result (out.new.items ≡ out.old.items ++ body (LogBatch.Records batch.now)) }
{
    let records = batch.records.as_slice();
    out.push(2)?;
    put_u64(out, batch.from)?;
    put_u64(out, batch.to)?;
    put_u32(out, records.len() as u32)?;
    put_records(out, records)
}

/// What is appended for a batch of records.
pub(crate) fn batch_block(alloc: Global, batch: &Batch) -> Result<Vec<u8>, AllocError>
    requires { IsBatch batch.now }
    ensures { IfOk result (λ block. block.items ≡ told_body (body (LogBatch.Records batch.now)) ++ 0 ∷ []) }
{
    let len = RECORDS_HEAD + records_len(batch.records.as_slice());
    let mut block = Vec::new(alloc);
    put_u32(&mut block, len as u32)?;
    put_body(&mut block, batch)?;
    block.push(0)?;
    Ok(block)
}

/// What is appended for a resume batch.
pub(crate) fn resume_block(
    alloc: Global,
    from: u64,
    to: u64,
    kept: u64,
) -> Result<Vec<u8>, AllocError>
    ensures { IfOk result (λ block. block.items ≡ told_body (body (LogBatch.Resume from to kept)) ++ 0 ∷ []) }
{
    let mut block = Vec::new(alloc);
    block.extend_from_slice(&[0, 0, 0, 25, 1])?;
    put_u64(&mut block, from)?;
    put_u64(&mut block, to)?;
    put_u64(&mut block, kept)?;
    block.push(0)?;
    Ok(block)
}
