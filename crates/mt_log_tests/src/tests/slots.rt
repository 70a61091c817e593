//! Changes of one tenant, logs in memory that have them, and their recovery, as the tests share them.

ghost use Rattle.std.specs.{Prelude.{◌≡◌, ◌<◌, ◌≤◌, ◌↔◌, IfOk, IsTrue}, List.All};
ghost use Rattle.mt_rows.specs.Commands.{IsKey};
ghost use Rattle.mt_log.specs.Contents.{IsBatch};

use super::*;
use mt_checkpoint::{Writer, create_slot};
use mt_log::batch::MAX_STEP;
use mt_log::fits;
use mt_rows::key::USER_KEY_BYTES;
use mt_rows::{
    Batch, Change as ColumnChange, Column, Key, NamedColumns, Records, Row, StampedRow, TenantPair,
    Write,
};
use mt_store_logs::RecoveredStore;

/// A log in memory.
pub type Log = LogFile<MemDisk>;

/// The rows of the keys 0 to 7, 0 where there is none. A key is a byte, and so is a row.
pub type Rows = [u8; 8];

/// A change of tenant 7 that a worker placed: the row of a key after it, 0 where it was removed.
#[derive(Clone, Copy)]
pub struct Change {
    pub stamp: u64,
    pub worker: u8,
    pub key: u8,
    pub row: u8,
    /// Whether a row was there, so that a log tells the column that was put, and not the whole row.
    pub over: bool,
}

/// The first and the last step of a checkpoint.
pub type Steps = (u64, u64);

/// What a checkpoint has: its steps, its rows, and the stamps of these, 0 where there is none.
#[derive(Clone, Copy)]
pub struct Walk(pub Steps, pub Rows, pub [u64; 8]);

/// A put of a key where no row was.
pub fn put(stamp: u64, worker: u8, key: u8, row: u8) -> Change {
    Change {
        stamp,
        worker,
        key,
        row,
        over: false,
    }
}

/// A row of one column of one byte.
pub fn row_of(alloc: Global, byte: u8) -> Result<Row, AllocError> {
    let mut columns = Vec::new(alloc);
    columns.push(Column::from_slice(alloc, &[byte])?)?;
    if Row::fits(&columns) {
        Row::new(alloc, columns)
    } else {
        Err(AllocError)
    }
}

/// A put of this column alone, of one byte.
pub fn change_of(alloc: Global, byte: u8) -> Result<ColumnChange, AllocError> {
    let mut columns = Vec::new(alloc);
    columns.push((0, Column::from_slice(alloc, &[byte])?))?;
    let change = ColumnChange::new(NamedColumns::new(columns));
    change.map_err(|_| AllocError)
}

/// A key of one byte.
pub fn key_of(alloc: Global, byte: u8) -> Result<Key, AllocError>
    ensures { IfOk result IsKey }
{
    Ok(Key::new([byte].to_vec(alloc)?))
}

fn record_of(alloc: Global, change: Change) -> Result<Record, AllocError>
    ensures stamp { IfOk result (λ r. r.stamp ≡ change.stamp) }
    ensures key { IfOk result (λ r. IsKey r.key) }
{
    let key = key_of(alloc, change.key)?;
    let write = write_of(alloc, change)?;
    Ok(Record {
        stamp: change.stamp,
        tenant: 7,
        key,
        write,
    })
}

// What a log tells of a change.
fn write_of(alloc: Global, change: Change) -> Result<Write, AllocError> {
    match change.row {
        0 => Ok(Write::Removed),
        byte if change.over => Ok(Write::Changed(change_of(alloc, byte)?)),
        byte => Ok(Write::Whole(row_of(alloc, byte)?)),
    }
}

fn pair_of(alloc: Global, key: u8, row: u8, stamp: u64) -> Result<TenantPair, AllocError> {
    let key = key_of(alloc, key)?;
    let row = StampedRow {
        stamp,
        row: row_of(alloc, row)?,
    };
    Ok(TenantPair {
        tenant: 7,
        key,
        row,
    })
}

/// What a worker placed over step `from` and up to step `to`, of changes that rise.
pub fn batch_of(
    alloc: Global,
    history: &[Change],
    worker: u8,
    from: u64,
    to: u64,
) -> Result<Batch, Refusal>
    ensures { IfOk result IsBatch }
{
    let mut records = Vec::new(alloc);
    let mut last = from;
    for change in history {
        if change.worker != worker || change.stamp <= last || change.stamp > to {
            continue;
        }
        let record = record_of(alloc, *change)?;
        last = record.stamp;
        records.push(record)?;
    }
    let records = Records::new(records);
    let batch = Batch { from, to, records };
    if fits(&batch) {
        Ok(batch)
    } else {
        Err(Refusal::WrongTurn(from))
    }
}

/// A log without batches.
pub fn new_log(alloc: Global, worker: u8, logs: u8) -> Result<Log, Refusal>
    requires worker { worker < logs }
    requires logs { logs ≤ 64 }
{
    let disk = MemDisk::new(alloc, Vec::new(alloc), None);
    LogFile::create(disk, worker, logs).map_err(|_| Refusal::Device)
}

/// Appends to a log what its worker placed since its mark, up to a step.
pub fn append(
    alloc: Global,
    log: Log,
    history: &[Change],
    worker: u8,
    to: u64,
) -> Result<Log, Refusal> {
    let batch = batch_of(alloc, history, worker, log.mark(), to)?;
    log.append(alloc, batch).map_err(|_| Refusal::Device)
}

/// Appends the batch with which a recovery ends, where that may be asked for.
pub fn resume(alloc: Global, log: Log, kept: u64, to: u64) -> Result<Log, Refusal> {
    if log.mark() > to || kept > to || to > MAX_STEP {
        return Err(Refusal::NoStore);
    }
    log.append_resume(alloc, kept, to)
        .map_err(|_| Refusal::Device)
}

// Pairs of the keys that have a row.
fn pairs_in(alloc: Global, walk: Walk) -> Result<Vec<TenantPair>, AllocError> {
    let mut pairs = Vec::new(alloc);
    let Walk(_, rows, stamps) = walk;
    for key in 0..8 {
        let (row, stamp) = (rows[usize::from(key)], stamps[usize::from(key)]);
        if row != 0 {
            pairs.push(pair_of(alloc, key, row, stamp)?)?;
        }
    }
    Ok(pairs)
}

// Whether the keys of pairs are user keys, as a writer asks for them.
fn keys_fit(pairs: &[TenantPair]) -> bool
    ensures { IsTrue result ↔ All (λ p. IsKey p.key) pairs.now }
{
    pairs
        .iter()
        .all(|pair| pair.key.as_bytes().len() <= USER_KEY_BYTES)
}

// A slot in which a walk was written, if there is one.
fn slot_with(alloc: Global, walk: Option<Walk>) -> Result<MemDisk, Refusal> {
    let mut disk = MemDisk::new(alloc, Vec::new(alloc), None);
    let Some(walk) = walk else {
        return Ok(disk);
    };
    let (first, last) = walk.0;
    let pairs = pairs_in(alloc, walk)?;
    if !keys_fit(&pairs) || create_slot(&mut disk).is_err() {
        return Err(Refusal::NoStore);
    }
    let writer = Writer::begin(disk, first).map_err(|_| Refusal::Device)?;
    let writer = writer.add(alloc, &pairs).map_err(|_| Refusal::Memory)?;
    let (disk, _) = writer.end(alloc, last).map_err(|_| Refusal::Device)?;
    Ok(disk)
}

/// Recovers a store from the files of its logs, over slots in which these walks were written; and what its files hold then.
pub fn recover_over(
    alloc: Global,
    images: &[FileImages],
    walks: [Option<Walk>; 2],
    quota: u32,
) -> Result<(RecoveredStore, Vec<FileImages>), Refusal> {
    let mut tenants = Tenants::new(alloc);
    tenants.add(7, quota)?;
    let [first, second] = walks;
    let mut slots = StoreSlots::found(slot_with(alloc, first)?, slot_with(alloc, second)?);
    let mut logs = logs_with(alloc, images)?;
    match recover_store(alloc, &mut logs, &mut slots, &tenants, &mut NoWatch) {
        Ok(store) => Ok((store, images_of(alloc, &logs)?)),
        Err(e) => Err(e.refusal()),
    }
}

/// The rows that pairs have, if they are pairs of such keys and rows.
pub fn rows_of(pairs: &[TenantPair]) -> Option<Rows> {
    let mut rows = [0; 8];
    for pair in pairs {
        let ([key], [column]) = (pair.key.as_bytes(), pair.row.row.columns()) else {
            return None;
        };
        let row = rows.get_mut(usize::from(*key))?;
        if pair.tenant != 7 || *row != 0 {
            return None;
        }
        *row = *column.as_bytes().first()?;
    }
    Some(rows)
}

/// What a call gave, none where a disk failed.
pub fn unless_device<T: Drop>(answer: Result<T, Refusal>) -> Result<Option<T>, Refusal> {
    match answer {
        Ok(value) => Ok(Some(value)),
        Err(Refusal::Device) => Ok(None),
        Err(refusal) => Err(refusal),
    }
}
