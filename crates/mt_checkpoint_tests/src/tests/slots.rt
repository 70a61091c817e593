//! Checkpoints on disks in memory, that the tests share.

ghost use Rattle.std.specs.{Prelude.{◌↔◌, IsTrue}, List.All};
ghost use Rattle.mt_rows.specs.Commands.{IsKey};

use super::*;
use mt_checkpoint::{Checkpoint, ReadFault, Writer, create_slot};
use mt_disk::Disk;

/// A whole checkpoint: from step 6 up to step 9, with tenant 7's key 6b, column 76, stamp 5, alone.
pub const VECTOR: [u8; 44] = [
    1, 0x4d, 0x54, 0x43, 0x4b, 0x50, 2, 0, 0, 0, 0, 0, 0, 0, 6, 1, 0, 0, 0, 7, 0, 1, 0x6b, 0, 0, 0,
    0, 0, 0, 0, 5, 1, 0, 1, 0x76, 2, 0, 0, 0, 0, 0, 0, 0, 9,
];

/// The same in format 1, which tells no stamp.
pub const OLD_VECTOR: [u8; 36] = [
    1, 0x4d, 0x54, 0x43, 0x4b, 0x50, 1, 0, 0, 0, 0, 0, 0, 0, 6, 1, 0, 0, 0, 7, 0, 1, 0x6b, 1, 0, 1,
    0x76, 2, 0, 0, 0, 0, 0, 0, 0, 9,
];

/// What a slot is read as.
#[derive(Clone, Copy, Debug, PartialEq, Eq)]
pub enum Told {
    /// A checkpoint: its steps, and how many pairs it has.
    Walk(u64, u64, usize),
    None,
    Device,
    Memory,
}

/// What is told of what was read.
pub fn told_of(read: &Result<Option<Checkpoint>, ReadFault>) -> Told {
    match read {
        Ok(Some(checkpoint)) => {
            Told::Walk(checkpoint.first, checkpoint.last, checkpoint.pairs.len())
        }
        Ok(None) => Told::None,
        Err(ReadFault::Device) => Told::Device,
        Err(ReadFault::Memory) => Told::Memory,
    }
}

/// What a file with these bytes is read as.
pub fn read_as(alloc: Global, image: &[u8]) -> Result<Told, AllocError> {
    let mut disk = MemDisk::with_image(alloc, image.to_vec(alloc)?, Vec::new(alloc), None)?;
    Ok(told_of(&read_valid(alloc, &mut disk)))
}

/// The stamp of the only pair of a file's checkpoint. None if it has no checkpoint of one pair.
pub fn stamp_in(alloc: Global, image: &[u8]) -> Result<Option<u64>, AllocError> {
    let mut disk = MemDisk::with_image(alloc, image.to_vec(alloc)?, Vec::new(alloc), None)?;
    let Ok(Some(checkpoint)) = read_valid(alloc, &mut disk) else {
        return Ok(None);
    };
    match checkpoint.pairs.as_slice() {
        [pair] => Ok(Some(pair.row.stamp)),
        _ => Ok(None),
    }
}

// A pair of this tenant, with a key of one byte, a column of so many, and stamp 5.
fn pair(alloc: Global, tenant: u32, key: u8, size: usize) -> Result<TenantPair, AllocError> {
    let mut columns = Vec::new(alloc);
    columns.push(Column::new(alloc, Vec::from_elem(alloc, 0x76, size)?)?)?;
    if !Row::fits(&columns) {
        return Err(AllocError);
    }
    let row = StampedRow {
        stamp: 5,
        row: Row::new(alloc, columns)?,
    };
    let mut bytes = Vec::new(alloc);
    bytes.push(key)?;
    let key = Key::new(bytes);
    Ok(TenantPair { tenant, key, row })
}

/// Pairs of these tenants and keys, with columns of so many bytes.
pub fn pairs_of(
    alloc: Global,
    keys: &[(u32, u8)],
    size: usize,
) -> Result<Vec<TenantPair>, AllocError> {
    let mut pairs = Vec::new(alloc);
    for key in keys {
        pairs.push(pair(alloc, key.0, key.1, size)?)?;
    }
    Ok(pairs)
}

/// Whether the keys of pairs are user keys, as a writer asks for them.
pub fn keys_fit(pairs: &[TenantPair]) -> bool
    ensures { IsTrue result ↔ All (λ p. IsKey p.key) pairs.now }
{
    pairs
        .iter()
        .all(|pair| pair.key.as_bytes().len() <= USER_KEY_BYTES)
}

/// Writes a checkpoint from one step up to another, of these tenants' keys with columns of so many bytes. The
/// disk comes back, and whether all went well.
pub fn write<D: Disk + Drop>(
    alloc: Global,
    disk: D,
    steps: (u64, u64),
    keys: &[(u32, u8)],
    size: usize,
) -> Result<(D, bool), AllocError> {
    let pairs = pairs_of(alloc, keys, size)?;
    if !keys_fit(&pairs) {
        return Err(AllocError);
    }
    let writer = match Writer::begin(disk, steps.0) {
        Ok(writer) => writer,
        Err((_, disk)) => return Ok((disk, false)),
    };
    let writer = match writer.add(alloc, &pairs) {
        Ok(writer) => writer,
        Err(fault) => return Ok((fault.disk, false)),
    };
    match writer.end(alloc, steps.1) {
        Ok((disk, _)) => Ok((disk, true)),
        Err(fault) => Ok((fault.disk, false)),
    }
}

/// A slot on a disk that fails at these calls, and at all from one on. None if it was not made.
pub fn slot_with(
    alloc: Global,
    fails: &[u64],
    stop: Option<u64>,
) -> Result<Option<MemDisk>, AllocError> {
    let mut disk = MemDisk::new(alloc, fails.to_vec(alloc)?, stop);
    let is_made = create_slot(&mut disk).is_ok();
    Ok(Some(disk).filter(|_| is_made))
}

/// What a slot is read as after such a checkpoint was written in it, or was refused.
pub fn written(
    alloc: Global,
    steps: (u64, u64),
    keys: &[(u32, u8)],
    size: usize,
) -> Result<(MemDisk, Told), AllocError> {
    let Some(disk) = slot_with(alloc, &[], None)? else {
        return Err(AllocError);
    };
    let (mut disk, _) = write(alloc, disk, steps, keys, size)?;
    let told = told_of(&read_valid(alloc, &mut disk));
    Ok((disk, told))
}
