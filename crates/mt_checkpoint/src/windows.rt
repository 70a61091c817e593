//! A checkpoint, read from its slot's disk a window at a time.
//!
//! Of the file no more is held than one window and its pairs, besides what is kept of the pairs.

ghost use Rattle.std.specs.Prelude.{◌≡◌, ◌≤◌, [], map, IsTrue, IfOk, IfSome};
ghost use Rattle.mt_checkpoint.specs.{Windows.{OfImage, IsWindow, IsHeadIn, AreEntries, TakesWindow, IsReadAfter, IsReadOpen, walk_from}, Slots.CountsReads};

use crate::checkpoint::may_end;
use crate::fault::ReadFault;
use crate::kept::{KeptPair, keep};
use crate::reader::{Head, Stop, head_of, take_items};
use crate::seen::SeenPairs;
use crate::writer::{ENTRIES_AT, HEAD_AT, HEAD_BYTES};
use mt_disk::Disk;
use std::alloc::Global;

/// How many bytes are read at a time.
pub(crate) const WINDOW_BYTES: usize = 1 << 18;

/// The steps of the checkpoint after an open gate, from a file of this length, with what is kept of its pairs.
pub(crate) fn read_open<D: Disk, T: KeptPair>(
    alloc: Global,
    disk: &mut D,
    len: usize,
    kept: &mut Vec<T>,
) -> Result<Option<(u64, u64)>, ReadFault>
    requires len { 1 ≤ len }
    requires none { kept.old.items ≡ [] }
    ensures ok { IfOk result (λ x. IsReadOpen D.is_honest D.state disk.old len (walk_from (map T.as_pair kept.new.items) x)) }
    ensures same { IsTrue (D.is_honest disk.old) → D.state disk.new ≡ D.state disk.old }
    ensures honest { D.is_honest disk.new ≡ D.is_honest disk.old }
    ensures count { CountsReads result (D.failures disk.old) (D.failures disk.new) }
{
    match read_head(alloc, disk, len)? {
        Some(head) => read_entries(alloc, disk, len, head, kept),
        None => Ok(None),
    }
}

// The head. None if none follows the gate.
fn read_head<D: Disk>(alloc: Global, disk: &mut D, len: usize) -> Result<Option<Head>, ReadFault>
    requires { 1 ≤ len }
    ensures ok { IfOk result (λ x. OfImage D.is_honest D.state disk.old len (λ image. IsHeadIn image x)) }
    ensures some { IfOk result (λ x. IfSome x (λ _. 15 ≤ len)) }
    ensures same { IsTrue (D.is_honest disk.old) → D.state disk.new ≡ D.state disk.old }
    ensures honest { D.is_honest disk.new ≡ D.is_honest disk.old }
    ensures count { CountsReads result (D.failures disk.old) (D.failures disk.new) }
{
    let bytes = read_window(alloc, disk, len, HEAD_AT, HEAD_BYTES)?;
    Ok(head_of(&bytes))
}

// The steps of the checkpoint with this head, with what is kept of its pairs. None if the file has none.
fn read_entries<D: Disk, T: KeptPair>(
    alloc: Global,
    disk: &mut D,
    len: usize,
    head: Head,
    kept: &mut Vec<T>,
) -> Result<Option<(u64, u64)>, ReadFault>
    requires head { 15 ≤ len }
    requires none { kept.old.items ≡ [] }
    ensures ok { IfOk result (λ x. IsReadAfter D.is_honest D.state disk.old len head (walk_from (map T.as_pair kept.new.items) x)) }
    ensures same { IsTrue (D.is_honest disk.old) → D.state disk.new ≡ D.state disk.old }
    ensures honest { D.is_honest disk.new ≡ D.is_honest disk.old }
    ensures count { CountsReads result (D.failures disk.old) (D.failures disk.new) }
{
    let mut seen = SeenPairs::new();
    let mut place = ENTRIES_AT;
    loop {
        let (used, stop) = take_window(alloc, disk, len, head, place, &mut seen, kept)?;
        match stop {
            Stop::More => place += used,
            Stop::Last(last) if may_end(head.first, last, seen.greatest()) => {
                return Ok(Some((head.first, last)));
            }
            Stop::Last(_) => return Ok(None),
            Stop::Bad => return Ok(None),
        }
    }
}

// Keeps the entries of the window at this place, after those before. How many bytes they have, and what follows
// them. It is bad if they don't rise after those before.
fn take_window<D: Disk, T: KeptPair>(
    alloc: Global,
    disk: &mut D,
    len: usize,
    head: Head,
    place: usize,
    seen: &mut SeenPairs,
    kept: &mut Vec<T>,
) -> Result<(usize, Stop), ReadFault>
    requires place { place ≤ len }
    requires entries { AreEntries head (map T.as_pair kept.old.items) seen.old }
    ensures ok { IfOk result (λ r. TakesWindow D.is_honest D.state disk.old len head place (map T.as_pair kept.old.items) (map T.as_pair kept.new.items) seen.new r.0 r.1) }
    ensures same { IsTrue (D.is_honest disk.old) → D.state disk.new ≡ D.state disk.old }
    ensures honest { D.is_honest disk.new ≡ D.is_honest disk.old }
    ensures count { CountsReads result (D.failures disk.old) (D.failures disk.new) }
{
    let window = read_window(alloc, disk, len, place, WINDOW_BYTES)?;
    let whole = window.len() == len - place;
    let mut pairs = Vec::new(alloc);
    let (used, stop) = take_items(alloc, head, &window, whole, &mut pairs)?;
    if !seen.take(alloc, &pairs)? {
        return Ok((used, Stop::Bad));
    }
    keep(kept, pairs)?;
    Ok((used, stop))
}

// Up to so many bytes of a file of this length, from a place in it on: as many as it has.
fn read_window<D: Disk>(
    alloc: Global,
    disk: &mut D,
    len: usize,
    place: usize,
    count: usize,
) -> Result<Vec<u8>, ReadFault>
    requires { place ≤ len }
    ensures ok { IfOk result (IsWindow D.is_honest D.state disk.old len place count) }
    ensures same { IsTrue (D.is_honest disk.old) → D.state disk.new ≡ D.state disk.old }
    ensures honest { D.is_honest disk.new ≡ D.is_honest disk.old }
    ensures count { CountsReads result (D.failures disk.old) (D.failures disk.new) }
{
    let size = count.min(len - place);
    let mut bytes = Vec::from_elem(alloc, 0, size)?;
    disk.read(place, &mut bytes)?;
    Ok(bytes)
}
