//! A slot, read: into memory, or through.

ghost use Rattle.std.specs.Prelude.{◌≡◌, [], map, IfOk, IfErr};
ghost use Rattle.mt_checkpoint.specs.{Slots.{HasRead, ReadSlot, FailsToRead}, Windows.walk_from};

use crate::checkpoint::{Checkpoint, SeenCheckpoint};
use crate::fault::ReadFault;
use crate::gate::{OPEN, SHUT, close_gate, synced_gate};
use crate::kept::KeptPair;
use crate::windows::read_open;
use mt_disk::Disk;
use std::alloc::Global;
use std::snapshot::Snapshot;

/// What a slot has: its checkpoint, or none for anything but a whole one. A gate that a crash left torn is
/// closed, and the slot then has none.
pub fn read_valid<D: Disk>(alloc: Global, disk: &mut D) -> Result<Option<Checkpoint>, ReadFault>
    ensures ok { IfOk result (ReadSlot D.is_honest D.state D.failures disk.old disk.new) }
    ensures err { IfErr result (FailsToRead D.is_honest D.state D.failures disk.old disk.new) }
{
    let mut pairs = Vec::new(alloc);
    match read_slot(alloc, disk, &mut pairs)? {
        Some((first, last)) => Ok(Some(Checkpoint { first, last, pairs })),
        None => Ok(None),
    }
}

/// What a slot has, as `read_valid` tells it. None of its pairs are kept: no more of them are held at a time than one
/// window has.
pub fn look_at<D: Disk>(alloc: Global, disk: &mut D) -> Result<Option<SeenCheckpoint>, ReadFault>
    ensures ok { IfOk result (ReadSlot D.is_honest D.state D.failures disk.old disk.new) }
    ensures err { IfErr result (FailsToRead D.is_honest D.state D.failures disk.old disk.new) }
{
    let mut pairs = Vec::new(alloc);
    match read_slot(alloc, disk, &mut pairs)? {
        Some((first, last)) => Ok(Some(SeenCheckpoint {
            first,
            last,
            pairs: Snapshot::of(&pairs),
        })),
        None => Ok(None),
    }
}

// The steps of a slot's checkpoint, with what is kept of its pairs.
fn read_slot<D: Disk, T: KeptPair>(
    alloc: Global,
    disk: &mut D,
    kept: &mut Vec<T>,
) -> Result<Option<(u64, u64)>, ReadFault>
    requires { kept.old.items ≡ [] }
    ensures ok { IfOk result (λ x. HasRead D.is_honest D.state D.failures disk.old disk.new (walk_from (map T.as_pair kept.new.items) x)) }
    ensures err { IfErr result (FailsToRead D.is_honest D.state D.failures disk.old disk.new) }
{
    let (len, gate) = synced_gate(disk)?;
    let Some(gate) = gate else {
        return Ok(None);
    };
    if gate == OPEN {
        return read_open(alloc, disk, len, kept);
    }
    if gate == SHUT {
        return Ok(None);
    }
    close_gate(disk)?;
    Ok(None)
}
