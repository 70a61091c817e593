//! What the header of a numbered file tells.

ghost use Rattle.std.specs.Prelude.{IfOk, OnErr};
ghost use Rattle.mt_log_files.specs.{Slots.disk_in, Looks.{LooksAt, FailsToLookAt, Looks, FailsToLook}};

use crate::plain::take_disk;
use mt_disk::{DeviceFailed, Disk};
use mt_gates::{OPEN, synced_gate};
use mt_log_generations::header_of;
use mt_recover::LogSlot;

// The bytes of a header, after the outer gate.
const HEADER_BYTES: usize = 24;

/// The generation that the header of a numbered file tells, 0 if the file has no log. The file is synced, and nothing after
/// its header is read. The place is closed, whatever it was.
pub fn look<D: Disk + Drop>(slot: &mut LogSlot<D>) -> Result<u64, DeviceFailed>
    ensures ok { IfOk result (Looks D.is_honest D.state D.failures (disk_in slot.old) slot.new) }
    ensures err { OnErr result (FailsToLook D.is_honest D.state D.failures (disk_in slot.old) slot.new) }
{
    match take_disk(slot) {
        Some(mut disk) => {
            let told = told_generation(&mut disk);
            *slot = LogSlot::Closed(disk);
            told
        }
        None => Err(DeviceFailed),
    }
}

// The same of a disk.
fn told_generation<D: Disk>(disk: &mut D) -> Result<u64, DeviceFailed>
    ensures ok { IfOk result (LooksAt D.is_honest D.state D.failures disk.old disk.new) }
    ensures err { OnErr result (FailsToLookAt D.is_honest D.state D.failures disk.old disk.new) }
{
    let (len, gate) = synced_gate(disk)?;
    let Some(gate) = gate else {
        return Ok(0);
    };
    if gate != OPEN || len <= HEADER_BYTES {
        return Ok(0);
    }
    let mut bytes = [0; HEADER_BYTES];
    disk.read(1, &mut bytes)?;
    match header_of(&bytes) {
        Ok(header) => Ok(header.generation),
        Err(_) => Ok(0),
    }
}
