//! The gate of a slot: how a checkpoint is written so that a crash leaves it whole or not at all, and how
//! another one is begun over it.

ghost use Rattle.std.specs.Prelude.{◌≡◌, ◌+◌, ◌≤◌, ◌++◌, [], ◌∷◌, length, IsTrue, List, Option, Some, None, OnOk, OnErr, IfOk};
ghost use Rattle.mt_rows.specs.Rows.{Bytes};
ghost use Rattle.mt_disk.specs.Disk.{debt, CountsFailure, IsDurable, LeavesOnly};
ghost use Rattle.mt_checkpoint.specs.Format.{head_bytes, last_bytes};
ghost use Rattle.mt_checkpoint.specs.Checkpoints.{Walk, IsWalk, walk_bytes, IsClosed, IsGated, IsOneOf, IsBehindGate, IsShutIn, IsStaged};
ghost use Rattle.mt_checkpoint.specs.{Slots.{IsGateOf, IsSyncedOrSame, ClosesGate, HasDurably}, Staging.CutsBehind};

use crate::writer::{FORMAT, head, last_entry};
use mt_disk::{DeviceFailed, Disk};

/// The gate of a checkpoint that counts.
pub(crate) const OPEN: u8 = 1;

/// The gate before one that is written.
pub(crate) const SHUT: u8 = 0;

/// Syncs a slot, and tells how long its file is, and its gate. What a call that failed has left is durable
/// before it is read: else a crash could still leave a torn gate open or closed.
pub(crate) fn synced_gate<D: Disk>(disk: &mut D) -> Result<(usize, Option<u8>), DeviceFailed>
    ensures ok { IfOk result (IsGateOf D.is_honest D.state disk.old disk.new) }
    ensures err { IsTrue (D.is_honest disk.old) → OnErr result (IsSyncedOrSame (D.state disk.old) (D.state disk.new)) }
    ensures honest { D.is_honest disk.new ≡ D.is_honest disk.old }
    ensures count { CountsFailure result (D.failures disk.old) (D.failures disk.new) }
{
    disk.sync()?;
    let len = disk.len()?;
    if len == 0 {
        return Ok((len, None));
    }
    let mut gate = [0];
    disk.read(0, &mut gate)?;
    Ok((len, Some(gate[0])))
}

/// Closes the gate.
pub(crate) fn close_gate<D: Disk>(disk: &mut D) -> Result<(), DeviceFailed>
    ensures closed { IsTrue (D.is_honest disk.old) → OnOk result (ClosesGate (D.state disk.old) (D.state disk.new)) }
    ensures leaves { IsTrue (D.is_honest disk.old) → (may : List (Option Walk)) → IsGated may (D.state disk.old).image
        → IsDurable (D.state disk.old) → LeavesOnly (IsOneOf (None ∷ may)) (D.state disk.old) (D.state disk.new) }
    ensures honest { D.is_honest disk.new ≡ D.is_honest disk.old }
    ensures count { CountsFailure result (D.failures disk.old) (D.failures disk.new) }
{
    disk.write_at(0, &[SHUT])?;
    disk.sync()
}

/// Cuts after the closed gate. It isn't synced: no crash opens the gate, whatever it leaves after it.
pub(crate) fn cut_behind<D: Disk>(disk: &mut D) -> Result<(), DeviceFailed>
    ensures { CutsBehind D.is_honest D.state D.failures disk.old result disk.new }
{
    disk.cut(1)
}

/// Writes a head of format 2 after a closed gate, behind which nothing stands, and syncs.
pub(crate) fn write_head<D: Disk>(disk: &mut D, first: u64) -> Result<(), DeviceFailed>
    ensures staged { IsTrue (D.is_honest disk.old) → IsBehindGate [] (D.state disk.old) → OnOk result (IsStaged (head_bytes 2 first) (D.state disk.new)) }
    ensures leaves { IsTrue (D.is_honest disk.old) → IsBehindGate [] (D.state disk.old) → LeavesOnly IsClosed (D.state disk.old) (D.state disk.new) }
    ensures honest { D.is_honest disk.new ≡ D.is_honest disk.old }
    ensures count { CountsFailure result (D.failures disk.old) (D.failures disk.new) }
{
    write_more(disk, 1, &head(FORMAT, first))?;
    disk.sync()
}

/// Writes more after what follows the closed gate. Nothing of it is synced.
pub(crate) fn write_more<D: Disk>(
    disk: &mut D,
    end: usize,
    block: &[u8],
) -> Result<(), DeviceFailed>
    ensures behind { IsTrue (D.is_honest disk.old) → (text : Bytes) → IsBehindGate text (D.state disk.old)
        → end ≡ length (D.state disk.old).image → OnOk result (IsBehindGate (text ++ block.now) (D.state disk.new)) }
    ensures shut { IsTrue (D.is_honest disk.old) → (text : Bytes) → IsBehindGate text (D.state disk.old)
        → end ≡ length (D.state disk.old).image → IsShutIn (D.state disk.new) }
    ensures leaves { IsTrue (D.is_honest disk.old) → (text : Bytes) → IsBehindGate text (D.state disk.old)
        → end ≡ length (D.state disk.old).image → LeavesOnly IsClosed (D.state disk.old) (D.state disk.new) }
    ensures debt { IsTrue (D.is_honest disk.old) → OnOk result (debt (D.state disk.new).now ≡ debt (D.state disk.old).now + length block.now) }
    ensures honest { D.is_honest disk.new ≡ D.is_honest disk.old }
    ensures count { CountsFailure result (D.failures disk.old) (D.failures disk.new) }
{
    disk.write_at(end, block)
}

/// Writes the last entry after the others, and makes all of it durable. What is read then comes from the device.
pub(crate) fn stage<D: Disk>(disk: &mut D, end: usize, last: u64) -> Result<(), DeviceFailed>
    ensures staged { IsTrue (D.is_honest disk.old) → (text : Bytes) → IsBehindGate text (D.state disk.old)
        → end ≡ length (D.state disk.old).image → OnOk result (IsStaged (text ++ last_bytes last) (D.state disk.new)) }
    ensures shut { IsTrue (D.is_honest disk.old) → (text : Bytes) → IsBehindGate text (D.state disk.old)
        → end ≡ length (D.state disk.old).image → IsShutIn (D.state disk.new) }
    ensures leaves { IsTrue (D.is_honest disk.old) → (text : Bytes) → IsBehindGate text (D.state disk.old)
        → end ≡ length (D.state disk.old).image → LeavesOnly IsClosed (D.state disk.old) (D.state disk.new) }
    ensures honest { D.is_honest disk.new ≡ D.is_honest disk.old }
    ensures count { CountsFailure result (D.failures disk.old) (D.failures disk.new) }
{
    write_more(disk, end, &last_entry(last))?;
    disk.drop_cache()
}

/// Opens the gate. If a whole checkpoint follows it, that one is durable.
pub(crate) fn open_gate<D: Disk>(disk: &mut D) -> Result<(), DeviceFailed>
    ensures opened { IsTrue (D.is_honest disk.old) → (w : Walk) → IsWalk w → IsStaged (walk_bytes 2 w) (D.state disk.old)
        → OnOk result (HasDurably w (D.state disk.new)) }
    ensures image { IsTrue (D.is_honest disk.old) → (text : Bytes) → IsStaged text (D.state disk.old)
        → OnOk result ((D.state disk.new).image ≡ 1 ∷ text) }
    ensures leaves { IsTrue (D.is_honest disk.old) → (w : Walk) → IsWalk w → IsStaged (walk_bytes 2 w) (D.state disk.old)
        → LeavesOnly (IsOneOf (None ∷ Some w ∷ [])) (D.state disk.old) (D.state disk.new) }
    ensures honest { D.is_honest disk.new ≡ D.is_honest disk.old }
    ensures count { CountsFailure result (D.failures disk.old) (D.failures disk.new) }
{
    disk.write_at(0, &[OPEN])?;
    disk.sync()
}
