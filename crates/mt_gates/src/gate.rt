//! The gate of a file, its first byte: how what follows it comes to count whole or not at all.

ghost use Rattle.std.specs.Prelude.{◌≡◌, ◌<◌, ℕ, List, length, IsTrue, Option, Some, None, OnOk, OnErr, IfOk};
ghost use Rattle.mt_disk.specs.Disk.{CountsFailure, IsDurable, LeavesOnly};
ghost use Rattle.mt_gates.specs.Gates.{IsClosed, IsGated, IsLeftOf, IsBehindGate, IsClosedAtRest, IsStaged, HasDurably, IsGateOf, IsSyncedOrSame, ClosesGate};

use mt_disk::{DeviceFailed, Disk};

/// The gate of a file that counts.
pub const OPEN: u8 = 1;

/// The gate before what is written.
pub const SHUT: u8 = 0;

/// Syncs a file, and tells how long it is, and its gate. What a call that failed has left is durable
/// before it is read: else a crash could still leave a torn gate open or closed.
pub fn synced_gate<D: Disk>(disk: &mut D) -> Result<(usize, Option<u8>), DeviceFailed>
    ensures ok { IfOk result (IsGateOf D.is_honest D.state disk.old disk.new) }
    ensures err { IsTrue (D.is_honest disk.old) → OnErr result (IsSyncedOrSame (D.state disk.old) (D.state disk.new)) }
    ensures honest { D.is_honest disk.new ≡ D.is_honest disk.old }
    ensures count { CountsFailure result (D.failures disk.old) (D.failures disk.new) }
{
    disk.sync()?;
    let len = disk.len()?;
    if len == 0 {
        return Ok((len, None));
    }
    let mut gate = [0];
    disk.read(0, &mut gate)?;
    Ok((len, Some(gate[0])))
}

/// Closes the gate.
pub fn close_gate<D: Disk>(disk: &mut D) -> Result<(), DeviceFailed>
    ensures closed { IsTrue (D.is_honest disk.old) → OnOk result (ClosesGate (D.state disk.old) (D.state disk.new)) }
    ensures leaves { IsTrue (D.is_honest disk.old) → (text : List ℕ) → 0 < length text → IsGated text (D.state disk.old).image
        → IsDurable (D.state disk.old) → LeavesOnly (IsGated text) (D.state disk.old) (D.state disk.new) }
    ensures honest { D.is_honest disk.new ≡ D.is_honest disk.old }
    ensures count { CountsFailure result (D.failures disk.old) (D.failures disk.new) }
{
    disk.write_at(0, &[SHUT])?;
    disk.sync()
}

/// Cuts after the closed gate, and writes these bytes there. Nothing of it is synced.
pub fn write_head<D: Disk>(disk: &mut D, head: &[u8]) -> Result<(), DeviceFailed>
    ensures behind { IsTrue (D.is_honest disk.old) → IsClosedAtRest (D.state disk.old)
        → OnOk result (IsBehindGate head.now (D.state disk.new)) }
    ensures leaves { IsTrue (D.is_honest disk.old) → IsClosedAtRest (D.state disk.old)
        → LeavesOnly IsClosed (D.state disk.old) (D.state disk.new) }
    ensures honest { D.is_honest disk.new ≡ D.is_honest disk.old }
    ensures count { CountsFailure result (D.failures disk.old) (D.failures disk.new) }
{
    disk.cut(1)?;
    disk.write_at(1, head)
}

/// Makes what follows the closed gate durable.
pub fn stage<D: Disk>(disk: &mut D) -> Result<(), DeviceFailed>
    ensures staged { IsTrue (D.is_honest disk.old) → (text : List ℕ) → IsBehindGate text (D.state disk.old)
        → OnOk result (IsStaged text (D.state disk.new)) }
    ensures leaves { IsTrue (D.is_honest disk.old) → (text : List ℕ) → IsBehindGate text (D.state disk.old)
        → LeavesOnly IsClosed (D.state disk.old) (D.state disk.new) }
    ensures honest { D.is_honest disk.new ≡ D.is_honest disk.old }
    ensures count { CountsFailure result (D.failures disk.old) (D.failures disk.new) }
{
    disk.sync()
}

/// Opens the gate. What follows it is durable.
pub fn open_gate<D: Disk>(disk: &mut D) -> Result<(), DeviceFailed>
    ensures opened { IsTrue (D.is_honest disk.old) → (text : List ℕ) → IsStaged text (D.state disk.old)
        → OnOk result (HasDurably text (D.state disk.new)) }
    ensures leaves { IsTrue (D.is_honest disk.old) → (text : List ℕ) → 0 < length text → IsStaged text (D.state disk.old)
        → LeavesOnly (IsLeftOf text) (D.state disk.old) (D.state disk.new) }
    ensures honest { D.is_honest disk.new ≡ D.is_honest disk.old }
    ensures count { CountsFailure result (D.failures disk.old) (D.failures disk.new) }
{
    disk.write_at(0, &[OPEN])?;
    disk.sync()
}
