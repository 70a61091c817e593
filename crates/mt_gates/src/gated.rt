//! A file that is begun behind a closed gate, and one that is given up.

ghost use Rattle.std.specs.Prelude.{◌≡◌, ◌<◌, ℕ, List, length, IsTrue, OnOk};
ghost use Rattle.mt_disk.specs.Disk.{DiskState, CountsFailure, LeavesOnly};
ghost use Rattle.mt_gates.specs.{Gates.{IsClosed, IsLeftOf, IsLeftOfEither, IsClosedAtRest, IsGivenUp, IsStaged, HasDurably}, Beginnings.{BeginsOver, CountsBeginning}};

use crate::gate::{SHUT, close_gate, open_gate, stage, synced_gate, write_head};
use mt_disk::{DeviceFailed, Disk};

/// Why a file was not begun.
#[derive(Clone, Copy, Debug, PartialEq, Eq)]
pub enum BeginFault {
    /// The disk failed.
    Device,
    /// The file has no closed gate: its first byte isn't 00, or it is empty.
    NotShut,
}

// Syncs a file, and closes its gate, if it isn't closed.
fn shut<D: Disk>(disk: &mut D) -> Result<(), DeviceFailed>
    ensures shut { IsTrue (D.is_honest disk.old) → OnOk result (IsClosedAtRest (D.state disk.new)) }
    ensures leaves { IsTrue (D.is_honest disk.old) → (text : List ℕ) (first : DiskState) → 0 < length text → LeavesOnly (IsLeftOf text) first (D.state disk.old)
        → LeavesOnly (IsLeftOf text) first (D.state disk.new) }
    ensures honest { D.is_honest disk.new ≡ D.is_honest disk.old }
    ensures count { CountsFailure result (D.failures disk.old) (D.failures disk.new) }
{
    let (_, gate) = synced_gate(disk)?;
    if gate == Some(SHUT) {
        return Ok(());
    }
    close_gate(disk)
}

// Writes this text after a closed gate, and makes it durable.
fn write_text<D: Disk>(disk: &mut D, text: &[u8]) -> Result<(), DeviceFailed>
    ensures staged { IsTrue (D.is_honest disk.old) → IsClosedAtRest (D.state disk.old) → OnOk result (IsStaged text.now (D.state disk.new)) }
    ensures leaves { IsTrue (D.is_honest disk.old) → IsClosedAtRest (D.state disk.old) → LeavesOnly IsClosed (D.state disk.old) (D.state disk.new) }
    ensures honest { D.is_honest disk.new ≡ D.is_honest disk.old }
    ensures count { CountsFailure result (D.failures disk.old) (D.failures disk.new) }
{
    write_head(disk, text)?;
    stage(disk)
}

// Writes this text after a closed gate, and opens that.
fn begin_shut<D: Disk>(disk: &mut D, text: &[u8]) -> Result<(), DeviceFailed>
    requires { 0 < length text.now }
    ensures begun { IsTrue (D.is_honest disk.old) → IsClosedAtRest (D.state disk.old) → OnOk result (HasDurably text.now (D.state disk.new)) }
    ensures leaves { IsTrue (D.is_honest disk.old) → IsClosedAtRest (D.state disk.old) → LeavesOnly (IsLeftOf text.now) (D.state disk.old) (D.state disk.new) }
    ensures honest { D.is_honest disk.new ≡ D.is_honest disk.old }
    ensures count { CountsFailure result (D.failures disk.old) (D.failures disk.new) }
{
    write_text(disk, text)?;
    open_gate(disk)
}

/// Begins a file with this text over one whose gate is closed. What it had after the gate is lost. A file whose gate isn't
/// closed is refused: it is synced and not written. At each moment a crash leaves the gate closed, or the text whole after
/// any gate. If another text might be left before, a crash may also leave that one, whole after any gate.
pub fn begin_file<D: Disk>(disk: &mut D, text: &[u8]) -> Result<(), BeginFault>
    requires { 0 < length text.now }
    ensures begun { IsTrue (D.is_honest disk.old) → OnOk result (HasDurably text.now (D.state disk.new)) }
    ensures leaves { IsTrue (D.is_honest disk.old) → (first : DiskState) → LeavesOnly (IsLeftOf text.now) first (D.state disk.old)
        → LeavesOnly (IsLeftOf text.now) first (D.state disk.new) }
    ensures over { IsTrue (D.is_honest disk.old) → (other : List ℕ) (first : DiskState) → 0 < length other → LeavesOnly (IsLeftOf other) first (D.state disk.old)
        → LeavesOnly (IsLeftOfEither other text.now) first (D.state disk.new) }
    ensures gate { IsTrue (D.is_honest disk.old) → BeginsOver result (D.state disk.old) (D.state disk.new) }
    ensures honest { D.is_honest disk.new ≡ D.is_honest disk.old }
    ensures count { CountsBeginning result (D.failures disk.old) (D.failures disk.new) }
{
    let Ok((_, gate)) = synced_gate(disk) else {
        return Err(BeginFault::Device);
    };
    if gate != Some(SHUT) {
        return Err(BeginFault::NotShut);
    }
    match begin_shut(disk, text) {
        Ok(()) => Ok(()),
        Err(DeviceFailed) => Err(BeginFault::Device),
    }
}

/// Gives a file up that has this text. At each moment a crash leaves the text whole after any gate, or the gate closed.
/// With Ok a closed gate is left alone, for good.
pub fn give_up<D: Disk>(disk: &mut D) -> Result<(), DeviceFailed>
    ensures gone { IsTrue (D.is_honest disk.old) → OnOk result (IsGivenUp (D.state disk.new)) }
    ensures leaves { IsTrue (D.is_honest disk.old) → (text : List ℕ) (first : DiskState) → 0 < length text → LeavesOnly (IsLeftOf text) first (D.state disk.old)
        → LeavesOnly (IsLeftOf text) first (D.state disk.new) }
    ensures honest { D.is_honest disk.new ≡ D.is_honest disk.old }
    ensures count { CountsFailure result (D.failures disk.old) (D.failures disk.new) }
{
    shut(disk)?;
    empty(disk)
}

// Cuts after the closed gate.
fn empty<D: Disk>(disk: &mut D) -> Result<(), DeviceFailed>
    ensures gone { IsTrue (D.is_honest disk.old) → IsClosedAtRest (D.state disk.old) → OnOk result (IsGivenUp (D.state disk.new)) }
    ensures leaves { IsTrue (D.is_honest disk.old) → IsClosedAtRest (D.state disk.old) → LeavesOnly IsClosed (D.state disk.old) (D.state disk.new) }
    ensures honest { D.is_honest disk.new ≡ D.is_honest disk.old }
    ensures count { CountsFailure result (D.failures disk.old) (D.failures disk.new) }
{
    disk.cut(1)?;
    disk.sync()
}
