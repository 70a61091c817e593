//! The file of a log's generation: made spare, begun and given up.

ghost use Rattle.std.specs.Prelude.{◌≡◌, ◌<◌, ℕ, List, length, IsTrue, OnOk};
ghost use Rattle.mt_disk.specs.Disk.{DiskState, CountsFailure, LeavesOnly};
ghost use Rattle.mt_gates.specs.{Gates.{IsLeftOf, IsLeftOfEither, IsGivenUp, HasDurably}, Beginnings.{BeginsOver, CountsBeginning}};
ghost use Rattle.mt_log_generations.specs.Headers.{header_with, begun_text, IsHeader};

use crate::header::{Header, begun};
use mt_disk::{DeviceFailed, Disk};
use mt_gates::{BeginFault, SHUT, begin_file};

/// Makes a spare file: one byte 00, and nothing else. Whatever the disk held is lost. A crash in it, or an error, may leave
/// anything: the file is made anew.
pub fn create_spare<D: Disk>(disk: &mut D) -> Result<(), DeviceFailed>
    ensures made { IsTrue (D.is_honest disk.old) → OnOk result (IsGivenUp (D.state disk.new)) }
    ensures honest { D.is_honest disk.new ≡ D.is_honest disk.old }
    ensures count { CountsFailure result (D.failures disk.old) (D.failures disk.new) }
{
    disk.cut(0)?;
    disk.write_at(0, &[SHUT])?;
    disk.sync()
}

/// Begins the log of a generation, without batches, in a file whose outer gate is closed. What the file had after it is lost.
/// A file whose outer gate isn't closed is refused: it is synced and not written. At each moment a crash leaves the outer
/// gate closed, or the whole header and a closed batch gate after any outer gate. If something else might be left of the
/// file before, a crash may also leave that.
pub fn begin_generation<D: Disk>(
    disk: &mut D,
    worker: u8,
    logs: u8,
    generation: u64,
    start: u64,
) -> Result<(), BeginFault>
    requires { IsHeader (header_with worker logs generation start) }
    ensures begun { IsTrue (D.is_honest disk.old) → OnOk result (HasDurably (begun_text (header_with worker logs generation start)) (D.state disk.new)) }
    ensures leaves { IsTrue (D.is_honest disk.old) → (first : DiskState)
        → LeavesOnly (IsLeftOf (begun_text (header_with worker logs generation start))) first (D.state disk.old)
        → LeavesOnly (IsLeftOf (begun_text (header_with worker logs generation start))) first (D.state disk.new) }
    ensures over { IsTrue (D.is_honest disk.old) → (other : List ℕ) (first : DiskState) → 0 < length other → LeavesOnly (IsLeftOf other) first (D.state disk.old)
        → LeavesOnly (IsLeftOfEither other (begun_text (header_with worker logs generation start))) first (D.state disk.new) }
    ensures gate { IsTrue (D.is_honest disk.old) → BeginsOver result (D.state disk.old) (D.state disk.new) }
    ensures honest { D.is_honest disk.new ≡ D.is_honest disk.old }
    ensures count { CountsBeginning result (D.failures disk.old) (D.failures disk.new) }
{
    let text = begun(Header {
        worker,
        logs,
        generation,
        start,
    });
    begin_file(disk, &text)
}

/// Gives a log up that has this text, its header and batches. At each moment a crash leaves the text whole after any
/// outer gate, or the gate closed. With Ok a spare file is left: a closed gate alone.
pub fn give_up<D: Disk>(disk: &mut D) -> Result<(), DeviceFailed>
    ensures gone { IsTrue (D.is_honest disk.old) → OnOk result (IsGivenUp (D.state disk.new)) }
    ensures leaves { IsTrue (D.is_honest disk.old) → (text : List ℕ) (first : DiskState) → 0 < length text → LeavesOnly (IsLeftOf text) first (D.state disk.old)
        → LeavesOnly (IsLeftOf text) first (D.state disk.new) }
    ensures honest { D.is_honest disk.new ≡ D.is_honest disk.old }
    ensures count { CountsFailure result (D.failures disk.old) (D.failures disk.new) }
{
    mt_gates::give_up(disk)
}
