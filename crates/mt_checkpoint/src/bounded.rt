//! Writing behind a closed gate so that little of it is not durable at a time.

ghost use Rattle.std.specs.Prelude.{◌≡◌, ◌^◌, ◌<◌, ◌≤◌, ◌++◌, length, IsTrue, OnOk, IfOk};
ghost use Rattle.mt_rows.specs.Rows.{Bytes};
ghost use Rattle.mt_disk.specs.Disk.{debt, CountsFailure, LeavesOnly};
ghost use Rattle.mt_checkpoint.specs.Checkpoints.{IsClosed, IsBehindGate, IsShutIn};

use crate::gate::write_more;
use mt_disk::{DeviceFailed, Disk};

// With so many bytes that aren't synced a writer syncs.
const MAX_OWED: usize = 1 << 22;

/// Writes more, and syncs if 4 MiB or more aren't synced then; so many bytes weren't before. Tells how many aren't.
pub(crate) fn write_bounded<D: Disk>(
    disk: &mut D,
    end: usize,
    owed: usize,
    block: &[u8],
) -> Result<usize, DeviceFailed>
    ensures behind { IsTrue (D.is_honest disk.old) → (text : Bytes) → IsBehindGate text (D.state disk.old)
        → end ≡ length (D.state disk.old).image → OnOk result (IsBehindGate (text ++ block.now) (D.state disk.new)) }
    ensures shut { IsTrue (D.is_honest disk.old) → (text : Bytes) → IsBehindGate text (D.state disk.old)
        → end ≡ length (D.state disk.old).image → IsShutIn (D.state disk.new) }
    ensures leaves { IsTrue (D.is_honest disk.old) → (text : Bytes) → IsBehindGate text (D.state disk.old)
        → end ≡ length (D.state disk.old).image → LeavesOnly IsClosed (D.state disk.old) (D.state disk.new) }
    ensures bounded { IfOk result (λ n. n < 2 ^ 22) }
    ensures debt { IsTrue (D.is_honest disk.old) → debt (D.state disk.old).now ≤ owed → IfOk result (λ n. debt (D.state disk.new).now ≤ n) }
    ensures honest { D.is_honest disk.new ≡ D.is_honest disk.old }
    ensures count { CountsFailure result (D.failures disk.old) (D.failures disk.new) }
{
    write_more(disk, end, block)?;
    let owed = owed.saturating_add(block.len());
    if owed < MAX_OWED {
        return Ok(owed);
    }
    disk.sync()?;
    Ok(0)
}
