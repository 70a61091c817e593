//! What was written, read back.

ghost use Rattle.std.specs.Prelude.{◌≡◌, ◌↔◌, ◌≤◌, ◌∷◌, ℕ, length, IsTrue, IfOk};
ghost use Rattle.mt_rows.specs.Rows.{Bytes};
ghost use Rattle.mt_disk.specs.Disk.{CountsFailure};
ghost use Rattle.mt_digests.specs.Digests.{digest_of};

use mt_digests::{FileDigest, digest_behind};
use mt_disk::{DeviceFailed, Disk};

/// Whether what follows the gate of a file has this digest, as it is read through a window.
pub(crate) fn reads_back<D: Disk>(
    disk: &mut D,
    window: &mut [u8],
    written: FileDigest,
) -> Result<bool, DeviceFailed>
    requires { 1 ≤ length window.old }
    ensures told { IsTrue (D.is_honest disk.old) → IfOk result (λ same. (gate : ℕ) (text : Bytes) → (D.state disk.old).image ≡ gate ∷ text → IsTrue same ↔ (written ≡ digest_of text)) }
    ensures same { IsTrue (D.is_honest disk.old) → D.state disk.new ≡ D.state disk.old }
    ensures honest { D.is_honest disk.new ≡ D.is_honest disk.old }
    ensures count { CountsFailure result (D.failures disk.old) (D.failures disk.new) }
{
    Ok(digest_behind(disk, window)? == written)
}
