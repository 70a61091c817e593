//! A file compared with its digest.

ghost use Rattle.std.specs.{Prelude.{◌≡◌, ◌↔◌, IsTrue, IfOk}, List.slice_index_or};
ghost use Rattle.mt_disk.specs.Disk.{CountsFailure};
ghost use Rattle.mt_digests.specs.{Digests.{digest_in, open_digest, DoAgree}, Counts.{CountsReading, CountsComparing}};

use crate::digest_file::read_digest;
use crate::fault::DigestFault;
use crate::file_digest::{FileDigest, digest_behind};
use mt_disk::{DeviceFailed, Disk};
use mt_gates::SHUT;
use std::alloc::Global;

// How many bytes are read at a time.
const WINDOW_BYTES: usize = 1 << 18;

/// The digest of what follows a file's first byte: none if the file is empty, or that byte is 00. The file stays as it is.
pub fn digest_of<D: Disk>(alloc: Global, disk: &mut D) -> Result<Option<FileDigest>, DigestFault>
    ensures told { IsTrue (D.is_honest disk.old) → IfOk result (λ digest. digest ≡ open_digest (D.state disk.old).image) }
    ensures same { IsTrue (D.is_honest disk.old) → D.state disk.new ≡ D.state disk.old }
    ensures honest { D.is_honest disk.new ≡ D.is_honest disk.old }
    ensures count { CountsReading result (D.failures disk.old) (D.failures disk.new) }
{
    if is_shut(disk)? {
        return Ok(None);
    }
    let mut window = Vec::from_elem(alloc, 0, WINDOW_BYTES)?;
    Ok(Some(digest_behind(disk, &mut window)?))
}

/// Whether a file agrees with its digest file. It does not only if the digest file has a digest, the file's first byte isn't
/// 00, and what follows that has another digest. Both files stay as they are.
pub fn agrees<D: Disk>(alloc: Global, disk: &mut D, digests: &mut D) -> Result<bool, DigestFault>
    ensures told { IsTrue (D.is_honest disk.old) → IsTrue (D.is_honest digests.old)
        → IfOk result (λ same. IsTrue same ↔ DoAgree (digest_in (D.state digests.old).image) (open_digest (D.state disk.old).image)) }
    ensures same { IsTrue (D.is_honest disk.old) → D.state disk.new ≡ D.state disk.old }
    ensures digest_same { IsTrue (D.is_honest digests.old) → D.state digests.new ≡ D.state digests.old }
    ensures honest { D.is_honest disk.new ≡ D.is_honest disk.old }
    ensures digest_honest { D.is_honest digests.new ≡ D.is_honest digests.old }
    ensures count { CountsComparing result (D.failures disk.old) (D.failures disk.new) (D.failures digests.old) (D.failures digests.new) }
{
    let Ok(kept) = read_digest(digests) else {
        return Err(DigestFault::DigestDevice);
    };
    let Some(kept) = kept else {
        return Ok(true);
    };
    match digest_of(alloc, disk)? {
        Some(found) => Ok(found == kept),
        None => Ok(true),
    }
}

// Whether a file is empty, or its first byte is 00.
fn is_shut<D: Disk>(disk: &mut D) -> Result<bool, DeviceFailed>
    ensures told { IsTrue (D.is_honest disk.old) → IfOk result (λ shut. IsTrue shut ↔ (slice_index_or (D.state disk.old).image 0 0 ≡ 0)) }
    ensures same { IsTrue (D.is_honest disk.old) → D.state disk.new ≡ D.state disk.old }
    ensures honest { D.is_honest disk.new ≡ D.is_honest disk.old }
    ensures count { CountsFailure result (D.failures disk.old) (D.failures disk.new) }
{
    if disk.len()? == 0 {
        return Ok(true);
    }
    let mut gate = [0];
    disk.read(0, &mut gate)?;
    Ok(gate[0] == SHUT)
}
