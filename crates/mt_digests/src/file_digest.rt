//! The digest of what follows a file's gate.

ghost use Rattle.std.specs.Prelude.{◌≡◌, ◌≤◌, drop, length, IsTrue, IfOk};
ghost use Rattle.sha2.specs.Sha256.{sha256};
ghost use Rattle.mt_disk.specs.Disk.{CountsFailure};
ghost use Rattle.mt_digests.specs.Digests.{digest_of};

use mt_disk::{DeviceFailed, Disk};
use sha2::{Digest, Sha256};

/// How many bytes follow a file's gate, and their SHA-256.
#[derive(Clone, Copy, Debug, PartialEq, Eq)]
pub struct FileDigest {
    pub len: u64,
    pub sha256: [u8; 32],
}

/// The digest of what follows the gate of a file, as it is read through a window.
pub fn digest_behind<D: Disk>(disk: &mut D, window: &mut [u8]) -> Result<FileDigest, DeviceFailed>
    requires { 1 ≤ length window.old }
    ensures told { IsTrue (D.is_honest disk.old) → IfOk result (λ digest. digest ≡ digest_of (drop 1 (D.state disk.old).image)) }
    ensures same { IsTrue (D.is_honest disk.old) → D.state disk.new ≡ D.state disk.old }
    ensures honest { D.is_honest disk.new ≡ D.is_honest disk.old }
    ensures count { CountsFailure result (D.failures disk.old) (D.failures disk.new) }
{
    let len = disk.len()?;
    let sha256 = hash_behind(disk, len, window)?;
    Ok(FileDigest {
        len: len.saturating_sub(1) as u64,
        sha256,
    })
}

// The SHA-256 of what follows the gate of a file of this length.
fn hash_behind<D: Disk>(
    disk: &mut D,
    len: usize,
    window: &mut [u8],
) -> Result<[u8; 32], DeviceFailed>
    requires { 1 ≤ length window.old }
    ensures ok { IfOk result (λ hash. IsTrue (D.is_honest disk.old) → len ≡ length (D.state disk.old).image → hash ≡ sha256 (drop 1 (D.state disk.old).image)) }
    ensures same { IsTrue (D.is_honest disk.old) → D.state disk.new ≡ D.state disk.old }
    ensures honest { D.is_honest disk.new ≡ D.is_honest disk.old }
    ensures count { CountsFailure result (D.failures disk.old) (D.failures disk.new) }
{
    let mut hash = Sha256::new();
    let mut place = 1;
    'windows: while place < len {
        let count = window.len().min(len - place);
        let part = &mut window[..count];
        disk.read(place, part)?;
        hash.update(&window[..count]);
        place += count;
    }
    Ok(hash.finalize())
}
