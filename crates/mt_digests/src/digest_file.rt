//! A digest file: written after a closed gate, cleared and read.

ghost use Rattle.std.specs.Prelude.{◌≡◌, IsTrue, IfOk, OnOk};
ghost use Rattle.mt_disk.specs.Disk.{DiskState, CountsFailure, LeavesOnly};
ghost use Rattle.mt_gates.specs.Gates.{IsLeftOf, IsLeftOfEither, IsClosedAtRest, IsGivenUp, HasDurably};
ghost use Rattle.mt_digests.specs.{declared.file_digest.FileDigest.FileDigest, Digests.{digest_bytes, digest_in}};

use crate::file_digest::FileDigest;
use mt_disk::{DeviceFailed, Disk};
use mt_gates::{OPEN, give_up, open_gate, stage, write_head};

// The bytes of a digest file: its gate, the length and the SHA-256.
const FILE_BYTES: usize = 41;

/// Writes a digest into its file, over whatever that has. With Ok the file has this digest and nothing else, durable. At each
/// moment, also if the call fails, a crash leaves the digest that was there, this one or none.
/// The first byte of a file is an exception: a crash before it is durable may leave anything.
pub fn write_digest<D: Disk>(disk: &mut D, digest: FileDigest) -> Result<(), DeviceFailed>
    ensures written { IsTrue (D.is_honest disk.old) → OnOk result (HasDurably (digest_bytes digest) (D.state disk.new)) }
    ensures leaves { IsTrue (D.is_honest disk.old) → (other : FileDigest) (first : DiskState) → LeavesOnly (IsLeftOf (digest_bytes other)) first (D.state disk.old)
        → LeavesOnly (IsLeftOfEither (digest_bytes other) (digest_bytes digest)) first (D.state disk.new) }
    ensures honest { D.is_honest disk.new ≡ D.is_honest disk.old }
    ensures count { CountsFailure result (D.failures disk.old) (D.failures disk.new) }
{
    clear_digest(disk)?;
    write_cleared(disk, digest)
}

/// Leaves a closed gate alone: with Ok the file has no digest, durably. At each moment, also if the call fails, a crash
/// leaves the digest that was there, or none.
pub fn clear_digest<D: Disk>(disk: &mut D) -> Result<(), DeviceFailed>
    ensures cleared { IsTrue (D.is_honest disk.old) → OnOk result (IsGivenUp (D.state disk.new)) }
    ensures leaves { IsTrue (D.is_honest disk.old) → (other : FileDigest) (first : DiskState) → LeavesOnly (IsLeftOf (digest_bytes other)) first (D.state disk.old)
        → LeavesOnly (IsLeftOf (digest_bytes other)) first (D.state disk.new) }
    ensures honest { D.is_honest disk.new ≡ D.is_honest disk.old }
    ensures count { CountsFailure result (D.failures disk.old) (D.failures disk.new) }
{
    give_up(disk)
}

/// The digest that a file has, if it has one. The file stays as it is.
pub fn read_digest<D: Disk>(disk: &mut D) -> Result<Option<FileDigest>, DeviceFailed>
    ensures told { IsTrue (D.is_honest disk.old) → IfOk result (λ digest. digest ≡ digest_in (D.state disk.old).image) }
    ensures same { IsTrue (D.is_honest disk.old) → D.state disk.new ≡ D.state disk.old }
    ensures honest { D.is_honest disk.new ≡ D.is_honest disk.old }
    ensures count { CountsFailure result (D.failures disk.old) (D.failures disk.new) }
{
    if disk.len()? < FILE_BYTES {
        return Ok(None);
    }
    let (mut gate, mut len, mut sha256) = ([0; 1], [0; 8], [0; 32]);
    disk.read(0, &mut gate)?;
    disk.read(1, &mut len)?;
    disk.read(9, &mut sha256)?;
    if gate[0] != OPEN {
        return Ok(None);
    }
    Ok(Some(FileDigest {
        len: u64::from_be_bytes(len),
        sha256,
    }))
}

// Writes a digest after a closed gate, and opens that when the digest is durable.
fn write_cleared<D: Disk>(disk: &mut D, digest: FileDigest) -> Result<(), DeviceFailed>
    ensures written { IsTrue (D.is_honest disk.old) → IsClosedAtRest (D.state disk.old) → OnOk result (HasDurably (digest_bytes digest) (D.state disk.new)) }
    ensures leaves { IsTrue (D.is_honest disk.old) → IsClosedAtRest (D.state disk.old) → LeavesOnly (IsLeftOf (digest_bytes digest)) (D.state disk.old) (D.state disk.new) }
    ensures honest { D.is_honest disk.new ≡ D.is_honest disk.old }
    ensures count { CountsFailure result (D.failures disk.old) (D.failures disk.new) }
{
    write_head(disk, &text_of(digest))?;
    stage(disk)?;
    open_gate(disk)
}

// What stands after the gate of a file that has this digest.
fn text_of(digest: FileDigest) -> [u8; 40]
    ensures { result ≡ digest_bytes digest }
{
    let mut text = [0; 40];
    text[..8].copy_from_slice(&digest.len.to_be_bytes());
    text[8..].copy_from_slice(&digest.sha256);
    text
}
