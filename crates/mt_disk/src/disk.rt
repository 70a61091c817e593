//! The rules of a disk, as a trait.
//!
//! Each clause but `count`, `honest` and `plan` begins with the premise that the disk is honest, that is, keeps
//! these rules. Contracts see a disk as a `DiskState`; its list of moments is the clock.
//! Units: bytes. Errors: `DeviceFailed`, after which all calls may still be made.

ghost use Rattle.std.specs.Prelude.{◌≡◌, ◌↔◌, ◌+◌, ◌≤◌, ℕ, Bool, IsTrue, Option, length, take, IfOk, OnOk, OnErr};
ghost use Rattle.mt_disk.specs.Disk.{DiskState, Plan, FollowsPlan, Attempts, CountsFailure, GoesUp, Reads, synced, overwritten, cut_range};

use crate::system_error::SystemError;

/// The disk failed during this call, or had no memory for it. `Disk::last_error` may tell which.
#[derive(Clone, Copy, Debug, PartialEq, Eq)]
pub struct DeviceFailed;

/// One file. What a call may do to it, and a crash after it, is said in `specs/Disk.antt`.
pub trait Disk {
    /// Whether it keeps the rules. No code can tell, and no call changes it.
    ghost is_honest: { Self → Bool };

    /// What a read gives, what a crash now may leave, and what it might have left at each moment before.
    ghost state: { Self → DiskState };

    /// How many calls have failed.
    ghost failures: { Self → ℕ };

    /// Whether its last call that failed did so because memory was refused.
    ghost was_refused: { Self → Bool };

    /// The number of its last call and which calls it is told to fail; none where nobody tells it.
    ghost plan: { Self → Option Plan };

    /// The number of bytes.
    fn len(&mut self) -> Result<usize, DeviceFailed>
        ensures count { CountsFailure result (failures self.old) (failures self.new) }
        ensures honest { is_honest self.new ≡ is_honest self.old }
        ensures plan { FollowsPlan result (plan self.old) (plan self.new) }
        ensures same { IsTrue (is_honest self.old) → state self.new ≡ state self.old }
        ensures told { IsTrue (is_honest self.old) → IfOk result (λ n. n ≡ length (state self.old).image) };

    /// Fills `out` with the bytes from `at` on, where the file has that many. At an error `out` may
    /// hold anything.
    fn read(&mut self, at: usize, out: &mut [u8]) -> Result<(), DeviceFailed>
        ensures count { CountsFailure result (failures self.old) (failures self.new) }
        ensures honest { is_honest self.new ≡ is_honest self.old }
        ensures plan { FollowsPlan result (plan self.old) (plan self.new) }
        ensures same { IsTrue (is_honest self.old) → state self.new ≡ state self.old }
        ensures told { IsTrue (is_honest self.old)
            → OnOk result (Reads at (state self.old).image out.old out.new) };

    /// Writes over what is there, and past the end. Nothing is durable before a sync. Of a write that
    /// begins past the end only the crash is told, not what a read then gives.
    fn write_at(&mut self, at: usize, bytes: &[u8]) -> Result<(), DeviceFailed>
        ensures count { CountsFailure result (failures self.old) (failures self.new) }
        ensures honest { is_honest self.new ≡ is_honest self.old }
        ensures plan { FollowsPlan result (plan self.old) (plan self.new) }
        ensures crash { IsTrue (is_honest self.old)
            → Attempts (at, at + length bytes.now) result (state self.old) (state self.new) }
        ensures image { IsTrue (is_honest self.old)
            → at ≤ length (state self.old).image
            → OnOk result ((state self.new).image ≡ overwritten at bytes.now (state self.old).image) }
        ensures refused { IsTrue (is_honest self.old)
            → OnErr result (IsTrue (was_refused self.new) → state self.new ≡ state self.old) };

    /// Cuts the file to a length. To a crash it is a write of all that is durable past the new end.
    fn cut(&mut self, len: usize) -> Result<(), DeviceFailed>
        ensures count { CountsFailure result (failures self.old) (failures self.new) }
        ensures honest { is_honest self.new ≡ is_honest self.old }
        ensures plan { FollowsPlan result (plan self.old) (plan self.new) }
        ensures crash { IsTrue (is_honest self.old)
            → Attempts (cut_range len (state self.old)) result (state self.old) (state self.new) }
        ensures image { IsTrue (is_honest self.old)
            → len ≤ length (state self.old).image
            → OnOk result ((state self.new).image ≡ take len (state self.old).image) }
        ensures refused { IsTrue (is_honest self.old)
            → OnErr result (IsTrue (was_refused self.new) → state self.new ≡ state self.old) };

    /// After it a crash leaves what a read gives. One that fails changes nothing: what was not durable
    /// is as unsure as before, and can be synced again.
    fn sync(&mut self) -> Result<(), DeviceFailed>
        ensures count { CountsFailure result (failures self.old) (failures self.new) }
        ensures honest { is_honest self.new ≡ is_honest self.old }
        ensures plan { FollowsPlan result (plan self.old) (plan self.new) }
        ensures done { IsTrue (is_honest self.old) → OnOk result (state self.new ≡ synced (state self.old)) }
        ensures failed { IsTrue (is_honest self.old) → OnErr result (state self.new ≡ state self.old) };

    /// Makes all durable, and drops the system's copy of the file: what is read next comes from the
    /// device. To contracts it is a sync, also if it fails.
    fn drop_cache(&mut self) -> Result<(), DeviceFailed>
        ensures count { CountsFailure result (failures self.old) (failures self.new) }
        ensures honest { is_honest self.new ≡ is_honest self.old }
        ensures plan { FollowsPlan result (plan self.old) (plan self.new) }
        ensures done { IsTrue (is_honest self.old) → OnOk result (state self.new ≡ synced (state self.old)) }
        ensures failed { IsTrue (is_honest self.old) → OnErr result (state self.new ≡ state self.old) };

    /// Why its last call that failed did so, if the system told it. It has no memory for a call only if
    /// that changes nothing.
    fn last_error(&self) -> Option<SystemError>
        ensures { (result ≡ Some SystemError.OutOfMemory) ↔ IsTrue (was_refused self.now) };
}

/// Counts a failure.
pub fn count_failure(failures: &mut u64)
    ensures { GoesUp failures.old failures.new }
{
    *failures = failures.saturating_add(1);
}
