//! Laws of digest files, each the contract of a function that does nothing.

ghost use Rattle.std.specs.Prelude.{◌≡◌, ◌⊎◌, List, ℕ, Some, None};
ghost use Rattle.mt_disk.specs.Disk.{DiskState};
ghost use Rattle.mt_gates.specs.Gates.{IsClosed, IsLeftOf, HasDurably};
ghost use Rattle.mt_digests.specs.{declared.file_digest.FileDigest.FileDigest, Digests.{IsFileDigest, digest_bytes, digest_in}};

/// What may be left of a file that has a digest, or is written with one, has that digest or none.
pub fn what_is_left_has_the_digest_or_none()
    ensures { (digest : FileDigest) (image : List ℕ) → IsFileDigest digest → IsLeftOf (digest_bytes digest) image
        → (digest_in image ≡ None) ⊎ (digest_in image ≡ Some digest) }
{}

/// A digest that was written is the one that is read. A file that was cleared has none.
pub fn a_digest_is_read_as_it_was_written()
    ensures written { (digest : FileDigest) (s : DiskState) → IsFileDigest digest → HasDurably (digest_bytes digest) s → digest_in s.image ≡ Some digest }
    ensures cleared { (image : List ℕ) → IsClosed image → digest_in image ≡ None }
{}
