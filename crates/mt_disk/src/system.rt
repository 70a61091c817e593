//! A file as a system gives it, as a trait: what is written stands in the system's memory until a sync.
//!
//! If a sync fails, Linux marks the pages whose writing failed as clean. The next sync succeeds without
//! them, and a read still shows them. So what a sync makes durable is said of a file only while no
//! change is *owed*: after any failure every change since the last sync that succeeded is owed. It is
//! paid by making these changes again, in their order.
//!
//! A cut drops the pages past the new end. What was written there is never written again.

ghost use Rattle.std.specs.Prelude.{◌≡◌, [], length, Bool, IsTrue, IfOk, OnOk};
ghost use Rattle.mt_disk.specs.{Disk.Reads, FileEdits.{Wrote, CutTo}, Files.{FileState, IsFirst, IsAgain, Syncs, IsFoundAgain}};

/// Why a call of a file did not succeed.
#[derive(Clone, Copy, Debug, PartialEq, Eq)]
pub enum FileFault {
    /// Memory was refused, and nothing was done.
    NotMade,
    /// The device failed. What the call was to do was done, in part or whole, or not at all.
    Failed,
}

/// A file of a system. `specs/Files.antt` says what each call does to it.
pub trait SystemFile {
    ghost use Rattle.mt_disk.specs.{FileEdits.{Wrote, CutTo}, Files.{FileState, IsFirst, IsAgain, Syncs, IsFoundAgain}};

    /// Whether the system keeps these rules. No code can tell, and no call changes it.
    ghost is_honest: { Self → Bool };

    /// What was written to it, and what of it is durable.
    ghost state: { Self → FileState };

    /// The number of bytes.
    fn len(&mut self) -> Result<usize, FileFault>
        ensures honest { is_honest self.new ≡ is_honest self.old }
        ensures same { IsTrue (is_honest self.old) → state self.new ≡ state self.old }
        ensures told { IsTrue (is_honest self.old) → (state self.old).owed ≡ []
            → IfOk result (λ n. n ≡ length (state self.old).disk.image) };

    /// Fills `out` with the bytes from `at` on, if the file has that many.
    fn read_at(&mut self, at: usize, out: &mut [u8]) -> Result<(), FileFault>
        ensures honest { is_honest self.new ≡ is_honest self.old }
        ensures same { IsTrue (is_honest self.old) → state self.new ≡ state self.old }
        ensures told { IsTrue (is_honest self.old) → (state self.old).owed ≡ []
            → OnOk result (Reads at (state self.old).disk.image out.old out.new) };

    /// Writes over what is there, and past the end: for the first time, or again.
    fn write_at(&mut self, at: usize, bytes: &[u8]) -> Result<(), FileFault>
        ensures honest { is_honest self.new ≡ is_honest self.old }
        ensures first { IsTrue (is_honest self.old) → IsFirst (Wrote at bytes.now) result (state self.old) (state self.new) }
        ensures again { IsTrue (is_honest self.old) → IsAgain (Wrote at bytes.now) result (state self.old) (state self.new) };

    /// Cuts the file to a length, whatever is owed. What was owed past the new end is so no more.
    fn cut(&mut self, len: usize) -> Result<(), FileFault>
        ensures honest { is_honest self.new ≡ is_honest self.old }
        ensures first { IsTrue (is_honest self.old) → IsFirst (CutTo len) result (state self.old) (state self.new) };

    /// Cuts the file again, if that is owed next.
    fn cut_again(&mut self, len: usize) -> Result<(), FileFault>
        ensures honest { is_honest self.new ≡ is_honest self.old }
        ensures again { IsTrue (is_honest self.old) → IsAgain (CutTo len) result (state self.old) (state self.new) };

    /// Makes durable what was changed, if none of it is owed.
    fn sync(&mut self) -> Result<(), FileFault>
        ensures honest { is_honest self.new ≡ is_honest self.old }
        ensures syncs { IsTrue (is_honest self.old) → Syncs result (state self.old) (state self.new) };

    /// Makes durable what was changed, and drops the system's copy of the file, as it may stand there
    /// from another process: what is read then is what the device has.
    fn drop_cache(&mut self) -> Result<(), FileFault>
        ensures honest { is_honest self.new ≡ is_honest self.old }
        ensures syncs { IsTrue (is_honest self.old) → Syncs result (state self.old) (state self.new) }
        ensures found { IsTrue (is_honest self.old) → OnOk result (IsFoundAgain (state self.old) (state self.new)) };

    /// The system's number of the error for which a call failed last, if it told one.
    fn last_error(&self) -> Option<i32>;
}
