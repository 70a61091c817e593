//! A disk on a file of a system. It keeps the rules of a disk if the file keeps its own.
//!
//! It remembers what was written or cut since the last sync that succeeded. After any failure it makes
//! all of that again before it does anything else, except that a cut comes first: what was written past
//! the new end is let go, and its memory given back. So a sync that succeeds makes durable what a read
//! gives, also after one that failed; and a write for which there is no space is not made again once it
//! was cut off.

ghost use Rattle.std.specs.Prelude.{◌≡◌, ◌⊎◌, ◌∷◌, [], ℕ, true, false, List, length, IsTrue, IfOk, IfErr, OnOk, OnErr, is_ok, None};
ghost use Rattle.mt_disk.specs.{declared.system.FileFault.TheVariants.{NotMade as NothingMade}, Disk.{CountsFailure, Attempts, synced}};
ghost use Rattle.mt_disk.specs.{FileEdits.{FileEdit, CutTo, BeginsWithin, edit_of, edits_of, range_of, edited}, Files.{IsFirst, IsAgain, LeavesOwed, Keeps}};

use crate::disk::{DeviceFailed, Disk, count_failure};
use crate::edit::{Edit, make_room, remember};
use crate::system::{FileFault, SystemFile};
use crate::system_error::SystemError;
use std::alloc::Global;
use std::marker::Model;

// More room than this for changes is given back after a sync.
const KEPT_ROOM: usize = 64;

/// A disk on a file. Contracts see the file, how many calls have failed, and whether the last of these
/// was refused memory.
#[derive(Drop)]
pub struct CachedDisk<F: SystemFile> {
    file: F,
    alloc: Global,
    unsynced: Vec<Edit>,
    is_owed: bool,
    failures: u64,
    was_refused: bool,
}

impl<F: SystemFile> Model for CachedDisk<F> {
    ghost use Rattle.std.specs.Prelude.{ℕ, Bool, IsTrue};

    ghost Value = { F × ℕ × Bool };

    ghost use Rattle.mt_disk.specs.{FileEdits.edits_of, Files.Keeps};

    ghost view = { λ d. (d.file, d.failures, d.was_refused) };

    ghost invariant = { λ d. IsTrue (F.is_honest d.file) → Keeps (F.state d.file) (edits_of d.unsynced.items) d.is_owed };
}

impl<F: SystemFile> CachedDisk<F> {
    ghost use Rattle.mt_disk.specs.Files.{IsFoundAgain};

    /// A disk on a file that is there. Another process may have left it with changes that never came to
    /// the device, although a read gives them: the system's copy of it is dropped first. If that fails,
    /// the file comes back.
    pub fn found(alloc: Global, mut file: F) -> Result<Self, (DeviceFailed, F)>
        ensures found { IfOk result (λ d. IsTrue (F.is_honest file) → IsFoundAgain (F.state file) (F.state d.0)) }
        ensures honest { IfOk result (λ d. F.is_honest d.0 ≡ F.is_honest file) }
        ensures failures { IfOk result (λ d. d.1 ≡ 0) }
        ensures err { IfErr result (λ e. F.is_honest e.1 ≡ F.is_honest file) }
    {
        match file.drop_cache() {
            Ok(()) => Ok(CachedDisk {
                file,
                alloc,
                unsynced: Vec::new(alloc),
                is_owed: false,
                failures: 0,
                was_refused: false,
            }),
            Err(_) => Err((DeviceFailed, file)),
        }
    }

    /// The file, to be looked at.
    pub fn file(&self) -> &F
        ensures { result.now ≡ self.now.0 }
    {
        &self.file
    }

    /// The file, as this process leaves it.
    pub fn into_file(self) -> F
        ensures { result ≡ self.0 }
    {
        let CachedDisk {
            file,
            alloc: _,
            unsynced: _,
            is_owed: _,
            failures: _,
            was_refused: _,
        } = self;
        file
    }
}

// Counts a fault, and notes whether memory was refused.
fn counted<T>(
    failures: &mut u64,
    was_refused: &mut bool,
    answer: Result<T, FileFault>,
) -> Result<T, DeviceFailed>
    ensures count { CountsFailure result failures.old failures.new }
    ensures variant { is_ok result ≡ is_ok answer }
    ensures value { IfOk result (λ x. answer ≡ Ok x) }
    ensures refused { OnErr result (IsTrue was_refused.new → answer ≡ Err NothingMade) }
{
    match answer {
        Ok(value) => Ok(value),
        Err(fault) => {
            *was_refused = fault == FileFault::NotMade;
            count_failure(failures);
            Err(DeviceFailed)
        }
    }
}

// Makes a change of a file for the first time.
fn make_first<F: SystemFile>(file: &mut F, edit: &Edit) -> Result<(), FileFault>
    ensures honest { F.is_honest file.new ≡ F.is_honest file.old }
    ensures first { IsTrue (F.is_honest file.old) → IsFirst (edit_of edit.now) result (F.state file.old) (F.state file.new) }
{
    match edit {
        Edit::Write { at, bytes } => file.write_at(*at, bytes),
        Edit::Cut(len) => file.cut(*len),
    }
}

// Makes a change of a file again.
fn make_next<F: SystemFile>(file: &mut F, edit: &Edit) -> Result<(), FileFault>
    ensures honest { F.is_honest file.new ≡ F.is_honest file.old }
    ensures again { IsTrue (F.is_honest file.old) → IsAgain (edit_of edit.now) result (F.state file.old) (F.state file.new) }
{
    match edit {
        Edit::Write { at, bytes } => file.write_at(*at, bytes),
        Edit::Cut(len) => file.cut_again(*len),
    }
}

// Makes again what is owed.
fn make_again<F: SystemFile>(file: &mut F, edits: &[Edit]) -> Result<(), FileFault>
    ensures honest { F.is_honest file.new ≡ F.is_honest file.old }
    ensures again { IsTrue (F.is_honest file.old) → (F.state file.old).unsynced ≡ edits_of edits.now
        → (F.state file.old).owed ≡ edits_of edits.now → LeavesOwed [] result (F.state file.old) (F.state file.new) }
{
    for edit in edits {
        make_next(file, edit)?;
    }
    Ok(())
}

// Makes again what is owed, if anything is.
fn mend<F: SystemFile>(file: &mut F, unsynced: &[Edit], is_owed: &mut bool) -> Result<(), FileFault>
    ensures honest { F.is_honest file.new ≡ F.is_honest file.old }
    ensures keeps { IsTrue (F.is_honest file.old) → Keeps (F.state file.old) (edits_of unsynced.now) is_owed.old
        → Keeps (F.state file.new) (edits_of unsynced.now) is_owed.new }
    ensures same { IsTrue (F.is_honest file.old) → Keeps (F.state file.old) (edits_of unsynced.now) is_owed.old
        → (F.state file.new).disk ≡ (F.state file.old).disk }
    ensures whole { OnOk result (is_owed.new ≡ false) }
{
    if *is_owed {
        make_again(file, unsynced)?;
        *is_owed = false;
    }
    Ok(())
}

// Makes a change for the first time, and remembers it: a write if nothing is owed, or a cut.
fn make<F: SystemFile>(
    file: &mut F,
    unsynced: &mut Vec<Edit>,
    is_owed: &mut bool,
    edit: Edit,
) -> Result<(), FileFault>
    requires { (is_owed.old ≡ false) ⊎ ((len : ℕ) × (edit_of edit ≡ CutTo len)) }
    ensures honest { F.is_honest file.new ≡ F.is_honest file.old }
    ensures keeps { IsTrue (F.is_honest file.old) → Keeps (F.state file.old) (edits_of unsynced.old.items) is_owed.old
        → Keeps (F.state file.new) (edits_of unsynced.new.items) is_owed.new }
    ensures crash { IsTrue (F.is_honest file.old) → Keeps (F.state file.old) (edits_of unsynced.old.items) is_owed.old
        → Attempts (range_of (edit_of edit) (F.state file.old).disk) result (F.state file.old).disk (F.state file.new).disk }
    ensures image { IsTrue (F.is_honest file.old) → Keeps (F.state file.old) (edits_of unsynced.old.items) is_owed.old
        → BeginsWithin (edit_of edit) (F.state file.old).disk.image
        → OnOk result ((F.state file.new).disk.image ≡ edited (edit_of edit) (F.state file.old).disk.image) }
    ensures refused { IsTrue (F.is_honest file.old) → Keeps (F.state file.old) (edits_of unsynced.old.items) is_owed.old
        → result ≡ Err NothingMade → (F.state file.new).disk ≡ (F.state file.old).disk }
{
    if make_room(unsynced, &edit).is_err() {
        return Err(FileFault::NotMade);
    }
    let owes = *is_owed && !unsynced.is_empty();
    let made = make_first(file, &edit);
    if made == Err(FileFault::NotMade) {
        return made;
    }
    remember(unsynced, edit);
    *is_owed = owes || made.is_err();
    made
}

// Makes again what is owed, and then a change for the first time.
fn change<F: SystemFile>(
    file: &mut F,
    unsynced: &mut Vec<Edit>,
    is_owed: &mut bool,
    edit: Edit,
) -> Result<(), FileFault>
    ensures honest { F.is_honest file.new ≡ F.is_honest file.old }
    ensures keeps { IsTrue (F.is_honest file.old) → Keeps (F.state file.old) (edits_of unsynced.old.items) is_owed.old
        → Keeps (F.state file.new) (edits_of unsynced.new.items) is_owed.new }
    ensures crash { IsTrue (F.is_honest file.old) → Keeps (F.state file.old) (edits_of unsynced.old.items) is_owed.old
        → Attempts (range_of (edit_of edit) (F.state file.old).disk) result (F.state file.old).disk (F.state file.new).disk }
    ensures image { IsTrue (F.is_honest file.old) → Keeps (F.state file.old) (edits_of unsynced.old.items) is_owed.old
        → BeginsWithin (edit_of edit) (F.state file.old).disk.image
        → OnOk result ((F.state file.new).disk.image ≡ edited (edit_of edit) (F.state file.old).disk.image) }
    ensures refused { IsTrue (F.is_honest file.old) → Keeps (F.state file.old) (edits_of unsynced.old.items) is_owed.old
        → result ≡ Err NothingMade → (F.state file.new).disk ≡ (F.state file.old).disk }
{
    mend(file, unsynced, is_owed)?;
    make(file, unsynced, is_owed, edit)
}

// Notes what a sync that was tried leaves owed.
fn note_sync(synced: Result<(), FileFault>, unsynced: &mut Vec<Edit>, is_owed: &mut bool)
    ensures ok { OnOk synced ((edits_of unsynced.new.items ≡ []) × (is_owed.new ≡ is_owed.old)) }
    ensures err { OnErr synced ((unsynced.new ≡ unsynced.old) × (is_owed.new ≡ true)) }
{
    if synced.is_ok() {
        unsynced.clear();
        unsynced.shrink_to(KEPT_ROOM);
    } else {
        *is_owed = true;
    }
}

// Makes again what is owed, and syncs.
fn sync_all<F: SystemFile>(
    file: &mut F,
    unsynced: &mut Vec<Edit>,
    is_owed: &mut bool,
) -> Result<(), FileFault>
    ensures honest { F.is_honest file.new ≡ F.is_honest file.old }
    ensures keeps { IsTrue (F.is_honest file.old) → Keeps (F.state file.old) (edits_of unsynced.old.items) is_owed.old
        → Keeps (F.state file.new) (edits_of unsynced.new.items) is_owed.new }
    ensures done { IsTrue (F.is_honest file.old) → Keeps (F.state file.old) (edits_of unsynced.old.items) is_owed.old
        → OnOk result ((F.state file.new).disk ≡ synced (F.state file.old).disk) }
    ensures failed { IsTrue (F.is_honest file.old) → Keeps (F.state file.old) (edits_of unsynced.old.items) is_owed.old
        → OnErr result ((F.state file.new).disk ≡ (F.state file.old).disk) }
{
    mend(file, unsynced, is_owed)?;
    let synced = file.sync();
    note_sync(synced, unsynced, is_owed);
    synced
}

// Makes again what is owed, and drops the system's copy of the file.
fn drop_all<F: SystemFile>(
    file: &mut F,
    unsynced: &mut Vec<Edit>,
    is_owed: &mut bool,
) -> Result<(), FileFault>
    ensures honest { F.is_honest file.new ≡ F.is_honest file.old }
    ensures keeps { IsTrue (F.is_honest file.old) → Keeps (F.state file.old) (edits_of unsynced.old.items) is_owed.old
        → Keeps (F.state file.new) (edits_of unsynced.new.items) is_owed.new }
    ensures done { IsTrue (F.is_honest file.old) → Keeps (F.state file.old) (edits_of unsynced.old.items) is_owed.old
        → OnOk result ((F.state file.new).disk ≡ synced (F.state file.old).disk) }
    ensures failed { IsTrue (F.is_honest file.old) → Keeps (F.state file.old) (edits_of unsynced.old.items) is_owed.old
        → OnErr result ((F.state file.new).disk ≡ (F.state file.old).disk) }
{
    mend(file, unsynced, is_owed)?;
    let dropped = file.drop_cache();
    note_sync(dropped, unsynced, is_owed);
    dropped
}

impl<F: SystemFile> Disk for CachedDisk<F> {
    ghost use Rattle.std.specs.Prelude.{None};

    ghost is_honest = { λ d. F.is_honest d.0 };

    ghost state = { λ d. (F.state d.0).disk };

    ghost failures = { λ d. d.1 };

    ghost plan = { λ _. None };

    ghost was_refused = { λ d. d.2 };

    fn len(&mut self) -> Result<usize, DeviceFailed> {
        let mended = mend(&mut self.file, &self.unsynced, &mut self.is_owed);
        let len = match mended {
            Ok(()) => self.file.len(),
            Err(fault) => Err(fault),
        };
        counted(&mut self.failures, &mut self.was_refused, len)
    }

    fn read(&mut self, at: usize, out: &mut [u8]) -> Result<(), DeviceFailed> {
        let mended = mend(&mut self.file, &self.unsynced, &mut self.is_owed);
        let read = match mended {
            Ok(()) => self.file.read_at(at, out),
            Err(fault) => Err(fault),
        };
        counted(&mut self.failures, &mut self.was_refused, read)
    }

    fn write_at(&mut self, at: usize, bytes: &[u8]) -> Result<(), DeviceFailed> {
        let written = match bytes.to_vec(self.alloc) {
            Ok(bytes) => change(
                &mut self.file,
                &mut self.unsynced,
                &mut self.is_owed,
                Edit::Write { at, bytes },
            ),
            Err(_) => Err(FileFault::NotMade),
        };
        counted(&mut self.failures, &mut self.was_refused, written)
    }

    fn cut(&mut self, len: usize) -> Result<(), DeviceFailed> {
        let cut = make(
            &mut self.file,
            &mut self.unsynced,
            &mut self.is_owed,
            Edit::Cut(len),
        );
        counted(&mut self.failures, &mut self.was_refused, cut)
    }

    fn sync(&mut self) -> Result<(), DeviceFailed> {
        let synced = sync_all(&mut self.file, &mut self.unsynced, &mut self.is_owed);
        counted(&mut self.failures, &mut self.was_refused, synced)
    }

    fn drop_cache(&mut self) -> Result<(), DeviceFailed> {
        let dropped = drop_all(&mut self.file, &mut self.unsynced, &mut self.is_owed);
        counted(&mut self.failures, &mut self.was_refused, dropped)
    }

    fn last_error(&self) -> Option<SystemError> {
        if self.was_refused {
            return Some(SystemError::OutOfMemory);
        }
        self.file.last_error().map(SystemError::Number)
    }
}
