//! A file in memory, of a system that behaves as Linux does, and whose calls fail if they are told to.
//!
//! Its calls are numbered from 1. After a call that was told to fail, every change since the last sync
//! that succeeded is owed: a sync succeeds without it, and a read still shows it. A cut lets go of what
//! lies past the new end. A call for which there is no memory, and a write that begins past the end, is
//! not made.
//!
//! It keeps each moment that it had, since the clock is real data: for tests, on small files.

ghost use Rattle.std.specs.Prelude.{◌≡◌, ◌+◌, ◌≤◌, true, List, length, ◌∷◌, IfOk, IsOk, OnOk, OnErr, Err};
ghost use Rattle.mt_disk.specs.{declared.system.FileFault.TheVariants.{NotMade as NothingMade}, Disk.{found_with, found_again, overwritten}};
ghost use Rattle.mt_disk.specs.{FileEdits.{FileEdit, edit_of}, Files.{LeavesOwed, all_owed, at_rest}};

use crate::edit::{Edit, make_room, remember};
use crate::mem::{copy_out, make_durable, note, overwrite};
use crate::system::{FileFault, SystemFile};
use std::alloc::{AllocError, AllocFailed, Global};

/// A file in memory, whose system keeps the rules of a `SystemFile`.
#[derive(Drop)]
pub struct MemFile {
    alloc: Global,
    image: Vec<u8>,
    durable: Vec<u8>,
    dirty: Vec<(usize, usize)>,
    past: Vec<(Vec<u8>, Vec<(usize, usize)>)>,
    unsynced: Vec<Edit>,
    made: usize,
    calls: u64,
    fails: Vec<u64>,
}

impl From<AllocError> for FileFault {
    ghost from_gives = { λ _ e. e ≡ NothingMade };

    fn from(_e: AllocError) -> FileFault {
        FileFault::NotMade
    }
}

impl<T: Drop> From<AllocFailed<T>> for FileFault {
    ghost from_gives = { λ _ e. e ≡ NothingMade };

    fn from(_e: AllocFailed<T>) -> FileFault {
        FileFault::NotMade
    }
}

impl MemFile {
    ghost use Rattle.mt_disk.specs.MemFiles.{mem_file_disk, mem_file_state, IsCommit};

    /// A file with these bytes, all of them durable. The calls with these numbers fail.
    pub fn new(alloc: Global, image: Vec<u8>, fails: Vec<u64>) -> Result<Self, AllocError>
        ensures state { IfOk result (λ m. mem_file_state m ≡ at_rest (found_with image.items)) }
        ensures calls { IfOk result (λ m. (m.calls ≡ 0) × (m.fails ≡ fails)) }
    {
        let durable = image.to_vec(alloc)?;
        Ok(MemFile {
            alloc,
            image,
            durable,
            dirty: Vec::new(alloc),
            past: Vec::new(alloc),
            unsynced: Vec::new(alloc),
            made: 0,
            calls: 0,
            fails,
        })
    }

    /// What the last sync made durable: what is there after a loss of power that loses all the rest.
    pub fn durable(&self) -> &[u8]
        ensures { result.now ≡ (mem_file_disk self.now).now.durable }
    {
        &self.durable
    }

    /// How many calls were made.
    pub fn calls(&self) -> u64
        ensures { result ≡ self.now.calls }
    {
        self.calls
    }

    // Whether the next call is told to fail.
    fn next_fails(&mut self) -> bool
        ensures state { mem_file_state self.new ≡ mem_file_state self.old }
        ensures unsynced { (self.new.unsynced ≡ self.old.unsynced) × (self.new.made ≡ self.old.made) }
        ensures image { (self.new.image ≡ self.old.image) × (self.new.durable ≡ self.old.durable) }
    {
        self.calls = self.calls.saturating_add(1);
        self.fails.contains(&self.calls)
    }

    // Makes a change that was owed, if it is the next one.
    fn again(&mut self, is_next: bool, fails: bool) -> Result<(), FileFault>
        requires { self.old.made + 1 ≤ length self.old.unsynced.items }
        ensures { (e : FileEdit) (rest : List FileEdit) → (mem_file_state self.old).owed ≡ e ∷ rest
            → LeavesOwed rest result (mem_file_state self.old) (mem_file_state self.new) }
    {
        if fails || !is_next {
            self.made = 0;
            return Err(FileFault::Failed);
        }
        self.made += 1;
        Ok(())
    }

    // Makes an image durable, which is what a read gives then.
    fn rest(&mut self, image: Result<Vec<u8>, AllocError>, fails: bool) -> Result<(), FileFault>
        ensures done { OnOk result (IfOk image (λ i. mem_file_state self.new ≡ at_rest (found_again i.items (mem_file_disk self.old)))) }
        ensures was_there { OnOk result (IsOk image) }
        ensures failed { OnErr result (mem_file_state self.new ≡ all_owed (mem_file_state self.old)) }
    {
        self.made = 0;
        let Ok(image) = image else {
            return Err(FileFault::Failed);
        };
        if fails
            || make_durable(
                self.alloc,
                &image,
                &mut self.durable,
                &mut self.dirty,
                &mut self.past,
            )
            .is_err()
        {
            return Err(FileFault::Failed);
        }
        self.image = image;
        self.unsynced.clear();
        Ok(())
    }

    // Makes a change for the first time, which leaves this image.
    fn commit(
        &mut self,
        image: Vec<u8>,
        range: (usize, usize),
        edit: Edit,
        fails: bool,
    ) -> Result<(), FileFault>
        ensures { IsCommit image.items range (edit_of edit) result (mem_file_state self.old) (mem_file_state self.new) }
    {
        let owes = self.made < self.unsynced.len();
        make_room(&mut self.unsynced, &edit)?;
        note(
            self.alloc,
            &mut self.durable,
            &mut self.dirty,
            &mut self.past,
            range,
        )?;
        self.image = image;
        remember(&mut self.unsynced, edit);
        self.made = if owes { 0 } else { self.unsynced.len() };
        if fails {
            self.made = 0;
            return Err(FileFault::Failed);
        }
        Ok(())
    }
}

// Whether a change is this write.
fn is_write(edit: &Edit, at: usize, bytes: &[u8]) -> bool {
    match edit {
        Edit::Write {
            at: place,
            bytes: written,
        } => *place == at && written.as_slice() == bytes,
        Edit::Cut(_) => false,
    }
}

// Whether a change is this cut.
fn is_cut(edit: &Edit, len: usize) -> bool {
    match edit {
        Edit::Write { .. } => false,
        Edit::Cut(to) => *to == len,
    }
}

// These bytes written over an image, if they begin within it; and the range that they take.
fn written(
    alloc: Global,
    image: &[u8],
    at: usize,
    bytes: &[u8],
) -> Result<(Vec<u8>, (usize, usize)), FileFault>
    ensures image { IfOk result (λ r. (at ≤ length image.now) × (r.0.items ≡ overwritten at bytes.now image.now)) }
    ensures range { IfOk result (λ r. r.1 ≡ (at, at + length bytes.now)) }
    ensures err { (e : _) → result ≡ Err e → e ≡ NothingMade }
{
    let Some(end) = at.checked_add(bytes.len()) else {
        return Err(FileFault::NotMade);
    };
    let mut next = image.to_vec(alloc)?;
    overwrite(alloc, &mut next, at, bytes)?;
    Ok((next, (at, end)))
}

impl SystemFile for MemFile {
    ghost use Rattle.mt_disk.specs.MemFiles.{mem_file_state};

    ghost is_honest = { λ _. true };

    ghost state = { mem_file_state };

    fn len(&mut self) -> Result<usize, FileFault> {
        if self.next_fails() {
            return Err(FileFault::Failed);
        }
        Ok(self.image.len())
    }

    fn read_at(&mut self, at: usize, out: &mut [u8]) -> Result<(), FileFault> {
        if self.next_fails() {
            return Err(FileFault::Failed);
        }
        copy_out(&self.image, at, out)?;
        Ok(())
    }

    fn write_at(&mut self, at: usize, bytes: &[u8]) -> Result<(), FileFault> {
        let fails = self.next_fails();
        if self.made < self.unsynced.len() {
            let is_next = is_write(&self.unsynced[self.made], at, bytes);
            return self.again(is_next, fails);
        }
        let edit = Edit::Write {
            at,
            bytes: bytes.to_vec(self.alloc)?,
        };
        let (image, range) = written(self.alloc, &self.image, at, bytes)?;
        self.commit(image, range, edit, fails)
    }

    fn cut(&mut self, len: usize) -> Result<(), FileFault> {
        let fails = self.next_fails();
        let mut image = self.image.to_vec(self.alloc)?;
        image.truncate(len);
        let range = (len, self.durable.len());
        self.commit(image, range, Edit::Cut(len), fails)
    }

    fn cut_again(&mut self, len: usize) -> Result<(), FileFault> {
        let fails = self.next_fails();
        if self.made >= self.unsynced.len() {
            return Ok(());
        }
        let is_next = is_cut(&self.unsynced[self.made], len);
        self.again(is_next, fails)
    }

    fn sync(&mut self) -> Result<(), FileFault> {
        let fails = self.next_fails();
        if self.made < self.unsynced.len() && !fails {
            return Ok(());
        }
        let image = self.image.to_vec(self.alloc);
        self.rest(image, fails)
    }

    fn drop_cache(&mut self) -> Result<(), FileFault> {
        let fails = self.next_fails();
        let image = if self.made < self.unsynced.len() {
            self.durable.to_vec(self.alloc)
        } else {
            self.image.to_vec(self.alloc)
        };
        self.rest(image, fails)
    }

    fn last_error(&self) -> Option<i32> {
        None
    }
}
