//! Starts in a folder in memory, which keeps the calls on it.
//! The digest of a file in a folder: kept, agreeing, spoiled, cleared and missing.

ghost use Rattle.std.specs.Prelude.{None, OnErr, ◌≡◌, Some, IfErr};
ghost use Rattle.mt_store_files.specs.Faults.{IsOfFile, IsOfFolder, IsOfSync};

use super::*;
use mt_slots::FileDigest;
use mt_store_files::{FolderSystem, OsFolder};
use std::fmt::Write;

// A folder of files without a byte, and the calls on it. The one of this number fails.
#[derive(Drop)]
struct FakeFolder {
    files: Vec<FolderFile>,
    calls: String,
    count: usize,
    fails: usize,
}

impl FakeFolder {
    // A call on the folder itself.
    fn call(&mut self, name: &str) -> Result<(), StoreFault>
        ensures sync { IfErr result IsOfSync }
        ensures folder { IfErr result IsOfFolder }
    {
        self.count = self.count.saturating_add(1);
        if write!(self.calls, "{name}; ").is_err() || self.count == self.fails {
            return Err(StoreFault::System(None, io::Error::from(ErrorKind::Other)));
        }
        Ok(())
    }

    // A call on a file, which tells whether it is there.
    fn call_on(&mut self, alloc: Global, name: &str, file: FolderFile) -> Result<bool, StoreFault>
        ensures { IfErr result (IsOfFile file) }
    {
        let name = format!(in alloc; "{name} {file}")?;
        match self.call(name.as_str()) {
            Ok(()) => Ok(self.files.contains(&file)),
            Err(_) => Err(StoreFault::System(Some(file), io::Error::from(ErrorKind::Other))),
        }
    }
}

impl FolderSystem for FakeFolder {
    type File = MemDisk;

    type Lock = ();

    ghost calls = { λ _. None };

    fn make_folder<R: Files<File = File>>(&mut self, _rt: &R) -> Result<(), StoreFault> {
        self.call("make folder")
    }

    fn sync_parent<R: Files<File = File>>(
        &mut self,
        _rt: &R,
        _alloc: Global,
    ) -> Result<(), StoreFault> {
        self.call("sync parent")
    }

    fn lock<R: Files<File = File>>(&mut self, _rt: &R) -> Result<(), StoreFault> {
        self.call("lock")
    }

    fn sync(&mut self, _lock: &()) -> Result<(), StoreFault> {
        self.call("sync")
    }

    fn has<R: Files<File = File>>(
        &mut self,
        _rt: &R,
        alloc: Global,
        file: FolderFile,
    ) -> Result<bool, StoreFault> {
        self.call_on(alloc, "has", file)
    }

    fn open<R: Files<File = File>>(
        &mut self,
        _rt: &R,
        alloc: Global,
        file: FolderFile,
    ) -> Result<Option<MemDisk>, StoreFault> {
        if self.call_on(alloc, "open", file)? {
            Ok(Some(MemDisk::new(alloc, Vec::new(alloc), None)))
        } else {
            Ok(None)
        }
    }

    fn make<R: Files<File = File>>(
        &mut self,
        _rt: &R,
        alloc: Global,
        file: FolderFile,
    ) -> Result<MemDisk, StoreFault> {
        self.call_on(alloc, "make", file)?;
        self.files.push(file)?;
        Ok(MemDisk::new(alloc, Vec::new(alloc), None))
    }

    fn remove<R: Files<File = File>>(
        &mut self,
        _rt: &R,
        alloc: Global,
        file: FolderFile,
    ) -> Result<(), StoreFault> {
        self.call_on(alloc, "remove", file)?;
        self.files.retain(|it| *it != file);
        Ok(())
    }
}

// The calls of a start that finds a plain file and a slot, and is refused; and those of a new store, after all files of logs were
// removed.
const STARTS: &str =
    "lock; has wal-00; open wal-00; open wal-00-0; make wal-00-0; open wal-00-1; make wal-00-1; sync; open check-0; make check-0; open check-1; sync; remove wal-00-0; remove wal-00-1; remove check-0; sync; ";

const CREATES: &str =
    "remove wal-63-1.sha256; remove wal-63-1; make wal-00; make wal-00-0; make wal-00-1; sync; remove check-0.sha256; remove check-0; remove check-1.sha256; remove check-1; make check-0; make check-1; sync; ";

// Those by which a digest is kept, compared and cleared.
const DIGESTS: &str =
    "lock; open check-1; open check-1.sha256; make check-1.sha256; sync; open check-0.sha256; open check-1.sha256; open check-1; open wal-00.sha256; open wal-00-0.sha256; open wal-00-1.sha256; open check-1.sha256; ";

const FILES: [FolderFile; 2] = [
    FolderFile::Store(StoreFile::Log(0)),
    FolderFile::Store(StoreFile::Slot(Slot::Second)),
];

fn fake(alloc: Global, fails: usize) -> Result<FakeFolder, AllocError> {
    Ok(FakeFolder {
        files: FILES.to_vec(alloc)?,
        calls: String::new(alloc),
        count: 0,
        fails,
    })
}

// The folder of a start, over a fake one.
fn opened<R: Files<File = File> + Abort>(
    rt: &R,
    alloc: Global,
    fails: usize,
) -> StoreFolder<FakeFolder> {
    let folder = fake(alloc, fails).expect(rt, "memory");
    match StoreFolder::open(rt, alloc, folder) {
        Ok(folder) => folder,
        Err(_) => panic!(rt; "not opened"),
    }
}

// The files of one worker and the slots are opened.
fn open_files<R: Files<File = File>>(
    rt: &R,
    alloc: Global,
    folder: &mut StoreFolder<FakeFolder>,
) -> Result<(), StoreFault> {
    let _ = folder.open_logs(rt, alloc, 1)?;
    let _ = folder.open_slots(rt, alloc)?;
    Ok(())
}

#[test]
fn calls_on_a_folder_are_made_in_order(rt: HostRuntime) -> Result<(), Fail> {
    let alloc = rt.alloc();
    let mut folder = opened(&rt, alloc, 0);
    assert!(rt; open_files(&rt, alloc, &mut folder).is_ok());
    let _ = folder.refused(&rt, alloc, StoreFault::Memory);
    assert_eq!(rt; folder.system().calls.as_str(), STARTS);
    let Ok(mut folder) = StoreFolder::make(&rt, alloc, fake(alloc, 0)?) else {
        panic!(rt; "not made");
    };
    assert!(rt; folder.create_logs(&rt, alloc, 1).is_ok());
    assert!(rt; folder.create_slots(&rt, alloc).is_ok());
    let calls = folder.system().calls.as_str();
    assert!(rt;
        calls.starts_with("make folder; sync parent; lock; remove wal-00.sha256; remove wal-00; "),
        "{calls}"
    );
    assert!(rt; calls.ends_with(CREATES), "{calls}");
    Ok(())
}

// If any call of a start fails it is refused, and the folder has the files that it had.
#[test]
fn each_call_of_a_start_may_fail(rt: HostRuntime) -> Result<(), Fail> {
    let alloc = rt.alloc();
    assert!(rt; StoreFolder::open(&rt, alloc, fake(alloc, 1)?).is_err());
    for fails in 2..=12 {
        let mut folder = opened(&rt, alloc, fails);
        let fault = open_files(&rt, alloc, &mut folder)
            .err()
            .unwrap_or(StoreFault::Memory);
        assert_eq!(rt;
            folder.refused(&rt, alloc, fault).refusal(),
            Refusal::Device
        );
        let files = folder.system().files.as_slice();
        assert!(rt; files == FILES.as_slice(), "{fails}");
    }
    Ok(())
}

#[test]
fn digests_are_written_and_looked_for(rt: HostRuntime) {
    let alloc = rt.alloc();
    let mut folder = opened(&rt, alloc, 0);
    let slot = StoreFile::Slot(Slot::Second);
    let digest = FileDigest {
        len: 0,
        sha256: [0; 32],
    };
    assert!(rt; folder.keep_digest_of(&rt, alloc, slot).is_ok());
    assert!(rt; folder.keep_digest(&rt, alloc, slot, digest).is_ok());
    assert!(rt; folder.check_digests(&rt, alloc, 1).is_ok());
    assert!(rt; folder.clear_digest(&rt, alloc, slot).is_ok());
    assert_eq!(rt; folder.system().calls.as_str(), DIGESTS);
}

const FOLDER: &str = "mt_server_tests_digests";

const FILE: &str = "mt_server_tests_digests/check-0";

const DIGEST: &str = "mt_server_tests_digests/check-0.sha256";

// The digest file of a file that has `abc` after its gate: an open gate, the length and the SHA-256 of `abc`.
const ABC: [u8; 41] = [
    1, 0, 0, 0, 0, 0, 0, 0, 3, 0xba, 0x78, 0x16, 0xbf, 0x8f, 0x01, 0xcf, 0xea, 0x41, 0x41, 0x40,
    0xde, 0x5d, 0xae, 0x22, 0x23, 0xb0, 0x03, 0x61, 0xa3, 0x96, 0x17, 0x7a, 0x9c, 0xb4, 0x10, 0xff,
    0x61, 0xf2, 0x00, 0x15, 0xad,
];

// Whether all files agree with their digests. If not, one isn't what was written.
fn agree<R: Files<File = File> + Abort>(rt: &R, alloc: Global, folder: &mut StoreFolder) -> bool {
    match folder.check_digests(rt, alloc, 1) {
        Ok(()) => true,
        Err(StoreFault::Spoiled(_)) => false,
        Err(_) => panic!(rt; "another fault"),
    }
}

#[test]
fn a_file_is_compared_with_its_digest(rt: HostRuntime) -> Result<(), Fail> {
    let alloc = rt.alloc();
    let slot = StoreFile::Slot(Slot::First);
    let _ = fs::remove_dir_all(&rt, FOLDER);
    let Ok(mut folder) = StoreFolder::make(&rt, alloc, OsFolder::at(alloc, FOLDER)?) else {
        panic!(rt; "not made");
    };
    // Of a file that isn't there, or whose gate is closed, no digest is kept.
    assert!(rt; folder.keep_digest_of(&rt, alloc, slot).is_ok());
    fs::write(&rt, FILE, "\x00abc")?;
    assert!(rt; folder.keep_digest_of(&rt, alloc, slot).is_ok());
    assert!(rt; !fs::exists(&rt, DIGEST)?);
    fs::write(&rt, FILE, "\x01abc")?;
    assert!(rt; folder.keep_digest_of(&rt, alloc, slot).is_ok());
    let kept = fs::read(&rt, DIGEST)?;
    assert_eq!(rt; kept.as_slice(), ABC.as_slice());
    let rows = [
        ("\x01abc", true),
        ("\x01abd", false),
        ("\x01abcd", false),
        ("\x01", false),
        ("\x00abd", true),
        ("", true),
    ];
    for (image, wanted) in rows {
        fs::write(&rt, FILE, image)?;
        assert_eq!(rt; agree(&rt, alloc, &mut folder), wanted);
    }
    // A digest that was taken away, or cleared, is compared with nothing.
    fs::write(&rt, FILE, "\x01abd")?;
    fs::remove_file(&rt, DIGEST)?;
    assert!(rt; agree(&rt, alloc, &mut folder));
    fs::write(&rt, DIGEST, ABC)?;
    assert!(rt; !agree(&rt, alloc, &mut folder));
    assert!(rt; folder.clear_digest(&rt, alloc, slot).is_ok());
    assert!(rt; agree(&rt, alloc, &mut folder));
    fs::remove_dir_all(&rt, FOLDER)?;
    Ok(())
}
