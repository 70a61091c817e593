//! What the sessions of several workers do, one act after the other, and what their logs hold then.

ghost use Rattle.mt_book.specs.{Keeping.IsUnasked, Names.AreNames};

use super::images::hold_all;
use super::*;

/// A new store with these slots. Some calls of its files fail: of each worker's plain one, of the even and of the odd one. The
/// system tells this of them, if anything.
pub fn new_store(
    rt: &impl Abort,
    alloc: Global,
    fails: &[[Fails; 3]],
    error: Option<SystemError>,
    slots: StoreSlots<FlakyDisk>,
) -> Store<FlakyDisk>
    ensures { IsUnasked result.source.state }
{
    let mut files = Vec::new(alloc);
    for fails in fails {
        let bare = plain_image(alloc, Vec::new(alloc));
        assert!(rt; files.push(files_with(bare, *fails, error)).is_ok());
    }
    let tenants = tenant_7(rt, alloc);
    assert!(rt; !files.is_empty() && files.len() <= 64);
    match Store::create(alloc, files, slots, tenants) {
        Ok(store) => store,
        Err(_) => panic!(rt; "no store is made"),
    }
}

/// A new store of two workers, of whose eight disks these calls fail. Of the logs' failures the system tells this, if anything.
pub fn store_of_two(
    rt: &impl Abort,
    alloc: Global,
    fails: [Fails; 8],
    error: Option<SystemError>,
) -> Store<FlakyDisk>
    ensures { IsUnasked result.source.state }
{
    let [a, b, c, d, e, f, first, second] = fails;
    let slots = slots_with(alloc, [first, second]);
    new_store(rt, alloc, &[[a, b, c], [d, e, f]], error, slots)
}

/// The store that files and slots hold.
pub fn recovered(
    rt: &impl Abort,
    alloc: Global,
    images: Vec<FileImages>,
    slots: StoreSlots<FlakyDisk>,
) -> Store<FlakyDisk>
    ensures { IsUnasked result.source.state }
{
    let mut files = Vec::new(alloc);
    for image in images {
        assert!(rt; files.push(files_with(image, SOUND, None)).is_ok());
    }
    let tenants = tenant_7(rt, alloc);
    assert!(rt; files.len() <= 64);
    match Store::recover(alloc, files, slots, tenants) {
        Ok(store) => store,
        Err(_) => panic!(rt; "no store is recovered"),
    }
}

/// Slots on disks without a byte.
pub fn bare_slots(alloc: Global) -> StoreSlots<FlakyDisk> {
    slots_with(alloc, [NEVER; 2])
}

/// Slots whose files have these images.
pub fn slots_of(
    alloc: Global,
    [first, second]: [&[u8]; 2],
) -> Result<StoreSlots<FlakyDisk>, AllocError> {
    let first = FlakyDisk::new(first.to_vec(alloc)?, NEVER);
    let second = FlakyDisk::new(second.to_vec(alloc)?, NEVER);
    Ok(StoreSlots::found(first, second))
}

/// Slots on disks without a byte, if some calls of the disks fail.
pub fn slots_with(alloc: Global, fails: [Fails; 2]) -> StoreSlots<FlakyDisk> {
    let [first, second] = fails;
    let disk = |fails: Fails| FlakyDisk::new(Vec::new(alloc), fails);
    StoreSlots::found(disk(first), disk(second))
}

impl<L: Ledger, J: Naming, R: Wait + Clock + Log + Abort> Served<'_, L, J, R> {
    // A session of each worker.
    fn sessions(&self) -> Vec<Session<'_, L, J, R>> {
        let mut sessions = Vec::new(self.alloc);
        for worker in 0..self.logs.len().min(64) as u8 {
            let session = self.session(worker);
            sessions.push(session).expect(self.rt, "memory");
        }
        sessions
    }

    // How many keys each of the sessions has put.
    fn counts_of(&self, sessions: &[Session<'_, L, J, R>]) -> Vec<u16> {
        let mut counts = Vec::new(self.alloc);
        for session in sessions {
            counts.push(session.count).expect(self.rt, "memory");
        }
        counts
    }

    // What stands in the files of its logs now.
    fn images_now(&self) -> Vec<FileImages> {
        let mut images = Vec::new(self.alloc);
        for log in &self.logs {
            let image = image_of(self.alloc, &*log.lock(self.rt));
            let image = image.expect(self.rt, "an image");
            images.push(image).expect(self.rt, "memory");
        }
        images
    }

    // Whether all that was put is in the files.
    fn is_kept(&self, sessions: &[Session<'_, L, J, R>]) -> bool {
        let counts = self.counts_of(sessions);
        let tenants = tenant_7(self.rt, self.alloc);
        hold_all(self.alloc, &self.images_now(), &tenants, &counts) == Ok(true)
    }

    // Whether a log is there, and open.
    fn is_open(&self, log: usize) -> bool {
        match self.logs.get(log) {
            Some(log) => log.lock(self.rt).mark().is_some(),
            None => false,
        }
    }

    // How many bytes of a log have been read, if it is there.
    fn bytes_read(&self, log: usize) -> Option<u64> {
        match self.logs.get(log)?.lock(self.rt).slot() {
            LogSlot::Open(log) => Some(log.disk().bytes_read()),
            LogSlot::Failed(log) => Some(log.disk().bytes_read()),
            LogSlot::Closed(disk) => Some(disk.bytes_read()),
            LogSlot::Away => None,
        }
    }

    // Whether an act comes out as it should. A log is `open`, or `closed`, or a byte of it has been `read` in all. After
    // `rise` each log is open, and goes further up than it was last seen to. Else the client of a worker does it. When it settles,
    // all that was put is in the files.
    fn comes_out(&self, sessions: &mut [Session<'_, L, J, R>], seen: &mut u64, act: &str) -> bool {
        let (worker, word) = act.split_once(' ').unwrap_or(("", act));
        let worker = worker.parse().unwrap_or(0);
        match word {
            "rise" => match self.least_mark() {
                Some(least) => {
                    let is_later = *seen < least;
                    *seen = least;
                    is_later
                }
                None => false,
            },
            "closed" => !self.is_open(worker),
            "open" => self.is_open(worker),
            "read 1" => self.bytes_read(worker) == Some(1),
            _ => {
                let is_done = match sessions.get_mut(worker) {
                    Some(session) => session.does(word),
                    None => false,
                };
                is_done && (word != "settles" || self.is_kept(sessions))
            }
        }
    }

    // Plays a story, each of whose acts comes out as it should; how many keys each client has put.
    fn play(&self, acts: &str) -> Vec<u16> {
        let mut sessions = self.sessions();
        let mut seen = 0;
        for act in acts.split(", ") {
            assert!(self.rt;
                self.comes_out(&mut sessions, &mut seen, act),
                "{act} of {acts}"
            );
        }
        self.counts_of(&sessions)
    }
}

/// What clients do, one act after the other.
#[derive(Clone, Copy)]
pub struct Acts<'a>(pub &'a str);

// A store over such disks, and a story.
fn run<R: Wait + Clock + Log + Abort>(
    rt: &R,
    alloc: Global,
    fails: &[[Fails; 3]],
    error: Option<SystemError>,
    acts: &str,
) {
    let store = new_store(rt, alloc, fails, error, bare_slots(alloc));
    let names = Names::new(store.state());
    run_named::<Brand, Brand, _>(rt, alloc, names, store, Acts(acts));
}

// The same, over this store and under these names. All that was put is in the files at the end.
fn run_named<L: Ledger, J: Naming, R: Wait + Clock + Log + Abort>(
    rt: &R,
    alloc: Global,
    names: Names,
    store: Store<FlakyDisk>,
    acts: Acts<'_>,
)
    requires names { AreNames L.name L.parts J.name J.parts J.book names store.source.state }
    requires unasked { IsUnasked store.source.state }
{
    let served = Served::<L, J, R>::new(rt, alloc, names, store, 0);
    let counts = served.play(acts.0);
    let (_, logs, _) = served.joined().into_parts();
    let images = logs_left(rt, alloc, &logs, Left::All);
    let held = hold_all(alloc, &images, &tenant_7(rt, alloc), &counts);
    assert!(rt; held == Ok(true), "at the end");
}

// Two workers, both past 1,024 answers, and Settles of either.
const TWO: &str =
    "0 puts 3, 1 puts 5, 1 settles, 0 puts 1500, 1 puts 1300, 0 settles, 1 gets 700, 1 puts 30, 1 settles, 0 puts 2";

// Four workers, one after the other past 1,024 answers.
const FOUR: &str =
    "3 puts 1030, 1 puts 1, 0 puts 1100, 2 settles, 2 puts 1024, 1 puts 1024, 1 settles, 3 puts 2100, 0 puts 7, 3 settles, \
    2 puts 1";

// One client of four workers, which never settles.
const ONE_BUSY: &str = "2 puts 1, 2 gets 4095, rise, 2 puts 4096, rise";

#[test]
fn each_log_has_its_own_workers_changes_once(rt: HostRuntime) {
    let alloc = rt.alloc();
    run(&rt, alloc, &[SOUND; 2], None, TWO);
    run(&rt, alloc, &[SOUND; 4], None, FOUR);
    run(&rt, alloc, &[SOUND; 4], None, ONE_BUSY);
}

// The disk of log 1 fails four times in a row: at the append of the first Settle, and then at the first call of
// each opening. Worker 1 has its 1,024th answer after that. Of the log no more is read than the gate at its end.
const OWN_OPENS: &str =
    "0 puts 10, 1 puts 10, 0 fails, 1 closed, 1 puts 5, 1 fails, 0 gets 5, 0 fails, 0 puts 3, 1 fails, 1 closed, 1 puts 1009, \
    1 open, 1 read 1, 0 puts 1, 0 settles";

// The same, and worker 0 alone goes on: its second 1,024th answer opens the log.
const OTHER_OPENS: &str =
    "1 puts 10, 0 fails, 0 fails, 0 fails, 0 fails, 0 puts 2047, 1 closed, 0 puts 1";

// The disk of log 1 fails ten times in a row, while worker 1 puts more than two batches take. Its next turn opens
// the log, and all of that goes into it.
const CATCHES_UP: &str =
    "1 puts 10, 0 fails, 1 puts 10000, 1 closed, 1 puts 1024, 1 open, 1 read 1, 0 puts 1, 0 settles";

// The disk of log 1 has no memory for the append of the first Settle, nor for the first call of the opening after it.
const WANTS_MEMORY: &str =
    "0 puts 10, 1 puts 10, 0 refused, 1 closed, 1 refused, 1 puts 5, 0 settles, 1 open, 0 puts 1";

// A story over two logs, the second of whose plain files fails, and the system tells why. So do the warnings.
fn run_failing<R: Wait + Clock + Abort>(
    rt: &R,
    alloc: Global,
    fails: Fails,
    (error, cause): (Option<SystemError>, &str),
    acts: &str,
) {
    let logged = Logged::new(rt, Level::Warn, Locked::new(rt, Vec::new(alloc)));
    run(&logged, alloc, &[SOUND, [fails, NEVER, NEVER]], error, acts);
    let (_, sink) = logged.into_parts();
    let lines = sink.into_inner();
    let wanted = format!(in alloc;
        "[WARN  mt_stored::shared] log 1: its disk failed; it is closed until a write succeeds{cause}\n\
        [WARN  mt_stored::shared] log 1: open again\n"
    );
    assert_eq!(rt; lines.as_slice(), wanted.expect(rt, "memory").as_bytes());
}

#[test]
fn a_disk_that_fails_makes_nobody_wait(rt: HostRuntime) {
    let alloc = rt.alloc();
    let full = (FULL, ": wal-01: no space left on device");
    run_failing(&rt, alloc, (4, 8), (None, ""), OWN_OPENS);
    run_failing(&rt, alloc, (4, 8), full, OWN_OPENS);
    run_failing(&rt, alloc, (4, 8), (None, ""), OTHER_OPENS);
}

#[test]
fn a_settle_whose_log_is_refused_memory_tells_that(rt: HostRuntime) {
    let want = (WANT, ": wal-01: out of memory");
    run_failing(&rt, rt.alloc(), (4, 6), want, WANTS_MEMORY);
}

#[test]
fn a_log_that_was_closed_for_long_comes_up_in_parts(rt: HostRuntime) {
    run_failing(&rt, rt.alloc(), (4, 14), (None, ""), CATCHES_UP);
}
