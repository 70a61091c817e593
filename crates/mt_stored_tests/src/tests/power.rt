//! A server that loses its power in a turn of its own: of one of its disks no call is made any more from some call on. Each file
//! agrees with its digest then. The next server loses its power as soon as it has started.
//! Digests of a store's files, kept on disks in memory.

ghost use Rattle.mt_book.specs.{Keeping.IsUnasked, Names.AreNames};

use super::checks::copies_of;
use super::images::pairs_left;
use super::*;
use mt_digests::{FileDigest, agrees, clear_digest, digest_of, write_digest};

// In each round two clients put two keys each, one of them settles, and a turn is made.
const ROUNDS: u16 = 3;

// Plays all rounds. In how many of them all was put and settled.
fn play<L: Ledger, J: Naming, R: Wait + Clock + Log + Abort>(
    served: &Served<'_, L, J, R>,
    disks: &Mutex<Vec<FlakyDisk>>,
) -> u16 {
    let mut first = served.session(0);
    let mut second = served.session(1);
    let mut turner = served.turner(KeptDigests {
        rt: served.rt,
        alloc: served.alloc,
        logs: &served.logs,
        disks,
    });
    let mut settled = 0;
    for round in 1..=ROUNDS {
        assert!(served.rt; first.puts(2) && second.puts(2));
        if second.settle_alone().is_ok() {
            settled = round;
        }
        turner.make_turn_if_due(&served.turns);
    }
    settled
}

// Of each client how many of its keys there are, if they are its first ones.
fn counts_in(pairs: &[TenantPair]) -> Option<[u16; 2]> {
    let mut counts = [0, 0];
    for pair in pairs {
        let client = *pair.key.as_bytes().first()?;
        let count = counts.get_mut(usize::from(client))?;
        if pair.key.as_bytes() != key_of(client, *count).as_slice() {
            return None;
        }
        *count = count.saturating_add(1);
    }
    Some(counts)
}

// The images of two workers' files and of both slots agree with their digests.
fn expect_agreed(
    rt: &impl Abort,
    alloc: Global,
    files: &[FileImages],
    [first, second]: [&[u8]; 2],
    digests: &[FlakyDisk],
    left: Left,
) {
    let [one, other] = files else {
        panic!(rt; "the files of two workers are there");
    };
    let images = [
        one.plain.as_slice(),
        one.even.as_slice(),
        one.odd.as_slice(),
        other.plain.as_slice(),
        other.even.as_slice(),
        other.odd.as_slice(),
        first,
        second,
    ];
    assert_eq!(rt; digests.len(), images.len());
    for (place, (image, digest)) in images.iter().zip(digests).enumerate() {
        assert!(rt;
            does_agree(rt, alloc, image, digest, left),
            "{place}, {left:?}"
        );
    }
}

// The pairs of a store with these images, which starts and loses its power before it serves.
fn pairs_after_a_start(
    rt: &impl Abort,
    alloc: Global,
    files: Vec<FileImages>,
    slots: [&[u8]; 2],
) -> Vec<TenantPair> {
    let slots = slots_of(alloc, slots).expect(rt, "memory");
    let (_, logs, slots) = recovered(rt, alloc, files, slots).into_parts();
    let locks = locked_logs(alloc, logs).expect(rt, "memory");
    let logs = unlocked_logs(alloc, locks).expect(rt, "memory");
    let slots = copies_of(alloc, slots.expect(rt, "the slots"));
    let files = logs_left(rt, alloc, &logs, Left::All);
    let mut slots = slots.expect(rt, "memory");
    let pairs = pairs_left(alloc, &files, &mut slots, &tenant_7(rt, alloc));
    pairs.expect(rt, "a recovery")
}

// Plays a store, whose disk stops at a call. Recovers what is left of it twice, both if all that was written came to the devices
// and if just what was synced did. All that was settled has to be there, and each file has to agree with its digest.
fn loses_nothing<L: Ledger, J: Naming, R: Wait + Clock + Log + Abort>(
    rt: &R,
    alloc: Global,
    names: Names,
    store: Store<FlakyDisk>,
    digests: Vec<FlakyDisk>,
)
    requires names { AreNames L.name L.parts J.name J.parts J.book names store.source.state }
    requires unasked { IsUnasked store.source.state }
{
    let served = Served::<L, J, R>::new(rt, alloc, names, store, 1);
    let disks = Mutex::new(digests);
    let settled = play(&served, &disks);
    let disks = disks.into_inner();
    let (_, logs, checks) = served.into_parts();
    let slots = checks.into_slots().expect(rt, "the slots");
    let (first, second) = slots.into_disks();
    for left in [Left::All, Left::Durable] {
        let files = logs_left(rt, alloc, &logs, left);
        let images = [left_of(&first, left), left_of(&second, left)];
        expect_agreed(rt, alloc, &files, images, &disks, left);
        let pairs = pairs_after_a_start(rt, alloc, files, images);
        let counts = counts_in(&pairs).expect(rt, "first keys");
        let least = settled.saturating_mul(2);
        assert!(rt;
            counts.iter().all(|count| *count >= least),
            "{counts:?}, {settled}"
        );
    }
}

// Whether the disk of a file, or that of its digest, comes to this call in all rounds. Nothing that was settled is lost if it
// stops there.
fn stops_at<R: Wait + Clock + Abort>(rt: &R, alloc: Global, disk: usize, call: u64) -> bool {
    // From the call on the disk makes none.
    let fails = (call, u64::MAX);
    let store = store_of_two(rt, alloc, fails_of(disk, fails), None);
    let digests = digest_disks(rt, alloc, fails_of(disk.wrapping_sub(8), fails));
    let logged = Logged::new(rt, Level::Warn, Locked::new(rt, Vec::new(alloc)));
    let names = Names::new(store.state());
    loses_nothing::<Brand, Brand, _>(&logged, alloc, names, store, digests);
    let (_, sink) = logged.into_parts();
    !sink.into_inner().is_empty()
}

// Disks, by their places: of files up to 7, and of the digests of files from 8 on. From which call on each stops, and how many
// calls it has after that, at least. The calls before make the file.
const DISKS: [(usize, u64, u64); 10] = [
    (0, 4, 10),
    (1, 4, 10),
    (2, 4, 10),
    (3, 4, 10),
    (4, 4, 10),
    (5, 4, 10),
    (6, 3, 10),
    (7, 3, 10),
    (10, 1, 4),
    (14, 1, 4),
];

#[test]
fn a_loss_of_power_at_any_call_of_a_turn_loses_nothing(rt: HostRuntime) {
    let alloc = rt.alloc();
    for &(disk, first, least) in &DISKS {
        let mut calls = 0u64;
        for call in first..u64::MAX {
            if !stops_at(&rt, alloc, disk, call) {
                break;
            }
            calls = calls.saturating_add(1);
        }
        assert!(rt; calls >= least, "disk {disk}: {calls} calls");
    }
}

/// The digests of two workers' logs and of both slots: a disk for each plain, even and odd file, in this order, and then for
/// each slot.
#[derive(Drop)]
pub struct KeptDigests<'a, R: Wait> {
    pub rt: &'a R,
    pub alloc: Global,
    pub logs: &'a [Mutex<StoreLog<FlakyDisk>>],
    pub disks: &'a Mutex<Vec<FlakyDisk>>,
}

/// Disks without a digest, of which some calls fail.
pub fn digest_disks(rt: &impl Abort, alloc: Global, fails: [Fails; 8]) -> Vec<FlakyDisk> {
    let mut disks = Vec::new(alloc);
    for one in fails {
        let disk = FlakyDisk::new(Vec::new(alloc), one);
        disks.push(disk).expect(rt, "memory");
    }
    disks
}

// Where the digest is of a worker's log of a generation.
fn place_of(worker: u8, generation: u64) -> usize {
    let file = match (generation, generation % 2) {
        (0, _) => 0,
        (_, 0) => 1,
        _ => 2,
    };
    usize::from(worker).saturating_mul(3).saturating_add(file)
}

// Where the digest is of a slot.
fn place_of_slot(slot: Slot) -> usize {
    match slot {
        Slot::First => 6,
        Slot::Second => 7,
    }
}

impl<R: Wait> KeptDigests<'_, R> {
    fn clear(&mut self, place: usize) -> Result<(), Refusal> {
        let mut disks = self.disks.lock(self.rt);
        let Some(disk) = disks.get_mut(place) else {
            return Err(Refusal::LogCount);
        };
        clear_digest(disk).map_err(|_| Refusal::Device)
    }

    fn keep(&mut self, place: usize, digest: FileDigest) -> Result<(), Refusal> {
        let mut disks = self.disks.lock(self.rt);
        let Some(disk) = disks.get_mut(place) else {
            return Err(Refusal::LogCount);
        };
        write_digest(disk, digest).map_err(|_| Refusal::Device)
    }

    // The digest of a worker's log of a generation, as its file stands.
    fn digest_of_log(&self, worker: u8, generation: u64) -> Result<Option<FileDigest>, Refusal> {
        let Some(log) = self.logs.get(usize::from(worker)) else {
            return Err(Refusal::LogCount);
        };
        let FileImages { plain, even, odd } = image_of(self.alloc, &log.lock(self.rt))?;
        let image = match place_of(0, generation) {
            0 => plain,
            1 => even,
            _ => odd,
        };
        let mut copy = FlakyDisk::new(image, NEVER);
        match digest_of(self.alloc, &mut copy) {
            Ok(digest) => Ok(digest),
            Err(_) => Err(Refusal::Device),
        }
    }
}

impl<R: Wait> Digests for KeptDigests<'_, R> {
    ghost does = { λ old call new. Unit {0} };

    fn clear_logs(&mut self, logs: u8, generation: u64) -> Result<(), Refusal> {
        for worker in 0..logs {
            self.clear(place_of(worker, generation))?;
        }
        Ok(())
    }

    fn keep_logs(&mut self, logs: u8, generation: u64) -> Result<(), Refusal> {
        for worker in 0..logs {
            if let Some(digest) = self.digest_of_log(worker, generation)? {
                self.keep(place_of(worker, generation), digest)?;
            }
        }
        Ok(())
    }

    fn clear_slot(&mut self, slot: Slot) -> Result<(), Refusal> {
        self.clear(place_of_slot(slot))
    }

    fn keep_slot(&mut self, slot: Slot, digest: mt_slots::FileDigest) -> Result<(), Refusal> {
        let mt_slots::FileDigest { len, sha256 } = digest;
        self.keep(place_of_slot(slot), FileDigest { len, sha256 })
    }
}

/// Whether a file with this image agrees with its digest's disk.
pub fn does_agree(
    rt: &impl Abort,
    alloc: Global,
    image: &[u8],
    digest: &FlakyDisk,
    left: Left,
) -> bool {
    let mut file = disk_with(alloc, image).expect(rt, "memory");
    let mut digests = disk_with(alloc, left_of(digest, left)).expect(rt, "memory");
    agrees(alloc, &mut file, &mut digests).expect(rt, "a look")
}
