//! What the files of a store's logs hold.

ghost use Rattle.std.specs.Prelude.{◌≤◌, vec_len, IfOk};
ghost use Rattle.mt_state.specs.Begins.{HaveNoPairs};

use super::*;
use mt_log::{BatchReader, FileKind, Front, LogFile, ReadBatch};
use mt_rows::Tenants;
use mt_store_logs::{NoWatch, closed_logs, recover_store};

/// A client's key: the client, and the number of the put.
pub fn key_of(client: u8, number: u16) -> [u8; 3] {
    let [high, low] = number.to_be_bytes();
    [client, high, low]
}

/// Tenant 7, which may have 200,000 pairs.
pub fn tenant_7(rt: &impl Abort, alloc: Global) -> Tenants
    ensures { HaveNoPairs result }
{
    let mut tenants = Tenants::new(alloc);
    assert!(rt; tenants.add(7, 200_000).is_ok());
    tenants
}

/// The files of a worker's log with these images: the plain one, the even and the odd one. Some calls of each fail, of which the
/// system tells this, if anything.
pub fn files_with(
    images: FileImages,
    fails: [Fails; 3],
    error: Option<SystemError>,
) -> WorkerFiles<FlakyDisk> {
    let FileImages { plain, even, odd } = images;
    let [of_plain, of_even, of_odd] = fails;
    let plain = FlakyDisk::new(plain, of_plain).telling(error);
    let even = FlakyDisk::new(even, of_even).telling(error);
    let odd = FlakyDisk::new(odd, of_odd).telling(error);
    WorkerFiles::closed(plain, even, odd)
}

/// A plain file with this image, and two files without a byte.
pub fn plain_image(alloc: Global, plain: Vec<u8>) -> FileImages {
    FileImages {
        plain,
        even: Vec::new(alloc),
        odd: Vec::new(alloc),
    }
}

/// Which bytes of a disk are meant.
#[derive(Clone, Copy, Debug, PartialEq, Eq)]
pub enum Left {
    /// What a read gives.
    All,
    /// What a loss of power leaves.
    Durable,
}

/// These bytes of a disk.
pub fn left_of(disk: &FlakyDisk, left: Left) -> &[u8] {
    match left {
        Left::All => disk.image(),
        Left::Durable => disk.durable(),
    }
}

// These bytes of a file.
fn left_in(alloc: Global, file: &LogSlot<FlakyDisk>, left: Left) -> Result<Vec<u8>, Refusal> {
    match file {
        LogSlot::Open(log) => Ok(left_of(log.disk(), left).to_vec(alloc)?),
        LogSlot::Failed(log) => Ok(left_of(log.disk(), left).to_vec(alloc)?),
        LogSlot::Closed(disk) => Ok(left_of(disk, left).to_vec(alloc)?),
        LogSlot::Away => Err(Refusal::NoStore),
    }
}

// These bytes of a log's files.
fn files_left(alloc: Global, log: &StoreLog<FlakyDisk>, left: Left) -> Result<FileImages, Refusal> {
    let files = log.log().files();
    let plain = left_in(alloc, &files.plain, left)?;
    let even = left_in(alloc, &files.even, left)?;
    let odd = left_in(alloc, &files.odd, left)?;
    Ok(FileImages { plain, even, odd })
}

/// What reads of a log's files give.
pub fn image_of(alloc: Global, log: &StoreLog<FlakyDisk>) -> Result<FileImages, Refusal> {
    files_left(alloc, log, Left::All)
}

/// These bytes of the files of logs.
pub fn logs_left(
    rt: &impl Abort,
    alloc: Global,
    logs: &[StoreLog<FlakyDisk>],
    left: Left,
) -> Vec<FileImages> {
    let mut images = Vec::new(alloc);
    for log in logs {
        let image = files_left(alloc, log, left).expect(rt, "an image");
        images.push(image).expect(rt, "memory");
    }
    images
}

/// A disk in memory with this image.
pub fn disk_with(alloc: Global, image: &[u8]) -> Result<MemDisk, AllocError> {
    MemDisk::with_image(alloc, image.to_vec(alloc)?, Vec::new(alloc), None)
}

// The files of a worker's log with these images, in memory.
fn copies_with(alloc: Global, images: &FileImages) -> Result<WorkerFiles<MemDisk>, AllocError> {
    let plain = disk_with(alloc, &images.plain)?;
    let even = disk_with(alloc, &images.even)?;
    let odd = disk_with(alloc, &images.odd)?;
    Ok(WorkerFiles::closed(plain, even, odd))
}

// Closed logs over these images.
fn logs_of(alloc: Global, images: &[FileImages]) -> Result<Vec<StoreLog<MemDisk>>, Refusal>
    ensures few { IfOk result (λ logs. vec_len logs ≤ 64) }
{
    let mut files = Vec::new(alloc);
    for image in images {
        files.push(copies_with(alloc, image)?)?;
    }
    if files.len() > 64 {
        return Err(Refusal::LogCount);
    }
    Ok(closed_logs(alloc, files)?)
}

// How many of a client's first keys were put, the records of a batch being the next ones after so many.
fn count_on(batch: &ReadBatch, owner: u8, count: u16) -> Option<u16> {
    let mut count = count;
    for record in &batch.records {
        if record.key.as_bytes() != key_of(owner, count).as_slice() {
            return None;
        }
        count = count.saturating_add(1);
    }
    Some(count)
}

// How many first keys of a client a log has, if it has them alone, each once and in order.
fn count_of(alloc: Global, log: &mut LogFile<MemDisk>, front: &Front) -> Option<u16> {
    let mut reader = BatchReader::begin(alloc, log, FileKind::Plain).ok()?;
    let mut count = 0;
    for _ in &front.batches {
        let batch = reader.next(alloc, log).ok()??;
        count = count_on(&batch, front.worker, count)?;
    }
    Some(count)
}

// Whether the plain file of a worker has exactly so many first keys of its client.
fn has_own(alloc: Global, plain: &[u8], worker: usize, count: u16) -> Result<bool, AllocError> {
    match LogFile::open(alloc, disk_with(alloc, plain)?) {
        Ok((mut log, front)) => Ok(
            usize::from(front.worker) == worker && count_of(alloc, &mut log, &front) == Some(count),
        ),
        Err(_) => Ok(false),
    }
}

// Whether these are exactly the pairs of the clients' first keys.
fn are_pairs(pairs: &[TenantPair], counts: &[u16]) -> bool {
    let mut place: usize = 0;
    let mut client: u8 = 0;
    for count in counts {
        for number in 0..*count {
            match pairs.get(place) {
                Some(pair) if pair.key.as_bytes() == key_of(client, number).as_slice() => {
                    place = place.saturating_add(1);
                }
                _ => return false,
            }
        }
        client = client.saturating_add(1);
    }
    place == pairs.len()
}

/// The pairs that a recovery from these images gives.
pub fn pairs_left(
    alloc: Global,
    images: &[FileImages],
    slots: &mut StoreSlots<MemDisk>,
    tenants: &Tenants,
) -> Result<Vec<TenantPair>, Refusal> {
    let mut logs = logs_of(alloc, images)?;
    match recover_store(alloc, &mut logs, slots, tenants, &mut NoWatch) {
        Ok(store) => Ok(store.recovered.pairs),
        Err(e) => Err(e.refusal()),
    }
}

/// Whether each log has exactly so many first keys of its worker's client, each once and in order, and a recovery gives the
/// pairs of all of them.
pub fn hold_all(
    alloc: Global,
    images: &[FileImages],
    tenants: &Tenants,
    counts: &[u16],
) -> Result<bool, Refusal> {
    for (worker, (image, count)) in images.iter().zip(counts).enumerate() {
        if !has_own(alloc, &image.plain, worker, *count)? {
            return Ok(false);
        }
    }
    let disk = || MemDisk::new(alloc, Vec::new(alloc), None);
    let mut slots = StoreSlots::found(disk(), disk());
    let are_all = hold_all_with(alloc, images, &mut slots, tenants, counts)?;
    Ok(are_all && images.len() == counts.len())
}

/// Whether a recovery with these slots gives the pairs of all clients, though older logs are given up.
pub fn hold_all_with(
    alloc: Global,
    images: &[FileImages],
    slots: &mut StoreSlots<MemDisk>,
    tenants: &Tenants,
    counts: &[u16],
) -> Result<bool, Refusal> {
    Ok(are_pairs(&pairs_left(alloc, images, slots, tenants)?, counts))
}
