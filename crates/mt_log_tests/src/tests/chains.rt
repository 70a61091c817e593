//! A store of one worker, recovered from its plain file and its odd one: which of them are read, over which checkpoint, and why
//! none are. Three logs that are recovered, resumed and recovered again, over each of some checkpoints.

ghost use Rattle.std.specs.Prelude.{◌<◌};

use super::logs::front_of;
use super::slots::Steps;
use super::*;
use std::slice;

// The rows of the store's only put: key 3, row 1, at step 5. Its log has it in a batch from 0 to 6.
const PUT_ROWS: Rows = [0, 0, 0, 1, 0, 0, 0, 0];

// A checkpoint that was walked from 6 to 9, and shows another row, so that it is told which was used.
const WALK: Walk = Walk((6, 9), WALK_ROWS, [0, 0, 0, 5, 0, 0, 0, 0]);

const WALK_ROWS: Rows = [0, 0, 0, 2, 0, 0, 0, 0];

// The worker's files: the next log was begun at a start, and goes up to a step, if it was.
fn files_with(alloc: Global, start: Option<u64>, upto: Option<u64>) -> Result<FileImages, Refusal> {
    let plain = append(alloc, new_log(alloc, 0, 1)?, &[put(5, 0, 3, 1)], 0, 6)?;
    let mut image = image_of_log(alloc, &plain)?;
    image.odd.push(0)?;
    let Some(start) = start else {
        return Ok(image);
    };
    let spare = disk_with(alloc, &image.odd, 0, 99)?;
    let next = LogFile::begin(spare, 0, 1, 1, start.min(9)).map_err(|_| Refusal::Device)?;
    let next = match upto {
        Some(upto) => append(alloc, next, &[], 0, upto)?,
        None => next,
    };
    image.odd = image_of_log(alloc, &next)?.plain;
    Ok(image)
}

// What is told of a recovery: the generation, the cutoff, the slot that was used, and the rows; or the refusal.
type Told = Result<(u64, u64, Option<u8>, Option<Rows>), Refusal>;

// What the files and a checkpoint give.
fn told_of(alloc: Global, image: &FileImages, walk: Option<Walk>) -> Told {
    let (store, _) = recover_over(alloc, slice::from_ref(image), [walk, None], 8)?;
    let recovered = store.recovered;
    Ok((
        store.generation,
        recovered.cutoff,
        recovered.used,
        rows_of(&recovered.pairs),
    ))
}

const WALKED: Told = Ok((1, 9, Some(0), Some(WALK_ROWS)));

const FALLS: Refusal = Refusal::StampsFall {
    number: 0,
    stamp: 5,
};

// Where the next log was begun, up to where it goes, the checkpoint, and what is told.
const CASES: [(Option<u64>, Option<u64>, Option<Walk>, Told); 5] = [
    // The next log was not begun, or has no batch yet.
    (None, None, None, Ok((0, 6, None, Some(PUT_ROWS)))),
    (Some(6), None, Some(WALK), Ok((0, 6, None, Some(PUT_ROWS)))),
    // It goes up to the end of the checkpoint.
    (Some(6), Some(9), Some(WALK), WALKED),
    // It does, but no checkpoint covers what was before it: both logs are read.
    (Some(6), Some(9), None, Ok((0, 9, None, Some(PUT_ROWS)))),
    // It begins elsewhere than where the first one ends.
    (Some(5), None, None, Err(FALLS)),
];

#[test]
fn a_store_is_recovered_from_the_files_that_count(rt: HostRuntime) {
    let alloc = rt.alloc();
    for &(start, upto, walk, want) in &CASES {
        let files = files_with(alloc, start, upto).expect(&rt, "files in memory");
        let told = told_of(alloc, &files, walk);
        assert!(rt; told == want, "{start:?} {upto:?}: {told:?}");
    }
}

const NO_LOG: Refusal = Refusal::BadLog {
    number: 0,
    offset: 0,
};

// What stands in the plain file, and what is told of it if it is needed. An empty file and one that was given up are none.
const PLAIN: [(&[u8], Refusal); 4] = [
    (b"any", NO_LOG),
    (b"", Refusal::LogCount),
    (b"\x00", Refusal::LogCount),
    (b"\x00any", Refusal::LogCount),
];

// It counts for nothing if the next log is enough, and is needed if it is not.
#[test]
fn a_plain_file_counts_only_if_it_is_needed(rt: HostRuntime) -> Result<(), Fail> {
    let alloc = rt.alloc();
    for &(image, refusal) in &PLAIN {
        for (walk, want) in [(Some(WALK), WALKED), (None, Err(refusal))] {
            let mut files = files_with(alloc, Some(6), Some(9)).expect(&rt, "files");
            files.plain = image.to_vec(alloc)?;
            let told = told_of(alloc, &files, walk);
            assert!(rt; told == want, "{image:?}: {told:?}");
        }
    }
    Ok(())
}

// What three workers placed: stamp, worker, key, row.
const PLACED: [(u64, u8, u8, u8); 9] = [
    (3, 0, 0, 3),
    (4, 1, 1, 4),
    (5, 2, 2, 5),
    (12, 1, 0, 12),
    (14, 2, 1, 0),
    (25, 1, 5, 25),
    (26, 0, 3, 26),
    (30, 2, 6, 30),
    (39, 0, 4, 39),
];

// The stamp of the put over a row that was there, of which its log tells the column alone.
const OVER: u64 = 12;

// Where the log of each worker ends. Behind it stands a batch up to 45 whose gate is none.
const ENDS: [u64; 3] = [40, 25, 31];

// The bytes of a batch without records, and of the next gate.
const BATCH_BYTES: usize = 27;

// No checkpoint.
const NONE: Steps = (0, 0);

// The checkpoints in slots 0 and 1, which of them is used, and the rows then. So it is when the logs are recovered, up to 25, and
// when they are recovered again, up to 40. Then 26 to 40 are void.
const CHECKPOINTS: [(Steps, Steps, Option<u8>, Rows); 20] = [
    (NONE, NONE, None, [12, 0, 5, 0, 0, 25, 0, 0]),
    ((10, 20), NONE, Some(0), [12, 0, 0, 0, 0, 25, 0, 1]),
    (NONE, (10, 20), Some(1), [12, 0, 0, 0, 0, 25, 0, 2]),
    ((10, 20), (10, 21), Some(1), [12, 0, 0, 0, 0, 25, 0, 2]),
    ((10, 21), (10, 20), Some(0), [12, 0, 0, 0, 0, 25, 0, 1]),
    ((10, 21), (9, 21), Some(0), [12, 0, 0, 0, 0, 25, 0, 1]),
    ((10, 25), NONE, Some(0), [12, 0, 0, 0, 0, 25, 0, 1]),
    ((20, 27), NONE, None, [12, 0, 5, 0, 0, 25, 0, 0]),
    ((20, 27), (10, 20), Some(1), [12, 0, 0, 0, 0, 25, 0, 2]),
    ((20, 27), (10, 40), None, [12, 0, 5, 0, 0, 25, 0, 0]),
    ((10, 40), (10, 25), Some(1), [12, 0, 0, 0, 0, 25, 0, 2]),
    ((10, 20), (10, 40), Some(0), [12, 0, 0, 0, 0, 25, 0, 1]),
    ((10, 20), (20, 45), Some(0), [12, 0, 0, 0, 0, 25, 0, 1]),
    // A record is replayed if its stamp is over the checkpoint's first step.
    ((2, 20), NONE, Some(0), [12, 0, 5, 0, 0, 25, 0, 1]),
    ((4, 20), NONE, Some(0), [12, 0, 5, 0, 0, 25, 0, 1]),
    ((5, 20), NONE, Some(0), [12, 0, 0, 0, 0, 25, 0, 1]),
    ((11, 20), NONE, Some(0), [12, 0, 0, 0, 0, 25, 0, 1]),
    ((12, 20), NONE, Some(0), [3, 0, 0, 0, 0, 25, 0, 1]),
    ((14, 20), NONE, Some(0), [3, 4, 0, 0, 0, 25, 0, 1]),
    ((25, 25), NONE, Some(0), [3, 4, 0, 0, 0, 0, 0, 1]),
];

fn history() -> [Change; 9] {
    PLACED.map(|(stamp, worker, key, row)| Change {
        over: stamp == OVER,
        ..put(stamp, worker, key, row)
    })
}

// The files of a worker.
fn image_of(alloc: Global, history: &[Change], worker: u8) -> Result<FileImages, Refusal>
    requires { worker < 3 }
{
    let mut log = new_log(alloc, worker, 3)?;
    for to in [12, ENDS[usize::from(worker)], 45] {
        log = append(alloc, log, history, worker, to)?;
    }
    let mut image = image_of_log(alloc, &log)?;
    let gate = image.plain.len().saturating_sub(BATCH_BYTES);
    if let Some(byte) = image.plain.get_mut(gate) {
        *byte = 7;
    }
    Ok(image)
}

fn three_images(alloc: Global) -> Result<Vec<FileImages>, Refusal> {
    let mut images = Vec::new(alloc);
    for worker in 0..3 {
        images.push(image_of(alloc, &history(), worker)?)?;
    }
    Ok(images)
}

// The checkpoint of a slot. Its pairs are those of keys 0 and 1 at step 10, with their stamps, and one of key 7 that no log has.
fn walk_in(slot: u8, steps: Steps) -> Option<Walk> {
    let rows = [3, 4, 0, 0, 0, 0, 0, slot.saturating_add(1)];
    let walk = Walk(steps, rows, [3, 4, 0, 0, 0, 0, 0, 1]);
    Some(walk).filter(|_| steps != NONE)
}

// Whether a log ends with a resume batch from its step up to 40 that keeps so much.
fn ends_with(front: &Front, end: u64, least: u64) -> bool {
    match front.batches.last() {
        Some(LogBatch::Resume { from, to, kept }) => *from == end && *to == 40 && *kept == least,
        _ => false,
    }
}

// Whether each log does, when they are opened again.
fn end_with(
    alloc: Global,
    images: &[FileImages],
    ends: [u64; 3],
    least: u64,
) -> Result<bool, AllocError> {
    let mut fronts = Vec::new(alloc);
    for (image, end) in images.iter().zip(ends) {
        let front = front_of(alloc, &image.plain)?;
        if !ends_with(&front, end, least) {
            return Ok(false);
        }
        fronts.push(front)?;
    }
    Ok(cutoff(&fronts) == 40)
}

// The logs are recovered up to this step over each of the checkpoints.
fn expect_recovered(rt: &impl Abort, alloc: Global, images: &[FileImages], least: u64) {
    for &(first, second, used, rows) in &CHECKPOINTS {
        let walks = [walk_in(0, first), walk_in(1, second)];
        let (store, _) = recover_over(alloc, images, walks, 8).expect(rt, "a recovery");
        let told = store.recovered;
        let resume = first.1.max(second.1).max(40);
        let is_right = (told.cutoff, told.resume, told.used) == (least, resume, used);
        let is_right = is_right && rows_of(&told.pairs) == Some(rows);
        assert!(rt; is_right, "{first:?} and {second:?}: {told:?}");
    }
}

// In the end each log has the batch of its recovery.
#[test]
fn three_logs_are_recovered_and_recovered_again(rt: HostRuntime) -> Result<(), Fail> {
    let alloc = rt.alloc();
    let mut images = three_images(alloc).expect(&rt, "logs in memory");
    for (least, ends) in [(25, ENDS), (40, [40; 3])] {
        expect_recovered(&rt, alloc, &images, least);
        let recovered = recover_over(alloc, &images, [None, None], 8);
        images = recovered.expect(&rt, "a recovery").1;
        let are_resumed = end_with(alloc, &images, ends, least)?;
        assert!(rt; are_resumed, "resumed from {least}");
    }
    Ok(())
}
