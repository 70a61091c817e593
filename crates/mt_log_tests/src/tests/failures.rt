//! Each call of a disk failing, alone and with a later one. A worker's changes on their way into its log.
//!
//! What is done to a store, or seen of it, is a word and what it needs:
//!
//! - `place WORKER KEY`: a worker places a change of a key;
//! - `flush WORKER STEP`: it is drained into its log, which goes up to a step then; `flush_and_begin`: and its next log is begun;
//! - `reopen WORKER`: its log is opened again; `begin WORKER`: its next log is begun; `fails` behind these: its disk fails;
//! - `settle STEP`: the least step to which a log was brought; `is_in WORKER GENERATION`: of which its last log is;
//! - `ends WORKER STEP`, or `closed`: up to which step its log goes; `has WORKER COUNT`: how many batches it has;
//! - `keeps WORKER one`, or `none`: whether its log keeps a batch;
//! - `crash`; `recover STEP STEP`: all changes up to a step are recovered, and the store goes on from another one.

use super::slots::unless_device;
use super::*;

// The worker of each step, by the key that it puts; and whether its log is flushed after it.
const STEPS: [(u8, u8, bool); 8] = [
    (0, 1, true),
    (1, 2, false),
    (1, 1, true),
    (0, 3, false),
    (0, 2, true),
    (1, 4, true),
    (0, 3, true),
    (1, 6, false),
];

// A settled number, asked for again after a disk failed, up to twice.
fn settled(store: &mut Store) -> Result<u64, Refusal> {
    for _ in 0..2 {
        if let Some(number) = unless_device(store.settle())? {
            return Ok(number);
        }
    }
    store.settle()
}

// A recovery, begun again after a disk failed, up to twice, with a crash between or without.
fn recovered(store: &mut Store, with_crash: bool) -> Result<(u64, Option<Rows>), Refusal> {
    for _ in 0..2 {
        if let Some(recovered) = unless_device(store.recover())? {
            return Ok((recovered.cutoff, rows_of(&recovered.pairs)));
        }
        if with_crash && !store.crash()? {
            return Err(Refusal::NoStore);
        }
    }
    let recovered = store.recover()?;
    Ok((recovered.cutoff, rows_of(&recovered.pairs)))
}

// Whether what settled is recovered, and recovered again.
fn keeps_all(store: &mut Store, with_crash: bool) -> Result<bool, Refusal> {
    for &(worker, key, flushed) in &STEPS {
        store.history.place(worker, key)?;
        if flushed {
            let _ = unless_device(store.flush(worker))?;
        }
    }
    if settled(store)? != 8 || !store.crash()? {
        return Ok(false);
    }
    let rows = Some(store.history.rows_at(8));
    if recovered(store, with_crash)? != (8, rows) {
        return Ok(false);
    }
    store.history.place(0, 7)?;
    if settled(store)? != 9 || !store.crash()? {
        return Ok(false);
    }
    let (cutoff, rows) = recovered(store, with_crash)?;
    Ok(cutoff == 9 && rows.is_some_and(|rows| rows[7] == 2))
}

// A new store of two workers does, whichever of their disks fails at these calls. The first three make its file. Here a
// plain disk makes some sixty calls, and a numbered one some fifteen.
fn expect_all_kept(rt: &impl Abort, alloc: Global, calls: [u64; 2]) {
    let disks = if calls[0] < 20 { 3 } else { 1 };
    for worker in 0..2 {
        for disk in 0..disks {
            expect_kept(rt, alloc, Failures(worker, disk, calls), false);
            expect_kept(rt, alloc, Failures(worker, disk, calls), true);
        }
    }
}

// It does, if these calls fail.
fn expect_kept(rt: &impl Abort, alloc: Global, failures: Failures, with_crash: bool) {
    let mut store = Store::new(alloc, 2, failures).expect(rt, "a store");
    let told = keeps_all(&mut store, with_crash);
    assert!(rt; told == Ok(true), "{failures:?}, {with_crash}");
}

#[test]
fn each_call_fails_once_and_nothing_is_lost(rt: HostRuntime) {
    for call in 4..70 {
        expect_all_kept(&rt, rt.alloc(), [call, 0]);
    }
}

// The second fails in what is done about the first, or a while later.
#[test]
fn two_calls_fail_and_nothing_is_lost(rt: HostRuntime) {
    for call in 4..70 {
        for later in [1, 4, 9, 20] {
            expect_all_kept(&rt, rt.alloc(), [call, call + later]);
        }
    }
}

/// The words of an act.
pub fn words_of<'a>(alloc: Global, act: &'a str) -> Result<Vec<&'a str>, AllocError> {
    let mut words = Vec::new(alloc);
    for word in act.split(' ') {
        words.push(word)?;
    }
    Ok(words)
}

fn number(text: &str) -> u8 {
    text.parse().unwrap_or(u8::MAX)
}

fn step(text: &str) -> u64 {
    u64::from(number(text))
}

// Whether an act comes out as it should.
fn comes_out(store: &mut Store, words: &[&str]) -> bool {
    match words {
        ["place", worker, key] => store.history.place(number(worker), number(key)).is_ok(),
        ["flush", worker, "fails"] => store.flush(number(worker)) == Err(Refusal::Device),
        ["flush", worker, upto] => store.flush(number(worker)) == Ok(step(upto)),
        ["flush_and_begin", worker, upto] => {
            store.flush_and_begin(number(worker)) == Ok(step(upto))
        }
        ["reopen", worker] => store.reopen(number(worker)).is_ok(),
        ["reopen", worker, "fails"] => store.reopen(number(worker)) == Err(Refusal::Device),
        ["begin", worker] => store.begin_next(number(worker)).is_ok(),
        ["begin", worker, "fails"] => store.begin_next(number(worker)) == Err(Refusal::Device),
        ["is_in", worker, generation] => store.generation(number(worker)) == Some(step(generation)),
        ["settle", least] => store.settle() == Ok(step(least)),
        ["ends", worker, "closed"] => store.mark(number(worker)).is_none(),
        ["ends", worker, upto] => store.mark(number(worker)) == Some(step(upto)),
        ["keeps", worker, "one"] => store.keeps(number(worker)),
        ["keeps", worker, "none"] => !store.keeps(number(worker)),
        ["has", worker, count] => store.batches(number(worker)) == Ok(usize::from(number(count))),
        ["crash"] => store.crash() == Ok(true),
        ["recover", cutoff, resume] => recovers(store, step(cutoff), step(resume)),
        _ => false,
    }
}

// Whether all changes up to a step are recovered, and the store goes on from another one.
fn recovers(store: &mut Store, cutoff: u64, resume: u64) -> bool {
    let rows = Some(store.history.rows_at(cutoff));
    let recovered = store.recover();
    recovered.is_ok_and(|recovered| (recovered.cutoff, recovered.resume) == (cutoff, resume)
        && rows_of(&recovered.pairs) == rows)
}

// Each of these acts comes out as it should, in a new store of so many workers.
fn play(rt: &impl Abort, alloc: Global, workers: usize, failures: Failures, acts: &str) {
    let mut store = Store::new(alloc, workers, failures).expect(rt, "a store");
    for act in acts.split(", ") {
        let words = words_of(alloc, act).expect(rt, "memory");
        let is_right = comes_out(&mut store, &words);
        assert!(rt; is_right, "{failures:?}: {act} of {acts}");
    }
}

#[test]
fn a_store_flushes_and_is_recovered(rt: HostRuntime) {
    // Nothing happens between the second flush up to 5 and the third, so that nothing is appended. The other log moves on
    // without a change. In the end the logs have three batches or two, the resume batch, and one more.
    let acts =
        "place 0 1, place 1 2, place 0 1, place 1 3, flush 0 4, flush 1 4, place 0 4, flush 0 5, ends 0 5, \
        flush 0 5, flush 1 5, place 1 5, flush 0 6, ends 1 5, crash, ends 0 closed, recover 5 6, place 1 6, settle 7, \
        has 0 5, has 1 4";
    play(&rt, rt.alloc(), 2, NONE, acts);
}

// An append stages its batch, syncs, opens its gate, and syncs: calls 4 to 7 of a new log.
#[test]
fn a_batch_that_waited_is_appended_once(rt: HostRuntime) {
    let waits =
        "place 0 1, flush 0 fails, place 0 2, keeps 0 one, flush 0 fails, reopen 0, ends 0 1, keeps 0 none, \
        flush 0 2, has 0 2";
    for call in [4, 5, 6, 7] {
        play(&rt, rt.alloc(), 1, Failures(0, 0, [call, 0]), waits);
    }
    let goes_well =
        "place 0 1, flush 0 1, place 0 2, keeps 0 none, reopen 0, ends 0 1, keeps 0 none, flush 0 2, has 0 2";
    play(&rt, rt.alloc(), 1, NONE, goes_well);
}

// The log is opened again by the calls 5 to 12, the second flush makes the calls 13 to 16.
#[test]
fn batches_that_waited_for_two_calls_are_appended_once(rt: HostRuntime) {
    for call in 5..17 {
        let (end, upto) = if call > 12 { ("", 2) } else { (" fails", 1) };
        let acts = format!(in rt.alloc();
            "place 0 1, flush 0 fails, reopen 0{end}, place 0 2, flush 0 fails, reopen 0, ends 0 {upto}, keeps 0 none, \
            flush 0 2, has 0 2"
        );
        let acts = acts.expect(&rt, "memory");
        play(&rt, rt.alloc(), 1, Failures(0, 0, [4, call]), &acts);
    }
}

// The odd disk begins the next log by the calls 4 to 11, the last of which syncs its open gate. It is looked for by three
// calls at least. Until then the last log is closed, and nothing is drained. In the end it has three batches, and the resume batch.
#[test]
fn a_next_log_that_may_be_there_is_found_or_not(rt: HostRuntime) {
    for call in 4..12 {
        let generation = if call == 11 { 1 } else { 0 };
        for later in 0..4 {
            let (end, upto) = if later == 0 {
                ("", "1")
            } else {
                (" fails", "closed")
            };
            let acts = format!(in rt.alloc();
                "place 0 1, flush 0 1, begin 0 fails, ends 0 closed, place 0 2, flush 0 fails, keeps 0 none, reopen 0{end}, \
                ends 0 {upto}, reopen 0, is_in 0 {generation}, ends 0 1, flush 0 2, has 0 2, is_in 0 {generation}, place 0 1, flush 0 3, \
                crash, recover 3 3, is_in 0 {generation}, has 0 4"
            );
            let acts = acts.expect(&rt, "memory");
            let failures = Failures(0, 2, [call, call + later]);
            play(&rt, rt.alloc(), 1, failures, &acts);
        }
    }
}

// The resume batch goes into the last log of each worker, which alone goes up to its end then. In the end they have three
// batches or two, the resume batch, and one more.
#[test]
fn a_store_in_a_turn_is_recovered(rt: HostRuntime) {
    for &(begins, generation) in &[
        ("flush 1 2, begin 0, flush 1 2", 0),
        ("flush 1 2, begin 0, begin 1", 1),
        ("begin 0, flush_and_begin 1 2", 1),
    ] {
        let acts = format!(in rt.alloc();
            "place 0 1, place 1 2, flush 0 2, {begins}, place 0 3, flush 0 3, place 1 4, flush 1 4, \
            place 0 5, flush 0 5, place 1 6, crash, recover 4 5, is_in 0 1, is_in 1 {generation}, ends 0 5, ends 1 5, \
            place 1 1, settle 6, crash, has 0 5, has 1 4, is_in 0 1, is_in 1 {generation}, ends 0 6, ends 1 6"
        );
        let acts = acts.expect(&rt, "memory");
        play(&rt, rt.alloc(), 2, NONE, &acts);
    }
}
