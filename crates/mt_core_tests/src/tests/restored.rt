//! What is restored is there, and a state goes on from it. States that are restored from what a recovery gives.

ghost use Rattle.std.specs.{Prelude.{◌^◌, ◌≤◌, IsTrue}, List.All};
ghost use Rattle.mt_rows.specs.TenantPairs.{pairs_of, quota_in, IsTenantPair, AreDistinct, AreStampedUpto, HasTenants, KeepsQuotas};
ghost use Rattle.mt_log.specs.Contents.{IsBatch};
ghost use Rattle.mt_state.specs.Begins.{HaveNoPairs};

use super::pairs::{
    expect_pairs, expect_stamps, get, push_given, push_pairs, put_pair, stamp_of, tenant_of,
};
use super::*;
use mt_checkpoint::Checkpoint;
use mt_disk::MemDisk;
use mt_log::{BatchReader, FileKind, Front, LogFile, ReadBatch, fits};
use mt_recover::{Source, recover};
use mt_rows::key::USER_KEY_BYTES;
use mt_rows::{Record, Records, Write};

// How many pairs, of each tenant a third.
const PAIRS: u64 = 300;

// How many more are put.
const MORE: u64 = 60;

// How many steps were made.
const STEPS: u64 = 500;

// A state with the first pairs that has made so many steps, and keeps two logs.
fn first_pairs(rt: &impl Abort, alloc: Global) -> State {
    let mut pairs = Vec::new(alloc);
    push_pairs(rt, alloc, &mut pairs, 0, PAIRS);
    restored(rt, alloc, STEPS, 2, pairs)
}

// Puts more pairs: tenant 7 has its quota, tenant 8 all but one, and tenant 9 room.
fn put_more(rt: &impl Abort, alloc: Global, state: &mut State) {
    for n in PAIRS..PAIRS + MORE {
        let reply = put_pair(rt, alloc, state, n, None);
        let is_new = matches!(reply, Reply::New);
        let is_full = matches!(reply, Reply::Full);
        match tenant_of(n) {
            7 => assert!(rt; is_full, "pair {n}"),
            8 => assert!(rt; is_new == (n == PAIRS + 1) && is_full != is_new, "pair {n}"),
            _ => assert!(rt; is_new, "pair {n}"),
        }
    }
}

#[test]
fn restores_all_pairs(host: HostRuntime) {
    let (rt, alloc) = (&host, host.alloc());
    let mut state = first_pairs(rt, alloc);
    let numbers = (state.steps(), state.logs(), state.answers());
    assert_eq!(rt; numbers, (STEPS, 2, 0));
    let lines = state.shape(alloc).expect(rt, "memory");
    assert!(rt; lines.len() > 40);
    let batch = drained(rt, &mut state, 1);
    assert!(rt; batch.from == STEPS && batch.to == STEPS && batch.records.as_slice().is_empty());
    expect_pairs(rt, alloc, &mut state, 0, PAIRS);
    expect_stamps(rt, alloc, &mut state, PAIRS);
}

#[test]
fn a_put_meets_a_stamp_that_was_restored(host: HostRuntime) {
    let (rt, alloc) = (&host, host.alloc());
    let mut state = first_pairs(rt, alloc);
    assert!(rt; matches!(put_pair(rt, alloc, &mut state, 7, Some(7)), Reply::Stale(8)));
    assert!(rt; matches!(put_pair(rt, alloc, &mut state, 7, Some(8)), Reply::Replaced));
    let stamp = stamp_of(rt, alloc, &mut state, 7);
    assert!(rt; stamp > STEPS);
    let told = put_pair(rt, alloc, &mut state, 7, Some(8));
    assert!(rt; matches!(told, Reply::Stale(told) if told == stamp));
    let told = put_pair(rt, alloc, &mut state, PAIRS + 2, Some(0));
    assert!(rt; matches!(told, Reply::New));
}

#[test]
fn goes_on_from_what_was_restored(host: HostRuntime) {
    let (rt, alloc) = (&host, host.alloc());
    let mut state = first_pairs(rt, alloc);
    put_more(rt, alloc, &mut state);
    expect_pairs(rt, alloc, &mut state, 0, PAIRS);
    let batch = drained(rt, &mut state, 0);
    assert_eq!(rt; (batch.from, batch.to), (STEPS, state.steps()));
    assert_eq!(rt; batch.records.as_slice().len(), 21);
}

#[test]
fn restores_what_its_log_was_given(host: HostRuntime) {
    let (rt, alloc) = (&host, host.alloc());
    let mut state = first_pairs(rt, alloc);
    put_more(rt, alloc, &mut state);
    let batch = drained(rt, &mut state, 0);
    let mut pairs = Vec::new(alloc);
    push_pairs(rt, alloc, &mut pairs, 0, PAIRS);
    push_given(rt, &mut pairs, &batch);
    assert!(rt; batch.to < 100_000 && pairs.len() == 321);
    let mut next = restored(rt, alloc, batch.to, 1, pairs);
    assert!(rt; next.steps() == batch.to && next.logs() == 1);
    expect_pairs(rt, alloc, &mut next, 0, PAIRS);
    for n in PAIRS..PAIRS + MORE {
        if tenant_of(n) == 9 || n == PAIRS + 1 {
            expect_pairs(rt, alloc, &mut next, n, n + 1);
        }
    }
    assert!(rt; matches!(put_pair(rt, alloc, &mut next, PAIRS + 4, None), Reply::Full));
}

// The most steps that may be restored but one: the next step is the last.
#[test]
fn restores_near_the_last_number(host: HostRuntime) {
    let (rt, alloc) = (&host, host.alloc());
    let mut state = restored(rt, alloc, (1 << 59) - 1, 0, Vec::new(alloc));
    let ticket = state.begin(0, 7, get(rt, alloc, 1));
    let ticket = ticket.expect(rt, "the get is taken");
    assert!(rt; state.step(&ticket) == Move::Moved);
    assert!(rt; state.step(&ticket) == Move::Spent);
    assert!(rt; state.take(ticket).is_err());
    assert!(rt; matches!(state.begin(0, 7, get(rt, alloc, 1)), Err(Refusal::Spent)));
}

// Three tenants: one that may have 100 pairs, one that may have 101, and one with room.
fn three_tenants(alloc: Global) -> Tenants
    ensures { HaveNoPairs result }
{
    let mut tenants = Tenants::new(alloc);
    let _ = tenants.add(7, 100);
    let _ = tenants.add(8, 101);
    let _ = tenants.add(9, 1000);
    tenants
}

/// A state with these pairs, as a recovery from a log gives them: each stamped by its step in the log.
pub fn restored(
    rt: &impl Abort,
    alloc: Global,
    steps: u64,
    logs: u8,
    pairs: Vec<TenantPair>,
) -> State
    requires steps { steps ≤ 2 ^ 59 }
    requires logs { logs ≤ 64 }
{
    let tenants = three_tenants(alloc);
    let pairs = recovered(rt, alloc, &tenants, steps, pairs);
    State::restore(alloc, steps, logs, tenants, pairs).expect(rt, "memory")
}

// What a recovery makes of a log that puts these pairs, in no more steps than these.
#[tactic(auto, using(crate::proofs::Ascending::distinct, crate::proofs::Ascending::upto_more))]
fn recovered(
    rt: &impl Abort,
    alloc: Global,
    tenants: &Tenants,
    steps: u64,
    pairs: Vec<TenantPair>,
) -> Vec<TenantPair>
    ensures limits { All IsTenantPair result.items }
    ensures distinct { AreDistinct result.items }
    ensures stamps { AreStampedUpto steps result.items }
    ensures tenants { HasTenants (quota_in tenants.now) (pairs_of result.items) }
    ensures quotas { KeepsQuotas (quota_in tenants.now) (pairs_of result.items) }
{
    let (mut log, front) = one_log(rt, alloc, pairs);
    let recovered = recover(alloc, &mut log, &mut [front], &[None, None], tenants);
    let recovered = recovered.expect(rt, "within quotas");
    assert!(rt; are_within(&recovered.pairs));
    assert!(rt; recovered.resume <= steps);
    recovered.pairs
}

// The only log of a store that has no checkpoint, read once more.
#[derive(Drop)]
struct OneLog {
    log: LogFile<MemDisk>,
    reader: BatchReader,
}

impl Source for OneLog {
    ghost logs = { λ _. 1 };

    ghost follows = { λ _ _. Unit {0} };

    ghost left = { λ _ _ _. ⊥ };

    ghost holds = { λ _ _ _. ⊥ };

    ghost refused = { λ _ _. Unit {0} };

    fn next(&mut self, alloc: Global, _log: usize) -> Result<Option<ReadBatch>, Refusal> {
        match self.reader.next(alloc, &mut self.log) {
            Ok(read) => Ok(read),
            Err(_) => Err(Refusal::Device),
        }
    }

    fn load(&mut self, _alloc: Global, _slot: u8) -> Result<Option<Checkpoint>, Refusal> {
        Ok(None)
    }
}

// The only log, whose batches put these pairs, each by a step of its own; and its front.
fn one_log(rt: &impl Abort, alloc: Global, pairs: Vec<TenantPair>) -> (OneLog, Front) {
    let disk = MemDisk::new(alloc, Vec::new(alloc), None);
    let mut log = LogFile::create(disk, 0, 1).ok().expect(rt, "a disk");
    for pair in pairs {
        let batch = put_after(rt, alloc, log.mark(), pair);
        log = log.append(alloc, batch).ok().expect(rt, "a disk");
    }
    let opened = LogFile::open(alloc, log.into_disk()).ok();
    let (mut log, front) = opened.expect(rt, "a log");
    let reader = BatchReader::begin(alloc, &mut log, FileKind::Plain).ok();
    let reader = reader.expect(rt, "a log");
    (OneLog { log, reader }, front)
}

// The batch of a put by the step after this one.
fn put_after(rt: &impl Abort, alloc: Global, from: u64, pair: TenantPair) -> Batch
    ensures { IsBatch result }
{
    assert!(rt; is_within(&pair) && from < u64::MAX);
    let mut records = Vec::new(alloc);
    let record = Record {
        stamp: from + 1,
        tenant: pair.tenant,
        key: pair.key,
        write: Write::Whole(pair.row.row),
    };
    assert!(rt; records.push(record).is_ok());
    let records = Records::new(records);
    let batch = Batch {
        from,
        to: from + 1,
        records,
    };
    assert!(rt; fits(&batch));
    batch
}

// Whether each pair is within the limits.
fn are_within(pairs: &[TenantPair]) -> bool
    ensures { IsTrue result → All IsTenantPair pairs.now }
{
    for pair in pairs {
        if !is_within(pair) {
            return false;
        }
    }
    true
}

// Whether a pair's key is within the limits, as every row is.
fn is_within(pair: &TenantPair) -> bool
    ensures { IsTrue result → IsTenantPair pair.now }
{
    // For the proof: a row is within its limits.
    let _columns = pair.row.row.columns();
    pair.key.as_bytes().len() <= USER_KEY_BYTES
}
