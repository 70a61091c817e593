//! The records of all logs, one after the other by their stamps.

ghost use Rattle.std.specs.Prelude.{◌≡◌, ◌≢◌, ◌⊎◌, ◌<◌, ◌≤◌, ◌↔◌, [], List, length, map, Some, None, IsTrue, IfOk, IfSome, IfErr, OnOk};
ghost use Rattle.mt_rows.specs.{declared.record.Record.{Record as AnyRecord}, declared.refusal.Refusal.TheVariants.{Memory}};
ghost use Rattle.mt_log.specs.Contents.{contents_of};
ghost use Rattle.mt_crashes.specs.Recoveries.{AreSet};
ghost use Rattle.mt_recover.specs.{Falls.{fall_of, first_fall}, Sources.AreLeft, Lanes.{IsFull, work, ReadsOn, StopsReading}, Merges.{Taken, AreMerging, IsLeast, IsHighest, first_of, lesser, works}, Takes.{HaveLeft, ReadAgain, StopsTaking, Takes, IsWithout}, declared.lanes.Lane.{Lane as AnyLane}};

use crate::lanes::{Lane, fill};
use crate::source::Source;
use mt_log::Front;
use mt_rows::{Record, Refusal};
use std::alloc::Global;

/// The log whose first stamp is the least, and whether another log has that stamp too.
#[derive(Clone, Copy)]
pub(crate) struct Next {
    pub log: usize,
    pub stamp: u64,
    pub twice: bool,
}

/// Begins to read all logs again.
pub(crate) fn begin<S: Source>(
    alloc: Global,
    source: &mut S,
    fronts: &mut [Front],
) -> Result<Vec<Lane>, Refusal>
    requires logs { S.logs source.old ≡ length fronts.old }
    requires rise { first_fall (map contents_of fronts.old) ≡ None }
    ensures read { ReadAgain S.logs S.follows S.left source.old (map contents_of fronts.old) (AreLeft (S.left source.old) (map contents_of fronts.old)) source.new (map contents_of fronts.new) }
    ensures begun { IfOk result (λ lanes. AreMerging [] (map contents_of fronts.new) lanes.items) }
    ensures left { IfOk result (λ lanes. AreLeft (S.left source.old) (map contents_of fronts.old) → HaveLeft S.logs S.follows S.left source.new (map contents_of fronts.new) lanes.items) }
    ensures stops { IfErr result (λ e. (e ≡ Memory) ⊎ StopsTaking S.logs S.follows S.left S.refused (AreLeft (S.left source.old) (map contents_of fronts.old)) source.new (map contents_of fronts.new) e) }
{
    let mut lanes = Vec::new(alloc);
    for log in 0..fronts.len() {
        let mut lane = Lane::new(alloc);
        fill(alloc, source, log, &mut fronts[log], &mut lane)?;
        lanes.push(lane)?;
    }
    Ok(lanes)
}

/// Takes the next record of all logs, none after the last. `StampsFall` tells that two logs have its stamp, and the highest worker of those.
pub(crate) fn take_record<S: Source>(
    alloc: Global,
    source: &mut S,
    fronts: &mut [Front],
    lanes: &mut [Lane],
) -> Result<Option<Record>, Refusal>
    requires logs { S.logs source.old ≡ length fronts.old }
    requires set { AreSet (map contents_of fronts.old) }
    requires merging { (taken : List Taken) × AreMerging taken (map contents_of fronts.old) lanes.old }
    ensures read { ReadAgain S.logs S.follows S.left source.old (map contents_of fronts.old) (HaveLeft S.logs S.follows S.left source.old (map contents_of fronts.old) lanes.old) source.new (map contents_of fronts.new) }
    ensures taken { IfOk result (λ r. (taken : List Taken) → AreMerging taken (map contents_of fronts.old) lanes.old → Takes taken r (map contents_of fronts.new) lanes.new) }
    ensures left { OnOk result (HaveLeft S.logs S.follows S.left source.old (map contents_of fronts.old) lanes.old → HaveLeft S.logs S.follows S.left source.new (map contents_of fronts.new) lanes.new) }
    ensures less { IfOk result (λ r. IfSome r (λ _. works (map contents_of fronts.new) lanes.new < works (map contents_of fronts.old) lanes.old)) }
    ensures stops { IfErr result (StopsTaking S.logs S.follows S.left S.refused (HaveLeft S.logs S.follows S.left source.old (map contents_of fronts.old) lanes.old) source.new (map contents_of fronts.new)) }
{
    let Some(next) = least(lanes) else {
        return Ok(None);
    };
    if next.twice {
        let number = highest_with(fronts, lanes, next.stamp);
        return Err(Refusal::StampsFall {
            number,
            stamp: next.stamp,
        });
    }
    take_first(
        alloc,
        source,
        next.log,
        &mut fronts[next.log],
        &mut lanes[next.log],
    )
}

// Takes the first record that is left of a log, and reads on.
fn take_first<S: Source>(
    alloc: Global,
    source: &mut S,
    log: usize,
    front: &mut Front,
    lane: &mut Lane,
) -> Result<Option<Record>, Refusal>
    requires log { log < S.logs source.old }
    requires within { lane.old.read ≤ length front.old.batches.items }
    requires rises { fall_of (contents_of front.old) ≡ None }
    requires some { lane.old.left.items ≢ [] }
    ensures on { IfOk result (λ first. (r : AnyRecord) × (mid : AnyLane) × (first ≡ Some r) × IsWithout r lane.old mid × ReadsOn S.logs S.follows S.left log source.old (contents_of front.old) mid source.new (contents_of front.new) lane.new) }
    ensures full { OnOk result (IsFull (contents_of front.new) lane.new) }
    ensures less { OnOk result (work (contents_of front.new) lane.new < work (contents_of front.old) lane.old) }
    ensures stops { IfErr result (StopsReading S.logs S.follows S.left S.refused log source.old (contents_of front.old) lane.old source.new (contents_of front.new)) }
{
    let record = lane.left.pop_front();
    fill(alloc, source, log, front, lane)?;
    Ok(record)
}

// The log with the least first stamp, none if no log has a record left.
fn least(lanes: &[Lane]) -> Option<Next>
    ensures { IsLeast lanes.now result }
{
    let mut least = None;
    for log in 0..lanes.len() {
        if let Some(record) = lanes[log].left.front() {
            least = Some(lesser(least, log, record.stamp));
        }
    }
    least
}

// The lesser of two, the first of equal ones.
fn lesser(least: Option<Next>, log: usize, stamp: u64) -> Next
    ensures { result ≡ lesser least log stamp }
{
    match least {
        Some(least) if least.stamp < stamp => least,
        Some(least) if least.stamp == stamp => Next {
            twice: true,
            ..least
        },
        _ => Next {
            log,
            stamp,
            twice: false,
        },
    }
}

// The highest worker of the logs whose first stamp is this one, 0 of none.
fn highest_with(fronts: &[Front], lanes: &[Lane], stamp: u64) -> u8
    requires { length lanes.now ≡ length fronts.now }
    ensures { IsHighest (map contents_of fronts.now) lanes.now stamp result }
{
    let mut highest = 0;
    for log in 0..lanes.len() {
        if begins_with(&lanes[log], stamp) {
            highest = highest.max(fronts[log].worker);
        }
    }
    highest
}

// Whether a log's first stamp is this one.
fn begins_with(lane: &Lane, stamp: u64) -> bool
    ensures { IsTrue result ↔ (first_of lane.now.left.items ≡ Some stamp) }
{
    lane.left
        .front()
        .is_some_and(|record| record.stamp == stamp)
}
