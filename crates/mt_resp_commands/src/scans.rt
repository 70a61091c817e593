//! Pages of keys: SCAN with its cursors, and RANGE.

ghost use Rattle.std.specs.Prelude.{◌≡◌, ◌<◌, IfOk};
ghost use Rattle.mt_resp_commands.specs.{Links.{Asked, ButSettles}, Scans.{IsPaged, page_of, IsBegun, IsCursor, IsScanned, IsRanged, scan_count, prefix_of, is_after}};

use crate::knowing::Knows;
use crate::link::{Link, Said, refused};
use mt_caller::Caller;
use mt_resp::{Failure, RangeWay, Told, Word};
use mt_rows::{ColumnIndexes, Command, Key, PairList, Refusal, Reply};
use std::alloc::{AllocError, Global};

/// How many pairs a page has at most.
pub const PAGE: u8 = 64;

/// What is told of a SCAN: a page from where its cursor stands, of keys like the pattern, and the cursor after it.
pub(crate) fn scan<C: Caller + Knows>(
    alloc: Global,
    caller: &mut C,
    link: &mut Link,
    cursor: u64,
    pattern: Option<Word>,
    count: u64,
) -> Result<Told, AllocError>
    ensures scanned { IfOk result (λ one. IsScanned C.exchanges C.knows link.old caller.old cursor pattern count one link.new caller.new) }
    ensures led { Asked (ButSettles C.exchanges) caller.old caller.new }
{
    let tenant = link.tenant;
    let Some((from, after)) = begin(alloc, caller, tenant, cursor)? else {
        return Ok(Told::Failed(Failure::NoCursor));
    };
    let count = scan_count(count);
    match page(alloc, caller, link, page_of(alloc, from, after, count))? {
        Ok(pairs) => {
            let cursor = cursor_after(alloc, caller, tenant, count, &pairs)?;
            Ok(Told::Keys(cursor, pairs, pattern))
        }
        Err(one) => Ok(one),
    }
}

// Where a SCAN begins: from a key on, or after it; none if its cursor is not kept.
fn begin<C: Knows>(
    alloc: Global,
    caller: &C,
    tenant: u32,
    cursor: u64,
) -> Result<Option<(Key, bool)>, AllocError>
    ensures { IfOk result (λ begun. IsBegun C.knows tenant cursor begun caller.now) }
{
    if cursor == 0 {
        return Ok(Some((Key::new(Vec::new(alloc)), false)));
    }
    match caller.find(alloc, tenant, cursor)? {
        Some(key) => Ok(Some((key, true))),
        None => Ok(None),
    }
}

// How many keys a SCAN looks at.
fn scan_count(count: u64) -> u8
    ensures { result ≡ scan_count count }
{
    count.clamp(1, u64::from(PAGE)) as u8
}

// The cursor after a page, 0 after the last one.
fn cursor_after<C: Knows>(
    alloc: Global,
    caller: &C,
    tenant: u32,
    count: u8,
    pairs: &PairList,
) -> Result<u64, AllocError>
    requires { 0 < count }
    ensures { IfOk result (λ cursor. IsCursor C.knows tenant count pairs.now cursor caller.now) }
{
    match pairs.as_slice() {
        [.., (key, _)] if pairs.as_slice().len() >= usize::from(count) => {
            caller.keep(alloc, tenant, key)
        }
        _ => Ok(0),
    }
}

/// A page of whole rows from a key on, or after it.
pub(crate) fn page_of(alloc: Global, from: Key, after: bool, count: u8) -> Command
    ensures { result ≡ page_of from after count }
{
    Command::Scan {
        from,
        after,
        count,
        columns: ColumnIndexes::new(Vec::new(alloc)),
    }
}

/// The page, or what is told if there is none.
pub(crate) fn page<C: Caller>(
    alloc: Global,
    caller: &mut C,
    link: &mut Link,
    command: Command,
) -> Result<Result<PairList, Told>, AllocError>
    ensures page { IfOk result (λ page. IsPaged C.exchanges link.old caller.old command page link.new caller.new) }
    ensures led { Asked (ButSettles C.exchanges) caller.old caller.new }
{
    match link.say(alloc, caller, command)? {
        Said::Replied(Reply::Pairs(pairs)) => Ok(Ok(pairs)),
        Said::Replied(Reply::NoMemory) => Ok(Err(Told::Failed(Failure::NoMemory))),
        Said::Replied(_) => Ok(Err(Told::Failed(Failure::Strange))),
        Said::Refused(refusal) => Ok(Err(refused(refusal))),
    }
}

/// What is told of a range: a page of 1 to 64 pairs.
pub(crate) fn range<C: Caller>(
    alloc: Global,
    caller: &mut C,
    link: &mut Link,
    from: Key,
    way: RangeWay,
    count: u64,
    stamps: bool,
) -> Result<Told, AllocError>
    ensures ranged { IfOk result (λ one. IsRanged C.exchanges link.old caller.old from way count stamps one link.new caller.new) }
    ensures led { Asked (ButSettles C.exchanges) caller.old caller.new }
{
    if count == 0 || count > u64::from(PAGE) {
        return Ok(refused(Refusal::ScanCount));
    }
    let prefix = prefix_of(way, &from)?;
    match page(
        alloc,
        caller,
        link,
        page_of(alloc, from, is_after(way), count as u8),
    )? {
        Ok(pairs) => Ok(Told::Pairs(pairs, prefix, stamps)),
        Err(one) => Ok(one),
    }
}

// With what the keys of a range begin.
fn prefix_of(way: RangeWay, from: &Key) -> Result<Option<Key>, AllocError>
    ensures { IfOk result (λ prefix. prefix ≡ prefix_of way from.now) }
{
    match way {
        RangeWay::Prefix => Ok(Some(from.clone()?)),
        RangeWay::From | RangeWay::After => Ok(None),
    }
}

fn is_after(way: RangeWay) -> bool
    ensures { result ≡ is_after way }
{
    matches!(way, RangeWay::After)
}
