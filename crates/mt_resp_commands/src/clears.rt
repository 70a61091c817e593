//! The removal of all pairs, page by page.

ghost use Rattle.std.specs.Prelude.{◌≡◌, IfOk};
ghost use Rattle.mt_resp_commands.specs.{Links.{Asked, ButSettles}, Clears.{page_after, removes, IsLastKey, IsPageCleared, IsAllCleared, cleared_told}};

use crate::link::Link;
use crate::lists::sum_of;
use crate::scans::{PAGE, page, page_of};
use mt_caller::Caller;
use mt_resp::{Shape, Told};
use mt_rows::{Command, Key, PairList};
use std::alloc::{AllocError, Global};

/// What is told when all pairs of the tenant are removed, page by page.
pub(crate) fn clear<C: Caller>(
    alloc: Global,
    caller: &mut C,
    link: &mut Link,
    counted: bool,
) -> Result<Told, AllocError>
    ensures cleared { IfOk result (λ one. IsAllCleared C.exchanges link.old caller.old counted one link.new caller.new) }
    ensures led { Asked (ButSettles C.exchanges) caller.old caller.new }
{
    let mut last = None;
    let mut count = 0;
    for _ in 0..u64::MAX {
        match clear_page(alloc, caller, link, last, count)? {
            Ok((key, removed)) => {
                last = Some(key);
                count = removed;
            }
            Err(total) => return Ok(cleared_told(counted, total)),
        }
    }
    Err(AllocError)
}

// Removes the keys of a page: its last key, and how many pairs were removed, if a page follows; else what is told at the end.
fn clear_page<C: Caller>(
    alloc: Global,
    caller: &mut C,
    link: &mut Link,
    last: Option<Key>,
    count: u64,
) -> Result<Result<(Key, u64), Told>, AllocError>
    ensures cleared { IfOk result (λ cleared. IsPageCleared C.exchanges link.old caller.old last count cleared link.new caller.new) }
    ensures led { Asked (ButSettles C.exchanges) caller.old caller.new }
{
    let pairs = match page(alloc, caller, link, page_after(alloc, last))? {
        Ok(pairs) => pairs,
        Err(one) => return Ok(Err(one)),
    };
    let last = last_key(&pairs)?;
    let removes = removes_of(alloc, &pairs)?;
    let first = Told::Number(count);
    match sum_of(alloc, caller, link, removes, Shape::Removed, first)? {
        Told::Number(removed) => match last {
            Some(key) => Ok(Ok((key, removed))),
            None => Ok(Err(Told::Number(removed))),
        },
        other => Ok(Err(other)),
    }
}

// A full page after the last key of the page before, or the first one.
fn page_after(alloc: Global, last: Option<Key>) -> Command
    ensures { result ≡ page_after last }
{
    match last {
        Some(key) => page_of(alloc, key, true, PAGE),
        None => page_of(alloc, Key::new(Vec::new(alloc)), false, PAGE),
    }
}

// Removes of all keys of a page.
fn removes_of(alloc: Global, pairs: &PairList) -> Result<Vec<Command>, AllocError>
    ensures { IfOk result (λ commands. commands.items ≡ removes pairs.now) }
{
    let mut commands = Vec::with_capacity(alloc, pairs.as_slice().len())?;
    for (key, _) in pairs.as_slice() {
        commands.push(Command::Remove { key: copied(key)? })?;
    }
    Ok(commands)
}

// The last key of a page, if it is full.
fn last_key(pairs: &PairList) -> Result<Option<Key>, AllocError>
    ensures { IfOk result (λ last. IsLastKey pairs.now last) }
{
    match pairs.as_slice() {
        [.., (key, _)] if pairs.as_slice().len() >= usize::from(PAGE) => Ok(Some(copied(key)?)),
        _ => Ok(None),
    }
}

// What is told when the last page was looked at.
fn cleared_told(counted: bool, sum: Told) -> Told
    ensures { result ≡ cleared_told counted sum }
{
    match sum {
        Told::Number(_) if !counted => Told::Fine,
        other => other,
    }
}

fn copied(key: &Key) -> Result<Key, AllocError>
    ensures { IfOk result (λ copy. copy ≡ key.now) }
{
    key.clone()
}
