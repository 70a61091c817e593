//! A row is read, changed, and put back if its stamp still stands; and a string that is taken.

ghost use Rattle.std.specs.Prelude.{◌≡◌, IfOk};
ghost use Rattle.mt_resp.specs.Making.{get};
ghost use Rattle.mt_resp_commands.specs.{Links.{Asked, ButSettles}, Changes.{IsEdited, IsTried, IsChanged, IsTaken, put_told, taken_told}};

use crate::link::{Link, Said, refused};
use mt_caller::Caller;
use mt_resp::{Edit, Edited, Failure, Shape, Told, after_edit};
use mt_rows::{ColumnIndexes, Command, Key, Reply, StampedRow};
use std::alloc::{AllocError, Global};

/// How often a change is tried while others change the same row.
pub const ROUNDS: u32 = 64;

/// What is told of a change: the row is read, and put if its stamp still stands, in at most `ROUNDS` rounds.
pub(crate) fn change<C: Caller>(
    alloc: Global,
    caller: &mut C,
    link: &mut Link,
    key: &Key,
    edit: &Edit,
) -> Result<Told, AllocError>
    ensures changed { IfOk result (λ one. IsChanged C.exchanges link.old caller.old key.now edit.now one link.new caller.new) }
    ensures led { Asked (ButSettles C.exchanges) caller.old caller.new }
{
    for _ in 0..ROUNDS {
        if let Some(one) = change_once(alloc, caller, link, key, edit)? {
            return Ok(one);
        }
    }
    Ok(Told::Failed(Failure::Busy))
}

// One round: what is told, or nothing if the row was changed meanwhile.
fn change_once<C: Caller>(
    alloc: Global,
    caller: &mut C,
    link: &mut Link,
    key: &Key,
    edit: &Edit,
) -> Result<Option<Told>, AllocError>
    ensures tried { IfOk result (λ done. IsTried C.exchanges link.old caller.old key.now edit.now done link.new caller.new) }
    ensures led { Asked (ButSettles C.exchanges) caller.old caller.new }
{
    match link.say(alloc, caller, get_of(alloc, key)?)? {
        Said::Replied(Reply::Found(row)) => {
            let stamp = row.stamp;
            let edited = after_edit(alloc, edit, Some(row))?;
            put_edited(alloc, caller, link, key, stamp, edited)
        }
        Said::Replied(Reply::Absent) => {
            let edited = after_edit(alloc, edit, None)?;
            put_edited(alloc, caller, link, key, 0, edited)
        }
        Said::Replied(Reply::NoMemory) => Ok(Some(Told::Failed(Failure::NoMemory))),
        Said::Replied(_) => Ok(Some(Told::Failed(Failure::Strange))),
        Said::Refused(refusal) => Ok(Some(refused(refusal))),
    }
}

// Puts what an edit asks for, if the row still has this stamp.
fn put_edited<C: Caller>(
    alloc: Global,
    caller: &mut C,
    link: &mut Link,
    key: &Key,
    stamp: u64,
    edited: Edited,
) -> Result<Option<Told>, AllocError>
    ensures edited { IfOk result (λ done. IsEdited C.exchanges link.old caller.old key.now stamp edited done link.new caller.new) }
    ensures led { Asked (ButSettles C.exchanges) caller.old caller.new }
{
    match edited {
        Edited::Kept(one) => Ok(Some(one)),
        Edited::Put(change, one) => {
            let command = Command::PutIf {
                key: key.clone()?,
                stamp,
                change,
            };
            let said = link.say(alloc, caller, command)?;
            Ok(put_told(one, said))
        }
    }
}

// What is told of a put that an edit asked for; nothing if the row was changed meanwhile.
fn put_told(one: Told, said: Said) -> Option<Told>
    ensures { result ≡ put_told one said }
{
    match said {
        Said::Replied(Reply::New | Reply::Replaced) => Some(one),
        Said::Replied(Reply::Stale(_)) => None,
        Said::Replied(Reply::Full) => Some(Told::Failed(Failure::OverQuota)),
        Said::Replied(Reply::NoMemory) => Some(Told::Failed(Failure::NoMemory)),
        Said::Replied(_) => Some(Told::Failed(Failure::Strange)),
        Said::Refused(refusal) => Some(refused(refusal)),
    }
}

/// What is told of a string that is taken: it is got, and then its row is removed.
pub(crate) fn take<C: Caller>(
    alloc: Global,
    caller: &mut C,
    link: &mut Link,
    key: Key,
) -> Result<Told, AllocError>
    ensures taken { IfOk result (λ one. IsTaken C.exchanges link.old caller.old key one link.new caller.new) }
    ensures led { Asked (ButSettles C.exchanges) caller.old caller.new }
{
    match link.say(alloc, caller, get_of(alloc, &key)?)? {
        Said::Replied(Reply::Found(row)) => {
            let said = link.say(alloc, caller, Command::Remove { key })?;
            Ok(taken_told(row, said))
        }
        Said::Replied(reply) => Ok(Shape::Value.told(reply)),
        Said::Refused(refusal) => Ok(refused(refusal)),
    }
}

// What is told of a string that was found, when its row was to be removed.
fn taken_told(row: StampedRow, said: Said) -> Told
    ensures { result ≡ taken_told row said }
{
    match said {
        Said::Replied(Reply::Removed) => Told::Value(row),
        Said::Replied(Reply::Absent) => Told::Nil,
        Said::Replied(reply) => Shape::Removed.told(reply),
        Said::Refused(refusal) => refused(refusal),
    }
}

// A get of the whole row.
fn get_of(alloc: Global, key: &Key) -> Result<Command, AllocError>
    ensures { IfOk result (λ command. command ≡ get key.now) }
{
    Ok(Command::Get {
        key: key.clone()?,
        columns: ColumnIndexes::new(Vec::new(alloc)),
    })
}
