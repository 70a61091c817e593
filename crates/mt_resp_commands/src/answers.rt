//! The answer to each thing that is asked.

ghost use Rattle.std.specs.Prelude.{◌≡◌, ◌≢◌, ◌++◌, false, length, take, IfOk, OnOk};
ghost use Rattle.mt_rows.specs.Rows.{Bytes};
ghost use Rattle.mt_resp.specs.declared.asked.Asked.TheVariants as asks;
ghost use Rattle.mt_resp_commands.specs.Links as links;
ghost use Rattle.mt_resp_commands.specs.{Links.ButSettles, Answers.{IsAnswer, IsOne, AskedFor, is_list}};

use crate::changes::{change, take};
use crate::clears::clear;
use crate::knowing::Knows;
use crate::link::{Link, settled};
use crate::lists::{all_of, sum_of, write_each};
use crate::scans::{range, scan};
use mt_caller::Caller;
use mt_resp::{Asked, Told, write_told};
use std::alloc::{AllocError, Global};

/// Answers what is asked, and writes what is told at the end of the output. What was written before stays.
///
/// An error says that a growth was refused, or that a command is stuck: what was asked may have been done, wholly or in part.
pub fn answer<C: Caller + Knows>(
    alloc: Global,
    caller: &mut C,
    link: &mut Link,
    asked: Asked,
    output: &mut Vec<u8>,
) -> Result<(), AllocError>
    ensures ok { OnOk result ((text : Bytes) × IsAnswer C.exchanges C.knows link.old caller.old asked text link.new caller.new × (output.new.items ≡ output.old.items ++ text)) }
    ensures front { take (length output.old.items) output.new.items ≡ output.old.items }
    ensures led { links.Asked C.exchanges caller.old caller.new }
    ensures others { asked ≢ asks.Settle → links.Asked (ButSettles C.exchanges) caller.old caller.new }
{
    match asked {
        Asked::Each(commands, shape) => write_each(alloc, caller, link, commands, shape, output),
        asked => {
            let one = tell(alloc, caller, link, asked)?;
            write_told(&one, output)
        }
    }
}

// What is told, if it is one thing.
fn tell<C: Caller + Knows>(
    alloc: Global,
    caller: &mut C,
    link: &mut Link,
    asked: Asked,
) -> Result<Told, AllocError>
    requires { is_list asked ≡ false }
    ensures told { IfOk result (λ one. IsOne C.exchanges C.knows link.old caller.old asked one link.new caller.new) }
    ensures led { AskedFor C.exchanges asked caller.old caller.new }
{
    match asked {
        Asked::Told(one) => Ok(one),
        Asked::Select(number) => Ok(link.select(caller, number)),
        Asked::Reset => {
            *link = Link::new();
            Ok(Told::Reset)
        }
        Asked::Quit => Ok(Told::Fine),
        Asked::Close => Ok(Told::Nothing),
        Asked::Call(command, shape) => link.tell(alloc, caller, command, shape),
        Asked::Pick(command, indexes) => link.pick(alloc, caller, command, indexes),
        Asked::Each(_, _) => unreachable!(),
        Asked::Sum(commands, shape) => {
            let first = Told::Number(0);
            sum_of(alloc, caller, link, commands.into_vec(), shape, first)
        }
        Asked::All(commands, shape) => all_of(alloc, caller, link, commands.into_vec(), shape),
        Asked::Change(key, edit) => change(alloc, caller, link, &key, &edit),
        Asked::Take(key) => take(alloc, caller, link, key),
        Asked::Scan {
            cursor,
            pattern,
            count,
        } => scan(alloc, caller, link, cursor, pattern, count),
        Asked::Range {
            from,
            way,
            count,
            stamps,
        } => range(alloc, caller, link, from, way, count, stamps),
        Asked::Clear { counted } => clear(alloc, caller, link, counted),
        Asked::Settle => Ok(settled(caller.settle())),
        Asked::Status(status) => caller.report(alloc, link.tenant, status),
    }
}
