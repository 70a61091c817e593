//! Commands of which a list is told, or one thing.

ghost use Rattle.std.specs.{Prelude.{◌≡◌, ◌++◌, List, length, take, IfOk, OnOk}, List.flat_map};
ghost use Rattle.mt_resp.specs.{Shapes.told_of, Replies.told_text, Numbers.number_line};
ghost use Rattle.mt_resp.specs.declared.told.Told.TheVariants as told;
ghost use Rattle.mt_resp_commands.specs.{Links.{Asked, ButSettles, IsTold}, Lists.{AreTold, IsFolded, plus, both}};

use crate::link::Link;
use mt_caller::Caller;
use mt_resp::{CommandList, Shape, Told, write_number, write_told};
use mt_rows::Command;
use std::alloc::{AllocError, Global};

/// Writes the list of what is told of commands at the end. What was written before stays, also if it fails.
pub(crate) fn write_each<C: Caller>(
    alloc: Global,
    caller: &mut C,
    link: &mut Link,
    commands: CommandList,
    shape: Shape,
    output: &mut Vec<u8>,
) -> Result<(), AllocError>
    ensures ok { OnOk result ((ones : List Told) × AreTold C.exchanges link.old caller.old commands (told_of shape) ones link.new caller.new
        × (output.new.items ≡ output.old.items ++ (number_line 42 (length commands) ++ flat_map told_text ones))) }
    ensures front { take (length output.old.items) output.new.items ≡ output.old.items }
    ensures led { Asked (ButSettles C.exchanges) caller.old caller.new }
{
    write_number(b'*', commands.len() as u64, output)?;
    for command in commands.into_vec() {
        write_one(alloc, caller, link, command, shape, output)?;
    }
    Ok(())
}

// Writes what is told of a command at the end.
fn write_one<C: Caller>(
    alloc: Global,
    caller: &mut C,
    link: &mut Link,
    command: Command,
    shape: Shape,
    output: &mut Vec<u8>,
) -> Result<(), AllocError>
    ensures ok { OnOk result ((one : Told) × IsTold C.exchanges link.old caller.old command (told_of shape) one link.new caller.new × (output.new.items ≡ output.old.items ++ told_text one)) }
    ensures front { take (length output.old.items) output.new.items ≡ output.old.items }
    ensures led { Asked (ButSettles C.exchanges) caller.old caller.new }
{
    let one = link.tell(alloc, caller, command, shape)?;
    write_told(&one, output)
}

/// The sum of what commands are told after a first number, or the first that is no number.
pub(crate) fn sum_of<C: Caller>(
    alloc: Global,
    caller: &mut C,
    link: &mut Link,
    commands: Vec<Command>,
    shape: Shape,
    first: Told,
) -> Result<Told, AllocError>
    ensures sum { IfOk result (λ one. IsFolded C.exchanges link.old caller.old commands.items (told_of shape) plus first one link.new caller.new) }
    ensures led { Asked (ButSettles C.exchanges) caller.old caller.new }
{
    let mut sum = first;
    for command in commands {
        let one = link.tell(alloc, caller, command, shape)?;
        sum = plus(sum, one);
    }
    Ok(sum)
}

/// That all commands are done, or the first that isn't.
pub(crate) fn all_of<C: Caller>(
    alloc: Global,
    caller: &mut C,
    link: &mut Link,
    commands: Vec<Command>,
    shape: Shape,
) -> Result<Told, AllocError>
    ensures all { IfOk result (λ one. IsFolded C.exchanges link.old caller.old commands.items (told_of shape) both told.Fine one link.new caller.new) }
    ensures led { Asked (ButSettles C.exchanges) caller.old caller.new }
{
    let mut all = Told::Fine;
    for command in commands {
        let one = link.tell(alloc, caller, command, shape)?;
        all = both(all, one);
    }
    Ok(all)
}

// The sum of two numbers, or the first that is none.
fn plus(sum: Told, one: Told) -> Told
    ensures { result ≡ plus sum one }
{
    match (sum, one) {
        (Told::Number(sum), Told::Number(number)) => Told::Number(sum.saturating_add(number)),
        (Told::Number(_), other) => other,
        (other, _) => other,
    }
}

// What is told of both: the first that isn't done.
fn both(all: Told, one: Told) -> Told
    ensures { result ≡ both all one }
{
    match all {
        Told::Fine => one,
        other => other,
    }
}
