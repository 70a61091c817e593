//! A connection's link to its tenant, and one command of it.

ghost use Rattle.std.specs.Prelude.{◌≡◌, Option, IfOk};
ghost use Rattle.mt_caller.specs.Exchanges.{Opens};
ghost use Rattle.mt_resp.specs.{Shapes.{told_of, picked_of}};
ghost use Rattle.mt_resp_commands.specs.{Links.{Asked, ButSettles, IsSaid, IsTold, refused}, Answers.{fresh, select_told, select_after, settle_told}};

use mt_caller::{Caller, CallerFault};
use mt_resp::{Failure, Shape, Told, picked};
use mt_rows::{ColumnIndexes, Command, Refusal, Reply};
use std::alloc::{AllocError, Global};

/// A connection's link to its tenant.
#[derive(Clone, Copy, Debug)]
pub struct Link {
    /// The tenant whose commands it has.
    pub tenant: u32,
    /// Whether its caller has opened the tenant.
    pub is_open: bool,
}

/// What is said of a command.
#[derive(Debug, Drop)]
pub enum Said {
    /// It has this reply.
    Replied(Reply),
    /// It was refused, or its tenant was.
    Refused(Refusal),
}

impl Link {
    /// The link of a connection that has begun: the tenant is 0, and isn't opened.
    pub fn new() -> Self
        ensures { result ≡ fresh }
    {
        Link {
            tenant: 0,
            is_open: false,
        }
    }

    /// What is said of a command. The tenant is opened before it, if it isn't open.
    pub(crate) fn say<C: Caller>(
        &mut self,
        alloc: Global,
        caller: &mut C,
        command: Command,
    ) -> Result<Said, AllocError>
        ensures said { IfOk result (λ said. IsSaid C.exchanges self.old caller.old command said self.new caller.new) }
        ensures led { Asked (ButSettles C.exchanges) caller.old caller.new }
    {
        if !self.is_open {
            if let Err(refusal) = caller.open(self.tenant) {
                return Ok(Said::Refused(refusal));
            }
            self.is_open = true;
        }
        match caller.call(alloc, command) {
            Ok(reply) => Ok(Said::Replied(reply)),
            Err(CallerFault::Refused(refusal)) => Ok(Said::Refused(refusal)),
            Err(CallerFault::Stuck) => Err(AllocError),
        }
    }

    /// What is told of a command whose reply is shown so.
    pub(crate) fn tell<C: Caller>(
        &mut self,
        alloc: Global,
        caller: &mut C,
        command: Command,
        shape: Shape,
    ) -> Result<Told, AllocError>
        ensures told { IfOk result (λ one. IsTold C.exchanges self.old caller.old command (told_of shape) one self.new caller.new) }
        ensures led { Asked (ButSettles C.exchanges) caller.old caller.new }
    {
        match self.say(alloc, caller, command)? {
            Said::Replied(reply) => Ok(shape.told(reply)),
            Said::Refused(refusal) => Ok(refused(refusal)),
        }
    }

    /// What is told of a get of whose row these columns are shown.
    pub(crate) fn pick<C: Caller>(
        &mut self,
        alloc: Global,
        caller: &mut C,
        command: Command,
        indexes: ColumnIndexes,
    ) -> Result<Told, AllocError>
        ensures told { IfOk result (λ one. IsTold C.exchanges self.old caller.old command (λ reply. picked_of reply indexes) one self.new caller.new) }
        ensures led { Asked (ButSettles C.exchanges) caller.old caller.new }
    {
        match self.say(alloc, caller, command)? {
            Said::Replied(reply) => Ok(picked(reply, indexes)),
            Said::Refused(refusal) => Ok(refused(refusal)),
        }
    }

    /// What is told of a SELECT.
    pub(crate) fn select<C: Caller>(&mut self, caller: &mut C, number: u32) -> Told
        ensures told { (refusal : Option Refusal) × C.exchanges caller.old (Opens number refusal) caller.new × (result ≡ select_told refusal) × (self.new ≡ select_after self.old number refusal) }
        ensures led { Asked (ButSettles C.exchanges) caller.old caller.new }
    {
        match caller.open(number) {
            Ok(()) => {
                *self = Link {
                    tenant: number,
                    is_open: true,
                };
                Told::Fine
            }
            Err(refusal) => {
                self.is_open = false;
                refused(refusal)
            }
        }
    }
}

/// What is told of a Settle of the caller.
pub fn settled(answer: Result<u64, Refusal>) -> Told
    ensures { result ≡ settle_told answer }
{
    match answer {
        Ok(_) => Told::Settled,
        Err(refusal) => refused(refusal),
    }
}

/// What is told of a refusal.
pub fn refused(refusal: Refusal) -> Told
    ensures { result ≡ refused refusal }
{
    Told::Failed(Failure::Refused(refusal))
}
