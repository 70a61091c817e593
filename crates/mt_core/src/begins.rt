//! How operations are made of commands, and answered.

ghost use Rattle.std.specs.Prelude.{◌≡◌, ◌≢◌, ◌<◌, ◌≤◌, ℕ, true, false, IsTrue, OnSome, IfSome, IfNone, IfOk, length, slice_set, Some, None};
ghost use Rattle.mt_operation.specs.{declared.operation.Operation.{Operation as AnyOperation}, Operations.{view_of, is_unfinished}};
ghost use Rattle.mt_operation.specs.{Tables.{op_at as operation_at}, Tasks.{command_of}};
ghost use Rattle.mt_rows.specs.Commands.{IsTaken};
ghost use Rattle.mt_state.specs.{Begins.{begun, IsAnswerOf}, Refused.Makes};
ghost use Rattle.mt_core.specs.{Tidies.{IsRestOf, DisplacesRestOf}, Admitted.{IsRequest, IsAdmitted, IsMadeOf, view_in}};

use crate::displaced::Displaced;
use mt_operation::{Operation, Outcome, Request, Spare, Task};
use mt_rows::{Change, ColumnIndexes, Command, Key, Refusal};
use mt_runs::Answer;
use mt_slices::{KeyRefusal, StoredKey};
use mt_table::Operations;
use std::alloc::{AllocError, Global};
use std::boxed::Box;
use std::marker::Model;
use std::mem;

// The request of a command without fault, or its first fault.
fn request_of(alloc: Global, command: Command) -> Result<Request, Refusal>
    ensures request { IfOk result (λ request. IsRequest request command) }
    ensures refused { Makes command result }
{
    command.check()?;
    match command {
        Command::Get { key, columns } => Ok(Request::Get { key, columns }),
        Command::Put { key, change } => {
            let change = Change::new(change)?.with_row(alloc)?;
            Ok(Request::Put { key, change })
        }
        Command::PutIf { key, stamp, change } => {
            let change = Change::new(change)?.with_row(alloc)?;
            Ok(Request::PutIf { key, stamp, change })
        }
        Command::Remove { key } => Ok(Request::Remove { key }),
        Command::Scan {
            from,
            after,
            count,
            columns,
        } => Ok(Request::Scan {
            from,
            after,
            count,
            columns,
        }),
    }
}

/// An operation that was made of a command, with its key and its change, and waits to be begun; or
/// the refusal of its command. It is made before the state is touched, in the box in which it stays
/// until its answer is taken: so to begin it moves no more than the box.
#[derive(Drop)]
pub struct Opening {
    pub(crate) tenant: u32,
    pub(crate) made: Result<Box<Operation>, Refusal>,
}

impl Model for Opening {
    ghost use Rattle.std.specs.Result.{result_map_both};
    ghost use Rattle.mt_core.specs.Admitted.{OpeningView, IsRightOpening, view_in};

    ghost Value = { OpeningView };

    ghost view = { λ o. record { tenant = o.tenant; made = result_map_both view_in (λ r. r) o.made } };

    ghost invariant = { λ o. IsRightOpening o.tenant o.made };
}

/// Makes all of an operation that a begin needs of its command.
///
/// What refuses the command stays in the opening, and is answered where it is begun.
pub fn prepare(alloc: Global, worker: u8, tenant: u32, command: Command) -> Opening
    ensures tenant { result.tenant ≡ tenant }
    ensures made { IsMadeOf result.made worker tenant command }
    ensures refused { Makes command result.made }
{
    prepare_in(alloc, None, worker, tenant, command)
}

/// The same in the memory of an operation that is over, if there is one. What that still has is freed.
pub fn prepare_in(
    alloc: Global,
    over: Option<Box<Operation>>,
    worker: u8,
    tenant: u32,
    command: Command,
) -> Opening
    ensures tenant { result.tenant ≡ tenant }
    ensures made { IsMadeOf result.made worker tenant command }
    ensures refused { Makes command result.made }
{
    Opening {
        tenant,
        made: admitted(alloc, over, worker, tenant, command),
    }
}

// An operation before its first step.
fn admitted(
    alloc: Global,
    over: Option<Box<Operation>>,
    worker: u8,
    tenant: u32,
    command: Command,
) -> Result<Box<Operation>, Refusal>
    ensures admitted { IfOk result (λ op. IsAdmitted op.value) }
    ensures is { IfOk result (λ op. view_in op ≡ begun worker tenant command 0) }
    ensures refused { Makes command result }
{
    let request = request_of(alloc, command)?;
    match over {
        Some(operation) => renewed(alloc, operation, worker, tenant, request),
        None => made(alloc, worker, tenant, request),
    }
}

// An operation before its first step, of a request that is taken.
fn made(alloc: Global, worker: u8, tenant: u32, request: Request) -> Result<Box<Operation>, Refusal>
    requires { IsTaken (command_of request) }
    ensures admitted { IfOk result (λ op. IsAdmitted op.value) }
    ensures is { IfOk result (λ op. view_in op ≡ begun worker tenant (command_of request) 0) }
    ensures refused { Makes (command_of request) result }
{
    let key = match StoredKey::new(alloc, tenant, request.key().as_bytes()) {
        Ok(key) => key,
        Err(KeyRefusal::KeyLong) => return Err(Refusal::KeyLong),
        Err(KeyRefusal::Memory) => return Err(Refusal::Memory),
    };
    let mut spare = Spare::none();
    make_room(alloc, &mut spare, &request)?;
    let task = Task {
        worker,
        tenant,
        request,
        key,
        spare,
    };
    let operation = Box::new(alloc, Operation::new(alloc, task))?;
    Ok(operation)
}

// The same in the box of an operation that is over.
fn renewed(
    alloc: Global,
    operation: Box<Operation>,
    worker: u8,
    tenant: u32,
    request: Request,
) -> Result<Box<Operation>, Refusal>
    requires { IsTaken (command_of request) }
    ensures admitted { IfOk result (λ op. IsAdmitted op.value) }
    ensures is { IfOk result (λ op. view_in op ≡ begun worker tenant (command_of request) 0) }
    ensures refused { Makes (command_of request) result }
{
    let mut operation = operation;
    let place = operation.as_mut();
    make_room(alloc, &mut place.task.spare, &request)?;
    match place.renew(alloc, worker, tenant, request) {
        Ok(()) => Ok(operation),
        Err(KeyRefusal::KeyLong) => Err(Refusal::KeyLong),
        Err(KeyRefusal::Memory) => Err(Refusal::Memory),
    }
}

// Whether a change names the first column alone: it makes a row of several columns only over another such one.
fn names_first_alone(change: &Change) -> bool {
    let columns = change.columns();
    columns.len() == 1 && columns[0].0 == 0
}

// Makes room for what an operation writes on the tape, if it is one that changes something.
fn make_room(alloc: Global, spare: &mut Spare, request: &Request) -> Result<(), AllocError> {
    match request {
        Request::Put { key, change } | Request::PutIf { key, change, .. } => {
            spare.leave_bytes(alloc)?;
            spare.make_key_room(alloc, key.as_bytes().len())?;
            if names_first_alone(change) {
                Ok(())
            } else {
                spare.make_row_room(alloc)
            }
        }
        Request::Remove { key } => spare.make_key_room(alloc, key.as_bytes().len()),
        Request::Get { .. } | Request::Scan { .. } => Ok(()),
    }
}

/// Takes an operation that is finished out of the table, and tells its answer; the rest of it is
/// displaced.
pub(crate) fn give_up(
    alloc: Global,
    operations: &mut Operations,
    id: usize,
    displaced: &mut Displaced,
) -> Option<Answer>
    requires { (op : AnyOperation) → operation_at operations.old id ≡ Some op → is_unfinished op ≡ false → op.outcome ≢ None }
    ensures taken { IfSome result (λ answer. (op : AnyOperation) × (operation_at operations.old id ≡ Some op) × IsAnswerOf (view_of op) answer × (operations.new ≡ slice_set operations.old id None)) }
    ensures rest { OnSome result (DisplacesRestOf operations.old id displaced.old displaced.new) }
    ensures kept { IfNone result (displaced.new ≡ displaced.old) }
    ensures open { IfNone result ((operations.new ≡ operations.old) × ((op : AnyOperation) → operation_at operations.old id ≡ Some op → is_unfinished op ≡ true)) }
{
    if !is_ended(operations, id) {
        return None;
    }
    match operations.remove(id) {
        Some(mut operation) => {
            let answer = answer_of(alloc, operation.as_mut());
            displaced.rest = Some(operation);
            Some(answer)
        }
        None => unreachable!(),
    }
}

// Whether the operation is there, and no step of it is left.
fn is_ended(operations: &Operations, id: usize) -> bool
    ensures yes { IsTrue result → (op : AnyOperation) × (operation_at operations.now id ≡ Some op) × (is_unfinished op ≡ false) }
    ensures no { result ≡ false → (op : AnyOperation) → operation_at operations.now id ≡ Some op → is_unfinished op ≡ true }
{
    match operations.get(id) {
        Some(operation) => !operation.is_unfinished(),
        None => false,
    }
}

// The answer of a finished operation, which keeps all but its command and its outcome.
fn answer_of(alloc: Global, operation: &mut Operation) -> Answer
    requires done { is_unfinished operation.old ≡ false }
    requires told { operation.old.outcome ≢ None }
    ensures answers { IsAnswerOf (view_of operation.old) result }
    ensures rest { IsRestOf operation.old operation.new }
{
    let Some(Outcome { reply, at }) = operation.outcome.take() else {
        unreachable!()
    };
    let request = taken_request(alloc, &mut operation.task.request);
    Answer {
        command: request.into_command(),
        reply,
        first: operation.walk.first,
        at,
        last: operation.last,
    }
}

// Takes a request out of its place. What is left there asks for nothing and takes no memory.
fn taken_request(alloc: Global, request: &mut Request) -> Request
    ensures { result ≡ request.old }
{
    let none = Request::Get {
        key: Key::new(Vec::new(alloc)),
        columns: ColumnIndexes::new(Vec::new(alloc)),
    };
    mem::replace(request, none)
}

/// Takes an operation that has made no step out of the table; whether there was one.
pub(crate) fn give_back(operations: &mut Operations, id: usize) -> bool
    ensures gone { IsTrue result → (op : AnyOperation) × (operation_at operations.old id ≡ Some op) × (op.walk.first ≡ 0) × (operations.new ≡ slice_set operations.old id None) }
    ensures stays { result ≡ false → (operations.new ≡ operations.old) × ((op : AnyOperation) → operation_at operations.old id ≡ Some op → 0 < op.walk.first) }
{
    if !is_still(operations, id) {
        return false;
    }
    operations.remove(id);
    true
}

// Whether the operation is there, and has made no step.
fn is_still(operations: &Operations, id: usize) -> bool
    ensures yes { IsTrue result → (op : AnyOperation) × (operation_at operations.now id ≡ Some op) × (op.walk.first ≡ 0) }
    ensures no { result ≡ false → (op : AnyOperation) → operation_at operations.now id ≡ Some op → 0 < op.walk.first }
{
    match operations.get(id) {
        Some(operation) => operation.first() == 0,
        None => false,
    }
}
