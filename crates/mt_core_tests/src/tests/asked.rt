//! What tests ask of a state.

ghost use Rattle.mt_state.specs.Begins.{HaveNoPairs};

use super::*;
use mt_core::Ticket;

/// Tenant 7, which may have so many pairs.
pub fn one_tenant(alloc: Global, quota: u32) -> Tenants
    ensures { HaveNoPairs result }
{
    let mut tenants = Tenants::new(alloc);
    let _ = tenants.add(7, quota);
    tenants
}

/// A new store of such a tenant, with so many logs.
pub fn new_store(rt: &impl Abort, alloc: Global, logs: u8, quota: u32) -> State {
    assert!(rt; logs <= 64);
    State::new(alloc, logs, one_tenant(alloc, quota)).expect(rt, "memory")
}

/// The answer to a command of a worker that nobody is in the way of.
pub fn run(
    rt: &impl Abort,
    state: &mut State,
    worker: u8,
    tenant: u32,
    command: Command,
) -> Answer {
    assert!(rt; worker < state.logs().max(1));
    let ticket = state.begin(worker, tenant, command);
    end(rt, state, ticket.expect(rt, "the command is taken"))
}

/// The answer of an operation that nobody is in the way of.
pub fn end(rt: &impl Abort, state: &mut State, ticket: Ticket) -> Answer {
    assert!(rt; state.run_alone(&ticket) == Move::Done);
    taken(rt, state, ticket)
}

/// The answer of an operation that is finished.
pub fn taken(rt: &impl Abort, state: &mut State, ticket: Ticket) -> Answer {
    let answer = state.take(ticket).ok();
    answer.expect(rt, "the operation is finished")
}

/// A put of column 0.
pub fn put(rt: &impl Abort, alloc: Global, key: &str, value: &str) -> Command {
    let change = change_of(rt, alloc, value);
    let key = key_of(rt, alloc, key);
    Command::Put { key, change }
}

// Column 0 with this value.
fn change_of(rt: &impl Abort, alloc: Global, value: &str) -> NamedColumns {
    let column = Column::from_slice(alloc, value.as_bytes()).expect(rt, "memory");
    let mut columns = Vec::new(alloc);
    assert!(rt; columns.push((0, column)).is_ok());
    NamedColumns::new(columns)
}

/// A get of these columns, of all where none is named.
pub fn get(rt: &impl Abort, alloc: Global, key: &str, columns: &[u8]) -> Command {
    let key = key_of(rt, alloc, key);
    let columns = Vec::from_slice(alloc, columns).expect(rt, "memory");
    let columns = ColumnIndexes::new(columns);
    Command::Get { key, columns }
}

/// A remove.
pub fn remove(rt: &impl Abort, alloc: Global, key: &str) -> Command {
    let key = key_of(rt, alloc, key);
    Command::Remove { key }
}

fn key_of(rt: &impl Abort, alloc: Global, key: &str) -> Key {
    Key::new(Vec::from_slice(alloc, key.as_bytes()).expect(rt, "memory"))
}

/// The next batch of a worker's log.
pub fn drained(rt: &impl Abort, state: &mut State, worker: u8) -> Batch {
    assert!(rt; worker < state.logs());
    state.drain(worker).expect(rt, "memory").into_batch()
}
