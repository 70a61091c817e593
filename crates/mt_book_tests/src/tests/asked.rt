//! What is asked in these tests, and the store that is asked.

ghost use Rattle.std.specs.Prelude.{◌≤◌, IfOk};
ghost use Rattle.mt_state.specs.Begins.{HaveNoPairs};
ghost use Rattle.mt_book.specs.Keeping.{IsUnasked};

use super::*;
use mt_rows::{Column, ColumnIndexes, NamedColumns, Tenants};

// Tenants 7, 8 and 9, which may have 100, 2 and 3 pairs, in a store with so many logs.
pub(crate) fn new_store(rt: &impl Abort, alloc: Global, logs: u8) -> Result<State, AllocError>
    requires { logs ≤ 64 }
    ensures { IfOk result IsUnasked }
{
    let tenants = one_more(rt, no_tenants(alloc), 7, 100);
    let tenants = one_more(rt, tenants, 8, 2);
    State::new(alloc, logs, one_more(rt, tenants, 9, 3))
}

fn no_tenants(alloc: Global) -> Tenants
    ensures { HaveNoPairs result }
{
    Tenants::new(alloc)
}

fn one_more(rt: &impl Abort, tenants: Tenants, tenant: u32, quota: u32) -> Tenants
    requires { HaveNoPairs tenants }
    ensures { HaveNoPairs result }
{
    let mut tenants = tenants;
    assert!(rt; tenants.add(tenant, quota).is_ok());
    tenants
}

// What is asked of a key. A `Put` puts this byte in column 0, and a `PutIf` does if the row has this stamp. A `Scan` asks
// for so many pairs from the key on.
#[derive(Clone, Copy, Debug)]
pub(crate) enum Ask {
    Put(u8),
    PutIf(u64, u8),
    Get,
    Remove,
    Scan(u8),
}

pub(crate) fn command_of(alloc: Global, key: u8, ask: Ask) -> Result<Command, AllocError> {
    let key = Key::new(Vec::from_slice(alloc, &[key])?);
    let columns = ColumnIndexes::new(Vec::new(alloc));
    match ask {
        Ask::Put(value) => {
            let change = change_to(alloc, value)?;
            Ok(Command::Put { key, change })
        }
        Ask::PutIf(stamp, value) => {
            let change = change_to(alloc, value)?;
            Ok(Command::PutIf { key, stamp, change })
        }
        Ask::Get => Ok(Command::Get { key, columns }),
        Ask::Remove => Ok(Command::Remove { key }),
        Ask::Scan(count) => Ok(Command::Scan {
            from: key,
            after: false,
            count,
            columns,
        }),
    }
}

fn change_to(alloc: Global, value: u8) -> Result<NamedColumns, AllocError> {
    let mut columns = Vec::new(alloc);
    columns.push((0, Column::from_slice(alloc, &[value])?))?;
    Ok(NamedColumns::new(columns))
}
