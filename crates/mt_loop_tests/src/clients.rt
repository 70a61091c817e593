//! Clients in memory, the streams of their connections, and a caller whose replies tell which tenant asked, and how often.

ghost use Rattle.std.specs.Prelude.{◌≤◌, IfOk, None};

use mt_caller::{Caller, CallerFault};
use mt_loop::{Halves, Shared, Sharing};
use mt_rows::{Column, Command, Refusal, Reply, Row, StampedRow};
use std::alloc::{AllocError, Global};
use std::cell::Cell;
use std::io::{self, ErrorKind, Read, Write};

/// More than any client asks or is told, and more calls than a stream has.
pub const ALL: usize = 1_000_000;

/// What a client asks and is to be told, how much it takes by now, has given and has taken: `ALL` after a wrong byte.
#[derive(Drop)]
pub struct Client {
    pub asked: Vec<u8>,
    pub told: Vec<u8>,
    pub takes: Cell<usize>,
    pub given: Cell<usize>,
    pub taken: Cell<usize>,
}

/// A client that opens this tenant, removes a key so many times, and asks for so many Settles.
pub fn client_of(
    alloc: Global,
    tenant: u32,
    removes: u32,
    settles: u64,
) -> Result<Client, AllocError> {
    let tenant = tenant.to_be_bytes();
    let mut asked = Vec::from_slice(alloc, &[0, 0, 0, 5, 1])?;
    asked.extend_from_slice(&tenant)?;
    let mut told = Vec::from_slice(alloc, &[0, 0, 0, 1, 0])?;
    for remove in 1..=removes {
        asked.extend_from_slice(&[0, 0, 0, 4, 4, 0, 1, 0x6b])?;
        told.extend_from_slice(&[0, 0, 0, 9, 11])?;
        told.extend_from_slice(&tenant)?;
        told.extend_from_slice(&remove.to_be_bytes())?;
    }
    for settle in 1..=settles {
        asked.extend_from_slice(&[0, 0, 0, 1, 6])?;
        told.extend_from_slice(&[0, 0, 0, 9, 7])?;
        told.extend_from_slice(&settle.to_be_bytes())?;
    }
    Ok(Client {
        asked,
        told,
        takes: Cell::new(ALL),
        given: Cell::new(0),
        taken: Cell::new(0),
    })
}

impl Client {
    /// The streams of its connection, with such reads and such writes.
    pub fn streams(&self, [reads, writes]: [Calls; 2]) -> Halves<End<'_>, End<'_>> {
        let (reader, writer) = (End(self, reads), End(self, writes));
        Halves { reader, writer }
    }
}

/// Clients of the tenants from 0 on, so many.
pub fn clients_of(alloc: Global, count: u32, removes: u32) -> Result<Vec<Client>, AllocError> {
    let mut clients = Vec::new(alloc);
    for tenant in 0..count {
        clients.push(client_of(alloc, tenant, removes, 0)?)?;
    }
    Ok(clients)
}

/// The calls of a stream: each moves so many bytes at most, and the one after so many good ones fails so.
#[derive(Clone, Copy)]
pub struct Calls(pub usize, pub usize, pub ErrorKind);

impl Calls {
    /// Calls of which none fails.
    pub fn good(size: usize) -> Self {
        Calls(size, ALL, ErrorKind::Other)
    }

    // How many bytes a call moves, of so many.
    fn make(&mut self, len: usize) -> io::Result<usize>
        ensures { IfOk result (λ count. count ≤ len) }
    {
        let Calls(size, good, fault) = *self;
        self.1 = good.checked_sub(1).unwrap_or(ALL);
        if good == 0 {
            return Err(io::Error::from(fault));
        }
        Ok(size.max(1).min(len))
    }
}

/// One stream of a client's connection.
#[derive(Drop)]
pub struct End<'a>(&'a Client, Calls);

impl Read for End<'_> {
    ghost remaining = { λ _. None };

    fn read(&mut self, room: &mut [u8]) -> io::Result<usize> {
        let End(client, calls) = self;
        let given = client.given.get();
        let rest = &client.asked[given.min(client.asked.len())..];
        let count = calls.make(room.len())?.min(rest.len());
        room[..count].copy_from_slice(&rest[..count]);
        client.given.set(given.saturating_add(count));
        Ok(count)
    }
}

impl Write for End<'_> {
    ghost contents = { λ _. None };

    fn write(&mut self, text: &[u8]) -> io::Result<usize> {
        let End(client, calls) = self;
        let taken = client.taken.get();
        let through = client.takes.get().saturating_sub(taken);
        if through == 0 {
            return Err(io::Error::from(ErrorKind::WouldBlock));
        }
        let count = calls.make(text.len())?.min(through);
        let rest = &client.told[taken.min(client.told.len())..];
        let is_right = rest.starts_with(&text[..count]);
        client.taken.set(if is_right {
            taken.saturating_add(count)
        } else {
            ALL
        });
        Ok(count)
    }

    fn flush(&mut self) -> io::Result<()> {
        Ok(())
    }
}

/// A remove is told the tenant in the high half of a stamp, and in the low one how many the tenant has asked for. A get is
/// told a row of 1,024 bytes, and a Settle how many there were. All requests are counted.
#[derive(Drop)]
pub struct Counter {
    removes: Vec<u32>,
    opened: Option<u32>,
    pub settles: u64,
    pub requests: usize,
}

/// A caller for so many tenants.
pub fn counter_of(alloc: Global, tenants: usize) -> Result<Shared<Counter>, AllocError> {
    let caller = Counter {
        removes: Vec::from_elem(alloc, 0, tenants)?,
        opened: None,
        settles: 0,
        requests: 0,
    };
    Ok(Shared { caller })
}

fn long_row(alloc: Global) -> Result<Row, AllocError> {
    let mut columns = Vec::new(alloc);
    columns.push(Column::from_slice(alloc, &[0x76; 1_024])?)?;
    if Row::fits(&columns) {
        return Row::new(alloc, columns);
    }
    Err(AllocError)
}

impl Counter {
    fn remove(&mut self) -> Result<Reply, CallerFault> {
        let tenant = self.opened.unwrap_or(u32::MAX);
        let Some(removes) = self.removes.get_mut(tenant as usize) else {
            return Err(CallerFault::Stuck);
        };
        *removes = removes.saturating_add(1);
        Ok(Reply::Stale(u64::from(tenant) << 32 | u64::from(*removes)))
    }
}

impl Caller for Counter {
    ghost exchanges = { λ _ _ _. Unit {0} };

    fn open(&mut self, tenant: u32) -> Result<(), Refusal> {
        self.requests = self.requests.saturating_add(1);
        self.opened = Some(tenant);
        Ok(())
    }

    fn call(&mut self, alloc: Global, command: Command) -> Result<Reply, CallerFault> {
        self.requests = self.requests.saturating_add(1);
        if !matches!(command, Command::Get { .. }) {
            return self.remove();
        }
        match long_row(alloc) {
            Ok(row) => Ok(Reply::Found(StampedRow { stamp: 0, row })),
            Err(_) => Err(CallerFault::Stuck),
        }
    }

    fn settle(&mut self) -> Result<u64, Refusal> {
        self.requests = self.requests.saturating_add(1);
        self.settles = self.settles.saturating_add(1);
        Ok(self.settles)
    }
}

impl Sharing for Counter {
    ghost opened = { λ c. c.opened };

    ghost resumes = { λ _ _. Unit {0} };

    fn opened(&self) -> Option<u32> {
        self.opened
    }

    fn resume(&mut self, tenant: Option<u32>) {
        self.opened = tenant;
    }
}
