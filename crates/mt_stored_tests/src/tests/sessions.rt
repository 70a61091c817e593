//! A store that is served, and its workers' sessions, without a socket.

ghost use Rattle.mt_book.specs.{Keeping.IsUnasked, Names.AreNames};

use super::*;
use mt_book::{BookLock, Clerk, Kept, open_clerk, open_pass};
use mt_options::TenantQuota;
use mt_service::{DeskCaller, SessionWorker, Turner, Turns};
use mt_session::{Caller, SessionBuffers};
use mt_stored::{Keeper, SharedLogs};

/// The tenants that are served.
const TENANTS: [TenantQuota; 1] = [TenantQuota {
    tenant: 7,
    quota: 200_000,
}];

/// A store that is served: its book, its logs, and the turns that they have.
#[derive(Drop)]
pub struct Served<'a, L: Ledger, J: Naming, R> {
    pub rt: &'a R,
    pub alloc: Global,
    pub book: BookLock<L, J>,
    pub logs: Vec<Mutex<StoreLog<FlakyDisk>>>,
    pub turns: Turns<FlakyDisk>,
    pub making: Mutex<()>,
}

/// What answers a worker's session.
pub type WorkerCaller<'a, L, J, R> = DeskCaller<
    'a,
    L,
    R,
    Clerk<'a, L, J>,
    SharedLogs<'a, L, J, R, FlakyDisk>,
    FlakyDisk,
>;

/// A worker that serves connections.
pub type StoreWorker<'a, L, J, R> = SessionWorker<'a, L, J, R, FlakyDisk>;

/// What makes a store's turns.
pub type StoreTurner<'a, L, J, R, G> = Turner<
    'a,
    L,
    R,
    Clerk<'a, L, J>,
    SharedLogs<'a, L, J, R, FlakyDisk>,
    G,
>;

/// A worker's session of a store, which makes the turns that its settled answers make due, and how many keys its client has put.
#[derive(Drop)]
pub struct Session<'a, L: Ledger, J: Naming, R: Wait + Clock> {
    pub caller: WorkerCaller<'a, L, J, R>,
    pub served: &'a Served<'a, L, J, R>,
    pub alloc: Global,
    pub worker: u8,
    pub count: u16,
}

impl<'a, L: Ledger, J: Naming, R: Wait + Clock + Log + Abort> Served<'a, L, J, R> {
    /// A store under these names. A turn is due after each so many settled answers.
    pub fn new(rt: &'a R, alloc: Global, names: Names, store: Store<FlakyDisk>, every: u32) -> Self
        requires names { AreNames L.name L.parts J.name J.parts J.book names store.source.state }
        requires unasked { IsUnasked store.source.state }
    {
        let (state, logs, slots) = store.into_parts();
        let logs = locked_logs(alloc, logs).expect(rt, "memory");
        let book = BookLock::new(Kept::<L, J>::new(alloc, names, state));
        let turns = Turns::new(Checks::new(every, 0, slots));
        Served {
            rt,
            alloc,
            book,
            logs,
            turns,
            making: Mutex::new(()),
        }
    }

    /// Its logs, with a clerk of their own.
    pub fn shared_logs(&self) -> SharedLogs<'_, L, J, R, FlakyDisk> {
        let clerk = open_clerk(self.rt, &self.book).expect(self.rt, "a clerk");
        SharedLogs::new(self.rt, clerk, &self.logs)
    }

    // What answers a session of a worker.
    fn caller(&self, worker: u8) -> WorkerCaller<'_, L, J, R> {
        let (rt, alloc, turns) = (self.rt, self.alloc, &self.turns);
        let (pass, clerk) = open_pass(rt, &self.book, worker).expect(rt, "a pass");
        let keeper = Keeper::new(alloc, self.shared_logs(), worker);
        let runner = Runner::new(self.book.baton(), worker);
        DeskCaller::new(rt, alloc, clerk, pass, keeper, turns, &TENANTS, runner)
    }

    /// A worker with buffers of its own.
    pub fn worker(&self, worker: u8) -> StoreWorker<'_, L, J, R> {
        SessionWorker {
            rt: self.rt,
            caller: self.caller(worker),
            buffers: SessionBuffers::new(self.alloc).expect(self.rt, "memory"),
        }
    }

    /// What makes its turns, the first one to the generation that its logs tell, and asks for digests.
    pub fn turner<G: Digests + Drop>(&self, digests: G) -> StoreTurner<'_, L, J, R, G> {
        let next = next_generation(self.rt, &self.shared_logs()).expect(self.rt, "logs");
        self.turner_to(next, digests)
    }

    /// What makes its turns, the first one to this generation.
    pub fn turner_to<G: Digests + Drop>(
        &self,
        next: u64,
        digests: G,
    ) -> StoreTurner<'_, L, J, R, G> {
        let (rt, alloc, logs) = (self.rt, self.alloc, self.shared_logs());
        let (pass, clerk) = open_pass(rt, &self.book, 0).expect(rt, "a pass");
        Turner::new(rt, alloc, clerk, pass, logs, &TENANTS, digests, next)
    }

    // Makes the turn that is due, if one is. No other session makes one meanwhile.
    fn make_turn(&self) {
        let _alone = self.making.lock(self.rt);
        self.turner(NoDigests {}).make_turn_if_due(&self.turns);
    }

    /// A session of a worker.
    pub fn session(&self, worker: u8) -> Session<'_, L, J, R> {
        let mut session = Session {
            caller: self.caller(worker),
            served: self,
            alloc: self.alloc,
            worker,
            count: 0,
        };
        assert!(self.rt; session.open());
        session
    }

    /// What is left of it: its state, its logs, and when turns are due.
    pub fn into_parts(self) -> (State, Vec<StoreLog<FlakyDisk>>, Checks<FlakyDisk>) {
        let logs = unlocked_logs(self.alloc, self.logs).expect(self.rt, "memory");
        let state = self.book.into_inner().into_book().into_state();
        (state, logs, self.turns.into_checks())
    }

    /// Its end: its logs and slots are joined with its state again, and settled for the last time.
    pub fn joined(self) -> Store<FlakyDisk> {
        let (rt, alloc) = (self.rt, self.alloc);
        let (state, logs, checks) = self.into_parts();
        let mut store = Store::joined(state, logs, checks.into_slots()).expect(rt, "a store");
        assert!(rt; store.settle_last(rt, alloc).is_ok());
        store
    }

    /// The least step up to which one of its logs goes, if all are open.
    pub fn least_mark(&self) -> Option<u64> {
        let mut least = u64::MAX;
        for log in &self.logs {
            let mark = log.lock(self.rt).mark();
            least = least.min(mark?);
        }
        Some(least)
    }
}

/// A put of a column of one byte.
pub fn put_of(alloc: Global, key: &[u8], value: u8) -> Result<Command, AllocError> {
    let key = Key::new(Vec::from_slice(alloc, key)?);
    let mut columns = Vec::new(alloc);
    columns.push((0, Column::from_slice(alloc, &[value])?))?;
    let change = NamedColumns::new(columns);
    Ok(Command::Put { key, change })
}

/// A get of all columns.
pub fn get_of(alloc: Global, key: &[u8]) -> Result<Command, AllocError> {
    let key = Key::new(Vec::from_slice(alloc, key)?);
    let columns = ColumnIndexes::new(Vec::new(alloc));
    Ok(Command::Get { key, columns })
}

impl<L: Ledger, J: Naming, R: Wait + Clock + Log + Abort> Session<'_, L, J, R> {
    // What a command is answered, if there is memory for it.
    fn asked(&mut self, command: Result<Command, AllocError>) -> Option<Reply> {
        match command {
            Ok(command) => self.caller.call(self.alloc, command).ok(),
            Err(_) => None,
        }
    }

    /// Puts so many keys; whether each was told to be new. Then the baton is given back, as it is when replies are written.
    pub fn puts(&mut self, count: u16) -> bool {
        let all_new = self.puts_on(count);
        self.caller.runner().give();
        all_new
    }

    /// The same, in the midst of a batch.
    pub fn puts_on(&mut self, count: u16) -> bool {
        for _ in 0..count {
            let put = put_of(self.alloc, &key_of(self.worker, self.count), 1);
            if !matches!(self.asked(put), Some(Reply::New)) {
                return false;
            }
            self.count = self.count.saturating_add(1);
        }
        true
    }

    /// Gets its first key so many times; whether it was found each time.
    pub fn gets(&mut self, count: u16) -> bool {
        for _ in 0..count {
            let get = get_of(self.alloc, &key_of(self.worker, 0));
            if !matches!(self.asked(get), Some(Reply::Found(_))) {
                return false;
            }
        }
        self.caller.runner().give();
        true
    }

    /// Whether an act of the client comes out as it should: it `puts`, `gets` or `settles`, so many times or once. Or it settles
    /// once, and is told that a device `fails`, or that memory is `refused`.
    pub fn does(&mut self, act: &str) -> bool {
        let (word, count) = act.split_once(' ').unwrap_or((act, "1"));
        let count = count.parse().unwrap_or(0);
        match word {
            "puts" => self.puts(count),
            "gets" => self.gets(count),
            "settles" => self.settles(count),
            "fails" => self.settle() == Err(Refusal::Device),
            "refused" => self.settle() == Err(Refusal::Memory),
            _ => false,
        }
    }

    // Whether the client settles so many times, and is told a number each time.
    fn settles(&mut self, count: u16) -> bool {
        for _ in 0..count {
            if self.settle().is_err() {
                return false;
            }
        }
        true
    }

    // Opens tenant 7.
    fn open(&mut self) -> bool {
        self.caller.open(7).is_ok()
    }

    /// Goes on as if so many keys had been put.
    pub fn skip(&mut self, count: u16) {
        self.count = count;
    }

    /// Settles, and leaves a turn that is due then to others.
    pub fn settle_alone(&mut self) -> Result<u64, Refusal> {
        self.caller.settle()
    }

    /// Settles. Then the turn is made that is due.
    pub fn settle(&mut self) -> Result<u64, Refusal> {
        let told = self.caller.settle();
        self.served.make_turn();
        told
    }
}
