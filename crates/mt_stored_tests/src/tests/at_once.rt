//! Sessions in threads, which put and settle at once. After each settled answer one of them makes a turn of all logs. In the
//! midst of a turn others settle. And how a worker sets up its connection.
//! When a worker gives the baton of its book back, and that one who keeps it stops nobody.

ghost use Rattle.mt_book.specs.{Keeping.IsUnasked, Names.AreNames};

use super::sessions::StoreWorker;
use super::*;
use mt_slots::FileDigest;
use std::io::{self, Read, Write};
use std::sync::atomic::{AtomicU64, Ordering};

// So often each session puts keys, and settles.
const TURNS: u16 = 20;

// So many keys it puts each time: more than 1,024 in all.
const PUTS: u16 = 60;

impl<L: Ledger, J: Naming, R: Wait + Clock + Log + Abort> Served<'_, L, J, R> {
    // The turns of a worker's session; how many keys it has put. A settled number is later than the last one, and each log
    // goes up to it.
    fn put_and_settle(&self, worker: u8) -> u16 {
        let mut session = self.session(worker);
        let mut last = 0;
        for turn in 0..TURNS {
            assert!(self.rt; session.puts(PUTS), "{turn}");
            let settled = session.settle().expect(self.rt, "a number");
            assert!(self.rt; last < settled, "{turn}");
            assert!(self.rt;
                self.least_mark().is_some_and(|least| settled <= least),
                "{turn}"
            );
            last = settled;
        }
        session.count
    }

    // How a worker leaves a connection: replies are sent at once, a client that is silent is never given up, and one that takes
    // none of its replies is after half a minute.
    fn expect_set_up(&self, stream: &TcpStream) {
        let mut worker = self.worker(0);
        assert!(self.rt; worker.serve(self.alloc, stream));
        assert_eq!(self.rt; stream.nodelay().ok(), Some(true));
        assert_eq!(self.rt; stream.read_timeout().ok(), Some(None));
        let write_timeout = stream.write_timeout().expect(self.rt, "a socket");
        assert_eq!(self.rt; write_timeout, Some(Duration::from_secs(30)));
    }
}

// How far a turn is in whose midst a session settles: it waits before its checkpoint, and all was settled meanwhile.
const WAITS: u64 = 1;

const SETTLED: u64 = 2;

// Whether a turn comes so far within ten seconds.
fn comes_to<R: Clock>(rt: &R, stage: &AtomicU64, wanted: u64) -> bool {
    for _ in 0..10_000u32 {
        if stage.load(Ordering::SeqCst) == wanted {
            return true;
        }
        thread::sleep(rt, Duration::from_millis(1));
    }
    false
}

// No digests. Before its checkpoint a turn waits till all is settled once more.
#[derive(Drop)]
struct Waiting<'a, R: Clock> {
    rt: &'a R,
    stage: &'a AtomicU64,
}

impl<R: Clock> Digests for Waiting<'_, R> {
    ghost does = { λ old call new. Unit {0} };

    fn clear_logs(&mut self, _logs: u8, _generation: u64) -> Result<(), Refusal> {
        Ok(())
    }

    fn keep_logs(&mut self, _logs: u8, _generation: u64) -> Result<(), Refusal> {
        Ok(())
    }

    fn clear_slot(&mut self, _slot: Slot) -> Result<(), Refusal> {
        self.stage.store(WAITS, Ordering::SeqCst);
        if !comes_to(self.rt, self.stage, SETTLED) {
            self.stage.store(0, Ordering::SeqCst);
        }
        Ok(())
    }

    fn keep_slot(&mut self, _slot: Slot, _digest: FileDigest) -> Result<(), Refusal> {
        Ok(())
    }
}

// A session settles.
fn settle_once<L: Ledger, J: Naming, R: Wait + Clock + Log + Abort>(served: &Served<'_, L, J, R>) {
    let mut session = served.session(0);
    assert!(served.rt; session.settle().is_ok());
}

impl<L: Ledger + Send + Sync, J: Naming + Send + Sync, R> Served<'_, L, J, R>
where
    R: Threads + Wait + Clock + Log + Abort + Sync,
{
    // A session of each of four workers, in a thread of its own; how many keys each has put.
    fn four_at_once(&self) -> Vec<u16> {
        let workers = [0, 1, 2, 3].to_vec(self.alloc).expect(self.rt, "memory");
        let counts = thread::map_vec(self.rt, workers, &|worker: u8| self.put_and_settle(worker));
        counts.expect(self.rt, "memory")
    }

    // A session settles while a turn waits before its checkpoint.
    fn settle_in_a_turn(&self, stage: &AtomicU64) {
        let rt = self.rt;
        let mut turner = self.turner(Waiting { rt, stage });
        self.turns.count_settled(rt, 0);
        thread::join(
            rt,
            || turner.make_turn_if_due(&self.turns),
            || {
                assert!(rt; comes_to(rt, stage, WAITS));
                settle_once(self);
                assert!(rt; stage.swap(SETTLED, Ordering::SeqCst) == WAITS);
            },
        );
    }
}

/// What is done with a new store.
#[derive(Clone, Copy)]
pub enum Case {
    /// Sessions put and settle at once.
    AtOnce,
    /// It is seen who has the baton.
    Batons,
}

/// This is done with it.
pub fn run<L: Ledger + Send + Sync, J: Naming + Send + Sync, R>(
    rt: &R,
    alloc: Global,
    names: Names,
    store: Store<FlakyDisk>,
    case: Case,
)
where
    R: Net<Listener = TcpListener, Stream = TcpStream>,
    R: Threads + Wait + Clock + Log + Abort + Sync,
    requires names { AreNames L.name L.parts J.name J.parts J.book names store.source.state }
    requires unasked { IsUnasked store.source.state }
{
    let served = Served::<L, J, R>::new(rt, alloc, names, store, 1);
    if let Case::Batons = case {
        return served.expect_baton_given();
    }
    served.settle_in_a_turn(&AtomicU64::new(0));
    let counts = served.four_at_once();
    let (client, stream) = connected(rt, b"", b"").expect(rt, "a socket");
    drop(client);
    served.expect_set_up(&stream);
    let (_, logs, slots) = served.joined().into_parts();
    let images = logs_left(rt, alloc, &logs, Left::All);
    expect_recovered(rt, alloc, &images, slots.expect(rt, "the slots"), &counts);
}

#[test]
fn settles_and_checkpoints_of_several_sessions_at_once_lose_nothing(rt: HostRuntime) {
    let store = new_store(&rt, rt.alloc(), &[SOUND; 4], None, bare_slots(rt.alloc()));
    let names = Names::new(store.state());
    run::<Brand, Brand, _>(&rt, rt.alloc(), names, store, Case::AtOnce);
}

// Tenant 7 is opened, and `v` is put under `k`.
const BATCH: &[u8] =
    b"\x00\x00\x00\x05\x01\x00\x00\x00\x07\x00\x00\x00\x09\x03\x00\x01k\x01\x00\x00\x01v";

// Whether nobody has the baton: another one has it at once, and gives it back.
fn is_free<R: Wait>(rt: &R, other: Runner<'_>) -> bool {
    let _ = other.take(rt, 0);
    let had = other.has();
    other.give();
    had
}

impl<L: Ledger, J: Naming, R: Wait + Clock + Log + Abort> Session<'_, L, J, R> {
    // While another one keeps the baton, it is answered. It keeps the baton itself in the midst of a batch. It gives it back
    // after the batch, before a Settle, and before the turn of its log at the 1,024th answer.
    fn expect_baton_given(&mut self, rt: &R, other: Runner<'_>) {
        let _ = other.take(rt, 0);
        assert!(rt; self.puts(2));
        assert!(rt; other.has());
        other.give();
        assert!(rt; is_free(rt, other));
        assert!(rt; self.puts_on(2));
        assert!(rt; !is_free(rt, other));
        assert!(rt; self.settle_alone().is_ok());
        assert!(rt; is_free(rt, other));
        assert!(rt; self.puts_on(1_019));
        assert!(rt; self.caller.runner().has());
        assert!(rt; self.puts_on(1));
        assert!(rt; !self.caller.runner().has());
    }
}

/// A client that has sent this, and the worker's end of its connection.
pub fn connected<R: Net<Listener = TcpListener, Stream = TcpStream>>(
    rt: &R,
    sent: &[u8],
    more: &[u8],
) -> io::Result<(TcpStream, TcpStream)> {
    let listener = TcpListener::bind(rt, ("127.0.0.1", 0u16))?;
    let client = TcpStream::connect(rt, listener.local_addr()?)?;
    client.set_read_timeout(Some(Duration::from_secs(60)))?;
    let mut writer = &client;
    writer.write_all(sent)?;
    writer.write_all(more)?;
    let (stream, _) = listener.accept()?;
    Ok((client, stream))
}

// Whether a client has its two replies.
fn has_replies(client: &TcpStream) -> bool {
    let mut reader = client;
    reader.read_exact(&mut [0u8; 10]).is_ok()
}

impl<L: Ledger + Send + Sync, J: Naming + Send + Sync, R> Served<'_, L, J, R>
where
    R: Net<Listener = TcpListener, Stream = TcpStream>,
    R: Threads + Wait + Clock + Log + Abort + Sync,
{
    // A worker waits for a client that has its replies. It has given the baton back.
    fn expect_free_meanwhile(&self, worker: &mut StoreWorker<'_, L, J, R>, other: Runner<'_>) {
        let rt = self.rt;
        let (client, stream) = connected(rt, BATCH, b"").expect(rt, "a socket");
        let (served, was_free) = thread::join(
            rt,
            || worker.serve(self.alloc, &stream),
            move || has_replies(&client) && is_free(rt, other),
        );
        assert_eq!(rt; (served, was_free), (true, true));
    }

    // A worker serves a client that has left in mid-batch, after this. It gives the baton back.
    fn expect_left(&self, worker: &mut StoreWorker<'_, L, J, R>, other: Runner<'_>, tail: &[u8]) {
        let (client, stream) = connected(self.rt, BATCH, tail).expect(self.rt, "a socket");
        drop(client);
        assert!(self.rt; !worker.serve(self.alloc, &stream));
        assert!(self.rt; is_free(self.rt, other));
    }

    /// A session and a worker give the baton back.
    pub fn expect_baton_given(&self) {
        let other = Runner::new(self.book.baton(), 200);
        let mut session = self.session(0);
        session.expect_baton_given(self.rt, other);
        let mut worker = self.worker(1);
        self.expect_free_meanwhile(&mut worker, other);
        self.expect_left(&mut worker, other, b"\x00");
        self.expect_left(&mut worker, other, b"\x00\x00\x00\x00");
    }
}

#[test]
fn a_worker_gives_the_baton_back_and_waits_for_none_that_is_kept(rt: HostRuntime) {
    let store = new_store(&rt, rt.alloc(), &[SOUND; 2], None, bare_slots(rt.alloc()));
    let names = Names::new(store.state());
    run::<Brand, Brand, _>(&rt, rt.alloc(), names, store, Case::Batons);
}
