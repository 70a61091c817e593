//! Servers whose stores lie on disks in memory, with a client each.

ghost use Rattle.std.specs.Prelude.{◌<◌, ◌≤◌, vec_len};
ghost use Rattle.mt_state.specs.Begins.{HaveNoPairs};
ghost use Rattle.mt_book.specs.Keeping.{IsUnasked};

use super::clients::{
    GET_AT_10, GET_SPENT, PUT_AT_5, PUT_AT_10, PUT_SPENT, SETTLE_FAILS, SETTLE_LAST,
};
use super::*;
use mt_book::Names;
use mt_disk::Disk;
use mt_log_files::WorkerFiles;
use mt_recover::LogSlot;
use mt_rows::Tenants;
use mt_service::{Ending, run_server};
use mt_slots::StoreSlots;
use mt_stored::Digests;
use std::marker::{Brand, Send};

// Tenant 7, which may have 100 pairs, and has none.
fn tenant_7(rt: &impl Abort, alloc: Global) -> Tenants
    ensures { HaveNoPairs result }
{
    let mut tenants = Tenants::new(alloc);
    assert!(rt; tenants.add(7, 100).is_ok());
    tenants
}

/// A store of tenant 7, which may have 100 pairs, that keeps nothing.
pub fn store_without_logs(rt: &impl Abort, alloc: Global) -> Store<MemDisk>
    ensures { IsUnasked result.source.state }
{
    Store::without_logs(alloc, tenant_7(rt, alloc)).expect(rt, "memory")
}

// A disk without a byte.
fn bare_disk(alloc: Global) -> MemDisk {
    MemDisk::new(alloc, Vec::new(alloc), None)
}

// Slots on disks without a byte.
fn bare_slots(alloc: Global) -> StoreSlots<MemDisk> {
    StoreSlots::found(bare_disk(alloc), bare_disk(alloc))
}

// The files of a worker's log: a plain one on this disk, and two without a byte.
fn files_on(alloc: Global, plain: MemDisk) -> WorkerFiles<MemDisk> {
    WorkerFiles::closed(plain, bare_disk(alloc), bare_disk(alloc))
}

/// A new store of tenant 7, which may have 100 pairs, over the files of so many workers. Some calls of each plain file fail.
pub fn new_store(rt: &impl Abort, alloc: Global, workers: u8, fails: &[u64]) -> Store<MemDisk>
    ensures { IsUnasked result.source.state }
{
    let tenants = tenant_7(rt, alloc);
    let mut files = Vec::new(alloc);
    for _ in 0..workers {
        let fails = fails.to_vec(alloc).expect(rt, "memory");
        let plain = MemDisk::new(alloc, fails, None);
        assert!(rt; files.push(files_on(alloc, plain)).is_ok());
    }
    assert!(rt; !files.is_empty() && files.len() <= 64);
    match Store::create(alloc, files, bare_slots(alloc), tenants) {
        Ok(store) => store,
        Err(_) => panic!(rt; "no store is made"),
    }
}

// The store that a worker's files hold: its plain file has this image, and the others are empty.
fn recovered(rt: &impl Abort, alloc: Global, plain: &[u8]) -> Store<MemDisk>
    ensures { IsUnasked result.source.state }
{
    let tenants = tenant_7(rt, alloc);
    let plain = disk_with(alloc, plain).expect(rt, "memory");
    let mut files = Vec::new(alloc);
    assert!(rt; files.push(files_on(alloc, plain)).is_ok());
    match Store::recover(alloc, files, bare_slots(alloc), tenants) {
        Ok(store) => store,
        Err(_) => panic!(rt; "no store is recovered"),
    }
}

/// A disk with this image.
pub fn disk_with(alloc: Global, image: &[u8]) -> Result<MemDisk, AllocError> {
    MemDisk::with_image(alloc, image.to_vec(alloc)?, Vec::new(alloc), None)
}

// What the last log of a store's only worker has in its file.
fn image_of(rt: &impl Abort, alloc: Global, store: Store<MemDisk>) -> Vec<u8> {
    let (_, logs, _) = store.into_parts();
    assert_eq!(rt; logs.len(), 1);
    image_in(rt, alloc, &logs[0])
}

/// What a last log has in its file, if that is open.
pub fn image_in(rt: &impl Abort, alloc: Global, log: &StoreLog<MemDisk>) -> Vec<u8> {
    match log.slot() {
        LogSlot::Open(log) => log.disk().image().to_vec(alloc).expect(rt, "memory"),
        LogSlot::Failed(_) | LogSlot::Closed(_) | LogSlot::Away => panic!(rt; "the log is closed"),
    }
}

// Log 0 of 1: one batch from 0 to 6, with the put of tenant 7, key `k`, column `v`, by step 5.
pub const LOG: &[u8] =
    b"MTLOG\x02\x00\x01\x01\x00\x00\x00\x29\x02\x00\x00\x00\x00\x00\x00\x00\x00\x00\x00\x00\x00\x00\x00\x00\x06\x00\x00\x00\x01\x00\x00\x00\x00\x00\x00\x00\x05\x00\x00\x00\x07\x00\x01k\x01\x01\x00\x01v\x00";

// The batch with which a recovery ends: from 6 to 6, all up to 6 kept. It opens the gate that was closed.
pub const RESUME: &[u8] =
    b"\x01\x00\x00\x00\x19\x01\x00\x00\x00\x00\x00\x00\x00\x06\x00\x00\x00\x00\x00\x00\x00\x06\x00\x00\x00\x00\x00\x00\x00\x06\x00";

// A log of 1 without a change, which goes up to the step before the last that there is.
const LAST_LOG: &[u8] =
    b"MTLOG\x01\x00\x01\x01\x00\x00\x00\x19\x01\x00\x00\x00\x00\x00\x00\x00\x00\x07\xff\xff\xff\xff\xff\xff\xff\x07\xff\xff\xff\xff\xff\xff\xff\x00";

// The log of generation 1 of the only worker, without batches, which begins after step 6.
pub const NEXT_LOG: &[u8] =
    b"\x01MTLOG\x03\x00\x01\x00\x00\x00\x00\x00\x00\x00\x01\x00\x00\x00\x00\x00\x00\x00\x06\x00";

/// One session of one worker.
pub const ONE_SESSION: &str = "mt_server --port 0 --workers 1 --sessions 1 7:100";

/// What a server wrote, and how it ended.
pub type Served<D> = (Vec<u8>, Result<Ending<D>, ServerFault>);

// Serves to the end, with the options of a line.
fn serve_all<
    R: Host + Net<Listener = TcpListener, Stream = TcpStream>,
    D: Disk + Drop + Send,
    G: Digests + Drop + Send,
>(
    rt: &R,
    alloc: Global,
    listener: TcpListener,
    line: &str,
    store: Store<D>,
    digests: G,
) -> Served<D>
    requires { IsUnasked store.source.state }
{
    let options = options_of(rt, alloc, line);
    let names = Names::new(store.state());
    let mut out = Vec::new(alloc);
    let end = run_server::<Brand, Brand, R, Vec<u8>, D, G>(
        rt, alloc, names, listener, &options, store, digests, &mut out,
    );
    (out, end)
}

/// A server over a store with the options of a line, while its clients play, who are told what they should be.
pub fn serve_beside<
    R: Host + Net<Listener = TcpListener, Stream = TcpStream>,
    D: Disk + Drop + Send,
    G: Digests + Drop + Send,
    F: FnOnce() -> io::Result<bool>,
>(
    rt: &R,
    alloc: Global,
    listener: TcpListener,
    line: &str,
    store: Store<D>,
    digests: G,
    play: F,
) -> Served<D>
    requires unasked { IsUnasked store.source.state }
    requires plays { F.pre play }
{
    let (served, played) = thread::join(
        rt,
        move ||
            requires unasked { IsUnasked store.source.state }
        { serve_all(rt, alloc, listener, line, store, digests) },
        play,
    );
    assert!(rt; played.expect(rt, "a socket"), "{line}");
    served
}

/// A server over a store, and its only client, who is told so; the store that is left.
pub fn serve_told<R: Host + Net<Listener = TcpListener, Stream = TcpStream>, D: Disk + Drop + Send>(
    rt: &R,
    alloc: Global,
    store: Store<D>,
    line: &str,
    told: &[Told],
) -> Store<D>
    requires { IsUnasked store.source.state }
{
    let listener = TcpListener::bind(rt, ("127.0.0.1", 0u16)).expect(rt, "a socket");
    let port = listener.local_addr().expect(rt, "a socket").port();
    let client = connect(rt, port).expect(rt, "a socket");
    let (_, end) = serve_beside(rt, alloc, listener, line, store, NoDigests {}, move || {
        are_told(&client, told)
    });
    end.expect(rt, "the server ends well").store
}

// What a client is told, and which call of the log's disk fails.
const KEPT: [(&[Told], u64); 6] = [
    (&[OPEN, PUT, SETTLE_6], 0),
    (&[OPEN, PUT], 0),
    (SETTLES_TWICE, 4),
    (SETTLES_TWICE, 5),
    (SETTLES_TWICE, 6),
    (SETTLES_TWICE, 7),
];

const SETTLES_TWICE: &[Told] = &[OPEN, PUT, SETTLE_FAILS, SETTLE_6];

// A settled put is in the log, also one that nobody settled: the server settles at its end. A disk that fails once loses nothing.
#[test]
fn what_was_put_is_in_the_log(rt: HostRuntime) {
    for &(told, fail) in &KEPT {
        let store = new_store(&rt, rt.alloc(), 1, &[fail]);
        let left = serve_told(&rt, rt.alloc(), store, ONE_SESSION, told);
        assert_eq!(rt; image_of(&rt, rt.alloc(), left).as_slice(), LOG, "{fail}");
    }
}

// What nobody settles is in the log before more is put, since the server settles by the clock.
#[test]
fn a_server_settles_by_the_clock(rt: HostRuntime) {
    let store = new_store(&rt, rt.alloc(), 1, &[]);
    let line =
        "mt_server --port 0 --workers 1 --sessions 1 --store in_memory --settle-every 5 7:100";
    let left = serve_told(&rt, rt.alloc(), store, line, &[OPEN, PUT, WAIT, PUT_OTHER]);
    let image = image_of(&rt, rt.alloc(), left);
    let first = LOG.split_last().map(|(_, front)| front).unwrap_or(&[]);
    assert!(rt; image.starts_with(first) && image.len() > LOG.len());
}

// A log, and what a client is told of it.
const AGAIN: [(&[u8], &[Told]); 2] = [
    (LOG, &[OPEN, GET]),
    (LAST_LOG, &[OPEN, GET_SPENT, PUT_SPENT, SETTLE_LAST]),
];

// A server starts twice from a log, and each time its client is told the same. The log grows behind its last batch.
#[test]
fn what_was_put_is_there_again_and_numbers_stay_given(rt: HostRuntime) {
    for &(log, told) in &AGAIN {
        let mut image = log.to_vec(rt.alloc()).expect(&rt, "memory");
        for _ in 0..2u32 {
            let store = recovered(&rt, rt.alloc(), &image);
            let left = serve_told(&rt, rt.alloc(), store, ONE_SESSION, told);
            let grown = image_of(&rt, rt.alloc(), left);
            let batches = image.split_last().map(|(_, front)| front).unwrap_or(&[]);
            assert!(rt; grown.starts_with(batches) && grown.len() > image.len());
            image = grown;
        }
    }
}

// A row has its stamp again after a start, so a client of before the start meets it, once.
#[test]
fn a_stamp_is_met_after_a_start(rt: HostRuntime) {
    let store = recovered(&rt, rt.alloc(), LOG);
    drop(serve_told(
        &rt,
        rt.alloc(),
        store,
        ONE_SESSION,
        &[OPEN, PUT_AT_5, PUT_AT_10, GET_AT_10],
    ));
}
