//! Servers of two workers, with a log and a client each, and of eight.

use super::clients::{GET_L, PUT_L, is_longest_told};
use super::servers::TWO_WORKERS;
use super::stores::{disk_with, image_in};
use super::*;
use mt_log::{BatchReader, FileKind, LogFile, ReadBatch};

// A client puts a key, gets it past the 1,024th answer, asks by the longest frame, and settles; whether it is told what it should
// be.
fn goes_on(client: &TcpStream, put: Told, get: Told) -> io::Result<bool> {
    let mut is_right = is_told(client, put)?;
    for _ in 0..1_030 {
        is_right = is_told(client, get)? && is_right;
    }
    Ok(is_longest_told(client)? && is_told(client, SETTLE)? && is_right)
}

// Both sessions are open before either client puts, so each has a worker of its own.
fn play(rt: &impl Threads, first: TcpStream, second: TcpStream) -> io::Result<bool> {
    if !is_told(&first, OPEN)? || !is_told(&second, OPEN)? {
        return Ok(false);
    }
    let (one, other) = thread::join(
        rt,
        move || goes_on(&first, PUT, GET),
        move || goes_on(&second, PUT_L, GET_L),
    );
    Ok(one? && other?)
}

// The number of a log's worker, and after it the keys of its changes. The log is in a plain file.
fn told_of(rt: &impl Abort, alloc: Global, log: &StoreLog<MemDisk>) -> Vec<u8> {
    let disk = disk_with(alloc, &image_in(rt, alloc, log)).expect(rt, "memory");
    let opened = LogFile::open(alloc, disk).ok();
    let (mut log, front) = opened.expect(rt, "a log");
    let begun = BatchReader::begin(alloc, &mut log, FileKind::Plain).ok();
    let mut reader = begun.expect(rt, "a log");
    let mut told = Vec::new(alloc);
    told.push(front.worker).expect(rt, "memory");
    for _ in &front.batches {
        let read = reader.next(alloc, &mut log).unwrap_or(None);
        push_keys(&mut told, &read.expect(rt, "a batch")).expect(rt, "memory");
    }
    told
}

// Adds the keys of a batch's records.
fn push_keys(keys: &mut Vec<u8>, read: &ReadBatch) -> Result<(), AllocError> {
    for record in &read.records {
        keys.extend_from_slice(record.key.as_bytes())?;
    }
    Ok(())
}

#[test]
fn each_worker_has_a_log_of_its_own(rt: HostRuntime) {
    let alloc = rt.alloc();
    let (listener, _, first, second) = connected(&rt).expect(&rt, "a socket");
    let store = new_store(&rt, alloc, 2, &[]);
    let line = TWO_WORKERS;
    let (_, end) = serve_beside(&rt, alloc, listener, line, store, NoDigests {}, move || {
        play(&rt, first, second)
    });
    let (_, logs, _) = end.expect(&rt, "the server ends well").store.into_parts();
    assert_eq!(&rt; logs.len(), 2);
    let (first, second) = (told_of(&rt, alloc, &logs[0]), told_of(&rt, alloc, &logs[1]));
    let told = (first.as_slice(), second.as_slice());
    let crossed = told == (b"\x00l".as_slice(), b"\x01k".as_slice());
    assert!(&rt; crossed || told == (b"\x00k".as_slice(), b"\x01l".as_slice()));
}

/// Opens the sessions of all clients before the first of them asks for more; whether each is told what it should be.
pub fn are_answered(clients: &[TcpStream]) -> io::Result<bool> {
    let mut is_right = true;
    for client in clients {
        is_right = is_told(client, OPEN)? && is_right;
    }
    for client in clients {
        is_right = is_told(client, GET_NONE)? && is_told(client, SETTLE)? && is_right;
    }
    Ok(is_right)
}

// Eight sessions are open at once, so each has a worker of its own.
#[test]
fn eight_workers_answer_all_their_sessions(rt: HostRuntime) -> Result<(), Fail> {
    let alloc = rt.alloc();
    let (listener, port, first, second) = connected(&rt)?;
    let mut clients = vec![in alloc; first, second]?;
    for _ in 2..8u8 {
        clients.push(connect(&rt, port)?)?;
    }
    let line = "mt_server --port 0 --workers 8 --sessions 8 7:100";
    let store = new_store(&rt, alloc, 8, &[]);
    let (_, end) = serve_beside(&rt, alloc, listener, line, store, NoDigests {}, move || {
        are_answered(&clients)
    });
    assert!(rt; end.is_ok_and(|ending| ending.others == 0));
    Ok(())
}
