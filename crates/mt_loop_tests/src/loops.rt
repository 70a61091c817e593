//! One connection, turn by turn; connections in a table; and loops in threads.

use crate::clients::{ALL, Calls, Client, client_of, clients_of, counter_of};
use mt_loop::{Connection, Counts, Door, EventLoop, Limits, Next, Pause, Room, Stream, Table};
use mt_session::Ended;
use std::alloc::Global;
use std::io::{self, ErrorKind, Read, Write};
use std::net::{Net, TcpListener, TcpStream};
use std::process::Abort;
use std::sync::Wait;
use std::test::Fail;
use std::thread;
use std::time::Clock;

// Of the 49 bytes of five removes so many come: how much they are told, and whether the session ends as it should.
fn expect(rt: &impl Abort, alloc: Global, asked: usize, calls: [Calls; 2], wanted: (usize, bool)) {
    let mut client = client_of(alloc, 7, 5, 0).expect(rt, "memory");
    client.asked.truncate(asked);
    let mut stream = client.streams(calls);
    let mut caller = counter_of(alloc, 8).expect(rt, "memory");
    let mut connection = Connection::new(alloc);
    for _ in 0..80 {
        let next = stream.turn(alloc, &mut connection, &mut caller, &mut [0; 64]);
        if matches!(next, Next::Close) {
            break;
        }
    }
    let is_right = matches!(connection.ending(), Some(Ok(Ended::Closed)));
    assert_eq!(rt; (client.taken.get(), is_right), wanted);
}

// How much they are told for so many bytes, and whether these end with a frame.
fn told_for(asked: usize) -> (usize, bool) {
    match asked.checked_sub(9) {
        Some(removes) => {
            let told = (removes / 8).saturating_mul(13).saturating_add(5);
            (told, removes % 8 == 0)
        }
        None => (0, asked == 0),
    }
}

// One call has nothing now, is interrupted or fails, at every place of either stream; or what is asked is cut off there.
#[test]
fn each_request_is_answered_once_whatever_the_streams_do(rt: HostRuntime) {
    let (alloc, one) = (rt.alloc(), Calls::good(1));
    for place in 0..72usize {
        for (size, fault) in [(1, ErrorKind::WouldBlock), (7, ErrorKind::Interrupted)] {
            let call = Calls(size, place, fault);
            expect(&rt, alloc, 49, [call, Calls::good(ALL)], (70, true));
            expect(&rt, alloc, 49, [one, call], (70, true));
        }
        let reset = Calls(1, place, ErrorKind::ConnectionReset);
        let (told, is_whole) = told_for(place.min(49));
        expect(&rt, alloc, 49, [reset, one], (told, place >= 50));
        expect(&rt, alloc, 49, [one, reset], (place.min(70), place >= 70));
        expect(&rt, alloc, place, [one, one], (told, is_whole));
    }
}

// So many removes are asked for, and as many gets as makes 60; so many bytes come in a read. The client takes so much in
// all before a turn; after it, it has given so much, and so many requests were answered.
const TURNS: [(u32, usize, [(usize, usize, usize); 3]); 4] = [
    (
        130,
        ALL,
        [(ALL, 1_049, 64), (ALL, 1_049, 128), (9, 1_049, 131)],
    ),
    (200, 100, [(0, 100, 12), (7, 100, 12), (147, 100, 12)]),
    (200, 100, [(0, 100, 12), (148, 200, 24), (ALL, 300, 37)]),
    (0, ALL, [(0, 549, 33), (0, 549, 33), (ALL, 549, 61)]),
];

// A turn answers 64 requests, or up to a full output, here 32 rows. Nothing is read or answered while replies are unsent.
#[test]
fn a_turn_answers_so_many_and_none_while_replies_are_unsent(rt: HostRuntime) -> Result<(), Fail> {
    let alloc = rt.alloc();
    for &(removes, size, turns) in &TURNS {
        let mut client = client_of(alloc, 7, removes, 0)?;
        for _ in removes..60 {
            let get = [0, 0, 0, 5, 2, 0, 1, 0x6b, 0];
            client.asked.extend_from_slice(&get)?;
        }
        let mut stream = client.streams([Calls::good(size), Calls::good(ALL)]);
        let (mut connection, mut caller) = (Connection::new(alloc), counter_of(alloc, 8)?);
        for (takes, given, requests) in turns {
            client.takes.set(takes);
            let _ = stream.turn(alloc, &mut connection, &mut caller, &mut [0; 2_048]);
            let got = (client.given.get(), caller.caller.requests);
            assert_eq!(&rt; got, (given, requests));
        }
    }
    Ok(())
}

// Byte by byte, with a read and a write that have nothing now. No connection is told another's replies.
#[test]
fn each_client_is_told_its_own_replies(rt: HostRuntime) -> Result<(), Fail> {
    let alloc = rt.alloc();
    let clients = clients_of(alloc, 100, 3)?;
    let (mut caller, mut room) = (counter_of(alloc, 100)?, Room::new(alloc)?);
    let mut table = Table::new(alloc, 100, 0)?;
    let call = Calls(1, 11, ErrorKind::WouldBlock);
    for client in &clients {
        let _ = table.begin(alloc, &caller, client.streams([call, call]), 0);
    }
    for _ in 0..100 {
        (0..100).for_each(|key| table.wake(key));
        table.round(alloc, &mut caller, &mut room, 0);
    }
    assert!(rt; clients.iter().all(|client| client.taken.get() == 44));
    let counts = table.counts();
    assert_eq!(rt; (counts.sessions, counts.others), (100, 0));
    Ok(())
}

// Clients that ask for 0 to 3 Settles, one after the other. All that await one at a time are told the same one.
#[test]
fn one_settle_is_told_to_all_that_await_one(rt: HostRuntime) -> Result<(), Fail> {
    let (alloc, mut clients) = (rt.alloc(), Vec::new(rt.alloc()));
    for tenant in 0..4u32 {
        clients.push(client_of(alloc, tenant, 2, u64::from(tenant))?)?;
    }
    let (mut caller, mut room) = (counter_of(alloc, 4)?, Room::new(alloc)?);
    let mut table = Table::new(alloc, 4, 0)?;
    for client in &clients {
        let _ = table.begin(alloc, &caller, client.streams([Calls::good(ALL); 2]), 0);
    }
    (0..4).for_each(|key| table.wake(key));
    for _ in 0..5 {
        table.round(alloc, &mut caller, &mut room, 0);
    }
    assert!(rt;
        clients
            .iter()
            .all(|client| client.taken.get() == client.told.len())
    );
    assert_eq!(rt; (caller.caller.settles, caller.caller.requests), (3, 15));
    Ok(())
}

#[derive(Clone, Copy, Drop)]
struct NoPause;

impl Pause for NoPause {
    fn pause(&self) {}
}

fn run<R: Wait + Clock + Abort>(rt: &R, alloc: Global, mut served: EventLoop) -> Counts {
    let mut caller = counter_of(alloc, 243).expect(rt, "memory");
    served
        .run(rt, alloc, &mut caller, NoPause)
        .expect(rt, "a loop")
}

// Each client has the next loop, but for the last three: a loop takes 80. Whether the others are told what they are to be.
fn play<R: Net<Listener = TcpListener, Stream = TcpStream> + Wait>(
    rt: &R,
    alloc: Global,
    mut doors: Vec<Door>,
    clients: &[Client],
) -> io::Result<bool> {
    let listener = TcpListener::bind(rt, ("127.0.0.1", 0u16))?;
    let (mut streams, mut is_right) = (Vec::new(alloc), true);
    for three in clients.chunks(3) {
        for (client, door) in three.iter().zip(&mut doors) {
            let mut stream = TcpStream::connect(rt, listener.local_addr()?)?;
            stream.write_all(&client.asked)?;
            streams.push(stream)?;
            let (stream, _) = listener.accept()?;
            is_right = is_right && door.hand_over(rt, stream).is_ok() == (streams.len() <= 240);
        }
    }
    for (client, stream) in clients.iter().zip(&mut streams).take(240) {
        let mut told = Vec::from_elem(alloc, 0, client.told.len())?;
        stream.read_exact(&mut told)?;
        is_right = is_right && told.as_slice() == client.told.as_slice();
    }
    Ok(is_right)
}

#[test]
fn three_loops_serve_hundreds_of_clients(rt: HostRuntime) -> Result<(), Fail> {
    let alloc = rt.alloc();
    let clients = clients_of(alloc, 243, 9)?;
    let limits = Limits {
        connections: 80,
        idle_seconds: 0,
    };
    let (mut loops, mut doors) = (Vec::new(alloc), Vec::new(alloc));
    for _ in 0..3 {
        let (served, door) = EventLoop::new(&rt, alloc, limits)
            .ok()
            .expect(&rt, "a loop");
        loops.push(served)?;
        doors.push(door)?;
    }
    let (counts, played) = thread::join(
        &rt,
        || thread::map_vec(&rt, loops, &|served: EventLoop| run(&rt, alloc, served)),
        || play(&rt, alloc, doors, &clients),
    );
    assert!(rt; played?);
    for counts in counts? {
        assert_eq!(rt; (counts.sessions, counts.others), (80, 0));
    }
    Ok(())
}
