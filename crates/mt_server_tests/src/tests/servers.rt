//! Whole servers, with their clients in threads of the same process. Servers whose workers serve many connections each.

ghost use Rattle.mt_book.specs.Keeping.{IsUnasked};

use super::clients::{BAD_FRAME, OPEN_UNREAD, PUT_CUT, REMOVE, REMOVE_NONE, SCAN, SCAN_NONE};
use super::stores::store_without_logs;
use super::workers::are_answered;
use super::*;

// What two clients are told, which are connected from the beginning, one behind the other: the first one, the other one beside
// it, the first one again, which leaves then, and the other one after that.
type Parts = [&'static [Told]; 4];

// A client's closure keeps them under one name.
#[derive(Clone, Copy)]
struct Scene(Parts);

// One puts and reads back, and leaves; the other one reads that.
const IN_TURN: Parts = [&[], &[], &[OPEN, PUT, GET], &[OPEN, GET]];

const LACKS: &[Told] = &[OPEN, GET_NONE];

// Scenes, how many answers are counted, and how many sessions end otherwise than closed.
const SCENES: [(Parts, u8, u8); 7] = [
    (IN_TURN, 3, 0),
    // One reads what the other puts, with both sessions open.
    ([&[OPEN], &[OPEN, PUT, GET], &[GET], &[]], 3, 0),
    // One puts and removes, and the other one finds nothing.
    ([&[], &[], &[OPEN, PUT, REMOVE, REMOVE_NONE], LACKS], 4, 0),
    // One puts a pair and scans it, and removes it again.
    ([&[OPEN, PUT, SCAN], &[], &[REMOVE, SCAN_NONE], LACKS], 5, 0),
    // One leaves inside a frame.
    ([&[], &[], &[OPEN, PUT_CUT], LACKS], 1, 1),
    // One leaves with a reply unread, so that its connection is reset.
    ([&[], &[], &[OPEN_UNREAD], LACKS], 1, 1),
    ([&[], &[], &[OPEN, BAD_FRAME], LACKS], 1, 1),
];

// A loop doesn't wait for what comes after a bad frame.
const SCENES_OF_A_LOOP: usize = 6;

// Whether the first client is told what it should be, and the second one beside it.
fn begins(scene: Scene, first: &TcpStream, second: &TcpStream) -> io::Result<bool> {
    let Scene([begun, beside, ended, _]) = scene;
    Ok(are_told(first, begun)? && are_told(second, beside)? && are_told(first, ended)?)
}

// Plays a scene; whether each client was told what it should be.
fn play(scene: Scene, first: TcpStream, second: TcpStream) -> io::Result<bool> {
    let is_begun = begins(scene, &first, &second);
    drop(first);
    let Scene([_, _, _, after]) = scene;
    match is_begun {
        Ok(true) => are_told(&second, after),
        _ => is_begun,
    }
}

pub const TWO_WORKERS: &str = "mt_server --port 0 --workers 2 --sessions 2 7:100";

const ONE_WORKER: &str = "mt_server --port 0 --workers 1 --sessions 2 7:100";

const ONE_LOOP: &str = "mt_server --port 0 --workers 1 --connections 2 --sessions 2 7:100";

const THREE_SESSIONS: &str = "mt_server --port 0 --workers 2 --sessions 3 7:100";

// A server and its clients, who are all told what they should be. So is the output after where it listens, and at its end how many
// sessions end otherwise than closed, or how its fault begins.
fn serve_scene<R: Host + Net<Listener = TcpListener, Stream = TcpStream>>(
    rt: &R,
    alloc: Global,
    line: &str,
    store: Store<MemDisk>,
    scene: Scene,
    wanted: &str,
)
    requires { IsUnasked store.source.state }
{
    let (listener, port, first, second) = connected(rt).expect(rt, "a socket");
    // An accept then fails if nobody waits.
    assert!(rt; listener.set_nonblocking(line == THREE_SESSIONS).is_ok());
    let (written, end) = serve_beside(rt, alloc, listener, line, store, NoDigests {}, move || {
        play(scene, first, second)
    });
    let written = str::from_utf8(written.as_slice()).unwrap_or("no text");
    let told = match end {
        Ok(ending) => format!(in alloc; "{written}{}", ending.others),
        Err(fault) => format!(in alloc; "{written}{fault}"),
    };
    let told = told.expect(rt, "memory");
    expect_told(rt, alloc, told.as_str(), port, wanted);
}

// What is told begins with where the server listens, and then this.
fn expect_told(rt: &impl Abort, alloc: Global, told: &str, port: u16, wanted: &str) {
    let wanted = format!(in alloc; "listening 127.0.0.1:{port}\n{wanted}");
    let wanted = wanted.expect(rt, "memory");
    assert!(rt; told.starts_with(wanted.as_str()), "{told}");
}

#[test]
fn servers_serve_their_clients(rt: HostRuntime) -> Result<(), Fail> {
    let alloc = rt.alloc();
    for (place, (parts, answers, others)) in SCENES.iter().enumerate() {
        let line = if *others == 0 {
            TWO_WORKERS
        } else {
            ONE_WORKER
        };
        let wanted = format!(in alloc; "sessions 2 answers {answers}\n{others}")?;
        let store = store_without_logs(&rt, alloc);
        serve_scene(&rt, alloc, line, store, Scene(*parts), wanted.as_str());
        if place < SCENES_OF_A_LOOP {
            let store = store_without_logs(&rt, alloc);
            serve_scene(&rt, alloc, ONE_LOOP, store, Scene(*parts), wanted.as_str());
        }
    }
    // The listener fails after two of three connections, and still both are answered to their end.
    let store = store_without_logs(&rt, alloc);
    let told = "the socket failed: ";
    serve_scene(&rt, alloc, THREE_SESSIONS, store, Scene(IN_TURN), told);
    // The same, and the disks fail when all is settled after that.
    let store = new_store(&rt, alloc, 2, &[4]);
    let told = "E10: the last settle failed";
    serve_scene(&rt, alloc, THREE_SESSIONS, store, Scene(IN_TURN), told);
    Ok(())
}

// How many clients a thread has.
const CROWD: u32 = 120;

// Connects a crowd, and asks by each; whether each is told what it should be.
fn crowd(rt: &impl Net<Stream = TcpStream>, alloc: Global, port: u16) -> io::Result<bool> {
    let mut clients = Vec::new(alloc);
    for _ in 0..CROWD {
        clients.push(connect(rt, port)?)?;
    }
    are_answered(&clients)
}

#[test]
fn three_loops_serve_two_crowds(rt: HostRuntime) -> Result<(), Fail> {
    let alloc = rt.alloc();
    let (listener, port, first, second) = connected(&rt)?;
    let line = "mt_server --port 0 --workers 3 --connections 100 --sessions 242 7:100";
    let store = new_store(&rt, alloc, 3, &[]);
    let rt = &rt;
    let (_, end) = serve_beside(rt, alloc, listener, line, store, NoDigests {}, move || {
        let (one, other) = thread::join(rt, || crowd(rt, alloc, port), || crowd(rt, alloc, port));
        Ok(one? && other? && is_told(&first, OPEN)? && is_told(&second, OPEN)?)
    });
    assert!(rt; end.is_ok_and(|ending| ending.others == 0));
    Ok(())
}

// Four clients fill two loops of two. The fifth is closed without a word, until one of the four has left.
fn fill(
    rt: &impl Net<Stream = TcpStream>,
    port: u16,
    first: TcpStream,
    second: &TcpStream,
) -> io::Result<bool> {
    let (third, fourth) = (connect(rt, port)?, connect(rt, port)?);
    let mut is_right = is_told(&first, OPEN)?;
    for client in [second, &third, &fourth] {
        is_right = is_told(client, OPEN)? && is_right;
    }
    is_right = is_told(&connect(rt, port)?, OPEN).is_err() && is_right;
    drop(first);
    for _ in 0..10_000u32 {
        if let Ok(true) = is_told(&connect(rt, port)?, OPEN) {
            return Ok(is_told(second, GET_NONE)? && is_told(&fourth, GET_NONE)? && is_right);
        }
    }
    Ok(false)
}

#[test]
fn a_connection_past_the_limit_is_closed(rt: HostRuntime) -> Result<(), Fail> {
    let alloc = rt.alloc();
    let (listener, port, first, second) = connected(&rt)?;
    let line = "mt_server --port 0 --workers 2 --connections 2 --sessions 5 7:100";
    let store = new_store(&rt, alloc, 2, &[]);
    let rt = &rt;
    let (_, end) = serve_beside(rt, alloc, listener, line, store, NoDigests {}, move || {
        fill(rt, port, first, &second)
    });
    assert!(rt; end.is_ok_and(|ending| ending.others == 0));
    Ok(())
}
