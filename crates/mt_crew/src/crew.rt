//! Accepting, handing on, serving, joining.

ghost use Rattle.std.specs.{Prelude.{◌≡◌, ◌<◌, ◌^◌, Bool, IfOk, IfErr, vec_len, length}, List.{sum_by, AllZip}};
ghost use Rattle.mt_crew.specs.{Servings.IsServed, Faults.{is_of_one_connection, EndsCrew}, declared.crew.Served.Served, declared.crew.CrewFault.TheVariants.Memory};

use crossbeam_channel::{Receiver, Sender, bounded};
use std::alloc::{AllocError, Global};
use std::io::{self, ErrorKind};
use std::marker::{Send, Sync};
use std::net::{TcpListener, TcpStream};
use std::sync::Wait;
use std::thread;
use std::thread::Threads;

/// Who serves streams, one after the other. `serves` tells what a session makes of the worker, with
/// whether it ended as it should, and may say nothing.
pub trait Worker: Drop {
    ghost serves: { Self → Bool → Self → Type 0 };

    /// Serves a stream to its end; whether it ended as a session should.
    fn serve(&mut self, alloc: Global, stream: &TcpStream) -> bool
        ensures { serves self.old result self.new };
}

/// A worker that is done: how many sessions it served, and how many of them ended otherwise than they
/// should. Both counts stay where they are at 2^32 - 1 sessions.
#[derive(Drop)]
pub struct Served<W: Worker> {
    pub worker: W,
    pub sessions: u32,
    pub others: u32,
}

/// A crew that is done: how many connections were accepted, and its workers.
#[derive(Drop)]
pub struct Crew<W: Worker> {
    pub accepted: u32,
    pub served: Vec<Served<W>>,
}

/// Why a crew ended before its time.
#[derive(Debug, Drop)]
pub enum CrewFault {
    /// A growth was refused.
    Memory,
    /// The listener failed.
    Socket(io::Error),
}

impl From<AllocError> for CrewFault {
    ghost from_gives = { λ _ e. e ≡ Memory };

    fn from(_e: AllocError) -> CrewFault {
        CrewFault::Memory
    }
}

/// Hands a listener's connections to workers, so many, or all that come if it is 0. Each worker is a
/// thread of its own, which serves one connection after the other. The channel holds as many that wait
/// as there are workers, and the system keeps further ones. All threads are joined, and each worker
/// comes back at its place, led on by its sessions. After an error they are gone. A connection that fails
/// before it is accepted is not an error.
pub fn run_crew<R: Threads + Wait + Sync, W: Worker + Send>(
    rt: &R,
    alloc: Global,
    listener: &TcpListener,
    sessions: u32,
    workers: Vec<W>,
) -> Result<Crew<W>, CrewFault>
    requires { 0 < vec_len workers }
    ensures accepted { IfOk result (λ crew. crew.accepted ≡ sessions) }
    ensures workers { IfOk result (λ crew. vec_len crew.served ≡ vec_len workers) }
    ensures served { IfOk result (λ crew. AllZip (IsServed W.serves) workers.items crew.served.items) }
    ensures fault { IfErr result EndsCrew }
{
    let (sender, receiver) = bounded::<TcpStream, Global>(alloc, workers.len())?;
    let streams = &receiver;
    let (accepted, served) = thread::join(
        rt,
        move || accept_all(rt, listener, sender, sessions),
        move ||
            ensures { IfOk result (λ served. (vec_len served ≡ vec_len workers) × AllZip (IsServed W.serves) workers.items served.items) }
        { thread::map_vec(rt, workers, &|worker: W| work(rt, alloc, streams, worker)) },
    );
    let accepted = accepted?;
    let served = served?;
    Ok(Crew { accepted, served })
}

/// How many sessions of a crew ended otherwise than they should.
pub fn others_of<W: Worker>(served: &[Served<W>]) -> u64
    requires { length served.now < 2 ^ 32 }
    ensures { result ≡ sum_by (λ (s : Served W). s.others) served.now }
{
    let mut others = 0u64;
    for one in served {
        others += u64::from(one.others);
    }
    others
}

// Hands on so many connections, or all that come where it is 0; the channel is closed at the end.
fn accept_all<R: Wait>(
    rt: &R,
    listener: &TcpListener,
    sender: Sender<TcpStream>,
    sessions: u32,
) -> Result<u32, CrewFault>
    ensures count { IfOk result (λ n. n ≡ sessions) }
    ensures fault { IfErr result EndsCrew }
{
    if sessions == 0 {
        for _ in rt.forever() {
            hand_on(rt, listener, &sender)?;
        }
        unreachable!()
    }
    for _ in 0..sessions {
        hand_on(rt, listener, &sender)?;
    }
    Ok(sessions)
}

// Accepts a connection and hands it on.
fn hand_on<R: Wait>(
    rt: &R,
    listener: &TcpListener,
    sender: &Sender<TcpStream>,
) -> Result<(), CrewFault>
    ensures { IfErr result EndsCrew }
{
    let stream = accept_one(rt, listener)?;
    match sender.send(rt, stream) {
        Ok(()) => Ok(()),
        Err(_) => Err(CrewFault::Memory),
    }
}

// Accepts the next connection that doesn't fail by itself.
fn accept_one<R: Wait>(rt: &R, listener: &TcpListener) -> Result<TcpStream, CrewFault>
    ensures { IfErr result EndsCrew }
{
    for _ in rt.forever() {
        match listener.accept() {
            Ok((stream, _)) => return Ok(stream),
            Err(error) => {
                if !is_of_one_connection(error.kind()) {
                    return Err(CrewFault::Socket(error));
                }
            }
        }
    }
    unreachable!()
}

/// Whether a fault of accepting is of one connection alone.
pub fn is_of_one_connection(kind: ErrorKind) -> bool
    ensures { result ≡ is_of_one_connection kind }
{
    matches!(
        kind,
        ErrorKind::Interrupted | ErrorKind::ConnectionAborted | ErrorKind::ConnectionReset
    )
}

// How many bytes a worker's thread takes, for a moment, before its first stream.
const FIRST_BYTES: usize = 64;

/// A few bytes. The C library sets address space aside for a thread when that first takes memory. If none is
/// left by then, each piece that the thread takes has a page of its own. Inlined they would be left out.
#[inline(never)]
pub fn first_bytes(alloc: Global) -> Result<Vec<u8>, AllocError>
    ensures { IfOk result (λ bytes. vec_len bytes ≡ 0) }
{
    Vec::with_capacity(alloc, FIRST_BYTES)
}

// Serves the streams of the channel till it is closed. The thread first has its own place for memory, while
// there is some; a worker without one serves all the same.
fn work<R: Wait, W: Worker>(
    rt: &R,
    alloc: Global,
    streams: &Receiver<TcpStream>,
    worker: W,
) -> Served<W>
    ensures { IsServed W.serves worker result }
{
    let _ = first_bytes(alloc);
    let mut served = Served {
        worker,
        sessions: 0,
        others: 0,
    };
    for stream in streams.iter(rt) {
        let is_right = served.worker.serve(alloc, &stream);
        if served.sessions < u32::MAX {
            served.sessions += 1;
            served.others += u32::from(!is_right);
        }
    }
    served
}
