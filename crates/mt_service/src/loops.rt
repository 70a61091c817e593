//! Workers that serve many connections each, and those that serve one at a time.
//!
//! A loop's connections share the caller of its worker. One thread accepts, and hands each connection to a loop that has
//! room.

ghost use Rattle.std.specs.{Prelude.{◌≡◌, ◌<◌, ◌++◌, ◌∷◌, [], IfOk, IfErr, OnOk, vec_len, map}, List.AllZip};
ghost use Rattle.mt_service.specs.{Faults.IsOfServing, Loops.{AreServed, AreMadeOf, count_of}};

use crate::accepting::Porter;
use crate::faults::ServerFault;
use crate::workers::SessionWorker;
use log::Log;
use mt_book::Runner;
use mt_crew::{Crew, CrewFault, Served, Worker, first_bytes, run_crew};
use mt_disk::Disk;
use mt_history::Naming;
use mt_loop::{Counts, Door, EventLoop, Limits, LoopFault, Pause, Shared};
use mt_options::Options;
use std::alloc::Global;
use std::marker::{Send, Sync};
use std::net::{Net, TcpListener};
use std::sync::ledger::Ledger;
use std::sync::{Mutex, Wait};
use std::thread::{self, Threads};
use std::time::Clock;

/// Who serves the connections of a loop. `leaves` tells which worker it leaves.
pub trait Looper<W: Worker>: Drop {
    ghost leaves: { Self → W → Type 0 };

    /// Serves connections until its door is closed, and each to its end. How many there were, or why it ended before.
    fn run(self, alloc: Global) -> (W, Result<Counts, LoopFault>)
        ensures { leaves self result.0 };
}

/// A worker with a loop of its own.
#[derive(Drop)]
pub struct LoopWorker<'a, L: Ledger, J: Naming, R: Wait + Clock, D: Disk + Drop> {
    pub worker: SessionWorker<'a, L, J, R, D>,
    pub events: EventLoop,
}

// Before a loop writes or sleeps, it gives the baton back.
#[derive(Clone, Copy)]
struct Giving<'a>(Runner<'a>);

impl Pause for Giving<'_> {
    fn pause(&self) {
        self.0.give();
    }
}

impl<'a, L: Ledger, J: Naming, R: Wait + Clock + Log, D: Disk + Drop> Looper<
    SessionWorker<'a, L, J, R, D>,
> for LoopWorker<'a, L, J, R, D> {
    ghost use Rattle.mt_service.specs.Loops.{IsLed};

    ghost leaves = { λ old new. IsLed D.is_honest D.state D.failures D.was_refused old.worker new };

    fn run(self, alloc: Global) -> (SessionWorker<'a, L, J, R, D>, Result<Counts, LoopFault>) {
        let LoopWorker { worker, mut events } = self;
        let SessionWorker {
            rt,
            caller,
            buffers,
        } = worker;
        let runner = caller.runner();
        let mut shared = Shared { caller };
        let ended = events.run(rt, alloc, &mut shared, Giving(runner));
        runner.give();
        let worker = SessionWorker {
            rt,
            caller: shared.caller,
            buffers,
        };
        (worker, ended)
    }
}

/// A server's workers.
#[derive(Drop)]
pub enum Workers<W: Worker, E: Looper<W>> {
    /// Each serves one connection at a time.
    Alone(Vec<W>),
    /// Each has a loop, which serves those that come by its door.
    Sharing(Vec<E>, Vec<Door>),
}

// These workers as the options say: each for one connection at a time, or each with a loop of its own.
pub(crate) fn workers_with<'a, L: Ledger, J: Naming, R: Wait + Clock + Log + Net, D: Disk + Drop>(
    rt: &R,
    alloc: Global,
    options: &Options,
    workers: Vec<SessionWorker<'a, L, J, R, D>>,
) -> Result<Workers<SessionWorker<'a, L, J, R, D>, LoopWorker<'a, L, J, R, D>>, ServerFault>
    ensures made { IfOk result (AreMadeOf options.now.connections workers.entry.items) }
    ensures count { IfOk result (λ made. count_of made ≡ vec_len workers.entry) }
    ensures fault { IfErr result IsOfServing }
{
    if options.connections == 1 {
        return Ok(Workers::Alone(workers));
    }
    let limits = Limits {
        connections: options.connections as usize,
        idle_seconds: u64::from(options.idle),
    };
    let (loops, doors) = loops_of(rt, alloc, limits, workers)?;
    Ok(Workers::Sharing(loops, doors))
}

// A loop for each of these workers, and their doors. All that a loop takes before its first connection is taken.
fn loops_of<'a, L: Ledger, J: Naming, R: Wait + Clock + Log + Net, D: Disk + Drop>(
    rt: &R,
    alloc: Global,
    limits: Limits,
    workers: Vec<SessionWorker<'a, L, J, R, D>>,
) -> Result<(Vec<LoopWorker<'a, L, J, R, D>>, Vec<Door>), ServerFault>
    ensures loops { IfOk result (λ made. map (λ (one : LoopWorker L J R D). one.worker) made.0.items ≡ workers.entry.items) }
    ensures fault { IfErr result IsOfServing }
{
    let (mut loops, mut doors) = (Vec::new(alloc), Vec::new(alloc));
    for worker in workers {
        add_loop(rt, alloc, limits, worker, &mut loops, &mut doors)?;
    }
    Ok((loops, doors))
}

// A worker with its loop more, and a door.
fn add_loop<'a, L: Ledger, J: Naming, R: Wait + Clock + Log + Net, D: Disk + Drop>(
    rt: &R,
    alloc: Global,
    limits: Limits,
    worker: SessionWorker<'a, L, J, R, D>,
    loops: &mut Vec<LoopWorker<'a, L, J, R, D>>,
    doors: &mut Vec<Door>,
) -> Result<(), ServerFault>
    ensures loops { OnOk result (map (λ (one : LoopWorker L J R D). one.worker) loops.new.items ≡ map (λ (one : LoopWorker L J R D). one.worker) loops.old.items ++ worker.entry ∷ []) }
    ensures fault { IfErr result IsOfServing }
{
    let (events, door) = EventLoop::new(rt, alloc, limits)?;
    loops.push(LoopWorker { worker, events })?;
    doors.push(door)?;
    Ok(())
}

/// Serves a listener's connections by these workers, as many as the options say.
pub(crate) fn run_workers<
    R: Threads + Wait + Clock + Log + Sync,
    W: Worker + Send,
    E: Looper<W> + Send,
>(
    rt: &R,
    alloc: Global,
    listener: &TcpListener,
    options: &Options,
    workers: Workers<W, E>,
) -> Result<Vec<Served<W>>, ServerFault>
    requires { 0 < count_of workers }
    ensures served { IfOk result (λ served. AreServed W.serves E.leaves workers served.items) }
    ensures count { IfOk result (λ served. vec_len served ≡ count_of workers) }
    ensures fault { IfErr result IsOfServing }
{
    match workers {
        Workers::Alone(workers) => {
            match run_crew(rt, alloc, listener, options.sessions, workers) {
                Ok(
                    Crew {
                        accepted: _,
                        served,
                    },
                ) => Ok(served),
                Err(CrewFault::Memory) => Err(ServerFault::Memory),
                Err(CrewFault::Socket(error)) => Err(ServerFault::Socket(error)),
            }
        }
        Workers::Sharing(loops, doors) => run_loops(rt, alloc, listener, options, loops, doors),
    }
}

// Runs loops, each in a thread, and one that accepts beside them. A loop that fails ends them all when the next connection
// comes, or none can be accepted.
fn run_loops<R: Threads + Wait + Clock + Log + Sync, W: Worker + Send, E: Looper<W> + Send>(
    rt: &R,
    alloc: Global,
    listener: &TcpListener,
    options: &Options,
    loops: Vec<E>,
    doors: Vec<Door>,
) -> Result<Vec<Served<W>>, ServerFault>
    ensures served { IfOk result (λ served. AllZip (λ (one : E) (done : Served W). E.leaves one done.worker) loops.items served.items) }
    ensures count { IfOk result (λ served. vec_len served ≡ vec_len loops) }
    ensures fault { IfErr result IsOfServing }
{
    let failed = Mutex::new(None);
    let fault = &failed;
    let porter = Porter::new(rt, doors, options.connections);
    let ((), served) = thread::join(
        rt,
        move || admit_all(rt, listener, porter, options.sessions, fault),
        move ||
            ensures { IfOk result (λ served. (vec_len served ≡ vec_len loops) × AllZip (λ (one : E) (done : Served W). E.leaves one done.worker) loops.items served.items) }
        { thread::map_vec(rt, loops, &|one: E| run_loop(rt, alloc, one, fault)) },
    );
    let served = served?;
    match failed.into_inner() {
        Some(fault) => Err(ServerFault::from(fault)),
        None => Ok(served),
    }
}

// Admits so many connections, or all that come if it is 0, or until a loop has failed. The doors are closed then.
fn admit_all<R: Wait + Clock + Log>(
    rt: &R,
    listener: &TcpListener,
    mut porter: Porter<'_, R>,
    sessions: u32,
    failed: &Mutex<Option<LoopFault>>,
) {
    let mut admitted = 0u32;
    for _ in rt.forever() {
        if (sessions != 0 && admitted >= sessions) || failed.lock(rt).is_some() {
            return;
        }
        if porter.admit(listener) {
            admitted = admitted.saturating_add(1);
        }
    }
    unreachable!()
}

// Runs a loop to its end. Its thread first has its own place for memory, while there is some.
fn run_loop<R: Wait, W: Worker, E: Looper<W>>(
    rt: &R,
    alloc: Global,
    one: E,
    failed: &Mutex<Option<LoopFault>>,
) -> Served<W>
    ensures { E.leaves one result.worker }
{
    let _ = first_bytes(alloc);
    let (worker, ended) = one.run(alloc);
    let Counts { sessions, others } = match ended {
        Ok(counts) => counts,
        Err(fault) => {
            *failed.lock(rt) = Some(fault);
            Counts {
                sessions: 0,
                others: 0,
            }
        }
    };
    Served {
        worker,
        sessions,
        others,
    }
}
