//! The server: from a listener to the sum of its answers.

ghost use Rattle.std.specs.{Prelude.{◌≡◌, ◌+◌, ◌<◌, ◌^◌, [], ◌∷◌, ◌++◌, IfOk, IfErr, OnOk, OnErr, length, vec_len, map}, List.{flat_map, sum_by}, Io.KnownBytes.Appends};
ghost use Rattle.mt_state.specs.Views.{StateView};
ghost use Rattle.mt_book.specs.{declared.passes.Pass.Pass, declared.shared.Clerk.Clerk, Names.AreNames, Keeping.{IsUnasked, IsWhole}};
ghost use Rattle.mt_crew.specs.declared.crew.Served.{Served};
ghost use Rattle.mt_streams.specs.Failures.{Failed, NoFewer};
ghost use Rattle.mt_service.specs.{declared.workers.SessionWorker.SessionWorker, Faults.{IsOfWriting, IsOfServing, HasCause}};
ghost use Rattle.mt_service.specs.{Workers.{every_of, bytes_of, number_of, IsWired, EachAt}, Beginnings.{IsNewWorker, IsNewTurner}, Sessions.{pass_in, clerks_in}, Histories.{HaveOneHistory, HaveOneHistoryOf}, Loops.{AreServed, count_of}, Turners.{turner_of, Leaves}, Lines.{first_line, last_line, Begins, SaysAll, SaysPart}};
ghost use Rattle.mt_stored.specs.{Stores.IsSettled, Checks.IsAtFirst, Checkpoints.scanner};

use crate::callers::DeskCaller;
use crate::faults::ServerFault;
use crate::loops::{Looper, Workers, run_workers, workers_with};
use crate::turners::Turner;
use crate::turns::Turns;
use crate::workers::{Held, SessionWorker};
use log::Log;
use mt_book::{
    BookLock, Callers, Clerk, Desk, Kept, Names, Pass, Periods, Runner, gather, open_clerk,
    open_pass,
};
use mt_core::State;
use mt_crew::{Served, Worker, others_of};
use mt_disk::Disk;
use mt_history::{Mark, Naming};
use mt_options::{Options, TenantQuota};
use mt_session::SessionBuffers;
use mt_settle::Logs;
use mt_slots::StoreSlots;
use mt_store_logs::StoreLog;
use mt_stored::{Checks, Digests, Keeper, SharedLogs, Store, locked_logs, unlocked_logs};
use mt_streams::{Sink, write_whole};
use std::alloc::{AllocError, Global};
use std::marker::{Send, Sync};
use std::net::{Net, TcpListener};
use std::sync::ledger::Ledger;
use std::sync::{Mutex, Wait};
use std::thread::{self, Threads};
use std::time::Clock;

/// What a crew's sessions come to: the answers of all passes, and how many sessions ended otherwise
/// than `Closed`.
#[derive(Clone, Copy, Debug, PartialEq, Eq)]
pub struct Totals {
    pub answers: u64,
    pub others: u64,
}

/// A server's end: how many sessions ended otherwise than `Closed`, and the store, which is settled.
#[derive(Drop)]
pub struct Ending<D: Disk + Drop> {
    pub others: u64,
    pub store: Store<D>,
}

/// Serves the connections of a listener from a store, as many as the options say, and writes where it
/// listens and, at the end, how many sessions and answers there were. After the last session the store is
/// settled once more, also if the listener failed.
///
/// Who keeps digests is asked to in each turn. After an error the output has a beginning of these two lines.
///
/// All that the sessions were told stands in one history of the store's state, which one order explains.
pub fn run_server<L, J, R, W, D, G>(
    rt: &R,
    alloc: Global,
    names: Names,
    listener: TcpListener,
    options: &Options,
    store: Store<D>,
    digests: G,
    out: &mut W,
) -> Result<Ending<D>, ServerFault>
where
    L: Ledger + Send + Sync,
    J: Naming + Send + Sync,
    R: Threads + Wait + Clock + Log + Net + Sync,
    W: Sink,
    D: Disk + Drop + Send,
    G: Digests + Drop + Send,
    requires names { AreNames L.name L.parts J.name J.parts J.book names store.source.state }
    requires unasked { IsUnasked store.source.state }
    ensures ok { OnOk result (SaysAll (W.contents out.old) (W.contents out.new) options.now.sessions) }
    ensures settled { IfOk result (λ ending. IsSettled ending.store.source.state ending.store.logs.items) }
    ensures history { OnOk result (HaveOneHistoryOf L J R D.is_honest D.state D.failures D.was_refused G.does digests options.now.tenants.items options.now.workers options.now.connections store.logs.items store.source.state) }
    ensures err { OnErr result (SaysPart (W.contents out.old) (W.contents out.new) options.now.sessions) }
    ensures cause { IfErr result (HasCause (Failed (W.failures out.old) (W.failures out.new))) }
{
    let port = match listener.local_addr() {
        Ok(addr) => addr.port(),
        Err(error) => return Err(ServerFault::Socket(error)),
    };
    say_first(alloc, out, port)?;
    let (Totals { answers, others }, store) = serve_store::<L, J, R, D, G>(
        rt, alloc, names, &listener, options, store, digests,
    )?;
    say_last(alloc, out, options.sessions, answers)?;
    Ok(Ending { others, store })
}

// Serves the listener's connections from a store, and settles it.
fn serve_store<
    L: Ledger + Send + Sync,
    J: Naming + Send + Sync,
    R: Threads + Wait + Clock + Log + Net + Sync,
    D: Disk + Drop + Send,
    G: Digests + Drop + Send,
>(
    rt: &R,
    alloc: Global,
    names: Names,
    listener: &TcpListener,
    options: &Options,
    store: Store<D>,
    digests: G,
) -> Result<(Totals, Store<D>), ServerFault>
    requires names { AreNames L.name L.parts J.name J.parts J.book names store.source.state }
    requires unasked { IsUnasked store.source.state }
    ensures history { OnOk result (HaveOneHistoryOf L J R D.is_honest D.state D.failures D.was_refused G.does digests options.now.tenants.items options.now.workers options.now.connections store.logs.items store.source.state) }
    ensures settled { IfOk result (λ served. IsSettled served.1.source.state served.1.logs.items) }
    ensures fault { IfErr result IsOfServing }
{
    let next = store.next_turn(rt);
    let (state, logs, slots) = store.into_parts();
    let logs = locked_logs(alloc, logs)?;
    let turns = Turns::new(checks_of(options, slots));
    let (book, mark) = begun::<L, J>(alloc, names, state)?;
    let served = serve_all(
        rt, alloc, &book, mark, &logs, &turns, listener, options, digests, next,
    );
    let store = settled(rt, alloc, book, logs, turns.into_checks())?;
    Ok((served?, store))
}

// The book of a state, under its lock, and a mark that has seen the state alone.
fn begun<L: Ledger, J: Naming>(
    alloc: Global,
    names: Names,
    state: State,
) -> Result<(BookLock<L, J>, Mark<State, Periods, J>), ServerFault>
    requires names { AreNames L.name L.parts J.name J.parts J.book names state }
    requires unasked { IsUnasked state }
    ensures first { IfOk result (λ r. (r.1.log ≡ state ∷ []) × (r.1.made ≡ 0)) }
    ensures fault { IfErr result IsOfServing }
{
    let mut kept = Kept::<L, J>::new(alloc, names, state);
    match kept.open_mark() {
        Some(mark) => Ok((BookLock::new(kept), mark)),
        None => Err(ServerFault::Passes),
    }
}

// The checks of a store that is served as the options say.
fn checks_of<D: Disk + Drop>(options: &Options, slots: Option<StoreSlots<D>>) -> Checks<D>
    ensures first { IsAtFirst (every_of options.now.store) (bytes_of options.now.store) result }
    ensures slots { result.slots ≡ slots }
{
    let (every, bytes) = match &options.store {
        Some(place) => (place.checkpoint, place.checkpoint_bytes),
        None => (0, 0),
    };
    Checks::new(every, bytes, slots)
}

// The store, of which nobody holds a lock any more, settled for the last time. Its slots are those of the checks.
fn settled<L: Ledger, J: Naming, R: Wait + Clock + Log, D: Disk + Drop>(
    rt: &R,
    alloc: Global,
    book: BookLock<L, J>,
    logs: Vec<Mutex<StoreLog<D>>>,
    checks: Checks<D>,
) -> Result<Store<D>, ServerFault>
    ensures settled { IfOk result (λ store. IsSettled store.source.state store.logs.items) }
    ensures fault { IfErr result IsOfServing }
{
    let logs = unlocked_logs(alloc, logs)?;
    let state = book.into_inner().into_book().into_state();
    let Some(mut store) = Store::joined(state, logs, checks.into_slots()) else {
        return Err(ServerFault::Passes);
    };
    match store.settle_last(rt, alloc) {
        Ok(()) => Ok(store),
        Err(refusal) => Err(ServerFault::Unsettled(refusal)),
    }
}

// Writes where the server listens.
fn say_first<W: Sink>(alloc: Global, out: &mut W, port: u16) -> Result<(), ServerFault>
    ensures ok { OnOk result (Appends (W.contents out.old) (W.contents out.new) (first_line port)) }
    ensures err { OnErr result (Begins (W.contents out.old) (W.contents out.new) (first_line port)) }
    ensures failures { NoFewer (W.failures out.old) (W.failures out.new) }
    ensures cause { IfErr result (IsOfWriting (Failed (W.failures out.old) (W.failures out.new))) }
{
    match format!(in alloc; "listening 127.0.0.1:{port}\n") {
        Ok(line) => say(out, line.as_str()),
        Err(_) => Err(ServerFault::Memory),
    }
}

// Writes what the server came to.
fn say_last<W: Sink>(
    alloc: Global,
    out: &mut W,
    sessions: u32,
    answers: u64,
) -> Result<(), ServerFault>
    ensures ok { OnOk result (Appends (W.contents out.old) (W.contents out.new) (last_line sessions answers)) }
    ensures err { OnErr result (Begins (W.contents out.old) (W.contents out.new) (last_line sessions answers)) }
    ensures failures { NoFewer (W.failures out.old) (W.failures out.new) }
    ensures cause { IfErr result (IsOfWriting (Failed (W.failures out.old) (W.failures out.new))) }
{
    match format!(in alloc; "sessions {sessions} answers {answers}\n") {
        Ok(line) => say(out, line.as_str()),
        Err(_) => Err(ServerFault::Memory),
    }
}

/// Writes a text.
pub(crate) fn say<W: Sink>(out: &mut W, line: &str) -> Result<(), ServerFault>
    ensures ok { OnOk result (Appends (W.contents out.old) (W.contents out.new) line.now) }
    ensures err { OnErr result (Begins (W.contents out.old) (W.contents out.new) line.now) }
    ensures failures { NoFewer (W.failures out.old) (W.failures out.new) }
    ensures cause { IfErr result (IsOfWriting (Failed (W.failures out.old) (W.failures out.new))) }
{
    match write_whole(out, line.as_bytes()) {
        Ok(()) => Ok(()),
        Err(error) => Err(ServerFault::Output(error)),
    }
}

// Serves the listener's connections by workers, with a turner beside them, and adds up what they come back with. The turner's first
// turn goes to this generation. The last turn is made when the workers have ended, if one is due then.
fn serve_all<
    L: Ledger + Send + Sync,
    J: Naming + Send + Sync,
    R: Threads + Wait + Clock + Log + Net + Sync,
    D: Disk + Drop + Send,
    G: Digests + Drop + Send,
>(
    rt: &R,
    alloc: Global,
    book: &BookLock<L, J>,
    mark: Mark<State, Periods, J>,
    logs: &[Mutex<StoreLog<D>>],
    turns: &Turns<D>,
    listener: &TcpListener,
    options: &Options,
    digests: G,
    next: u64,
) -> Result<Totals, ServerFault>
    requires parts { L.parts ≡ 65536 }
    ensures history { OnOk result ((first : StateView) → mark.log ≡ first ∷ [] → mark.made ≡ 0 → HaveOneHistory L J R D.is_honest D.state D.failures D.was_refused G.does digests options.now.tenants.items options.now.workers options.now.connections (length logs.now) next first) }
    ensures fault { IfErr result IsOfServing }
{
    let workers = workers_of(rt, alloc, book, logs, turns, options)?;
    let made = workers_with(rt, alloc, options, workers)?;
    let turner = turner_of(rt, alloc, book, logs, options, digests, next)?;
    let (parts, served) = serve_beside(rt, alloc, turner, logs, turns, listener, options, made);
    match served {
        Ok(served) => {
            let first = Clerk::new(book, mark);
            totals_of(rt, alloc, book, first, Held::new(parts), served)
        }
        Err(fault) => Err(fault),
    }
}

// Serves the listener's connections by these workers, and makes turns beside them. The turner is told when the workers have
// ended, and its parts come back.
fn serve_beside<
    L: Ledger + Send + Sync,
    R: Threads + Wait + Clock + Log + Sync,
    D: Disk + Drop + Send,
    E: Desk<L> + Drop + Send,
    S: Logs + Drop + Send,
    G: Digests + Drop + Send,
    W: Worker + Send,
    M: Looper<W> + Send,
>(
    rt: &R,
    alloc: Global,
    turner: Turner<'_, L, R, E, S, G>,
    logs: &[Mutex<StoreLog<D>>],
    turns: &Turns<D>,
    listener: &TcpListener,
    options: &Options,
    workers: Workers<W, M>,
) -> ((Pass<L>, E, S), Result<Vec<Served<W>>, ServerFault>)
    requires { 0 < count_of workers }
    ensures turner { Leaves E.does D.is_honest D.state D.failures S.does S.logs G.does turner.entry.tenants.now (turner_of turner.entry) (scanner result.0.1 result.0.0.seen result.0.0.share.amount) result.0.2 }
    ensures count { IfOk result.1 (λ served. vec_len served ≡ count_of workers) }
    ensures served { IfOk result.1 (λ served. AreServed W.serves M.leaves workers served.items) }
    ensures fault { IfErr result.1 IsOfServing }
{
    thread::join(
        rt,
        move || -> (Pass<L>, E, S)
            ensures { Leaves E.does D.is_honest D.state D.failures S.does S.logs G.does turner.entry.tenants.now (turner_of turner.entry) (scanner result.1 result.0.seen result.0.share.amount) result.2 }
        { turn_beside(turner, logs, turns, options) },
        move ||
            requires { 0 < count_of workers }
            ensures count { IfOk result (λ served. vec_len served ≡ count_of workers) }
            ensures served { IfOk result (λ served. AreServed W.serves M.leaves workers served.items) }
            ensures fault { IfErr result IsOfServing }
        {
            let served = run_workers(rt, alloc, listener, options, workers);
            turns.end_serving(rt);
            served
        },
    )
}

// A worker's pass, a clerk for it, and the logs with a clerk of their own.
fn opened<'a, L: Ledger, J: Naming, R: Wait + Clock, D: Disk + Drop>(
    rt: &'a R,
    book: &'a BookLock<L, J>,
    logs: &'a [Mutex<StoreLog<D>>],
    worker: u8,
) -> Result<(Pass<L>, Clerk<'a, L, J>, SharedLogs<'a, L, J, R, D>), ServerFault>
    ensures pass { IfOk result (λ r. (r.0.worker ≡ worker) × (r.0.seen ≡ 0) × (r.0.share.amount ≡ 0)) }
    ensures clerk { IfOk result (λ r. (r.1.lock.now ≡ book.now) × (r.1.mark.made ≡ 1)) }
    ensures logs { IfOk result (λ r. (r.2.logs.now ≡ logs.now) × (r.2.book.clerk.lock.now ≡ book.now) × (r.2.book.clerk.mark.made ≡ 0)) }
    ensures fault { IfErr result IsOfServing }
{
    let Some((pass, clerk)) = open_pass(rt, book, worker) else {
        return Err(ServerFault::Passes);
    };
    let Some(own) = open_clerk(rt, book) else {
        return Err(ServerFault::Passes);
    };
    Ok((pass, clerk, SharedLogs::new(rt, own, logs)))
}

// The turner of a store, with a pass of its own: that of worker 0, since a scan changes nothing. Its first turn goes to this
// generation.
fn turner_of<'a, L: Ledger, J: Naming, R: Wait + Clock, D: Disk + Drop, G: Digests + Drop>(
    rt: &'a R,
    alloc: Global,
    book: &'a BookLock<L, J>,
    logs: &'a [Mutex<StoreLog<D>>],
    options: &'a Options,
    digests: G,
    next: u64,
) -> Result<Turner<'a, L, R, Clerk<'a, L, J>, SharedLogs<'a, L, J, R, D>, G>, ServerFault>
    ensures own { IfOk result (λ turner. IsNewTurner (length logs.now) next digests (turner_of turner)) }
    ensures book { IfOk result (λ turner. (turner.desk.lock.now ≡ book.now) × (turner.logs.book.clerk.lock.now ≡ book.now)) }
    ensures logs { IfOk result (λ turner. turner.logs.logs.now ≡ logs.now) }
    ensures tenants { IfOk result (λ turner. turner.tenants.now ≡ options.now.tenants.items) }
    ensures fault { IfErr result IsOfServing }
{
    let (pass, clerk, logs) = opened(rt, book, logs, 0)?;
    Ok(Turner::new(
        rt,
        alloc,
        clerk,
        pass,
        logs,
        options.tenants.as_slice(),
        digests,
        next,
    ))
}

// Makes the turns of a store, if there is one, till serving is over. It gives the turner's parts back.
fn turn_beside<
    L: Ledger,
    R: Wait + Clock + Log,
    E: Desk<L> + Drop,
    S: Logs + Drop,
    G: Digests + Drop,
    D: Disk + Drop,
>(
    mut turner: Turner<'_, L, R, E, S, G>,
    logs: &[Mutex<StoreLog<D>>],
    turns: &Turns<D>,
    options: &Options,
) -> (Pass<L>, E, S)
    ensures { Leaves E.does D.is_honest D.state D.failures S.does S.logs G.does turner.entry.tenants.now (turner_of turner.entry) (scanner result.1 result.0.seen result.0.share.amount) result.2 }
{
    match &options.store {
        Some(place) => {
            turner.run(turns, place, logs);
            turner.into_parts()
        }
        None => turner.into_parts(),
    }
}

// The number of the worker at a place, if so many logs are kept.
fn number_at(logs: usize, place: u8) -> u8
    ensures { result ≡ number_of logs place }
{
    if logs == 0 { 0 } else { place }
}

// The worker at a place, with buffers and a pass, and with a log of its own, if logs are kept.
fn worker_at<'a, L: Ledger, J: Naming, R: Wait + Clock, D: Disk + Drop>(
    rt: &'a R,
    alloc: Global,
    book: &'a BookLock<L, J>,
    logs: &'a [Mutex<StoreLog<D>>],
    turns: &'a Turns<D>,
    tenants: &'a [TenantQuota],
    place: u8,
) -> Result<SessionWorker<'a, L, J, R, D>, ServerFault>
    ensures own { IfOk result (λ one. IsNewWorker (length logs.now) tenants.now place one) }
    ensures wired { IfOk result (λ one. IsWired book.now logs.now turns.now tenants.now one.caller.desk.lock.now one.caller.keeper.logs.book.clerk.lock.now one.caller.keeper.logs.logs.now one.caller.turns.now one.caller.tenants.now) }
    ensures baton { IfOk result (λ one. one.caller.runner.baton.now ≡ book.now.baton) }
    ensures fault { IfErr result IsOfServing }
{
    // They are taken before the first connection: at a limit of memory a session would find none.
    let buffers = SessionBuffers::new(alloc)?;
    let number = number_at(logs.len(), place);
    let (pass, clerk, logs) = opened(rt, book, logs, number)?;
    let keeper = Keeper::new(alloc, logs, number);
    let runner = Runner::new(book.baton(), place);
    let caller = DeskCaller::new(rt, alloc, clerk, pass, keeper, turns, tenants, runner);
    Ok(SessionWorker {
        rt,
        caller,
        buffers,
    })
}

// So many workers as the options say, each with a pass, and with a log of its own, if logs are kept: the one at each
// place is that of the place's number.
fn workers_of<'a, L: Ledger, J: Naming, R: Wait + Clock, D: Disk + Drop>(
    rt: &'a R,
    alloc: Global,
    book: &'a BookLock<L, J>,
    logs: &'a [Mutex<StoreLog<D>>],
    turns: &'a Turns<D>,
    options: &'a Options,
) -> Result<Vec<SessionWorker<'a, L, J, R, D>>, ServerFault>
    ensures workers { IfOk result (λ workers. vec_len workers ≡ options.now.workers) }
    ensures some { IfOk result (λ workers. 0 < vec_len workers) }
    ensures each { IfOk result (λ workers. EachAt workers.items (IsNewWorker (length logs.now) options.now.tenants.items)) }
    ensures wired { IfOk result (λ workers. EachAt workers.items (λ place (one : SessionWorker L J R D). IsWired book.now logs.now turns.now options.now.tenants.items one.caller.desk.lock.now one.caller.keeper.logs.book.clerk.lock.now one.caller.keeper.logs.logs.now one.caller.turns.now one.caller.tenants.now)) }
    ensures fault { IfErr result IsOfServing }
{
    let mut workers = Vec::new(alloc);
    for place in 0..options.workers {
        workers.push(worker_at(
            rt,
            alloc,
            book,
            logs,
            turns,
            options.tenants.as_slice(),
            place,
        )?)?;
    }
    Ok(workers)
}

/// What a turner and the workers come to, whose passes and clerks are given back to the book with a first clerk: the sum of
/// the passes' shares, and that of the workers' counts. The book's history is then known whole. `Memory` and `Passes` (if
/// these are not all passes and all clerks that were given) are the only errors; after either they are lost.
pub fn totals_of<L: Ledger, J: Naming, R: Wait + Clock + Log, D: Disk + Drop>(
    rt: &R,
    alloc: Global,
    book: &BookLock<L, J>,
    first: Clerk<'_, L, J>,
    turner: Held<'_, L, J>,
    served: Vec<Served<SessionWorker<'_, L, J, R, D>>>,
) -> Result<Totals, ServerFault>
    requires parts { L.parts ≡ 65536 }
    requires few { vec_len served < 2 ^ 32 }
    ensures answers { IfOk result (λ totals. totals.answers ≡ turner.entry.pass.share.amount + sum_by (λ (one : Served (SessionWorker L J R D)). one.worker.caller.pass.share.amount) served.entry.items) }
    ensures whole { IfOk result (λ totals. IsWhole (λ (c : Clerk L J). c.mark) (first.entry ∷ turner.entry.clerk ∷ turner.entry.logs ∷ flat_map clerks_in served.entry.items) totals.answers) }
    ensures others { IfOk result (λ totals. totals.others ≡ sum_by (λ (one : Served (SessionWorker L J R D)). one.others) served.entry.items) }
    ensures fault { IfErr result IsOfServing }
{
    let others = others_of(served.as_slice());
    let (passes, clerks) = callers_of(alloc, first, turner, served)?;
    match gather(rt, book, passes, clerks) {
        Ok(answers) => Ok(Totals { answers, others }),
        Err(_) => Err(ServerFault::Passes),
    }
}

// The turner's pass and clerks, and those of the workers, after a first clerk.
fn callers_of<'a, L: Ledger, J: Naming, R: Wait + Clock + Log, D: Disk + Drop>(
    alloc: Global,
    first: Clerk<'a, L, J>,
    turner: Held<'a, L, J>,
    served: Vec<Served<SessionWorker<'a, L, J, R, D>>>,
) -> Result<Callers<'a, L, J>, AllocError>
    ensures passes { IfOk result (λ callers. callers.0.items ≡ turner.entry.pass ∷ map pass_in served.entry.items) }
    ensures clerks { IfOk result (λ callers. callers.1.items ≡ first.entry ∷ turner.entry.clerk ∷ turner.entry.logs ∷ flat_map clerks_in served.entry.items) }
{
    let (mut passes, mut clerks) = (Vec::new(alloc), Vec::new(alloc));
    clerks.push(first)?;
    add(&mut passes, &mut clerks, turner)?;
    for one in served {
        add(&mut passes, &mut clerks, one.worker.into_held())?;
    }
    Ok((passes, clerks))
}

// A pass and two clerks more.
fn add<'a, L: Ledger, J: Naming>(
    passes: &mut Vec<Pass<L>>,
    clerks: &mut Vec<Clerk<'a, L, J>>,
    held: Held<'a, L, J>,
) -> Result<(), AllocError>
    ensures passes { OnOk result (passes.new.items ≡ passes.old.items ++ held.entry.pass ∷ []) }
    ensures clerks { OnOk result (clerks.new.items ≡ clerks.old.items ++ held.entry.clerk ∷ held.entry.logs ∷ []) }
{
    let Held { pass, clerk, logs } = held;
    passes.push(pass)?;
    clerks.push(clerk)?;
    clerks.push(logs)?;
    Ok(())
}
