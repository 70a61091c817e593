//! The steps of an operation that holds nothing: where it goes down, what a get takes, and what a scan
//! collects.

ghost use Rattle.std.specs.{Prelude.{◌≡◌, ◌≢◌, ◌+◌, ℕ, List, Option, Some, None, IfOk, OnErr, IfSome, IfNone}, Option.option_map};
ghost use Rattle.mt_rows.specs.{Stamps.as_shown, Commands.HasColumns, Limits.ArePairs};
ghost use Rattle.mt_border.specs.{HeldParts.pair_in_parts, Contents.row_of};
ghost use Rattle.mt_held.specs.Moves.{walk_done};
ghost use Rattle.mt_arena.specs.Accesses.{at};
ghost use Rattle.mt_operation.specs.{Tasks.{ask, command_of}, Phases.IsDescent, declared.removal.Removal.{Removal as AnyRemoval}};
ghost use Rattle.mt_operation.specs.{declared.outcome.Outcome.{Outcome as AnyOutcome}, Operations.{SplitsView, ScanView}};
ghost use Rattle.mt_descent.specs.{Pasts.Past, KeptWalks.IsKept};
ghost use Rattle.mt_state.specs.{Promises.IsInTheWay, Notes.columns_asked, Ways.Descends, Phases.{ScanStep, LeadsTo}};
ghost use Rattle.mt_core.specs.Looks.{Looks, LooksAt, MayLook, MayDescend, MaySearch, MayLoad, MayConfirm, MaySnap, MayCompare, MayHop, TellsDescended, TellsSearched, TellsLoaded, TellsConfirmed, TellsSnapped, TellsCompared, TellsHopped};
ghost use Rattle.mt_core.specs.Budgets.{Budget, IsBudget, WalksBy};

use mt_arena::Arena;
use mt_border::PairParts;
use mt_descent::{child, confirm, enter, forward, load, pick, search, verify};
use mt_operation::{Operation, Outcome, Phase, Request, Walk};
use mt_rows::{PairList, Reply, StampedRow};
use mt_scan::{check, hop, snap};
use mt_slices::StoredKey;
use mt_table::Made;
use std::alloc::{AllocError, Global};
use std::mem;

/// Makes the step of this number of an operation that holds nothing, but for a lock; all other steps
/// it leaves to others.
#[inline]
pub(crate) fn look(alloc: Global, arena: &Arena, operation: &mut Operation, step: u64) -> Made
    requires { MayLook operation.old.walk.phase arena.now operation.old }
    ensures { LooksAt operation.old.walk.phase arena.now step operation.old result operation.new }
{
    match operation.walk.phase {
        Phase::Enter => descend(arena, operation, Phase::Enter),
        Phase::Pick => descend(arena, operation, Phase::Pick),
        Phase::Child => descend(arena, operation, Phase::Child),
        Phase::Verify => descend(arena, operation, Phase::Verify),
        Phase::Forward => descend(arena, operation, Phase::Forward),
        Phase::Search => search_key(arena, operation, step),
        Phase::Load => load_row(alloc, arena, operation, step),
        Phase::Confirm => confirm_row(arena, operation),
        Phase::Snap => snap_node(arena, operation, step),
        Phase::Check => check_node(alloc, arena, operation, step),
        Phase::Hop => hop_on(arena, operation),
        _ => Made::Nothing,
    }
}

// Goes down the tree, or on to the next node. A caller that knows the phase names it, so that its step
// is put in the place of the call.
#[inline(always)]
fn descend(arena: &Arena, operation: &mut Operation, phase: Phase) -> Made
    requires phase { phase ≡ operation.old.walk.phase }
    requires may { MayDescend arena.now operation.old }
    ensures { Looks arena.now (TellsDescended arena.now) operation.old result operation.new }
{
    match go_down(arena, &operation.task.key, &mut operation.walk, phase) {
        Some(holder) => Made::Blocked(holder),
        None => Made::Step,
    }
}

// The walk of an operation that goes down.
#[inline(always)]
fn go_down(arena: &Arena, key: &StoredKey, walk: &mut Walk, phase: Phase) -> Option<usize>
    requires phase { phase ≡ walk.old.phase }
    requires descends { IsDescent phase }
    requires kept { (past : Past) × IsKept arena.now past key.now None walk.old }
    ensures again { (s : SplitsView) (rem : AnyRemoval) (g : ScanView) → IfSome result (λ holder. IsInTheWay arena.now walk.old.phase walk.old s rem g holder × (walk.new ≡ walk.old)) }
    ensures leads { (o step : ℕ) (told : Option AnyOutcome) (s : SplitsView) (rem : AnyRemoval) (g : ScanStep) → IfNone result (LeadsTo walk.old.phase arena.now arena.now o step key.now told s rem g walk.old walk.new) }
    ensures goes { IfNone result (Descends walk.old walk.new) }
    ensures nears { (budget : Budget) → IsBudget arena.now budget → (made : ℕ) → IfNone result (WalksBy walk.old.phase budget made arena.now walk.old → WalksBy walk.new.phase budget (made + 1) arena.now walk.new) }
    ensures kept { (past : Past) → IfNone result (IsKept arena.now past key.now None walk.new) }
{
    arena.facts();
    match phase {
        Phase::Enter => enter(arena, key, walk),
        Phase::Pick => {
            pick(arena, key, walk);
            None
        }
        Phase::Child => child(arena, key, walk),
        Phase::Verify => verify(arena, key, walk),
        Phase::Forward => forward(arena, key, walk),
        _ => unreachable!(),
    }
}

// Looks for the key by the step of this number, and notes that it is missing where it is.
fn search_key(arena: &Arena, operation: &mut Operation, step: u64) -> Made
    requires { MaySearch arena.now operation.old }
    ensures { Looks arena.now (TellsSearched arena.now step) operation.old result operation.new }
{
    search(arena, &operation.task.key, &mut operation.walk, step);
    if operation.walk.phase == Phase::Confirm {
        note_missing(&mut operation.outcome, step);
    }
    Made::Step
}

// Notes that a key was missing at this step. It is a call of its own, so that a search that finds its
// key keeps no room for what stood there before.
#[inline(never)]
fn note_missing(noted: &mut Option<Outcome>, step: u64)
    ensures { noted.new ≡ Some (record { reply = Reply.Absent; at = step }) }
{
    *noted = Some(absent(step));
}

// Takes what a get finds in its slot by the step of this number, and notes what it answers where
// nothing changes till it has confirmed it. Where there is no memory for the row that it shows, it is
// done.
fn load_row(alloc: Global, arena: &Arena, operation: &mut Operation, step: u64) -> Made
    requires { MayLoad arena.now operation.old }
    ensures { Looks arena.now (TellsLoaded arena.now step) operation.old result operation.new }
{
    let pair = match load(arena, &operation.task.key, &mut operation.walk) {
        Ok(pair) => pair,
        Err(holder) => return Made::Blocked(holder),
    };
    match shown(alloc, pair, &operation.task.request) {
        Ok(reply) => operation.outcome = told(reply, operation.walk.right_at),
        Err(_) => {
            operation.walk.phase = Phase::Done;
            operation.outcome = Some(no_memory(step));
        }
    }
    Made::Step
}

// Compares the version with the one that was remembered: the get is done, or what it noted is
// forgotten.
fn confirm_row(arena: &Arena, operation: &mut Operation) -> Made
    requires { MayConfirm arena.now operation.old }
    ensures { Looks arena.now (TellsConfirmed arena.now) operation.old result operation.new }
{
    if let Some(holder) = confirm(arena, &operation.task.key, &mut operation.walk) {
        return Made::Blocked(holder);
    }
    if operation.walk.phase != Phase::Done {
        operation.outcome = None;
    }
    Made::Step
}

// Reads the pairs of a scan's border node by the step of this number. Where there is no memory for what
// it sees, the scan is done.
#[inline(never)]
fn snap_node(arena: &Arena, operation: &mut Operation, step: u64) -> Made
    requires { MaySnap arena.now operation.old }
    ensures { Looks arena.now (TellsSnapped arena.now step) operation.old result operation.new }
{
    match snap(
        arena,
        &operation.task,
        &mut operation.walk,
        &mut operation.scan,
    ) {
        Ok(None) => Made::Step,
        Ok(Some(holder)) => Made::Blocked(holder),
        Err(_) => {
            stop(operation, step);
            Made::Step
        }
    }
}

// Compares the version of a scan's border node by the step of this number, and keeps what it has seen
// there. A scan that is done shows what it has collected, or that there was no memory.
#[inline(never)]
fn check_node(alloc: Global, arena: &Arena, operation: &mut Operation, step: u64) -> Made
    requires { MayCompare arena.now operation.old }
    ensures { Looks arena.now (TellsCompared arena.now step) operation.old result operation.new }
{
    match check(
        alloc,
        arena,
        &mut operation.task,
        &mut operation.walk,
        &mut operation.scan,
    ) {
        Ok(None) => {
            // For the proof: its key is a stored one.
            let _bytes = operation.task.key.as_bytes();
            show_at_end(alloc, operation, step);
            Made::Step
        }
        Ok(Some(holder)) => Made::Blocked(holder),
        Err(_) => {
            stop(operation, step);
            Made::Step
        }
    }
}

// A scan that is done shows what it has collected; one that goes on stays as it is.
fn show_at_end(alloc: Global, operation: &mut Operation, step: u64)
    requires { operation.old.walk.phase ≡ Phase.Done → ArePairs operation.old.scan.collected.items }
    ensures shows { operation.old.walk.phase ≡ Phase.Done →
        operation.new ≡ record operation.old { outcome = Some (record { reply = Reply.Pairs operation.old.scan.collected.items; at = step }); scan = operation.new.scan } }
    ensures goes_on { operation.old.walk.phase ≢ Phase.Done → operation.new ≡ operation.old }
    ensures walk { operation.new.walk ≡ operation.old.walk }
{
    if operation.walk.phase != Phase::Done {
        return;
    }
    let collected = mem::replace(&mut operation.scan.collected, Vec::new(alloc));
    let reply = Reply::Pairs(PairList::new(collected));
    operation.outcome = Some(Outcome { reply, at: step });
}

// Goes on behind what a scan has kept.
fn hop_on(arena: &Arena, operation: &mut Operation) -> Made
    requires { MayHop arena.now operation.old }
    ensures { Looks arena.now (TellsHopped arena.now) operation.old result operation.new }
{
    let stop = operation.scan.stop;
    match hop(arena, &operation.task.key, &mut operation.walk, stop) {
        Some(holder) => Made::Blocked(holder),
        None => Made::Step,
    }
}

// A scan is done, since there was no memory at this step.
fn stop(operation: &mut Operation, step: u64)
    ensures { operation.new ≡ record operation.old { walk = walk_done operation.old.walk; outcome = Some (record { reply = Reply.NoMemory; at = step }) } }
{
    operation.walk.phase = Phase::Done;
    operation.outcome = Some(no_memory(step));
}

// What a get answers that took this pair, if it took one: the row as it asks for it, with its stamp. An
// error comes only of a row.
fn shown(
    alloc: Global,
    pair: Option<&PairParts>,
    request: &Request,
) -> Result<Option<Reply>, AllocError>
    requires columns { HasColumns (command_of request.now) }
    ensures reply { IfOk result (λ reply. (asked : List ℕ) → columns_asked (command_of request.now) ≡ Some asked →
        reply ≡ option_map (λ p. Reply.Found (as_shown asked (row_of (pair_in_parts p.now)))) pair.entry) }
    ensures row_on_err { OnErr result (pair.entry ≢ None) }
{
    match (pair, request) {
        (Some(pair), Request::Get { columns, .. }) => {
            let row = pair.row.shown(alloc, columns)?;
            let stamp = pair.stamp;
            Ok(Some(Reply::Found(StampedRow { stamp, row })))
        }
        _ => Ok(None),
    }
}

// The outcome of a get that shows this reply, which is right at this number.
fn told(reply: Option<Reply>, at: u64) -> Option<Outcome>
    ensures { result ≡ option_map (λ r. record { reply = r; at = at }) reply }
{
    match reply {
        Some(reply) => Some(Outcome { reply, at }),
        None => None,
    }
}

/// The outcome of a get whose key was missing at this step.
pub(crate) fn absent(step: u64) -> Outcome
    ensures { result ≡ record { reply = Reply.Absent; at = step } }
{
    Outcome {
        reply: Reply::Absent,
        at: step,
    }
}

/// The outcome of an operation for which there was no memory at this step.
pub(crate) fn no_memory(step: u64) -> Outcome
    ensures { result ≡ record { reply = Reply.NoMemory; at = step } }
{
    Outcome {
        reply: Reply::NoMemory,
        at: step,
    }
}
