//! A store that is only read, to say what it holds and whether it would be served.

ghost use Rattle.std.specs.{Prelude.{◌≡◌, IfOk, IfErr, OnOk, length}, Io.KnownBytes.Appends};
ghost use Rattle.mt_streams.specs.Failures.{Failed, NoFewer};
ghost use Rattle.mt_store_files.specs.Faults.{IsOfFolder};
ghost use Rattle.mt_service.specs.{Faults.IsOfWriting, Verifying.{store_text, store_line, SaysStore, IsOfVerifying}};

use crate::accounts::{accounts_of, rising_tenants};
use crate::faults::ServerFault;
use crate::running::say;
use crate::served_store::{recover_in, told_of};
use log::Log;
use mt_core::State;
use mt_disk::Disk;
use mt_log_generations::Parity;
use mt_options::{Options, TenantQuota};
use mt_pages::PageWalk;
use mt_rows::{Command, PairList, Refusal, Reply};
use mt_slots::Slot;
use mt_store_files::{ReadFolder, StoreFault, StoreFile, StoreFolder, report_on};
use mt_stored::Store;
use mt_streams::Sink;
use std::alloc::{AllocError, Global};
use std::fmt::{self, Write};
use std::fs::File;
use std::rt::Files;
use std::sync::Wait;
use std::time::Clock;

/// How far a store goes, and what it has then. It is printed in one line.
#[derive(Clone, Copy, Debug)]
pub struct StoreReport {
    steps: u64,
    pairs: u64,
    tenants: usize,
}

impl fmt::Display for StoreReport {
    ghost use Rattle.std.specs.Prelude.{Some};
    ghost use Rattle.mt_service.specs.Verifying.{store_text};

    ghost output = { λ report. Some (store_text report.steps report.pairs report.tenants) };

    fn fmt<W: fmt::Write>(&self, f: &mut fmt::Formatter<W>) -> fmt::Result {
        let StoreReport {
            steps,
            pairs,
            tenants,
        } = *self;
        write!(
            f,
            "the store goes up to step {steps}: {pairs} pairs of {tenants} tenants"
        )
    }
}

/// Reads the store of a folder as a start with these options would, and writes nothing to it. It says what each file of the
/// store has that is there, and then how far the store goes, if a start would serve it.
///
/// Errors: those of such a start from this folder; `Memory`; the output's.
pub fn verify_store<R: Files<File = File> + Clock + Log + Wait, W: Sink>(
    rt: &R,
    alloc: Global,
    options: &Options,
    folder: &str,
    out: &mut W,
) -> Result<(), ServerFault>
    ensures ok { OnOk result (SaysStore options.now (W.contents out.old) (W.contents out.new)) }
    ensures fault { IfErr result (IsOfVerifying options.now folder.now (Failed (W.failures out.old) (W.failures out.new))) }
{
    let tenants = accounts_of(alloc, options.tenants.as_slice())?;
    let mut locked = match lock(rt, alloc, folder) {
        Ok(locked) => locked,
        Err(fault) => return Err(told_of(alloc, folder, fault)),
    };
    let files = files_text(rt, alloc, folder, options.workers)?;
    say(out, files.as_str())?;
    match recover_in(rt, alloc, &mut locked, options.workers, tenants) {
        Ok(store) => {
            let _report = say_store(rt, alloc, store, options.tenants.as_slice(), out)?;
            Ok(())
        }
        Err(fault) => Err(told_of(alloc, folder, fault)),
    }
}

// A folder that is only read, locked.
fn lock<R: Files<File = File>>(
    rt: &R,
    alloc: Global,
    folder: &str,
) -> Result<StoreFolder<ReadFolder>, StoreFault>
    ensures { IfErr result IsOfFolder }
{
    StoreFolder::open(rt, alloc, ReadFolder::at(alloc, folder)?)
}

// What is said of the files of both slots and of so many workers, a line for each that is there.
fn files_text<R: Files<File = File>>(
    rt: &R,
    alloc: Global,
    folder: &str,
    workers: u8,
) -> Result<String, AllocError> {
    let mut system = ReadFolder::at(alloc, folder)?;
    let mut text = String::new(alloc);
    for slot in [Slot::First, Slot::Second] {
        add_line(rt, alloc, &mut system, StoreFile::Slot(slot), &mut text)?;
    }
    for worker in 0..usize::from(workers) {
        for file in [
            StoreFile::Log(worker),
            StoreFile::Numbered(worker, Parity::Even),
            StoreFile::Numbered(worker, Parity::Odd),
        ] {
            add_line(rt, alloc, &mut system, file, &mut text)?;
        }
    }
    Ok(text)
}

// Adds the line of a file, if that is there.
fn add_line<R: Files<File = File>>(
    rt: &R,
    alloc: Global,
    system: &mut ReadFolder,
    file: StoreFile,
    text: &mut String,
) -> Result<(), AllocError> {
    match report_on(system, rt, alloc, file) {
        Some(report) => writeln!(text, "{report}").map_err(|_| AllocError),
        None => Ok(()),
    }
}

// Says how far a store of these tenants goes, and how many pairs it has. The report comes back.
fn say_store<R: Wait, D: Disk + Drop, W: Sink>(
    rt: &R,
    alloc: Global,
    store: Store<D>,
    tenants: &[TenantQuota],
    out: &mut W,
) -> Result<StoreReport, ServerFault>
    ensures ok { IfOk result (λ report. Appends (W.contents out.old) (W.contents out.new) (store_line report.steps report.pairs report.tenants)) }
    ensures steps { IfOk result (λ report. report.steps ≡ store.source.state.steps) }
    ensures tenants { IfOk result (λ report. report.tenants ≡ length tenants.now) }
    ensures failures { NoFewer (W.failures out.old) (W.failures out.new) }
    ensures cause { IfErr result (IsOfWriting (Failed (W.failures out.old) (W.failures out.new))) }
{
    let (mut state, _, _) = store.into_parts();
    let steps = state.steps();
    let pairs = count_pairs(rt, alloc, &mut state, tenants)?;
    let report = StoreReport {
        steps,
        pairs,
        tenants: tenants.len(),
    };
    say_report(alloc, report, out)?;
    Ok(report)
}

// Writes the line of a report.
fn say_report<W: Sink>(alloc: Global, report: StoreReport, out: &mut W) -> Result<(), ServerFault>
    ensures ok { OnOk result (Appends (W.contents out.old) (W.contents out.new) (store_line report.steps report.pairs report.tenants)) }
    ensures failures { NoFewer (W.failures out.old) (W.failures out.new) }
    ensures cause { IfErr result (IsOfWriting (Failed (W.failures out.old) (W.failures out.new))) }
{
    match format!(in alloc; "{report}\n") {
        Ok(line) => say(out, line.as_str()),
        Err(_) => Err(ServerFault::Memory),
    }
}

// How many pairs a state has of these tenants, by scans of all of them. They are refused only for want of memory.
fn count_pairs<R: Wait>(
    rt: &R,
    alloc: Global,
    state: &mut State,
    tenants: &[TenantQuota],
) -> Result<u64, AllocError> {
    let mut walk = PageWalk::new(alloc, rising_tenants(alloc, tenants)?);
    let mut pairs: u64 = 0;
    for _ in rt.forever() {
        let Some((tenant, scan)) = walk.next(alloc)? else {
            return Ok(pairs);
        };
        let Ok(page) = scanned(state, tenant, scan) else {
            return Err(AllocError);
        };
        pairs = pairs.saturating_add(walk.take(alloc, &page)?.len() as u64);
    }
    unreachable!()
}

// The pairs that a scan shows of a state that nobody else uses.
fn scanned(state: &mut State, tenant: u32, scan: Command) -> Result<PairList, Refusal> {
    let ticket = state.begin(0, tenant, scan)?;
    let _ = state.run_alone(&ticket);
    let reply = match state.take(ticket) {
        Ok(answer) => answer.reply,
        Err(_) => return Err(Refusal::Memory),
    };
    match reply {
        Reply::Pairs(page) => Ok(page),
        _ => Err(Refusal::Memory),
    }
}
