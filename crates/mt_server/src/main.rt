//! Serves the maps of many tenants over 127.0.0.1, or says what a store on disk holds.
//!
//! The exit status is 0 at the end of its sessions, for a store that would be served, and for `--help` and `--version`; 1 if a socket, a
//! device, memory or the output failed; 2 if an option or a tenant is refused; 3 if the store is. With 1
//! to 3 it says on standard error what failed, and what to do.
#![tactic(auto)]

use log::sink::Console;
use log::{Level, Logged, warn};
use mt_book::Names;
use mt_command_line::{OptionsFault, read_options, remedy};
use mt_service::{FolderDigests, OpenStore, ServerFault, open_store, run_server, verify_store};
use std::env::{self, Env, FillError};
use std::io::{self, ErrorKind};
use std::marker::Brand;
use std::process::ExitCode;

fn main(rt: HostRuntime) -> ExitCode {
    let words = match arguments(&rt) {
        Ok(words) => words,
        Err(error) if error.kind() == ErrorKind::OutOfMemory => {
            return ExitCode::from(OptionsFault::Memory.tell(&rt));
        }
        Err(_) => return no_text(&rt),
    };
    let options = match read_options(rt.alloc(), words.as_slice()) {
        Ok(options) => options,
        Err(fault) => return ExitCode::from(fault.tell(&rt)),
    };
    let mut out = io::writer(&rt);
    if let Some(folder) = &options.verify {
        let said = verify_store(&rt, rt.alloc(), &options, folder.as_str(), &mut out);
        return ended(&rt, said.map(|()| 0));
    }
    // The folder stays locked up to the end.
    let OpenStore {
        store,
        mut folder,
        listener,
    } = match open_store(&rt, rt.alloc(), &options) {
        Ok(opened) => opened,
        Err(fault) => return ended(&rt, Err(fault)),
    };
    let names = Names::new(store.state());
    let end = run_server::<Brand, Brand, _, _, _, _>(
        &rt,
        rt.alloc(),
        names,
        listener,
        &options,
        store,
        FolderDigests::new(&rt, rt.alloc(), &mut folder),
        &mut out,
    );
    ended(&rt, end.map(|ending| ending.others))
}

// All words of the command line. Words that are no text are an error.
fn arguments(rt: &HostRuntime) -> io::Result<Vec<String>> {
    Ok(env::args(rt)?.collect(rt.alloc())?)
}

// Says which word of the command line is no text, and gives the exit status.
fn no_text(rt: &HostRuntime) -> ExitCode {
    // Nothing more can be done if standard error fails too; the status says it.
    let _ = match first_no_text(rt) {
        Some(place) => eprintln!(rt; "mt_server: word {place} of the command line is no text"),
        None => eprintln!(rt; "mt_server: a word of the command line is no text"),
    };
    ExitCode::from(2)
}

// The first word that is no text, counted from the program's name, which is word 0. A word of more than 4,096 bytes
// isn't looked at.
fn first_no_text(rt: &HostRuntime) -> Option<usize> {
    let mut room = [0u8; 4096];
    for place in 0..usize::MAX {
        match rt.arg(place, &mut room) {
            Ok(len) if str::from_utf8(&room[..len]).is_err() => return Some(place),
            Ok(_) | Err(FillError::TooLong) => {}
            Err(FillError::NotPresent) => return None,
        }
    }
    None
}

// Says how the server ended, where that isn't as all should, and gives the exit status.
fn ended(rt: &HostRuntime, end: Result<u64, ServerFault>) -> ExitCode {
    let fault = match end {
        Ok(others) => {
            if others != 0 {
                let logged = Logged::new(rt, Level::Warn, Console(rt));
                warn!(logged; "{others} sessions ended otherwise than by the end of their requests");
            }
            return ExitCode::SUCCESS;
        }
        Err(fault) => fault,
    };
    // Nothing more can be done where standard error fails too; the status says it.
    let _ = match &fault {
        ServerFault::Refused(refusal) => eprintln!(rt;
            "mt_server: {refusal}: {}",
            remedy(*refusal)
        ),
        _ => eprintln!(rt; "mt_server: {fault}"),
    };
    ExitCode::from(fault.status())
}
