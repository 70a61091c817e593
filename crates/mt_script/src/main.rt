//! Reads a script of single node steps from standard input, and writes what each line is answered to
//! standard output.
//!
//! The exit status is 0 at the end of the input, and for `--help`; 1 where reading, writing or a
//! growth failed; 2 for any argument. With 1 and 2 it says on standard error, in one line, what failed
//! and what stands, and prints nothing more.
#![tactic(auto)]

use mt_lines::{Ending, ScriptFault, run_program};
use std::env;
use std::io::{self, BufReader, ErrorKind};
use std::process::ExitCode;

fn main(rt: HostRuntime) -> ExitCode {
    let ending = run(&rt);
    if ending.status() != 0 {
        // Nothing more can be done where standard error fails too; the status says it.
        let _ = eprintln!(rt; "mt_script: {ending}");
    }
    ExitCode::from(ending.status())
}

// Runs the program over its arguments and its standard streams.
fn run(rt: &HostRuntime) -> Ending {
    let words = match arguments(rt) {
        Ok(words) => words,
        Err(error) => {
            if error.kind() == ErrorKind::OutOfMemory {
                return Ending::GivenUp(ScriptFault::Memory);
            }
            return Ending::Misused;
        }
    };
    let Ok(mut reader) = BufReader::new(rt.alloc(), rt.reader()) else {
        return Ending::GivenUp(ScriptFault::Memory);
    };
    run_program(rt.alloc(), &words, &mut reader, &mut io::writer(rt))
}

// The arguments, without the program's own name. Words that are no text are an error.
fn arguments(rt: &HostRuntime) -> io::Result<Vec<String>> {
    let mut words = Vec::new(rt.alloc());
    for word in env::args(rt)?.skip(1) {
        words.push(word)?;
    }
    Ok(words)
}
