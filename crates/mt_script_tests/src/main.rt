//! Runs each script that lies below the folder it is run in, and compares its answers with the file beside it.
//!
//! In each folder there, NAME.in is a script and NAME.out exactly what it must be answered. Where every
//! script has such a file, every such file has a script, and all answers are right, it prints one line and
//! ends with 0; else it prints a line for each that is wrong, with the first wrong line of its answers, and
//! ends with 1. A folder that could not be read, or an output that failed, ends it at once with 2.
//!
//! It tests `mt_lines` over data, and is a program: where `rt ci` runs one it puts the files of its crate's
//! data/, and where it runs the tests of a crate none.
#![tactic(auto)]

ghost use Rattle.std.specs.Prelude.{◌≡◌, ◌↔◌, ◌<◌, IsTrue};

use mt_lines::run_script;
use std::alloc::Global;
use std::fs::{self, DirEntry};
use std::io::{self, ErrorKind};
use std::process::ExitCode;

fn main(rt: HostRuntime) -> ExitCode {
    let mut tally = Tally::default();
    match run_folders(&rt, &mut tally) {
        Ok(()) => ExitCode::from(tally.status()),
        Err(error) => {
            // Nothing more can be done where standard error fails too; the status says it.
            let _ = eprintln!(rt; "mt_script_tests: {error}");
            ExitCode::from(2)
        }
    }
}

// How many scripts and how many files of answers were found, and how many of both are wrong.
#[derive(Clone, Copy, Debug, Default)]
struct Tally {
    scripts: u64,
    answers: u64,
    wrong: u64,
}

impl Tally {
    // Whether there were scripts, each with its answers, and no answers were left over.
    fn is_right(&self) -> bool
        ensures { IsTrue result ↔ ((self.now.wrong ≡ 0) × (0 < self.now.scripts) × (self.now.scripts ≡ self.now.answers)) }
    {
        self.wrong == 0 && self.scripts > 0 && self.scripts == self.answers
    }

    fn status(&self) -> u8
        ensures { (result ≡ 0) ↔ ((self.now.wrong ≡ 0) × (0 < self.now.scripts) × (self.now.scripts ≡ self.now.answers)) }
    {
        if self.is_right() { 0 } else { 1 }
    }
}

// Runs the scripts of all folders, and says how it went.
fn run_folders(rt: &HostRuntime, tally: &mut Tally) -> io::Result<()> {
    for entry in fs::read_dir(rt, ".")? {
        run_entry(rt, &entry?, tally)?;
    }
    if tally.is_right() {
        return println!(rt; "each script was answered as the file beside it says");
    }
    println!(rt;
        "{} scripts, {} files of answers, {} wrong",
        tally.scripts, tally.answers, tally.wrong
    )
}

// Runs the scripts of a folder. What stands beside the folders is no script.
fn run_entry(
    rt: &HostRuntime,
    entry: &DirEntry<HostRuntime, Global>,
    tally: &mut Tally,
) -> io::Result<()> {
    let name = entry.file_name();
    if entry.file_type()?.is_dir() {
        return run_folder(rt, name, tally);
    }
    // `rt try` puts files of its own here; none of their names has a dot.
    if name.contains('.') {
        tally.wrong = tally.wrong.saturating_add(1);
        println!(rt; "{name} stands in no folder")?;
    }
    Ok(())
}

// Runs the scripts of a folder.
fn run_folder(rt: &HostRuntime, folder: &str, tally: &mut Tally) -> io::Result<()> {
    for file in fs::read_dir(rt, folder)? {
        run_file(rt, file?.path().to_string_lossy(), tally)?;
    }
    Ok(())
}

// Runs a file that is a script, and counts one of answers.
fn run_file(rt: &HostRuntime, path: &str, tally: &mut Tally) -> io::Result<()> {
    if path.ends_with(".out") {
        tally.answers = tally.answers.saturating_add(1);
        return Ok(());
    }
    let Some(name) = path.strip_suffix(".in") else {
        tally.wrong = tally.wrong.saturating_add(1);
        return println!(rt; "{path} is neither a script nor answers");
    };
    tally.scripts = tally.scripts.saturating_add(1);
    match wrong_line(rt, name) {
        Ok(0) => return Ok(()),
        Ok(line) => println!(rt; "{name}.out: line {line} is not what was answered")?,
        Err(error) => println!(rt; "{name}: {error}")?,
    }
    tally.wrong = tally.wrong.saturating_add(1);
    Ok(())
}

// The first line of the answers to NAME.in that isn't as NAME.out has it, 0 where there is none.
fn wrong_line(rt: &HostRuntime, name: &str) -> io::Result<u64> {
    let script = fs::read(rt, format!(in rt.alloc(); "{name}.in")?.as_str())?;
    let wanted = fs::read(rt, format!(in rt.alloc(); "{name}.out")?.as_str())?;
    let mut written = Vec::new(rt.alloc());
    // The reader and the writer are lists, so that nothing but memory can fail.
    if run_script(rt.alloc(), &mut script.as_slice(), &mut written).is_err() {
        return Err(io::Error::from(ErrorKind::OutOfMemory));
    }
    Ok(first_difference(&written, &wanted))
}

// The first line in which two texts differ, counted from 1, and 0 where they are the same.
fn first_difference(one: &[u8], other: &[u8]) -> u64
    ensures { (result ≡ 0) ↔ (one.now ≡ other.now) }
{
    if one == other {
        return 0;
    }
    let same = one
        .iter()
        .zip(other)
        .take_while(|(left, right)| left == right);
    let lines = same.filter(|(left, _)| **left == b'\n').count();
    u64::try_from(lines).unwrap_or(u64::MAX).saturating_add(1)
}
