//! Lines with what each must be answered: those that are none, and the longest that are one.
//!
//! Whole scripts are data, in `mt_script_tests`.
//! Readers and writers that fail, and what the program is given: how it ends, and what it prints.

use mt_lines::{Ending, run_program, run_script};
use std::alloc::{AllocError, Global};
use std::io::{self, ErrorKind, Read, Write};
use std::process::Abort;

// A script is answered like this, in a session of its own.
fn expect_answers(rt: &impl Abort, alloc: Global, what: &str, script: &[u8], wanted: &str) {
    let mut reader = script;
    let mut written = Vec::new(alloc);
    let is_whole = run_script(alloc, &mut reader, &mut written).is_ok();
    expect_bytes(rt, what, is_whole, &written, wanted);
}

fn expect_bytes(rt: &impl Abort, what: &str, is_whole: bool, written: &[u8], wanted: &str) {
    assert!(rt; is_whole && written == wanted.as_bytes(), "{what}");
}

// Scripts, and their answers behind ` => `. A line that is none changes nothing, so that one script has several of them. More begins
// that are bad or refused are a script of `mt_script_tests`.
const SINGLE_LINES: [&str; 33] = [
    " => ",
    "\n\r\n# a comment\n => ",
    "  => bad line\n",
    " # no comment\n => bad line\n",
    "\r => bad line\n",
    "shape\r\n => tree - layer 0\n  border 0\n",
    "  shape   => tree - layer 0\n  border 0\n",
    "shape\r => bad line\n",
    "shape 1\nshape\t\nShape\n => bad line\nbad line\nbad line\n",
    "tenant  7   100\n => ok\n",
    "tenant 007 0100\n => ok\n",
    "tenant 4294967295 1\ntenant 4294967296 1\n => ok\nbad line\n",
    "tenant +7 100\ntenant -7 100\ntenant 7\ntenant 7 1 1\n => bad line\nbad line\nbad line\nbad line\n",
    "tenant 7 0\ntenant 7 1048577\ntenant 7 1048576\ntenant 7 0\n => refused E7\nrefused E7\nok\nrefused E3\n",
    "begin 1 8 get 61\ntenant 8 5\n => refused E4\nbad line\n",
    "begin 1 8 get\ntenant 8 5\n => bad line\nok\n",
    "step 1\nrun 1\nuntil 1 enter\n => none\nnone\nnone\n",
    "step 0\nstep 1000000\nstep 999999\n => bad line\nbad line\nnone\n",
    "step\nstep 1 1\nrun\nrun x\nuntil 1\n => bad line\nbad line\nbad line\nbad line\nbad line\n",
    "until 1 Enter\nuntil 1 fills\nuntil 1 fill\nuntil 1 unlock\n => bad line\nbad line\nnone\nnone\n",
    "tenant 7 5\nbegin 1 7 put Fe 0=aBcD\nrun 1\nbegin 1 7 get fE 0\nrun 1\n => ok\nbegun 1\ndone new\nbegun 1\ndone found 0=abcd\n",
    "tenant 7 5\nbegin 1 7 put Fe 0=76 1=\nrun 1\nbegin 1 7 scan fe 01\nrun 1\nbegin 1 7 scan fe 1 after\nrun 1\n \
    => ok\nbegun 1\ndone new\nbegun 1\ndone pairs 1 fe:0=76,1=\nbegun 1\ndone pairs 0\n",
    "tenant 7 5\nbegin 1 7 put 61 0=76\nrun 1\nbegin 1 7 remove 61\nrun 1\nbegin 1 7 remove 61\nrun 1\nbegin 1 7 get 61\nrun 1\n \
    => ok\nbegun 1\ndone new\nbegun 1\ndone removed\nbegun 1\ndone absent\nbegun 1\ndone absent\n",
    "tenant 7 5\nbegin 1 7 get 61\nbegin 1 7 get 61\nrun 1\nrun 1\n => ok\nbegun 1\nbad line\ndone absent\nnone\n",
    "tenant 7 5\nbegin 1 7 put 61 0=\nbegin 2 7 put 62 0=\nbegin 2 9 put 62 0=\nrun 1\nbegin 2 7 put 62 0=\nrun 2\n \
    => ok\nbegun 1\nbegun 2\nbad line\ndone new\nbad line\ndone new\n",
    "tenant 7 5\nbegin 1 9 put 61 0=\nbegin 1 7 put 61 0=\nrun 1\n => ok\nrefused E4\nbegun 1\ndone new\n",
    "tenant 7 5\nbegin 1 7 put 6b 0=76 2=78\nrun 1\nbegin 1 7 gets 6b\nrun 1\nbegin 1 7 gets 6B 2\nrun 1\nbegin 1 7 get 6b 2\nrun 1\n \
    => ok\nbegun 1\ndone new\nbegun 1\ndone found@5 0=76,1=,2=78\nbegun 1\ndone found@5 2=78\nbegun 1\ndone found 2=78\n",
    "tenant 7 5\nbegin 1 7 put 6b 0=76\nrun 1\nbegin 1 7 gets 6b\nbegin 2 7 get 6b\nrun 1\nrun 2\nbegin 1 7 get 6b\nrun 1\n \
    => ok\nbegun 1\ndone new\nbegun 1\nbegun 2\ndone found@5 0=76\ndone found 0=76\nbegun 1\ndone found 0=76\n",
    "tenant 7 5\nbegin 1 7 put 6b 0=76\nrun 1\nbegin 1 7 gets 6b\nrun 1\nbegin 1 7 putif 6b 5 0=77\nrun 1\nbegin 1 7 putif 6b 5 0=78\nrun 1\n \
    => ok\nbegun 1\ndone new\nbegun 1\ndone found@5 0=76\nbegun 1\ndone replaced\nbegun 1\ndone stale 14\n",
    "tenant 7 1\nbegin 1 7 putif 6c 0 0=76\nrun 1\nbegin 1 7 putif 6d 3 0=76\nrun 1\nbegin 1 7 putif 6d 00 0=76\nrun 1\n \
    => ok\nbegun 1\ndone new\nbegun 1\ndone stale 0\nbegun 1\ndone full\n",
    "\u{0}\n\u{ff}\n => bad line\nbad line\n",
    "step 1 # no comment\nrun 1 => bad line\nnone\n",
    "begin 2 8 get 61\nbegin 2 8 scan - 1\n => refused E4\nrefused E4\n",
];

#[test]
fn single_lines(rt: HostRuntime) {
    for row in SINGLE_LINES {
        let (script, wanted) = row.split_once(" => ").expect(&rt, "a row has two parts");
        expect_answers(&rt, rt.alloc(), row, script.as_bytes(), wanted);
    }
}

// Adds a byte, others up to so many bytes in all, and an end.
fn push_long(
    script: &mut Vec<u8>,
    first: u8,
    other: u8,
    count: usize,
    end: &str,
) -> Result<(), AllocError> {
    script.push(first)?;
    for _ in 1..count {
        script.push(other)?;
    }
    script.extend_from_slice(end.as_bytes())
}

// Such a script is answered like this.
fn expect_long(rt: &impl Abort, alloc: Global, row: &LongRow) {
    let (first, other, count, end, wanted) = *row;
    let mut script = Vec::new(alloc);
    push_long(&mut script, first, other, count, end).expect(rt, "memory");
    let what = format!(in alloc; "{row:?}").expect(rt, "memory");
    expect_answers(rt, alloc, what.as_str(), &script, wanted);
}

// The first byte, the others, how many they are in all, what follows them, and what is answered.
type LongRow = (u8, u8, usize, &'static str, &'static str);

const EMPTY_TREE: &str = "tree - layer 0\n  border 0\n";

const BEHIND_A_LONG_ONE: &str = "bad line\ntree - layer 0\n  border 0\n";

const LONG_LINES: [LongRow; 10] = [
    // As long as a line may be, a byte more, and a line behind a long one.
    (b' ', b'x', 65_536, "\n", "bad line\n"),
    (b' ', b'x', 65_537, "\r\n", "bad line\n"),
    (b' ', b'x', 200_000, "\nshape\n", BEHIND_A_LONG_ONE),
    // Comments: one a byte too long, a line behind a long one, and a long one without an end.
    (b'#', b'x', 65_537, "\n", ""),
    (b'#', b'x', 200_000, "\r\nshape\n", EMPTY_TREE),
    (b'#', b'x', 200_000, "", ""),
    // The longest line and a space more, with an end and without one: spaces count, and the end doesn't.
    (b' ', b' ', 65_531, "shape\r\n", EMPTY_TREE),
    (b' ', b' ', 65_532, "shape\r\n", "bad line\n"),
    (b' ', b' ', 65_531, "shape", EMPTY_TREE),
    (b' ', b' ', 65_532, "shape", "bad line\n"),
];

#[test]
fn long_lines(rt: HostRuntime) {
    for row in &LONG_LINES {
        expect_long(&rt, rt.alloc(), row);
    }
}

// A reader of a text that gives a byte at a time and fails at the read of this number.
#[derive(Drop)]
struct FailingReader<'a> {
    left: &'a [u8],
    until_fault: usize,
}

impl Read for FailingReader<'_> {
    fn read(&mut self, buf: &mut [u8]) -> io::Result<usize> {
        if self.until_fault == 0 {
            return Err(io::Error::from(ErrorKind::Other));
        }
        self.until_fault -= 1;
        let Some((first, others)) = self.left.split_first() else {
            return Ok(0);
        };
        if buf.is_empty() {
            return Ok(0);
        }
        buf[0] = *first;
        self.left = others;
        Ok(1)
    }
}

// A writer into a list that takes at most so many bytes at a time and fails at the write of this number.
#[derive(Drop)]
struct FailingWriter {
    written: Vec<u8>,
    most: usize,
    until_fault: usize,
}

impl Write for FailingWriter {
    fn write(&mut self, buf: &[u8]) -> io::Result<usize> {
        if self.until_fault == 0 {
            return Err(io::Error::from(ErrorKind::Other));
        }
        self.until_fault -= 1;
        let count = buf.len().min(self.most);
        let (front, _) = buf.split_at(count);
        self.written.extend_from_slice(front)?;
        Ok(count)
    }

    fn flush(&mut self) -> io::Result<()> {
        Ok(())
    }
}

const SCRIPT: &str = "tenant 7 100\nbegin 1 7 put 6b 0=76\nrun 1\nbegin 2 7 get 6b\nrun 2";

const NO_FAULT: &str = "nothing failed; the answers printed stand";

const ANSWERS: &str = "ok\nbegun 1\ndone new\nbegun 2\ndone found 0=76\n";

// The program ends with this status, and says this.
fn expect_ending(rt: &impl Abort, alloc: Global, ending: &Ending, status: u8, said: &str) {
    let line = ending.to_string(alloc).expect(rt, "memory");
    assert_eq!(rt; (ending.status(), line.as_str()), (status, said));
}

// The answers that are printed are the first ones, as many whole lines as this.
fn expect_front(rt: &impl Abort, written: &[u8], lines: usize) {
    assert!(rt; ANSWERS.as_bytes().starts_with(written));
    assert_eq!(rt; lines_in(written), lines);
}

// How many lines end in these bytes.
fn lines_in(bytes: &[u8]) -> usize {
    bytes.iter().filter(|byte| **byte == b'\n').count()
}

// Runs the script where so many reads succeed. All lines that were read to their end are answered, and no other.
fn expect_reads(rt: &impl Abort, alloc: Global, reads: usize) {
    let mut reader = FailingReader {
        left: SCRIPT.as_bytes(),
        until_fault: reads,
    };
    let mut written = Vec::new(alloc);
    let ending = run_program(alloc, &[], &mut reader, &mut written);
    if reads > SCRIPT.len() {
        expect_ending(rt, alloc, &ending, 0, NO_FAULT);
        return assert!(rt; written.as_slice() == ANSWERS.as_bytes());
    }
    let said = "reading failed: other error; the answers printed stand";
    expect_ending(rt, alloc, &ending, 1, said);
    let (read, _) = SCRIPT.as_bytes().split_at(reads);
    expect_front(rt, &written, lines_in(read));
}

#[test]
fn each_read_fails_in_turn(rt: HostRuntime) {
    for reads in 0..SCRIPT.len() + 2 {
        expect_reads(&rt, rt.alloc(), reads);
    }
}

// What is printed where so many writes succeed, of at most so many bytes each: one write is a byte, or a line.
fn expect_write_fault(rt: &impl Abort, alloc: Global, most: usize, writes: usize) {
    let said =
        "writing failed: other error; what was printed stands, and its last answer may be cut";
    let mut reader = SCRIPT.as_bytes();
    let mut writer = FailingWriter {
        written: Vec::new(alloc),
        most,
        until_fault: writes,
    };
    let ending = run_program(alloc, &[], &mut reader, &mut writer);
    expect_ending(rt, alloc, &ending, 1, said);
    let written = writer.written.as_slice();
    if most == 1 {
        assert!(rt; ANSWERS.as_bytes().starts_with(written) && written.len() == writes);
    } else {
        expect_front(rt, written, writes);
    }
}

#[test]
fn each_write_fails_in_turn(rt: HostRuntime) {
    // Bytes that are taken at a time, and writes that succeed.
    for (most, all) in [(100, [0, 1, 4].as_slice()), (1, &[0, 2, 5, 43])] {
        for writes in all {
            expect_write_fault(&rt, rt.alloc(), most, *writes);
        }
    }
}

fn push_words(
    words: &mut Vec<String>,
    alloc: Global,
    arguments: &[&str],
) -> Result<(), AllocError> {
    for argument in arguments {
        words.push(String::from_str(alloc, *argument)?)?;
    }
    Ok(())
}

// What the program does with the arguments: its status, what it says, and what it prints.
fn expect_program(
    rt: &impl Abort,
    alloc: Global,
    arguments: &[&str],
    (status, said, printed): (u8, &str, &str),
) {
    let mut words = Vec::new(alloc);
    push_words(&mut words, alloc, arguments).expect(rt, "memory");
    let mut reader = SCRIPT.as_bytes();
    let mut written = Vec::new(alloc);
    let ending = run_program(alloc, &words, &mut reader, &mut written);
    expect_ending(rt, alloc, &ending, status, said);
    assert!(rt; written.as_slice() == printed.as_bytes(), "{printed}");
}

#[test]
fn arguments(rt: HostRuntime) {
    let refused = "no argument is taken but --help; usage: mt_script < SCRIPT";
    // (the arguments, the status, what is said, what is printed)
    let cases: [(&[&str], u8, &str, &str); 5] = [
        (&[], 0, NO_FAULT, ANSWERS),
        (&["--help"], 0, NO_FAULT, "usage: mt_script < SCRIPT\n"),
        (&["-h"], 2, refused, ""),
        (&["script.in"], 2, refused, ""),
        (&["--help", "--help"], 2, refused, ""),
    ];
    for (arguments, status, said, printed) in cases {
        expect_program(&rt, rt.alloc(), arguments, (status, said, printed));
    }
}
