//! What three tenants are told by the calls of six workers: behind the lock the same as by a book that is owned alone.

use super::asked::Ask::{Get, Put, PutIf, Remove, Scan};
use super::*;
use mt_rows::{Reply, StampedRow};
use mt_runs::Answer;
use std::fmt::Write;

const WORKERS: [u8; 6] = [0, 1, 2, 3, 4, 5];

// A worker, a tenant, a key, and what is asked of it. Then the answer: its first step, the one that places it, its last one,
// and the reply. A row stands in it as its key, its value and its stamp.
const ROWS: [(usize, u32, u8, Ask, &str); 34] = [
    (0, 7, 107, Get, "1 2 3 Absent"),
    (0, 7, 107, Put(118), "4 8 9 New"),
    (0, 7, 107, Get, "10 10 13 107=118@8"),
    (1, 7, 107, Get, "14 14 17 107=118@8"),
    // Each of the other workers puts a key and gets it back.
    (1, 7, 1, Put(1), "18 22 23 New"),
    (2, 7, 2, Put(2), "24 28 29 New"),
    (3, 7, 3, Put(3), "30 34 35 New"),
    (4, 7, 4, Put(4), "36 40 41 New"),
    (5, 7, 5, Put(5), "42 46 47 New"),
    (1, 7, 1, Get, "48 48 51 1=1@22"),
    (2, 7, 2, Get, "52 52 55 2=2@28"),
    (3, 7, 3, Get, "56 56 59 3=3@34"),
    (4, 7, 4, Get, "60 60 63 4=4@40"),
    (5, 7, 5, Get, "64 64 67 5=5@46"),
    // Tenant 8 may have two pairs, tenant 9 three, and tenant 7 more.
    (0, 8, 97, Put(1), "68 72 73 New"),
    (1, 9, 97, Put(2), "74 78 79 New"),
    (0, 8, 98, Put(3), "80 84 85 New"),
    (0, 8, 99, Put(4), "86 90 91 Full"),
    (1, 9, 98, Put(5), "92 96 97 New"),
    (0, 9, 99, Put(6), "98 102 103 New"),
    (0, 9, 100, Put(7), "104 108 109 Full"),
    (1, 7, 108, Put(8), "110 114 115 New"),
    // A stamp that the row doesn't have, one that it has, and none.
    (0, 8, 97, PutIf(84, 9), "116 118 118 Stale(72)"),
    (1, 8, 97, PutIf(72, 9), "119 122 123 Replaced"),
    (0, 8, 97, PutIf(72, 10), "124 126 126 Stale(122)"),
    (1, 8, 97, Get, "127 127 130 97=9@122"),
    (0, 8, 99, PutIf(0, 11), "131 135 136 Full"),
    (1, 8, 98, Remove, "137 140 141 Removed"),
    (0, 8, 99, PutIf(0, 11), "142 146 147 New"),
    (1, 9, 101, Remove, "148 150 150 Absent"),
    // Several pairs, some of them, and none.
    (0, 9, 97, Scan(64), "151 153 153 97=2@78 98=5@96 99=6@102"),
    (1, 9, 98, Scan(1), "154 156 156 98=5@96"),
    (1, 8, 97, Scan(2), "157 159 159 97=9@122 99=11@146"),
    (0, 7, 109, Scan(64), "160 162 162"),
];

fn add_row(words: &mut String, key: &Key, row: &StampedRow) -> Result<(), AllocError> {
    if let ([key], [column]) = (key.as_bytes(), row.row.columns()) {
        if let [value] = column.as_bytes() {
            write!(words, " {key}={value}@{}", row.stamp)?;
        }
    }
    Ok(())
}

// An answer as a row says it.
fn words_of(alloc: Global, answer: &Answer) -> Result<String, AllocError> {
    let mut words = String::new(alloc);
    write!(words, "{} {} {}", answer.first, answer.at, answer.last)?;
    match &answer.reply {
        Reply::Found(row) => add_row(&mut words, answer.command.key(), row)?,
        Reply::Pairs(pairs) => {
            for (key, row) in pairs.as_slice() {
                add_row(&mut words, key, row)?;
            }
        }
        reply => write!(words, " {reply:?}")?,
    }
    Ok(words)
}

// Asks a desk for a row of the table, and compares the answer.
fn tell<L: Ledger, R: Wait + Clock + Abort, D: Desk<L>>(
    rt: &R,
    alloc: Global,
    desk: &mut D,
    pass: &mut Pass<L>,
    row: (usize, u32, u8, Ask, &str),
) {
    let (_, tenant, key, ask, wanted) = row;
    let command = command_of(alloc, key, ask).expect(rt, "memory");
    match call(rt, alloc, desk, pass, tenant, command, &NoGate {}) {
        Ok(answer) => {
            let words = words_of(alloc, &answer).expect(rt, "memory");
            assert_eq!(rt; words.as_str(), wanted, "{tenant}: {ask:?} {key}");
        }
        Err(_) => panic!(rt; "{ask:?} is refused"),
    }
}

// Over a book that is owned alone.
pub(crate) fn tell_alone<L: Ledger, R: Wait + Clock + Abort>(rt: &R, alloc: Global, book: Book<L>) {
    let mut book = book;
    let mut passes = Vec::new(alloc);
    for &worker in &WORKERS {
        let pass = book.open_pass(worker).expect(rt, "a pass");
        passes.push(pass).expect(rt, "memory");
    }
    for row in &ROWS {
        let pass = passes.get_mut(row.0).expect(rt, "a pass");
        tell(rt, alloc, &mut book, pass, *row);
    }
}

// Through a lock. After each call its clerk and another one learn from each other.
pub(crate) fn tell_locked<L: Ledger, J: Naming, R: Wait + Clock + Abort>(
    rt: &R,
    alloc: Global,
    book: &BookLock<L, J>,
) {
    let mut callers = open_all(rt, alloc, book, &WORKERS);
    let mut other = open_clerk(rt, book).expect(rt, "a clerk");
    for row in &ROWS {
        let (pass, clerk) = callers.get_mut(row.0).expect(rt, "a pass");
        tell(rt, alloc, clerk, pass, *row);
        clerk.learn(&other);
        other.learn(clerk);
    }
}

#[test]
fn each_answer_is_told_alone_as_its_row_says(rt: HostRuntime) {
    expect(&rt, rt.alloc(), Case::ToldAlone);
}

#[test]
fn each_answer_is_told_through_a_lock_as_its_row_says(rt: HostRuntime) {
    expect(&rt, rt.alloc(), Case::ToldLocked);
}
