//! Some hundred pairs of three tenants, with short and long keys, and what is asked of a state that has them.

use super::*;
use mt_rows::{Change, Row, StampedRow, Write, merge};

// A number that looks random.
fn mixed(n: u64) -> u64 {
    let a = (n % 1_000_003) * 2_654_435 + 12_345;
    (a / 7 + a % 8191 * 31) % 1_000_000_007
}

/// The tenant of a pair.
pub fn tenant_of(n: u64) -> u32 {
    match n % 3 {
        0 => 7,
        1 => 8,
        _ => 9,
    }
}

// The key of a pair: some share a long beginning.
fn key_of(rt: &impl Abort, alloc: Global, n: u64) -> Key {
    let shared = mixed(n) % 4 * 61;
    let mut bytes = Vec::from_elem(alloc, 65, shared as usize).expect(rt, "memory");
    let mut rest = n % 1_000_000 + 1;
    for _ in 0..(2 + mixed(n) % 7) {
        assert!(rt; bytes.push((rest % 251) as u8).is_ok());
        rest = rest / 251;
    }
    Key::new(bytes)
}

// The columns of a pair: one to three.
fn columns_of(rt: &impl Abort, alloc: Global, n: u64) -> NamedColumns {
    let mut columns = Vec::new(alloc);
    let count = (1 + n % 3) as u8;
    for index in 0..count {
        let column = Column::from_slice(alloc, &[(n % 256) as u8, index]).expect(rt, "memory");
        assert!(rt; columns.push((index, column)).is_ok());
    }
    NamedColumns::new(columns)
}

fn row_of(rt: &impl Abort, alloc: Global, n: u64) -> Row {
    let change = Change::new(columns_of(rt, alloc, n)).expect(rt, "a change");
    merge(alloc, None, &change).expect(rt, "memory")
}

/// The pairs of these numbers, behind others. The log that puts them gives them their stamps.
pub fn push_pairs(rt: &impl Abort, alloc: Global, pairs: &mut Vec<TenantPair>, from: u64, to: u64) {
    for n in from..to {
        let pair = TenantPair {
            tenant: tenant_of(n),
            key: key_of(rt, alloc, n),
            row: StampedRow {
                stamp: 0,
                row: row_of(rt, alloc, n),
            },
        };
        assert!(rt; pairs.push(pair).is_ok());
    }
}

/// The new pairs that a log was given, behind others.
pub fn push_given(rt: &impl Abort, pairs: &mut Vec<TenantPair>, batch: &Batch) {
    for record in batch.records.as_slice() {
        if let Write::Whole(row) = &record.write {
            let pair = TenantPair {
                tenant: record.tenant,
                key: record.key.clone().expect(rt, "memory"),
                row: StampedRow {
                    stamp: record.stamp,
                    row: row.share().expect(rt, "memory"),
                },
            };
            assert!(rt; pairs.push(pair).is_ok());
        }
    }
}

/// A get of a pair.
pub fn get(rt: &impl Abort, alloc: Global, n: u64) -> Command {
    let columns = ColumnIndexes::new(Vec::new(alloc));
    Command::Get {
        key: key_of(rt, alloc, n),
        columns,
    }
}

/// The row of each of these pairs is found, with the number of the get's first step, since it was placed before.
pub fn expect_pairs(rt: &impl Abort, alloc: Global, state: &mut State, from: u64, to: u64) {
    for n in from..to {
        let answer = run(rt, state, 0, tenant_of(n), get(rt, alloc, n));
        let is_found = is_row_of(rt, alloc, &answer.reply, n);
        assert!(rt; is_found && answer.at == answer.first, "pair {n}");
    }
}

// Whether a reply shows the row of a pair.
fn is_row_of(rt: &impl Abort, alloc: Global, reply: &Reply, n: u64) -> bool {
    let wanted = row_of(rt, alloc, n);
    match reply {
        Reply::Found(found) => found.row.columns() == wanted.columns(),
        _ => false,
    }
}

/// Each of the first pairs has the stamp that is one more than its number.
pub fn expect_stamps(rt: &impl Abort, alloc: Global, state: &mut State, to: u64) {
    for n in 0..to {
        assert!(rt; stamp_of(rt, alloc, state, n) == n + 1, "pair {n}");
    }
}

/// The stamp of a pair, 0 where its key is missing.
pub fn stamp_of(rt: &impl Abort, alloc: Global, state: &mut State, n: u64) -> u64 {
    let answer = run(rt, state, 0, tenant_of(n), get(rt, alloc, n));
    match &answer.reply {
        Reply::Found(found) => found.stamp,
        _ => 0,
    }
}

/// What the put of a pair is told, which may ask for a stamp.
pub fn put_pair(
    rt: &impl Abort,
    alloc: Global,
    state: &mut State,
    n: u64,
    stamp: Option<u64>,
) -> Reply {
    let (key, change) = (key_of(rt, alloc, n), columns_of(rt, alloc, n));
    let command = match stamp {
        Some(stamp) => Command::PutIf { key, stamp, change },
        None => Command::Put { key, change },
    };
    run(rt, state, 0, tenant_of(n), command).reply
}
