//! Rows, commands and tenants.

use self::Asked::{Get, Put, PutIf, Remove, Scan};
use super::*;
use mt_rows::{Change, Command, Key, NamedColumns, PlainMap, RowRoom, Tenants, merge, merge_in};
use std::fmt::Write;

/// A row of one column.
pub fn row_of(rt: &impl Abort, alloc: Global, column: &[u8]) -> Row {
    let column = Vec::from_slice(alloc, column).expect(rt, "memory");
    let column = Column::new(alloc, column).expect(rt, "memory");
    let mut columns = Vec::new(alloc);
    columns.push(column).expect(rt, "memory");
    assert!(rt; Row::fits(&columns));
    Row::new(alloc, columns).expect(rt, "memory")
}

pub fn key_of(rt: &impl Abort, alloc: Global, bytes: &[u8]) -> Key {
    Key::new(Vec::from_slice(alloc, bytes).expect(rt, "memory"))
}

// What is asked of a key, in short.
#[derive(Clone, Copy)]
enum Asked {
    Get(&'static [u8]),
    Put(&'static [(u8, &'static [u8])]),
    PutIf(u64, &'static [(u8, &'static [u8])]),
    Remove,
    Scan(bool, u8),
}

// A tenant's quota, the key and what is asked of it, and what is told.
type Case = (u32, &'static [u8], Asked, &'static str);

// Columns by index.
fn named(alloc: Global, columns: &[(u8, &[u8])]) -> Result<NamedColumns, AllocError> {
    let mut list = Vec::new(alloc);
    for (index, bytes) in columns {
        let bytes = Vec::from_slice(alloc, bytes)?;
        list.push((*index, Column::new(alloc, bytes)?))?;
    }
    Ok(NamedColumns::new(list))
}

fn command_of(alloc: Global, from: Key, asked: Asked) -> Result<Command, AllocError> {
    let mut columns = ColumnIndexes::new(Vec::new(alloc));
    Ok(match asked {
        Get(indexes) => {
            columns = ColumnIndexes::new(Vec::from_slice(alloc, indexes)?);
            Command::Get { key: from, columns }
        }
        Put(list) => Command::Put {
            key: from,
            change: named(alloc, list)?,
        },
        PutIf(stamp, list) => Command::PutIf {
            key: from,
            stamp,
            change: named(alloc, list)?,
        },
        Remove => Command::Remove { key: from },
        Scan(after, count) => Command::Scan {
            from,
            after,
            count,
            columns,
        },
    })
}

// A reply in short: the length of a key, and of a row its stamp and its columns, each behind a bar.
fn push_reply(text: &mut String, reply: &Reply) -> Result<(), AllocError> {
    match reply {
        Reply::Found(found) => {
            write!(text, "{}", found.stamp)?;
            push_row(text, &found.row)
        }
        Reply::Pairs(pairs) => {
            for (key, row) in pairs.as_slice() {
                write!(text, "{}@{}", key.as_bytes().len(), row.stamp)?;
                push_row(text, &row.row)?;
            }
            Ok(())
        }
        _ => write!(text, "{reply:?}"),
    }
}

fn push_row(text: &mut String, row: &Row) -> Result<(), AllocError> {
    for column in row.columns() {
        text.push_str("|")?;
        for byte in column.as_bytes() {
            text.push(char::from(*byte))?;
        }
    }
    Ok(())
}

fn run(
    map: &mut PlainMap,
    alloc: Global,
    quota: u32,
    number: u64,
    command: Command,
) -> Result<Reply, Refusal> {
    command.check()?;
    Ok(map.apply(alloc, quota, number, command)?)
}

// A copy of the command, which is the same, as is the one that is kept in the memory of others.
fn copy_of(rt: &impl Abort, kept: &mut Command, command: &Command) -> Command {
    kept.copy_from(command).expect(rt, "memory");
    assert!(rt; kept.is_same(command));
    let copy = command.copied().expect(rt, "memory");
    assert!(rt; copy.is_same(command) && copy.key() == command.key());
    copy
}

// What was answered is this reply or refusal.
fn is_told(rt: &impl Abort, alloc: Global, answer: &Result<Reply, Refusal>, wanted: &str) {
    let mut told = String::new(alloc);
    let written = match answer {
        Ok(reply) => push_reply(&mut told, reply),
        Err(refusal) => write!(told, "{refusal}"),
    };
    assert!(rt; written.is_ok() && told.as_str() == wanted, "{wanted}");
}

// A copy of the command of this number tells this reply or refusal.
fn tells(
    rt: &impl Abort,
    alloc: Global,
    map: &mut PlainMap,
    kept: &mut Command,
    number: u64,
    case: Case,
) {
    let (quota, key, asked, wanted) = case;
    let command = command_of(alloc, key_of(rt, alloc, key), asked).expect(rt, "memory");
    let answer = run(map, alloc, quota, number, copy_of(rt, kept, &command));
    is_told(rt, alloc, &answer, wanted);
}

const LONG: &[u8] = &[b'v'; 1_025];

// Gaps in a row are empty, and what a put doesn't name is kept; a full tenant replaces and adds nothing. A row is
// stamped with the number of the case that wrote it, counted from 1 on; a put that asks for another stamp changes
// nothing, whether or not there is room.
const CASES: [Case; 22] = [
    (1, b"k", Put(&[(2, b"v")]), "New"),
    (1, b"k", Put(&[(0, b"a")]), "Replaced"),
    (1, b"k", Get(&[]), "2|a||v"),
    (1, b"k", Get(&[0, 2, 5]), "2|a|v|"),
    (1, b"q", Put(&[(0, b"v")]), "Full"),
    (1, b"k", PutIf(1, &[(1, b"b")]), "Stale(2)"),
    (1, b"k", PutIf(2, &[(1, b"b")]), "Replaced"),
    (1, b"k", Get(&[]), "7|a|b|v"),
    (1, b"q", PutIf(0, &[(0, b"v")]), "Full"),
    (1, b"q", PutIf(7, &[(0, b"v")]), "Stale(0)"),
    (1, b"k", Remove, "Removed"),
    (1, b"", Put(&[(0, b"v")]), "New"),
    (3, b"q", PutIf(0, &[(0, b"v")]), "New"),
    (3, b"a", Put(&[(0, b"w")]), "New"),
    (3, b"a", Scan(false, 2), "1@14|w1@13|v"),
    (3, b"a", Scan(true, 5), "1@13|v"),
    (3, &[b'k'; 252], Put(&[(16, LONG)]), "E1"),
    (3, b"k", Put(&[(1, b"v"), (1, b"w")]), "E5"),
    (3, b"k", Put(&[(0, LONG)]), "E6"),
    (3, b"k", PutIf(5, &[(0, LONG)]), "E6"),
    (3, b"k", Get(&[3, 2]), "E5"),
    (3, b"k", Scan(false, 65), "E8"),
];

#[test]
fn commands_are_answered_or_refused(rt: HostRuntime) {
    let mut map = PlainMap::new(rt.alloc());
    let key = key_of(&rt, rt.alloc(), b"");
    let mut kept = Command::Remove { key };
    let mut number = 1u64;
    for case in &CASES {
        tells(&rt, rt.alloc(), &mut map, &mut kept, number, *case);
        number = number.wrapping_add(1);
    }
    assert!(rt; map.len() == 3 && Refusal::NoStore.number() == 20);
}

// Tenants 7 and 8 come; a quota is from 1 to 1,048,576.
fn add_two(rt: &impl Abort, tenants: &mut Tenants) {
    for (tenant, quota, told) in [
        (7, 1_048_577, Err(Refusal::Quota)),
        (7, 1, Ok(())),
        (7, 0, Err(Refusal::TenantThere)),
        (8, 1_048_576, Ok(())),
    ] {
        assert!(rt; tenants.add(tenant, quota) == told);
    }
    assert!(rt; tenants.quota(8) == Ok(1_048_576) && tenants.quota(9) == Err(Refusal::NoTenant(9)));
}

// Tenant 7 counts a pair, which is all it may have, and then none.
fn counts_one(rt: &impl Abort, tenants: &mut Tenants) {
    assert!(rt; tenants.count_new(7));
    assert!(rt; !tenants.count_new(7) && tenants.count(7) == Ok(1));
    tenants.count_removed(7);
    assert!(rt; matches!(tenants.account(7), Some(account) if account.count == 0));
}

#[test]
fn tenants_keep_their_quotas_and_counts(rt: HostRuntime) {
    let mut tenants = Tenants::new(rt.alloc());
    add_two(&rt, &mut tenants);
    counts_one(&rt, &mut tenants);
}

// A change of column 1.
fn change_of(rt: &impl Abort, alloc: Global) -> Change {
    let list = named(alloc, &[(1, b"v")]).expect(rt, "memory");
    Change::new(list).expect(rt, "a change")
}

// The column of the change stands behind that of the row.
fn is_merged(rt: &impl Abort, merged: &Row, row: &Row, change: &Change) {
    assert!(rt; merged.columns().len() == 2 && merged.columns()[0] == row.columns()[0]);
    assert!(rt; change.columns().len() == 1);
}

// A pair that is new is a change, and a row that is found is none.
fn tells_changes(rt: &impl Abort, found: &Reply) {
    assert!(rt; Reply::New.is_change() && !found.is_change() && !Row::fits(&[]));
}

#[test]
fn a_change_merges_and_a_row_is_shared(rt: HostRuntime) {
    let (row, change) = (row_of(&rt, rt.alloc(), b"w"), change_of(&rt, rt.alloc()));
    let merged = merge(rt.alloc(), Some(&row), &change).expect(&rt, "memory");
    is_merged(&rt, &merged, &row, &change);
    let found = StampedRow {
        stamp: 1,
        row: row.share().expect(&rt, "memory"),
    };
    tells_changes(&rt, &Reply::Found(found));
    assert!(rt; change.into_list().as_slice().len() == 1);
}

// Columns by index.
type List = &'static [(u8, &'static [u8])];

// A row by its columns, or none; those that a change names; and the row that it makes.
const MERGES: [(List, List, &str); 5] = [
    (&[], &[(0, b"a"), (1, b"b")], "|a|b"),
    (&[(0, b"x")], &[(0, b"a"), (1, b"b")], "|a|b"),
    (
        &[(0, b"x"), (1, b"y"), (2, b"z")],
        &[(0, b"a"), (1, b"b")],
        "|a|b|z",
    ),
    (&[(0, b"x"), (1, b"y")], &[(0, b"a")], "|a|y"),
    (&[(0, b"x")], &[(3, b"c")], "|x|||c"),
];

// The row that a change makes with all ready for it.
fn merged(rt: &impl Abort, alloc: Global, old: Option<&Row>, list: List) -> Row {
    let list = named(alloc, list).expect(rt, "memory");
    let change = Change::new(list).expect(rt, "a change");
    let change = change.with_row(alloc).expect(rt, "memory");
    let room = RowRoom::new(alloc).expect(rt, "memory");
    merge_in(alloc, &room, old, &change).expect(rt, "memory")
}

#[test]
fn a_row_that_is_ready_serves_rows_that_are_no_longer(rt: HostRuntime) {
    for &(old, list, wanted) in &MERGES {
        let old = match old {
            [] => None,
            old => Some(merged(&rt, rt.alloc(), None, old)),
        };
        let row = merged(&rt, rt.alloc(), old.as_ref(), list);
        let mut told = String::new(rt.alloc());
        let is_written = push_row(&mut told, &row).is_ok();
        assert!(rt; is_written && told.as_str() == wanted, "{wanted}");
    }
}
