//! Commands as bytes to what they ask, and replies to how they are told: at every cut, and with a byte after each command.

use super::*;
use mt_resp::{
    Asked, COMMAND_BYTES, COMMAND_WORDS, Failure, Fault, Front, Shape, Told, decode, meaning_of,
    picked, write_told,
};

// What is read, in short: words with commas between them, and how many bytes spell them.
fn shown(alloc: Global, bytes: &[u8]) -> Result<String, AllocError> {
    let (words, len) = match decode(alloc, bytes)? {
        Front::Partial => return format!(in alloc; "more"),
        Front::Bad(fault) => return format!(in alloc; "{fault:?}"),
        Front::Whole(words, len) => (words, len),
    };
    let mut text = String::new(alloc);
    for word in words.into_vec() {
        text.push_str(str::from_utf8(&word.into_bytes()).unwrap_or("?"))?;
        text.push(',')?;
    }
    format!(in alloc; "{text}{len}")
}

fn expect_read(rt: &impl Abort, alloc: Global, bytes: &[u8], text: &str) {
    let shown = shown(alloc, bytes).expect(rt, "memory");
    assert_eq!(rt; shown.as_str(), text);
}

// A command: each beginning of it is less than one, and what follows it is left.
fn expect_command(rt: &impl Abort, alloc: Global, spelling: &str, text: &str) {
    let bytes = spelling.as_bytes();
    for cut in 0..bytes.len() {
        expect_read(rt, alloc, &bytes[..cut], "more");
    }
    expect_read(rt, alloc, bytes, text);
    let mut longer = Vec::from_slice(alloc, bytes).expect(rt, "memory");
    longer.push(0).expect(rt, "memory");
    expect_read(rt, alloc, &longer, text);
}

// As client libraries, a proxy, a load generator and a typed line send them.
const COMMANDS: [&str; 6] = [
    "*2\r\n$3\r\nget\r\n$1\r\na\r\n => get,a,20",
    "*3\r\n$3\r\nSET\r\n$1\r\nk\r\n$0\r\n\r\n => SET,k,,26",
    "*2\r\n$4\r\nECHO\r\n$2\r\n\r\n\r\n => ECHO,\r\n,22",
    "*0\r\n => 4",
    "  SET\tp1 1 \n => SET,p1,1,12",
    "a*2\n => a*2,4",
];

const BAD: [&str; 7] = [
    "*1\r\n$03\r\nget\r\n => Spelling",
    "*-1\r\n => Spelling",
    "*1\r\n$3\r\nget\n => Spelling",
    "GET \"a\"\r\n => Spelling",
    "GET \0\r\n => Spelling",
    "*1025\r\n => ManyWords",
    "*1\r\n$65537\r\n => Long",
];

#[test]
fn commands_are_read_at_every_cut_or_refused(rt: HostRuntime) {
    for row in COMMANDS {
        let (spelling, text) = row.split_once(" => ").expect(&rt, "a row has two parts");
        expect_command(&rt, rt.alloc(), spelling, text);
    }
    for row in BAD {
        let (bytes, fault) = row.split_once(" => ").expect(&rt, "a row has two parts");
        expect_read(&rt, rt.alloc(), bytes.as_bytes(), fault);
    }
}

// A line of so many times the same bytes.
fn many(alloc: Global, count: usize, piece: &[u8]) -> Result<Vec<u8>, AllocError> {
    let mut bytes = Vec::new(alloc);
    for _ in 0..count {
        bytes.extend_from_slice(piece)?;
    }
    bytes.push(10)?;
    Ok(bytes)
}

#[test]
fn limits_hold_however_the_bytes_come(rt: HostRuntime) {
    let words = many(rt.alloc(), COMMAND_WORDS + 1, b"w ").expect(&rt, "memory");
    expect_read(&rt, rt.alloc(), &words, "ManyWords");
    let most = many(rt.alloc(), COMMAND_BYTES - 1, b" ").expect(&rt, "memory");
    expect_read(&rt, rt.alloc(), &most, "65536");
    let mut line = many(rt.alloc(), COMMAND_BYTES, b" ").expect(&rt, "memory");
    expect_read(&rt, rt.alloc(), &line, "Long");
    line.truncate(COMMAND_BYTES);
    expect_read(&rt, rt.alloc(), &line, "Long");
    line.truncate(COMMAND_BYTES - 1);
    expect_read(&rt, rt.alloc(), &line, "more");
}

// What is told, or else what is asked.
fn asked_by(alloc: Global, line: &str) -> Result<String, AllocError> {
    let line = format!(in alloc; "{line}\n")?;
    let Front::Whole(words, _) = decode(alloc, line.as_bytes())? else {
        return format!(in alloc; "no command");
    };
    match meaning_of(alloc, &words)? {
        Asked::Told(told) => text_of(alloc, &told),
        asked => format!(in alloc; "{asked:?}"),
    }
}

// What a client is told, without the last end of a line.
fn text_of(alloc: Global, told: &Told) -> Result<String, AllocError> {
    let mut out = Vec::new(alloc);
    write_told(told, &mut out)?;
    let text = str::from_utf8(&out).unwrap_or("?");
    format!(in alloc; "{}", text.trim_end())
}

fn expect_asked(rt: &impl Abort, alloc: Global, line: &str, text: &str) {
    let asked = asked_by(alloc, line).expect(rt, "memory");
    assert_eq!(rt; asked.as_str(), text, "{line}");
}

const KEPT: [&str; 15] = [
    "get k => Call(Get { key: Key { bytes: [107] }, columns: ColumnIndexes { indexes: [] } }, Value)",
    "set k v NX => Call(PutIf { key: Key { bytes: [107] }, stamp: 0, change: NamedColumns { columns: [(0, Column { bytes: [118] })] } }, PutIf)",
    "set k v ifstamp 7 => Call(PutIf { key: Key { bytes: [107] }, stamp: 7, change: NamedColumns { columns: [(0, Column { bytes: [118] })] } }, PutIf)",
    "set k v xx => Change(Key { bytes: [107] }, Put(NamedColumns { columns: [(0, Column { bytes: [118] })] }, There, false))",
    "append k v => Change(Key { bytes: [107] }, Append(Word { bytes: [118] }))",
    "incrby k -5 => Change(Key { bytes: [107] }, Add(0, Down(5)))",
    "getdel k => Take(Key { bytes: [107] })",
    "mset k v => All(CommandList { commands: [Put { key: Key { bytes: [107] }, change: NamedColumns { columns: [(0, Column { bytes: [118] })] } }] }, Put)",
    "hset k 1 a 0 b 1 v => Call(Put { key: Key { bytes: [107] }, change: NamedColumns { columns: [(0, Column { bytes: [98] }), (1, Column { bytes: [118] })] } }, PutCounted(2))",
    "hmget k 1 0 => Pick(Get { key: Key { bytes: [107] }, columns: ColumnIndexes { indexes: [] } }, ColumnIndexes { indexes: [1, 0] })",
    "select 4294967295 => Select(4294967295)",
    "scan 7 count 5 match a* => Scan { cursor: 7, pattern: Some(Word { bytes: [97, 42] }), count: 5 }",
    "range k 9 after stamps => Range { from: Key { bytes: [107] }, way: After, count: 9, stamps: true }",
    "dbsize => Status(Count)",
    "GET / HTTP/1.1 => Close",
];

const TOLD: [&str; 11] = [
    " => ",
    "ping => +PONG",
    "Frob\u{7f} x => -ERR unknown command 'frob?'",
    "GET => -ERR wrong number of arguments for 'get' command",
    "set k v keepttl => -ERR nothing expires here",
    "set k v xx nx => -ERR syntax error",
    "incrby k 01 => -ERR value is not an integer or out of range",
    "hset k 16 v => -ERR a field is the index of a column, 0 to 15",
    "auth secret => -ERR there are no passwords here; SELECT the tenant",
    "hello 3 => -NOPROTO unsupported protocol version",
    "multi => -ERR no transactions here; send a pipeline without MULTI",
];

#[test]
fn each_command_asks_or_is_told(rt: HostRuntime) {
    for row in KEPT.iter().chain(TOLD.iter()) {
        let (line, text) = row.split_once(" => ").expect(&rt, "a row has two parts");
        expect_asked(&rt, rt.alloc(), line, text);
    }
}

// A row of these columns, by stamp 7.
fn found(alloc: Global, columns: &[&str]) -> Result<Reply, AllocError> {
    let mut list = Vec::new(alloc);
    for column in columns {
        list.push(Column::from_slice(alloc, column.as_bytes())?)?;
    }
    if !Row::fits(&list) {
        return Ok(Reply::Absent);
    }
    let row = Row::new(alloc, list)?;
    Ok(Reply::Found(StampedRow { stamp: 7, row }))
}

fn expect_told(rt: &impl Abort, alloc: Global, told: Told, text: &str) {
    let told = text_of(alloc, &told).expect(rt, "memory");
    assert_eq!(rt; told.as_str(), text);
}

// Of the row `v`, ``, `w`, and of no row.
const OF_ROWS: [(Shape, &str); 8] = [
    (Shape::Value, "$1\r\nv|$-1"),
    (Shape::Stamped, "*2\r\n$1\r\nv\r\n:7|$-1"),
    (Shape::Column(2), "$1\r\nw|$-1"),
    (
        Shape::Fields,
        "*6\r\n$1\r\n0\r\n$1\r\nv\r\n$1\r\n1\r\n$0\r\n\r\n$1\r\n2\r\n$1\r\nw|*0",
    ),
    (Shape::Length, ":1|:0"),
    (Shape::ColumnLength(1), ":0|:0"),
    (Shape::HasColumn(3), ":0|:0"),
    (Shape::Kind, "+hash|+none"),
];

#[test]
fn a_row_is_told_in_each_shape(rt: HostRuntime) {
    for (shape, texts) in OF_ROWS {
        let (text, none) = texts.split_once("|").expect(&rt, "a row has two parts");
        let row = found(rt.alloc(), &["v", "", "w"]).expect(&rt, "memory");
        expect_told(&rt, rt.alloc(), shape.told(row), text);
        expect_told(&rt, rt.alloc(), shape.told(Reply::Absent), none);
    }
    let row = found(rt.alloc(), &["v"]).expect(&rt, "memory");
    expect_told(&rt, rt.alloc(), Shape::Kind.told(row), "+string");
    let indexes = Vec::from_slice(rt.alloc(), &[1, 0]).expect(&rt, "memory");
    let row = found(rt.alloc(), &["v"]).expect(&rt, "memory");
    let told = picked(row, ColumnIndexes::new(indexes));
    expect_told(&rt, rt.alloc(), told, "*2\r\n$-1\r\n$1\r\nv");
}

#[test]
fn a_change_or_none_is_told(rt: HostRuntime) {
    for (shape, reply, text) in [
        (Shape::PutIf, Reply::Stale(3), "$-1"),
        (Shape::Changed, Reply::Replaced, ":1"),
        (Shape::Changed, Reply::Stale(0), ":0"),
        (Shape::PutCounted(2), Reply::New, ":2"),
        (Shape::Removed, Reply::Removed, ":1"),
        (
            Shape::Put,
            Reply::NoMemory,
            "-OOM no memory; nothing changed",
        ),
    ] {
        expect_told(&rt, rt.alloc(), shape.told(reply), text);
    }
    let device = Told::Failed(Failure::Refused(Refusal::Device));
    expect_told(&rt, rt.alloc(), device, "-MISCONF E10 the disk failed");
    let spelling = Told::Failed(Failure::Protocol(Fault::Spelling));
    expect_told(&rt, rt.alloc(), spelling, "-ERR Protocol error");
}
