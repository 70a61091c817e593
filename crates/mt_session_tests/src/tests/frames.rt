//! Requests and replies. Frames: a length of four bytes, and a body. Bytes written as hexadecimal digits.

ghost use Rattle.std.specs.Prelude.{◌≤◌, length};

use super::*;
use mt_rows::{Column, ColumnIndexes, Command, Key, NamedColumns, Refusal};
use mt_wire::{
    EncodeFault, Front, RefusalNumber, Request, WireReply, decode, encode, encode_request,
};

// What is told of bytes that ask, or else of bytes that tell.
fn shown(alloc: Global, asks: bool, bytes: &[u8]) -> Result<String, AllocError> {
    if asks {
        let front = decode(alloc, bytes)?;
        return format!(in alloc; "{front:?}");
    }
    let front = decode_reply(alloc, bytes)?;
    format!(in alloc; "{front:?}")
}

// The frame that is written of what was read of them, nothing where that is no message.
fn again(alloc: Global, asks: bool, bytes: &[u8]) -> Result<Vec<u8>, AllocError> {
    let mut again = Vec::new(alloc);
    if asks {
        if let Front::Whole(request, _) = decode(alloc, bytes)? {
            let _ = encode_request(&request, &mut again);
        }
    } else if let ReplyFront::Whole(reply, _) = decode_reply(alloc, bytes)? {
        let _ = encode(&reply, &mut again);
    }
    Ok(again)
}

fn expect_front(rt: &impl Abort, alloc: Global, asks: bool, bytes: &[u8], text: &str) {
    let shown = shown(alloc, asks, bytes).expect(rt, "memory");
    assert_eq!(rt; shown.as_str(), text);
}

// This is told of these bytes, with and without a byte behind them, and they are written again where they
// are a message; each front of them is less than a frame.
fn expect_frame(rt: &impl Abort, alloc: Global, asks: bool, hex: &str, text: &str) {
    let mut longer = bytes_of(alloc, hex).expect(rt, "bytes");
    for cut in 0..longer.len() {
        expect_front(rt, alloc, asks, &longer[..cut], "Partial");
    }
    expect_front(rt, alloc, asks, &longer, text);
    let again = again(alloc, asks, &longer).expect(rt, "memory");
    let written: &[u8] = if text == "Bad" { b"" } else { &longer };
    assert!(rt; again.as_slice() == written);
    longer.push(0xff).expect(rt, "memory");
    expect_front(rt, alloc, asks, &longer, text);
}

// The last three are past their limits and yet in the grammar: no columns, an index of 16, no pairs.
const REQUESTS: [&str; 14] = [
    "00000005 01 00000007 = Whole(Open(7), 9)",
    "00000005 02 0001 61 00 = Whole(Call(Get { key: Key { bytes: [97] }, columns: ColumnIndexes { indexes: [] } }), 9)",
    "00000007 02 0001 6b 02 00 03 = Whole(Call(Get { key: Key { bytes: [107] }, columns: ColumnIndexes { indexes: [0, 3] } }), 11)",
    "00000009 03 0001 6b 01 00 0001 76 = Whole(Call(Put { key: Key { bytes: [107] }, change: NamedColumns { columns: [(0, Column { bytes: [118] })] } }), 13)",
    "00000004 04 0001 6b = Whole(Call(Remove { key: Key { bytes: [107] } }), 8)",
    "00000006 05 00 0000 02 00 = Whole(Call(Scan { from: Key { bytes: [] }, after: false, count: 2, columns: ColumnIndexes { indexes: [] } }), 10)",
    "00000008 05 01 0001 6b 40 01 0f = Whole(Call(Scan { from: Key { bytes: [107] }, after: true, count: 64, columns: ColumnIndexes { indexes: [15] } }), 12)",
    "00000001 06 = Whole(Settle, 5)",
    "00000005 07 0001 6b 00 = Whole(GetStamped { key: Key { bytes: [107] }, columns: ColumnIndexes { indexes: [] } }, 9)",
    "00000011 08 0001 6b 0000000000000005 01 00 0001 77 = Whole(Call(PutIf { key: Key { bytes: [107] }, stamp: 5, change: NamedColumns { columns: [(0, Column { bytes: [119] })] } }), 21)",
    "0000000d 08 0001 6b ffffffffffffffff 00 = Whole(Call(PutIf { key: Key { bytes: [107] }, stamp: 18446744073709551615, change: NamedColumns { columns: [] } }), 17)",
    "00000005 03 0001 61 00 = Whole(Call(Put { key: Key { bytes: [97] }, change: NamedColumns { columns: [] } }), 9)",
    "00000006 02 0001 61 01 10 = Whole(Call(Get { key: Key { bytes: [97] }, columns: ColumnIndexes { indexes: [16] } }), 10)",
    "00000006 05 00 0000 00 00 = Whole(Call(Scan { from: Key { bytes: [] }, after: false, count: 0, columns: ColumnIndexes { indexes: [] } }), 10)",
];

const REPLIES: [&str; 18] = [
    "00000001 00 = Whole(Opened, 5)",
    "00000001 01 = Whole(Told(Absent), 5)",
    "00000005 02 01 0001 76 = Whole(Told(Found(Row { columns: [Column { bytes: [118] }] })), 9)",
    "00000007 02 02 0000 0001 76 = Whole(Told(Found(Row { columns: [Column { bytes: [] }, Column { bytes: [118] }] })), 11)",
    "00000001 03 = Whole(Told(New), 5)",
    "00000001 04 = Whole(Told(Replaced), 5)",
    "00000001 05 = Whole(Told(Removed), 5)",
    "00000002 06 00 = Whole(Told(Pairs(ShownPairs { pairs: PairList { pairs: [] } })), 6)",
    "00000009 06 01 0001 6b 01 0001 76 = Whole(Told(Pairs(ShownPairs { pairs: PairList { pairs: [(Key { bytes: [107] }, StampedRow { stamp: 0, row: Row { columns: [Column { bytes: [118] }] } })] } })), 13)",
    "00000009 07 0000000000000100 = Whole(Settled(256), 13)",
    "00000001 08 = Whole(Told(Full), 5)",
    "00000001 09 = Whole(Told(NoMemory), 5)",
    "0000000d 0a 0000000000000005 01 0001 76 = Whole(Told(FoundStamped(StampedRow { stamp: 5, row: Row { columns: [Column { bytes: [118] }] } })), 17)",
    "00000009 0b 0000000000000009 = Whole(Told(Stale(9)), 13)",
    "00000009 0b ffffffffffffffff = Whole(Told(Stale(18446744073709551615)), 13)",
    "00000001 81 = Whole(Refused(RefusalNumber { number: 1 }), 5)",
    "00000001 94 = Whole(Refused(RefusalNumber { number: 20 }), 5)",
    "00000001 ff = Whole(Refused(RefusalNumber { number: 127 }), 5)",
];

// A bad length is refused at once, and a bad body when it is whole.
const BAD_REQUESTS: &str = "00000000,00008001,ffffffff,00000001 00,00000001 0f,\
    00000006 02 0001 61 00 00,00000006 05 02 0000 02 00,00000004 02 0001 61,00000004 04 0002 61,00000004 01 000007,\
    00000008 03 0001 6b 02 00 0000,00000002 06 00,00000004 07 0001 6b,0000000c 08 0001 6b 0000000000000005,\
    00000009 08 0001 6b 01 00 0001 77";

const BAD_REPLIES: &str = "00000000,00104783,ffffffff,00000001 0c,00000001 80,\
    00000002 00 00,00000002 02 00,00000004 02 01 0001,0000000a 07 0000000000000100 00,\
    00000001 0a,00000009 0a 0000000000000005,0000000a 0a 0000000000000005 00,00000001 0b,0000000a 0b 0000000000000005 00,\
    0000000e 06 02 0001 6b 01 0000 0001 6b 01 0000,0000000e 06 02 0001 6b 01 0000 0001 6a 01 0000";

#[test]
fn each_frame_is_read_and_written_as_its_bytes_or_refused(rt: HostRuntime) {
    for (asks, good, bad) in [
        (true, REQUESTS.as_slice(), BAD_REQUESTS),
        (false, REPLIES.as_slice(), BAD_REPLIES),
    ] {
        for row in good {
            let (hex, text) = row.split_once(" = ").expect(&rt, "a row has two parts");
            expect_frame(&rt, rt.alloc(), asks, hex, text);
        }
        for hex in bad.split(',') {
            expect_frame(&rt, rt.alloc(), asks, hex, "Bad");
        }
    }
}

#[test]
fn a_refusal_is_told_by_its_number(rt: HostRuntime) {
    for (refusal, number) in [
        (Refusal::Memory, 2),
        (Refusal::Column, 5),
        (Refusal::ScanCount, 8),
        (Refusal::WrongTurn(9), 11),
        (Refusal::BadFrame, 16),
        (Refusal::NotOpen, 17),
        (Refusal::OpenTwice, 18),
        (Refusal::NoStore, 20),
    ] {
        let mut out = Vec::new(rt.alloc());
        assert!(rt; encode(&WireReply::refused(refusal), &mut out).is_ok());
        assert_eq!(rt; out.as_slice(), [0, 0, 0, 1, 0x80 + number].as_slice());
        assert_eq!(rt; RefusalNumber::of(refusal).get(), number);
    }
}

#[test]
fn a_message_is_read_up_to_its_limits(rt: HostRuntime) {
    let alloc = rt.alloc();
    // A key for a body of 32,768 bytes, 16 columns, 1,024 bytes, 64 pairs; and one more of each.
    for (asks, front, unit, times, is_whole) in [
        (true, "04 7ffd", "6b", 32_765, true),
        (true, "04 7ffe", "6b", 32_766, false),
        (false, "02 10", "0000", 16, true),
        (false, "02 11", "0000", 17, false),
        (false, "0a 0000000000000005 10", "0000", 16, true),
        (false, "0a 0000000000000005 11", "0000", 17, false),
        (false, "02 01 0400", "00", 1_024, true),
        (false, "02 01 0401", "00", 1_025, false),
        (false, "06 40", "0001 ee 01 0000", 64, true),
        (false, "06 41", "0001 ee 01 0000", 65, false),
    ] {
        let frame = framed(alloc, front, unit, times).expect(&rt, "bytes");
        let again = again(alloc, asks, &frame).expect(&rt, "memory");
        let want = if is_whole { frame.as_slice() } else { b"" };
        assert!(rt; again.as_slice() == want, "{front}");
    }
}

// A get of this many columns.
fn get_of(alloc: Global, columns: u32) -> Option<Command> {
    let columns = ColumnIndexes::new(many(alloc, "00", columns)?);
    let key = Key::new(Vec::new(alloc));
    Some(Command::Get { key, columns })
}

// A remove of a key of this many bytes.
fn remove_of(alloc: Global, key: u32) -> Option<Command> {
    let key = Key::new(many(alloc, "6b", key)?);
    Some(Command::Remove { key })
}

// A put of a column of this many bytes.
fn put_of(alloc: Global, column: u32) -> Option<Command> {
    let column = Column::new(alloc, many(alloc, "76", column)?).ok()?;
    let mut change = Vec::new(alloc);
    change.push((0, column)).ok()?;
    let change = NamedColumns::new(change);
    let key = Key::new(Vec::new(alloc));
    Some(Command::Put { key, change })
}

// Whether a call is written, or refused as too long.
fn is_written(command: Option<Command>, spellable: bool, out: &mut Vec<u8>) -> bool {
    let Some(command) = command else {
        return false;
    };
    let request = Request::Call(command);
    let told = match encode_request(&request, out) {
        Ok(()) => spellable,
        Err(EncodeFault::Long) => !spellable,
        Err(EncodeFault::Memory) => false,
    };
    told && request.is_spellable() == spellable
}

#[test]
fn a_request_without_a_spelling_is_not_written(rt: HostRuntime) {
    let alloc = rt.alloc();
    // How many columns a get has, how many bytes the key of a remove, how many the column of a put; and how many
    // bytes are written of the three, if each has a spelling.
    for (columns, key, column, len) in [
        (256, 32_766, 65_536, 0),
        (255, 32_765, 32_761, (4 + 259) + (4 + 32_768) + (4 + 32_768)),
    ] {
        let mut out = Vec::from_slice(alloc, b"before").expect(&rt, "memory");
        assert!(rt; is_written(get_of(alloc, columns), len > 0, &mut out));
        assert!(rt; is_written(remove_of(alloc, key), len > 0, &mut out));
        assert!(rt; is_written(put_of(alloc, column), len > 0, &mut out));
        assert!(rt; out.starts_with(b"before") && out.len() == 6 + len);
    }
}

/// The frame of a body: its front, and so many times a unit; none as `bytes_of`.
pub fn framed(alloc: Global, front: &str, unit: &str, times: u32) -> Option<Vec<u8>> {
    let (front, rest) = (bytes_of(alloc, front)?, many(alloc, unit, times)?);
    let len = u32::try_from(front.len().saturating_add(rest.len())).ok()?;
    let len = len.to_be_bytes();
    let parts = [len.as_slice(), &front, &rest];
    parts.as_slice().concat(alloc).ok()
}

/// How many bytes the first frame of these has, of those that are there.
pub fn front_len(bytes: &[u8]) -> usize
    ensures { result ≤ length bytes.now }
{
    if bytes.len() < 4 {
        return bytes.len();
    }
    let body = u32::from_be_bytes([bytes[0], bytes[1], bytes[2], bytes[3]]);
    bytes.len().min((body as usize).saturating_add(4))
}

/// The bytes that words of pairs of hexadecimal digits write; none where a word is no such one, or where memory is refused.
pub fn bytes_of(alloc: Global, text: &str) -> Option<Vec<u8>> {
    let mut bytes = Vec::new(alloc);
    for word in text.split(' ') {
        let more = hex::decode(alloc, word).ok()?;
        bytes.extend_from_slice(&more).ok()?;
    }
    Some(bytes)
}

/// So many times a unit, in which `ee` stands for its number; none as `bytes_of`.
pub fn many(alloc: Global, unit: &str, times: u32) -> Option<Vec<u8>> {
    let unit = bytes_of(alloc, unit)?;
    let mut bytes = Vec::new(alloc);
    for number in 0..times {
        for byte in &unit {
            let number = (number % 256) as u8;
            bytes.push(if *byte == 0xee { number } else { *byte }).ok()?;
        }
    }
    Some(bytes)
}
