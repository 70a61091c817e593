//! Worked sessions over plain maps, over a state and over a book: however their bytes are cut, whatever read or write fails, with
//! interruptions, and with a client that waits for each reply. How many writes a session takes. Several sessions
//! over one state, and over the same buffers.

ghost use Rattle.mt_state.specs.Begins.{HaveNoPairs};

use super::books::{Booked, Restored};
use super::rows::{COMMAND_STAMPS, LAST_ROWS, ROWS, STEP_STAMPS};
use super::ways::{Way, name_of, session, wrong_row};
use super::*;
use bytes::BytesMut;
use mt_alone::serve_tenants;
use mt_rows::{PlainMap, Tenants};
use mt_session::{PlainCaller, PlainTenant, SessionBuffers, Stop, answer, serve_with};
use mt_streams::{Sink, Source};
use std::test::Fail;

// Tenants 7 and 8, without pairs, of which the first may have a hundred and the second one.
fn plain_tenants(alloc: Global) -> Result<PlainCaller, AllocError> {
    let mut tenants = Vec::new(alloc);
    for (tenant, quota) in [(7, 100), (8, 1)] {
        tenants.push(PlainTenant {
            tenant,
            quota,
            map: PlainMap::new(alloc),
        })?;
    }
    Ok(PlainCaller::new(tenants))
}

// Sessions over plain maps.
struct Plain;

impl TestServer for Plain {
    fn serve_new<R: Source, W: Sink>(&self, alloc: Global, reader: &mut R, writer: &mut W) -> End {
        match plain_tenants(alloc) {
            Ok(mut caller) => serve(alloc, reader, writer, &mut caller),
            Err(_) => Err(ServeFault::Memory),
        }
    }
}

/// The same tenants, for a state.
pub(crate) fn two_tenants(alloc: Global) -> Tenants
    ensures { HaveNoPairs result }
{
    let mut tenants = Tenants::new(alloc);
    let _ = tenants.add(7, 100);
    let _ = tenants.add(8, 1);
    tenants
}

// Sessions over a state.
struct Stated;

impl TestServer for Stated {
    fn serve_new<R: Source, W: Sink>(&self, alloc: Global, reader: &mut R, writer: &mut W) -> End {
        match serve_tenants(alloc, reader, writer, two_tenants(alloc)) {
            Ok((_, ended)) => ended,
            Err(_) => Err(ServeFault::Memory),
        }
    }
}

// All rows are told in this way, over each.
fn expect_rows<T: Wait + Clock + Log + Abort>(rt: &T, alloc: Global, way: Way) {
    assert_eq!(rt; wrong_row(&Plain, alloc, &ROWS, way), None);
    assert_eq!(rt; wrong_row(&Stated, alloc, &ROWS, way), None);
    let booked = Booked { rt, steps: 0 };
    assert_eq!(rt; wrong_row(&booked, alloc, &ROWS, way), None);
}

#[test]
fn each_row_however_it_is_cut_and_whatever_fails(rt: HostRuntime) {
    expect_rows(&rt, rt.alloc(), Way::InPieces);
    expect_rows(&rt, rt.alloc(), Way::WithFaults);
}

#[test]
fn no_command_ends_once_all_numbers_are_given(rt: HostRuntime) {
    let alloc = rt.alloc();
    for &(steps, row) in &LAST_ROWS {
        for way in [Way::InPieces, Way::WithFaults] {
            assert_eq!(&rt; wrong_row(&Restored { steps }, alloc, &[row], way), None);
            let booked = Booked { rt: &rt, steps };
            assert_eq!(&rt; wrong_row(&booked, alloc, &[row], way), None);
        }
    }
}

// A row's stamp is the number of a command, or of a step.
#[test]
fn a_stamp_is_shown_where_it_is_asked_for_and_met_once(rt: HostRuntime) {
    let alloc = rt.alloc();
    for way in [Way::InPieces, Way::WithFaults] {
        assert_eq!(&rt; wrong_row(&Plain, alloc, &[COMMAND_STAMPS], way), None);
        assert_eq!(&rt; wrong_row(&Stated, alloc, &[STEP_STAMPS], way), None);
        let booked = Booked { rt: &rt, steps: 0 };
        assert_eq!(&rt; wrong_row(&booked, alloc, &[STEP_STAMPS], way), None);
    }
}

#[test]
fn an_interruption_ends_no_session(rt: HostRuntime) {
    expect_rows(&rt, rt.alloc(), Way::Interrupted);
}

#[test]
fn each_reply_is_written_before_the_next_request_is_read(rt: HostRuntime) {
    expect_rows(&rt, rt.alloc(), Way::InTurns);
}

// What calls of `answer` tell, a request each, of bytes that come cut in two; none where memory is refused.
fn told_by_calls(alloc: Global, asked: &[u8], cut: usize) -> Option<Vec<u8>> {
    let mut caller = plain_tenants(alloc).ok()?;
    let (mut input, mut output) = (BytesMut::new(alloc), BytesMut::new(alloc));
    let (mut told, mut opened) = (Vec::new(alloc), false);
    let (front, rest) = asked.split_at(cut.min(asked.len()));
    for piece in [front, rest] {
        input.extend_from_slice(piece).ok()?;
        for _ in 0..asked.len() + 1 {
            match answer(
                alloc,
                &mut caller,
                &mut opened,
                &mut input,
                &mut output,
                &mut told,
                1,
            ) {
                Ok(Stop::Full) => {}
                Ok(Stop::Waits) => break,
                _ => return Some(told),
            }
        }
    }
    Some(told)
}

#[test]
fn calls_tell_what_a_session_tells(rt: HostRuntime) {
    let alloc = rt.alloc();
    for &text in &ROWS {
        let row = row_of(alloc, text).expect(&rt, "row");
        for cut in 0..row.asked.len() + 1 {
            let told = told_by_calls(alloc, &row.asked, cut).expect(&rt, "memory");
            assert!(rt; told.as_slice() == row.told.as_slice(), "{text} {cut}");
        }
    }
}

// Tenant 7 is opened.
const OPEN_7: [u8; 9] = [0, 0, 0, 5, 1, 0, 0, 0, 7];

// A put and a thousand gets of a row, in one read: their replies have 58 bytes each, and are told by one
// write; or 1,008, of which 66 don't fit into 65,536 bytes, which are written before more is answered.
#[test]
fn answers_are_written_together_up_to_a_mark(rt: HostRuntime) -> Result<(), Fail> {
    let alloc = rt.alloc();
    for (front, size, writes) in [
        ("03 0001 6b 01 00 0032", 50, 1),
        ("03 0001 6b 01 00 03e8", 1_000, 16),
    ] {
        let put = framed(alloc, front, "76", size).expect(&rt, "bytes");
        let gets = many(alloc, "00000005 02 0001 6b 00", 1_000).expect(&rt, "bytes");
        let asked = [OPEN_7.as_slice(), &put, &gets].as_slice().concat(alloc)?;
        let (writer, ended) = session(&Plain, alloc, &asked, [65_536, ALL, 2, ALL]);
        assert_eq!(rt; ended, "closed");
        assert_eq!(rt; writer.calls.good.saturating_add(writes), ALL);
        assert_eq!(rt; writer.text.len(), 10 + 1_000 * (8 + size as usize));
    }
    Ok(())
}

// Sixty-four puts of rows of 1,024 bytes, and a scan of all: its reply of 65,926 bytes is longer than the
// output, and is told whole.
#[test]
fn a_reply_longer_than_the_output_is_told_whole(rt: HostRuntime) -> Result<(), Fail> {
    let alloc = rt.alloc();
    let mut asked = Vec::from_slice(alloc, &OPEN_7)?;
    for key in 0..64u8 {
        let front = format!(in alloc; "03 0001 {key:02x} 01 00 0400")?;
        let put = framed(alloc, front.as_str(), "76", 1_024).expect(&rt, "bytes");
        asked.extend_from_slice(&put)?;
    }
    let scan = bytes_of(alloc, "00000006 05 00 0000 40 00").expect(&rt, "bytes");
    asked.extend_from_slice(&scan)?;
    let (writer, ended) = session(&Plain, alloc, &asked, [ALL, ALL, ALL, ALL]);
    assert_eq!(rt; ended, "closed");
    assert_eq!(rt; writer.text.len(), 5 * 65 + 65_926);
    let (_, reply) = writer.text.as_slice().split_at(5 * 65);
    assert!(rt; matches!(decode_reply(alloc, reply), Ok(ReplyFront::Whole(_, 65_926))));
    Ok(())
}

// Removes of keys that are too long, by a frame of 32,768 bytes and by the longest one, whose body has as many. They come in
// several reads. Each is answered, and so is a get behind them.
#[test]
fn the_longest_requests_are_answered_and_what_follows(rt: HostRuntime) -> Result<(), Fail> {
    let alloc = rt.alloc();
    let long = framed(alloc, "04 7ff9", "6b", 32_761).expect(&rt, "bytes");
    let longest = framed(alloc, "04 7ffd", "6b", 32_765).expect(&rt, "bytes");
    let get = bytes_of(alloc, "00000005 02 0001 6b 00").expect(&rt, "bytes");
    let parts = [OPEN_7.as_slice(), &long, &longest, &get];
    let asked = parts.as_slice().concat(alloc)?;
    let told = bytes_of(alloc, "00000001 00 00000001 81 00000001 81 00000001 01");
    let told = told.expect(&rt, "bytes");
    for size in [1, 1_000, 7_000, ALL] {
        let server = Booked { rt: &rt, steps: 0 };
        let (writer, ended) = session(&server, alloc, &asked, [size, size, ALL, ALL]);
        assert!(rt; writer.text.as_slice() == told.as_slice(), "{size}");
        assert_eq!(rt; ended, "closed");
    }
    Ok(())
}

// A session over these buffers, in which so many writes go well: what it told, and the name of its end.
fn over(
    rt: &impl Abort,
    alloc: Global,
    buffers: &mut SessionBuffers,
    (asked, writes): (&str, usize),
) -> (Vec<u8>, &'static str) {
    let asked = bytes_of(alloc, asked).expect(rt, "bytes");
    let mut caller = plain_tenants(alloc).expect(rt, "memory");
    let (mut reader, mut writer) = streams(alloc, &asked, [ALL, ALL, ALL, writes]);
    let ended = serve_with(alloc, buffers, &mut reader, &mut writer, &mut caller);
    (writer.text, name_of(&ended))
}

// Sessions that leave half a frame in the input, a reply in the output, and what is no frame; behind each of
// them one that opens a tenant and gets a key.
#[test]
fn a_session_finds_nothing_of_the_one_before_it(rt: HostRuntime) {
    let alloc = rt.alloc();
    let mut buffers = SessionBuffers::new(alloc).expect(&rt, "memory");
    for (asked, writes, end) in [
        ("00000005 01 00000007 00000005 02 0001", ALL, "cut"),
        ("00000005 01 00000007", 0, "write"),
        ("00000005 01 00000007 00000000 0001", ALL, "refused"),
    ] {
        assert_eq!(rt; over(&rt, alloc, &mut buffers, (asked, writes)).1, end);
        let next = ("00000005 01 00000007 00000005 02 0001 6b 00", ALL);
        let (told, ended) = over(&rt, alloc, &mut buffers, next);
        let wanted = bytes_of(alloc, "00000001 00 00000001 01").expect(&rt, "bytes");
        assert!(rt; told.as_slice() == wanted.as_slice());
        assert_eq!(rt; ended, "closed");
    }
}

// A frame, and so many times another one, as `many`; none as `bytes_of`.
fn frames(alloc: Global, first: &str, unit: &str, times: u32) -> Option<Vec<u8>> {
    let (first, more) = (bytes_of(alloc, first)?, many(alloc, unit, times)?);
    let parts = [first.as_slice(), &more];
    parts.as_slice().concat(alloc).ok()
}

// One session more over a state: a tenant is opened, and so many times this is asked and told.
fn expect_more(
    rt: &impl Abort,
    alloc: Global,
    alone: &mut Alone,
    (tenant, asks, tells, times): (&str, &str, &str, u32),
) {
    let open = format!(in alloc; "00000005 01 {tenant}").expect(rt, "memory");
    let asked = frames(alloc, open.as_str(), asks, times).expect(rt, "bytes");
    let told = frames(alloc, "00000001 00", tells, times).expect(rt, "bytes");
    let (mut reader, mut writer) = streams(alloc, &asked, [100, 100, ALL, ALL]);
    let ended = serve_alone(alloc, &mut reader, &mut writer, alone);
    assert!(rt; writer.text.as_slice() == told.as_slice());
    assert_eq!(rt; name_of(&ended), "closed");
}

// Eighty puts of tenant 7 make a tree of many nodes; another session reads them all, and one of tenant 8 none.
#[test]
fn a_session_reads_what_another_one_wrote(rt: HostRuntime) {
    let alloc = rt.alloc();
    let mut alone = Alone::of_tenants(alloc, two_tenants(alloc)).expect(&rt, "memory");
    let (put, get) = (
        "00000009 03 0001 ee 01 00 0001 ee",
        "00000005 02 0001 ee 00",
    );
    for session in [
        ("00000007", put, "00000001 03", 80),
        ("00000007", get, "00000005 02 01 0001 ee", 80),
        ("00000008", "00000005 02 0001 07 00", "00000001 01", 1),
    ] {
        expect_more(&rt, alloc, &mut alone, session);
    }
}
