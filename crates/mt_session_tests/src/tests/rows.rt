//! Worked sessions: what is asked, what is told, and how each ends.

use super::*;

/// Sessions over new tenants 7 and 8, of which the first may have a hundred pairs and the second one.
pub const ROWS: [&str; 21] = [
    // nothing
    "> > closed",
    // Open 7 and a get of `a`, whole and cut
    "00000005 01 00000007 00000005 02 0001 61 00 > 00000001 00 00000001 01 > closed",
    "00000005 01 00000007 00000005 02 00 > 00000001 00 > cut",
    "0000 > > cut",
    // a put without columns and a Settle before Open
    "00000005 03 0001 61 00 00000001 06 > 00000001 91 00000001 91 > closed",
    // a put of `k`, a get of it, a put over it, a Settle
    "00000005 01 00000007 00000009 03 0001 6b 01 00 0001 76 00000005 02 0001 6b 00 \
    00000009 03 0001 6b 01 00 0001 77 00000001 06 \
    > 00000001 00 00000001 03 00000005 02 01 0001 76 00000001 04 00000001 94 > closed",
    // a get before Open; a tenant that isn't in the list, a Settle, and a tenant that is; a second Open
    "00000005 02 0001 61 00 00000005 01 00000009 00000001 06 00000005 01 00000008 00000005 02 0001 61 00 00000005 01 00000007 \
    > 00000001 91 00000001 84 00000001 91 00000001 00 00000001 01 00000001 92 > closed",
    // tenant 8 may have one pair
    "00000005 01 00000008 00000009 03 0001 6b 01 00 0001 76 00000009 03 0001 6c 01 00 0001 76 00000005 02 0001 6c 00 \
    > 00000001 00 00000001 03 00000001 08 00000001 01 > closed",
    // two keys of the same first eight bytes
    "00000005 01 00000007 00000012 03 000a 61616161616161616162 01 00 0001 76 \
    00000012 03 000a 61616161616161616163 01 00 0001 77 0000000e 02 000a 61616161616161616162 00 \
    > 00000001 00 00000001 03 00000001 03 00000005 02 01 0001 76 > closed",
    // a length past the longest, with nothing behind it
    "00008001 > 00000001 90 > refused",
    // a length of 0, a body of no kind, a byte behind a body, a scan that starts at neither, each before a Settle
    "00000005 01 00000007 00000000 00000001 06 > 00000001 00 00000001 90 > refused",
    "00000005 01 00000007 00000001 0f 00000001 06 > 00000001 00 00000001 90 > refused",
    "00000005 01 00000007 00000006 02 0001 61 00 00 00000001 06 > 00000001 00 00000001 90 > refused",
    "00000005 01 00000007 00000006 05 02 0000 02 00 00000001 06 > 00000001 00 00000001 90 > refused",
    // a bad body that isn't whole
    "00000005 01 00000007 00000002 0f > 00000001 00 > cut",
    // a scan of no pairs, a put, a scan, a remove twice, a second Open
    "00000005 01 00000007 00000006 05 00 0000 02 00 00000009 03 0001 6b 01 00 0001 76 00000006 05 00 0000 02 00 \
    00000004 04 0001 6b 00000004 04 0001 6b 00000005 01 00000007 \
    > 00000001 00 00000002 06 00 00000001 03 00000009 06 01 0001 6b 01 0001 76 00000001 05 00000001 01 00000001 92 > closed",
    // a put without columns, a scan of no pairs; the session goes on
    "00000005 01 00000007 00000005 03 0001 61 00 00000006 05 00 0000 00 00 00000005 02 0001 61 00 \
    > 00000001 00 00000001 85 00000001 88 00000001 01 > closed",
    // scans that are shown all pairs, those after a key, and as many as are asked for
    "00000005 01 00000007 00000009 03 0001 6b 01 00 0001 76 00000009 03 0001 6a 01 00 0001 75 \
    00000006 05 00 0000 02 00 00000007 05 01 0001 6a 02 00 00000006 05 00 0000 01 00 \
    > 00000001 00 00000001 03 00000001 03 00000010 06 02 0001 6a 01 0001 75 0001 6b 01 0001 76 \
    00000009 06 01 0001 6b 01 0001 76 00000009 06 01 0001 6a 01 0001 75 > closed",
    // puts on condition that their key is missing, and of a stamp where none stands; a get that shows no stamp
    "00000005 01 00000007 00000011 08 0001 6b 0000000000000000 01 00 0001 76 00000011 08 0001 6c 0000000000000003 01 00 0001 76 \
    00000005 07 0001 6c 00 00000005 02 0001 6b 00 \
    > 00000001 00 00000001 03 00000009 0b 0000000000000000 00000001 01 00000005 02 01 0001 76 > closed",
    // tenant 8 may have one pair: only who asks for no row is told so
    "00000005 01 00000008 00000011 08 0001 6b 0000000000000000 01 00 0001 76 00000011 08 0001 6c 0000000000000005 01 00 0001 76 \
    00000011 08 0001 6c 0000000000000000 01 00 0001 76 > 00000001 00 00000001 03 00000009 0b 0000000000000000 00000001 08 > closed",
    // both before Open; a put on condition without columns, and a get of a column past the last
    "00000005 07 0001 6b 00 00000011 08 0001 6b 0000000000000000 01 00 0001 76 00000005 01 00000007 \
    0000000d 08 0001 6b 0000000000000000 00 00000006 07 0001 6b 01 10 > 00000001 91 00000001 91 00000001 00 00000001 85 00000001 85 > closed",
];

/// A session of tenant 7 that asks for stamps. A put of `k`, a get with its stamp, a put on condition of it, and the
/// same again. Then a remove, the same again, and a get with its stamp. Over plain maps, whose commands have the numbers from 1 on.
pub const COMMAND_STAMPS: &str =
    "00000005 01 00000007 00000009 03 0001 6b 01 00 0001 76 00000005 07 0001 6b 00 \
    00000011 08 0001 6b 0000000000000001 01 00 0001 77 00000011 08 0001 6b 0000000000000001 01 00 0001 77 \
    00000004 04 0001 6b 00000011 08 0001 6b 0000000000000001 01 00 0001 77 00000005 07 0001 6b 00 \
    > 00000001 00 00000001 03 0000000d 0a 0000000000000001 01 0001 76 00000001 04 00000009 0b 0000000000000003 \
    00000001 05 00000009 0b 0000000000000000 00000001 01 > closed";

/// The same over a state, whose steps have these numbers.
pub const STEP_STAMPS: &str =
    "00000005 01 00000007 00000009 03 0001 6b 01 00 0001 76 00000005 07 0001 6b 00 \
    00000011 08 0001 6b 0000000000000005 01 00 0001 77 00000011 08 0001 6b 0000000000000005 01 00 0001 77 \
    00000004 04 0001 6b 00000011 08 0001 6b 0000000000000005 01 00 0001 77 00000005 07 0001 6b 00 \
    > 00000001 00 00000001 03 0000000d 0a 0000000000000005 01 0001 76 00000001 04 00000009 0b 000000000000000e \
    00000001 05 00000009 0b 0000000000000000 00000001 01 > closed";

/// Sessions over such tenants without pairs, after so many steps: while many numbers are left; the step after which some are
/// left for a put and a get alone; the one before the last; and the last. Each begun command takes what numbers are left, and
/// then none begins.
pub const LAST_ROWS: [(u64, &str); 4] = [
    (
        (1 << 59) - 5_000,
        "00000005 01 00000007 00000009 03 0001 6b 01 00 0001 76 00000005 02 0001 6b 00 \
        > 00000001 00 00000001 03 00000005 02 01 0001 76 > closed",
    ),
    (
        (1 << 59) - 10,
        "00000005 01 00000007 00000009 03 0001 6b 01 00 0001 76 00000005 02 0001 6b 00 00000005 02 0001 6b 00 \
        > 00000001 00 00000001 03 00000005 02 01 0001 76 00000001 89 > closed",
    ),
    ((1 << 59) - 1, ALL_SPENT),
    (1 << 59, ALL_SPENT),
];

// A get twice, a put, a remove and a scan, of which none ends; a get of a column past the last; a Settle and a second Open.
const ALL_SPENT: &str =
    "00000005 01 00000007 00000005 02 0001 6b 00 00000005 02 0001 6b 00 00000009 03 0001 6b 01 00 0001 76 00000004 04 0001 6b \
    00000006 05 00 0000 02 00 00000006 02 0001 6b 01 10 00000001 06 00000005 01 00000007 \
    > 00000001 00 00000001 89 00000001 89 00000001 89 00000001 89 00000001 89 00000001 85 00000001 94 00000001 92 > closed";

/// A worked session.
#[derive(Drop)]
pub struct Row<'a> {
    /// The bytes that are asked.
    pub asked: Vec<u8>,
    /// The bytes that are told.
    pub told: Vec<u8>,
    /// The name of its end.
    pub end: &'a str,
}

/// The session that a text writes: what is asked, what is told and its end, with `> ` between them. None as `bytes_of`.
pub fn row_of<'a>(alloc: Global, text: &'a str) -> Option<Row<'a>> {
    let (asked, rest) = text.split_once("> ")?;
    let (told, end) = rest.split_once("> ")?;
    let asked = bytes_of(alloc, asked)?;
    let told = bytes_of(alloc, told)?;
    Some(Row { asked, told, end })
}
