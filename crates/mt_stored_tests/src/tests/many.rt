//! A store of 100,100 pairs: they are put, shown, settled, recovered and shown again.
//! What is asked of a state, by operations that run alone, and what it answers. The pairs that two clients put.

use super::sessions::put_of;
use super::*;
use mt_rows::Row;
use mt_state::Move;

// So many times each client puts.
const PUTS: u16 = 50_050;

// So many times it has put once the recovered store went on.
const GOES_ON: u16 = 50_300;

/// Settles once; what the logs' files hold then.
pub fn settled<R: Wait + Clock + Log + Abort>(
    rt: &R,
    alloc: Global,
    state: State,
    logs: Vec<StoreLog<FlakyDisk>>,
) -> Vec<FileImages> {
    let mut store = Store::joined(state, logs, None).expect(rt, "a store");
    assert!(rt; store.settle_last(rt, alloc).is_ok());
    let (_, logs, _) = store.into_parts();
    assert!(rt; logs.iter().all(|log| log.mark().is_some()));
    logs_left(rt, alloc, &logs, Left::All)
}

// Two workers put all pairs, scans show them, and a Settle keeps them.
fn served<R: Wait + Clock + Log + Abort>(rt: &R, alloc: Global) -> Vec<FileImages> {
    let store = new_store(rt, alloc, &[SOUND; 2], None, bare_slots(alloc));
    let (mut state, logs, _) = store.into_parts();
    put_all(rt, alloc, &mut state, 0, PUTS);
    expect_all(rt, alloc, &mut state, PUTS);
    settled(rt, alloc, state, logs)
}

#[test]
fn a_hundred_thousand_pairs_are_recovered_and_shown(rt: HostRuntime) {
    let alloc = rt.alloc();
    let images = served(&rt, alloc);
    assert!(rt; images.len() == 2 && images.iter().all(|image| image.plain.len() > 1_048_576));
    let (mut state, logs, _) = recovered(&rt, alloc, images, bare_slots(alloc)).into_parts();
    expect_all(&rt, alloc, &mut state, PUTS);
    put_all(&rt, alloc, &mut state, PUTS, GOES_ON);
    let _ = settled(&rt, alloc, state, logs);
}

// A pair: its key, and the only byte of its only column.
type Pair = ([u8; 9], u8);

// What a client puts at a put of this number. Two keys share their first eight bytes, so they lie in a tree of their
// own. The column's byte is not that of the pairs beside it.
fn pair_of(client: u8, number: u16) -> Pair {
    let [high, low] = (number / 2).to_be_bytes();
    let [_, column] = number.to_be_bytes();
    let last = if number % 2 == 0 { 0 } else { 1 };
    ([client, high, low, 0, 0, 0, 0, 0, last], column)
}

// The pairs of a client who has put so many times, after those of others.
fn push_pairs(pairs: &mut Vec<Pair>, client: u8, count: u16) -> Result<(), AllocError> {
    for number in 0..count {
        pairs.push(pair_of(client, number))?;
    }
    Ok(())
}

// The pairs of two clients who have put so many times each, in rising order.
fn pairs_of(alloc: Global, count: u16) -> Result<Vec<Pair>, AllocError> {
    let mut pairs = Vec::new(alloc);
    push_pairs(&mut pairs, 0, count)?;
    push_pairs(&mut pairs, 1, count)?;
    Ok(pairs)
}

// Whether a key and a row are this pair.
fn is_pair(key: &Key, row: &Row, wanted: &Pair) -> bool {
    let (wanted_key, value) = wanted;
    match row.columns() {
        [column] => key.as_bytes() == wanted_key.as_slice()
            && column.as_bytes() == [*value].as_slice(),
        _ => false,
    }
}

// A scan of 64 pairs after the key of a pair, or from the first one on.
fn scan_of(alloc: Global, last: Option<&Pair>) -> Result<Command, AllocError> {
    let from = match last {
        Some(pair) => {
            let (key, _) = pair;
            Vec::from_slice(alloc, key.as_slice())?
        }
        None => Vec::new(alloc),
    };
    let columns = ColumnIndexes::new(Vec::new(alloc));
    Ok(Command::Scan {
        from: Key::new(from),
        after: true,
        count: 64,
        columns,
    })
}

/// What a command of a worker is answered.
pub fn asked(rt: &impl Abort, state: &mut State, worker: u8, command: Command) -> Reply {
    assert!(rt; worker < state.logs());
    let ticket = state
        .begin(worker, 7, command)
        .expect(rt, "the command is taken");
    assert!(rt; state.run_alone(&ticket) == Move::Done);
    match state.take(ticket) {
        Ok(answer) => answer.reply,
        Err(_) => panic!(rt; "the operation isn't finished"),
    }
}

// A client puts a new pair through its worker.
fn put(rt: &impl Abort, alloc: Global, state: &mut State, client: u8, number: u16) {
    let (key, value) = pair_of(client, number);
    let command = put_of(alloc, &key, value).expect(rt, "memory");
    let is_new = matches!(asked(rt, state, client, command), Reply::New);
    assert!(rt; is_new, "put {number} of client {client}");
}

/// Two clients put in turns, each through a worker of its own: at its put of one number and all up to another.
pub fn put_all(rt: &impl Abort, alloc: Global, state: &mut State, from: u16, to: u16) {
    for number in from..to {
        put(rt, alloc, state, 0, number);
        put(rt, alloc, state, 1, number);
    }
}

// Whether these are exactly the pairs that are wanted.
fn are_pairs(pairs: &[(Key, StampedRow)], wanted: &[Pair]) -> bool {
    for (pair, wanted) in pairs.iter().zip(wanted) {
        if !is_pair(&pair.0, &pair.1.row, wanted) {
            return false;
        }
    }
    pairs.len() == wanted.len()
}

// Whether a scan after a pair shows exactly these pairs.
fn shows_page(
    rt: &impl Abort,
    alloc: Global,
    state: &mut State,
    last: Option<&Pair>,
    wanted: &[Pair],
) -> bool {
    let command = scan_of(alloc, last).expect(rt, "memory");
    match asked(rt, state, 0, command) {
        Reply::Pairs(pairs) => are_pairs(pairs.as_slice(), wanted),
        _ => false,
    }
}

/// Scans that go on where the last one ended show all pairs of two clients who have put so many times each, once
/// and in rising order, and no other pair.
pub fn expect_all(rt: &impl Abort, alloc: Global, state: &mut State, count: u16) {
    let wanted = pairs_of(alloc, count).expect(rt, "memory");
    let mut last: Option<&Pair> = None;
    for (place, page) in wanted.chunks(64).enumerate() {
        assert!(rt; shows_page(rt, alloc, state, last, page), "page {place}");
        last = page.last();
    }
    assert!(rt; shows_page(rt, alloc, state, last, &[]), "at the end");
}
