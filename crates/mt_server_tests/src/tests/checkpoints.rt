//! Checkpoints that a server writes into its folder and the turns of its logs, and a start from them.

use super::clients::{GET_BOTH, OPEN_8, PUT_L_FULL};
use super::folders::{expect_file, expect_told};
use super::*;
use mt_checkpoint::{Checkpoint, read_valid};
use mt_rows::TenantPair;
use mt_service::FolderDigests;
use std::os::unix::fs::FileExt;

const FOLDER: &str = "mt_server_tests_checks";

const PLAIN: &str = "mt_server_tests_checks/wal-00";

const EVEN: &str = "mt_server_tests_checks/wal-00-0";

const ODD: &str = "mt_server_tests_checks/wal-00-1";

const CHECK_0: &str = "mt_server_tests_checks/check-0";

const CHECK_1: &str = "mt_server_tests_checks/check-1";

/// A server of the store that a line names, which ends; its client is told so.
pub fn serve<R: Host + Net<Listener = TcpListener, Stream = TcpStream> + Files<File = File>>(
    rt: &R,
    alloc: Global,
    line: &str,
    told: &[Told],
) {
    let OpenStore { store, folder, .. } = opened(rt, alloc, line);
    let (_, _, slots) = serve_told(rt, alloc, store, line, told).into_parts();
    assert!(rt; slots.is_some(), "{line}: the slots are gone");
    drop(folder);
}

// The checkpoint that a file has.
fn checkpoint_in<R: Files<File = File> + Alloc>(
    rt: &R,
    alloc: Global,
    path: &str,
) -> io::Result<Option<Checkpoint>> {
    let image = fs::read(rt, path)?.as_slice().to_vec(alloc)?;
    let mut disk = MemDisk::with_image(alloc, image, Vec::new(alloc), None)?;
    Ok(read_valid(alloc, &mut disk).unwrap_or(None))
}

// Whether this is tenant 7's `k` with `v`, put by step 5, and no other pair.
fn is_one_pair(pairs: &[TenantPair]) -> bool {
    match pairs {
        [pair] => {
            pair.tenant == 7
                && pair.key.as_bytes() == b"k".as_slice()
                && pair.row.stamp == 5
                && pair.row.row.columns().len() == 1
        }
        _ => false,
    }
}

// The first and the last step of a file's checkpoint, of whose pairs there is one: that which was put.
fn expect_checkpoint<R: Host + Files<File = File> + Alloc>(
    rt: &R,
    alloc: Global,
    path: &str,
) -> (u64, u64) {
    let found = checkpoint_in(rt, alloc, path).expect(rt, "a file");
    let checkpoint = found.expect(rt, "a checkpoint");
    assert!(rt; is_one_pair(checkpoint.pairs.as_slice()), "{path}");
    (checkpoint.first, checkpoint.last)
}

// After each settled answer a turn is made: a checkpoint is written, into the slot that doesn't hold the newest one, between
// the beginning of the next log and the end of the older one. A start uses it: the pair is in no log any more. It is the same
// if a turn is due each time that the logs have grown by a byte.
#[test]
fn each_settled_answer_writes_a_checkpoint(rt: HostRuntime) {
    for due in ["--checkpoint 1", "--checkpoint-bytes 1"] {
        expect_turns(&rt, rt.alloc(), due);
    }
}

// A server of this store that serves one session.
fn serve_with<R: Host + Net<Listener = TcpListener, Stream = TcpStream> + Files<File = File>>(
    rt: &R,
    alloc: Global,
    more: &str,
    told: &[Told],
) {
    let line = format!(in alloc;
        "mt_server --workers 1 --store {FOLDER} --sessions 1 {more} 7:100"
    );
    serve(rt, alloc, line.expect(rt, "memory").as_str(), told);
}

fn expect_turns<
    R: Host + Net<Listener = TcpListener, Stream = TcpStream> + Files<File = File> + Alloc,
>(rt: &R, alloc: Global, due: &str) {
    let _ = fs::remove_dir_all(rt, FOLDER);
    let create = format!(in alloc; "--create {due}").expect(rt, "memory");
    serve_with(rt, alloc, create.as_str(), &[OPEN, PUT, SETTLE_6]);
    let (first, last) = expect_checkpoint(rt, alloc, CHECK_0);
    assert_eq!(rt; first, 6, "{due}");
    assert!(rt; first < last);
    let last_bytes = last.to_be_bytes();
    let head = b"\x01MTCKP\x02\x00\x00\x00\x00\x00\x00\x00\x06";
    let entry = b"\x01\x00\x00\x00\x07\x00\x01k\x00\x00\x00\x00\x00\x00\x00\x05\x01\x00\x01v";
    expect_file(rt, CHECK_0, &[head, entry, b"\x02", &last_bytes]);
    // The steps of the walk alone.
    let mark = last.to_be_bytes();
    let header =
        b"\x01MTLOG\x03\x00\x01\x00\x00\x00\x00\x00\x00\x00\x01\x00\x00\x00\x00\x00\x00\x00\x06";
    let batch = b"\x01\x00\x00\x00\x15\x02\x00\x00\x00\x00\x00\x00\x00\x06";
    let end = b"\x00\x00\x00\x00\x00";
    expect_file(rt, ODD, &[header, batch, &mark, end]);
    for path in [PLAIN, EVEN, CHECK_1] {
        expect_file(rt, path, &[SPARE]);
    }
    serve_with(rt, alloc, due, &[OPEN, GET, SETTLE]);
    assert_eq!(rt; expect_checkpoint(rt, alloc, CHECK_0), (first, last));
    let (newer, newest) = expect_checkpoint(rt, alloc, CHECK_1);
    assert!(rt; last < newer && newer < newest);
    // One more, from which the slot of the older one is written over.
    serve_with(rt, alloc, due, &[OPEN, GET, SETTLE]);
    assert_eq!(rt; expect_checkpoint(rt, alloc, CHECK_1), (newer, newest));
    let (later, _) = expect_checkpoint(rt, alloc, CHECK_0);
    assert!(rt; newest < later);
    let _ = fs::remove_dir_all(rt, FOLDER);
}

// Whether these are a pair of tenant 7 and one of tenant 8, both of the key `k`.
fn are_of_both(pairs: &[TenantPair]) -> bool {
    match pairs {
        [one, other] => {
            (one.tenant, other.tenant) == (7, 8)
                && one.key.as_bytes() == b"k".as_slice()
                && other.key.as_bytes() == b"k".as_slice()
        }
        _ => false,
    }
}

// Two tenants with different quotas put through one server each. The turn of the second server writes a checkpoint of both pairs,
// and the next servers find them.
#[test]
fn a_checkpoint_has_the_pairs_of_all_tenants(rt: HostRuntime) {
    let _ = fs::remove_dir_all(&rt, "mt_server_tests_tenants");
    let again =
        "mt_server --workers 1 --store mt_server_tests_tenants --checkpoint 1 --sessions 1 7:100 8:1";
    let new = format!(in rt.alloc(); "{again} --create").expect(&rt, "memory");
    serve(&rt, rt.alloc(), new.as_str(), &[OPEN, PUT, SETTLE_6]);
    serve(&rt, rt.alloc(), again, &[OPEN_8, PUT, SETTLE]);
    let found = checkpoint_in(&rt, rt.alloc(), "mt_server_tests_tenants/check-1").expect(
        &rt, "a file",
    );
    let checkpoint = found.expect(&rt, "a checkpoint");
    assert!(rt; are_of_both(checkpoint.pairs.as_slice()));
    serve(&rt, rt.alloc(), again, &[OPEN, GET]);
    // Tenant 8 may have one pair.
    serve(&rt, rt.alloc(), again, &[OPEN_8, GET, PUT_L_FULL]);
    let _ = fs::remove_dir_all(&rt, "mt_server_tests_tenants");
}

// A value changes in the checkpoint of a server's turn. A start tells that by the digest which the turn kept, and without the
// digest it serves what is there.
#[test]
fn a_start_tells_a_value_that_changed(rt: HostRuntime) -> Result<(), Fail> {
    let _ = fs::remove_dir_all(&rt, "mt_server_tests_rot");
    let listener = TcpListener::bind(&rt, ("127.0.0.1", 0u16))?;
    let client = connect(&rt, listener.local_addr()?.port())?;
    let line =
        "mt_server --workers 1 --store mt_server_tests_rot --checkpoint 1 --sessions 1 --create 7:100";
    let OpenStore {
        store,
        mut folder,
        ..
    } = opened(&rt, rt.alloc(), line);
    let digests = FolderDigests::new(&rt, rt.alloc(), &mut folder);
    let (_, end) = serve_beside(&rt, rt.alloc(), listener, line, store, digests, move || {
        are_told(&client, &[OPEN, PUT, SETTLE_6])
    });
    assert!(rt; end.is_ok_and(|ending| ending.others == 0));
    drop(folder);
    let mut options = File::options();
    options.write(true);
    let file = options.open(&rt, "mt_server_tests_rot/check-0")?;
    file.write_all_at(b"w", 34)?;
    let told =
        "3: E15: 'mt_server_tests_rot/check-0' isn't what was written, by its digest in 'mt_server_tests_rot/check-0.sha256': put all files back from one backup, or remove the digest to serve what is there";
    let line = "mt_server --workers 1 --store mt_server_tests_rot 7:100";
    expect_told(&rt, rt.alloc(), line, told);
    fs::remove_file(&rt, "mt_server_tests_rot/check-0.sha256")?;
    expect_told(&rt, rt.alloc(), line, "0: ");
    fs::remove_dir_all(&rt, "mt_server_tests_rot")?;
    Ok(())
}

// How often a client puts before it settles.
const PUTS: usize = 30;

// Twice what is put between two turns, at 21 bytes each.
const SHORT: usize = 4 * PUTS * 21;

// A client puts over what was put before, and settles, so many times.
fn overwrites(alloc: Global, times: u8) -> Result<Vec<Told>, AllocError> {
    let mut told = vec![in alloc; OPEN]?;
    for _ in 0..times {
        told.extend_from_slice(&[PUT_OTHER; PUTS])?;
        told.push(SETTLE)?;
    }
    Ok(told)
}

// How long a file is, if it has a log of this generation.
fn len_of_log<R: Host + Files<File = File> + Alloc>(
    rt: &R,
    path: &str,
    generation: u64,
) -> Option<usize> {
    let image = fs::read(rt, path).expect(rt, "a file");
    let low = generation.to_be_bytes()[7];
    let is_begun = image.starts_with(b"\x01MTLOG\x03") && image.get(16) == Some(&low);
    if is_begun { Some(image.len()) } else { None }
}

// The generation of worker 0's log, which is one of these.
fn generation_among<R: Host + Files<File = File> + Alloc>(rt: &R, least: u64, most: u64) -> u64 {
    for generation in least..=most {
        let path = if generation % 2 == 0 {
            "mt_server_tests_turns/wal-00-0"
        } else {
            "mt_server_tests_turns/wal-00-1"
        };
        if len_of_log(rt, path, generation).is_some() {
            return generation;
        }
    }
    panic!(rt; "no log of generation {least} to {most}")
}

// The logs of this generation stand in the files of both workers, and no others. They are short.
fn expect_generation<R: Host + Files<File = File> + Alloc>(rt: &R, alloc: Global, generation: u64) {
    let (parity, other) = (generation % 2, 1 - generation % 2);
    let mut len: usize = 0;
    for plain in [
        "mt_server_tests_turns/wal-00",
        "mt_server_tests_turns/wal-01",
    ] {
        let last = format!(in alloc; "{plain}-{parity}").expect(rt, "memory");
        let older = format!(in alloc; "{plain}-{other}").expect(rt, "memory");
        expect_file(rt, plain, &[SPARE]);
        expect_file(rt, older.as_str(), &[SPARE]);
        let own = len_of_log(rt, last.as_str(), generation);
        len = len.saturating_add(own.expect(rt, "a log"));
    }
    assert!(rt; len < SHORT, "{generation}: {len} bytes");
}

// A turn is made after each second settled answer, or after more if these come while one is made. It goes to the next
// generation, also after a start. After each start all that was settled is found.
#[test]
fn turns_follow_each_other_and_keep_the_logs_short(rt: HostRuntime) -> Result<(), Fail> {
    let _ = fs::remove_dir_all(&rt, "mt_server_tests_turns");
    let new =
        "mt_server --workers 2 --store mt_server_tests_turns --create --checkpoint 2 --sessions 1 7:100";
    serve(&rt, rt.alloc(), new, &[OPEN, PUT, SETTLE_6]);
    let again =
        "mt_server --workers 2 --store mt_server_tests_turns --checkpoint 2 --sessions 1 7:100";
    let mut last = 0u64;
    for times in [2, 6, 21u8] {
        serve(&rt, rt.alloc(), again, &overwrites(rt.alloc(), times)?);
        let most = last.saturating_add(u64::from(times / 2));
        let least = last.saturating_add(1);
        last = generation_among(&rt, least, most);
        expect_generation(&rt, rt.alloc(), last);
        serve(&rt, rt.alloc(), again, &[OPEN, GET_BOTH]);
    }
    // The logs grow by a byte and more each time. A turn is made while the client is silent, and one at the server's end.
    let by_length =
        "mt_server --workers 2 --store mt_server_tests_turns --checkpoint-bytes 1 --settle-every 50 --sessions 1 7:100";
    let told = [OPEN, PUT_OTHER, WAIT, PUT_OTHER, WAIT, PUT_OTHER, WAIT];
    serve(&rt, rt.alloc(), by_length, &told);
    generation_among(&rt, last.saturating_add(2), last.saturating_add(100));
    let _ = fs::remove_dir_all(&rt, "mt_server_tests_turns");
    Ok(())
}
