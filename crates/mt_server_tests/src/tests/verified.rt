//! Stores that are only read: what is said of them, and that their folders stay as they were.

use super::*;
use mt_service::verify_store;

const FOLDER: &str = "mt_server_tests_verified";

// A checkpoint of steps 5 to 6, with the pair of `LOG`.
const CHECKPOINT: &[u8] =
    b"\x01MTCKP\x02\x00\x00\x00\x00\x00\x00\x00\x05\x01\x00\x00\x00\x07\x00\x01k\x00\x00\x00\x00\x00\x00\x00\x05\x01\x00\x01v\x02\x00\x00\x00\x00\x00\x00\x00\x06";

// Its digest file.
const DIGEST: &[u8] =
    b"\x01\x00\x00\x00\x00\x00\x00\x00\x2b\x49\xb6\x1b\xec\x4e\xce\x76\x9f\x12\xc0\x79\xd8\xba\x4e\x85\x03\x67\xa6\x1d\xec\x05\xb9\xe3\x36\x76\x96\x27\xf1\x4d\x84\x5a\x7a";

// Files and what they have, in the words of `image_of`; the last options; and what is said: to standard output, the status, and how
// what is said to standard error begins.
const ROWS: [&str; 7] = [
    // A whole store; one of an older server, of which a start would close the gate, cut what follows, and make the other files.
    "wal-00 log, wal-00-0 spare, wal-00-1 next, check-0 checkpoint, check-0.sha256 digest, check-1 spare; 7:1 8:1 --settle-every 5 => check-0: a checkpoint of steps 5 to 6, 44 bytes, agrees with its digest\ncheck-1: no checkpoint\nwal-00: the first log of worker 0, 55 bytes, has no digest\nwal-00-0: no log\nwal-00-1: the log of worker 0, generation 1, from step 6, 26 bytes, has no digest\nthe store goes up to step 6: 1 pairs of 2 tenants\n0: ",
    "wal-00 torn; 7:1 => wal-00: the first log of worker 0, 58 bytes, has no digest\nthe store goes up to step 6: 1 pairs of 1 tenants\n0: ",
    // A digest that isn't the file's.
    "wal-00 log, wal-00-1 next, wal-00-1.sha256 digest; 7:1 => wal-00: the first log of worker 0, 55 bytes, has no digest\nwal-00-1: the log of worker 0, generation 1, from step 6, 26 bytes, isn't what was written, by its digest\n3: E15: 'mt_server_tests_verified/wal-00-1' isn't what was written, by its digest in 'mt_server_tests_verified/wal-00-1.sha256': ",
    // A torn gate of a numbered file.
    "wal-00 log, wal-00-0 gate, check-1 none; 7:1 => check-1: no checkpoint\nwal-00: the first log of worker 0, 55 bytes, has no digest\nwal-00-0: no log\nthe store goes up to step 6: 1 pairs of 1 tenants\n0: ",
    // A file that is missing, no log, and a tenant that isn't named.
    "wal-00-1 next, check-0 spare, check-1 spare; 7:1 => check-0: no checkpoint\ncheck-1: no checkpoint\nwal-00-1: the log of worker 0, generation 1, from step 6, 26 bytes, has no digest\n3: E15: 'mt_server_tests_verified/wal-00', 'mt_server_tests_verified/wal-00-0' are missing, which this store had: ",
    "wal-00 short, wal-00-0 open; 7:1 => wal-00: the first log of worker 0, 6 bytes, has no digest\nwal-00-0: no header after an open gate, 1 bytes, has no digest\n3: E12: 'mt_server_tests_verified/wal-00' or 'mt_server_tests_verified/wal-00-0' is no log from byte 0 on: ",
    "wal-00 log; 8:1 => wal-00: the first log of worker 0, 55 bytes, has no digest\n3: E4: the store in 'mt_server_tests_verified' has pairs of tenant 7, ",
];

// `LOG` with a torn gate at its end, and more.
const TORN_LOG: &[u8] =
    b"MTLOG\x02\x00\x01\x01\x00\x00\x00\x29\x02\x00\x00\x00\x00\x00\x00\x00\x00\x00\x00\x00\x00\x00\x00\x00\x06\x00\x00\x00\x01\x00\x00\x00\x00\x00\x00\x00\x05\x00\x00\x00\x07\x00\x01k\x01\x01\x00\x01v\x07\x01\x02\x03";

// What a word of a row says that a file has.
fn image_of(word: &str) -> &'static [u8] {
    match word {
        "log" => LOG,
        "torn" => TORN_LOG,
        "next" => NEXT_LOG,
        "spare" => SPARE,
        "checkpoint" => CHECKPOINT,
        "digest" => DIGEST,
        "gate" => b"\x07\x01MTLOG",
        "short" => b"MTLOG\x03",
        "open" => b"\x01",
        _ => b"",
    }
}

// A line is told so of its folder.
fn expect_said<R: Host + Files<File = File>>(rt: &R, alloc: Global, line: &str, wanted: &str) {
    let options = options_of(rt, alloc, line);
    let mut out = Vec::new(alloc);
    let end = verify_store(rt, alloc, &options, FOLDER, &mut out);
    let text = str::from_utf8(out.as_slice()).unwrap_or("no text");
    let said = match end {
        Ok(()) => format!(in alloc; "{text}0: "),
        Err(fault) => format!(in alloc; "{text}{}: {fault}", fault.status()),
    };
    let said = said.expect(rt, "memory");
    assert!(rt; said.starts_with(wanted), "{line}: {said}");
}

// A folder with these files alone is told of so, and has them then as it had before.
fn expect_row<R: Host + Files<File = File> + Alloc>(
    rt: &R,
    alloc: Global,
    row: &str,
) -> io::Result<()> {
    let (files, asked) = row.split_once("; ").expect(rt, "a row has files");
    let (more, said) = asked.split_once(" => ").expect(rt, "a row has two parts");
    fs::create_dir(rt, FOLDER)?;
    for file in files.split(", ") {
        let (name, image) = file.split_once(' ').unwrap_or((file, ""));
        let path = format!(in alloc; "{FOLDER}/{name}")?;
        fs::write(rt, path.as_str(), image_of(image))?;
    }
    let line = format!(in alloc; "mt_server --workers 1 --verify {FOLDER} {more}")?;
    expect_said(rt, alloc, line.as_str(), said);
    for file in files.split(", ") {
        let (name, image) = file.split_once(' ').unwrap_or((file, ""));
        let path = format!(in alloc; "{FOLDER}/{name}")?;
        let left = fs::read(rt, path.as_str())?;
        assert!(rt; left.as_slice() == image_of(image), "{path}");
        fs::remove_file(rt, path.as_str())?;
    }
    // Only an empty folder can be removed so.
    fs::remove_dir(rt, FOLDER)
}

#[test]
fn a_store_that_is_read_stays_as_it_was(rt: HostRuntime) {
    let alloc = rt.alloc();
    let _ = fs::remove_dir_all(&rt, FOLDER);
    for &row in &ROWS {
        assert!(rt; expect_row(&rt, alloc, row).is_ok());
    }
    let line = "mt_server --workers 1 --verify mt_server_tests_verified 7:1";
    let none = "3: E15: there is no folder 'mt_server_tests_verified': ";
    expect_said(&rt, alloc, line, none);
    // One that is served from isn't read.
    let new = "mt_server --workers 1 --store mt_server_tests_verified --create 7:1";
    let store = opened(&rt, alloc, new);
    let in_use = "3: E10: another server has 'mt_server_tests_verified' open: ";
    expect_said(&rt, alloc, line, in_use);
    drop(store);
    let _ = fs::remove_dir_all(&rt, FOLDER);
}
