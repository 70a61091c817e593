//! Stores in folders: made, opened again, served from, and refused.

ghost use Rattle.mt_book.specs.Keeping.{IsUnasked};

use super::checkpoints::serve;
use super::stores::RESUME;
use super::*;
use mt_options::Options;
use mt_service::open_store;

// The options of a line. At no port of its own it listens at a free one.
fn at_a_free_port(rt: &impl Abort, alloc: Global, line: &str) -> Options {
    let mut options = options_of(rt, alloc, line);
    if !line.contains("--port") {
        options.port = 0;
    }
    options
}

// How the opening that a line names ends: the status, and what is said.
fn told_of<R: Host + Net<Listener = TcpListener, Stream = TcpStream> + Files<File = File>>(
    rt: &R,
    alloc: Global,
    line: &str,
) -> String {
    match open_store(rt, alloc, &at_a_free_port(rt, alloc, line)) {
        Ok(OpenStore { folder, .. }) => {
            assert!(rt; folder.is_some(), "{line}");
            String::from_str(alloc, "0: ").expect(rt, "memory")
        }
        Err(fault) => format!(in alloc; "{}: {fault}", fault.status()).expect(rt, "memory"),
    }
}

/// The opening that a line names ends so: this is the status, and how what is said begins.
pub fn expect_told<R: Host + Net<Listener = TcpListener, Stream = TcpStream> + Files<File = File>>(
    rt: &R,
    alloc: Global,
    line: &str,
    wanted: &str,
) {
    let told = told_of(rt, alloc, line);
    assert!(rt; told.starts_with(wanted), "{line}: {told}");
}

// What follows the name of the folder `mt_server_tests_store` in a line, the status, and how what is said begins.
const STARTS: [&str; 8] = [
    " --workers 2 7:1 => 3: E15: there is no folder 'mt_server_tests_store': ",
    "/a --workers 2 --create 7:1 => 1: E10: the folder 'mt_server_tests_store/a': ",
    " --workers 2 --create 7:1 => 0: ",
    " --workers 2 7:1 => 0: ",
    " --workers 1 7:1 => 3: E15: 'mt_server_tests_store/wal-00' is log 0 of 2, and log 0 of 1 was expected there: start with as many --workers ",
    " --workers 3 7:1 => 3: E15: 'mt_server_tests_store/wal-02' is missing; the folder has 2 logs for 3 workers: start with as many --workers ",
    " --workers 1 --create 7:1 => 0: ",
    " --workers 2 7:1 => 3: E15: 'mt_server_tests_store/wal-01' is missing; the folder has 1 log for 2 workers: start with as many --workers ",
];

#[test]
fn stores_are_opened_and_refused(rt: HostRuntime) -> Result<(), Fail> {
    let _ = fs::remove_dir_all(&rt, "mt_server_tests_store");
    for &row in &STARTS {
        let (words, wanted) = row.split_once(" => ").expect(&rt, "a row has two parts");
        let line = format!(in rt.alloc(); "mt_server --store mt_server_tests_store{words}")?;
        expect_told(&rt, rt.alloc(), line.as_str(), wanted);
    }
    // While a store is open nobody else opens it.
    let line = "mt_server --workers 1 --store mt_server_tests_store 7:1";
    let store = opened(&rt, rt.alloc(), line);
    let told = "3: E10: another server has 'mt_server_tests_store' open: ";
    expect_told(&rt, rt.alloc(), line, told);
    drop(store);
    expect_no_log(&rt, rt.alloc(), line)?;
    fs::remove_dir_all(&rt, "mt_server_tests_store")?;
    Ok(())
}

// A port that is in use leaves what stands in the folder, also if the store is to be made anew.
#[test]
fn a_port_in_use_leaves_the_store(rt: HostRuntime) -> Result<(), Fail> {
    let _ = fs::remove_dir_all(&rt, "mt_server_tests_port");
    fs::create_dir(&rt, "mt_server_tests_port")?;
    fs::write(&rt, "mt_server_tests_port/wal-00", "x")?;
    let listener = TcpListener::bind(&rt, ("127.0.0.1", 0u16))?;
    let port = listener.local_addr()?.port();
    for connections in ["", "--connections 2 "] {
        let line = format!(in rt.alloc();
            "mt_server --port {port} {connections}--store mt_server_tests_port --create 7:1"
        )?;
        let told = format!(in rt.alloc(); "1: 127.0.0.1:{port} can't be listened at: ")?;
        expect_told(&rt, rt.alloc(), line.as_str(), told.as_str());
        expect_file(&rt, "mt_server_tests_port/wal-00", &["x".as_bytes()]);
    }
    fs::remove_dir_all(&rt, "mt_server_tests_port")?;
    Ok(())
}

// The plain file of the only worker is missing, beside numbered ones that are spare, or empty, or missing too. Then it is a
// folder.
fn expect_no_log<R: Host + Net<Listener = TcpListener, Stream = TcpStream> + Files<File = File>>(
    rt: &R,
    alloc: Global,
    line: &str,
) -> io::Result<()> {
    let numbered = [
        "mt_server_tests_store/wal-00-0",
        "mt_server_tests_store/wal-00-1",
    ];
    let told =
        "3: E15: 'mt_server_tests_store/wal-00' is missing; the folder has 0 logs for 1 worker: name the store's folder";
    fs::remove_file(rt, "mt_server_tests_store/wal-00")?;
    expect_told(rt, alloc, line, told);
    for path in numbered {
        fs::write(rt, path, "")?;
    }
    expect_told(rt, alloc, line, told);
    for path in numbered {
        fs::remove_file(rt, path)?;
    }
    expect_told(rt, alloc, line, told);
    for path in numbered {
        assert!(rt; !fs::exists(rt, path)?);
    }
    fs::create_dir(rt, "mt_server_tests_store/wal-00")?;
    expect_told(rt, alloc, line, "1: E10: 'mt_server_tests_store/wal-00': ");
    Ok(())
}

// The files of a new store of two workers, and what each has.
const MADE: [(&str, &[u8]); 8] = [
    ("mt_server_tests_new/wal-00", b"MTLOG\x02\x00\x02\x00"),
    ("mt_server_tests_new/wal-00-0", SPARE),
    ("mt_server_tests_new/wal-00-1", SPARE),
    ("mt_server_tests_new/wal-01", b"MTLOG\x02\x01\x02\x00"),
    ("mt_server_tests_new/wal-01-0", SPARE),
    ("mt_server_tests_new/wal-01-1", SPARE),
    ("mt_server_tests_new/check-0", SPARE),
    ("mt_server_tests_new/check-1", SPARE),
];

/// A numbered file that has no log, or a slot that has no checkpoint.
pub const SPARE: &[u8] = b"\x00";

// A store that is made has these files and no other, also if the folder had logs of more workers.
#[test]
fn a_new_store_has_its_files_and_no_other(rt: HostRuntime) -> Result<(), Fail> {
    let _ = fs::remove_dir_all(&rt, "mt_server_tests_new");
    for line in [
        "mt_server --workers 3 --store mt_server_tests_new --create 7:1",
        "mt_server --workers 2 --store mt_server_tests_new --create 7:1",
    ] {
        expect_told(&rt, rt.alloc(), line, "0: ");
    }
    for &(path, bytes) in &MADE {
        expect_file(&rt, path, &[bytes]);
        fs::remove_file(&rt, path)?;
    }
    // Only an empty folder can be removed so.
    fs::remove_dir(&rt, "mt_server_tests_new")?;
    Ok(())
}

// The length to which each log is cut, and behind bars what is changed of each, places and bytes of `LOG`. And what is said of the
// folder `mt_server_tests_bad`. `mt_log_tests` has more of the first ones.
const REFUSED: [&str; 8] = [
    "5 |  => 3: E12: 'mt_server_tests_bad/wal-00' is no log from byte 0 on: ",
    "54 |  => 3: E12: 'mt_server_tests_bad/wal-00' is no log from byte 54 on: ",
    // A worker is named that is none of so many.
    "55 | 6=1 => 3: E12: 'mt_server_tests_bad/wal-00' is no log from byte 0 on: ",
    // A log that was given up, two logs of one worker, a stamp in both, two pairs if one may be, a pair of another tenant.
    "55 | 0=0 => 3: E15: the logs of 'mt_server_tests_bad' aren't all of one store; the folder has 1 log for 1 worker: put all files back from one backup",
    "55 | 7=2 | 7=2 => 3: E15: 'mt_server_tests_bad/wal-01' is log 0 of 2, and log 1 of 2 was expected there: put all files back from one backup",
    "55 | 7=2 | 6=1 7=2 => 3: E13: 'mt_server_tests_bad/wal-01' doesn't go with the other logs at step 5: put all files back from one backup",
    "55 | 7=2 | 6=1 7=2 41=4 48=108 => 3: E14: tenant 7 has more pairs in 'mt_server_tests_bad' than its quota: give it a greater one",
    "55 | 45=8 => 3: E4: the store in 'mt_server_tests_bad' has pairs of tenant 8, which isn't named: name each of its tenants",
];

// The plain file, and the parity of the numbered file beside it. Behind bars the length to which `NEXT_LOG` is cut there, and what
// is changed of it. And what is said of that folder.
const BAD_NUMBERED: [&str; 8] = [
    // The other file; an open gate without a header; no logs.
    "log 0 | 26 |  => 3: E12: 'mt_server_tests_bad/wal-00-0' is no log from byte 0 on: put all files back from one backup",
    "log 0 | 1 |  => 3: E12: 'mt_server_tests_bad/wal-00-0' is no log from byte 0 on: put all files back from one backup",
    "log 1 | 26 | 8=0 => 3: E12: 'mt_server_tests_bad/wal-00-1' is no log from byte 0 on: put ",
    // The log of another worker, of two.
    "log 1 | 26 | 7=1 8=2 => 3: E15: 'mt_server_tests_bad/wal-00-1' is log 1 of 2, and log 0 of 1 was expected there: put all files back from one backup",
    // An open gate without a batch, beside the plain log and alone.
    "log 1 | 26 | 25=1 => 3: E12: 'mt_server_tests_bad/wal-00' or 'mt_server_tests_bad/wal-00-1' is no log from byte 25 on: put all files back from one backup",
    "spare 1 | 26 | 25=1 => 3: E12: 'mt_server_tests_bad/wal-00-1' is no log from byte 25 on: put ",
    // A start that isn't where the plain log ends; a generation without the one before it.
    "log 1 | 26 | 24=5 => 3: E13: 'mt_server_tests_bad/wal-00' or 'mt_server_tests_bad/wal-00-1' doesn't go with the other logs at step 5: put all files back from one backup",
    "log 1 | 26 | 16=3 => 3: E15: the logs of 'mt_server_tests_bad' aren't all of one store; the folder has 1 log for 1 worker: put all files back from one backup",
];

// A log with these bytes changed, cut to a length.
fn image_with(alloc: Global, log: &[u8], edits: &str, len: &str) -> Result<Vec<u8>, AllocError> {
    let mut image = log.to_vec(alloc)?;
    for edit in edits.split_whitespace() {
        let (place, byte) = edit.split_once('=').unwrap_or(("", ""));
        if let Some(old) = image.get_mut(place.parse().unwrap_or(usize::MAX)) {
            *old = byte.parse().unwrap_or(u8::MAX);
        }
    }
    image.truncate(len.parse().unwrap_or(0));
    Ok(image)
}

// A store in the folder `mt_server_tests_bad` whose plain files are replaced by such ones is refused so. It has no numbered
// ones and no slots, as a store of an older server, and has none after that either.
fn expect_refused<R: Host + Net<Listener = TcpListener, Stream = TcpStream> + Files<File = File>>(
    rt: &R,
    alloc: Global,
    row: &str,
) {
    let (files, told) = row.split_once(" => ").expect(rt, "a row has two parts");
    let (len, logs) = files.split_once(" | ").expect(rt, "a row has logs");
    let workers = logs.split(" | ").count();
    let new = format!(in alloc;
        "mt_server --workers {workers} --store mt_server_tests_bad 7:1 --create"
    );
    let new = new.expect(rt, "memory");
    expect_told(rt, alloc, new.as_str(), "0: ");
    for (place, edits) in logs.split(" | ").enumerate() {
        let path = format!(in alloc; "mt_server_tests_bad/wal-0{place}").expect(rt, "memory");
        let image = image_with(alloc, LOG, edits, len).expect(rt, "memory");
        fs::write(rt, path.as_str(), image.as_slice()).expect(rt, "a file");
    }
    let spares = spares_of(alloc, workers).expect(rt, "memory");
    for path in &spares {
        fs::remove_file(rt, path.as_str()).expect(rt, "a file");
    }
    expect_told(rt, alloc, new.strip_suffix(" --create").unwrap_or(""), told);
    for path in &spares {
        assert!(rt;
            !fs::exists(rt, path.as_str()).expect(rt, "a path"),
            "{path}"
        );
    }
}

// The paths of the numbered files of up to ten workers, and of the slots, in that folder.
fn spares_of(alloc: Global, workers: usize) -> Result<Vec<String>, AllocError> {
    let mut paths = Vec::new(alloc);
    for half in 0..2 {
        paths.push(format!(in alloc; "mt_server_tests_bad/check-{half}")?)?;
        for worker in 0..workers {
            paths.push(format!(in alloc; "mt_server_tests_bad/wal-0{worker}-{half}")?)?;
        }
    }
    Ok(paths)
}

// A store in that folder with such a plain file and such a numbered one is refused so, and both stay.
fn expect_numbered_refused<
    R: Host + Net<Listener = TcpListener, Stream = TcpStream> + Files<File = File> + Alloc,
>(rt: &R, alloc: Global, row: &str) {
    let (files, told) = row.split_once(" => ").expect(rt, "a row has two parts");
    let (names, next) = files.split_once(" | ").expect(rt, "a row has a log");
    let (len, edits) = next.split_once(" | ").expect(rt, "a log has a length");
    let (word, parity) = names.split_once(' ').expect(rt, "two files");
    let plain = if word == "log" { LOG } else { SPARE };
    let numbered = format!(in alloc; "mt_server_tests_bad/wal-00-{parity}").expect(rt, "memory");
    let image = image_with(alloc, NEXT_LOG, edits, len).expect(rt, "memory");
    let new = "mt_server --workers 1 --store mt_server_tests_bad 7:1 --create";
    expect_told(rt, alloc, new, "0: ");
    fs::write(rt, numbered.as_str(), image.as_slice()).expect(rt, "a file");
    fs::write(rt, "mt_server_tests_bad/wal-00", plain).expect(rt, "a file");
    let line = "mt_server --workers 1 --store mt_server_tests_bad 7:1";
    expect_told(rt, alloc, line, told);
    expect_file(rt, "mt_server_tests_bad/wal-00", &[plain]);
    expect_file(rt, numbered.as_str(), &[&image]);
}

#[test]
fn hostile_logs_are_refused(rt: HostRuntime) -> Result<(), Fail> {
    let _ = fs::remove_dir_all(&rt, "mt_server_tests_bad");
    for row in &REFUSED {
        expect_refused(&rt, rt.alloc(), row);
    }
    for row in &BAD_NUMBERED {
        expect_numbered_refused(&rt, rt.alloc(), row);
    }
    fs::remove_dir_all(&rt, "mt_server_tests_bad")?;
    Ok(())
}

// What the plain file of the only worker has, and its odd numbered one; and which file is missing without which the logs are
// no set.
const MISSING: [(&[u8], &[u8], &str); 3] = [
    (LOG, NEXT_LOG, "mt_server_tests_missing/wal-00"),
    (SPARE, NEXT_LOG, "mt_server_tests_missing/wal-00-1"),
    (SPARE, NEXT_LOG, "mt_server_tests_missing/check-1"),
];

// A start that a missing file refuses names it, and leaves the folder as it was.
#[test]
fn a_missing_file_is_named_and_stays_missing(rt: HostRuntime) -> Result<(), Fail> {
    let _ = fs::remove_dir_all(&rt, "mt_server_tests_missing");
    let new = "mt_server --workers 1 --store mt_server_tests_missing --create 7:1";
    for &(plain, odd, missing) in &MISSING {
        expect_told(&rt, rt.alloc(), new, "0: ");
        fs::write(&rt, "mt_server_tests_missing/wal-00", plain)?;
        fs::write(&rt, "mt_server_tests_missing/wal-00-1", odd)?;
        fs::remove_file(&rt, missing)?;
        let told = format!(in rt.alloc();
            "3: E15: '{missing}' is missing, which this store had: put all files back from one backup"
        )?;
        let line = "mt_server --workers 1 --store mt_server_tests_missing 7:1";
        expect_told(&rt, rt.alloc(), line, told.as_str());
        assert!(rt; !fs::exists(&rt, missing)?, "{missing}");
        for (path, bytes) in [
            ("mt_server_tests_missing/wal-00", plain),
            ("mt_server_tests_missing/wal-00-0", SPARE),
            ("mt_server_tests_missing/wal-00-1", odd),
            ("mt_server_tests_missing/check-0", SPARE),
            ("mt_server_tests_missing/check-1", SPARE),
        ] {
            if path != missing {
                expect_file(&rt, path, &[bytes]);
            }
        }
    }
    fs::remove_dir_all(&rt, "mt_server_tests_missing")?;
    Ok(())
}

// The store that a line names.
pub fn opened<R: Host + Net<Listener = TcpListener, Stream = TcpStream> + Files<File = File>>(
    rt: &R,
    alloc: Global,
    line: &str,
) -> OpenStore
    ensures { IsUnasked result.store.source.state }
{
    match open_store(rt, alloc, &at_a_free_port(rt, alloc, line)) {
        Ok(opened) => opened,
        Err(_) => panic!(rt; "{line}: not opened"),
    }
}

// The numbered files of the only worker, and the slots.
const BESIDE_THE_LOG: [&str; 4] = [
    "mt_server_tests_files/wal-00-0",
    "mt_server_tests_files/wal-00-1",
    "mt_server_tests_files/check-0",
    "mt_server_tests_files/check-1",
];

// What stands in both numbered files before a start, and after it: nothing, no log, and a torn gate, which is closed.
const WITHOUT_A_LOG: [(&[u8], &[u8]); 4] = [
    (b"", SPARE),
    (SPARE, SPARE),
    (b"\x00\x01MTLOG", b"\x00\x01MTLOG"),
    (b"\x07\x01MTLOG", b"\x00\x01MTLOG"),
];

// A settled put is in the file, in the bytes of the format. At the next start its log has grown by the batch
// with which a recovery ends before anybody is served, and then the put is found. No checkpoint is written unasked. A slot or
// a numbered file that is missing, as older servers left it, is made at the start. One without a log is none.
#[test]
fn a_store_comes_back_from_its_files(rt: HostRuntime) {
    let _ = fs::remove_dir_all(&rt, "mt_server_tests_files");
    let new = "mt_server --workers 1 --store mt_server_tests_files --sessions 1 --create 7:100";
    serve(&rt, rt.alloc(), new, &[OPEN, PUT, SETTLE_6]);
    expect_file(&rt, "mt_server_tests_files/wal-00", &[LOG]);
    for &path in &BESIDE_THE_LOG {
        expect_file(&rt, path, &[SPARE]);
        assert!(rt; fs::remove_file(&rt, path).is_ok());
    }
    let again = "mt_server --workers 1 --store mt_server_tests_files --sessions 1 7:100";
    let OpenStore { store, folder, .. } = opened(&rt, rt.alloc(), again);
    expect_file(&rt, "mt_server_tests_files/wal-00", &[&LOG[..54], RESUME]);
    for &path in &BESIDE_THE_LOG {
        expect_file(&rt, path, &[SPARE]);
    }
    drop(serve_told(&rt, rt.alloc(), store, again, &[OPEN, GET]));
    drop(folder);
    let [even, odd, _, _] = BESIDE_THE_LOG;
    for &(before, after) in &WITHOUT_A_LOG {
        for path in [even, odd] {
            assert!(rt; fs::write(&rt, path, before).is_ok());
        }
        serve(&rt, rt.alloc(), again, &[OPEN, GET]);
        for path in [even, odd] {
            expect_file(&rt, path, &[after]);
        }
    }
    let _ = fs::remove_dir_all(&rt, "mt_server_tests_files");
}

// A file has these bytes.
pub fn expect_file<R: Files<File = File> + Alloc + Abort>(rt: &R, path: &str, parts: &[&[u8]]) {
    let bytes = fs::read(rt, path).expect(rt, "a file");
    let mut rest = bytes.as_slice();
    for part in parts {
        assert!(rt; rest.starts_with(part), "{path}");
        rest = &rest[part.len()..];
    }
    assert!(rt; rest.is_empty(), "{path}");
}
