//! What the words of a command line ask for, or how they are refused.
//! What is said of a start that fails, where it takes more than a folder to bring that about.

use super::*;
use mt_command_line::{OptionsFault, VERSION, read_options};
use mt_disk::SystemError;
use mt_log_generations::Parity;
use mt_options::Options;
use mt_store_files::{FolderFault, Suspects};

// The words of a line, as a shell parts them.
fn words_of(alloc: Global, line: &str) -> Result<Vec<String>, AllocError> {
    let mut words = Vec::new(alloc);
    for word in line.split_whitespace() {
        words.push(String::from_str(alloc, word)?)?;
    }
    Ok(words)
}

// The options of a line, which has no fault.
pub fn options_of(rt: &impl Abort, alloc: Global, line: &str) -> Options {
    let words = words_of(alloc, line).expect(rt, "memory");
    match read_options(alloc, words.as_slice()) {
        Ok(options) => options,
        Err(_) => panic!(rt; "{line}: refused"),
    }
}

// Why a line starts no server.
fn fault_of(rt: &impl Abort, alloc: Global, line: &str) -> OptionsFault {
    let words = words_of(alloc, line).expect(rt, "memory");
    match read_options(alloc, words.as_slice()) {
        Ok(_) => panic!(rt; "{line}: taken"),
        Err(fault) => fault,
    }
}

// The words after the program's, and what they ask for: the port, workers, connections of each, silent seconds, sessions and
// tenants; a store's folder, whether it is made anew, and when a checkpoint is written and all is settled; and the folder of a
// store that is only read, which is named by a line of a start, with its other options.
const READ: [&str; 10] = [
    "--port 0 --workers 64 --sessions 2 7:100 8:1 => 0 64 1 0 2 2; no store; ",
    "4294967295:1048576 => 7411 4 1 0 0 1; no store; ",
    "--store here 7:1 => 7411 4 1 0 0 1; here false 0 0 0; ",
    "7:1 --create --store=a/b => 7411 4 1 0 0 1; a/b true 0 0 0; ",
    "--checkpoint 0 --store here --checkpoint-bytes 1 7:1 => 7411 4 1 0 0 1; here false 0 1 0; ",
    "--store here --checkpoint=4294967295 7:1 --create => 7411 4 1 0 0 1; here true 4294967295 0 0; ",
    "--store here --settle-every 4294967295 --checkpoint-bytes 18446744073709551615 7:1 => 7411 4 1 0 0 1; here false 0 18446744073709551615 4294967295; ",
    "--connections 65536 --idle 4294967 7:1 => 7411 4 65536 4294967 0 1; no store; ",
    "--idle 0 --connections 2 --store=here 7:1 --workers 1 => 7411 1 2 0 0 1; here false 0 0 0; ",
    "--workers 2 --verify a/b --checkpoint 5 --settle-every 1 7:1 => 7411 2 1 0 0 1; no store; a/b",
];

// What options ask for, in the words of `READ`.
fn told_of(alloc: Global, options: &Options) -> Result<String, AllocError> {
    let store = match &options.store {
        Some(place) => format!(in alloc;
            "{} {} {} {} {}",
            place.folder, place.create, place.checkpoint, place.checkpoint_bytes, place.settle_every
        )?,
        None => String::from_str(alloc, "no store")?,
    };
    let verify = options
        .verify
        .as_ref()
        .map(|folder| folder.as_str())
        .unwrap_or("");
    let tenants = options.tenants.len();
    Ok(format!(in alloc;
        "{} {} {} {} {} {tenants}; {store}; {verify}",
        options.port, options.workers, options.connections, options.idle, options.sessions
    )?)
}

#[test]
fn words_are_read(rt: HostRuntime) -> Result<(), Fail> {
    for row in READ {
        let (words, wanted) = row.split_once(" => ").expect(&rt, "a row has two parts");
        let line = format!(in rt.alloc(); "mt_server {words}")?;
        let options = options_of(&rt, rt.alloc(), line.as_str());
        let told = told_of(rt.alloc(), &options)?;
        assert_eq!(rt; told.as_str(), wanted);
    }
    Ok(())
}

// The words after the program's, the status, and how what is said begins. A fault names the word, what is wrong with it,
// and its bounds.
const REFUSED: [&str; 43] = [
    "7:0 => 2: E7: '7:0': a quota is 1 to 1048576 pairs",
    "8:1 7:1048577 => 2: E7: '7:1048577': a quota is 1 to 1048576 pairs",
    "--store here 7:0 => 2: E7: '7:0': a quota is 1 to 1048576 pairs",
    "7:1 7:1 => 2: E3: '7:1': a tenant is named twice: name each once",
    "7:1 8:1 7:0 => 2: E3: '7:0': a tenant is named twice: name each once",
    " => 2: ",
    "8:1 7 => 2: '7' isn't T:Q, a tenant's number and its quota: it has no colon",
    ":1 => 2: ':1' isn't T:Q, a tenant's number and its quota: T is 0 to 4294967295, in decimal digits",
    "4294967296:x => 2: '4294967296:x' isn't T:Q, a tenant's number and its quota: T is 0 to 4294967295, in decimal digits",
    "7: => 2: '7:' isn't T:Q, a tenant's number and its quota: Q is 1 to 1048576, in decimal digits",
    "7:+1 => 2: '7:+1' isn't T:Q, a tenant's number and its quota: Q is 1 to 1048576, in decimal digits",
    "7:1:2 => 2: '7:1:2' isn't T:Q, a tenant's number and its quota: Q is 1 to 1048576, in decimal digits",
    "--create 7:0 => 2: --create makes the logs of a folder anew, and --store DIR names none",
    "--create --checkpoint 1 7:1 => 2: --create makes the logs of a folder anew, and --store DIR names none",
    "--checkpoint 0 7:0 => 2: --checkpoint writes checkpoints of a folder's store, and --store DIR names none",
    "--checkpoint 0 --checkpoint-bytes 1 7:1 => 2: --checkpoint writes checkpoints of a folder's store, and --store DIR names none",
    "--settle-every 1 --checkpoint-bytes 0 7:0 => 2: --checkpoint-bytes writes checkpoints of a folder's store, and --store DIR names none",
    "--settle-every 0 7:0 => 2: --settle-every settles a folder's store, and --store DIR names none",
    "--verify here --store here 7:0 => 2: --verify only reads a store: give it in place of --store, and without --create",
    "--create --verify here 7:1 => 2: --verify only reads a store: give it in place of --store, and without --create",
    "--verify here --checkpoint 1 7:0 => 2: E7: '7:0': a quota is 1 to 1048576 pairs",
    "--verify 7:1 => 2: error: ",
    "--idle 1 7:0 => 2: --idle ends silent connections of workers that serve several each, and --connections C is 1",
    "--create --idle 5 --connections 1 7:1 => 2: --idle ends silent connections of workers that serve several each, and --connections C is 1",
    "--port 65536 7:1 => 2: error: invalid value '65536' for '--port <P>': 65536 is not in 0..=65535",
    "--port x 7:1 => 2: error: invalid value 'x' for '--port <P>': ",
    "--workers 0 7:1 => 2: error: invalid value '0' for '--workers <N>': 0 is not in 1..=64",
    "--workers 65 7:1 => 2: error: invalid value '65' for '--workers <N>': 65 is not in 1..=64",
    "--connections 0 7:1 => 2: error: invalid value '0' for '--connections <C>': 0 is not in 1..=65536",
    "--connections 65537 7:1 => 2: error: invalid value '65537' for '--connections <C>': 65537 is not in 1..=65536",
    "--connections 2 --idle 4294968 7:1 => 2: error: invalid value '4294968' for '--idle <S>': 4294968 is not in 0..=4294967",
    "--sessions 4294967296 7:1 => 2: error: invalid value '4294967296' for '--sessions <S>': 4294967296 is not in 0..=4294967295",
    "--store here --checkpoint 4294967296 7:1 => 2: error: invalid value '4294967296' for '--checkpoint <K>': 4294967296 is not in 0..=4294967295",
    "--store here --checkpoint-bytes 18446744073709551616 7:1 => 2: error: invalid value '18446744073709551616' for '--checkpoint-bytes <B>': ",
    "--store here --settle-every 4294967296 7:1 => 2: error: invalid value '4294967296' for '--settle-every <M>': 4294967296 is not in 0..=4294967295",
    "--store here --checkpoint -1 7:1 => 2: error: ",
    "--store here --checkpoint 7:1 => 2: error: ",
    "--store here --checkpoint 1 --checkpoint 1 7:1 => 2: error: ",
    "--store 7:1 => 2: error: ",
    "--store here --store there 7:1 => 2: error: ",
    "--create=1 --store here 7:1 => 2: error: ",
    "--checkpoints 1 7:1 => 2: error: unexpected argument '--checkpoints' found",
    "--help => 0: ",
];

#[test]
fn words_are_refused(rt: HostRuntime) -> Result<(), Fail> {
    let alloc = rt.alloc();
    for row in REFUSED {
        let (words, wanted) = row.split_once(" => ").expect(&rt, "a row has two parts");
        let line = format!(in alloc; "mt_server {words}")?;
        let fault = fault_of(&rt, rt.alloc(), line.as_str());
        let told = format!(in alloc; "{}: {fault}", fault.status())?;
        assert!(rt; told.starts_with(wanted), "{words}: {told}");
    }
    Ok(())
}

#[test]
fn the_version_is_told(rt: HostRuntime) -> Result<(), Fail> {
    let wanted = format!(in rt.alloc(); "mt_server {VERSION}\n")?;
    for line in ["mt_server --version", "mt_server 7:1 -V"] {
        let fault = fault_of(&rt, rt.alloc(), line);
        let told = format!(in rt.alloc(); "{fault}")?;
        assert_eq!(rt;
            (told.as_str(), fault.status()),
            (wanted.as_str(), 0),
            "{line}"
        );
    }
    Ok(())
}

#[test]
fn faults_name_the_folder(rt: HostRuntime) -> Result<(), Fail> {
    let faults = [
        (StoreFault::Memory, "E2: out of memory"),
        (
            StoreFault::Missing(vec![in rt.alloc();
                StoreFile::Log(0),
                StoreFile::Slot(Slot::First),
            ]?),
            "E15: 'a/b/wal-00', 'a/b/check-0' are missing, which this store had: put all files back from one backup",
        ),
        (
            StoreFault::Refused(Some(StoreFile::Log(63)), Refusal::Device),
            "E10: 'a/b/wal-63': the device failed: see what the system says of it, and start again",
        ),
        (
            StoreFault::Device(
                FolderFile::Store(StoreFile::Numbered(0, Parity::Even)),
                None,
            ),
            "E10: 'a/b/wal-00-0': the device failed: see what the system says of it, and start again",
        ),
        (
            StoreFault::Device(
                FolderFile::Digest(StoreFile::Numbered(63, Parity::Odd)),
                Some(SystemError::Number(28)),
            ),
            "E10: 'a/b/wal-63-1.sha256': the device failed: no space left on device",
        ),
        (
            StoreFault::RefusedLog(Suspects::none(63), Refusal::Device),
            "E10: the log of worker 63 in 'a/b': the device failed: see what the system says of it, and start again",
        ),
        (
            StoreFault::RefusedLog(
                Suspects {
                    worker: 3,
                    plain: true,
                    even: true,
                    odd: true,
                },
                Refusal::StampsFall {
                    number: 3,
                    stamp: 5,
                },
            ),
            "E13: 'a/b/wal-03' or 'a/b/wal-03-0' or 'a/b/wal-03-1' doesn't go with the other logs at step 5: put all files back from one backup",
        ),
        (
            StoreFault::Refused(Some(StoreFile::Slot(Slot::Second)), Refusal::Device),
            "E10: 'a/b/check-1': the device failed: see what the system says of it, and start again",
        ),
    ];
    for (fault, wanted) in faults {
        let folder = String::from_str(rt.alloc(), "a/b")?;
        let fault = ServerFault::Store(FolderFault { folder, fault });
        let told = format!(in rt.alloc(); "{fault}")?;
        assert_eq!(rt; told.as_str(), wanted);
    }
    Ok(())
}

#[test]
fn a_port_in_use_is_named(rt: HostRuntime) -> Result<(), Fail> {
    let error = io::Error::from(ErrorKind::AddrInUse);
    let wanted = format!(in rt.alloc();
        "127.0.0.1:7411 can't be listened at: {error}: choose another --port"
    )?;
    let fault = ServerFault::Listen { port: 7411, error };
    let told = format!(in rt.alloc(); "{fault}")?;
    assert_eq!(rt; told.as_str(), wanted.as_str());
    assert_eq!(rt; fault.status(), 1);
    Ok(())
}
