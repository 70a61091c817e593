//! Options from the words of a command line.

ghost use Rattle.std.specs.Prelude.{List, ◌≡◌, ◌<◌, ◌≤◌, Some, IfOk, IfErr, MatchResult, codes, length, map, slice_get};
ghost use Rattle.clap.specs.Words.{Text, found_of, rows_of};
ghost use Rattle.mt_command_line.specs.{CommandLine.{found_in, tenant_words}, Given.{EndsSilent, IsGiven}, Matches.{AreMatches, MayHaveNumbers}, Reads.{AsksFor, IsFoldersFault, IsStoreFault, IsTold, IsVerifyFault, Names, NamesFolders, NamesStore, NamesVerified}};

use crate::command::command_of;
use crate::faults::OptionsFault;
use clap::ArgMatches;
use clap::error::ErrorKind;
use mt_options::{
    MAX_CONNECTIONS, MAX_WORKERS, Options, StorePlace, TenantQuota, TenantsFault, read_tenants,
};
use mt_rows::Refusal;
use std::alloc::{AllocError, Global};

// A copy of the word of this number.
fn word_at(alloc: Global, words: &[&str], at: usize) -> Result<String, AllocError>
    requires { at < length words.now }
    ensures { IfOk result (λ word. slice_get (map (λ w. w.now) words.now) at ≡ Some word.bytes.items) }
{
    String::from_str(alloc, words[at])
}

// The tenants that the matches name.
fn tenants_of(alloc: Global, matches: &ArgMatches<'_>) -> Result<Vec<TenantQuota>, OptionsFault>
    ensures { Names (tenant_words (rows_of (found_of matches.now))) result }
{
    named_by(alloc, matches.get_strs("tenants").unwrap_or(&[]))
}

// The tenants that these words name.
fn named_by(alloc: Global, words: &[&str]) -> Result<Vec<TenantQuota>, OptionsFault>
    ensures { Names (map (λ w. w.now) words.now) result }
{
    match read_tenants(alloc, words) {
        Ok(tenants) => Ok(tenants),
        Err(TenantsFault::Malformed(before, why)) => Err(OptionsFault::Malformed {
            word: word_at(alloc, words, before)?,
            before,
            why,
        }),
        Err(TenantsFault::Refused(_, Refusal::Memory)) => Err(OptionsFault::Memory),
        Err(TenantsFault::Refused(before, refusal)) => Err(OptionsFault::Refused {
            word: word_at(alloc, words, before)?,
            before,
            refusal,
        }),
    }
}

// The folder that the matches name for a store, whether it is made anew, and when a checkpoint is written and all is settled.
fn store_of(alloc: Global, matches: &ArgMatches<'_>) -> Result<Option<StorePlace>, OptionsFault>
    ensures { MayHaveNumbers (found_of matches.now)
        → MatchResult result (NamesStore (rows_of (found_of matches.now))) (IsStoreFault (rows_of (found_of matches.now))) }
{
    let create = matches.get_flag("create");
    let checkpoint = matches.get_one::<u32>("checkpoint");
    let bytes = matches.get_one::<u64>("checkpoint-bytes");
    let settle_every = matches.get_one::<u32>("settle-every");
    let by_answers = checkpoint.is_some();
    let by_bytes = bytes.is_some();
    let by_clock = settle_every.is_some();
    match matches.get_str("store") {
        Some(folder) => Ok(Some(StorePlace {
            folder: String::from_str(alloc, folder)?,
            create,
            checkpoint: checkpoint.unwrap_or(0),
            checkpoint_bytes: bytes.unwrap_or(0),
            settle_every: settle_every.unwrap_or(0),
        })),
        None if create => Err(OptionsFault::CreateAlone),
        None if by_answers => Err(OptionsFault::CheckpointAlone),
        None if by_bytes => Err(OptionsFault::CheckpointBytesAlone),
        None if by_clock => Err(OptionsFault::SettleEveryAlone),
        None => Ok(None),
    }
}

// The folder of a store that the matches ask to be only read, if they name one.
fn verified_of(alloc: Global, matches: &ArgMatches<'_>) -> Result<Option<String>, OptionsFault>
    ensures { MatchResult result (NamesVerified (rows_of (found_of matches.now))) (IsVerifyFault (rows_of (found_of matches.now))) }
{
    let is_made = matches.get_flag("create");
    let is_served = is_made || matches.get_str("store").is_some();
    match matches.get_str("verify") {
        None => Ok(None),
        Some(_) if is_served => Err(OptionsFault::VerifyAndServe),
        Some(folder) => Ok(Some(String::from_str(alloc, folder)?)),
    }
}

// The folder of a store that is only read, or else the place of one that is served, if the matches name one.
fn folders_of(
    alloc: Global,
    matches: &ArgMatches<'_>,
) -> Result<(Option<String>, Option<StorePlace>), OptionsFault>
    ensures { MayHaveNumbers (found_of matches.now)
        → MatchResult result (λ r. NamesFolders (rows_of (found_of matches.now)) r.0 r.1) (IsFoldersFault (rows_of (found_of matches.now))) }
{
    match verified_of(alloc, matches)? {
        Some(folder) => Ok((Some(folder), None)),
        None => Ok((None, store_of(alloc, matches)?)),
    }
}

// How many connections each worker serves at a time, and after how many seconds it ends a silent one.
fn connections_of(matches: &ArgMatches<'_>) -> Result<(u32, u32), OptionsFault>
    ensures within { IfOk result (λ r. (1 ≤ r.0) × (r.0 ≤ 65536) × (r.0 ≡ 1 → r.1 ≡ 0)) }
    ensures asked { (words : List Text) → AreMatches words matches.now
        → MatchResult result (λ r. IsGiven (codes "connections") 1 65536 (found_in words) r.0 × EndsSilent (found_in words) r.0 r.1) (IsTold words) }
{
    let connections = matches
        .get_one::<u32>("connections")
        .unwrap_or(1)
        .clamp(1, MAX_CONNECTIONS);
    let idle = matches.get_one::<u32>("idle").unwrap_or(0);
    if connections == 1 && idle != 0 {
        return Err(OptionsFault::IdleAlone);
    }
    Ok((connections, idle))
}

// What the matches ask for.
fn options_of(alloc: Global, matches: &ArgMatches<'_>) -> Result<Options, OptionsFault>
    ensures { (words : List Text) → AreMatches words matches.now → MatchResult result (AsksFor words) (IsTold words) }
{
    let (connections, idle) = connections_of(matches)?;
    let (verify, store) = folders_of(alloc, matches)?;
    let tenants = tenants_of(alloc, matches)?;
    Ok(Options {
        port: matches.get_one::<u16>("port").unwrap_or(7411),
        workers: matches
            .get_one::<u8>("workers")
            .unwrap_or(4)
            .clamp(1, MAX_WORKERS),
        sessions: matches.get_one::<u32>("sessions").unwrap_or(0),
        connections,
        idle,
        store,
        verify,
        tenants,
    })
}

/// Reads the words of a command line, the first of which is the program's name. The options are judged
/// before the tenants, and these from the left.
pub fn read_options(alloc: Global, words: &[String]) -> Result<Options, OptionsFault>
    ensures ok { IfOk result (AsksFor (map (λ w. w.bytes.items) words.now)) }
    ensures err { IfErr result (IsTold (map (λ w. w.bytes.items) words.now)) }
{
    let command = command_of(alloc)?;
    match command.try_get_matches_from(words) {
        Ok(matches) => options_of(alloc, &matches),
        Err(error) => {
            if error.kind() == ErrorKind::OutOfMemory {
                return Err(OptionsFault::Memory);
            }
            Err(OptionsFault::Words(error))
        }
    }
}
