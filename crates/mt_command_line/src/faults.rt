//! Why a command line starts no server, and what the program says and returns then.

ghost use Rattle.std.specs.Prelude.{◌≡◌, ◌⊎◌};
ghost use Rattle.mt_command_line.specs.Faults.{HasStatus};

use clap::Error as WordsError;
use mt_options::WordFault;
use mt_rows::Refusal;
use std::alloc::{AllocError, AllocFailed};
use std::error::Error;
use std::fmt;

/// Why no server is started. It is printed without the program's name, in one line but for `Words` and for a
/// word that has line breaks.
#[derive(Debug, Drop)]
pub enum OptionsFault {
    /// The words are no options of the program's, or ask for help or for the version.
    Words(WordsError),
    /// `--create` is given without `--store`.
    CreateAlone,
    /// `--checkpoint` is given without `--store`, and `--create` isn't.
    CheckpointAlone,
    /// `--checkpoint-bytes` is given without `--store`, and neither of these is.
    CheckpointBytesAlone,
    /// `--settle-every` is given without `--store`, and none of these is.
    SettleEveryAlone,
    /// `--verify` is given with `--store` or `--create`.
    VerifyAndServe,
    /// `--idle` is more than 0, and `--connections` is 1.
    IdleAlone,
    /// This word isn't `T:Q`, for this reason. So many of the tenants' words stand before it.
    Malformed {
        word: String,
        before: usize,
        why: WordFault,
    },
    /// The tenant of this word was refused, `TenantThere` or `Quota`. So many of the tenants' words stand
    /// before it.
    Refused {
        word: String,
        before: usize,
        refusal: Refusal,
    },
    /// A growth was refused.
    Memory,
}

impl OptionsFault {
    /// The program's exit status: 0 if the words ask for help or for the version, 1 if memory is short,
    /// else 2.
    pub fn status(&self) -> u8
        ensures { HasStatus self.now result }
    {
        match self {
            OptionsFault::Words(error) => { if error.use_stderr() { 2 } else { 0 } }
            OptionsFault::CreateAlone
            | OptionsFault::CheckpointAlone
            | OptionsFault::CheckpointBytesAlone
            | OptionsFault::SettleEveryAlone
            | OptionsFault::VerifyAndServe
            | OptionsFault::IdleAlone
            | OptionsFault::Malformed { .. }
            | OptionsFault::Refused { .. } => 2,
            OptionsFault::Memory => 1,
        }
    }

    /// Prints the help or the version that was asked for to standard output, and all else to standard error.
    /// It answers the status to end with, which is 1 for help that can't be printed.
    pub fn tell<R: Print + Eprint>(&self, rt: &R) -> u8
        ensures { HasStatus self.now result ⊎ (HasStatus self.now 0 × (result ≡ 1)) }
    {
        let printed = match self {
            OptionsFault::Words(error) => error.print(rt),
            _ => eprintln!(rt; "mt_server: {self}"),
        };
        let status = self.status();
        if status == 0 && printed.is_err() {
            1
        } else {
            status
        }
    }
}

// What a word that isn't `T:Q` lacks, in words.
fn wanted(why: WordFault) -> &'static str {
    match why {
        WordFault::NoColon => "it has no colon",
        WordFault::Tenant => "T is 0 to 4294967295, in decimal digits",
        WordFault::Quota => "Q is 1 to 1048576, in decimal digits",
    }
}

/// What to do about a tenant that is refused, in words.
pub fn remedy(refusal: Refusal) -> &'static str {
    match refusal {
        Refusal::TenantThere => "a tenant is named twice: name each once",
        Refusal::Quota => "a quota is 1 to 1048576 pairs",
        Refusal::Memory => "out of memory",
        _ => "see the table of refusals in docs/FORMATS.md",
    }
}

impl fmt::Display for OptionsFault {
    fn fmt<W: fmt::Write>(&self, f: &mut fmt::Formatter<W>) -> fmt::Result {
        match self {
            OptionsFault::Words(error) => write!(f, "{error}"),
            OptionsFault::CreateAlone => write!(
                f,
                "--create makes the logs of a folder anew, and --store DIR names none"
            ),
            OptionsFault::CheckpointAlone => write!(
                f,
                "--checkpoint writes checkpoints of a folder's store, and --store DIR names none"
            ),
            OptionsFault::CheckpointBytesAlone => write!(
                f,
                "--checkpoint-bytes writes checkpoints of a folder's store, and --store DIR names none"
            ),
            OptionsFault::SettleEveryAlone => write!(
                f,
                "--settle-every settles a folder's store, and --store DIR names none"
            ),
            OptionsFault::VerifyAndServe => write!(
                f,
                "--verify only reads a store: give it in place of --store, and without --create"
            ),
            OptionsFault::IdleAlone => write!(
                f,
                "--idle ends silent connections of workers that serve several each, and --connections C is 1"
            ),
            OptionsFault::Malformed { word, why, .. } => write!(
                f,
                "'{word}' isn't T:Q, a tenant's number and its quota: {}",
                wanted(*why)
            ),
            OptionsFault::Refused { word, refusal, .. } => {
                write!(f, "{refusal}: '{word}': {}", remedy(*refusal))
            }
            OptionsFault::Memory => {
                write!(f, "{}: {}", Refusal::Memory, remedy(Refusal::Memory))
            }
        }
    }
}

impl Error for OptionsFault {}

impl From<AllocError> for OptionsFault {
    ghost use Rattle.std.specs.Prelude.{◌≡◌};
    ghost use Rattle.mt_command_line.specs.declared.faults.OptionsFault.TheVariants.{Memory};

    ghost from_gives = { λ _ f. f ≡ Memory };

    fn from(_: AllocError) -> OptionsFault {
        OptionsFault::Memory
    }
}

impl<T: Drop> From<AllocFailed<T>> for OptionsFault {
    ghost use Rattle.std.specs.Prelude.{◌≡◌};
    ghost use Rattle.mt_command_line.specs.declared.faults.OptionsFault.TheVariants.{Memory};

    ghost from_gives = { λ _ f. f ≡ Memory };

    fn from(_: AllocFailed<T>) -> OptionsFault {
        OptionsFault::Memory
    }
}
