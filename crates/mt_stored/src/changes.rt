//! What a turn made of a log's place, for whoever looks after the server.

ghost use Rattle.std.specs.Prelude.{◌≡◌};
ghost use Rattle.mt_stored.specs.Changes.{change_in};

use std::fmt;

/// A log of this number closed since its disk failed, or is open again.
#[derive(Clone, Copy, Debug, PartialEq, Eq)]
pub enum LogChange {
    Closed(u8),
    Opened(u8),
}

impl fmt::Display for LogChange {
    ghost use Rattle.std.specs.Prelude.{Some};
    ghost use Rattle.mt_stored.specs.Changes.{text_of};

    ghost output = { λ change. Some (text_of change) };

    fn fmt<W: fmt::Write>(&self, f: &mut fmt::Formatter<W>) -> fmt::Result {
        match self {
            LogChange::Closed(log) => write!(
                f,
                "log {log}: its disk failed; it is closed until a write succeeds"
            ),
            LogChange::Opened(log) => write!(f, "log {log}: open again"),
        }
    }
}

/// What became of a log, by the step up to which it goes before and after; a closed one has none.
pub fn change_of(log: u8, before: Option<u64>, after: Option<u64>) -> Option<LogChange>
    ensures { result ≡ change_in log before after }
{
    match (before, after) {
        (Some(_), None) => Some(LogChange::Closed(log)),
        (None, Some(_)) => Some(LogChange::Opened(log)),
        _ => None,
    }
}
