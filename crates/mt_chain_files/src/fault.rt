//! Why a store's log files were not opened.

ghost use Rattle.std.specs.Prelude.{◌≡◌, None, Some};

use mt_rows::Refusal;

/// Why the log files of a store were not opened.
#[derive(Clone, Copy, Debug, PartialEq, Eq)]
pub struct FilesFault {
    /// The place of the worker whose log is the cause, from 0 on. None, if it is all of them together.
    pub log: Option<usize>,
    pub refusal: Refusal,
}

impl FilesFault {
    /// Of the worker at a place.
    pub fn at(place: usize, refusal: Refusal) -> FilesFault
        ensures { result ≡ record { log = Some place; refusal = refusal } }
    {
        FilesFault {
            log: Some(place),
            refusal,
        }
    }

    /// Of all workers together.
    pub fn of_all(refusal: Refusal) -> FilesFault
        ensures { result ≡ record { log = None; refusal = refusal } }
    {
        FilesFault { log: None, refusal }
    }
}
