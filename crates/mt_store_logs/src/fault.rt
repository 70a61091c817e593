//! Why a store's logs were not brought up, or why the store was not recovered.

ghost use Rattle.std.specs.Prelude.{◌≡◌, None, Some};
ghost use Rattle.mt_store_logs.specs.Recovers.{refusal_in};

use mt_chain_files::FilesFault;
use mt_rows::Refusal;
use mt_slots::SlotFault;

/// Why a store's logs were not made, opened or recovered.
#[derive(Clone, Copy, Debug, PartialEq, Eq)]
pub struct LogRefusal {
    /// The place of the log that is the cause, from 0 on; none where it is all of them together.
    pub log: Option<usize>,
    pub refusal: Refusal,
}

impl LogRefusal {
    // Of the log at a place.
    pub(crate) fn at(place: usize, refusal: Refusal) -> LogRefusal
        ensures { result ≡ record { log = Some place; refusal = refusal } }
    {
        LogRefusal {
            log: Some(place),
            refusal,
        }
    }

    // Of all of them together.
    pub(crate) fn of_all(refusal: Refusal) -> LogRefusal
        ensures { result ≡ record { log = None; refusal = refusal } }
    {
        LogRefusal { log: None, refusal }
    }
}

impl From<FilesFault> for LogRefusal {
    ghost use Rattle.mt_store_logs.specs.Taking.{fault_of};

    ghost from_gives = { λ fault e. fault_of e ≡ fault };

    fn from(fault: FilesFault) -> LogRefusal {
        LogRefusal {
            log: fault.log,
            refusal: fault.refusal,
        }
    }
}

/// Why a store was not recovered.
#[derive(Clone, Copy, Debug, PartialEq, Eq)]
pub enum StoreRefusal {
    /// For its logs, or for what they and the slots tell.
    Logs(LogRefusal),
    /// A slot was not read.
    Slot(SlotFault),
}

impl StoreRefusal {
    /// The refusal.
    pub fn refusal(self) -> Refusal
        ensures { result ≡ refusal_in self }
    {
        match self {
            StoreRefusal::Logs(refused) => refused.refusal,
            StoreRefusal::Slot(fault) => fault.cause.refusal(),
        }
    }
}

impl From<LogRefusal> for StoreRefusal {
    ghost use Rattle.mt_store_logs.specs.declared.fault.StoreRefusal.TheVariants.{Logs};

    ghost from_gives = { λ refusal e. e ≡ Logs refusal };

    fn from(refusal: LogRefusal) -> StoreRefusal {
        StoreRefusal::Logs(refusal)
    }
}

impl From<SlotFault> for StoreRefusal {
    ghost use Rattle.mt_store_logs.specs.declared.fault.StoreRefusal.TheVariants.{Slot};

    ghost from_gives = { λ fault e. e ≡ Slot fault };

    fn from(fault: SlotFault) -> StoreRefusal {
        StoreRefusal::Slot(fault)
    }
}
