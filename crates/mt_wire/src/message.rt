//! What a client asks and is told.

ghost use Rattle.std.specs.Prelude.{◌≡◌};
ghost use Rattle.mt_rows.specs.Refusals.{number_of};
ghost use Rattle.mt_wire.specs.{Replies.IsRefusalNumber, Asked.shown_as};

use mt_rows::{ColumnIndexes, Command, Key, Refusal, Reply, Row, ShownPairs, StampedRow};
use std::marker::Model;

/// What a client asks.
#[derive(Debug, Drop)]
pub enum Request {
    /// To be served as this tenant.
    Open(u32),
    /// A command of the opened tenant, whose reply shows no stamp of a row.
    Call(Command),
    /// A get of the opened tenant whose reply shows the row's stamp.
    GetStamped { key: Key, columns: ColumnIndexes },
    /// That all that was answered be kept.
    Settle,
}

/// What is told of a command: a reply, with the stamps that its frame shows.
#[derive(Debug, Drop)]
pub enum Shown {
    Absent,
    Found(Row),
    FoundStamped(StampedRow),
    New,
    Replaced,
    Full,
    Removed,
    Stale(u64),
    Pairs(ShownPairs),
    NoMemory,
}

impl Shown {
    /// What is told for a reply: a row that was found with its stamp or without, pairs without. It takes
    /// no memory.
    pub fn of(reply: Reply, stamps: bool) -> Shown
        ensures { result ≡ shown_as stamps reply }
    {
        match reply {
            Reply::Absent => Shown::Absent,
            Reply::Found(row) if stamps => Shown::FoundStamped(row),
            Reply::Found(StampedRow { row, .. }) => Shown::Found(row),
            Reply::New => Shown::New,
            Reply::Replaced => Shown::Replaced,
            Reply::Full => Shown::Full,
            Reply::Removed => Shown::Removed,
            Reply::Stale(stamp) => Shown::Stale(stamp),
            Reply::Pairs(pairs) => Shown::Pairs(ShownPairs::of(pairs)),
            Reply::NoMemory => Shown::NoMemory,
        }
    }
}

/// What a client is told.
#[derive(Debug, Drop)]
pub enum WireReply {
    /// The tenant is opened.
    Opened,
    /// The reply to a command.
    Told(Shown),
    /// All up to this number is kept.
    Settled(u64),
    /// Why not.
    Refused(RefusalNumber),
}

impl WireReply {
    /// The reply that refuses for this reason.
    pub fn refused(refusal: Refusal) -> WireReply
        ensures { result ≡ WireReply.Refused (number_of refusal) }
    {
        WireReply::Refused(RefusalNumber::of(refusal))
    }
}

/// The number by which a refusal is told, 1 to 127. A reply tells it alone, without what else the
/// refusal names.
#[derive(Debug, Drop)]
pub struct RefusalNumber {
    number: u8,
}

impl Model for RefusalNumber {
    ghost use Rattle.std.specs.Prelude.{ℕ};

    ghost Value = { ℕ };

    ghost use Rattle.mt_wire.specs.Replies.{IsRefusalNumber};
    ghost use Rattle.mt_wire.specs.Asked.{shown_as, shows_stamps};

    ghost view = { λ n. n.number };

    ghost invariant = { λ n. IsRefusalNumber n.number };
}

impl RefusalNumber {
    /// The number of a refusal.
    pub fn of(refusal: Refusal) -> RefusalNumber
        ensures { result ≡ number_of refusal }
    {
        RefusalNumber {
            number: refusal.number(),
        }
    }

    pub(crate) fn new(number: u8) -> RefusalNumber
        requires { IsRefusalNumber number }
        ensures { result ≡ number }
    {
        RefusalNumber { number }
    }

    pub fn get(&self) -> u8
        ensures number { result ≡ self.now }
        ensures limits { IsRefusalNumber self.now }
    {
        self.number
    }
}

/// What stands at the front of bytes that ask.
#[derive(Debug, Drop)]
pub enum Front {
    /// A request, in a frame of this many bytes.
    Whole(Request, usize),
    /// Less than a frame.
    Partial,
    /// What is no frame of a request.
    Bad,
}

/// What stands at the front of bytes that tell.
#[derive(Debug, Drop)]
pub enum ReplyFront {
    /// A reply, in a frame of this many bytes.
    Whole(WireReply, usize),
    /// Less than a frame.
    Partial,
    /// What is no frame of a reply.
    Bad,
}
