//! What a client is told.

ghost use Rattle.std.specs.Prelude.{◌≡◌, length};
ghost use Rattle.mt_rows.specs.Rows.{column};
ghost use Rattle.mt_resp.specs.{Shapes.{told_of, told_of_row, picked_of, are_full, kind_of}};

use crate::arguments::Amount;
use crate::stop::Fault;
use crate::strings::value_len;
use crate::word::Word;
use mt_rows::column::COLUMN_BYTES;
use mt_rows::{Column, ColumnIndexes, Key, PairList, Refusal, Reply, StampedRow};

/// What a client is told.
#[derive(Debug, Drop)]
pub enum Told {
    /// Nothing, for an empty line.
    Nothing,
    /// That it is done.
    Fine,
    /// The answer to a ping.
    Pong,
    /// That the connection is as it was at its beginning.
    Reset,
    /// That what was changed outlives a crash, of this server alone.
    Settled,
    /// Who serves, and by which version of the protocol.
    Greeting,
    /// That nothing is there.
    Nil,
    /// An empty list.
    Empty,
    /// A number.
    Number(u64),
    /// A signed number.
    Signed(Amount),
    /// The time since 1970: seconds, and microseconds.
    Time { seconds: u64, micros: u32 },
    /// A text.
    Text(Word),
    /// What a row is.
    Kind(Kind),
    /// The string of a row.
    Value(StampedRow),
    /// The string of a row, and the row's stamp.
    Stamped(StampedRow),
    /// A column of a row, nil past its end.
    Column(StampedRow, u8),
    /// Columns of a row, if there is one, each nil past its end.
    Picked(Option<StampedRow>, ColumnIndexes),
    /// All columns of a row, each after its index.
    Fields(StampedRow),
    /// The cursor to go on from, and the keys that are like the pattern, if there is one.
    Keys(u64, PairList, Option<Word>),
    /// The pairs whose keys begin with this one, if there is one, and their stamps, if so asked.
    Pairs(PairList, Option<Key>, bool),
    /// No command has this name.
    Unknown(Word),
    /// The command of this name has another number of words.
    Arity(Word),
    /// Why it isn't done.
    Failed(Failure),
}

/// What a row is.
#[derive(Clone, Copy, Debug)]
pub enum Kind {
    /// No row.
    Nothing,
    /// A string, with no column after it.
    String,
    /// Another row.
    Hash,
}

/// Why a command isn't done.
#[derive(Clone, Copy, Debug)]
pub enum Failure {
    /// An option or a word that isn't one of the command's.
    Syntax,
    /// A word is no number, or one out of range.
    NoInteger,
    /// A sum is no number of 64 bits.
    Overflow,
    /// The row was changed by others each time.
    Busy,
    /// A field is no index of a column.
    NoField,
    /// No database has this number.
    NoNumber,
    /// A string has over 15,359 bytes.
    LongString,
    /// Nothing expires.
    NoExpiry,
    /// There are no transactions.
    NoTransactions,
    /// There are no scripts.
    NoScripts,
    /// There are no channels.
    NoChannels,
    /// The server is configured at its start.
    NoConfig,
    /// There are no passwords.
    NoPassword,
    /// There is one version of the protocol.
    NoProtocol,
    /// The bytes are no command; the connection is closed.
    Protocol(Fault),
    /// A cursor is no number.
    NoCursor,
    /// The tenant has as many pairs as its quota.
    OverQuota,
    /// A growth was refused before the command took effect.
    NoMemory,
    /// The store refused it.
    Refused(Refusal),
    /// The store gave another command's answer.
    Strange,
}

/// How a reply of the store is shown.
#[derive(Clone, Copy, Debug)]
pub enum Shape {
    /// The string.
    Value,
    /// The string, with the row's stamp.
    Stamped,
    /// The column of an index.
    Column(u8),
    /// All columns.
    Fields,
    /// How many columns there are.
    Width,
    /// How long the string is.
    Length,
    /// How long the column of an index is.
    ColumnLength(u8),
    /// Whether there is a column of an index.
    HasColumn(u8),
    /// Whether the key is there.
    Presence,
    /// What the row is.
    Kind,
    /// That it is put.
    Put,
    /// That it is put, or nil if the stamp is another one.
    PutIf,
    /// Whether it is put.
    Changed,
    /// How many columns are put, if the key is new.
    PutCounted(u64),
    /// Whether the key was there.
    Removed,
}

impl Shape {
    /// What a client is told of a reply.
    pub fn told(self, reply: Reply) -> Told
        ensures { result ≡ told_of self reply }
    {
        match (self, reply) {
            (_, Reply::Full) => Told::Failed(Failure::OverQuota),
            (_, Reply::NoMemory) => Told::Failed(Failure::NoMemory),
            (_, Reply::Found(row)) => self.told_row(row),
            (Shape::Value | Shape::Stamped | Shape::Column(_), Reply::Absent) => Told::Nil,
            (Shape::Fields, Reply::Absent) => Told::Empty,
            (Shape::Kind, Reply::Absent) => Told::Kind(Kind::Nothing),
            (Shape::Put | Shape::PutIf | Shape::Changed | Shape::PutCounted(_), Reply::Absent) => {
                Told::Failed(Failure::Strange)
            }
            (_, Reply::Absent) => Told::Number(0),
            (Shape::Removed, Reply::Removed) => Told::Number(1),
            (Shape::Put | Shape::PutIf, Reply::New | Reply::Replaced) => Told::Fine,
            (Shape::Changed, Reply::New | Reply::Replaced) => Told::Number(1),
            (Shape::PutIf, Reply::Stale(_)) => Told::Nil,
            (Shape::Changed, Reply::Stale(_)) => Told::Number(0),
            (Shape::PutCounted(count), Reply::New) => Told::Number(count),
            (Shape::PutCounted(_), Reply::Replaced) => Told::Number(0),
            (_, _) => Told::Failed(Failure::Strange),
        }
    }

    // What a client is told of a row that a get found.
    fn told_row(self, row: StampedRow) -> Told
        ensures { result ≡ told_of_row self row }
    {
        match self {
            Shape::Value => Told::Value(row),
            Shape::Stamped => Told::Stamped(row),
            Shape::Column(index) => Told::Column(row, index),
            Shape::Fields => Told::Fields(row),
            Shape::Width => Told::Number(row.row.columns().len() as u64),
            Shape::Length => Told::Number(value_len(row.row.columns()) as u64),
            Shape::ColumnLength(index) => Told::Number(column_len(row.row.columns(), index)),
            Shape::HasColumn(index) => {
                Told::Number(u64::from(usize::from(index) < row.row.columns().len()))
            }
            Shape::Presence => Told::Number(1),
            Shape::Kind => Told::Kind(kind_of(row.row.columns())),
            Shape::Put | Shape::PutIf | Shape::Changed | Shape::PutCounted(_) | Shape::Removed => {
                Told::Failed(Failure::Strange)
            }
        }
    }
}

/// What a client is told of the columns that it named, of a reply to a get.
pub fn picked(reply: Reply, indexes: ColumnIndexes) -> Told
    ensures { result ≡ picked_of reply indexes }
{
    match reply {
        Reply::Found(row) => Told::Picked(Some(row), indexes),
        Reply::Absent => Told::Picked(None, indexes),
        Reply::NoMemory => Told::Failed(Failure::NoMemory),
        _ => Told::Failed(Failure::Strange),
    }
}

// How long the column of an index is.
fn column_len(columns: &[Column], index: u8) -> u64
    ensures { result ≡ length (column columns.now index) }
{
    match columns.get(usize::from(index)) {
        Some(column) => column.as_bytes().len() as u64,
        None => 0,
    }
}

// What a row is: a string has no column after its first short one.
fn kind_of(columns: &[Column]) -> Kind
    ensures { result ≡ kind_of columns.now }
{
    match columns {
        [] => Kind::String,
        [front @ .., _] => {
            if are_full(front) {
                Kind::String
            } else {
                Kind::Hash
            }
        }
    }
}

fn are_full(columns: &[Column]) -> bool
    ensures { result ≡ are_full columns.now }
{
    columns
        .iter()
        .all(|column| column.as_bytes().len() >= COLUMN_BYTES)
}
