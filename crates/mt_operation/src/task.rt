//! What an operation was begun with. It never changes, but for the key of a scan, which is the fence that
//! the scan has reached.

ghost use Rattle.std.specs.Prelude.{◌≡◌};
ghost use Rattle.mt_rows.specs.Commands.{key_of};
ghost use Rattle.mt_operation.specs.Tasks.{command_of, aim_of, begins_after};

use crate::spare::Spare;
use crate::walk::Aim;
use mt_rows::{Change, ColumnIndexes, Command, Key};
use mt_slices::StoredKey;

/// A command that was taken.
#[derive(Drop)]
pub enum Request {
    /// The row of the key: all of it, or these columns.
    Get {
        key: Key,
        columns: ColumnIndexes,
    },
    /// Writes columns of the key's row.
    Put {
        key: Key,
        change: Change,
    },
    /// The same, if the key's row has this stamp, or if the stamp is 0 and the key has none.
    PutIf {
        key: Key,
        stamp: u64,
        change: Change,
    },
    /// Takes the key's row away.
    Remove {
        key: Key,
    },
    /// Up to `count` pairs in rising order from the key `from` on, or after it; of each row all of it, or
    /// these columns.
    Scan {
        from: Key,
        after: bool,
        count: u8,
        columns: ColumnIndexes,
    },
}

/// The request of a worker for a tenant, and the request's key as it is stored; that of a scan is the
/// fence that it has reached. With it comes the memory that it was given for what it writes.
#[derive(Drop)]
pub struct Task {
    pub worker: u8,
    pub tenant: u32,
    pub request: Request,
    pub key: StoredKey,
    pub spare: Spare,
}

impl Request {
    /// What it comes to do at the border node of its key.
    pub fn aim(&self) -> Aim
        ensures { result ≡ aim_of (command_of self.now) }
    {
        match self {
            Request::Get { .. } => Aim::Read,
            Request::Put { .. } | Request::PutIf { .. } | Request::Remove { .. } => Aim::Write,
            Request::Scan { .. } => Aim::Scan,
        }
    }

    /// Whether it is a scan that begins behind its key.
    pub fn begins_after(&self) -> bool
        ensures { result ≡ begins_after (command_of self.now) }
    {
        match self {
            Request::Scan { after, .. } => *after,
            Request::Get { .. }
            | Request::Put { .. }
            | Request::PutIf { .. }
            | Request::Remove { .. } => false,
        }
    }

    /// The key that it is about, or from which a scan starts.
    pub fn key(&self) -> &Key
        ensures { result.now ≡ key_of (command_of self.now) }
    {
        match self {
            Request::Get { key, .. }
            | Request::Put { key, .. }
            | Request::PutIf { key, .. }
            | Request::Remove { key } => key,
            Request::Scan { from, .. } => from,
        }
    }

    /// The command that it was made of.
    pub fn into_command(self) -> Command
        ensures { result ≡ command_of self }
    {
        match self {
            Request::Get { key, columns } => Command::Get { key, columns },
            Request::Put { key, change } => Command::Put {
                key,
                change: change.into_list(),
            },
            Request::PutIf { key, stamp, change } => Command::PutIf {
                key,
                stamp,
                change: change.into_list(),
            },
            Request::Remove { key } => Command::Remove { key },
            Request::Scan {
                from,
                after,
                count,
                columns,
            } => Command::Scan {
                from,
                after,
                count,
                columns,
            },
        }
    }
}
