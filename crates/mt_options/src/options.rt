//! All that a server is asked to do.

ghost use Rattle.std.specs.Prelude.{◌≡◌, ◌≤◌};

use crate::tenants::TenantQuota;

/// The greatest number of workers.
pub const MAX_WORKERS: u8 = 64;

/// The greatest number of connections that a worker serves at a time.
pub const MAX_CONNECTIONS: u32 = 65_536;

/// Where a server keeps its logs, and how often it writes a checkpoint and settles of its own accord.
#[derive(Drop)]
pub struct StorePlace {
    /// The folder of the store's files.
    pub folder: String,
    /// Whether these are made anew; else what is there is recovered.
    pub create: bool,
    /// A checkpoint is written after each so many settled answers of all workers; 0: none is.
    pub checkpoint: u32,
    /// One is also written each time that the logs have grown by so many bytes; 0: never for that.
    pub checkpoint_bytes: u64,
    /// If anything was answered since the last time, all is settled each so many milliseconds; 0: only if a client asks.
    pub settle_every: u32,
}

/// Where a server listens, how much it serves before it ends, what it keeps, and whom it serves.
#[derive(Drop)]
pub struct Options {
    /// The port of 127.0.0.1; 0 takes a free one.
    pub port: u16,
    /// How many workers serve connections.
    pub workers: u8,
    /// How many connections are accepted before it ends; 0: it doesn't end.
    pub sessions: u32,
    /// How many connections each worker serves at a time.
    pub connections: u32,
    /// A connection is ended after it was silent for so many seconds; 0: never for that. A worker that serves one at a
    /// time ends none.
    pub idle: u32,
    /// Where it keeps its logs; none are kept without it.
    pub store: Option<StorePlace>,
    /// The folder of a store that is only read, to say what it holds. Then nothing is served, and no store is named.
    pub verify: Option<String>,
    /// The tenants, each with its quota.
    pub tenants: Vec<TenantQuota>,

    ghost few: { (1 ≤ workers) × (workers ≤ 64) },
    ghost many: { (1 ≤ connections) × (connections ≤ 65536) },
    ghost alone: { connections ≡ 1 → idle ≡ 0 },
}
