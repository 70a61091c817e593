//! What a server is asked to do: where it listens, how many connections it serves and when it ends a silent one, where it
//! keeps its logs, when it writes a checkpoint and settles, and which tenants it has, each by a word `T:Q` of a tenant's
//! number and its quota in pairs.
#![tactic(auto)]

pub mod options;
pub mod tenants;
mod words;

pub use options::{MAX_CONNECTIONS, MAX_WORKERS, Options, StorePlace};
pub use tenants::{TenantQuota, TenantsFault, WordFault, is_listed, read_tenants};
