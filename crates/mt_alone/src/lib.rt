//! One connection at a time: a session's caller over a state that it owns.
//!
//! `specs/TenantMaps.antt` says what a caller answers that keeps a sorted map for each tenant;
//! `specs/Callers.antt` that an `Alone` answers the same; `serve_tenants` is a session over a new one.
#![tactic(auto)]

pub mod alone;
pub mod laws;
mod runs;
pub mod serving;

pub use alone::Alone;
pub use serving::{serve_alone, serve_tenants};
