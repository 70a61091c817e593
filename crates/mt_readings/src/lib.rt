//! What a reading of one border node tells a scan of the contents, and of its tenant's map.
//!
//! A scan looks at one border node in one step. It reads the pairs from its fence on, up to the first link. The laws
//! here say that what is read is all that the contents have there, up to the next fence.
#![tactic(auto)]

pub mod reads;
pub mod spans;
pub mod tenants;
