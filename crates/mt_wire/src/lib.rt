//! Frames: what clients ask and are told, as bytes.
//!
//! `specs/Requests.antt` has the one spelling of each request, `specs/Replies.antt` that of each
//! reply, and `specs/Fronts.antt` what the bytes at the front of a stream are.
#![tactic(auto)]

mod fault;
mod frame;
pub mod laws;
pub mod message;
pub mod replies;
pub mod requests;
pub mod writing;

pub use fault::EncodeFault;
pub use message::{Front, RefusalNumber, ReplyFront, Request, Shown, WireReply};
pub use replies::{decode_reply, encode};
pub use requests::{decode, encode_request};
pub use writing::write_reply;
