//! Replies, their texts (RFC 9112), and the error bodies that are always the same.
#![tactic(auto)]

mod body;
mod fixed_error;
mod pieces;
mod reply;
mod sender;
mod stage;
mod status;
mod write;

pub use body::Body;
pub use fixed_error::FixedError;
pub use reply::{REFUSED, Reply};
pub use status::Status;
pub use write::{WriteFault, write_reply};
