//! From the bytes of a connection to HTTP/1.1 requests, within limits.
//!
//! [`next`] cuts the first request from a buffer that may still grow. What it answers is held
//! against definitions on whole lists of bytes (`specs/Heads.antt` and `specs/Cuts.antt`), so that
//! nothing rests on how the bytes came. [`Source`] and [`Sink`] are the reader and the writer of a
//! connection; their contracts count calls and failures.
#![tactic(auto)]

mod calls;
mod counted;
mod field;
mod head;
mod in_memory;
mod laws;
mod limits;
mod line_room;
mod request;
mod send;
mod sink;
mod source;
mod step;

pub use counted::Counted;
pub use in_memory::InMemory;
pub use laws::{one_cut, one_front, one_head};
pub use limits::{Limits, MOST_BODY, MOST_FIELDS, MOST_HEAD};
pub use line_room::{LineRoom, NO_LINES};
pub use request::Request;
pub use send::send_all;
pub use sink::Sink;
pub use source::Source;
pub use step::{Step, StopKind, next, next_at_once};
