//! Advice on a settings file, for those who write one: the value that is wanted where a fault is, the reason why a
//! file has no object, and remarks on a file that may be accepted and not meant so. And a name of it as a line shows it.
//!
//! Each is a text, and `specs/` has it word by word.
#![tactic(auto)]

pub mod laws;
mod logins;
mod names;
mod nothing;
mod object_kind;
mod passwords;
mod past;
mod paths;
mod pieces;
mod reason;
mod remark;
mod spaces;
mod timings;
mod wants;

pub use pieces::shown;
pub use reason::unreadable;
pub use remark::remarks;
pub use wants::wanted;
