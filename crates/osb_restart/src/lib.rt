//! A stop of the machine, and the next run: the lives are those before or after the call that the
//! stop cut off, and those after it where it was acknowledged. Any number of runs with clients, and a
//! stop behind each, is one call too.
#![tactic(auto)]

mod changes;
mod reopening;
mod requests;
mod restart;
mod runs;

pub use changes::committed_and_restarted;
pub use requests::handled_and_restarted;
pub use restart::restarted;
pub use runs::{AtRest, serve_runs};
