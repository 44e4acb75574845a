//! Lives without what no answer rests on.
//!
//! `trim` erases what was asked for by the orders of an instance up to its last succeeded deletion.
//! The laws say that no answer changes, now or later.
#![tactic(auto)]

mod counted;
mod laws;
mod trimming;

pub use counted::trimmed_count;
pub use laws::{answers_stay, erases, trimmed_is_whole, trims_once};
pub use trimming::trim;
