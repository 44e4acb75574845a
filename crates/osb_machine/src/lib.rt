//! What the broker answers to an ask, and the order that it opens or ends.
//!
//! `decide` goes by the answer table: `specs/Answer.antt` has a definition for each ask, with
//! its rules in the order in which they are tried, and there is a module for each here.
#![tactic(auto)]

mod answer_and_change;
mod bind;
mod deprovision;
mod fetch;
mod fetch_binding;
mod listed;
mod opening;
mod plans;
mod polls;
mod provision;
mod report;
mod same;
mod table;
mod texts;
mod unbind;
mod update;

pub use answer_and_change::{Answer, AnswerAndChange};
pub use table::decide;
