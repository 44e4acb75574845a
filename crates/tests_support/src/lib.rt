//! What the crates of tests converse with a broker by: requests and replies as bytes, settings, and
//! brokers that answer whole conversations.
#![tactic(auto)]

pub mod asks;
pub mod catalogs;
pub mod conversations;
pub mod exchange;
pub mod lives;
pub mod replies;
pub mod serving;
pub mod versions;
pub mod whole;
