//! The command line of osb-broker, as a library: [`run`] does what the words ask for and gives the status
//! that the process ends with, as [`words_unread`] does where they can't be read.
#![tactic(auto)]

mod backup;
mod check;
mod commands;
mod explaining;
mod fault;
mod files;
mod grammar;
mod input;
mod limits;
mod listen;
mod output;
mod per_connection;
mod ready;
mod replay;
mod settings;
mod stack;
mod trim;
mod unread;
mod words;

pub use commands::run;
pub use files::{HostFiles, NamedFiles};
pub use input::ReadFault;
pub use unread::words_unread;
