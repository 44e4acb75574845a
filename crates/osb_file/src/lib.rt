//! The records in a database file: opened to be served from, or copied into memory to be looked at.
#![tactic(auto)]

mod beside;
mod cause;
mod copied;
mod database;
mod database_file;
mod difference;
mod fault;
mod file;
mod first_page;
mod holding;
mod looking;
mod merging;
mod moment;
mod one_file;
mod origin;
mod placing;
mod rewriting;
mod seen;
mod trimming;
mod unseen;
mod unwritten;

pub use cause::cause_of;
pub use copied::{Copied, check_mode};
pub use database::{AtPath, Database};
pub use database_file::{DatabaseFile, WatchedFile};
pub use difference::Difference;
pub use fault::FileFault;
pub use file::{Opened, open_file};
pub use holding::{Held, hold, replace};
pub use one_file::OneFile;
pub use origin::Origin;
pub use seen::Seen;
pub use unseen::Unseen;
pub use unwritten::Unwritten;
