//! The table of contexts of version 2, and how a database of version 1 becomes one of version 2. Each function works
//! inside a transaction that its caller began.
#![tactic(auto)]

mod cells;
mod contexts;
mod format;
mod indexes;
mod migration;
mod orders;
mod pages;
mod sql;

pub use contexts::{
    are_contexts_named, insert_context, read_context, read_contexts, update_context,
};
pub use format::set_version;
pub use indexes::{complete, reshape};
pub use migration::insert_contexts;
pub use orders::{append_context, end_context};
pub use pages::{NamedTable, are_rows_named};
