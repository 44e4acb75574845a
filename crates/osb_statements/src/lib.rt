//! The statements on the tables of orders, instances and bindings, and what several of them do inside a transaction.
//!
//! Three floors, each of which calls the one below it: cells and values (`cells`, `names`); a statement (`sql`, and
//! in `format`, `orders`, `instances` and `bindings` those on each table, beside its columns and rows); and several
//! of them inside a transaction (`tables`, `queries`, `contexts`, `standing`, `writing`, `view`, `reading`, `plans`,
//! `counting`, `pieces`, `first`). What stays is said once for each kind of call (`Reads` of osb_contexts).
#![tactic(auto)]

mod bindings;
mod cause;
mod cells;
mod contexts;
mod counting;
mod fault;
mod first;
mod format;
mod instances;
mod names;
mod orders;
mod pieces;
mod plans;
mod queries;
mod reading;
mod sql;
mod standing;
mod tables;
mod view;
mod writing;

pub use cause::Cause;
pub use counting::count_all;
pub use fault::StoreFault;
pub use first::migrate_first;
pub use pieces::are_tables_whole;
pub use plans::list_plans;
pub use reading::{list_joined, list_life, next_id};
pub use tables::create_all;
pub use view::read_joined;
pub use writing::{append_joined, end_joined};
