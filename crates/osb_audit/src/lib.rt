//! Whether lists of orders and of rows are those of well-formed lives, and which plans the rows use.
#![tactic(auto)]

mod audit;
mod bindings;
mod counting;
mod entry;
mod life;
mod plans;
mod rising;
mod valid_texts;

pub use audit::are_rows_of_lives;
pub use counting::{Counts, count_busy, count_there};
pub use entry::BindingEntry;
pub use plans::{add_standing, plans_in_use};
