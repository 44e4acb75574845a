//! The orders of all instances in a SQL database.
//!
//! Each call is one transaction over the statements of osb_statements: it takes a database over (`adopt`, `making`),
//! changes a life (`commits`) or several (`changes`), or reads and is rolled back (`looking`). `records` has the public
//! calls, and `memory` the same without a premise. `refusals` counts the requests that were refused.
#![tactic(auto)]

mod adopt;
mod change;
mod changes;
mod commits;
mod looking;
mod making;
pub mod memory;
mod records;
mod refusals;

pub use change::LifeChange;
pub use osb_statements::{Cause, StoreFault};
pub use records::{Records, open_memory};
pub use refusals::Refusals;
