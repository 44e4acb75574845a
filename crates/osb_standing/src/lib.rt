//! The current state of instances and bindings as rows beside the orders, and how one
//! order changes them.
#![tactic(auto)]

mod binding;
mod instance;
pub mod laws;
mod read;
mod row;
mod written;

pub use binding::binding_edit;
pub use instance::{instance_row_after, is_failed_deletion};
pub use read::{Read, view_by};
pub use row::{BindingEdit, InstanceRow};
pub use written::order_written;
