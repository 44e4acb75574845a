//! The rows of the current state, and what an order does to those of bindings.

use osb_orders::{BindingNow, Standing};

/// The row of an instance that has or had orders: its state unless it is absent, whether its
/// last order runs, and the number of that order.
#[derive(Clone, Debug, Drop, PartialEq, Eq)]
pub struct InstanceRow {
    pub standing: Option<Standing>,
    pub busy: bool,
    pub last_number: u32,
}

/// What an order does to the rows of its instance's bindings. The row of a binding is `BindingNow`.
#[derive(Debug, Drop)]
pub enum BindingEdit {
    /// All rows stay.
    Keep,
    /// The binding that the order names has this row now.
    Put(BindingNow),
    /// The binding that the order names has no row any more.
    Remove,
    /// No binding has a row any more.
    Clear,
}
