//! Orders, the lives of instances that they make up, and what an ask needs to know of them.
#![tactic(auto)]

mod order;
mod plain;
mod view;

pub use order::{Attributes, Change, Order, OrderKind, OrderState, Outcome};
pub use plain::PlainLives;
pub use view::{BindingNow, BindingPhase, InstancePhase, Standing, View};
