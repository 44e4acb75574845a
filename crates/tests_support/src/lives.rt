//! Lives, as far as their orders' kinds and states go.

use osb_orders::{Order, OrderKind, OrderState};

/// What an order does, and how far it is.
pub type Step = (OrderKind, OrderState);

pub type Life = &'static [Step];

/// Whether the orders are those of the life, one after the other.
pub fn is_life(orders: &[Order], life: Life) -> bool {
    if orders.len() != life.len() {
        return false;
    }
    for (order, step) in orders.iter().zip(life) {
        if (order.kind, order.outcome.state) != *step {
            return false;
        }
    }
    true
}
