//! Orders about the instance `i` and its binding `b` with all that they hold, written out by hand.

use osb_orders::OrderKind::{Bind, Create, Delete, Unbind};
use osb_orders::OrderState::{Running, Succeeded};
use osb_orders::{Attributes, Order, OrderKind, OrderState, Outcome};

/// An order of the plan `p-async`.
#[derive(Clone, Copy)]
pub(crate) struct Row {
    number: u32,
    kind: OrderKind,
    binding: &'static str,
    place: &'static str,
    spot: &'static str,
    maintenance: &'static str,
    state: OrderState,
    credentials: &'static str,
}

/// The orders of a life, one after the other.
pub(crate) type Rows = &'static [Row];

pub(crate) const CREATING: Row = Row {
    number: 1,
    kind: Create,
    binding: "",
    place: "o",
    spot: "s",
    maintenance: "1.2.0",
    state: Running,
    credentials: "{}",
};

pub(crate) const CREATED: Row = Row {
    state: Succeeded,
    ..CREATING
};

pub(crate) const BINDING: Row = Row {
    number: 2,
    kind: Bind,
    binding: "b",
    place: "",
    spot: "{}",
    maintenance: "",
    state: Running,
    credentials: "{}",
};

pub(crate) const BOUND: Row = Row {
    state: Succeeded,
    credentials: "{\"k\":\"v\"}",
    ..BINDING
};

pub(crate) const UNBINDING: Row = Row {
    number: 3,
    kind: Unbind,
    ..BINDING
};

pub(crate) const UNBOUND: Row = Row {
    state: Succeeded,
    ..UNBINDING
};

pub(crate) const DELETING: Row = Row {
    number: 4,
    kind: Delete,
    ..CREATING
};

fn are_attributes(attributes: &Attributes, row: &Row) -> bool {
    attributes.service.as_str() == "svc"
        && attributes.plan.as_str() == "p-async"
        && attributes.place.as_str() == row.place
        && attributes.spot.as_str() == row.spot
        && attributes.parameters.as_str() == "{}"
        && attributes.maintenance.as_str() == row.maintenance
        && attributes.context.as_str() == "{}"
}

fn is_outcome(outcome: &Outcome, row: &Row) -> bool {
    outcome.state == row.state
        && outcome.description.as_str().is_empty()
        && outcome.credentials.as_str() == row.credentials
}

fn is_order(order: &Order, row: &Row) -> bool {
    order.number == row.number
        && order.kind == row.kind
        && order.binding.as_str() == row.binding
        && are_attributes(&order.attributes, row)
        && is_outcome(&order.outcome, row)
}

/// Whether the orders are these.
pub(crate) fn are_orders(orders: &[Order], rows: Rows) -> bool {
    if orders.len() != rows.len() {
        return false;
    }
    for (order, row) in orders.iter().zip(rows) {
        if !is_order(order, row) {
            return false;
        }
    }
    true
}
