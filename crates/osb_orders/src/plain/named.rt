//! The order that an ask names in a life, and the orders that a poll is about.

ghost use Rattle.std.specs.Prelude.{◌≡◌, IfOk, filter, option_map};
ghost use Rattle.osb_orders.specs.Lists.{last_of, last_from};
ghost use Rattle.osb_orders.specs.Orders.{is_of_instance, is_of_binding};
ghost use Rattle.osb_orders.specs.Named.{subject, order_named, order_numbered, named_by, named_in};

use crate::order::Order;
use osb_asks::Ask;
use osb_text::Text;
use std::alloc::{AllocError, Global};

/// The orders that a poll is about.
pub(super) fn subject(alloc: Global, ask: &Ask, life: &[Order]) -> Result<Vec<Order>, AllocError>
    ensures { IfOk result (λ orders. orders.items ≡ subject ask.now life.now) }
{
    match ask {
        Ask::InstanceOp(_) => of_instance(alloc, life),
        Ask::BindingOp(poll) => of_binding(alloc, poll.binding.as_str(), life),
        Ask::Catalog
        | Ask::Provision(_)
        | Ask::Fetch(_)
        | Ask::Update(_)
        | Ask::Deprovision(_)
        | Ask::Bind(_)
        | Ask::FetchBinding(_)
        | Ask::Unbind(_)
        | Ask::Orders(_)
        | Ask::Report(_) => Ok(Vec::new(alloc)),
    }
}

fn of_instance(alloc: Global, life: &[Order]) -> Result<Vec<Order>, AllocError>
    ensures { IfOk result (λ orders. orders.items ≡ filter is_of_instance life.now) }
{
    let mut orders = Vec::new(alloc);
    for order in life {
        if order.is_of_instance() {
            orders.push(order.clone()?)?;
        }
    }
    Ok(orders)
}

fn of_binding(alloc: Global, id: &str, life: &[Order]) -> Result<Vec<Order>, AllocError>
    ensures { IfOk result (λ orders. orders.items ≡ filter (is_of_binding id.now) life.now) }
{
    let mut orders = Vec::new(alloc);
    for order in life {
        if order.is_of_binding(id) {
            orders.push(order.clone()?)?;
        }
    }
    Ok(orders)
}

/// The order that the ask names: a poll one of its subject, a report one of the life.
pub(super) fn named_in(
    alloc: Global,
    ask: &Ask,
    life: &[Order],
) -> Result<Option<Order>, AllocError>
    ensures { IfOk result (λ order. order ≡ named_in ask.now life.now) }
{
    match ask {
        Ask::InstanceOp(poll) => {
            let orders = of_instance(alloc, life)?;
            named_by(alloc, &poll.operation, orders.as_slice())
        }
        Ask::BindingOp(poll) => {
            let orders = of_binding(alloc, poll.binding.as_str(), life)?;
            named_by(alloc, &poll.operation, orders.as_slice())
        }
        Ask::Report(report) => numbered(report.number, life),
        Ask::Catalog
        | Ask::Provision(_)
        | Ask::Fetch(_)
        | Ask::Update(_)
        | Ask::Deprovision(_)
        | Ask::Bind(_)
        | Ask::FetchBinding(_)
        | Ask::Unbind(_)
        | Ask::Orders(_) => Ok(None),
    }
}

fn named_by(
    alloc: Global,
    operation: &Option<Text>,
    orders: &[Order],
) -> Result<Option<Order>, AllocError>
    ensures { IfOk result (λ order. order ≡ named_by operation.now orders.now) }
{
    match operation {
        Some(name) => named(alloc, name.as_str(), orders),
        None => Ok(None),
    }
}

fn named(alloc: Global, name: &str, orders: &[Order]) -> Result<Option<Order>, AllocError>
    ensures { IfOk result (λ order. order ≡ order_named name.now orders.now) }
{
    for order in orders {
        if order.name(alloc)?.as_str() == name {
            return Ok(Some(order.clone()?));
        }
    }
    Ok(None)
}

fn numbered(number: u32, orders: &[Order]) -> Result<Option<Order>, AllocError>
    ensures { IfOk result (λ order. order ≡ order_numbered number orders.now) }
{
    for order in orders {
        if order.number == number {
            return Ok(Some(order.clone()?));
        }
    }
    Ok(None)
}

/// A copy of the last of the orders.
pub(super) fn last_of(orders: &[Order]) -> Result<Option<Order>, AllocError>
    ensures { IfOk result (λ order. order ≡ last_of orders.now) }
{
    match last_in(orders) {
        Some(last) => Ok(Some(last.clone()?)),
        None => Ok(None),
    }
}

/// The last of the orders.
pub(super) fn last_in(orders: &[Order]) -> Option<&Order>
    ensures { option_map (λ order. order.now) result ≡ last_of orders.now }
{
    if orders.is_empty() {
        return None;
    }
    Some(last_from(&orders[0], &orders[1..]))
}

fn last_from<'a>(first: &'a Order, later: &'a [Order]) -> &'a Order
    ensures { result.now ≡ last_from first.now later.now }
{
    let mut last = first;
    for order in later {
        last = order;
    }
    last
}
