//! How a binding is, read off all orders of its instance.

ghost use Rattle.std.specs.Prelude.{◌≡◌, ◌&&◌, ◌∷◌, IfOk, Some, is_some};
ghost use Rattle.std.specs.List.{list_any};
ghost use Rattle.osb_orders.specs.declared.order.OrderKind.TheVariants.{Bind, Unbind};
ghost use Rattle.osb_orders.specs.Lists.{from_last, last_where};
ghost use Rattle.osb_orders.specs.Orders.{is_a, has_succeeded, is_of_binding};
ghost use Rattle.osb_orders.specs.Bindings.{since_bind, of_binding, binding_phase_by, binding_of, binding_since, has_bindings};

use super::instances::since_birth;
use crate::order::{Attributes, Order, OrderKind, OrderState};
use crate::view::{BindingNow, BindingPhase};
use osb_text::Text;
use std::alloc::{AllocError, Global};

/// The binding, unless it is absent.
pub(super) fn binding_of(
    alloc: Global,
    id: &str,
    life: &[Order],
) -> Result<Option<BindingNow>, AllocError>
    ensures { IfOk result (λ binding. binding ≡ binding_of id.now life.now) }
{
    let orders = since_bind(id, since_birth(life));
    if orders.is_empty() {
        return Ok(None);
    }
    let binding = binding_since(alloc, id, &orders[0], &orders[1..])?;
    Ok(Some(binding))
}

fn binding_since(
    alloc: Global,
    id: &str,
    bind: &Order,
    later: &[Order],
) -> Result<BindingNow, AllocError>
    ensures { IfOk result (λ binding. Some binding ≡ binding_since id.now (bind.now ∷ later.now)) }
{
    let last = last_unbind(id, bind, later);
    let credentials = bind.outcome.credentials.clone()?;
    Ok(BindingNow {
        phase: binding_phase_by(last.kind, last.outcome.state),
        attributes: of_binding(alloc, &bind.attributes)?,
        credentials,
    })
}

/// A binding has no maintenance version and no context.
fn of_binding(alloc: Global, attributes: &Attributes) -> Result<Attributes, AllocError>
    ensures { IfOk result (λ bound. bound ≡ of_binding attributes.now) }
{
    Ok(Attributes {
        maintenance: Text::new(alloc),
        context: Text::from_str(alloc, "{}")?,
        ..attributes.clone()?
    })
}

/// Whether some binding isn't absent.
pub(super) fn has_bindings(life: &[Order]) -> bool
    ensures { result ≡ has_bindings life.now }
{
    life.iter().any(|order| is_bound(order, life))
}

fn is_bound(order: &Order, life: &[Order]) -> bool
    ensures { result ≡ is_some (binding_of order.now.binding life.now) }
{
    !since_bind(order.binding.as_str(), since_birth(life)).is_empty()
}

/// The orders from the binding's birth on; none where the binding is absent.
fn since_bind<'a>(id: &str, life: &'a [Order]) -> &'a [Order]
    ensures { result.now ≡ since_bind id.now life.now }
{
    let orders = since_last_bind(id, life);
    if has_unbinding(id, orders) {
        return &orders[..0];
    }
    orders
}

/// Whether an Unbind of the binding has succeeded.
fn has_unbinding(id: &str, orders: &[Order]) -> bool
    ensures { result ≡ list_any (λ order. has_succeeded Unbind order && is_of_binding id.now order) orders.now }
{
    orders.iter().any(|order| is_unbound_by(id, order))
}

fn is_unbound_by(id: &str, order: &Order) -> bool
    ensures { result ≡ (has_succeeded Unbind order.now && is_of_binding id.now order.now) }
{
    order.has_succeeded(OrderKind::Unbind) && order.is_of_binding(id)
}

/// From the last Bind of the binding on; none where there isn't one.
fn since_last_bind<'a>(id: &str, life: &'a [Order]) -> &'a [Order]
    ensures { result.now ≡ from_last (λ order. is_a Bind order && is_of_binding id.now order) life.now }
{
    for place in (0..life.len()).rev() {
        if is_bind_of(id, &life[place]) {
            return &life[place..];
        }
    }
    &life[..0]
}

fn is_bind_of(id: &str, order: &Order) -> bool
    ensures { result ≡ (is_a Bind order.now && is_of_binding id.now order.now) }
{
    order.is_a(OrderKind::Bind) && order.is_of_binding(id)
}

/// The last Unbind of the binding, otherwise the Bind.
fn last_unbind<'a>(id: &str, bind: &'a Order, later: &'a [Order]) -> &'a Order
    ensures { result.now ≡ last_where (λ order. is_a Unbind order && is_of_binding id.now order) bind.now later.now }
{
    let mut last = bind;
    for order in later {
        if order.is_a(OrderKind::Unbind) && order.is_of_binding(id) {
            last = order;
        }
    }
    last
}

fn binding_phase_by(last: OrderKind, state: OrderState) -> BindingPhase
    ensures { result ≡ binding_phase_by last state }
{
    match (last, state) {
        (OrderKind::Unbind, OrderState::Running) => BindingPhase::Unbinding,
        (OrderKind::Unbind, _) => BindingPhase::Failed,
        (_, OrderState::Running) => BindingPhase::Binding,
        (_, OrderState::Succeeded) => BindingPhase::Bound,
        (_, OrderState::Failed) => BindingPhase::Failed,
    }
}
