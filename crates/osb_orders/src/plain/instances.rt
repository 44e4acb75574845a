//! How an instance is, read off all its orders.

ghost use Rattle.std.specs.Prelude.{◌≡◌, ◌∷◌, IfOk, Some};
ghost use Rattle.std.specs.List.{list_any};
ghost use Rattle.osb_orders.specs.declared.order.OrderKind.TheVariants.{Create, Update, Delete};
ghost use Rattle.osb_orders.specs.Lists.{from_last, last_where};
ghost use Rattle.osb_orders.specs.Orders.{is_a, has_succeeded, is_of_instance};
ghost use Rattle.osb_orders.specs.Life.{since_birth, phase_by, standing_of, standing_since};

use crate::order::{Order, OrderKind, OrderState};
use crate::view::{InstancePhase, Standing};
use std::alloc::{AllocError, Global};

/// The instance, unless it is absent.
pub(super) fn standing_of(alloc: Global, life: &[Order]) -> Result<Option<Standing>, AllocError>
    ensures { IfOk result (λ standing. standing ≡ standing_of life.now) }
{
    let orders = since_birth(life);
    if orders.is_empty() {
        return Ok(None);
    }
    let standing = standing_since(alloc, &orders[0], &orders[1..])?;
    Ok(Some(standing))
}

fn standing_since(alloc: Global, birth: &Order, later: &[Order]) -> Result<Standing, AllocError>
    ensures { IfOk result (λ standing. Some standing ≡ standing_since (birth.now ∷ later.now)) }
{
    let last = last_of_instance(birth, later);
    Ok(Standing {
        phase: phase_by(birth.outcome.state, last.kind, last.outcome.state),
        attributes: last_updated(birth, later).attributes.clone()?,
    })
}

/// The orders from the birth on; none where the instance is absent.
pub(super) fn since_birth(life: &[Order]) -> &[Order]
    ensures { result.now ≡ since_birth life.now }
{
    let orders = since_create(life);
    if has_deletion(orders) {
        return &orders[..0];
    }
    orders
}

fn has_deletion(orders: &[Order]) -> bool
    ensures { result ≡ list_any (has_succeeded Delete) orders.now }
{
    orders
        .iter()
        .any(|order| order.has_succeeded(OrderKind::Delete))
}

/// From the last Create on; none where there isn't one.
fn since_create(life: &[Order]) -> &[Order]
    ensures { result.now ≡ from_last (is_a Create) life.now }
{
    for place in (0..life.len()).rev() {
        if life[place].is_a(OrderKind::Create) {
            return &life[place..];
        }
    }
    &life[..0]
}

/// The last Create, Update or Delete.
fn last_of_instance<'a>(birth: &'a Order, later: &'a [Order]) -> &'a Order
    ensures { result.now ≡ last_where is_of_instance birth.now later.now }
{
    let mut last = birth;
    for order in later {
        if order.is_of_instance() {
            last = order;
        }
    }
    last
}

/// The last succeeded Update, otherwise the birth.
fn last_updated<'a>(birth: &'a Order, later: &'a [Order]) -> &'a Order
    ensures { result.now ≡ last_where (has_succeeded Update) birth.now later.now }
{
    let mut last = birth;
    for order in later {
        if order.has_succeeded(OrderKind::Update) {
            last = order;
        }
    }
    last
}

fn phase_by(birth: OrderState, last: OrderKind, state: OrderState) -> InstancePhase
    ensures { result ≡ phase_by birth last state }
{
    match (last, state) {
        (OrderKind::Create, OrderState::Running) => InstancePhase::Creating,
        (OrderKind::Create, OrderState::Failed) => InstancePhase::Failed,
        (OrderKind::Update, OrderState::Running) => InstancePhase::Updating,
        (OrderKind::Delete, OrderState::Running) => InstancePhase::Deleting,
        (OrderKind::Delete, _) if birth.number() == OrderState::Failed.number() => {
            InstancePhase::Failed
        }
        _ => InstancePhase::Ready,
    }
}
