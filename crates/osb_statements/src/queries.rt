//! Reading single orders, inside a transaction.

ghost use Rattle.std.specs.Prelude.{◌≡◌, IfOk, Bool, filter, bytes_eq};
ghost use Rattle.osb_orders.specs.Orders.{is_a, is_of_instance, is_of_binding, name_of};
ghost use Rattle.osb_orders.specs.Lives.{life_of};
ghost use Rattle.osb_orders.specs.declared.order.Order.{Order};
ghost use Rattle.osb_orders.specs.declared.order.OrderKind.TheVariants.{Create};
ghost use Rattle.osb_orders.specs.Lists.{last_of};
ghost use Rattle.osb_orders.specs.Named as spec;
ghost use Rattle.osb_standing.specs.Rows as rows;
ghost use Rattle.osb_statements.specs.Queries.{ShowsRecords};
ghost use Rattle.osb_statements.specs.Asked.{is_kind_of, is_kept, later_of, only};
ghost use Rattle.osb_statements.specs.Steps.{bare_in};
ghost use Rattle.osb_contexts.specs.Reads.{Reads, Finds, behind};

use crate::fault::StoreFault;
use crate::names::number_named;
use crate::orders::{last_of_kind, order_numbered};
use osb_orders::{Order, OrderKind, OrderState};
use sqlite::{Alter, Transaction};
use std::alloc::Global;

fn later(order: Option<Order>, other: Option<Order>) -> Option<Order>
    ensures { result ≡ later_of order other }
{
    let Some(order) = order else {
        return other;
    };
    match other {
        Some(other) if order.number < other.number => Some(other),
        _ => Some(order),
    }
}

/// The later of an order and the last one of that kind about the binding.
fn later_of_kind<S: Alter>(
    tx: &mut Transaction<'_, S>,
    alloc: Global,
    instance: &str,
    binding: &str,
    kind: OrderKind,
    order: Option<Order>,
) -> Result<Option<Order>, StoreFault>
    requires { ShowsRecords (behind S.Store tx.old) }
    ensures ok { Finds S.Store tx.old tx.new result (λ s last.
        last ≡ later_of order (last_of (filter (is_kind_of binding.now kind)
        (life_of (bare_in s) instance.now)))) }
    ensures reads { Reads S.Store tx.old tx.new result }
{
    match last_of_kind(tx, alloc, instance, binding, kind) {
        Ok(other) => Ok(later(order, other)),
        Err(fault) => {
            drop(order);
            Err(fault)
        }
    }
}

/// The last creation of the instance.
fn last_creation<S: Alter>(
    tx: &mut Transaction<'_, S>,
    alloc: Global,
    instance: &str,
) -> Result<Option<Order>, StoreFault>
    requires { ShowsRecords (behind S.Store tx.old) }
    ensures ok { Finds S.Store tx.old tx.new result (λ s order.
        order ≡ last_of (filter (is_a Create) (life_of (bare_in s) instance.now))) }
    ensures reads { Reads S.Store tx.old tx.new result }
{
    last_of_kind(tx, alloc, instance, "", OrderKind::Create)
}

/// The last creation or update of the instance.
fn last_kept<S: Alter>(
    tx: &mut Transaction<'_, S>,
    alloc: Global,
    instance: &str,
) -> Result<Option<Order>, StoreFault>
    requires { ShowsRecords (behind S.Store tx.old) }
    ensures ok { Finds S.Store tx.old tx.new result (λ s order.
        order ≡ last_of (filter is_kept (life_of (bare_in s) instance.now))) }
    ensures reads { Reads S.Store tx.old tx.new result }
{
    let created = last_of_kind(tx, alloc, instance, "", OrderKind::Create)?;
    later_of_kind(tx, alloc, instance, "", OrderKind::Update, created)
}

/// The last creation, update or deletion of the instance.
pub(crate) fn last_of_instance<S: Alter>(
    tx: &mut Transaction<'_, S>,
    alloc: Global,
    instance: &str,
) -> Result<Option<Order>, StoreFault>
    requires { ShowsRecords (behind S.Store tx.old) }
    ensures ok { Finds S.Store tx.old tx.new result (λ s order.
        order ≡ last_of (filter is_of_instance (life_of (bare_in s) instance.now))) }
    ensures reads { Reads S.Store tx.old tx.new result }
{
    let kept = last_kept(tx, alloc, instance)?;
    later_of_kind(tx, alloc, instance, "", OrderKind::Delete, kept)
}

/// The last order about the binding.
pub(crate) fn last_of_binding<S: Alter>(
    tx: &mut Transaction<'_, S>,
    alloc: Global,
    instance: &str,
    binding: &str,
) -> Result<Option<Order>, StoreFault>
    requires { ShowsRecords (behind S.Store tx.old) }
    ensures ok { Finds S.Store tx.old tx.new result (λ s order.
        order ≡ last_of (filter (is_of_binding binding.now) (life_of (bare_in s) instance.now))) }
    ensures reads { Reads S.Store tx.old tx.new result }
{
    let bound = last_of_kind(tx, alloc, instance, binding, OrderKind::Bind)?;
    later_of_kind(tx, alloc, instance, binding, OrderKind::Unbind, bound)
}

/// Whether the last creation of the instance failed.
pub(crate) fn birth_failed<S: Alter>(
    tx: &mut Transaction<'_, S>,
    alloc: Global,
    instance: &str,
) -> Result<bool, StoreFault>
    requires { ShowsRecords (behind S.Store tx.old) }
    ensures ok { Finds S.Store tx.old tx.new result (λ s failed.
        failed ≡ rows.birth_failed (life_of (bare_in s) instance.now)) }
    ensures reads { Reads S.Store tx.old tx.new result }
{
    match last_creation(tx, alloc, instance)? {
        Some(order) => Ok(order.is_now(OrderState::Failed)),
        None => Ok(false),
    }
}

fn only_named(alloc: Global, found: Option<Order>, name: &str) -> Result<Option<Order>, StoreFault>
    ensures { IfOk result (λ order.
        order ≡ only (λ order. bytes_eq (name_of order) name.now) found) }
{
    let Some(order) = found else {
        return Ok(None);
    };
    let own = match order.name(alloc) {
        Ok(own) => own,
        Err(fault) => {
            drop(order);
            return Err(StoreFault::from(fault));
        }
    };
    if own.as_str() == name {
        Ok(Some(order))
    } else {
        drop(order);
        Ok(None)
    }
}

/// The order of that name in the life of the instance, whatever it is about.
pub(crate) fn order_named<S: Alter>(
    tx: &mut Transaction<'_, S>,
    alloc: Global,
    instance: &str,
    name: &str,
) -> Result<Option<Order>, StoreFault>
    requires { ShowsRecords (behind S.Store tx.old) }
    ensures ok { Finds S.Store tx.old tx.new result (λ s order.
        (passes : Order → Bool) →
        spec.order_named name.now (filter passes (life_of (bare_in s) instance.now)) ≡
        only passes order) }
    ensures reads { Reads S.Store tx.old tx.new result }
{
    // No order has the number 0.
    let number = number_named(name).unwrap_or(0);
    let found = order_numbered(tx, alloc, instance, number)?;
    only_named(alloc, found, name)
}
