//! Whether the orders of one instance are a well-formed life, and its rows those of that life.

ghost use Rattle.std.specs.Prelude.{◌≡◌, ◌↔◌, ◌<◌, ◌∷◌, ◌++◌, [], true, length, Some, IfOk, OnOk, IfSome, IfNone, option_copied};
ghost use Rattle.osb_orders.specs.declared.order.OrderKind.TheVariants.{Create};
ghost use Rattle.osb_orders.specs.declared.order.OrderState.TheVariants.{Failed};
ghost use Rattle.osb_orders.specs.Orders.{is_a, is_now};
ghost use Rattle.osb_orders.specs.Life.{Life};
ghost use Rattle.osb_orders.specs.IsLife.{is_absent, ends_running, IsNext, IsLife};
ghost use Rattle.osb_orders.specs.Allowed.{IsAppendable};
ghost use Rattle.osb_standing.specs.Rows.{row_of, birth_failed};
ghost use Rattle.osb_audit.specs.Life.{orders_in, IsLifeSoFar, IsConsistentAlone};

use crate::bindings::{apply, are_bindings};
use crate::entry::BindingEntry;
use crate::valid_texts::has_valid_texts;
use osb_orders::{BindingNow, Order, OrderKind, OrderState};
use osb_standing::{InstanceRow, binding_edit, instance_row_after};
use osb_text::{Text, is_id};
use std::alloc::{AllocError, Global};
use std::collections::BTreeMap;

/// How many orders a life has at most.
const MOST: u32 = 1_000_000;

/// What the orders of one instance have led to so far.
#[derive(Drop)]
pub(crate) struct LifeSoFar {
    row: Option<InstanceRow>,
    birth_failed: bool,
    bindings: BTreeMap<Text, BindingNow>,
}

/// Whether an instance of this id that has had these orders has this row, and its bindings have
/// these.
pub(crate) fn is_consistent(
    alloc: Global,
    id: &Text,
    row: &InstanceRow,
    orders: &[(Text, Order)],
    bound: &[BindingEntry],
) -> Result<bool, AllocError>
    ensures { IfOk result (λ yes. (yes ≡ true) ↔ IsConsistentAlone id.now row.now (orders_in orders.now) bound.now) }
{
    match find(alloc, orders)? {
        None => Ok(false),
        Some(found) => Ok(
            is_id(id.as_str())
                && is_row(found.row.as_ref(), row)
                && are_bindings(id, &found.bindings, bound),
        ),
    }
}

fn is_row(found: Option<&InstanceRow>, row: &InstanceRow) -> bool
    ensures { (result ≡ true) ↔ (option_copied found.entry ≡ Some row.now) }
{
    match found {
        None => false,
        Some(found) => found == row,
    }
}

/// What the orders have led to, unless they are no well-formed life.
fn find(alloc: Global, orders: &[(Text, Order)]) -> Result<Option<LifeSoFar>, AllocError>
    ensures some { IfOk result (λ found. IfSome found (IsLifeSoFar (orders_in orders.now))) }
    ensures none { IfOk result (λ found. IfNone found (IsLife (orders_in orders.now) → ⊥)) }
{
    let mut found = nothing(alloc);
    for (_, order) in orders {
        if !is_allowed(alloc, &found, order)? {
            return Ok(None);
        }
        take(alloc, &mut found, order)?;
    }
    Ok(Some(found))
}

fn nothing(alloc: Global) -> LifeSoFar
    ensures { IsLifeSoFar [] result }
{
    LifeSoFar {
        row: None,
        birth_failed: false,
        bindings: BTreeMap::new(alloc),
    }
}

/// Whether the order may come next.
fn is_allowed(alloc: Global, found: &LifeSoFar, order: &Order) -> Result<bool, AllocError>
    ensures { (before : Life) → IsLifeSoFar before found.now → IfOk result (λ yes. (yes ≡ true) ↔ IsAppendable before order.now) }
{
    let valid_texts = has_valid_texts(alloc, order)?;
    Ok(follows(found.row.as_ref(), order) && valid_texts)
}

fn follows(row: Option<&InstanceRow>, order: &Order) -> bool
    ensures { (before : Life) → IsLife before → option_copied row.entry ≡ row_of before → (result ≡ true) ↔ ((length before < 1000000) × IsNext before order.now) }
{
    match row {
        None => is_next(0, false, true, order),
        Some(row) => is_next(row.last_number, row.busy, row.standing.is_none(), order),
    }
}

/// Whether the order may follow so many orders, of which the last runs or not, and which leave the
/// instance absent or not.
fn is_next(count: u32, busy: bool, absent: bool, order: &Order) -> bool
    ensures { (before : Life) → count ≡ length before → busy ≡ ends_running before → absent ≡ is_absent before → (result ≡ true) ↔ ((length before < 1000000) × IsNext before order.now) }
{
    count < MOST && order.number == count + 1 && !busy && order.is_a(OrderKind::Create) == absent
}

/// Takes the order in, which may come next.
fn take(alloc: Global, found: &mut LifeSoFar, order: &Order) -> Result<(), AllocError>
    ensures { (before : Life) → IsLifeSoFar before found.old → IsAppendable before order.now → OnOk result (IsLifeSoFar (before ++ order.now ∷ []) found.new) }
{
    let row = instance_row_after(found.birth_failed, order, found.row.as_ref())?;
    let edit = binding_edit(alloc, order, found.bindings.get(&order.binding))?;
    apply(&mut found.bindings, edit, &order.binding)?;
    found.birth_failed = birth_failed_after(found.birth_failed, order);
    found.row = Some(row);
    Ok(())
}

fn birth_failed_after(failed: bool, order: &Order) -> bool
    ensures { (before : Life) → failed ≡ birth_failed before → result ≡ birth_failed (before ++ order.now ∷ []) }
{
    if order.is_a(OrderKind::Create) {
        order.is_now(OrderState::Failed)
    } else {
        failed
    }
}
