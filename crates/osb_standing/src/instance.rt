//! The row of an instance once an order is written.

ghost use Rattle.std.specs.Prelude.{◌≡◌, true, IfOk, Some, option_copied, option_map};
ghost use Rattle.osb_orders.specs.declared.order.Change.{Change};
ghost use Rattle.osb_orders.specs.Life.{Life};
ghost use Rattle.osb_orders.specs.Changed.{changed};
ghost use Rattle.osb_standing.specs.Rows as rows;
ghost use Rattle.osb_standing.specs.Written.{IsWritten};
ghost use Rattle.osb_standing.specs.Instance as spec;

use crate::row::InstanceRow;
use osb_orders::{Attributes, InstancePhase, Order, OrderKind, OrderState, Standing};
use std::alloc::AllocError;

/// The row of the instance once the order is written, from the row before. `birth_failed` says
/// whether the last creation of the instance failed, which no row says. It matters where a
/// deletion fails, and nowhere else.
pub fn instance_row_after(
    birth_failed: bool,
    order: &Order,
    old: Option<&InstanceRow>,
) -> Result<InstanceRow, AllocError>
    ensures row { IfOk result (λ row. row ≡ spec.row_after birth_failed order.now (option_copied old.entry)) }
    ensures follows { (life : Life) (change : Change) → IsWritten life change order.now → option_copied old.entry ≡ rows.row_of life → (spec.is_failed_deletion order.now ≡ true → birth_failed ≡ rows.birth_failed life) →
        IfOk result (λ row. rows.row_of (changed change life) ≡ Some row) }
{
    row_after(birth_failed, order, old)
}

/// Whether the order is a deletion that failed: only then it matters how the birth ended.
pub fn is_failed_deletion(order: &Order) -> bool
    ensures { result ≡ spec.is_failed_deletion order.now }
{
    order.is_a(OrderKind::Delete) && order.is_now(OrderState::Failed)
}

fn row_after(
    birth_failed: bool,
    order: &Order,
    old: Option<&InstanceRow>,
) -> Result<InstanceRow, AllocError>
    ensures { IfOk result (λ row. row ≡ spec.row_after birth_failed order.now (option_copied old.entry)) }
{
    let standing = standing_after(birth_failed, order, standing_in(old))?;
    Ok(InstanceRow {
        standing,
        busy: order.is_now(OrderState::Running),
        last_number: order.number,
    })
}

/// The state of the instance by its row.
fn standing_in(row: Option<&InstanceRow>) -> Option<&Standing>
    ensures { option_copied result ≡ rows.standing_in (option_copied row.entry) }
{
    match row {
        None => None,
        Some(row) => row.standing.as_ref(),
    }
}

fn standing_after(
    birth_failed: bool,
    order: &Order,
    old: Option<&Standing>,
) -> Result<Option<Standing>, AllocError>
    ensures { IfOk result (λ new. new ≡ spec.standing_after birth_failed order.now (option_copied old.entry)) }
{
    match (order.kind, order.outcome.state) {
        (OrderKind::Create, state) => created(phase_of_birth(state), &order.attributes),
        (OrderKind::Update, OrderState::Running) => in_phase(InstancePhase::Updating, old),
        (OrderKind::Update, OrderState::Succeeded) => updated(&order.attributes, old),
        (OrderKind::Update, OrderState::Failed) => in_phase(InstancePhase::Ready, old),
        (OrderKind::Delete, OrderState::Running) => in_phase(InstancePhase::Deleting, old),
        (OrderKind::Delete, OrderState::Succeeded) => Ok(None),
        (OrderKind::Delete, OrderState::Failed) => in_phase(kept_phase(birth_failed), old),
        (OrderKind::Bind | OrderKind::Unbind, _) => copied(old),
    }
}

fn phase_of_birth(state: OrderState) -> InstancePhase
    ensures { result ≡ spec.phase_of_birth state }
{
    match state {
        OrderState::Running => InstancePhase::Creating,
        OrderState::Succeeded => InstancePhase::Ready,
        OrderState::Failed => InstancePhase::Failed,
    }
}

/// The phase of an instance that couldn't be deleted.
fn kept_phase(birth_failed: bool) -> InstancePhase
    ensures { result ≡ spec.kept_phase birth_failed }
{
    if birth_failed {
        InstancePhase::Failed
    } else {
        InstancePhase::Ready
    }
}

fn created(phase: InstancePhase, attributes: &Attributes) -> Result<Option<Standing>, AllocError>
    ensures { IfOk result (λ new. new ≡ Some (spec.stands phase attributes.now)) }
{
    let attributes = attributes.clone()?;
    Ok(Some(Standing { phase, attributes }))
}

/// The instance in another phase.
fn in_phase(phase: InstancePhase, old: Option<&Standing>) -> Result<Option<Standing>, AllocError>
    ensures { IfOk result (λ new. new ≡ option_map (spec.in_phase phase) (option_copied old.entry)) }
{
    match old {
        None => Ok(None),
        Some(standing) => created(phase, &standing.attributes),
    }
}

/// The instance with the attributes of an update.
fn updated(attributes: &Attributes, old: Option<&Standing>) -> Result<Option<Standing>, AllocError>
    ensures { IfOk result (λ new. new ≡ option_map (λ _. spec.updated attributes.now) (option_copied old.entry)) }
{
    match old {
        None => Ok(None),
        Some(_) => created(InstancePhase::Ready, attributes),
    }
}

fn copied(old: Option<&Standing>) -> Result<Option<Standing>, AllocError>
    ensures { IfOk result (λ new. new ≡ option_copied old.entry) }
{
    match old {
        None => Ok(None),
        Some(standing) => Ok(Some(standing.clone()?)),
    }
}
