//! What an order that is written does to the rows of its instance's bindings.

ghost use Rattle.std.specs.Prelude.{◌≡◌, IfOk, option_copied};
ghost use Rattle.std.specs.FinMap.{get};
ghost use Rattle.osb_orders.specs.declared.order.Change.{Change};
ghost use Rattle.osb_orders.specs.Life.{Life};
ghost use Rattle.osb_orders.specs.Changed.{changed};
ghost use Rattle.osb_standing.specs.Rows.{bindings_of};
ghost use Rattle.osb_standing.specs.Written.{IsWritten};
ghost use Rattle.osb_standing.specs.Binding as spec;
ghost use Rattle.osb_standing.specs.declared.row.BindingEdit.TheVariants.{Put};

use crate::row::BindingEdit;
use osb_orders::{Attributes, BindingNow, BindingPhase, Order, OrderKind, OrderState};
use osb_text::Text;
use std::alloc::{AllocError, Global};

/// What the order, once it is written, does to the rows of its instance's bindings. `old` is the
/// row of the binding that it names.
pub fn binding_edit(
    alloc: Global,
    order: &Order,
    old: Option<&BindingNow>,
) -> Result<BindingEdit, AllocError>
    ensures edit { IfOk result (λ edit. edit ≡ spec.edit_of order.now (option_copied old.entry)) }
    ensures follows { (life : Life) (change : Change) → IsWritten life change order.now → option_copied old.entry ≡ get (bindings_of life) order.now.binding →
        IfOk result (λ edit. bindings_of (changed change life) ≡ spec.edited edit order.now.binding (bindings_of life)) }
{
    edit_of(alloc, order, old)
}

fn edit_of(
    alloc: Global,
    order: &Order,
    old: Option<&BindingNow>,
) -> Result<BindingEdit, AllocError>
    ensures { IfOk result (λ edit. edit ≡ spec.edit_of order.now (option_copied old.entry)) }
{
    match (order.kind, order.outcome.state) {
        (OrderKind::Bind, state) => put_bound(alloc, phase_of_bind(state), order),
        (OrderKind::Unbind, OrderState::Running) => put_phase(BindingPhase::Unbinding, old),
        (OrderKind::Unbind, OrderState::Succeeded) => Ok(BindingEdit::Remove),
        (OrderKind::Unbind, OrderState::Failed) => put_phase(BindingPhase::Failed, old),
        (OrderKind::Delete, OrderState::Succeeded) => Ok(BindingEdit::Clear),
        (OrderKind::Create | OrderKind::Update | OrderKind::Delete, _) => Ok(BindingEdit::Keep),
    }
}

fn phase_of_bind(state: OrderState) -> BindingPhase
    ensures { result ≡ spec.phase_of_bind state }
{
    match state {
        OrderState::Running => BindingPhase::Binding,
        OrderState::Succeeded => BindingPhase::Bound,
        OrderState::Failed => BindingPhase::Failed,
    }
}

/// The binding that the order binds. It has no maintenance version and no context.
fn put_bound(alloc: Global, phase: BindingPhase, order: &Order) -> Result<BindingEdit, AllocError>
    ensures { IfOk result (λ edit. edit ≡ Put (spec.binding_by phase order.now)) }
{
    let attributes = Attributes {
        maintenance: Text::new(alloc),
        context: Text::from_str(alloc, "{}")?,
        ..order.attributes.clone()?
    };
    Ok(BindingEdit::Put(BindingNow {
        phase,
        attributes,
        credentials: order.outcome.credentials.clone()?,
    }))
}

/// The binding in another phase.
fn put_phase(phase: BindingPhase, old: Option<&BindingNow>) -> Result<BindingEdit, AllocError>
    ensures { IfOk result (λ edit. edit ≡ spec.put_phase phase (option_copied old.entry)) }
{
    match old {
        None => Ok(BindingEdit::Keep),
        Some(binding) => Ok(BindingEdit::Put(BindingNow {
            phase,
            attributes: binding.attributes.clone()?,
            credentials: binding.credentials.clone()?,
        })),
    }
}
