//! The orders of an instance up to its last succeeded deletion, erased.

ghost use Rattle.std.specs.Prelude.{◌≡◌, ◌≤◌, ◌++◌, IfOk, length, map, take, drop};
ghost use Rattle.osb_trim.specs.Trimmed.{erased_attributes, erased, trimmed};

use osb_orders::{Attributes, Order, OrderKind};
use osb_text::Text;
use std::alloc::{AllocError, Global};

/// The life without what was asked for by the orders up to its last succeeded deletion.
pub fn trim(alloc: Global, mut life: Vec<Order>) -> Result<Vec<Order>, AllocError>
    ensures { IfOk result (λ orders. orders.items ≡ trimmed life.items) }
{
    for place in 0..deleted(life.as_slice()) {
        let order = &mut life[place];
        order.attributes = erased_attributes(alloc, order.kind)?;
    }
    Ok(life)
}

/// How many orders there are up to the last succeeded deletion.
pub(crate) fn deleted(life: &[Order]) -> usize
    ensures within { result ≤ length life.now }
    ensures parts { trimmed life.now ≡ map erased (take result life.now) ++ drop result life.now }
{
    for place in (0..life.len()).rev() {
        if life[place].has_succeeded(OrderKind::Delete) {
            return place + 1;
        }
    }
    0
}

/// Valid attributes that say nothing.
fn erased_attributes(alloc: Global, kind: OrderKind) -> Result<Attributes, AllocError>
    ensures { IfOk result (λ attributes. attributes ≡ erased_attributes kind) }
{
    Ok(Attributes {
        service: Text::from_str(alloc, "-")?,
        plan: Text::from_str(alloc, "-")?,
        place: Text::from_str(alloc, erased_place(kind))?,
        spot: Text::from_str(alloc, erased_spot(kind))?,
        parameters: Text::from_str(alloc, "{}")?,
        maintenance: Text::new(alloc),
        context: Text::from_str(alloc, "{}")?,
    })
}

/// An organization, or no app.
pub(crate) fn erased_place(kind: OrderKind) -> &'static str
    ensures { result.now ≡ (erased_attributes kind).place }
{
    if kind.is_about_binding() { "" } else { "-" }
}

/// A space, or an empty `bind_resource`.
pub(crate) fn erased_spot(kind: OrderKind) -> &'static str
    ensures { result.now ≡ (erased_attributes kind).spot }
{
    if kind.is_about_binding() { "{}" } else { "-" }
}
