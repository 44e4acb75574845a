//! Whether the texts of an order are id texts and compact texts, where they have to be.

ghost use Rattle.std.specs.Prelude.{◌≡◌, ◌↔◌, ◌&&◌, true, IfOk};
ghost use Rattle.osb_text.specs.Id.{is_id};
ghost use Rattle.osb_text.specs.ObjectText.{is_object_text};
ghost use Rattle.osb_orders.specs.Orders.{is_about_binding};
ghost use Rattle.osb_orders.specs.IsLife.{AreOfInstance, AreOfBinding, AreValidTexts, HasValidTexts, is_id_or_empty};

use osb_orders::{Attributes, Order};
use osb_text::{Text, is_id, is_object_text};
use std::alloc::{AllocError, Global};

/// Whether the order's ids are id texts, and its objects compact texts.
pub(crate) fn has_valid_texts(alloc: Global, order: &Order) -> Result<bool, AllocError>
    ensures { IfOk result (λ yes. (yes ≡ true) ↔ HasValidTexts order.now) }
{
    let attributes = are_valid_texts(alloc, order)?;
    let credentials = is_object_text(alloc, order.outcome.credentials.as_str())?;
    Ok(attributes && credentials)
}

fn are_valid_texts(alloc: Global, order: &Order) -> Result<bool, AllocError>
    ensures { IfOk result (λ yes. (yes ≡ true) ↔ AreValidTexts (is_about_binding order.now.kind) order.now.binding order.now.attributes) }
{
    if order.kind.is_about_binding() {
        let attributes = are_of_binding(alloc, &order.attributes)?;
        Ok(is_id(order.binding.as_str()) && attributes)
    } else {
        let attributes = are_of_instance(alloc, &order.attributes)?;
        Ok(order.binding.is_empty() && attributes)
    }
}

fn are_of_instance(alloc: Global, attributes: &Attributes) -> Result<bool, AllocError>
    ensures { IfOk result (λ yes. (yes ≡ true) ↔ AreOfInstance attributes.now) }
{
    let parameters = is_object_text(alloc, attributes.parameters.as_str())?;
    let context = is_object_text(alloc, attributes.context.as_str())?;
    Ok(
        is_id(attributes.service.as_str())
            && is_id(attributes.plan.as_str())
            && is_id(attributes.place.as_str())
            && is_id(attributes.spot.as_str())
            && parameters
            && context,
    )
}

fn are_of_binding(alloc: Global, attributes: &Attributes) -> Result<bool, AllocError>
    ensures { IfOk result (λ yes. (yes ≡ true) ↔ AreOfBinding attributes.now) }
{
    let bind_resource = is_object_text(alloc, attributes.spot.as_str())?;
    let parameters = is_object_text(alloc, attributes.parameters.as_str())?;
    let context = is_object_text(alloc, attributes.context.as_str())?;
    Ok(
        is_id(attributes.service.as_str())
            && is_id(attributes.plan.as_str())
            && is_id_or_empty(attributes.place.as_str())
            && bind_resource
            && parameters
            && context,
    )
}

fn is_id_or_empty(text: &str) -> bool
    ensures { result ≡ is_id_or_empty text.now }
{
    text.is_empty() || is_id(text)
}
