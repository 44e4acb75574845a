//! The listing of running orders.

ghost use Rattle.std.specs.Prelude.{◌≡◌, ◌++◌, false, codes, IfOk, string_bytes};
ghost use Rattle.osb_machine.specs.Listed.{orders_body};
ghost use Rattle.osb_machine.specs.Spliced.{maintenance_member, context_member, first_members, last_members, spliced_of_binding, spliced_of_instance, spliced, spliced_after, spliced_from};
ghost use Rattle.osb_replies.specs.declared.status.Status.TheVariants.{Ok};
ghost use Rattle.osb_machine.specs.Decision.{says};
ghost use Rattle.osb_machine.specs.Steps.{decision};

use crate::answer_and_change::AnswerAndChange;
use crate::texts::in_quotes;
use osb_orders::{Order, OrderKind};
use osb_replies::Status;
use osb_text::Text;
use std::alloc::{AllocError, Global};

/// Answers with the running orders of a view.
pub(crate) fn orders<'a>(
    alloc: Global,
    listing: &[(Text, Order)],
) -> Result<AnswerAndChange<'a>, AllocError>
    ensures { IfOk result (λ step. decision step ≡ says Ok (orders_body listing.now)) }
{
    let text = orders_body(alloc, listing)?;
    Ok(AnswerAndChange::says(Status::Ok, text))
}

fn orders_body(alloc: Global, listing: &[(Text, Order)]) -> Result<String, AllocError>
    ensures { IfOk result (λ s. string_bytes s ≡ codes "{\"orders\":[" ++ spliced_from false listing.now) }
{
    let mut text = String::from_str(alloc, "{\"orders\":[")?;
    let mut later = false;
    for (id, order) in listing {
        let piece = listed_after(alloc, later, id, order)?;
        text.push_str(piece.as_str())?;
        later = true;
    }
    text.push_str("]}")?;
    Ok(text)
}

/// One order, with a comma before it where it isn't the first.
fn listed_after(alloc: Global, later: bool, id: &Text, order: &Order) -> Result<String, AllocError>
    ensures { IfOk result (λ s. string_bytes s ≡ spliced_after later id.now order.now) }
{
    let order = listed(alloc, id, order)?;
    if later {
        return format!(in alloc; ",{order}");
    }
    Ok(order)
}

fn listed(alloc: Global, id: &Text, order: &Order) -> Result<String, AllocError>
    ensures { IfOk result (λ s. string_bytes s ≡ spliced id.now order.now) }
{
    match order.kind {
        OrderKind::Bind | OrderKind::Unbind => listed_of_binding(alloc, id, order),
        OrderKind::Create | OrderKind::Update | OrderKind::Delete => {
            listed_of_instance(alloc, id, order)
        }
    }
}

fn listed_of_binding(alloc: Global, id: &Text, order: &Order) -> Result<String, AllocError>
    ensures { IfOk result (λ s. string_bytes s ≡ spliced_of_binding id.now order.now) }
{
    let app = in_quotes(alloc, &order.attributes.place)?;
    let resource = order.attributes.spot.as_str();
    let binding = in_quotes(alloc, &order.binding)?;
    let first = first_members(alloc, id, order)?;
    let last = last_members(alloc, order)?;
    format!(in alloc;
        "{{\"app_guid\":{app},\"bind_resource\":{resource},\"binding_id\":{binding},{first}{last}}}"
    )
}

fn listed_of_instance(alloc: Global, id: &Text, order: &Order) -> Result<String, AllocError>
    ensures { IfOk result (λ s. string_bytes s ≡ spliced_of_instance id.now order.now) }
{
    let first = first_members(alloc, id, order)?;
    let organization = in_quotes(alloc, &order.attributes.place)?;
    let last = last_members(alloc, order)?;
    let space = in_quotes(alloc, &order.attributes.spot)?;
    format!(in alloc;
        "{{{first},\"organization_guid\":{organization}{last},\"space_guid\":{space}}}"
    )
}

/// From `context` to `maintenance_version`.
fn first_members(alloc: Global, id: &Text, order: &Order) -> Result<String, AllocError>
    ensures { IfOk result (λ s. string_bytes s ≡ first_members id.now order.now) }
{
    let context = context_member(alloc, &order.attributes.context)?;
    let instance = in_quotes(alloc, id)?;
    let kind = order.kind.as_str();
    let maintenance = maintenance_member(alloc, &order.attributes.maintenance)?;
    format!(in alloc; "{context}\"instance_id\":{instance},\"kind\":\"{kind}\"{maintenance}")
}

/// The context, where it has members.
fn context_member(alloc: Global, context: &Text) -> Result<String, AllocError>
    ensures { IfOk result (λ s. string_bytes s ≡ context_member context.now) }
{
    if context.as_str() == "{}" {
        return Ok(String::new(alloc));
    }
    let text = context.as_str();
    format!(in alloc; "\"context\":{text},")
}

/// The maintenance version, where it isn't empty.
fn maintenance_member(alloc: Global, version: &Text) -> Result<String, AllocError>
    ensures { IfOk result (λ s. string_bytes s ≡ maintenance_member version.now) }
{
    if version.len() == 0 {
        return Ok(String::new(alloc));
    }
    let quoted = in_quotes(alloc, version)?;
    format!(in alloc; ",\"maintenance_version\":{quoted}")
}

/// From `parameters` to `service_id`.
fn last_members(alloc: Global, order: &Order) -> Result<String, AllocError>
    ensures { IfOk result (λ s. string_bytes s ≡ last_members order.now) }
{
    let parameters = order.attributes.parameters.as_str();
    let plan = in_quotes(alloc, &order.attributes.plan)?;
    let number = order.number;
    let service = in_quotes(alloc, &order.attributes.service)?;
    format!(in alloc;
        ",\"parameters\":{parameters},\"plan_id\":{plan},\"seq\":{number},\"service_id\":{service}"
    )
}
