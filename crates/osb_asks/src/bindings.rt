//! Reads what requests for bindings ask, from the ids of the path, the query and the body.

ghost use Rattle.osb_text.specs.ObjectText.{IsReadable};
ghost use Rattle.osb_catalog.specs.Rules.{rules_of};
ghost use Rattle.osb_asks.specs.Bindings as spec;
ghost use Rattle.osb_asks.specs.Contents.{data_of};
ghost use Rattle.osb_asks.specs.Reads.{Meets};

use crate::ask::{Ask, Bind, BindingOp, FetchBinding, Unbind};
use crate::ask_fault::AskFault;
use crate::content::Content;
use crate::id::Id;
use crate::offers::has_plan;
use crate::query::{accepts_incomplete_in, query_id, query_value};
use crate::segment::read_id;
use osb_catalog::Settings;
use std::alloc::Global;

#[tactic(auto, unfolding(crate::specs::Bindings::bind_in))]
fn bind_in(
    alloc: Global,
    instance: Id,
    binding: Id,
    accepts_incomplete: bool,
    content: &Content,
) -> Result<Bind, AskFault>
    requires { IsReadable (data_of content.now) }
    ensures { Meets result (spec.bind_in instance binding accepts_incomplete (data_of content.now)) }
{
    let named = content.plan(alloc)?;
    let app_guid = content.app_guid(alloc)?;
    let bind_resource = content.object_or_empty(alloc, "bind_resource")?;
    let details = content.details(alloc)?;
    Ok(Bind {
        instance,
        binding,
        service: named.service,
        plan: named.plan,
        app_guid,
        bind_resource,
        context: details.context,
        parameters: details.parameters,
        accepts_incomplete,
    })
}

#[tactic(auto, unfolding(crate::specs::Bindings::bind_of))]
pub(crate) fn bind(
    alloc: Global,
    settings: &Settings,
    instance: &[u8],
    binding: &[u8],
    query: &[u8],
    body: &[u8],
) -> Result<Ask, AskFault>
    ensures { Meets result (spec.bind_of (rules_of settings.now) instance.now binding.now query.now body.now) }
{
    let instance = read_id(alloc, instance)?;
    let binding = read_id(alloc, binding)?;
    let accepts_incomplete = accepts_incomplete_in(alloc, query)?;
    let content = Content::read(alloc, body)?;
    let ask = bind_in(alloc, instance, binding, accepts_incomplete, &content)?;
    if !has_plan(settings, &ask.service, &ask.plan) {
        return Err(AskFault::NotInCatalog);
    }
    Ok(Ask::Bind(ask))
}

#[tactic(auto, unfolding(crate::specs::Bindings::fetch_binding_of))]
pub(crate) fn fetch_binding(alloc: Global, instance: &[u8], binding: &[u8]) -> Result<Ask, AskFault>
    ensures { Meets result (spec.fetch_binding_of instance.now binding.now) }
{
    let instance = read_id(alloc, instance)?;
    let binding = read_id(alloc, binding)?;
    Ok(Ask::FetchBinding(FetchBinding { instance, binding }))
}

#[tactic(auto, unfolding(crate::specs::Bindings::unbind_of))]
pub(crate) fn unbind(
    alloc: Global,
    settings: &Settings,
    instance: &[u8],
    binding: &[u8],
    query: &[u8],
) -> Result<Ask, AskFault>
    ensures { Meets result (spec.unbind_of (rules_of settings.now) instance.now binding.now query.now) }
{
    let instance = read_id(alloc, instance)?;
    let binding = read_id(alloc, binding)?;
    let accepts_incomplete = accepts_incomplete_in(alloc, query)?;
    let service = query_id(alloc, "service_id", query)?;
    let plan = query_id(alloc, "plan_id", query)?;
    if !has_plan(settings, &service, &plan) {
        return Err(AskFault::NotInCatalog);
    }
    Ok(Ask::Unbind(Unbind {
        instance,
        binding,
        service,
        plan,
        accepts_incomplete,
    }))
}

#[tactic(auto, unfolding(crate::specs::Bindings::binding_op_of))]
pub(crate) fn binding_op(
    alloc: Global,
    instance: &[u8],
    binding: &[u8],
    query: &[u8],
) -> Result<Ask, AskFault>
    ensures { Meets result (spec.binding_op_of instance.now binding.now query.now) }
{
    let instance = read_id(alloc, instance)?;
    let binding = read_id(alloc, binding)?;
    let operation = query_value(alloc, "operation", query)?;
    Ok(Ask::BindingOp(BindingOp {
        instance,
        binding,
        operation,
    }))
}
