//! Reads what requests for instances ask, from the id of the path, the query and the body.

ghost use Rattle.osb_text.specs.ObjectText.{IsReadable};
ghost use Rattle.osb_catalog.specs.Rules.{rules_of};
ghost use Rattle.osb_asks.specs.Instances as spec;
ghost use Rattle.osb_asks.specs.Contents.{data_of};
ghost use Rattle.osb_asks.specs.Reads.{Meets};

use crate::ask::{Ask, Deprovision, Fetch, InstanceOp, Provision, Update};
use crate::ask_fault::AskFault;
use crate::content::Content;
use crate::id::Id;
use crate::offers::{has_given_plan, has_plan};
use crate::query::{accepts_incomplete_in, query_id, query_value};
use crate::segment::read_id;
use osb_catalog::Settings;
use std::alloc::Global;

#[tactic(auto, unfolding(crate::specs::Instances::provision_in))]
fn provision_in(
    alloc: Global,
    instance: Id,
    accepts_incomplete: bool,
    content: &Content,
) -> Result<Provision, AskFault>
    requires { IsReadable (data_of content.now) }
    ensures { Meets result (spec.provision_in instance accepts_incomplete (data_of content.now)) }
{
    let named = content.plan(alloc)?;
    let place = content.space(alloc)?;
    let details = content.details(alloc)?;
    let maintenance = content.maintenance(alloc)?;
    Ok(Provision {
        instance,
        service: named.service,
        plan: named.plan,
        organization: place.organization,
        space: place.space,
        context: details.context,
        parameters: details.parameters,
        maintenance,
        accepts_incomplete,
    })
}

#[tactic(auto, unfolding(crate::specs::Instances::update_in))]
fn update_in(
    alloc: Global,
    instance: Id,
    accepts_incomplete: bool,
    content: &Content,
) -> Result<Update, AskFault>
    requires { IsReadable (data_of content.now) }
    ensures { Meets result (spec.update_in instance accepts_incomplete (data_of content.now)) }
{
    let service = content.id(alloc, "service_id")?;
    let plan = content.given_id(alloc, "plan_id")?;
    let context = content.object(alloc, "context")?;
    let parameters = content.object(alloc, "parameters")?;
    let maintenance = content.maintenance(alloc)?;
    Ok(Update {
        instance,
        service,
        plan,
        context,
        parameters,
        maintenance,
        accepts_incomplete,
    })
}

#[tactic(auto, unfolding(crate::specs::Instances::provision_of))]
pub(crate) fn provision(
    alloc: Global,
    settings: &Settings,
    segment: &[u8],
    query: &[u8],
    body: &[u8],
) -> Result<Ask, AskFault>
    ensures { Meets result (spec.provision_of (rules_of settings.now) segment.now query.now body.now) }
{
    let instance = read_id(alloc, segment)?;
    let accepts_incomplete = accepts_incomplete_in(alloc, query)?;
    let content = Content::read(alloc, body)?;
    let ask = provision_in(alloc, instance, accepts_incomplete, &content)?;
    if !has_plan(settings, &ask.service, &ask.plan) {
        return Err(AskFault::NotInCatalog);
    }
    Ok(Ask::Provision(ask))
}

#[tactic(auto, unfolding(crate::specs::Instances::fetch_of))]
pub(crate) fn fetch(alloc: Global, segment: &[u8]) -> Result<Ask, AskFault>
    ensures { Meets result (spec.fetch_of segment.now) }
{
    let instance = read_id(alloc, segment)?;
    Ok(Ask::Fetch(Fetch { instance }))
}

#[tactic(auto, unfolding(crate::specs::Instances::update_of))]
pub(crate) fn update(
    alloc: Global,
    settings: &Settings,
    segment: &[u8],
    query: &[u8],
    body: &[u8],
) -> Result<Ask, AskFault>
    ensures { Meets result (spec.update_of (rules_of settings.now) segment.now query.now body.now) }
{
    let instance = read_id(alloc, segment)?;
    let accepts_incomplete = accepts_incomplete_in(alloc, query)?;
    let content = Content::read(alloc, body)?;
    let ask = update_in(alloc, instance, accepts_incomplete, &content)?;
    if !has_given_plan(settings, &ask.service, &ask.plan) {
        return Err(AskFault::NotInCatalog);
    }
    Ok(Ask::Update(ask))
}

#[tactic(auto, unfolding(crate::specs::Instances::deprovision_of))]
pub(crate) fn deprovision(
    alloc: Global,
    settings: &Settings,
    segment: &[u8],
    query: &[u8],
) -> Result<Ask, AskFault>
    ensures { Meets result (spec.deprovision_of (rules_of settings.now) segment.now query.now) }
{
    let instance = read_id(alloc, segment)?;
    let accepts_incomplete = accepts_incomplete_in(alloc, query)?;
    let service = query_id(alloc, "service_id", query)?;
    let plan = query_id(alloc, "plan_id", query)?;
    if !has_plan(settings, &service, &plan) {
        return Err(AskFault::NotInCatalog);
    }
    Ok(Ask::Deprovision(Deprovision {
        instance,
        service,
        plan,
        accepts_incomplete,
    }))
}

#[tactic(auto, unfolding(crate::specs::Instances::instance_op_of))]
pub(crate) fn instance_op(alloc: Global, segment: &[u8], query: &[u8]) -> Result<Ask, AskFault>
    ensures { Meets result (spec.instance_op_of segment.now query.now) }
{
    let instance = read_id(alloc, segment)?;
    let operation = query_value(alloc, "operation", query)?;
    Ok(Ask::InstanceOp(InstanceOp {
        instance,
        operation,
    }))
}
