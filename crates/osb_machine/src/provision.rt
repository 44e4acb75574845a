//! The rules of Provision, which makes an instance.

ghost use Rattle.std.specs.Prelude.{◌≡◌, IfOk};
ghost use Rattle.osb_catalog.specs.Rules.{rules_of};
ghost use Rattle.osb_orders.specs.ViewData.{data_in};
ghost use Rattle.osb_machine.specs.Opened.{opened};
ghost use Rattle.osb_machine.specs.Provision.{created_attributes, creation, provision_over, provision};
ghost use Rattle.osb_machine.specs.Steps.{decision, opening_of};

use crate::answer_and_change::{Answer, AnswerAndChange};
use crate::opening::{Opening, accepted, is_unlike, open};
use crate::plans::{catalog_version, instances_are_asynchronous};
use crate::same::is_same_instance;
use osb_asks::Provision;
use osb_catalog::Settings;
use osb_orders::{Attributes, InstancePhase, OrderKind, View};
use osb_replies::{Body, FixedError, Status};
use osb_text::Text;
use std::alloc::{AllocError, Global};

pub(crate) fn provision<'a>(
    alloc: Global,
    settings: &Settings,
    view: &View,
    ask: &Provision,
) -> Result<AnswerAndChange<'a>, AllocError>
    ensures { IfOk result (λ step. decision step ≡ provision (rules_of settings.now) (data_in view.now) ask.now) }
{
    let version = catalog_version(settings, ask.service.as_str(), ask.plan.as_str());
    if is_unlike(&ask.maintenance, version) {
        return Ok(AnswerAndChange::refuses(FixedError::MaintenanceInfoConflict));
    }
    let Some(instance) = &view.standing else {
        return create(alloc, settings, view, ask);
    };
    let same = is_same_instance(ask, &instance.attributes);
    provision_over(alloc, view, ask, instance.phase, same)
}

/// By the phase of the instance, and whether it is the same.
fn provision_over<'a>(
    alloc: Global,
    view: &View,
    ask: &Provision,
    phase: InstancePhase,
    same: bool,
) -> Result<AnswerAndChange<'a>, AllocError>
    ensures { IfOk result (λ step. decision step
        ≡ provision_over (data_in view.now) ask.now phase same) }
{
    match phase {
        InstancePhase::Creating if same => accepted(alloc, ask.accepts_incomplete, &view.last),
        InstancePhase::Ready | InstancePhase::Updating if same => Ok(AnswerAndChange::of_status(
            Status::Ok,
        )),
        InstancePhase::Deleting => Ok(AnswerAndChange::refuses(FixedError::ConcurrencyError)),
        InstancePhase::Creating
        | InstancePhase::Ready
        | InstancePhase::Updating
        | InstancePhase::Failed => Ok(AnswerAndChange::of_status(Status::Conflict)),
    }
}

/// Opens the order that creates the instance.
fn create<'a>(
    alloc: Global,
    settings: &Settings,
    view: &View,
    ask: &Provision,
) -> Result<AnswerAndChange<'a>, AllocError>
    ensures { IfOk result (λ step. decision step ≡ opened (rules_of settings.now) (data_in view.now) (creation (rules_of settings.now) ask.now)) }
{
    let opening = creation(alloc, settings, ask)?;
    open(alloc, settings, view, opening)
}

fn creation<'a>(
    alloc: Global,
    settings: &Settings,
    ask: &Provision,
) -> Result<Opening<'a>, AllocError>
    ensures { IfOk result (λ opening. opening_of opening ≡ creation (rules_of settings.now) ask.now) }
{
    Ok(Opening {
        asynchronous: instances_are_asynchronous(settings, ask.plan.as_str()),
        accepts_incomplete: ask.accepts_incomplete,
        kind: OrderKind::Create,
        binding: Text::new(alloc),
        credentials: Text::from_str(alloc, "{}")?,
        attributes: created_attributes(alloc, settings, ask)?,
        answer: Answer {
            status: Status::Created,
            body: Body::EMPTY_OBJECT,
        },
    })
}

fn created_attributes(
    alloc: Global,
    settings: &Settings,
    ask: &Provision,
) -> Result<Attributes, AllocError>
    ensures { IfOk result (λ attributes. attributes ≡ created_attributes (rules_of settings.now) ask.now) }
{
    let version = catalog_version(settings, ask.service.as_str(), ask.plan.as_str());
    Ok(Attributes {
        service: Text::from_str(alloc, ask.service.as_str())?,
        plan: Text::from_str(alloc, ask.plan.as_str())?,
        place: Text::from_str(alloc, ask.organization.as_str())?,
        spot: Text::from_str(alloc, ask.space.as_str())?,
        parameters: Text::from_str(alloc, ask.parameters.as_str())?,
        maintenance: Text::from_str(alloc, version)?,
        context: Text::from_str(alloc, ask.context.as_str())?,
    })
}
