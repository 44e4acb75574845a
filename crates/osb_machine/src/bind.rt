//! The rules of Bind, which makes a binding.

ghost use Rattle.std.specs.Prelude.{◌≡◌, ◌&&◌, IfOk, bytes_eq};
ghost use Rattle.osb_catalog.specs.Rules.{rules_of};
ghost use Rattle.osb_orders.specs.ViewData.{data_in};
ghost use Rattle.osb_machine.specs.Opened.{opened};
ghost use Rattle.osb_machine.specs.Bind.{bound_attributes, bind_opening, bind_new, bind_again, bind};
ghost use Rattle.osb_machine.specs.Steps.{decision, opening_of};

use crate::answer_and_change::{Answer, AnswerAndChange};
use crate::opening::{Opening, accepted, is_busy, open};
use crate::plans::{bindings_are_asynchronous, is_bindable, plan_credentials};
use crate::same::{app_guid_of, is_same_binding};
use crate::texts;
use osb_asks::Bind;
use osb_catalog::Settings;
use osb_orders::{Attributes, BindingNow, BindingPhase, InstancePhase, OrderKind, View};
use osb_replies::{Body, FixedError, Status};
use osb_text::Text;
use std::alloc::{AllocError, Global};

pub(crate) fn bind<'a>(
    alloc: Global,
    settings: &Settings,
    view: &View,
    ask: &Bind,
) -> Result<AnswerAndChange<'a>, AllocError>
    ensures { IfOk result (λ step. decision step ≡ bind (rules_of settings.now) (data_in view.now) ask.now) }
{
    let Some(instance) = &view.standing else {
        return Ok(AnswerAndChange::of_status(Status::NotFound));
    };
    match instance.phase {
        InstancePhase::Failed => return Ok(AnswerAndChange::of_status(Status::NotFound)),
        InstancePhase::Creating => return Ok(AnswerAndChange::refuses(
            FixedError::ConcurrencyError,
        )),
        InstancePhase::Ready | InstancePhase::Updating | InstancePhase::Deleting => {}
    }
    match &view.binding {
        Some(binding) => {
            let same = is_same_binding(ask, &binding.attributes);
            bind_again(alloc, view, binding, ask, same)
        }
        None => bind_new(alloc, settings, view, &instance.attributes, ask),
    }
}

/// A binding of that id is there: by its phase, and whether it is the same.
fn bind_again<'a>(
    alloc: Global,
    view: &View,
    binding: &BindingNow,
    ask: &Bind,
    same: bool,
) -> Result<AnswerAndChange<'a>, AllocError>
    ensures { IfOk result (λ step. decision step
        ≡ bind_again (data_in view.now) ask.now binding.now.phase same binding.now) }
{
    match binding.phase {
        BindingPhase::Bound if same => {
            let text = texts::credentials(alloc, binding.credentials.as_str())?;
            Ok(AnswerAndChange::says(Status::Ok, text))
        }
        BindingPhase::Binding if same => accepted(alloc, ask.accepts_incomplete, &view.last),
        BindingPhase::Unbinding => Ok(AnswerAndChange::refuses(FixedError::ConcurrencyError)),
        BindingPhase::Bound | BindingPhase::Binding | BindingPhase::Failed => {
            Ok(AnswerAndChange::of_status(Status::Conflict))
        }
    }
}

fn bind_new<'a>(
    alloc: Global,
    settings: &Settings,
    view: &View,
    instance: &Attributes,
    ask: &Bind,
) -> Result<AnswerAndChange<'a>, AllocError>
    ensures { IfOk result (λ step. decision step
        ≡ bind_new (rules_of settings.now) (data_in view.now) ask.now instance.now) }
{
    if is_busy(view) {
        return Ok(AnswerAndChange::refuses(FixedError::ConcurrencyError));
    }
    if !is_of_plan(ask, instance) {
        return Ok(AnswerAndChange::refuses(FixedError::Mismatch));
    }
    if !is_bindable(settings, instance.service.as_str(), instance.plan.as_str()) {
        return Ok(AnswerAndChange::refuses(FixedError::NotBindable));
    }
    open_binding(alloc, settings, view, instance, ask)
}

/// Whether the service and the plan are those of the instance.
fn is_of_plan(ask: &Bind, instance: &Attributes) -> bool
    ensures { result ≡ (bytes_eq ask.now.service instance.now.service
        && bytes_eq ask.now.plan instance.now.plan) }
{
    ask.service.as_str() == instance.service.as_str() && ask.plan.as_str() == instance.plan.as_str()
}

/// Opens the order that binds.
fn open_binding<'a>(
    alloc: Global,
    settings: &Settings,
    view: &View,
    instance: &Attributes,
    ask: &Bind,
) -> Result<AnswerAndChange<'a>, AllocError>
    ensures { IfOk result (λ step. decision step ≡ opened (rules_of settings.now) (data_in view.now) (bind_opening (rules_of settings.now) instance.now ask.now)) }
{
    let opening = bind_opening(alloc, settings, instance, ask)?;
    open(alloc, settings, view, opening)
}

fn bind_opening<'a>(
    alloc: Global,
    settings: &Settings,
    instance: &Attributes,
    ask: &Bind,
) -> Result<Opening<'a>, AllocError>
    ensures { IfOk result (λ opening. opening_of opening ≡ bind_opening (rules_of settings.now) instance.now ask.now) }
{
    let credentials = plan_credentials(settings, instance.plan.as_str());
    let text = texts::credentials(alloc, credentials)?;
    Ok(Opening {
        asynchronous: bindings_are_asynchronous(settings, instance.plan.as_str()),
        accepts_incomplete: ask.accepts_incomplete,
        kind: OrderKind::Bind,
        binding: Text::from_str(alloc, ask.binding.as_str())?,
        credentials: Text::from_str(alloc, credentials)?,
        attributes: bound_attributes(alloc, ask)?,
        answer: Answer {
            status: Status::Created,
            body: Body::from(text),
        },
    })
}

fn bound_attributes(alloc: Global, ask: &Bind) -> Result<Attributes, AllocError>
    ensures { IfOk result (λ attributes. attributes ≡ bound_attributes ask.now) }
{
    Ok(Attributes {
        service: Text::from_str(alloc, ask.service.as_str())?,
        plan: Text::from_str(alloc, ask.plan.as_str())?,
        place: Text::from_str(alloc, app_guid_of(ask))?,
        spot: Text::from_str(alloc, ask.bind_resource.as_str())?,
        parameters: Text::from_str(alloc, ask.parameters.as_str())?,
        maintenance: Text::new(alloc),
        context: Text::from_str(alloc, ask.context.as_str())?,
    })
}
