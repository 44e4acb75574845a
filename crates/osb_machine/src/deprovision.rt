//! The rules of Deprovision, which ends an instance.

ghost use Rattle.std.specs.Prelude.{◌≡◌, IfOk};
ghost use Rattle.osb_catalog.specs.Rules.{rules_of};
ghost use Rattle.osb_orders.specs.ViewData.{data_in};
ghost use Rattle.osb_machine.specs.Opened.{opened};
ghost use Rattle.osb_machine.specs.Deprovision.{deletion, deprovision};
ghost use Rattle.osb_machine.specs.Steps.{decision, opening_of};

use crate::answer_and_change::{Answer, AnswerAndChange};
use crate::opening::{Opening, accepted, is_busy, open};
use crate::plans::instances_are_asynchronous;
use osb_asks::Deprovision;
use osb_catalog::Settings;
use osb_orders::{Attributes, InstancePhase, OrderKind, View};
use osb_replies::{Body, FixedError, Status};
use osb_text::Text;
use std::alloc::{AllocError, Global};

pub(crate) fn deprovision<'a>(
    alloc: Global,
    settings: &Settings,
    view: &View,
    ask: &Deprovision,
) -> Result<AnswerAndChange<'a>, AllocError>
    ensures { IfOk result (λ step. decision step ≡ deprovision (rules_of settings.now) (data_in view.now) ask.now) }
{
    let Some(instance) = &view.standing else {
        return Ok(AnswerAndChange::of_status(Status::Gone));
    };
    if let InstancePhase::Deleting = instance.phase {
        return accepted(alloc, ask.accepts_incomplete, &view.last);
    }
    if is_busy(view) {
        return Ok(AnswerAndChange::refuses(FixedError::ConcurrencyError));
    }
    if view.bound {
        return Ok(AnswerAndChange::refuses(FixedError::BindingsRemain));
    }
    delete(alloc, settings, view, &instance.attributes, ask)
}

/// Opens the order that deletes the instance.
fn delete<'a>(
    alloc: Global,
    settings: &Settings,
    view: &View,
    instance: &Attributes,
    ask: &Deprovision,
) -> Result<AnswerAndChange<'a>, AllocError>
    ensures { IfOk result (λ step. decision step ≡ opened (rules_of settings.now) (data_in view.now) (deletion (rules_of settings.now) instance.now ask.now)) }
{
    let opening = deletion(alloc, settings, instance, ask)?;
    open(alloc, settings, view, opening)
}

fn deletion<'a>(
    alloc: Global,
    settings: &Settings,
    instance: &Attributes,
    ask: &Deprovision,
) -> Result<Opening<'a>, AllocError>
    ensures { IfOk result (λ opening. opening_of opening ≡ deletion (rules_of settings.now) instance.now ask.now) }
{
    Ok(Opening {
        asynchronous: instances_are_asynchronous(settings, instance.plan.as_str()),
        accepts_incomplete: ask.accepts_incomplete,
        kind: OrderKind::Delete,
        binding: Text::new(alloc),
        credentials: Text::from_str(alloc, "{}")?,
        attributes: instance.clone()?,
        answer: Answer {
            status: Status::Ok,
            body: Body::EMPTY_OBJECT,
        },
    })
}
