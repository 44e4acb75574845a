//! The rules of Unbind, which ends a binding.

ghost use Rattle.std.specs.Prelude.{◌≡◌, IfOk, false};
ghost use Rattle.std.specs.Option.{option_map_or};
ghost use Rattle.osb_machine.specs.Plans.{bindings_are_asynchronous};
ghost use Rattle.osb_catalog.specs.Rules.{rules_of};
ghost use Rattle.osb_orders.specs.ViewData.{data_in};
ghost use Rattle.osb_machine.specs.Opened.{opened};
ghost use Rattle.osb_machine.specs.Unbind.{unbind_opening, unbind};
ghost use Rattle.osb_machine.specs.Steps.{decision, opening_of};

use crate::answer_and_change::{Answer, AnswerAndChange};
use crate::opening::{Opening, accepted, is_busy, open};
use crate::plans::bindings_are_asynchronous;
use osb_asks::Unbind;
use osb_catalog::Settings;
use osb_orders::{BindingNow, BindingPhase, OrderKind, Standing, View};
use osb_replies::{Body, FixedError, Status};
use osb_text::Text;
use std::alloc::{AllocError, Global};

pub(crate) fn unbind<'a>(
    alloc: Global,
    settings: &Settings,
    view: &View,
    ask: &Unbind,
) -> Result<AnswerAndChange<'a>, AllocError>
    ensures { IfOk result (λ step. decision step ≡ unbind (rules_of settings.now) (data_in view.now) ask.now) }
{
    let Some(binding) = &view.binding else {
        return Ok(AnswerAndChange::of_status(Status::Gone));
    };
    if let BindingPhase::Unbinding = binding.phase {
        return accepted(alloc, ask.accepts_incomplete, &view.last);
    }
    if is_busy(view) {
        return Ok(AnswerAndChange::refuses(FixedError::ConcurrencyError));
    }
    open_unbinding(alloc, settings, view, binding, ask)
}

/// Opens the order that unbinds.
fn open_unbinding<'a>(
    alloc: Global,
    settings: &Settings,
    view: &View,
    binding: &BindingNow,
    ask: &Unbind,
) -> Result<AnswerAndChange<'a>, AllocError>
    ensures { IfOk result (λ step. decision step ≡ opened (rules_of settings.now) (data_in view.now) (unbind_opening (rules_of settings.now) view.now.standing binding.now ask.now)) }
{
    let opening = unbind_opening(alloc, settings, &view.standing, binding, ask)?;
    open(alloc, settings, view, opening)
}

fn unbind_opening<'a>(
    alloc: Global,
    settings: &Settings,
    standing: &Option<Standing>,
    binding: &BindingNow,
    ask: &Unbind,
) -> Result<Opening<'a>, AllocError>
    ensures { IfOk result (λ opening. opening_of opening ≡ unbind_opening (rules_of settings.now) standing.now binding.now ask.now) }
{
    Ok(Opening {
        asynchronous: unbindings_are_asynchronous(settings, standing),
        accepts_incomplete: ask.accepts_incomplete,
        kind: OrderKind::Unbind,
        binding: Text::from_str(alloc, ask.binding.as_str())?,
        credentials: Text::from_str(alloc, "{}")?,
        attributes: binding.attributes.clone()?,
        answer: Answer {
            status: Status::Ok,
            body: Body::EMPTY_OBJECT,
        },
    })
}

/// By the mode of the plan that the instance has.
fn unbindings_are_asynchronous(settings: &Settings, standing: &Option<Standing>) -> bool
    ensures { result ≡ option_map_or
        (λ there. bindings_are_asynchronous (rules_of settings.now) there.attributes.plan) standing.now false }
{
    match standing {
        Some(instance) => bindings_are_asynchronous(settings, instance.attributes.plan.as_str()),
        None => false,
    }
}
