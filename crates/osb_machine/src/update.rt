//! The rules of Update, which changes an instance.

ghost use Rattle.std.specs.Prelude.{if◌then◌else◌, ◌≡◌, IfOk, unwrap_or};
ghost use Rattle.osb_catalog.specs.Rules.{rules_of, allows_context_updates};
ghost use Rattle.osb_orders.specs.ViewData.{data_in};
ghost use Rattle.osb_machine.specs.Opened.{opened};
ghost use Rattle.osb_machine.specs.Update.{target_plan, target_maintenance, target, update_opening, forbids_change, update_ready, is_order_to, update_running, update_checked, update};
ghost use Rattle.osb_machine.specs.Steps.{decision, opening_of};

use crate::answer_and_change::{Answer, AnswerAndChange};
use crate::opening::{Opening, accepted, is_busy, is_unlike, open};
use crate::plans::{catalog_version, instances_are_asynchronous, is_plan_updateable};
use crate::same::are_same;
use osb_asks::Update;
use osb_catalog::Settings;
use osb_orders::{Attributes, InstancePhase, Order, OrderKind, View};
use osb_replies::{Body, FixedError, Status};
use osb_text::Text;
use std::alloc::{AllocError, Global};

pub(crate) fn update<'a>(
    alloc: Global,
    settings: &Settings,
    view: &View,
    ask: &Update,
) -> Result<AnswerAndChange<'a>, AllocError>
    ensures { IfOk result (λ step. decision step ≡ update (rules_of settings.now) (data_in view.now) ask.now) }
{
    let Some(instance) = &view.standing else {
        return Ok(AnswerAndChange::of_status(Status::NotFound));
    };
    match instance.phase {
        InstancePhase::Failed => Ok(AnswerAndChange::of_status(Status::NotFound)),
        InstancePhase::Creating | InstancePhase::Deleting => {
            Ok(AnswerAndChange::refuses(FixedError::ConcurrencyError))
        }
        InstancePhase::Ready => {
            update_checked(alloc, settings, view, &instance.attributes, ask, false)
        }
        InstancePhase::Updating => {
            update_checked(alloc, settings, view, &instance.attributes, ask, true)
        }
    }
}

/// Checks what every update has to meet. `updating` says whether another one runs.
fn update_checked<'a>(
    alloc: Global,
    settings: &Settings,
    view: &View,
    instance: &Attributes,
    ask: &Update,
    updating: bool,
) -> Result<AnswerAndChange<'a>, AllocError>
    ensures { let rules = rules_of settings.now in
        let facts = data_in view.now in
        let aim = target rules instance.now ask.now in
        IfOk result (λ step. decision step ≡ update_checked rules facts ask.now instance.now aim
        (if updating then update_running facts ask.now aim
        else update_ready rules facts ask.now instance.now aim)) }
{
    if ask.service.as_str() != instance.service.as_str() {
        return Ok(AnswerAndChange::refuses(FixedError::Mismatch));
    }
    let plan = target_plan(instance, ask);
    let version = catalog_version(settings, instance.service.as_str(), plan);
    if is_unlike(&ask.maintenance, version) {
        return Ok(AnswerAndChange::refuses(FixedError::MaintenanceInfoConflict));
    }
    let target = target(alloc, settings, instance, ask)?;
    update_by(alloc, settings, view, instance, ask, target, updating)
}

fn update_by<'a>(
    alloc: Global,
    settings: &Settings,
    view: &View,
    instance: &Attributes,
    ask: &Update,
    target: Attributes,
    updating: bool,
) -> Result<AnswerAndChange<'a>, AllocError>
    ensures { let rules = rules_of settings.now in
        let facts = data_in view.now in
        IfOk result (λ step. decision step ≡ (if updating then update_running facts ask.now target
        else update_ready rules facts ask.now instance.now target)) }
{
    if updating {
        let step = update_running(alloc, view, ask, &target);
        drop(target);
        return step;
    }
    update_ready(alloc, settings, view, instance, ask, target)
}

/// While another update runs.
fn update_running<'a>(
    alloc: Global,
    view: &View,
    ask: &Update,
    target: &Attributes,
) -> Result<AnswerAndChange<'a>, AllocError>
    ensures { IfOk result (λ step. decision step ≡ update_running (data_in view.now) ask.now target.now) }
{
    if is_order_to(target, &view.last) {
        accepted(alloc, ask.accepts_incomplete, &view.last)
    } else {
        Ok(AnswerAndChange::refuses(FixedError::ConcurrencyError))
    }
}

fn is_order_to(target: &Attributes, last: &Option<Order>) -> bool
    ensures { result ≡ is_order_to target.now last.now }
{
    match last {
        Some(order) => are_same(target, &order.attributes),
        None => false,
    }
}

fn update_ready<'a>(
    alloc: Global,
    settings: &Settings,
    view: &View,
    instance: &Attributes,
    ask: &Update,
    target: Attributes,
) -> Result<AnswerAndChange<'a>, AllocError>
    ensures { IfOk result (λ step. decision step
        ≡ update_ready (rules_of settings.now) (data_in view.now) ask.now instance.now target) }
{
    if are_same(&target, instance) {
        drop(target);
        return Ok(AnswerAndChange::of_status(Status::Ok));
    }
    if is_busy(view) {
        drop(target);
        return Ok(AnswerAndChange::refuses(FixedError::ConcurrencyError));
    }
    if forbids_change(settings, instance, &target) {
        drop(target);
        return Ok(AnswerAndChange::refuses(FixedError::NoPlanChange));
    }
    change(alloc, settings, view, instance, ask, target)
}

/// Whether the plan changes where the instance's plan doesn't allow it.
fn forbids_change(settings: &Settings, instance: &Attributes, target: &Attributes) -> bool
    ensures { result ≡ forbids_change (rules_of settings.now) instance.now target.now }
{
    target.plan != instance.plan
        && !is_plan_updateable(settings, instance.service.as_str(), instance.plan.as_str())
}

/// Opens the order that changes the instance.
fn change<'a>(
    alloc: Global,
    settings: &Settings,
    view: &View,
    instance: &Attributes,
    ask: &Update,
    target: Attributes,
) -> Result<AnswerAndChange<'a>, AllocError>
    ensures { IfOk result (λ step. decision step ≡ opened (rules_of settings.now) (data_in view.now) (update_opening (rules_of settings.now) instance.now ask.now target)) }
{
    let opening = update_opening(alloc, settings, instance, ask, target)?;
    open(alloc, settings, view, opening)
}

fn update_opening<'a>(
    alloc: Global,
    settings: &Settings,
    instance: &Attributes,
    ask: &Update,
    target: Attributes,
) -> Result<Opening<'a>, AllocError>
    ensures { IfOk result (λ opening. opening_of opening ≡ update_opening (rules_of settings.now) instance.now ask.now target) }
{
    match Text::from_str(alloc, "{}") {
        Ok(credentials) => Ok(Opening {
            asynchronous: instances_are_asynchronous(settings, instance.plan.as_str()),
            accepts_incomplete: ask.accepts_incomplete,
            kind: OrderKind::Update,
            binding: Text::new(alloc),
            attributes: target,
            credentials,
            answer: Answer {
                status: Status::Ok,
                body: Body::EMPTY_OBJECT,
            },
        }),
        Err(error) => {
            drop(target);
            Err(error)
        }
    }
}

/// What the instance is to have.
fn target(
    alloc: Global,
    settings: &Settings,
    instance: &Attributes,
    ask: &Update,
) -> Result<Attributes, AllocError>
    ensures { IfOk result (λ attributes. attributes ≡ target (rules_of settings.now) instance.now ask.now) }
{
    Ok(Attributes {
        service: instance.service.clone()?,
        plan: Text::from_str(alloc, target_plan(instance, ask))?,
        place: instance.place.clone()?,
        spot: instance.spot.clone()?,
        parameters: Text::from_str(alloc, target_parameters(instance, ask))?,
        maintenance: Text::from_str(alloc, target_maintenance(settings, instance, ask))?,
        context: Text::from_str(alloc, target_context(settings, instance, ask))?,
    })
}

fn target_plan<'a>(instance: &'a Attributes, ask: &'a Update) -> &'a str
    ensures { result.now ≡ target_plan instance.now ask.now }
{
    match &ask.plan {
        Some(plan) => plan.as_str(),
        None => instance.plan.as_str(),
    }
}

fn target_parameters<'a>(instance: &'a Attributes, ask: &'a Update) -> &'a str
    ensures { result.now ≡ unwrap_or ask.now.parameters instance.now.parameters }
{
    match &ask.parameters {
        Some(parameters) => parameters.as_str(),
        None => instance.parameters.as_str(),
    }
}

fn target_context<'a>(settings: &Settings, instance: &'a Attributes, ask: &'a Update) -> &'a str
    ensures { result.now ≡ (if allows_context_updates (rules_of settings.now) instance.now.service
        then unwrap_or ask.now.context instance.now.context else instance.now.context) }
{
    match &ask.context {
        Some(context) if settings.context_updates(instance.service.as_str()) => context.as_str(),
        _ => instance.context.as_str(),
    }
}

fn target_maintenance<'a>(
    settings: &'a Settings,
    instance: &'a Attributes,
    ask: &'a Update,
) -> &'a str
    ensures { result.now ≡ target_maintenance (rules_of settings.now) instance.now ask.now ask.now.maintenance }
{
    if let Some(version) = &ask.maintenance {
        return version.as_str();
    }
    let plan = target_plan(instance, ask);
    if plan == instance.plan.as_str() {
        instance.maintenance.as_str()
    } else {
        catalog_version(settings, instance.service.as_str(), plan)
    }
}
