//! Plans whose bindings are made at once and give nothing.

ghost use Rattle.std.specs.Prelude.{◌≡◌, ◌++◌, OnOk, option_map, string_bytes, unwrap_or};
ghost use Rattle.serde_json.specs.Data.{null};
ghost use Rattle.serde_json.specs.View.{view, items_view};
ghost use Rattle.osb_catalog.specs.declared.field.Field.TheVariants as the;
ghost use Rattle.osb_catalog.specs.Contents.{flag_over};
ghost use Rattle.osb_catalog.specs.Fields.{flag_at};
ghost use Rattle.osb_advice.specs.Nothing as spec;
ghost use Rattle.osb_advice.specs.Past.{lines_of};

use crate::pieces::push_all;
use itoa::Buffer;
use osb_catalog::{Field, mode_of_plan, plans_of, services_of, text_at, timing_at, value_at};
use serde_json::Value;
use std::alloc::AllocError;

/// Appends a line for each plan whose bindings are made at once and give nothing.
pub(crate) fn push_nothing(text: &mut String, file: &Value) -> Result<(), AllocError>
    ensures { OnOk result (string_bytes text.new
        ≡ string_bytes text.old ++ spec.nothing (view file.now)) }
{
    push_services(text, file, services_of(file))
}

fn push_services(text: &mut String, file: &Value, services: &[Value]) -> Result<(), AllocError>
    ensures { OnOk result (string_bytes text.new ≡ string_bytes text.old
        ++ lines_of (spec.service_nothing (view file.now)) 0 (items_view services.now)) }
{
    for (number, service) in services.iter().enumerate() {
        push_plans(text, file, service, number, plans_of(service))?;
    }
    Ok(())
}

/// Of the plans of the service with that number.
fn push_plans(
    text: &mut String,
    file: &Value,
    service: &Value,
    number: usize,
    plans: &[Value],
) -> Result<(), AllocError>
    ensures { OnOk result (string_bytes text.new ≡ string_bytes text.old
        ++ lines_of (spec.plan_nothing (view file.now) (view service.now) number) 0
        (items_view plans.now)) }
{
    for (at, plan) in plans.iter().enumerate() {
        push_plan(text, file, service, number, at, plan)?;
    }
    Ok(())
}

#[tactic(auto, unfolding(crate::specs::Nothing::plan_nothing))]
fn push_plan(
    text: &mut String,
    file: &Value,
    service: &Value,
    number: usize,
    at: usize,
    plan: &Value,
) -> Result<(), AllocError>
    ensures { OnOk result (string_bytes text.new ≡ string_bytes text.old
        ++ spec.plan_nothing (view file.now) (view service.now) number at (view plan.now)) }
{
    if !binds_to_nothing(file, service, plan) {
        return Ok(());
    }
    push_line(text, number, at)
}

fn binds_to_nothing(file: &Value, service: &Value, plan: &Value) -> bool
    ensures { result ≡ spec.binds_to_nothing (view file.now) (view service.now) (view plan.now) }
{
    let mode = mode_of_plan(file, text_at(plan, Field::Id));
    is_bindable(plan, service) && binds_with_nothing(mode)
}

/// A plan without a mode binds at once, and gives nothing.
fn binds_with_nothing(mode: Option<&Value>) -> bool
    ensures { result
        ≡ spec.binds_with_nothing (unwrap_or (option_map (λ v. view v.now) mode.entry) null) }
{
    match mode {
        Some(mode) => !is_later(mode) && gives_nothing(mode),
        None => true,
    }
}

/// A plan that doesn't say it goes by its service.
fn is_bindable(plan: &Value, service: &Value) -> bool
    ensures { result ≡ flag_over the.Bindable (view plan.now) (view service.now) }
{
    match value_at(plan, Field::Bindable) {
        Some(flag) => flag.as_bool().unwrap_or(false),
        None => is_service_bindable(service),
    }
}

fn is_service_bindable(service: &Value) -> bool
    ensures { result ≡ flag_at the.Bindable (view service.now) }
{
    match value_at(service, Field::Bindable) {
        Some(flag) => flag.as_bool().unwrap_or(false),
        None => false,
    }
}

fn is_later(mode: &Value) -> bool
    ensures { result ≡ spec.is_later (view mode.now) }
{
    timing_at(mode, Field::Bindings).is_asynchronous()
}

fn gives_nothing(mode: &Value) -> bool
    ensures { result ≡ spec.gives_nothing (view mode.now) }
{
    match value_at(mode, Field::Credentials) {
        Some(found) => is_empty_object(found),
        None => true,
    }
}

fn is_empty_object(found: &Value) -> bool
    ensures { result ≡ spec.is_empty_object (view found.now) }
{
    match found.as_object() {
        Some(members) => members.is_empty(),
        None => false,
    }
}

fn push_line(text: &mut String, number: usize, at: usize) -> Result<(), AllocError>
    ensures { OnOk result (string_bytes text.new
        ≡ string_bytes text.old ++ spec.nothing_line number at) }
{
    let (mut digits, mut more) = (Buffer::new(), Buffer::new());
    push_all(
        text,
        &[
            "bindings give {}: catalog.services[",
            digits.format(number),
            "].plans[",
            more.format(at),
            "]\n",
        ],
    )
}
