//! Names of services and plans with a space.

ghost use Rattle.std.specs.Prelude.{◌≡◌, ◌++◌, OnOk, string_bytes};
ghost use Rattle.serde_json.specs.View.{view, items_view};
ghost use Rattle.osb_advice.specs.Past.{lines_of};
ghost use Rattle.osb_advice.specs.Spaces as spec;

use crate::pieces::push_all;
use itoa::Buffer;
use osb_catalog::{Field, plans_of, services_of, text_at};
use serde_json::Value;
use std::alloc::AllocError;

/// Appends a line for each service and each plan whose name has a space.
pub(crate) fn push_spaces(text: &mut String, file: &Value) -> Result<(), AllocError>
    ensures { OnOk result (string_bytes text.new
        ≡ string_bytes text.old ++ spec.spaces (view file.now)) }
{
    push_services(text, services_of(file))
}

fn push_services(text: &mut String, services: &[Value]) -> Result<(), AllocError>
    ensures { OnOk result (string_bytes text.new
        ≡ string_bytes text.old ++ lines_of spec.service_spaces 0 (items_view services.now)) }
{
    for (number, service) in services.iter().enumerate() {
        push_service(text, number, service)?;
    }
    Ok(())
}

/// Of the service, and of its plans.
fn push_service(text: &mut String, number: usize, service: &Value) -> Result<(), AllocError>
    ensures { OnOk result (string_bytes text.new
        ≡ string_bytes text.old ++ spec.service_spaces number (view service.now)) }
{
    if name_has_space(service) {
        push_service_line(text, number)?;
    }
    push_plans(text, number, plans_of(service))
}

/// Of the plans of the service with that number.
fn push_plans(text: &mut String, number: usize, plans: &[Value]) -> Result<(), AllocError>
    ensures { OnOk result (string_bytes text.new ≡ string_bytes text.old
        ++ lines_of (spec.plan_spaces number) 0 (items_view plans.now)) }
{
    for (at, plan) in plans.iter().enumerate() {
        push_plan(text, number, at, plan)?;
    }
    Ok(())
}

fn push_plan(text: &mut String, number: usize, at: usize, plan: &Value) -> Result<(), AllocError>
    ensures { OnOk result (string_bytes text.new
        ≡ string_bytes text.old ++ spec.plan_spaces number at (view plan.now)) }
{
    if !name_has_space(plan) {
        return Ok(());
    }
    push_plan_line(text, number, at)
}

fn name_has_space(named: &Value) -> bool
    ensures { result ≡ spec.name_has_space (view named.now) }
{
    text_at(named, Field::Name)
        .as_bytes()
        .iter()
        .any(|byte| *byte == b' ')
}

fn push_service_line(text: &mut String, number: usize) -> Result<(), AllocError>
    ensures { OnOk result (string_bytes text.new
        ≡ string_bytes text.old ++ spec.service_line number) }
{
    let mut digits = Buffer::new();
    push_all(
        text,
        &[
            "a space in a name: catalog.services[",
            digits.format(number),
            "]\n",
        ],
    )
}

fn push_plan_line(text: &mut String, number: usize, at: usize) -> Result<(), AllocError>
    ensures { OnOk result (string_bytes text.new
        ≡ string_bytes text.old ++ spec.plan_line number at) }
{
    let (mut digits, mut more) = (Buffer::new(), Buffer::new());
    push_all(
        text,
        &[
            "a space in a name: catalog.services[",
            digits.format(number),
            "].plans[",
            more.format(at),
            "]\n",
        ],
    )
}
