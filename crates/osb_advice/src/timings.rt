//! Whether the orders of each plan of a settings file are carried out at once, or later.

ghost use Rattle.std.specs.Prelude.{◌≡◌, ◌++◌, OnOk, string_bytes, option_map, unwrap_or};
ghost use Rattle.serde_json.specs.Data.{null};
ghost use Rattle.serde_json.specs.View.{view, items_view};
ghost use Rattle.osb_catalog.specs.Items.{all_of_each};
ghost use Rattle.osb_catalog.specs.Modes as modes;
ghost use Rattle.osb_advice.specs.Timings as spec;

use crate::pieces::{push_all, shown};
use osb_catalog::{Field, Timing, mode_of_plan, plans_of, services_of, text_at, timing_at};
use serde_json::Value;
use std::alloc::AllocError;

/// Appends a line for each plan of the file.
pub(crate) fn push_timings(text: &mut String, file: &Value) -> Result<(), AllocError>
    ensures { OnOk result (string_bytes text.new
        ≡ string_bytes text.old ++ spec.timings (view file.now)) }
{
    push_services(text, file, services_of(file))
}

fn push_services(text: &mut String, file: &Value, services: &[Value]) -> Result<(), AllocError>
    ensures { OnOk result (string_bytes text.new ≡ string_bytes text.old
        ++ all_of_each (spec.service_timings (view file.now)) (items_view services.now)) }
{
    for service in services {
        push_plans(text, file, plans_of(service))?;
    }
    Ok(())
}

fn push_plans(text: &mut String, file: &Value, plans: &[Value]) -> Result<(), AllocError>
    ensures { OnOk result (string_bytes text.new ≡ string_bytes text.old
        ++ all_of_each (spec.plan_timing (view file.now)) (items_view plans.now)) }
{
    for plan in plans {
        push_plan(text, file, plan)?;
    }
    Ok(())
}

#[tactic(auto, unfolding(crate::specs::Timings::plan_timing))]
fn push_plan(text: &mut String, file: &Value, plan: &Value) -> Result<(), AllocError>
    ensures { OnOk result (string_bytes text.new ≡ string_bytes text.old
        ++ spec.plan_timing (view file.now) (view plan.now)) }
{
    let id = text_at(plan, Field::Id);
    push_timing(text, id, mode_of_plan(file, id))
}

fn push_timing(text: &mut String, id: &str, mode: Option<&Value>) -> Result<(), AllocError>
    ensures { OnOk result (string_bytes text.new ≡ string_bytes text.old
        ++ spec.timing_line id.now (unwrap_or (option_map (λ v. view v.now) mode.entry) null)) }
{
    let instances = timing_name(timing_of(mode, Field::Instances));
    let bindings = timing_name(timing_of(mode, Field::Bindings));
    push_all(
        text,
        &[
            "plan ",
            shown(id),
            ": instances ",
            instances,
            ", bindings ",
            bindings,
            "\n",
        ],
    )
}

/// A plan without a mode is synchronous.
fn timing_of(mode: Option<&Value>, field: Field) -> Timing
    ensures { result
        ≡ modes.timing_at field (unwrap_or (option_map (λ v. view v.now) mode.entry) null) }
{
    match mode {
        Some(mode) => timing_at(mode, field),
        None => Timing::Synchronous,
    }
}

fn timing_name<'p>(timing: Timing) -> &'p str
    ensures { result.now ≡ spec.timing_name timing }
{
    match timing {
        Timing::Synchronous => "synchronous",
        Timing::Asynchronous => "asynchronous",
    }
}
