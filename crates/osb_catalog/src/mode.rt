//! The modes of a file, and which of them are refused.

ghost use Rattle.std.specs.Prelude.{◌≡◌, IfOk, IfSome, option_map, unwrap_or, true};
ghost use Rattle.serde_json.specs.Data.{null};
ghost use Rattle.serde_json.specs.View.{view, items_view, members_view};
ghost use Rattle.osb_text.specs.Whole.{is_whole};
ghost use Rattle.osb_catalog.specs.Fields.{mode_of_plan};
ghost use Rattle.osb_catalog.specs.Items.{any_item, any_member};
ghost use Rattle.osb_catalog.specs.Modes.{timing_at, is_asynchronous, names_no_plan, binds_later, has_lost_bindings, refuses_modes};

use crate::field::Field;
use crate::ids::{id_set, plan_ids};
use crate::member::{flag_at, modes_of, plans_of, services_of, text_at, value_at};
use crate::plan::Timing;
use osb_text::member;
use serde_json::{Map, Value};
use std::alloc::{AllocError, Global};

/// Whether a mode names no plan, or a plan has asynchronous bindings that can't be fetched.
pub(crate) fn refuses_modes(alloc: Global, file: &Value) -> Result<bool, AllocError>
    ensures { IfOk result (λ b. b ≡ refuses_modes (view file.now)) }
{
    if let Some(modes) = modes_of(file) {
        if some_names_no_plan(alloc, modes, services_of(file))? {
            return Ok(true);
        }
    }
    Ok(some_has_lost_bindings(file, services_of(file)))
}

fn some_names_no_plan(
    alloc: Global,
    modes: &Map<String, Value>,
    services: &[Value],
) -> Result<bool, AllocError>
    ensures { IfOk result (λ b. b ≡ any_member (names_no_plan (items_view services.now)) (members_view modes.now.entries)) }
{
    let plan_ids = plan_ids(alloc, services)?;
    let known = id_set(alloc, plan_ids.as_slice())?;
    for (id, mode) in modes.iter() {
        if !mode.is_null() && !known.contains(id.as_str()) {
            return Ok(true);
        }
    }
    Ok(false)
}

fn some_has_lost_bindings(file: &Value, services: &[Value]) -> bool
    ensures { result ≡ any_item (has_lost_bindings (view file.now)) (items_view services.now) }
{
    for service in services {
        if has_lost_bindings(file, service) {
            return true;
        }
    }
    false
}

fn has_lost_bindings(file: &Value, service: &Value) -> bool
    ensures { result ≡ has_lost_bindings (view file.now) (view service.now) }
{
    !flag_at(service, Field::BindingsRetrievable) && some_binds_later(file, plans_of(service))
}

fn some_binds_later(file: &Value, plans: &[Value]) -> bool
    ensures { result ≡ any_item (binds_later (view file.now)) (items_view plans.now) }
{
    for plan in plans {
        if binds_later(file, plan) {
            return true;
        }
    }
    false
}

pub(crate) fn binds_later(file: &Value, plan: &Value) -> bool
    ensures { result ≡ binds_later (view file.now) (view plan.now) }
{
    match mode_of_plan(file, text_at(plan, Field::Id)) {
        Some(mode) => timing_at(mode, Field::Bindings).is_asynchronous(),
        None => false,
    }
}

/// The mode that the file has for the plan with that id.
pub fn mode_of_plan<'a>(file: &'a Value, id: &str) -> Option<&'a Value>
    ensures whole { is_whole (view file.now) ≡ true → IfSome result (λ v. is_whole (view v.now) ≡ true) }
    ensures found { unwrap_or (option_map (λ v. view v.now) result) null ≡ mode_of_plan (view file.now) id.now }
{
    match value_at(file, Field::Modes) {
        Some(modes) => member(modes, id),
        None => None,
    }
}

/// When the orders of the mode are carried out, by its `instances` or `bindings`: synchronous where it doesn't
/// say.
pub fn timing_at(mode: &Value, field: Field) -> Timing
    ensures { result ≡ timing_at field (view mode.now) }
{
    if text_at(mode, field) == "asynchronous" {
        Timing::Asynchronous
    } else {
        Timing::Synchronous
    }
}
