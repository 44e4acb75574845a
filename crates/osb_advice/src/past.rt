//! The members of a settings file that the broker reads past: their names aren't listed.

ghost use Rattle.std.specs.Prelude.{◌≡◌, ◌++◌, OnOk, string_bytes};
ghost use Rattle.serde_json.specs.View.{view, items_view, members_view};
ghost use Rattle.osb_catalog.specs.Fields as fields;
ghost use Rattle.osb_advice.specs.declared.object_kind.ObjectKind.TheVariants as an;
ghost use Rattle.osb_advice.specs.Past as spec;

use crate::object_kind::ObjectKind;
use crate::pieces::{push_all, shown};
use osb_catalog::{Field, modes_of, plans_of, services_of, value_at};
use serde_json::{Map, Value};
use std::alloc::{AllocError, Global};

/// Appends a line for each member of the file that is read past.
pub(crate) fn push_past(alloc: Global, text: &mut String, file: &Value) -> Result<(), AllocError>
    ensures { OnOk result (string_bytes text.new
        ≡ string_bytes text.old ++ spec.past (view file.now)) }
{
    push_object(text, ObjectKind::File, "", file)?;
    push_logins(text, file)?;
    push_at(text, ObjectKind::Catalog, "catalog.", file, Field::Catalog)?;
    push_services(alloc, text, services_of(file))?;
    push_modes(alloc, text, file)
}

/// Those of platform and backend.
fn push_logins(text: &mut String, file: &Value) -> Result<(), AllocError>
    ensures { OnOk result (string_bytes text.new
        ≡ string_bytes text.old ++ spec.past_in_logins (view file.now)) }
{
    if let Some(login) = value_at(file, Field::Platform) {
        push_login(text, "platform.", "platform.also.", login)?;
    }
    if let Some(login) = value_at(file, Field::Backend) {
        push_login(text, "backend.", "backend.also.", login)?;
    }
    Ok(())
}

/// Those of the login, and those of its `also`.
fn push_login(text: &mut String, path: &str, also: &str, login: &Value) -> Result<(), AllocError>
    ensures { OnOk result (string_bytes text.new
        ≡ string_bytes text.old ++ spec.past_in_login path.now also.now (view login.now)) }
{
    push_object(text, ObjectKind::Login, path, login)?;
    push_at(text, ObjectKind::SecondLogin, also, login, Field::Also)
}

fn push_services(alloc: Global, text: &mut String, services: &[Value]) -> Result<(), AllocError>
    ensures { OnOk result (string_bytes text.new
        ≡ string_bytes text.old ++ spec.lines_of spec.past_in_service 0 (items_view services.now)) }
{
    for (at, service) in services.iter().enumerate() {
        push_service(alloc, text, at, service)?;
    }
    Ok(())
}

/// Those of the service, and those of its plans.
fn push_service(
    alloc: Global,
    text: &mut String,
    at: usize,
    service: &Value,
) -> Result<(), AllocError>
    ensures { OnOk result (string_bytes text.new
        ≡ string_bytes text.old ++ spec.past_in_service at (view service.now)) }
{
    push_service_members(alloc, text, at, service)?;
    push_plans(alloc, text, at, plans_of(service))
}

fn push_service_members(
    alloc: Global,
    text: &mut String,
    at: usize,
    service: &Value,
) -> Result<(), AllocError>
    ensures { OnOk result (string_bytes text.new ≡ string_bytes text.old
        ++ spec.past_in an.Service (spec.service_path at) (view service.now)) }
{
    let path = format!(in alloc; "catalog.services[{at}].")?;
    push_object(text, ObjectKind::Service, path.as_str(), service)
}

/// Those of the plans of the service with that number.
fn push_plans(
    alloc: Global,
    text: &mut String,
    number: usize,
    plans: &[Value],
) -> Result<(), AllocError>
    ensures { OnOk result (string_bytes text.new ≡ string_bytes text.old
        ++ spec.lines_of (spec.past_in_plan number) 0 (items_view plans.now)) }
{
    for (at, plan) in plans.iter().enumerate() {
        push_plan(alloc, text, number, at, plan)?;
    }
    Ok(())
}

/// Those of the plan, and those of its `maintenance_info`.
fn push_plan(
    alloc: Global,
    text: &mut String,
    number: usize,
    at: usize,
    plan: &Value,
) -> Result<(), AllocError>
    ensures { OnOk result (string_bytes text.new
        ≡ string_bytes text.old ++ spec.past_in_plan number at (view plan.now)) }
{
    let path = format!(in alloc; "catalog.services[{number}].plans[{at}].")?;
    push_plan_at(alloc, text, path.as_str(), plan)
}

fn push_plan_at(
    alloc: Global,
    text: &mut String,
    path: &str,
    plan: &Value,
) -> Result<(), AllocError>
    ensures { OnOk result (string_bytes text.new
        ≡ string_bytes text.old ++ spec.past_in_plan_at path.now (view plan.now)) }
{
    push_object(text, ObjectKind::Plan, path, plan)?;
    push_info(alloc, text, path, plan)
}

fn push_info(alloc: Global, text: &mut String, path: &str, plan: &Value) -> Result<(), AllocError>
    ensures { OnOk result (string_bytes text.new ≡ string_bytes text.old
        ++ spec.past_in_info path.now (view plan.now)) }
{
    let path = format!(in alloc; "{path}maintenance_info.")?;
    push_at(
        text,
        ObjectKind::MaintenanceInfo,
        path.as_str(),
        plan,
        Field::MaintenanceInfo,
    )
}

fn push_modes(alloc: Global, text: &mut String, file: &Value) -> Result<(), AllocError>
    ensures { OnOk result (string_bytes text.new
        ≡ string_bytes text.old ++ spec.past_in_modes (fields.modes_of (view file.now))) }
{
    match modes_of(file) {
        Some(modes) => push_each_mode(alloc, text, modes),
        None => Ok(()),
    }
}

fn push_each_mode(
    alloc: Global,
    text: &mut String,
    modes: &Map<String, Value>,
) -> Result<(), AllocError>
    ensures { OnOk result (string_bytes text.new
        ≡ string_bytes text.old ++ spec.past_in_modes (members_view modes.now.entries)) }
{
    for (name, mode) in modes.iter() {
        push_mode(alloc, text, name.as_str(), mode)?;
    }
    Ok(())
}

fn push_mode(alloc: Global, text: &mut String, name: &str, mode: &Value) -> Result<(), AllocError>
    ensures { OnOk result (string_bytes text.new
        ≡ string_bytes text.old ++ spec.past_in_mode name.now (view mode.now)) }
{
    let name = shown(name);
    let path = format!(in alloc; "modes.{name}.")?;
    push_object(text, ObjectKind::Mode, path.as_str(), mode)
}

/// Those of the object that another one has under the field.
fn push_at(
    text: &mut String,
    kind: ObjectKind,
    path: &str,
    object: &Value,
    field: Field,
) -> Result<(), AllocError>
    ensures { OnOk result (string_bytes text.new
        ≡ string_bytes text.old ++ spec.past_at kind path.now field (view object.now)) }
{
    match value_at(object, field) {
        Some(found) => push_object(text, kind, path, found),
        None => Ok(()),
    }
}

fn push_object(
    text: &mut String,
    kind: ObjectKind,
    path: &str,
    object: &Value,
) -> Result<(), AllocError>
    ensures { OnOk result (string_bytes text.new
        ≡ string_bytes text.old ++ spec.past_in kind path.now (view object.now)) }
{
    match object.as_object() {
        Some(members) => push_members(text, kind, path, members),
        None => Ok(()),
    }
}

fn push_members(
    text: &mut String,
    kind: ObjectKind,
    path: &str,
    members: &Map<String, Value>,
) -> Result<(), AllocError>
    ensures { OnOk result (string_bytes text.new ≡ string_bytes text.old
        ++ spec.past_members kind path.now (members_view members.now.entries)) }
{
    for (name, _) in members.iter() {
        push_member(text, kind, path, name.as_str())?;
    }
    Ok(())
}

/// Appends a line where the object doesn't list the name.
#[tactic(auto, unfolding(crate::specs::Past::past_line))]
fn push_member(
    text: &mut String,
    kind: ObjectKind,
    path: &str,
    name: &str,
) -> Result<(), AllocError>
    ensures { OnOk result (string_bytes text.new
        ≡ string_bytes text.old ++ spec.past_line kind path.now name.now) }
{
    if kind.lists(name) {
        return Ok(());
    }
    push_all(text, &["read past: ", path, shown(name), "\n"])
}
