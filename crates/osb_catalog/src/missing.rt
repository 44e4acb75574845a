//! The first field that a file lacks, and the first that announces what the broker leaves out.

ghost use Rattle.std.specs.Prelude.{◌≡◌};
ghost use Rattle.serde_json.specs.View.{view, items_view, members_view};
ghost use Rattle.osb_catalog.specs.Items.{first_in, first_of_members};
ghost use Rattle.osb_catalog.specs.Fields.{modes_of};
ghost use Rattle.osb_catalog.specs.Tables.{first_broken, mode_rules};
ghost use Rattle.osb_catalog.specs.Missing.{first_missing, missing_in_catalog, missing_in_plans, first_left_out, left_out_of_service};

use crate::field::Field;
use crate::member::{modes_of, plans_of, services_of, value_at};
use crate::table::{
    FieldRule, catalog_rules, file_rules, first_broken, mode_rules, plan_left_out_rules,
    plan_rules, service_left_out_rules, service_rules,
};
use serde_json::{Map, Value};

/// The first field that is absent or not of its kind, table by table.
pub(crate) fn first_missing(file: &Value) -> Option<Field>
    ensures { result ≡ first_missing (view file.now) }
{
    if let Some(field) = first_broken(&file_rules(), file) {
        return Some(field);
    }
    if let Some(field) = missing_in_catalog(file) {
        return Some(field);
    }
    if let Some(field) = first_broken_in(&service_rules(), services_of(file)) {
        return Some(field);
    }
    if let Some(field) = missing_in_plans(services_of(file)) {
        return Some(field);
    }
    missing_in_modes(file)
}

fn missing_in_catalog(file: &Value) -> Option<Field>
    ensures { result ≡ missing_in_catalog (view file.now) }
{
    match value_at(file, Field::Catalog) {
        Some(catalog) => first_broken(&catalog_rules(), catalog),
        None => None,
    }
}

fn missing_in_plans(services: &[Value]) -> Option<Field>
    ensures { result ≡ first_in missing_in_plans (items_view services.now) }
{
    for service in services {
        if let Some(field) = first_broken_in(&plan_rules(), plans_of(service)) {
            return Some(field);
        }
    }
    None
}

fn missing_in_modes(file: &Value) -> Option<Field>
    ensures { result ≡ first_of_members (first_broken mode_rules) (modes_of (view file.now)) }
{
    match modes_of(file) {
        Some(modes) => first_broken_of_members(&mode_rules(), modes),
        None => None,
    }
}

/// The first field that is announced and left out, service by service.
pub(crate) fn first_left_out(file: &Value) -> Option<Field>
    ensures { result ≡ first_left_out (view file.now) }
{
    left_out_of_some_service(services_of(file))
}

fn left_out_of_some_service(services: &[Value]) -> Option<Field>
    ensures { result ≡ first_in left_out_of_service (items_view services.now) }
{
    for service in services {
        if let Some(field) = left_out_of_service(service) {
            return Some(field);
        }
    }
    None
}

fn left_out_of_service(service: &Value) -> Option<Field>
    ensures { result ≡ left_out_of_service (view service.now) }
{
    if let Some(field) = first_broken(&service_left_out_rules(), service) {
        return Some(field);
    }
    first_broken_in(&plan_left_out_rules(), plans_of(service))
}

/// The field of the first broken rule, in the first of the items that breaks one.
fn first_broken_in(rules: &[FieldRule], items: &[Value]) -> Option<Field>
    ensures { result ≡ first_in (first_broken rules.now) (items_view items.now) }
{
    for item in items {
        if let Some(field) = first_broken(rules, item) {
            return Some(field);
        }
    }
    None
}

fn first_broken_of_members(rules: &[FieldRule], members: &Map<String, Value>) -> Option<Field>
    ensures { result ≡ first_of_members (first_broken rules.now) (members_view members.now.entries) }
{
    for (_, member) in members.iter() {
        if let Some(field) = first_broken(rules, member) {
            return Some(field);
        }
    }
    None
}
