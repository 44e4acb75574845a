//! Plans of one name in one service.

ghost use Rattle.std.specs.Prelude.{◌≡◌, ◌++◌, [], OnOk, string_bytes, if◌then◌else◌};
ghost use Rattle.serde_json.specs.View.{view, items_view};
ghost use Rattle.osb_catalog.specs.declared.field.Field.TheVariants as the;
ghost use Rattle.osb_catalog.specs.Fields as fields;
ghost use Rattle.osb_catalog.specs.Items.{each};
ghost use Rattle.osb_advice.specs.Names as spec;
ghost use Rattle.osb_advice.specs.Past.{lines_of};

use crate::pieces::push_all;
use itoa::Buffer;
use osb_catalog::{Field, plans_of, services_of, text_at};
use serde_json::Value;
use std::alloc::{AllocError, Global};
use std::collections::BTreeSet;

/// Appends a line for each plan whose service has an earlier plan of its name.
pub(crate) fn push_same_names(
    alloc: Global,
    text: &mut String,
    file: &Value,
) -> Result<(), AllocError>
    ensures { OnOk result (string_bytes text.new
        ≡ string_bytes text.old ++ spec.same_names (view file.now)) }
{
    push_services(alloc, text, services_of(file))
}

fn push_services(alloc: Global, text: &mut String, services: &[Value]) -> Result<(), AllocError>
    ensures { OnOk result (string_bytes text.new
        ≡ string_bytes text.old ++ lines_of spec.service_names 0 (items_view services.now)) }
{
    for (number, service) in services.iter().enumerate() {
        push_plans(alloc, text, number, plans_of(service))?;
    }
    Ok(())
}

/// Of the plans of the service with that number.
fn push_plans(
    alloc: Global,
    text: &mut String,
    number: usize,
    plans: &[Value],
) -> Result<(), AllocError>
    ensures { OnOk result (string_bytes text.new ≡ string_bytes text.old
        ++ spec.name_lines number [] 0 (each (fields.text_at the.Name) (items_view plans.now))) }
{
    let mut seen = BTreeSet::new(alloc);
    for (at, plan) in plans.iter().enumerate() {
        let is_new = seen.insert(text_at(plan, Field::Name))?;
        push_unless_new(text, is_new, number, at)?;
    }
    Ok(())
}

fn push_unless_new(
    text: &mut String,
    is_new: bool,
    number: usize,
    at: usize,
) -> Result<(), AllocError>
    ensures { OnOk result (string_bytes text.new
        ≡ string_bytes text.old ++ (if is_new then [] else spec.name_line number at)) }
{
    if is_new {
        return Ok(());
    }
    push_line(text, number, at)
}

fn push_line(text: &mut String, number: usize, at: usize) -> Result<(), AllocError>
    ensures { OnOk result (string_bytes text.new
        ≡ string_bytes text.old ++ spec.name_line number at) }
{
    let (mut digits, mut more) = (Buffer::new(), Buffer::new());
    push_all(
        text,
        &[
            "two plans of one name: catalog.services[",
            digits.format(number),
            "].plans[",
            more.format(at),
            "]\n",
        ],
    )
}
