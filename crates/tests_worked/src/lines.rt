//! What is stored, in lines: parts with spaces between them, and `-` for an empty one.

use osb_orders::{Attributes, BindingNow, Order, Standing, View};
use osb_records::{Records, memory};
use sqlite::MemStore;
use std::alloc::{AllocError, Global};
use std::test::Fail;

/// Appends a part, and a space before it where it isn't the first. Where memory is refused nothing is
/// left, so that the test fails.
fn add(line: &mut String, part: &str) {
    let part = if part.is_empty() { "-" } else { part };
    let spaced = line.is_empty() || line.push(' ').is_ok();
    if !spaced || line.push_str(part).is_err() {
        line.clear();
    }
}

/// Appends service, plan, organization and space (of a binding its app and its resource), parameters,
/// maintenance version and context.
fn add_attributes(line: &mut String, attributes: &Attributes) {
    add(line, attributes.service.as_str());
    add(line, attributes.plan.as_str());
    add(line, attributes.place.as_str());
    add(line, attributes.spot.as_str());
    add(line, attributes.parameters.as_str());
    add(line, attributes.maintenance.as_str());
    add(line, attributes.context.as_str());
}

/// An order: its name, its state, its attributes, its binding, and the description and the credentials
/// that it ended with.
fn order_line(alloc: Global, order: &Order) -> Result<String, AllocError> {
    let mut line = format!(in alloc; "{}-{}", order.kind.as_str(), order.number)?;
    add(&mut line, order.outcome.state.as_str());
    add_attributes(&mut line, &order.attributes);
    add(&mut line, order.binding.as_str());
    add(&mut line, order.outcome.description.as_str());
    add(&mut line, order.outcome.credentials.as_str());
    Ok(line)
}

/// An instance: its phase and its attributes.
fn instance_line(alloc: Global, instance: &Standing) -> Result<String, AllocError> {
    let mut line = format!(in alloc; "{:?}", instance.phase)?;
    add_attributes(&mut line, &instance.attributes);
    Ok(line)
}

/// A binding: its phase, its attributes and its credentials.
fn binding_line(alloc: Global, binding: &BindingNow) -> Result<String, AllocError> {
    let mut line = format!(in alloc; "{:?}", binding.phase)?;
    add_attributes(&mut line, &binding.attributes);
    add(&mut line, binding.credentials.as_str());
    Ok(line)
}

/// The state by a view: the instance, and behind a semicolon the binding, where there is one.
pub(crate) fn standing_line(alloc: Global, view: &View) -> Result<String, AllocError> {
    let Some(instance) = &view.standing else {
        return String::from_str(alloc, "Absent");
    };
    let line = instance_line(alloc, instance)?;
    match &view.binding {
        Some(binding) => {
            let bound = binding_line(alloc, binding)?;
            format!(in alloc; "{line}; {bound}")
        }
        None => Ok(line),
    }
}

/// Lines of orders, a line break before each.
fn lines_of(alloc: Global, orders: &[Order]) -> Result<String, AllocError> {
    let mut lines = String::new(alloc);
    for order in orders {
        let line = order_line(alloc, order)?;
        lines.push('\n')?;
        lines.push_str(line.as_str())?;
    }
    Ok(lines)
}

/// The life of an instance, a line break before each of its orders.
pub(crate) fn life_lines(
    alloc: Global,
    records: &mut Records<MemStore>,
    instance: &str,
) -> Result<String, Fail> {
    let life = memory::life(records, alloc, instance)?;
    Ok(lines_of(alloc, life.as_slice())?)
}
