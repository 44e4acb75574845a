//! Takes services, plans, modes and the limit of orders from a file without faults.

ghost use Rattle.std.specs.Prelude.{◌≡◌, ◌++◌, IfOk, OnOk, true};
ghost use Rattle.serde_json.specs.View.{view, items_view};
ghost use Rattle.osb_text.specs.Whole.{is_whole};
ghost use Rattle.osb_catalog.specs.Items.{each, all_of_each};
ghost use Rattle.osb_catalog.specs.Fields.{mode_of_plan};
ghost use Rattle.osb_catalog.specs.Contents.{service_of, plan_of, plans_of_service, facts_of, flag_over, version_of, mode_from, credentials_of, order_limit_of};

use crate::field::Field;
use crate::member::{flag_at, plans_of, text_at, value_at};
use crate::mode::{mode_of_plan, timing_at};
use crate::plan::{Mode, Plan, PlanFacts, Service};
use crate::shown::compact;
use osb_text::Text;
use serde_json::Value;
use std::alloc::{AllocError, Global};

/// The services of a catalog.
pub(crate) fn read_services(alloc: Global, services: &[Value]) -> Result<Vec<Service>, AllocError>
    ensures { IfOk result (λ all. all.items ≡ each service_of (items_view services.now)) }
{
    let mut all = Vec::new(alloc);
    for service in services {
        all.push(read_service(alloc, service)?)?;
    }
    Ok(all)
}

fn read_service(alloc: Global, service: &Value) -> Result<Service, AllocError>
    ensures { IfOk result (λ s. s ≡ service_of (view service.now)) }
{
    Ok(Service {
        id: Text::from_str(alloc, text_at(service, Field::Id))?,
        context_updates: flag_at(service, Field::AllowContextUpdates),
    })
}

/// The plans of all services, with their modes.
pub(crate) fn read_plans(
    alloc: Global,
    file: &Value,
    services: &[Value],
) -> Result<Vec<Plan>, AllocError>
    requires { is_whole (view file.now) ≡ true }
    ensures { IfOk result (λ all. all.items ≡ all_of_each (plans_of_service (view file.now)) (items_view services.now)) }
{
    let mut all = Vec::new(alloc);
    for service in services {
        push_plans(alloc, &mut all, file, service, plans_of(service))?;
    }
    Ok(all)
}

fn push_plans(
    alloc: Global,
    all: &mut Vec<Plan>,
    file: &Value,
    service: &Value,
    plans: &[Value],
) -> Result<(), AllocError>
    requires { is_whole (view file.now) ≡ true }
    ensures { OnOk result (all.new.items ≡ all.old.items ++ each (plan_of (view file.now) (view service.now)) (items_view plans.now)) }
{
    for plan in plans {
        all.push(read_plan(alloc, file, service, plan)?)?;
    }
    Ok(())
}

fn read_plan(alloc: Global, file: &Value, service: &Value, plan: &Value) -> Result<Plan, AllocError>
    requires { is_whole (view file.now) ≡ true }
    ensures { IfOk result (λ p. p ≡ plan_of (view file.now) (view service.now) (view plan.now)) }
{
    let id = text_at(plan, Field::Id);
    let (service_id, plan_id) = copied(alloc, text_at(service, Field::Id), id)?;
    Ok(Plan {
        service: service_id,
        id: plan_id,
        facts: read_facts(alloc, service, plan)?,
        mode: read_mode(alloc, file, id)?,
        bindings_retrievable: flag_at(service, Field::BindingsRetrievable),
    })
}

fn copied(alloc: Global, first: &str, second: &str) -> Result<(Text, Text), AllocError>
    ensures first { IfOk result (λ texts. texts.0 ≡ first.now) }
    ensures second { IfOk result (λ texts. texts.1 ≡ second.now) }
{
    Ok((
        Text::from_str(alloc, first)?,
        Text::from_str(alloc, second)?,
    ))
}

fn read_facts(alloc: Global, service: &Value, plan: &Value) -> Result<PlanFacts, AllocError>
    ensures { IfOk result (λ f. f ≡ facts_of (view service.now) (view plan.now)) }
{
    Ok(PlanFacts {
        bindable: flag_over(plan, service, Field::Bindable),
        plan_updateable: flag_over(plan, service, Field::PlanUpdateable),
        version: Text::from_str(alloc, version_of(plan))?,
    })
}

/// The plan's flag where it has one, otherwise the service's.
fn flag_over(plan: &Value, service: &Value, field: Field) -> bool
    ensures { result ≡ flag_over field (view plan.now) (view service.now) }
{
    match value_at(plan, field) {
        Some(found) => found.as_bool().unwrap_or(false),
        None => flag_at(service, field),
    }
}

fn version_of(plan: &Value) -> &str
    ensures { result.now ≡ version_of (view plan.now) }
{
    match value_at(plan, Field::MaintenanceInfo) {
        Some(info) => text_at(info, Field::Version),
        None => "",
    }
}

/// The mode of the plan with that id, with the defaults where the file has none.
fn read_mode(alloc: Global, file: &Value, id: &str) -> Result<Mode, AllocError>
    requires { is_whole (view file.now) ≡ true }
    ensures { IfOk result (λ m. m ≡ mode_from (mode_of_plan (view file.now) id.now)) }
{
    match mode_of_plan(file, id) {
        Some(mode) => read_mode_from(alloc, mode),
        None => read_mode_from(alloc, &Value::Null),
    }
}

fn read_mode_from(alloc: Global, mode: &Value) -> Result<Mode, AllocError>
    requires { is_whole (view mode.now) ≡ true }
    ensures { IfOk result (λ m. m ≡ mode_from (view mode.now)) }
{
    Ok(Mode {
        instances: timing_at(mode, Field::Instances),
        bindings: timing_at(mode, Field::Bindings),
        credentials: read_credentials(alloc, mode)?,
    })
}

fn read_credentials(alloc: Global, mode: &Value) -> Result<Text, AllocError>
    requires { is_whole (view mode.now) ≡ true }
    ensures { IfOk result (λ t. t ≡ credentials_of (view mode.now)) }
{
    match value_at(mode, Field::Credentials) {
        Some(credentials) => compact(alloc, credentials),
        None => Text::from_str(alloc, "{}"),
    }
}

/// How many orders an instance may have: 1,000,000 where the file doesn't say.
pub(crate) fn read_order_limit(file: &Value) -> u32
    ensures { result ≡ order_limit_of (view file.now) }
{
    match value_at(file, Field::OrdersPerInstance) {
        Some(found) => match found.as_u64() {
            Some(n) => if n <= 1_000_000 { n as u32 } else { 1_000_000 },
            None => 1_000_000,
        },
        None => 1_000_000,
    }
}
