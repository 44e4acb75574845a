//! Whether the maintenance versions of all plans are versions.

ghost use Rattle.std.specs.Prelude.{◌≡◌, IfOk};
ghost use Rattle.serde_json.specs.View.{view, items_view};
ghost use Rattle.osb_catalog.specs.Items.{any_item};
ghost use Rattle.osb_catalog.specs.Versions.{is_version, has_wrong_version, has_plan_of_wrong_version, refuses_versions};

use crate::field::Field;
use crate::member::{plans_of, services_of, text_at, value_at};
use semver::{Error, Version};
use serde_json::Value;
use std::alloc::{AllocError, Global};

/// Whether some plan has a maintenance version that is no version.
pub(crate) fn refuses_versions(alloc: Global, file: &Value) -> Result<bool, AllocError>
    ensures { IfOk result (λ b. b ≡ refuses_versions (view file.now)) }
{
    some_service_has_wrong_version(alloc, services_of(file))
}

fn some_service_has_wrong_version(alloc: Global, services: &[Value]) -> Result<bool, AllocError>
    ensures { IfOk result (λ b. b ≡ any_item has_plan_of_wrong_version (items_view services.now)) }
{
    for service in services {
        if some_has_wrong_version(alloc, plans_of(service))? {
            return Ok(true);
        }
    }
    Ok(false)
}

fn some_has_wrong_version(alloc: Global, plans: &[Value]) -> Result<bool, AllocError>
    ensures { IfOk result (λ b. b ≡ any_item has_wrong_version (items_view plans.now)) }
{
    for plan in plans {
        if has_wrong_version(alloc, plan)? {
            return Ok(true);
        }
    }
    Ok(false)
}

pub(crate) fn has_wrong_version(alloc: Global, plan: &Value) -> Result<bool, AllocError>
    ensures { IfOk result (λ b. b ≡ has_wrong_version (view plan.now)) }
{
    match value_at(plan, Field::MaintenanceInfo) {
        Some(info) => Ok(!is_version(alloc, text_at(info, Field::Version))?),
        None => Ok(false),
    }
}

fn is_version(alloc: Global, text: &str) -> Result<bool, AllocError>
    ensures { IfOk result (λ b. b ≡ is_version text.now) }
{
    match Version::parse(alloc, text) {
        Ok(_) => Ok(true),
        Err(fault) if fault == Error::from(AllocError) => Err(AllocError),
        Err(_) => Ok(false),
    }
}
