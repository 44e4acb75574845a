//! Whether the catalog has the service and the plan that an ask names.

ghost use Rattle.std.specs.Prelude.{◌≡◌};
ghost use Rattle.osb_catalog.specs.Rules.{rules_of};
ghost use Rattle.osb_asks.specs.Offers as spec;

use crate::id::Id;
use osb_catalog::Settings;

/// Whether the catalog has the service, and the plan of it.
pub(crate) fn has_plan(settings: &Settings, service: &Id, plan: &Id) -> bool
    ensures { result ≡ spec.has_plan (rules_of settings.now) service.now plan.now }
{
    settings.service(service.as_str()) && settings.plan(service.as_str(), plan.as_str()).is_some()
}

/// Whether the catalog has the service and, where one is given, the plan of it.
pub(crate) fn has_given_plan(settings: &Settings, service: &Id, plan: &Option<Id>) -> bool
    ensures { result ≡ spec.has_given_plan (rules_of settings.now) service.now plan.now }
{
    match plan {
        Some(plan) => has_plan(settings, service, plan),
        None => settings.service(service.as_str()),
    }
}
