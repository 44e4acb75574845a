//! What answers take from the catalog and the modes, and what they take for a plan that isn't there.

ghost use Rattle.std.specs.Prelude.{◌≡◌};
ghost use Rattle.osb_catalog.specs.Rules.{rules_of};
ghost use Rattle.osb_machine.specs.Plans.{catalog_version, is_bindable, is_plan_updateable, instances_are_asynchronous, bindings_are_asynchronous, plan_credentials};

use osb_catalog::Settings;

/// The plan's maintenance version, empty where it has none.
pub(crate) fn catalog_version<'a>(settings: &'a Settings, service: &str, plan: &str) -> &'a str
    ensures { result.now ≡ catalog_version (rules_of settings.now) service.now plan.now }
{
    match settings.plan(service, plan) {
        Some(facts) => facts.version.as_str(),
        None => "",
    }
}

/// Whether instances of the plan may be bound.
pub(crate) fn is_bindable(settings: &Settings, service: &str, plan: &str) -> bool
    ensures { result ≡ is_bindable (rules_of settings.now) service.now plan.now }
{
    match settings.plan(service, plan) {
        Some(facts) => facts.bindable,
        None => false,
    }
}

/// Whether instances of the plan may change to another.
pub(crate) fn is_plan_updateable(settings: &Settings, service: &str, plan: &str) -> bool
    ensures { result ≡ is_plan_updateable (rules_of settings.now) service.now plan.now }
{
    match settings.plan(service, plan) {
        Some(facts) => facts.plan_updateable,
        None => false,
    }
}

/// Whether creations, updates and deletions run until they are reported.
pub(crate) fn instances_are_asynchronous(settings: &Settings, plan: &str) -> bool
    ensures { result ≡ instances_are_asynchronous (rules_of settings.now) plan.now }
{
    match settings.mode(plan) {
        Some(mode) => mode.instances.is_asynchronous(),
        None => false,
    }
}

/// Whether bindings and unbindings run until they are reported.
pub(crate) fn bindings_are_asynchronous(settings: &Settings, plan: &str) -> bool
    ensures { result ≡ bindings_are_asynchronous (rules_of settings.now) plan.now }
{
    match settings.mode(plan) {
        Some(mode) => mode.bindings.is_asynchronous(),
        None => false,
    }
}

/// What a synchronous binding of the plan hands out.
pub(crate) fn plan_credentials<'a>(settings: &'a Settings, plan: &str) -> &'a str
    ensures { result.now ≡ plan_credentials (rules_of settings.now) plan.now }
{
    match settings.mode(plan) {
        Some(mode) => mode.credentials.as_str(),
        None => "{}",
    }
}
