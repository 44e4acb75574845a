//! When a request asks for what is there already.

ghost use Rattle.std.specs.Prelude.{◌≡◌};
ghost use Rattle.osb_machine.specs.Same.{are_same, is_same_instance, app_guid_of, is_same_binding};

use osb_asks::{Bind, Provision};
use osb_orders::Attributes;

/// Whether all seven attributes are equal.
pub(crate) fn are_same(one: &Attributes, other: &Attributes) -> bool
    ensures { result ≡ are_same one.now other.now }
{
    one.service == other.service
        && one.plan == other.plan
        && one.place == other.place
        && one.spot == other.spot
        && one.parameters == other.parameters
        && one.maintenance == other.maintenance
        && one.context == other.context
}

/// Whether the instance that is asked for is the one that is there.
pub(crate) fn is_same_instance(ask: &Provision, there: &Attributes) -> bool
    ensures { result ≡ is_same_instance ask.now there.now }
{
    ask.service.as_str() == there.service.as_str()
        && ask.plan.as_str() == there.plan.as_str()
        && ask.organization.as_str() == there.place.as_str()
        && ask.space.as_str() == there.spot.as_str()
        && ask.parameters.as_str() == there.parameters.as_str()
}

/// The app that is bound, empty where there is none.
pub(crate) fn app_guid_of(ask: &Bind) -> &str
    ensures { result.now ≡ app_guid_of ask.now }
{
    match &ask.app_guid {
        Some(app_guid) => app_guid.as_str(),
        None => "",
    }
}

/// Whether the binding that is asked for is the one that is there.
pub(crate) fn is_same_binding(ask: &Bind, there: &Attributes) -> bool
    ensures { result ≡ is_same_binding ask.now there.now }
{
    ask.service.as_str() == there.service.as_str()
        && ask.plan.as_str() == there.plan.as_str()
        && app_guid_of(ask) == there.place.as_str()
        && ask.bind_resource.as_str() == there.spot.as_str()
        && ask.parameters.as_str() == there.parameters.as_str()
}
