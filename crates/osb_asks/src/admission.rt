//! Who is let in, and by which route. Nothing here takes memory.

ghost use Rattle.std.specs.Prelude.{◌≡◌, option_map};
ghost use Rattle.osb_frames.specs.Steps.{message};
ghost use Rattle.osb_catalog.specs.Rules.{rules_of};
ghost use Rattle.osb_asks.specs.Admission as spec;
ghost use Rattle.osb_asks.specs.Seen.{Admits, seen_path, seen_route};

use crate::ask_fault::AskFault;
use crate::credentials::is_some_login;
use crate::door::{Door, DoorAndPath, entry_of};
use crate::resource::resource_at;
use crate::route::{Route, method_of, route_at};
use crate::version::is_api_version;
use osb_catalog::Settings;
use osb_frames::Request;

/// Whether the request has a login of the door.
fn is_let_in(request: &Request<'_>, door: Door, settings: &Settings) -> bool
    ensures { result ≡ spec.is_let_in (rules_of settings.now) door (message request.now).lines }
{
    let tokens = match door {
        Door::Platform => settings.platform_tokens(),
        Door::Backend => settings.backend_tokens(),
    };
    request
        .field(b"authorization")
        .is_some_and(|value| is_some_login(tokens, value))
}

/// Whether the request names a version that is spoken, where the door asks for one.
fn has_version(request: &Request<'_>, door: Door) -> bool
    ensures { result ≡ spec.has_version door (message request.now).lines }
{
    match door {
        Door::Platform => request
            .field(b"x-broker-api-version")
            .is_some_and(|value| is_api_version(value)),
        Door::Backend => true,
    }
}

/// The route of that method and what it leads to behind the door.
fn route_of<'a>(name: &[u8], entry: DoorAndPath<'a>) -> Option<Route<'a>>
    ensures { option_map seen_route result ≡ spec.route_of name.now (seen_path entry.entry) }
{
    let method = method_of(name)?;
    let place = resource_at(entry.door, entry.segments)?;
    route_at(method, place)
}

/// The route that the request takes, or the first fault that keeps it out.
pub(crate) fn admit<'a>(request: &Request<'a>, settings: &Settings) -> Result<Route<'a>, AskFault>
    ensures { Admits seen_route result (spec.admit_of (rules_of settings.now) (message request.now)) }
{
    let Some(entry) = entry_of(request.target) else {
        return Err(AskFault::NoDoor);
    };
    if !is_let_in(request, entry.door, settings) {
        return Err(AskFault::Auth);
    }
    if !has_version(request, entry.door) {
        return Err(AskFault::Version);
    }
    match route_of(request.method, entry) {
        Some(route) => Ok(route),
        None => Err(AskFault::NoRoute),
    }
}
