//! The table of routes, by method and path.

ghost use Rattle.std.specs.Prelude.{◌≡◌, option_map};
ghost use Rattle.osb_asks.specs.Routes as spec;
ghost use Rattle.osb_asks.specs.Seen.{seen_resource, seen_route};

use crate::resource::Resource;

/// A method that some route has.
#[derive(Clone, Copy, Debug, PartialEq, Eq)]
pub(crate) enum Method {
    Get,
    Put,
    Patch,
    Delete,
}

/// What a request asks, with the segments of its ids as they are in the path.
#[derive(Clone, Copy, Debug)]
pub(crate) enum Route<'a> {
    Catalog,
    Provision(&'a [u8]),
    Fetch(&'a [u8]),
    Update(&'a [u8]),
    Deprovision(&'a [u8]),
    InstanceOp(&'a [u8]),
    Bind(&'a [u8], &'a [u8]),
    FetchBinding(&'a [u8], &'a [u8]),
    Unbind(&'a [u8], &'a [u8]),
    BindingOp(&'a [u8], &'a [u8]),
    Orders,
    Report(&'a [u8], &'a [u8]),
}

/// The method of the name.
pub(crate) fn method_of(name: &[u8]) -> Option<Method>
    ensures { result ≡ spec.method_of name.now }
{
    if name == b"GET".as_slice() {
        Some(Method::Get)
    } else if name == b"PUT".as_slice() {
        Some(Method::Put)
    } else if name == b"PATCH".as_slice() {
        Some(Method::Patch)
    } else if name == b"DELETE".as_slice() {
        Some(Method::Delete)
    } else {
        None
    }
}

/// The route of a method and a place.
pub(crate) fn route_at(method: Method, place: Resource<'_>) -> Option<Route<'_>>
    ensures { option_map seen_route result ≡ spec.route_at method (seen_resource place.entry) }
{
    match (method, place) {
        (Method::Get, Resource::Catalog) => Some(Route::Catalog),
        (Method::Put, Resource::Instance(id)) => Some(Route::Provision(id)),
        (Method::Get, Resource::Instance(id)) => Some(Route::Fetch(id)),
        (Method::Patch, Resource::Instance(id)) => Some(Route::Update(id)),
        (Method::Delete, Resource::Instance(id)) => Some(Route::Deprovision(id)),
        (Method::Get, Resource::InstanceOperation(id)) => Some(Route::InstanceOp(id)),
        (Method::Put, Resource::Binding(id, binding)) => Some(Route::Bind(id, binding)),
        (Method::Get, Resource::Binding(id, binding)) => Some(Route::FetchBinding(id, binding)),
        (Method::Delete, Resource::Binding(id, binding)) => Some(Route::Unbind(id, binding)),
        (Method::Get, Resource::BindingOperation(id, binding)) => Some(Route::BindingOp(
            id, binding,
        )),
        (Method::Get, Resource::Orders) => Some(Route::Orders),
        (Method::Put, Resource::Order(id, number)) => Some(Route::Report(id, number)),
        _ => None,
    }
}
