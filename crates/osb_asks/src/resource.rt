//! What the path behind a door names: the catalog, an instance, a binding, an operation or orders.

ghost use Rattle.std.specs.Prelude.{◌≡◌, option_map};
ghost use Rattle.osb_asks.specs.Resources as spec;
ghost use Rattle.osb_asks.specs.Seen.{seen_resource};
ghost use Rattle.osb_asks.specs.SegmentsLeft.{left};

use crate::door::Door;
use crate::target::Segments;

const LAST_OPERATION: &[u8] = b"last_operation";

/// What a path names, with the segments of its ids as they are there.
#[derive(Clone, Copy, Debug)]
pub(crate) enum Resource<'a> {
    Catalog,
    Instance(&'a [u8]),
    InstanceOperation(&'a [u8]),
    Binding(&'a [u8], &'a [u8]),
    BindingOperation(&'a [u8], &'a [u8]),
    Orders,
    Order(&'a [u8], &'a [u8]),
}

/// The place that the segments name behind the door.
pub(crate) fn resource_at<'a>(door: Door, mut segments: Segments<'a>) -> Option<Resource<'a>>
    ensures { option_map seen_resource result ≡ spec.resource_at door (left segments.entry) }
{
    let first = segments.take_next()?;
    let second = segments.take_next();
    match (door, second) {
        (Door::Platform, None) if first == b"catalog".as_slice() => Some(Resource::Catalog),
        (Door::Platform, Some(id)) if first == b"service_instances".as_slice() && !id.is_empty() =>
            { under_instance(id, segments) }
        (Door::Backend, Some(word)) if first == b"v1".as_slice() && word == b"orders".as_slice() =>
            { under_orders(segments) }
        _ => None,
    }
}

/// The place of an instance, or below it.
fn under_instance<'a>(id: &'a [u8], mut segments: Segments<'a>) -> Option<Resource<'a>>
    ensures { option_map seen_resource result ≡ spec.under_instance id.now (left segments.entry) }
{
    match (segments.take_next(), segments.take_next()) {
        (None, _) => Some(Resource::Instance(id)),
        (Some(word), None) if word == LAST_OPERATION => Some(Resource::InstanceOperation(id)),
        (Some(word), Some(binding))
            if word == b"service_bindings".as_slice() && !binding.is_empty() => {
            under_binding(id, binding, segments)
        }
        _ => None,
    }
}

/// The place of a binding, or below it.
fn under_binding<'a>(
    id: &'a [u8],
    binding: &'a [u8],
    mut segments: Segments<'a>,
) -> Option<Resource<'a>>
    ensures { option_map seen_resource result ≡ spec.under_binding id.now binding.now (left segments.entry) }
{
    match (segments.take_next(), segments.take_next()) {
        (None, _) => Some(Resource::Binding(id, binding)),
        (Some(word), None) if word == LAST_OPERATION => Some(Resource::BindingOperation(
            id, binding,
        )),
        _ => None,
    }
}

/// The place of the orders, or of one of them.
fn under_orders<'a>(mut segments: Segments<'a>) -> Option<Resource<'a>>
    ensures { option_map seen_resource result ≡ spec.under_orders (left segments.entry) }
{
    match (
        segments.take_next(),
        segments.take_next(),
        segments.take_next(),
    ) {
        (None, _, _) => Some(Resource::Orders),
        (Some(id), Some(number), None) if !id.is_empty() => Some(Resource::Order(id, number)),
        _ => None,
    }
}
