//! Puts together the view for an ask from the whole life that it names.

ghost use Rattle.std.specs.Prelude.{◌≡◌, ◌≤◌, ◌^◌, [], length, IfOk, OnErr, option_and_then};
ghost use Rattle.osb_orders.specs.Bindings.{binding_of};
ghost use Rattle.osb_orders.specs.Lists.{last_of};
ghost use Rattle.osb_orders.specs.Life.{standing_of};
ghost use Rattle.osb_asks.specs.Subjects.{binding_id_of};
ghost use Rattle.osb_orders.specs.Named.{named_in, subject};
ghost use Rattle.osb_orders.specs.ViewData.{data_in, view_data_of};

use super::bindings::{binding_of, has_bindings};
use super::instances::standing_of;
use super::named::{last_of, named_in, subject};
use crate::order::Order;
use crate::view::{BindingNow, Standing, View};
use osb_asks::Ask;
use osb_text::Text;
use std::alloc::{AllocError, Global};

/// The view of the life for the ask, with this listing.
pub(super) fn shown(
    alloc: Global,
    ask: &Ask,
    life: &[Order],
    listing: Vec<(Text, Order)>,
) -> Result<View, AllocError>
    ensures { IfOk result (λ view. data_in view ≡ record (view_data_of life.now [] ask.now) { listing = listing.items }) }
{
    let view = shown_alone(alloc, ask, life)?;
    Ok(View { listing, ..view })
}

/// The view of the life for the ask, with an empty listing.
fn shown_alone(alloc: Global, ask: &Ask, life: &[Order]) -> Result<View, AllocError>
    ensures { IfOk result (λ view. data_in view ≡ record (view_data_of life.now [] ask.now) { listing = [] }) }
{
    let count = count_of(life)?;
    let (standing, binding) = standings(alloc, ask, life)?;
    let (last, named, subject_last) = orders_shown(alloc, ask, life)?;
    Ok(View {
        standing,
        last,
        binding,
        named,
        subject_last,
        count,
        bound: has_bindings(life),
        listing: Vec::new(alloc),
    })
}

/// The last order, the one that the ask names, and the last of those that its poll is about.
fn orders_shown(
    alloc: Global,
    ask: &Ask,
    life: &[Order],
) -> Result<(Option<Order>, Option<Order>, Option<Order>), AllocError>
    ensures last { IfOk result (λ parts. parts.0 ≡ last_of life.now) }
    ensures named { IfOk result (λ parts. parts.1 ≡ named_in ask.now life.now) }
    ensures polled { IfOk result (λ parts. parts.2 ≡ last_of (subject ask.now life.now)) }
{
    let last = last_of(life)?;
    let (named, polled) = polled(alloc, ask, life)?;
    Ok((last, named, polled))
}

/// The instance, and the binding that the ask names.
fn standings(
    alloc: Global,
    ask: &Ask,
    life: &[Order],
) -> Result<(Option<Standing>, Option<BindingNow>), AllocError>
    ensures standing { IfOk result (λ parts. parts.0 ≡ standing_of life.now) }
    ensures binding { IfOk result (λ parts. parts.1 ≡ option_and_then (λ id. binding_of id life.now) (binding_id_of ask.now)) }
{
    let standing = standing_of(alloc, life)?;
    let binding = named_binding(alloc, ask, life)?;
    Ok((standing, binding))
}

/// The order that the ask names, and the last of those that its poll is about.
fn polled(
    alloc: Global,
    ask: &Ask,
    life: &[Order],
) -> Result<(Option<Order>, Option<Order>), AllocError>
    ensures named { IfOk result (λ parts. parts.0 ≡ named_in ask.now life.now) }
    ensures last { IfOk result (λ parts. parts.1 ≡ last_of (subject ask.now life.now)) }
{
    let named = named_in(alloc, ask, life)?;
    let last = last_polled(alloc, ask, life)?;
    Ok((named, last))
}

/// The last of the orders that the ask's poll is about.
fn last_polled(alloc: Global, ask: &Ask, life: &[Order]) -> Result<Option<Order>, AllocError>
    ensures { IfOk result (λ last. last ≡ last_of (subject ask.now life.now)) }
{
    let orders = subject(alloc, ask, life)?;
    last_of(orders.as_slice())
}

/// How many orders there are. Where that is 2^32 or more, the answer is out of memory.
fn count_of(life: &[Order]) -> Result<u32, AllocError>
    ensures ok { IfOk result (λ count. count ≡ length life.now) }
    ensures sure { OnErr result (2 ^ 32 ≤ length life.now) }
{
    u32::try_from(life.len()).map_err(|_| AllocError)
}

fn named_binding(alloc: Global, ask: &Ask, life: &[Order]) -> Result<Option<BindingNow>, AllocError>
    ensures { IfOk result (λ binding. binding ≡ option_and_then (λ id. binding_of id life.now) (binding_id_of ask.now)) }
{
    match ask.binding() {
        Some(id) => binding_of(alloc, id.as_str(), life),
        None => Ok(None),
    }
}
