//! Puts contexts beside the orders and rows that they belong to.

ghost use Rattle.std.specs.Prelude.{◌≡◌, ◌↔◌, List, true, IfOk, IfSome, IfNone, option_map, option_copied};
ghost use Rattle.std.specs.Ordering.{is_lt};
ghost use Rattle.osb_audit.specs.Orders.{Entry};
ghost use Rattle.osb_audit.specs.Instances.{InstanceEntry};
ghost use Rattle.osb_joined.specs.Contexts.{context_cmp, AreRising};
ghost use Rattle.osb_joined.specs.Joined.{attributes_with, order_with, standing_with, row_with};
ghost use Rattle.osb_joined.specs.Join.{AreOrdersWith, AreRowsWith, AreJoined};
ghost use Rattle.osb_joined.specs.Fits.{fits_order, fits_row};

use crate::entry::ContextEntry;
use osb_orders::{Attributes, Order, Standing};
use osb_standing::InstanceRow;
use osb_text::Text;
use std::alloc::{AllocError, Global};

/// Orders and rows of instances with their contexts.
#[derive(Drop)]
pub struct Joined {
    pub orders: Vec<(Text, Order)>,
    pub instances: Vec<(Text, InstanceRow)>,
}

/// The orders and the rows with their contexts, unless the lists don't fit. Each list is in the order
/// of its keys: a context with the number 0 belongs to the next row, any other to the next order.
pub fn join(
    alloc: Global,
    orders: &[(Text, Order)],
    instances: &[(Text, InstanceRow)],
    contexts: &[ContextEntry],
) -> Result<Option<Joined>, AllocError>
    ensures some { IfOk result (λ found. IfSome found (λ joined.
        AreJoined contexts.now orders.now instances.now
        joined.orders.items joined.instances.items)) }
    ensures none { IfOk result (λ found. IfNone found (
        (joined : List Entry) (joined_instances : List InstanceEntry) →
        AreJoined contexts.now orders.now instances.now joined joined_instances → ⊥)) }
{
    if !contexts_rise(contexts) {
        return Ok(None);
    }
    let Some(orders) = join_orders(alloc, orders, contexts)? else {
        return Ok(None);
    };
    let Some(instances) = join_rows(alloc, instances, contexts)? else {
        return Ok(None);
    };
    Ok(Some(Joined { orders, instances }))
}

fn contexts_rise(contexts: &[ContextEntry]) -> bool
    ensures { (result ≡ true) ↔ AreRising contexts.now }
{
    contexts.is_sorted_by(|entry, next| is_before(entry, next))
}

fn is_before(entry: &ContextEntry, next: &ContextEntry) -> bool
    ensures { result ≡ is_lt (context_cmp entry.now next.now) }
{
    let ids = entry.instance.cmp(&next.instance);
    ids.then(entry.number.cmp(&next.number)).is_lt()
}

fn join_orders(
    alloc: Global,
    orders: &[(Text, Order)],
    contexts: &[ContextEntry],
) -> Result<Option<Vec<(Text, Order)>>, AllocError>
    ensures some { IfOk result (λ found. IfSome found (λ joined.
        AreOrdersWith contexts.now orders.now joined.items)) }
    ensures none { IfOk result (λ found. IfNone found ((joined : List Entry) →
        AreOrdersWith contexts.now orders.now joined → ⊥)) }
{
    let mut joined = Vec::new(alloc);
    let mut left = orders;
    for context in contexts {
        if context.number == 0 {
            continue;
        }
        let (entry, later) = match left.split_first() {
            None => return Ok(None),
            Some(parts) => parts,
        };
        if !fits_order(context, entry) {
            return Ok(None);
        }
        joined.push(join_order(context, entry)?)?;
        left = later;
    }
    if left.is_empty() {
        Ok(Some(joined))
    } else {
        Ok(None)
    }
}

fn fits_order(context: &ContextEntry, entry: &(Text, Order)) -> bool
    ensures { result ≡ fits_order context.now entry.now }
{
    context.instance == entry.0 && context.number == entry.1.number
}

fn join_order(context: &ContextEntry, entry: &(Text, Order)) -> Result<(Text, Order), AllocError>
    ensures { IfOk result (λ joined.
        joined ≡ (entry.now.0, order_with context.now.context entry.now.1)) }
{
    let id = entry.0.clone()?;
    Ok((id, order_with(&context.context, &entry.1)?))
}

fn order_with(context: &Text, order: &Order) -> Result<Order, AllocError>
    ensures { IfOk result (λ joined. joined ≡ order_with context.now order.now) }
{
    let binding = order.binding.clone()?;
    let outcome = order.outcome.clone()?;
    Ok(Order {
        number: order.number,
        kind: order.kind,
        binding,
        attributes: attributes_with(context, &order.attributes)?,
        outcome,
    })
}

fn attributes_with(context: &Text, attributes: &Attributes) -> Result<Attributes, AllocError>
    ensures { IfOk result (λ joined. joined ≡ attributes_with context.now attributes.now) }
{
    Ok(Attributes {
        context: context.clone()?,
        ..attributes.clone()?
    })
}

fn join_rows(
    alloc: Global,
    instances: &[(Text, InstanceRow)],
    contexts: &[ContextEntry],
) -> Result<Option<Vec<(Text, InstanceRow)>>, AllocError>
    ensures some { IfOk result (λ found. IfSome found (λ joined.
        AreRowsWith contexts.now instances.now joined.items)) }
    ensures none { IfOk result (λ found. IfNone found ((joined : List InstanceEntry) →
        AreRowsWith contexts.now instances.now joined → ⊥)) }
{
    let mut joined = Vec::new(alloc);
    let mut left = instances;
    for context in contexts {
        if context.number != 0 {
            continue;
        }
        let (entry, later) = match left.split_first() {
            None => return Ok(None),
            Some(parts) => parts,
        };
        if !fits_row(context, entry) {
            return Ok(None);
        }
        joined.push(join_row(context, entry)?)?;
        left = later;
    }
    if left.is_empty() {
        Ok(Some(joined))
    } else {
        Ok(None)
    }
}

/// An instance that is absent has no context.
fn fits_row(context: &ContextEntry, entry: &(Text, InstanceRow)) -> bool
    ensures { result ≡ fits_row context.now entry.now }
{
    context.instance == entry.0 && (entry.1.standing.is_some() || context.context.is_empty())
}

fn join_row(
    context: &ContextEntry,
    entry: &(Text, InstanceRow),
) -> Result<(Text, InstanceRow), AllocError>
    ensures { IfOk result (λ joined.
        joined ≡ (entry.now.0, row_with context.now.context entry.now.1)) }
{
    let id = entry.0.clone()?;
    Ok((id, row_with(&context.context, &entry.1)?))
}

fn row_with(context: &Text, row: &InstanceRow) -> Result<InstanceRow, AllocError>
    ensures { IfOk result (λ joined. joined ≡ row_with context.now row.now) }
{
    Ok(InstanceRow {
        standing: standing_with(context, row.standing.as_ref())?,
        busy: row.busy,
        last_number: row.last_number,
    })
}

fn standing_with(
    context: &Text,
    standing: Option<&Standing>,
) -> Result<Option<Standing>, AllocError>
    ensures { IfOk result (λ joined.
        joined ≡ option_map (standing_with context.now) (option_copied standing.entry)) }
{
    match standing {
        None => Ok(None),
        Some(standing) => Ok(Some(Standing {
            phase: standing.phase,
            attributes: attributes_with(context, &standing.attributes)?,
        })),
    }
}
