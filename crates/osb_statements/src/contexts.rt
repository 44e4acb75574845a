//! Orders and the current state of instances with their contexts, read inside a transaction.

ghost use Rattle.std.specs.Prelude.{◌≡◌, map, IfOk, IfSome, option_map, option_copied};
ghost use Rattle.osb_orders.specs.declared.order.Order.{Order};
ghost use Rattle.osb_joined.specs.Joined as spec;
ghost use Rattle.osb_contexts.specs.Steps.{contexts, ShowsContexts};
ghost use Rattle.osb_contexts.specs.Reads.{Reads, MayRead, Finds, MayFind, behind};
ghost use Rattle.osb_statements.specs.Asked.{IsJoinedRead};

use crate::fault::StoreFault;
use osb_contexts::read_context;
use osb_orders::{Attributes, Order, Standing};
use osb_standing::{InstanceRow, Read};
use osb_text::Text;
use sqlite::{Alter, Transaction};
use std::alloc::Global;

fn attributes_with(context: Text, attributes: Attributes) -> Attributes
    ensures { result ≡ spec.attributes_with context attributes }
{
    Attributes {
        context,
        ..attributes
    }
}

fn order_with(context: Text, order: Order) -> Order
    ensures { result ≡ spec.order_with context order }
{
    Order {
        number: order.number,
        kind: order.kind,
        binding: order.binding,
        attributes: attributes_with(context, order.attributes),
        outcome: order.outcome,
    }
}

/// The order with its context.
fn joined_order<S: Alter>(
    tx: &mut Transaction<'_, S>,
    instance: &str,
    order: Order,
) -> Result<Order, StoreFault>
    requires { ShowsContexts (behind S.Store tx.old) }
    ensures ok { Finds S.Store tx.old tx.new result (λ s joined.
        joined ≡ spec.joined_order (contexts s) instance.now order) }
    ensures reads { Reads S.Store tx.old tx.new result }
{
    let context = read_context(tx, instance, order.number)?;
    Ok(order_with(context, order))
}

/// The context of the order with this number, copied where it is the last order, which has its context.
fn context_beside<S: Alter>(
    tx: &mut Transaction<'_, S>,
    instance: &str,
    number: u32,
    last: Option<&Order>,
) -> Result<Text, StoreFault>
    requires { ShowsContexts (behind S.Store tx.old) }
    ensures ok { MayFind S.Store tx.old tx.new result (λ s context.
        IfSome (option_copied last.entry) (λ (order : Order).
        order.attributes.context ≡ spec.context_at (contexts s) instance.now order.number) →
        context ≡ spec.context_at (contexts s) instance.now number) }
    ensures reads { MayRead S.Store tx.old tx.new result }
{
    match last {
        Some(order) if order.number == number => Ok(order.attributes.context.clone()?),
        _ => Ok(read_context(tx, instance, number)?),
    }
}

/// The order that was found, with its context.
fn joined_beside<S: Alter>(
    tx: &mut Transaction<'_, S>,
    instance: &str,
    found: Option<Order>,
    last: Option<&Order>,
) -> Result<Option<Order>, StoreFault>
    requires { ShowsContexts (behind S.Store tx.old) }
    ensures ok { MayFind S.Store tx.old tx.new result (λ s joined.
        IfSome (option_copied last.entry) (λ (order : Order).
        order.attributes.context ≡ spec.context_at (contexts s) instance.now order.number) →
        joined ≡ option_map (spec.joined_order (contexts s) instance.now) found) }
    ensures reads { MayRead S.Store tx.old tx.new result }
{
    let Some(order) = found else {
        return Ok(None);
    };
    match context_beside(tx, instance, order.number, last) {
        Ok(context) => Ok(Some(order_with(context, order))),
        Err(fault) => {
            drop(order);
            Err(fault)
        }
    }
}

/// The current state of the instance, with its context.
fn joined_standing<S: Alter>(
    tx: &mut Transaction<'_, S>,
    instance: &str,
    standing: Option<Standing>,
) -> Result<Option<Standing>, StoreFault>
    requires { ShowsContexts (behind S.Store tx.old) }
    ensures ok { MayFind S.Store tx.old tx.new result (λ s joined. joined ≡
        option_map (spec.joined_standing (contexts s) instance.now) standing) }
    ensures reads { MayRead S.Store tx.old tx.new result }
{
    let Some(standing) = standing else {
        return Ok(None);
    };
    let context = read_context(tx, instance, 0)?;
    Ok(Some(Standing {
        phase: standing.phase,
        attributes: attributes_with(context, standing.attributes),
    }))
}

/// The row of the instance, with the current context.
fn joined_row<S: Alter>(
    tx: &mut Transaction<'_, S>,
    instance: &str,
    row: Option<InstanceRow>,
) -> Result<Option<InstanceRow>, StoreFault>
    requires { ShowsContexts (behind S.Store tx.old) }
    ensures ok { MayFind S.Store tx.old tx.new result (λ s joined. joined ≡
        option_map (spec.joined_row (contexts s) instance.now) row) }
    ensures reads { MayRead S.Store tx.old tx.new result }
{
    let Some(row) = row else {
        return Ok(None);
    };
    Ok(Some(InstanceRow {
        standing: joined_standing(tx, instance, row.standing)?,
        busy: row.busy,
        last_number: row.last_number,
    }))
}

/// The last order with its context.
fn joined_last<S: Alter>(
    tx: &mut Transaction<'_, S>,
    instance: &str,
    last: Option<Order>,
) -> Result<Option<Order>, StoreFault>
    requires { ShowsContexts (behind S.Store tx.old) }
    ensures ok { MayFind S.Store tx.old tx.new result (λ s joined. joined ≡
        option_map (spec.joined_order (contexts s) instance.now) last) }
    ensures reads { MayRead S.Store tx.old tx.new result }
{
    match last {
        Some(order) => Ok(Some(joined_order(tx, instance, order)?)),
        None => Ok(None),
    }
}

/// The row of the instance and its last order, with their contexts.
fn joined_current<S: Alter>(
    tx: &mut Transaction<'_, S>,
    instance: &str,
    row: Option<InstanceRow>,
    last: Option<Order>,
) -> Result<(Option<InstanceRow>, Option<Order>), StoreFault>
    requires { ShowsContexts (behind S.Store tx.old) }
    ensures ok { MayFind S.Store tx.old tx.new result (λ s joined.
        (joined.0 ≡ option_map (spec.joined_row (contexts s) instance.now) row)
        × (joined.1 ≡ option_map (spec.joined_order (contexts s) instance.now) last)) }
    ensures reads { MayRead S.Store tx.old tx.new result }
{
    let row = match joined_row(tx, instance, row) {
        Ok(row) => row,
        Err(fault) => {
            drop(last);
            return Err(fault);
        }
    };
    match joined_last(tx, instance, last) {
        Ok(last) => Ok((row, last)),
        Err(fault) => {
            drop(row);
            Err(fault)
        }
    }
}

/// The order that was named and the last of those that a poll is about, with their contexts.
fn joined_polled<S: Alter>(
    tx: &mut Transaction<'_, S>,
    instance: &str,
    named: Option<Order>,
    subject_last: Option<Order>,
    last: Option<&Order>,
) -> Result<(Option<Order>, Option<Order>), StoreFault>
    requires { ShowsContexts (behind S.Store tx.old) }
    ensures ok { MayFind S.Store tx.old tx.new result (λ s joined.
        IfSome (option_copied last.entry) (λ (order : Order).
        order.attributes.context ≡ spec.context_at (contexts s) instance.now order.number) →
        (joined.0 ≡ option_map (spec.joined_order (contexts s) instance.now) named)
        × (joined.1 ≡ option_map (spec.joined_order (contexts s) instance.now) subject_last)) }
    ensures reads { MayRead S.Store tx.old tx.new result }
{
    let named = match joined_beside(tx, instance, named, last) {
        Ok(named) => named,
        Err(fault) => {
            drop(subject_last);
            return Err(fault);
        }
    };
    match joined_beside(tx, instance, subject_last, last) {
        Ok(subject_last) => Ok((named, subject_last)),
        Err(fault) => {
            drop(named);
            Err(fault)
        }
    }
}

/// What a poll is about with its contexts, beside the row of the instance and its last order, which have theirs.
fn joined_after<S: Alter>(
    tx: &mut Transaction<'_, S>,
    instance: &str,
    current: (Option<InstanceRow>, Option<Order>),
    polled: (Option<Order>, Option<Order>),
) -> Result<
    (
        (Option<InstanceRow>, Option<Order>),
        (Option<Order>, Option<Order>),
    ),
    StoreFault,
>
    requires { ShowsContexts (behind S.Store tx.old) }
    ensures same { IfOk result (λ joined. joined.0 ≡ current) }
    ensures ok { MayFind S.Store tx.old tx.new result (λ s joined.
        IfSome current.1 (λ (order : Order).
        order.attributes.context ≡ spec.context_at (contexts s) instance.now order.number) →
        (joined.1.0 ≡ option_map (spec.joined_order (contexts s) instance.now) polled.0)
        × (joined.1.1 ≡ option_map (spec.joined_order (contexts s) instance.now) polled.1)) }
    ensures reads { MayRead S.Store tx.old tx.new result }
{
    match joined_polled(tx, instance, polled.0, polled.1, current.1.as_ref()) {
        Ok(polled) => Ok((current, polled)),
        Err(fault) => {
            drop(current);
            Err(fault)
        }
    }
}

/// The row of the instance and its last order, and what a poll is about, with their contexts.
fn joined_parts<S: Alter>(
    tx: &mut Transaction<'_, S>,
    instance: &str,
    row: Option<InstanceRow>,
    last: Option<Order>,
    polled: (Option<Order>, Option<Order>),
) -> Result<
    (
        (Option<InstanceRow>, Option<Order>),
        (Option<Order>, Option<Order>),
    ),
    StoreFault,
>
    requires { ShowsContexts (behind S.Store tx.old) }
    ensures ok { MayFind S.Store tx.old tx.new result (λ s joined.
        ((joined.0.0 ≡ option_map (spec.joined_row (contexts s) instance.now) row)
        × (joined.0.1 ≡ option_map (spec.joined_order (contexts s) instance.now) last))
        × ((joined.1.0 ≡ option_map (spec.joined_order (contexts s) instance.now) polled.0)
        × (joined.1.1 ≡ option_map (spec.joined_order (contexts s) instance.now) polled.1))) }
    ensures reads { MayRead S.Store tx.old tx.new result }
{
    match joined_current(tx, instance, row, last) {
        Ok(current) => joined_after(tx, instance, current, polled),
        Err(fault) => {
            drop(polled);
            Err(fault)
        }
    }
}

/// What was read of an instance, with the contexts.
pub(crate) fn join_read<S: Alter>(
    tx: &mut Transaction<'_, S>,
    instance: &str,
    read: Read,
) -> Result<Read, StoreFault>
    requires { ShowsContexts (behind S.Store tx.old) }
    ensures ok { MayFind S.Store tx.old tx.new result (λ s joined.
        IsJoinedRead (contexts s) instance.now read joined) }
    ensures reads { MayRead S.Store tx.old tx.new result }
{
    let polled = (read.named, read.subject_last);
    let (current, polled) = match joined_parts(tx, instance, read.row, read.last, polled) {
        Ok(joined) => joined,
        Err(fault) => {
            drop(read.binding);
            return Err(fault);
        }
    };
    Ok(Read {
        row: current.0,
        last: current.1,
        binding: read.binding,
        named: polled.0,
        subject_last: polled.1,
        bound: read.bound,
        listing: read.listing,
    })
}

/// The orders of the instance with their contexts.
pub(crate) fn join_orders<S: Alter>(
    tx: &mut Transaction<'_, S>,
    alloc: Global,
    instance: &str,
    orders: &[Order],
) -> Result<Vec<Order>, StoreFault>
    requires { ShowsContexts (behind S.Store tx.old) }
    ensures ok { MayFind S.Store tx.old tx.new result (λ s joined. joined.items ≡
        map (spec.joined_order (contexts s) instance.now) orders.now) }
    ensures reads { MayRead S.Store tx.old tx.new result }
{
    let mut joined = Vec::new(alloc);
    for order in orders {
        joined.push(joined_order(tx, instance, order.clone()?)?)?;
    }
    Ok(joined)
}

/// An order, with the id of its instance, with its context.
fn joined_entry<S: Alter>(
    tx: &mut Transaction<'_, S>,
    entry: &(Text, Order),
) -> Result<(Text, Order), StoreFault>
    requires { ShowsContexts (behind S.Store tx.old) }
    ensures ok { Finds S.Store tx.old tx.new result (λ s joined.
        joined ≡ spec.joined_entry (contexts s) entry.now) }
    ensures reads { Reads S.Store tx.old tx.new result }
{
    let id = entry.0.clone()?;
    let order = entry.1.clone()?;
    let joined = joined_order(tx, entry.0.as_str(), order)?;
    Ok((id, joined))
}

/// Orders of instances with their contexts.
pub(crate) fn join_entries<S: Alter>(
    tx: &mut Transaction<'_, S>,
    alloc: Global,
    entries: &[(Text, Order)],
) -> Result<Vec<(Text, Order)>, StoreFault>
    requires { ShowsContexts (behind S.Store tx.old) }
    ensures ok { MayFind S.Store tx.old tx.new result (λ s joined.
        joined.items ≡ map (spec.joined_entry (contexts s)) entries.now) }
    ensures reads { MayRead S.Store tx.old tx.new result }
{
    let mut joined = Vec::new(alloc);
    for entry in entries {
        joined.push(joined_entry(tx, entry)?)?;
    }
    Ok(joined)
}
