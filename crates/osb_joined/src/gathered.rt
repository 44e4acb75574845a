//! Gathers the contexts of orders and rows into one list.

ghost use Rattle.std.specs.Prelude.{◌≡◌, List, IfOk, option_copied};
ghost use Rattle.osb_audit.specs.declared.entry.BindingEntry.{BindingEntry};
ghost use Rattle.osb_audit.specs.Orders.{lives_in};
ghost use Rattle.osb_audit.specs.Audit.{AreRowsOfLives};
ghost use Rattle.osb_bare.specs.Context.{standing_context};
ghost use Rattle.osb_joined.specs.Contexts.{contexts_of};
ghost use Rattle.osb_joined.specs.Join.{context_of_entry, context_of_row};

use crate::entry::ContextEntry;
use osb_orders::{Order, Standing};
use osb_standing::InstanceRow;
use osb_text::Text;
use std::alloc::{AllocError, Global};

/// The contexts of orders and rows, in the order of their keys. The first order of an instance has
/// the number 1: before its context comes that of the next row.
pub fn gather(
    alloc: Global,
    orders: &[(Text, Order)],
    instances: &[(Text, InstanceRow)],
) -> Result<Vec<ContextEntry>, AllocError>
    ensures { IfOk result (λ contexts. (bindings : List BindingEntry) →
        AreRowsOfLives orders.now instances.now bindings →
        contexts.items ≡ contexts_of (lives_in orders.now)) }
{
    let mut contexts = Vec::new(alloc);
    let mut rows = instances;
    for entry in orders {
        if entry.1.number == 1 {
            if let Some((row, later)) = rows.split_first() {
                contexts.push(context_of_row(alloc, row)?)?;
                rows = later;
            }
        }
        contexts.push(context_of_entry(entry)?)?;
    }
    Ok(contexts)
}

fn context_of_entry(entry: &(Text, Order)) -> Result<ContextEntry, AllocError>
    ensures { IfOk result (λ context. context ≡ context_of_entry entry.now) }
{
    Ok(ContextEntry {
        instance: entry.0.clone()?,
        number: entry.1.number,
        context: entry.1.attributes.context.clone()?,
    })
}

fn context_of_row(alloc: Global, entry: &(Text, InstanceRow)) -> Result<ContextEntry, AllocError>
    ensures { IfOk result (λ context. context ≡ context_of_row entry.now) }
{
    Ok(ContextEntry {
        instance: entry.0.clone()?,
        number: 0,
        context: standing_context(alloc, entry.1.standing.as_ref())?,
    })
}

/// That of an absent instance is empty.
fn standing_context(alloc: Global, standing: Option<&Standing>) -> Result<Text, AllocError>
    ensures { IfOk result (λ context. context ≡ standing_context (option_copied standing.entry)) }
{
    match standing {
        None => Ok(Text::new(alloc)),
        Some(standing) => standing.attributes.context.clone(),
    }
}
