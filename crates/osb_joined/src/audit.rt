//! Whether orders, rows and contexts that were read apart are those of well-formed lives.

ghost use Rattle.std.specs.Prelude.{◌≡◌, ◌↔◌, true, IfOk};
ghost use Rattle.osb_joined.specs.Audit.{HaveNoContexts, AreRowsWithContexts};

use crate::entry::ContextEntry;
use crate::pass::join;
use osb_audit::{BindingEntry, are_rows_of_lives};
use osb_orders::Order;
use osb_standing::InstanceRow;
use osb_text::Text;
use std::alloc::{AllocError, Global};

/// Whether the lists are the orders, the rows and the contexts of well-formed lives, where the orders and the rows
/// were read without contexts.
pub fn are_rows_with_contexts(
    alloc: Global,
    orders: &[(Text, Order)],
    instances: &[(Text, InstanceRow)],
    bindings: &[BindingEntry],
    contexts: &[ContextEntry],
) -> Result<bool, AllocError>
    ensures { IfOk result (λ yes. HaveNoContexts orders.now instances.now →
        (yes ≡ true) ↔
        AreRowsWithContexts contexts.now orders.now instances.now bindings.now) }
{
    match join(alloc, orders, instances, contexts)? {
        Some(joined) => are_rows_of_lives(alloc, &joined.orders, &joined.instances, bindings),
        None => Ok(false),
    }
}
