//! What an order does to the contexts.

ghost use Rattle.std.specs.Prelude.{◌≡◌, [], IsTrue, false, filter, Some, option_copied};
ghost use Rattle.sqlite.specs.State.{HasCleanDisk};
ghost use Rattle.osb_orders.specs.declared.order.Change.TheVariants.{Append};
ghost use Rattle.osb_bare.specs.Context.{context_edit};
ghost use Rattle.osb_joined.specs.Contexts.{is_context};
ghost use Rattle.osb_joined.specs.Joined.{context_at};
ghost use Rattle.osb_joined.specs.After.{standing_set, contexts_after};
ghost use Rattle.osb_contexts.specs.Ended.{contexts_ended};
ghost use Rattle.osb_contexts.specs.Steps.{contexts, ShowsContexts, ContextSteps};
ghost use Rattle.osb_contexts.specs.Reads.{behind, StaysInside, Does, MayDo};

use crate::contexts::{insert_context, read_context, update_context};
use osb_orders::{Order, OrderKind, OrderState};
use sqlite::{Alter, Error, Transaction};

/// The context that a new order leaves standing, if it leaves another one.
fn context_edit(order: &Order) -> Option<&str>
    ensures { option_copied result ≡ context_edit order.now }
{
    match (order.kind, order.outcome.state) {
        (OrderKind::Create, _) => Some(order.attributes.context.as_str()),
        (OrderKind::Update, OrderState::Succeeded) => Some(order.attributes.context.as_str()),
        (OrderKind::Delete, OrderState::Succeeded) => Some(""),
        _ => None,
    }
}

/// Inserts the current context of a new instance, or updates that of another one.
fn put_standing<S: Alter>(
    tx: &mut Transaction<'_, S>,
    instance: &str,
    is_first: bool,
    context: &str,
) -> Result<usize, Error>
    requires tables { ShowsContexts (behind S.Store tx.old) }
    requires no_row { HasCleanDisk (behind S.Store tx.old) →
        IsTrue (behind S.Store tx.old).is_open → IsTrue is_first →
        filter (is_context instance.now 0) (contexts (behind S.Store tx.old)) ≡ [] }
    ensures ok { Does S.Store tx.old tx.new result (λ old new. ContextSteps old new
        (standing_set is_first (Some context.now) instance.now (contexts old))) }
    ensures inside { StaysInside S.Store tx.old tx.new }
{
    if is_first {
        insert_context(tx, instance, 0, context)
    } else {
        update_context(tx, instance, 0, context)
    }
}

/// Writes the context of a new order, and the one that it leaves standing.
pub fn append_context<S: Alter>(
    tx: &mut Transaction<'_, S>,
    instance: &str,
    order: &Order,
) -> Result<(), Error>
    requires tables { ShowsContexts (behind S.Store tx.old) }
    requires no_row { HasCleanDisk (behind S.Store tx.old) →
        IsTrue (behind S.Store tx.old).is_open →
        filter (is_context instance.now order.now.number) (contexts (behind S.Store tx.old)) ≡ [] }
    requires none_stands { HasCleanDisk (behind S.Store tx.old) →
        IsTrue (behind S.Store tx.old).is_open → order.now.number ≡ 1 →
        filter (is_context instance.now 0) (contexts (behind S.Store tx.old)) ≡ [] }
    ensures ok { Does S.Store tx.old tx.new result (λ old new. ContextSteps old new
        (contexts_after (Append order.now) order.now instance.now (contexts old))) }
    ensures inside { StaysInside S.Store tx.old tx.new }
{
    insert_context(
        tx,
        instance,
        order.number,
        order.attributes.context.as_str(),
    )?;
    if let Some(context) = context_edit(order) {
        put_standing(tx, instance, order.number == 1, context)?;
    }
    Ok(())
}

/// Makes the context of an Update that succeeded the current one.
fn stand_updated<S: Alter>(
    tx: &mut Transaction<'_, S>,
    instance: &str,
    number: u32,
) -> Result<(), Error>
    requires { ShowsContexts (behind S.Store tx.old) }
    ensures ok { Does S.Store tx.old tx.new result (λ old new. ContextSteps old new
        (standing_set false (Some (context_at (contexts old) instance.now number))
        instance.now (contexts old))) }
    ensures inside { StaysInside S.Store tx.old tx.new }
{
    let context = read_context(tx, instance, number)?;
    update_context(tx, instance, 0, context.as_str())?;
    Ok(())
}

/// Writes the current context after the end of an order, where it is another one. The order needn't have
/// its own context, which is read.
pub fn end_context<S: Alter>(
    tx: &mut Transaction<'_, S>,
    instance: &str,
    order: &Order,
) -> Result<(), Error>
    requires { ShowsContexts (behind S.Store tx.old) }
    ensures ok { MayDo S.Store tx.old tx.new result (λ old new. ContextSteps old new
        (contexts_ended instance.now order.now (contexts old))) }
    ensures inside { StaysInside S.Store tx.old tx.new }
{
    match (order.kind, order.outcome.state) {
        (OrderKind::Update, OrderState::Succeeded) => stand_updated(tx, instance, order.number),
        (OrderKind::Delete, OrderState::Succeeded) => {
            update_context(tx, instance, 0, "")?;
            Ok(())
        }
        _ => Ok(()),
    }
}
