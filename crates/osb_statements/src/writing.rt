//! Orders written together with the current state then and with their contexts, inside a transaction.

ghost use Rattle.std.specs.Prelude.{◌≡◌, IsTrue, IfOk, Some};
ghost use Rattle.sqlite.specs.State.{HasCleanDisk};
ghost use Rattle.osb_orders.specs.declared.order.Change.TheVariants.{Append, Finish};
ghost use Rattle.osb_orders.specs.Lives.{life_of};
ghost use Rattle.osb_orders.specs.Changed.{lives_changed};
ghost use Rattle.osb_orders.specs.IsLife.{IsLives};
ghost use Rattle.osb_orders.specs.Allowed.{IsFinishable};
ghost use Rattle.osb_orders.specs.Lists.{last_of};
ghost use Rattle.osb_standing.specs.Written as written;
ghost use Rattle.osb_statements.specs.Queries.{ShowsRecords, ShowsLives};
ghost use Rattle.osb_bare.specs.Bare.{bare_order};
ghost use Rattle.osb_statements.specs.Inside.{Writes};
ghost use Rattle.osb_statements.specs.LivesWritten.{WritesLives};
ghost use Rattle.osb_statements.specs.Steps.{stored, bare_in};
ghost use Rattle.osb_contexts.specs.Reads.{Reads, Finds, behind, StaysInside, Does};

use crate::cause::Cause;
use crate::fault::StoreFault;
use crate::orders::{finish_order, insert_order, order_numbered};
use crate::standing::write_standing;
use osb_contexts::{append_context, end_context};
use osb_orders::{Change, Order, Outcome};
use osb_standing::order_written;
use sqlite::{Alter, Transaction};
use std::alloc::Global;

/// Writes one order more but for its context. An instance whose first order it is has no row to look for.
fn append_order<S: Alter>(
    tx: &mut Transaction<'_, S>,
    alloc: Global,
    instance: &str,
    order: &Order,
) -> Result<(), StoreFault>
    requires records { ShowsRecords (behind S.Store tx.old) }
    requires whole { HasCleanDisk (behind S.Store tx.old) → IsTrue (behind S.Store tx.old).is_open →
        IsLives (lives_changed (Append (bare_order order.now)) instance.now
        (bare_in (behind S.Store tx.old))) }
    ensures ok { Does S.Store tx.old tx.new result (λ old new.
        Writes old new (lives_changed (Append (bare_order order.now)) instance.now
        (bare_in old))) }
    ensures inside { StaysInside S.Store tx.old tx.new }
{
    write_standing(tx, alloc, instance, order, order.number == 1)?;
    insert_order(tx, instance, order)?;
    Ok(())
}

/// The running last order of the instance, with the outcome that ends it.
fn ended_order<S: Alter>(
    tx: &mut Transaction<'_, S>,
    alloc: Global,
    instance: &str,
    number: u32,
    outcome: &Outcome,
) -> Result<Order, StoreFault>
    requires { ShowsRecords (behind S.Store tx.old) }
    ensures ok { Finds S.Store tx.old tx.new result (λ s order.
        IsFinishable (life_of (bare_in s) instance.now) number outcome.now →
        written.order_written (last_of (life_of
        (bare_in s) instance.now)) (Finish number outcome.now) ≡ Some order) }
    ensures reads { Reads S.Store tx.old tx.new result }
{
    let ending = Change::Finish(number, outcome.clone()?);
    let last = order_numbered(tx, alloc, instance, number)?;
    match order_written(last, ending) {
        Some(order) => Ok(order),
        None => Err(StoreFault::Refused(Cause::Other)),
    }
}

/// Gives the running last order its outcome, which it returns with it.
fn end_order<S: Alter>(
    tx: &mut Transaction<'_, S>,
    alloc: Global,
    instance: &str,
    number: u32,
    outcome: &Outcome,
) -> Result<Order, StoreFault>
    requires records { ShowsRecords (behind S.Store tx.old) }
    requires last { HasCleanDisk (behind S.Store tx.old) → IsTrue (behind S.Store tx.old).is_open →
        IsFinishable (life_of (bare_in (behind S.Store tx.old)) instance.now) number outcome.now }
    ensures ok { Does S.Store tx.old tx.new result (λ old new.
        Writes old new (lives_changed (Finish number outcome.now) instance.now (bare_in old))) }
    ensures ends { HasCleanDisk (behind S.Store tx.new) → IfOk result (λ order.
        written.order_written (last_of (life_of (bare_in (behind S.Store tx.old)) instance.now))
        (Finish number outcome.now) ≡ Some order) }
    ensures inside { StaysInside S.Store tx.old tx.new }
{
    let order = ended_order(tx, alloc, instance, number, outcome)?;
    write_standing(tx, alloc, instance, &order, false)?;
    finish_order(tx, instance, number, outcome)?;
    Ok(order)
}

/// Writes one order more, with its context.
pub fn append_joined<S: Alter>(
    tx: &mut Transaction<'_, S>,
    alloc: Global,
    instance: &str,
    order: &Order,
) -> Result<(), StoreFault>
    requires lives { ShowsLives (behind S.Store tx.old) }
    requires whole { HasCleanDisk (behind S.Store tx.old) → IsTrue (behind S.Store tx.old).is_open →
        IsLives (lives_changed (Append order.now) instance.now (stored (behind S.Store tx.old))) }
    ensures ok { Does S.Store tx.old tx.new result (λ old new.
        WritesLives old new (lives_changed (Append order.now) instance.now (stored old))) }
    ensures inside { StaysInside S.Store tx.old tx.new }
{
    append_order(tx, alloc, instance, order)?;
    append_context(tx, instance, order)?;
    Ok(())
}

/// Gives the running last order its outcome, and keeps its context where that becomes the current one.
pub fn end_joined<S: Alter>(
    tx: &mut Transaction<'_, S>,
    alloc: Global,
    instance: &str,
    number: u32,
    outcome: &Outcome,
) -> Result<(), StoreFault>
    requires lives { ShowsLives (behind S.Store tx.old) }
    requires whole { HasCleanDisk (behind S.Store tx.old) → IsTrue (behind S.Store tx.old).is_open →
        IsLives (lives_changed (Finish number outcome.now) instance.now
        (stored (behind S.Store tx.old))) }
    requires last { HasCleanDisk (behind S.Store tx.old) → IsTrue (behind S.Store tx.old).is_open →
        IsFinishable (life_of (stored (behind S.Store tx.old)) instance.now) number outcome.now }
    ensures ok { Does S.Store tx.old tx.new result (λ old new.
        WritesLives old new (lives_changed (Finish number outcome.now) instance.now
        (stored old))) }
    ensures inside { StaysInside S.Store tx.old tx.new }
{
    let order = end_order(tx, alloc, instance, number, outcome)?;
    end_context(tx, instance, &order)?;
    Ok(())
}
