//! Reading orders, in transactions that are rolled back.

ghost use Rattle.std.specs.Prelude.{◌≡◌, map, Some};
ghost use Rattle.osb_orders.specs.Lives.{life_of};
ghost use Rattle.osb_orders.specs.Listing.{listing};
ghost use Rattle.osb_statements.specs.Queries.{ShowsRecords, ShowsLives};
ghost use Rattle.osb_statements.specs.Asked.{order_for};
ghost use Rattle.osb_statements.specs.NextId.{IsNextId};
ghost use Rattle.osb_statements.specs.Steps.{stored, bare_in};
ghost use Rattle.osb_contexts.specs.Reads.{Reads, Finds, behind, MayRead, MayFind};

use crate::cause::Cause;
use crate::cells::text_in;
use crate::contexts::{join_entries, join_orders};
use crate::fault::StoreFault;
use crate::instances::{named_in, read_busy, select_next};
use crate::orders::{order_numbered, orders_in, select_life};
use osb_orders::Order;
use osb_text::Text;
use sqlite::{Alter, Row, Transaction};
use std::alloc::Global;

/// The order that the row names, with the id of its instance.
fn listed_order<S: Alter>(
    tx: &mut Transaction<'_, S>,
    alloc: Global,
    row: &Row,
) -> Result<(Text, Order), StoreFault>
    requires { ShowsRecords (behind S.Store tx.old) }
    ensures ok { Finds S.Store tx.old tx.new result (λ s pair.
        Some pair ≡ order_for (bare_in s) row.now) }
    ensures reads { Reads S.Store tx.old tx.new result }
{
    let (id, number) = named_in(row)?;
    match order_numbered(tx, alloc, id.as_str(), number)? {
        Some(order) => Ok((id, order)),
        None => Err(StoreFault::Refused(Cause::Other)),
    }
}

/// The orders that the rows name.
fn listed_orders<S: Alter>(
    tx: &mut Transaction<'_, S>,
    alloc: Global,
    rows: &[Row],
) -> Result<Vec<(Text, Order)>, StoreFault>
    requires { ShowsRecords (behind S.Store tx.old) }
    ensures ok { MayFind S.Store tx.old tx.new result (λ s pairs.
        map Some pairs.items ≡ map (order_for (bare_in s)) rows.now) }
    ensures reads { MayRead S.Store tx.old tx.new result }
{
    let mut orders = Vec::new(alloc);
    for row in rows {
        orders.push(listed_order(tx, alloc, row)?)?;
    }
    Ok(orders)
}

/// The running orders of the instances with greater ids by their ids, up to a limit, but for their contexts.
pub(crate) fn list_running<S: Alter>(
    tx: &mut Transaction<'_, S>,
    alloc: Global,
    after: &str,
    limit: u32,
) -> Result<Vec<(Text, Order)>, StoreFault>
    requires { ShowsRecords (behind S.Store tx.old) }
    ensures ok { Finds S.Store tx.old tx.new result (λ s pairs.
        pairs.items ≡ listing (bare_in s) after.now limit) }
    ensures reads { Reads S.Store tx.old tx.new result }
{
    let rows = read_busy(tx, after, limit)?;
    listed_orders(tx, alloc, &rows)
}

/// The first id above this one of an instance that has orders.
pub fn next_id<S: Alter>(
    tx: &mut Transaction<'_, S>,
    after: &str,
) -> Result<Option<Text>, StoreFault>
    requires { ShowsLives (behind S.Store tx.old) }
    ensures ok { Finds S.Store tx.old tx.new result (λ s next.
        IsNextId (stored s) after.now next) }
    ensures reads { Reads S.Store tx.old tx.new result }
{
    let rows = select_next(tx, after)?;
    match rows.first() {
        Some(row) => Ok(Some(text_in(row, 0)?)),
        None => Ok(None),
    }
}

/// The orders of the instance by their numbers, but for their contexts.
fn select_orders<S: Alter>(
    tx: &mut Transaction<'_, S>,
    alloc: Global,
    instance: &str,
) -> Result<Vec<Order>, StoreFault>
    requires { ShowsRecords (behind S.Store tx.old) }
    ensures ok { Finds S.Store tx.old tx.new result (λ s orders.
        orders.items ≡ life_of (bare_in s) instance.now) }
    ensures reads { Reads S.Store tx.old tx.new result }
{
    let rows = select_life(tx, instance)?;
    orders_in(alloc, &rows)
}

/// The orders of the instance by their numbers.
pub fn list_life<S: Alter>(
    tx: &mut Transaction<'_, S>,
    alloc: Global,
    instance: &str,
) -> Result<Vec<Order>, StoreFault>
    requires { ShowsLives (behind S.Store tx.old) }
    ensures ok { Finds S.Store tx.old tx.new result (λ s orders.
        orders.items ≡ life_of (stored s) instance.now) }
    ensures reads { Reads S.Store tx.old tx.new result }
{
    let orders = select_orders(tx, alloc, instance)?;
    join_orders(tx, alloc, instance, &orders)
}

/// The running orders with their contexts.
pub fn list_joined<S: Alter>(
    tx: &mut Transaction<'_, S>,
    alloc: Global,
    after: &str,
    limit: u32,
) -> Result<Vec<(Text, Order)>, StoreFault>
    requires { ShowsLives (behind S.Store tx.old) }
    ensures ok { Finds S.Store tx.old tx.new result (λ s pairs.
        pairs.items ≡ listing (stored s) after.now limit) }
    ensures reads { Reads S.Store tx.old tx.new result }
{
    let listed = list_running(tx, alloc, after, limit)?;
    join_entries(tx, alloc, &listed)
}
