//! What is read of the lives, each time in a transaction that is rolled back.

ghost use Rattle.std.specs.Prelude.{◌≡◌, false, None, Some, unwrap_or, [], IsTrue, IfOk, OnOk};
ghost use Rattle.sqlite.specs.Held.{state};
ghost use Rattle.sqlite.specs.State.{HasCleanDisk};
ghost use Rattle.osb_asks.specs.Asks.{is_catalog};
ghost use Rattle.osb_asks.specs.declared.ask.Ask.TheVariants as asks;
ghost use Rattle.osb_orders.specs.Lives.{life_of};
ghost use Rattle.osb_orders.specs.Listing.{listing};
ghost use Rattle.osb_asks.specs.Subjects.{instance_id_of};
ghost use Rattle.osb_orders.specs.ViewData.{data_in, view_of};
ghost use Rattle.osb_audit.specs.Counts.{AreCounts};
ghost use Rattle.osb_audit.specs.Plans as spec;
ghost use Rattle.osb_statements.specs.NextId.{IsNextId};
ghost use Rattle.osb_statements.specs.Steps.{IsReady, stored};
ghost use Rattle.osb_records.specs.Listed.{listed_facts};
ghost use Rattle.osb_records.specs.Looks.{Looks, MayLook};

use osb_asks::{Ask, Orders};
use osb_audit::Counts;
use osb_orders::{Order, View};
use osb_standing::view_by;
use osb_statements::{
    StoreFault, count_all, list_joined, list_life, list_plans, next_id, read_joined,
};
use osb_text::Text;
use sqlite::{Alter, Connection};
use std::alloc::Global;

/// How many running orders an ask lists.
const LISTED: u32 = 100;

/// The orders of the instance by their numbers, read in a transaction of its own.
pub(crate) fn read_life<S: Alter>(
    conn: &mut Connection<S>,
    alloc: Global,
    instance: &str,
) -> Result<Vec<Order>, StoreFault>
    requires { IsReady (state S.Store conn.old) }
    ensures ok { HasCleanDisk (state S.Store conn.new) →
        IfOk result (λ orders.
        orders.items ≡ life_of (stored (state S.Store conn.old)) instance.now) }
    ensures looks { Looks (state S.Store conn.old) (state S.Store conn.new) result }
{
    let mut tx = conn.transaction();
    let orders = list_life(&mut tx, alloc, instance)?;
    tx.rollback();
    Ok(orders)
}

/// The first id above this one of an instance that has orders.
pub(crate) fn read_next_id<S: Alter>(
    conn: &mut Connection<S>,
    after: &str,
) -> Result<Option<Text>, StoreFault>
    requires { IsReady (state S.Store conn.old) }
    ensures ok { HasCleanDisk (state S.Store conn.new) →
        IfOk result (IsNextId (stored (state S.Store conn.old)) after.now) }
    ensures looks { Looks (state S.Store conn.old) (state S.Store conn.new) result }
{
    let mut tx = conn.transaction();
    let next = next_id(&mut tx, after)?;
    tx.rollback();
    Ok(next)
}

/// The running orders of the instances with greater ids by their ids, up to a limit.
pub(crate) fn read_running<S: Alter>(
    conn: &mut Connection<S>,
    alloc: Global,
    after: &str,
    limit: u32,
) -> Result<Vec<(Text, Order)>, StoreFault>
    requires { IsReady (state S.Store conn.old) }
    ensures ok { HasCleanDisk (state S.Store conn.new) →
        IfOk result (λ pairs.
        pairs.items ≡ listing (stored (state S.Store conn.old)) after.now limit) }
    ensures looks { Looks (state S.Store conn.old) (state S.Store conn.new) result }
{
    let mut tx = conn.transaction();
    let listing = list_joined(&mut tx, alloc, after, limit)?;
    tx.rollback();
    Ok(listing)
}

/// The pairs of service and plan of the instances that aren't absent and of the Updates that run.
pub(crate) fn read_plans<S: Alter>(
    conn: &mut Connection<S>,
    alloc: Global,
) -> Result<Vec<(Text, Text)>, StoreFault>
    requires { IsReady (state S.Store conn.old) }
    ensures ok { HasCleanDisk (state S.Store conn.new) →
        IfOk result (λ plans. plans.items ≡ spec.plans_in_use (stored (state S.Store conn.old))) }
    ensures looks { Looks (state S.Store conn.old) (state S.Store conn.new) result }
{
    let mut tx = conn.transaction();
    let plans = list_plans(&mut tx, alloc)?;
    tx.rollback();
    Ok(plans)
}

/// How many instances and bindings aren't absent, and how many orders run.
pub(crate) fn read_counts<S: Alter>(
    conn: &mut Connection<S>,
    alloc: Global,
) -> Result<Counts, StoreFault>
    requires { IsReady (state S.Store conn.old) }
    ensures ok { HasCleanDisk (state S.Store conn.new) →
        IfOk result (AreCounts (stored (state S.Store conn.old))) }
    ensures looks { Looks (state S.Store conn.old) (state S.Store conn.new) result }
{
    let mut tx = conn.transaction();
    let counts = count_all(&mut tx, alloc)?;
    tx.rollback();
    Ok(counts)
}

/// The view for an ask that names the instance.
pub(crate) fn view_of_instance<S: Alter>(
    conn: &mut Connection<S>,
    alloc: Global,
    instance: &str,
    ask: &Ask,
) -> Result<View, StoreFault>
    requires { IsReady (state S.Store conn.old) }
    ensures ok { HasCleanDisk (state S.Store conn.new) →
        instance_id_of ask.now ≡ Some instance.now →
        IfOk result (λ view. data_in view ≡ view_of (stored (state S.Store conn.old)) ask.now) }
    ensures looks { Looks (state S.Store conn.old) (state S.Store conn.new) result }
{
    let mut tx = conn.transaction();
    let read = read_joined(&mut tx, alloc, instance, ask)?;
    tx.rollback();
    Ok(view_by(read))
}

fn view_of_listing(listing: Vec<(Text, Order)>) -> View
    ensures { data_in result ≡ listed_facts listing.items }
{
    View {
        standing: None,
        last: None,
        binding: None,
        named: None,
        subject_last: None,
        count: 0,
        bound: false,
        listing,
    }
}

/// The id after which the listing begins.
fn listed_after(orders: &Orders) -> &str
    ensures { result.now ≡ unwrap_or orders.now.after [] }
{
    match &orders.after {
        Some(after) => after.as_str(),
        None => "",
    }
}

fn view_of_running<S: Alter>(
    conn: &mut Connection<S>,
    alloc: Global,
    orders: &Orders,
) -> Result<View, StoreFault>
    requires { IsReady (state S.Store conn.old) }
    ensures ok { HasCleanDisk (state S.Store conn.new) →
        IfOk result (λ view.
        data_in view ≡ view_of (stored (state S.Store conn.old)) (asks.Orders orders.now)) }
    ensures looks { Looks (state S.Store conn.old) (state S.Store conn.new) result }
{
    let listing = read_running(conn, alloc, listed_after(orders), LISTED)?;
    Ok(view_of_listing(listing))
}

/// The view for an ask that names no instance.
pub(crate) fn view_without_instance<S: Alter>(
    conn: &mut Connection<S>,
    alloc: Global,
    ask: &Ask,
) -> Result<View, StoreFault>
    requires { IsReady (state S.Store conn.old) }
    ensures ok { HasCleanDisk (state S.Store conn.new) → instance_id_of ask.now ≡ None →
        IfOk result (λ view. data_in view ≡ view_of (stored (state S.Store conn.old)) ask.now) }
    ensures open { HasCleanDisk (state S.Store conn.new) → instance_id_of ask.now ≡ None →
        is_catalog ask.now ≡ false → OnOk result (IsTrue (state S.Store conn.old).is_open) }
    ensures looks { MayLook (state S.Store conn.old) (state S.Store conn.new) }
{
    match ask {
        Ask::Orders(orders) => view_of_running(conn, alloc, orders),
        Ask::Catalog
        | Ask::Provision(_)
        | Ask::Fetch(_)
        | Ask::Update(_)
        | Ask::Deprovision(_)
        | Ask::InstanceOp(_)
        | Ask::Bind(_)
        | Ask::FetchBinding(_)
        | Ask::Unbind(_)
        | Ask::BindingOp(_)
        | Ask::Report(_) => Ok(view_of_listing(Vec::new(alloc))),
    }
}
