//! The table of orders: its columns, its rows, and the statements on it.

ghost use Rattle.std.specs.Prelude.{◌≡◌, ◌≢◌, pos, List, map, Err, IfOk, [], ◌∷◌, IsTrue, filter, ◌↔◌, true, IfErr};
ghost use Rattle.sqlite.specs.declared.types.Value.TheVariants.{Int, Text as Words};
ghost use Rattle.sqlite.specs.Order.{column};
ghost use Rattle.sqlite.specs.State.{HasCleanDisk};
ghost use Rattle.osb_orders.specs.declared.order.OrderState.{OrderState};
ghost use Rattle.osb_orders.specs.Orders.{kind_number, state_number};
ghost use Rattle.osb_orders.specs.declared.order.Change.TheVariants.{Append, Finish};
ghost use Rattle.osb_orders.specs.Lives.{life_of};
ghost use Rattle.osb_orders.specs.Changed.{lives_changed};
ghost use Rattle.osb_orders.specs.IsLife.{IsLives};
ghost use Rattle.osb_orders.specs.Allowed.{IsFinishable};
ghost use Rattle.osb_orders.specs.Lists.{last_of};
ghost use Rattle.osb_orders.specs.Named as spec;
ghost use Rattle.osb_audit.specs.Orders.{Entry, entry_cmp, is_of};
ghost use Rattle.osb_tables.specs.Tables.{second_schema, format_schema, orders_schema};
ghost use Rattle.osb_statements.specs.Causes.{IsRefused};
ghost use Rattle.osb_statements.specs.declared.fault.StoreFault.TheVariants as faults;
ghost use Rattle.osb_statements.specs.Queries.{ShowsRecords};
ghost use Rattle.osb_statements.specs.Asked.{first_order, is_kind_of};
ghost use Rattle.osb_rows.specs.Rows.{Stores, HaveUtf8Texts, AreInUtf8};
ghost use Rattle.std.specs.List.{AllByRecursion};
ghost use Rattle.osb_statements.specs.Read.{IsReadAs, IsEntryOf, OrderFits, entry_columns, AreOrdersOf};
ghost use Rattle.osb_statements.specs.Stored.{AreBare, kind_numbered, state_numbered, order_decoded, order_row, order_columns, entry_row, order_cells, entries_in};
ghost use Rattle.osb_bare.specs.Bare.{bare_order};
ghost use Rattle.sqlite.specs.Values.{bound_value};
ghost use Rattle.sqlite_value.specs.Value.{owned};
ghost use Rattle.osb_contexts.specs.Pieces.{piece, AreNamed};
ghost use Rattle.osb_contexts.specs.Read.{HaveRowids};
ghost use Rattle.osb_contexts.specs.Inside.{ShowsSchema};
ghost use Rattle.osb_statements.specs.Inside.{with_lives, ShowsBlank, Makes, ContentSteps};
ghost use Rattle.osb_statements.specs.Steps.{bare_in, ShowsTables, content};
ghost use Rattle.osb_contexts.specs.Reads.{Reads, Finds, behind, StaysInside, Does};

use crate::cells::{attributes_in, number_in, text_in};
use crate::fault::StoreFault;
use crate::sql::{execute, select};
use osb_contexts::{NamedTable, are_rows_named};
use osb_orders::{Order, OrderKind, OrderState, Outcome};
use osb_text::Text;
use sqlite::types::ValueRef;
use sqlite::{Alter, Error, Row, Transaction, params};
use std::alloc::Global;

/// Makes the table of orders beside that of the format.
pub(crate) fn create_orders<S: Alter>(tx: &mut Transaction<'_, S>) -> Result<usize, Error>
    requires { ShowsBlank format_schema (0 ∷ []) (behind S.Store tx.old) }
    ensures ok { Does S.Store tx.old tx.new result (λ old new.
        Makes old new orders_schema (1 ∷ 0 ∷ [])) }
    ensures inside { StaysInside S.Store tx.old tx.new }
{
    execute(
        tx,
        "CREATE TABLE orders (instance_id TEXT NOT NULL, seq INTEGER NOT NULL, kind INTEGER NOT NULL, binding_id TEXT NOT NULL, service_id TEXT NOT NULL, plan_id TEXT NOT NULL, place TEXT NOT NULL, spot TEXT NOT NULL, params TEXT NOT NULL, maint TEXT NOT NULL, state INTEGER NOT NULL, note TEXT NOT NULL, credentials TEXT NOT NULL, PRIMARY KEY (instance_id, seq)) STRICT",
        &[],
    )
}

fn kind_numbered(number: u32) -> Result<OrderKind, StoreFault>
    ensures { IsReadAs kind_number kind_numbered number result }
{
    match number {
        1 => Ok(OrderKind::Create),
        2 => Ok(OrderKind::Update),
        3 => Ok(OrderKind::Delete),
        4 => Ok(OrderKind::Bind),
        5 => Ok(OrderKind::Unbind),
        _ => Err(StoreFault::NotOurs),
    }
}

fn state_numbered(number: u32) -> Result<OrderState, StoreFault>
    ensures { IsReadAs state_number state_numbered number result }
{
    match number {
        0 => Ok(OrderState::Running),
        1 => Ok(OrderState::Succeeded),
        2 => Ok(OrderState::Failed),
        _ => Err(StoreFault::NotOurs),
    }
}

#[tactic(auto, using(crate::proofs::CodeLemmas::state_fits))]
fn outcome_in(row: &Row) -> Result<Outcome, StoreFault>
    ensures told { IfOk result (λ outcome. outcome ≡ (order_decoded row.now).outcome) }
    ensures held { IfOk result (λ outcome.
        (column row.now 10 ≡ Int (pos (state_number outcome.state)))
        × (column row.now 11 ≡ Words outcome.description)
        × (column row.now 12 ≡ Words outcome.credentials)) }
    ensures texts { IfOk result (λ outcome.
        HaveUtf8Texts (Words outcome.description ∷ Words outcome.credentials ∷ [])) }
    ensures known { (state : OrderState) → column row.now 10 ≡ Int (pos (state_number state)) →
        HaveUtf8Texts row.now → result ≢ Err faults.NotOurs }
{
    Ok(Outcome {
        state: state_numbered(number_in(row, 10)?)?,
        description: text_in(row, 11)?,
        credentials: text_in(row, 12)?,
    })
}

#[tactic(auto, using(crate::proofs::CodeLemmas::kind_fits))]
fn order_in(alloc: Global, row: &Row) -> Result<Order, StoreFault>
    ensures told { IfOk result (λ order. order ≡ order_decoded row.now) }
    ensures held { IfOk result (λ order. order_columns row.now ≡ order_row order) }
    ensures texts { IfOk result (λ order. HaveUtf8Texts (order_row order)) }
    ensures known { (entry : Entry) → row.now ≡ entry_row entry → OrderFits entry →
        HaveUtf8Texts row.now → result ≢ Err faults.NotOurs }
{
    Ok(Order {
        number: number_in(row, 1)?,
        kind: kind_numbered(number_in(row, 2)?)?,
        binding: text_in(row, 3)?,
        outcome: outcome_in(row)?,
        attributes: attributes_in(alloc, row)?,
    })
}

/// The orders that the rows show.
pub(crate) fn orders_in(alloc: Global, rows: &[Row]) -> Result<Vec<Order>, StoreFault>
    ensures { IfOk result (λ orders. orders.items ≡ map order_decoded rows.now) }
{
    let mut orders = Vec::new(alloc);
    for row in rows {
        orders.push(order_in(alloc, row)?)?;
    }
    Ok(orders)
}

/// The order that the first row shows.
fn first_order_in(alloc: Global, rows: &[Row]) -> Result<Option<Order>, StoreFault>
    ensures { IfOk result (λ order. order ≡ first_order rows.now) }
{
    match rows.first() {
        None => Ok(None),
        Some(row) => Ok(Some(order_in(alloc, row)?)),
    }
}

/// The order of the row, with the id of its instance.
fn entry_in(alloc: Global, row: &Row) -> Result<(Text, Order), StoreFault>
    ensures entry { IsEntryOf entry_row entry_columns OrderFits row.now result }
    ensures bare { IfOk result (λ entry. bare_order entry.1 ≡ entry.1) }
{
    Ok((text_in(row, 0)?, order_in(alloc, row)?))
}

/// The orders of the rows, each with the id of its instance.
fn entries_in(alloc: Global, rows: &[Row]) -> Result<Vec<(Text, Order)>, StoreFault>
    ensures told { IfOk result (λ entries.
        (map entry_row entries.items ≡ map entry_columns rows.now) × AreBare entries.items
        × AreInUtf8 entry_row entries.items) }
    ensures known { (entries : List Entry) → rows.now ≡ map entry_row entries →
        AllByRecursion OrderFits entries → AreInUtf8 entry_row entries →
        result ≢ Err faults.NotOurs }
{
    let mut entries = Vec::new(alloc);
    for row in rows {
        entries.push(entry_in(alloc, row)?)?;
    }
    Ok(entries)
}

/// Inserts an order that may follow those of its instance, without its context.
pub(crate) fn insert_order<S: Alter>(
    tx: &mut Transaction<'_, S>,
    instance: &str,
    order: &Order,
) -> Result<usize, Error>
    requires tables { ShowsTables (behind S.Store tx.old) }
    requires whole { HasCleanDisk (behind S.Store tx.old) → IsTrue (behind S.Store tx.old).is_open →
        IsLives (lives_changed (Append (bare_order order.now)) instance.now
        (bare_in (behind S.Store tx.old))) }
    ensures ok { Does S.Store tx.old tx.new result (λ old new.
        ContentSteps old new (with_lives (lives_changed (Append (bare_order order.now)) instance.now
        (bare_in old)) (content old))) }
    ensures inside { StaysInside S.Store tx.old tx.new }
{
    execute(
        tx,
        "INSERT INTO orders (instance_id, seq, kind, binding_id, service_id, plan_id, place, spot, params, maint, state, note, credentials) VALUES (?1, ?2, ?3, ?4, ?5, ?6, ?7, ?8, ?9, ?10, ?11, ?12, ?13)",
        params![
            instance,
            order.number,
            u32::from(order.kind.number()),
            order.binding.as_str(),
            order.attributes.service.as_str(),
            order.attributes.plan.as_str(),
            order.attributes.place.as_str(),
            order.attributes.spot.as_str(),
            order.attributes.parameters.as_str(),
            order.attributes.maintenance.as_str(),
            u32::from(order.outcome.state.number()),
            order.outcome.description.as_str(),
            order.outcome.credentials.as_str(),
        ],
    )
}

/// Gives the running last order of the instance its outcome.
pub(crate) fn finish_order<S: Alter>(
    tx: &mut Transaction<'_, S>,
    instance: &str,
    number: u32,
    outcome: &Outcome,
) -> Result<usize, Error>
    requires tables { ShowsTables (behind S.Store tx.old) }
    requires lives { HasCleanDisk (behind S.Store tx.old) → IsTrue (behind S.Store tx.old).is_open →
        IsLives (bare_in (behind S.Store tx.old)) }
    requires last { HasCleanDisk (behind S.Store tx.old) → IsTrue (behind S.Store tx.old).is_open →
        IsFinishable (life_of (bare_in (behind S.Store tx.old)) instance.now) number outcome.now }
    ensures ok { Does S.Store tx.old tx.new result (λ old new.
        ContentSteps old new (with_lives (lives_changed (Finish number outcome.now) instance.now
        (bare_in old)) (content old))) }
    ensures inside { StaysInside S.Store tx.old tx.new }
{
    execute(
        tx,
        "UPDATE orders SET state = ?3, note = ?4, credentials = ?5 WHERE instance_id = ?1 AND seq = ?2",
        params![
            instance,
            number,
            u32::from(outcome.state.number()),
            outcome.description.as_str(),
            outcome.credentials.as_str(),
        ],
    )
}

fn select_order<S: Alter>(
    tx: &mut Transaction<'_, S>,
    instance: &str,
    number: u32,
) -> Result<Vec<Row>, Error>
    requires { ShowsTables (behind S.Store tx.old) }
    ensures ok { Finds S.Store tx.old tx.new result (λ s rows.
        first_order rows.items ≡ spec.order_numbered number (life_of (bare_in s) instance.now)) }
    ensures reads { Reads S.Store tx.old tx.new result }
{
    select(
        tx,
        "SELECT instance_id, seq, kind, binding_id, service_id, plan_id, place, spot, params, maint, state, note, credentials FROM orders WHERE instance_id = ?1 AND seq = ?2 ORDER BY instance_id, seq",
        params![instance, number],
    )
}

/// The order of that number in the life of the instance.
pub(crate) fn order_numbered<S: Alter>(
    tx: &mut Transaction<'_, S>,
    alloc: Global,
    instance: &str,
    number: u32,
) -> Result<Option<Order>, StoreFault>
    requires { ShowsRecords (behind S.Store tx.old) }
    ensures ok { Finds S.Store tx.old tx.new result (λ s order.
        order ≡ spec.order_numbered number (life_of (bare_in s) instance.now)) }
    ensures reads { Reads S.Store tx.old tx.new result }
{
    let rows = select_order(tx, instance, number)?;
    first_order_in(alloc, &rows)
}

fn select_last<S: Alter>(
    tx: &mut Transaction<'_, S>,
    instance: &str,
    binding: &str,
    kind: OrderKind,
) -> Result<Vec<Row>, Error>
    requires { ShowsTables (behind S.Store tx.old) }
    ensures ok { Finds S.Store tx.old tx.new result (λ s rows.
        first_order rows.items ≡
        last_of (filter (is_kind_of binding.now kind) (life_of (bare_in s) instance.now))) }
    ensures reads { Reads S.Store tx.old tx.new result }
{
    select(
        tx,
        "SELECT instance_id, seq, kind, binding_id, service_id, plan_id, place, spot, params, maint, state, note, credentials FROM orders WHERE instance_id = ?1 AND binding_id = ?2 AND kind = ?3 ORDER BY instance_id DESC, seq DESC LIMIT 1",
        params![instance, binding, u32::from(kind.number())],
    )
}

/// The last order of that kind about the binding, by the index on what orders are about. One about the
/// instance itself names no binding.
pub(crate) fn last_of_kind<S: Alter>(
    tx: &mut Transaction<'_, S>,
    alloc: Global,
    instance: &str,
    binding: &str,
    kind: OrderKind,
) -> Result<Option<Order>, StoreFault>
    requires { ShowsRecords (behind S.Store tx.old) }
    ensures ok { Finds S.Store tx.old tx.new result (λ s order.
        order ≡ last_of (filter (is_kind_of binding.now kind) (life_of (bare_in s) instance.now))) }
    ensures reads { Reads S.Store tx.old tx.new result }
{
    let rows = select_last(tx, instance, binding, kind)?;
    first_order_in(alloc, &rows)
}

pub(crate) fn select_life<S: Alter>(
    tx: &mut Transaction<'_, S>,
    instance: &str,
) -> Result<Vec<Row>, Error>
    requires { ShowsTables (behind S.Store tx.old) }
    ensures ok { Finds S.Store tx.old tx.new result (λ s rows.
        rows.items ≡ map entry_row (filter (is_of instance.now) (entries_in s.now.trees))) }
    ensures reads { Reads S.Store tx.old tx.new result }
{
    select(
        tx,
        "SELECT instance_id, seq, kind, binding_id, service_id, plan_id, place, spot, params, maint, state, note, credentials FROM orders WHERE instance_id = ?1 ORDER BY instance_id, seq",
        params![instance],
    )
}

/// Whether each row of an order has the id of an instance. Rows without rowids of their own are refused.
pub(crate) fn are_orders_named<S: Alter>(
    tx: &mut Transaction<'_, S>,
    alloc: Global,
) -> Result<bool, StoreFault>
    requires { ShowsSchema second_schema (behind S.Store tx.old) }
    ensures ok { Finds S.Store tx.old tx.new result (λ s yes.
        HaveRowids (s.now.trees 1) × ((yes ≡ true) ↔ AreNamed (s.now.trees 1))) }
    ensures reads { Reads S.Store tx.old tx.new result }
    ensures refused { IfErr result IsRefused }
{
    Ok(are_rows_named(tx, alloc, NamedTable::Orders)?)
}

/// The orders of the instances with ids above the first and up to the second, by their keys.
pub(crate) fn read_orders_between<S: Alter>(
    tx: &mut Transaction<'_, S>,
    alloc: Global,
    after: &str,
    to: ValueRef<'_>,
) -> Result<Vec<(Text, Order)>, StoreFault>
    requires { ShowsSchema second_schema (behind S.Store tx.old) }
    ensures ok { Finds S.Store tx.old tx.new result (λ s entries. HaveRowids (s.now.trees 1) →
        AreOrdersOf (piece after.now (bound_value (owned to.entry)) s.now.trees) entries.items) }
    ensures reads { Reads S.Store tx.old tx.new result }
    ensures known { HasCleanDisk (behind S.Store tx.new) → (orders : List Entry) →
        Stores order_cells entry_row entry_cmp (piece after.now (bound_value (owned to.entry))
        (behind S.Store tx.old).now.trees 1) orders → AllByRecursion OrderFits orders →
        result ≢ Err faults.NotOurs }
{
    let rows = select(
        tx,
        "SELECT instance_id, seq, kind, binding_id, service_id, plan_id, place, spot, params, maint, state, note, credentials FROM orders WHERE instance_id > ?1 AND instance_id <= ?2 ORDER BY instance_id, seq",
        &[ValueRef::Text(after.as_bytes()), to],
    )?;
    entries_in(alloc, &rows)
}
