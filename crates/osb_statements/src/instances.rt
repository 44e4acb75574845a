//! The table of the current state of instances: its columns, its rows, and the statements on it.

ghost use Rattle.std.specs.Prelude.{◌≡◌, ◌≢◌, ◌↔◌, ◌==◌, true, List, map, Option, Err, IfOk, [], ◌∷◌, IsTrue, filter, ℕ, Some, take, false, IfErr};
ghost use Rattle.std.specs.List.{AllByRecursion};
ghost use Rattle.sqlite.specs.Order.{column, bytes};
ghost use Rattle.sqlite.specs.State.{HasCleanDisk, ExecutesInside};
ghost use Rattle.sqlite.specs.declared.error.Error.TheVariants as fault;
ghost use Rattle.sqlite.specs.declared.error.ErrorCode.TheVariants as code;
ghost use Rattle.sqlite_keyed.specs.Lists.{insert_sorted, update_where};
ghost use Rattle.osb_orders.specs.declared.view.Standing.{Standing};
ghost use Rattle.osb_orders.specs.declared.order.Order.{Order};
ghost use Rattle.osb_orders.specs.Listing.{listing};
ghost use Rattle.osb_standing.specs.Listing.{is_listed_row};
ghost use Rattle.osb_audit.specs.Instances.{InstanceEntry, instance_cmp, is_instance, IsRowOf};
ghost use Rattle.osb_tables.specs.Tables.{second_schema, orders_schema, instances_schema};
ghost use Rattle.osb_statements.specs.Causes.{IsRefused};
ghost use Rattle.osb_statements.specs.declared.fault.StoreFault.TheVariants as faults;
ghost use Rattle.osb_statements.specs.Queries.{ShowsRecords};
ghost use Rattle.osb_statements.specs.Asked.{busy_row, id_row, is_above, order_for};
ghost use Rattle.osb_rows.specs.Rows.{Stores, HaveUtf8Texts, AreInUtf8};
ghost use Rattle.osb_statements.specs.Columns.{number_in, attributes_row};
ghost use Rattle.osb_statements.specs.Read.{IsReadAs, IsEntryOf, InstanceFits, AreInstancesOf, instance_columns, first_told};
ghost use Rattle.osb_bare.specs.Bare.{bare_attributes, bare_row};
ghost use Rattle.osb_statements.specs.Stored.{AreBareRows};
ghost use Rattle.sqlite.specs.Values.{bound_value};
ghost use Rattle.sqlite_value.specs.Value.{owned};
ghost use Rattle.osb_contexts.specs.Pieces.{piece, AreNamed};
ghost use Rattle.osb_contexts.specs.Read.{HaveRowids};
ghost use Rattle.osb_contexts.specs.Inside.{ShowsSchema};
ghost use Rattle.osb_statements.specs.Inside.{with_instances, with_row, ShowsBlank, Makes, ContentSteps};
ghost use Rattle.osb_statements.specs.Instances.{no_attributes, instance_phase_number, instance_phase_numbered, standing_number, standing_decoded, attributes_shown, busy_number, instance_row_decoded, standing_row, standing_columns, instance_row, instance_cells};
ghost use Rattle.osb_statements.specs.Steps.{bare_in, ShowsTables, content};
ghost use Rattle.osb_contexts.specs.Reads.{Reads, Finds, behind, StaysInside, Does};
ghost use Rattle.osb_statements.specs.Instances as spec;
ghost use Rattle.osb_statements.specs.Shown.{AreColumnsOf};

use crate::cells::{attributes_in, number_in, text_in};
use crate::fault::StoreFault;
use crate::sql::{execute, select};
use osb_contexts::{NamedTable, are_rows_named};
use osb_orders::{Attributes, InstancePhase, Standing};
use osb_standing::InstanceRow;
use osb_standing::laws::listing_by_rows;
use osb_text::Text;
use sqlite::types::ValueRef;
use sqlite::{Alter, Error, Row, Transaction, params};
use std::alloc::Global;

/// Makes the table of the instances' current state.
pub(crate) fn create_instances<S: Alter>(tx: &mut Transaction<'_, S>) -> Result<usize, Error>
    requires { ShowsBlank orders_schema (1 ∷ 0 ∷ []) (behind S.Store tx.old) }
    ensures ok { Does S.Store tx.old tx.new result (λ old new.
        Makes old new instances_schema (3 ∷ 1 ∷ 0 ∷ [])) }
    ensures inside { StaysInside S.Store tx.old tx.new }
{
    execute(
        tx,
        "CREATE TABLE instances (instance_id TEXT NOT NULL, phase INTEGER NOT NULL, busy INTEGER NOT NULL, last_seq INTEGER NOT NULL, service_id TEXT NOT NULL, plan_id TEXT NOT NULL, organization TEXT NOT NULL, space TEXT NOT NULL, params TEXT NOT NULL, maint TEXT NOT NULL, PRIMARY KEY (instance_id)) STRICT",
        &[],
    )
}

fn phase_number(phase: InstancePhase) -> u32
    ensures { result ≡ spec.instance_phase_number phase }
{
    match phase {
        InstancePhase::Creating => 1,
        InstancePhase::Ready => 2,
        InstancePhase::Failed => 3,
        InstancePhase::Updating => 4,
        InstancePhase::Deleting => 5,
    }
}

fn instance_phase_numbered(number: u32) -> Result<InstancePhase, StoreFault>
    ensures { IsReadAs instance_phase_number instance_phase_numbered number result }
{
    match number {
        1 => Ok(InstancePhase::Creating),
        2 => Ok(InstancePhase::Ready),
        3 => Ok(InstancePhase::Failed),
        4 => Ok(InstancePhase::Updating),
        5 => Ok(InstancePhase::Deleting),
        _ => Err(StoreFault::NotOurs),
    }
}

fn busy_number(busy: bool) -> u32
    ensures { result ≡ spec.busy_number busy }
{
    if busy { 1 } else { 0 }
}

fn busy_numbered(number: u32) -> Result<bool, StoreFault>
    ensures { IsReadAs busy_number (λ n. n == 1) number result }
{
    match number {
        0 => Ok(false),
        1 => Ok(true),
        _ => Err(StoreFault::NotOurs),
    }
}

/// The state of an instance, as the columns show it.
#[derive(Clone, Copy)]
struct StandingColumns<'a> {
    phase: u32,
    service: &'a str,
    plan: &'a str,
    organization: &'a str,
    space: &'a str,
    parameters: &'a str,
    maintenance: &'a str,
}

fn columns_of(standing: &Option<Standing>) -> StandingColumns<'_>
    ensures shown { AreColumnsOf standing.now result }
    ensures texts { HaveUtf8Texts (attributes_row (attributes_shown standing.now)) }
{
    match standing {
        None => StandingColumns {
            phase: 0,
            service: "",
            plan: "",
            organization: "",
            space: "",
            parameters: "",
            maintenance: "",
        },
        Some(standing) => StandingColumns {
            phase: phase_number(standing.phase),
            service: standing.attributes.service.as_str(),
            plan: standing.attributes.plan.as_str(),
            organization: standing.attributes.place.as_str(),
            space: standing.attributes.spot.as_str(),
            parameters: standing.attributes.parameters.as_str(),
            maintenance: standing.attributes.maintenance.as_str(),
        },
    }
}

/// Whether each of the texts is empty that the columns hold.
fn are_blank(attributes: &Attributes) -> bool
    ensures { (result ≡ true) ↔
        (bare_attributes attributes.now ≡ bare_attributes no_attributes) }
{
    attributes.service.is_empty()
        && attributes.plan.is_empty()
        && attributes.place.is_empty()
        && attributes.spot.is_empty()
        && attributes.parameters.is_empty()
        && attributes.maintenance.is_empty()
}

fn standing_decoded(number: u32, attributes: Attributes) -> Result<Option<Standing>, StoreFault>
    ensures told { IfOk result (λ standing. standing ≡ standing_decoded number attributes) }
    ensures held { IfOk result (λ standing.
        (number ≡ standing_number standing)
        × (bare_attributes attributes ≡ bare_attributes (attributes_shown standing))) }
    ensures known { (standing : Option Standing) → number ≡ standing_number standing →
        bare_attributes attributes ≡ bare_attributes (attributes_shown standing) →
        result ≢ Err faults.NotOurs }
{
    if number == 0 {
        let blank = are_blank(&attributes);
        drop(attributes);
        return if blank {
            Ok(None)
        } else {
            Err(StoreFault::NotOurs)
        };
    }
    match instance_phase_numbered(number) {
        Ok(phase) => Ok(Some(Standing { phase, attributes })),
        Err(fault) => {
            drop(attributes);
            Err(fault)
        }
    }
}

/// The state of the instance of the row.
#[tactic(auto, using(crate::proofs::CodeLemmas::busy_fits, crate::proofs::CodeLemmas::standing_fits))]
fn instance_row_in(alloc: Global, row: &Row) -> Result<InstanceRow, StoreFault>
    ensures told { IfOk result (λ found. found ≡ instance_row_decoded row.now) }
    ensures held { IfOk result (λ found. standing_row found ≡ standing_columns row.now) }
    ensures texts { IfOk result (λ found. HaveUtf8Texts (standing_row found)) }
    ensures known { (entry : InstanceEntry) → row.now ≡ instance_row entry → InstanceFits entry →
        HaveUtf8Texts row.now → result ≢ Err faults.NotOurs }
{
    Ok(InstanceRow {
        busy: busy_numbered(number_in(row, 2)?)?,
        last_number: number_in(row, 3)?,
        standing: standing_decoded(number_in(row, 1)?, attributes_in(alloc, row)?)?,
    })
}

/// The state of the instance of the first row.
fn first_instance_in(alloc: Global, rows: &[Row]) -> Result<Option<InstanceRow>, StoreFault>
    ensures { IfOk result (λ found. found ≡ first_told rows.now) }
{
    match rows.first() {
        None => Ok(None),
        Some(row) => Ok(Some(instance_row_in(alloc, row)?)),
    }
}

/// The row with the id of its instance.
fn instance_in(alloc: Global, row: &Row) -> Result<(Text, InstanceRow), StoreFault>
    ensures entry { IsEntryOf instance_row instance_columns InstanceFits row.now result }
    ensures bare { IfOk result (λ entry. bare_row entry.1 ≡ entry.1) }
{
    Ok((text_in(row, 0)?, instance_row_in(alloc, row)?))
}

/// The instances of the rows, each with its id.
fn instances_in(alloc: Global, rows: &[Row]) -> Result<Vec<(Text, InstanceRow)>, StoreFault>
    ensures told { IfOk result (λ entries.
        (map instance_row entries.items ≡ map instance_columns rows.now)
        × AreBareRows entries.items × AreInUtf8 instance_row entries.items) }
    ensures known { (entries : List InstanceEntry) → rows.now ≡ map instance_row entries →
        AllByRecursion InstanceFits entries → AreInUtf8 instance_row entries →
        result ≢ Err faults.NotOurs }
{
    let mut entries = Vec::new(alloc);
    for row in rows {
        entries.push(instance_in(alloc, row)?)?;
    }
    Ok(entries)
}

/// The instance that the row names, and the number of its order.
pub(crate) fn named_in(row: &Row) -> Result<(Text, u32), StoreFault>
    ensures { IfOk result (λ named.
        (named.0 ≡ bytes (column row.now 0)) × (named.1 ≡ number_in (column row.now 1))) }
{
    Ok((text_in(row, 0)?, number_in(row, 1)?))
}

/// Runs a statement whose parameters are the columns of the row. These are UTF-8, as any `str` is.
fn execute_with<S: Alter>(
    tx: &mut Transaction<'_, S>,
    sql: &str,
    instance: &str,
    row: &InstanceRow,
) -> Result<usize, Error>
    ensures ended { (behind S.Store tx.old).in_transaction ≡ false →
        result ≡ Err (fault.SqliteFailure code.TransactionState) }
    ensures runs { HasCleanDisk (behind S.Store tx.new) →
        IsTrue (behind S.Store tx.old).in_transaction →
        ExecutesInside 0 sql.now (instance_row (instance.now, row.now)) (behind S.Store tx.old)
        (behind S.Store tx.new) result }
    ensures texts { HaveUtf8Texts (instance_row (instance.now, row.now)) }
    ensures inside { StaysInside S.Store tx.old tx.new }
{
    let columns = columns_of(&row.standing);
    execute(
        tx,
        sql,
        params![
            instance,
            columns.phase,
            busy_number(row.busy),
            row.last_number,
            columns.service,
            columns.plan,
            columns.organization,
            columns.space,
            columns.parameters,
            columns.maintenance,
        ],
    )
}

/// Inserts the row of an instance that has none.
pub(crate) fn insert_instance<S: Alter>(
    tx: &mut Transaction<'_, S>,
    instance: &str,
    row: &InstanceRow,
) -> Result<usize, Error>
    requires tables { ShowsTables (behind S.Store tx.old) }
    requires no_row { HasCleanDisk (behind S.Store tx.old) →
        IsTrue (behind S.Store tx.old).is_open →
        filter (is_instance instance.now) (content (behind S.Store tx.old)).instances ≡ [] }
    ensures ok { Does S.Store tx.old tx.new result (λ old new.
        ContentSteps old new (with_instances (insert_sorted instance_cmp
        (instance.now, bare_row row.now) (content old).instances) (content old))) }
    ensures inside { StaysInside S.Store tx.old tx.new }
{
    execute_with(
        tx,
        "INSERT INTO instances (instance_id, phase, busy, last_seq, service_id, plan_id, organization, space, params, maint) VALUES (?1, ?2, ?3, ?4, ?5, ?6, ?7, ?8, ?9, ?10)",
        instance,
        row,
    )
}

/// Gives the instance another row, where it has one.
pub(crate) fn update_instance<S: Alter>(
    tx: &mut Transaction<'_, S>,
    instance: &str,
    row: &InstanceRow,
) -> Result<usize, Error>
    requires { ShowsTables (behind S.Store tx.old) }
    ensures ok { Does S.Store tx.old tx.new result (λ old new.
        ContentSteps old new (with_instances (update_where (is_instance instance.now)
        (with_row (bare_row row.now)) (content old).instances) (content old))) }
    ensures inside { StaysInside S.Store tx.old tx.new }
{
    execute_with(
        tx,
        "UPDATE instances SET phase = ?2, busy = ?3, last_seq = ?4, service_id = ?5, plan_id = ?6, organization = ?7, space = ?8, params = ?9, maint = ?10 WHERE instance_id = ?1",
        instance,
        row,
    )
}

fn select_instance<S: Alter>(tx: &mut Transaction<'_, S>, instance: &str) -> Result<Vec<Row>, Error>
    requires { ShowsTables (behind S.Store tx.old) }
    ensures ok { Finds S.Store tx.old tx.new result (λ s rows.
        IsRowOf instance.now (first_told rows.items) (content s).instances) }
    ensures reads { Reads S.Store tx.old tx.new result }
{
    select(
        tx,
        "SELECT instance_id, phase, busy, last_seq, service_id, plan_id, organization, space, params, maint FROM instances WHERE instance_id = ?1 ORDER BY instance_id",
        params![instance],
    )
}

/// The row of the instance.
pub(crate) fn read_instance<S: Alter>(
    tx: &mut Transaction<'_, S>,
    alloc: Global,
    instance: &str,
) -> Result<Option<InstanceRow>, StoreFault>
    requires { ShowsTables (behind S.Store tx.old) }
    ensures ok { Finds S.Store tx.old tx.new result (λ s row.
        IsRowOf instance.now row (content s).instances) }
    ensures reads { Reads S.Store tx.old tx.new result }
{
    let rows = select_instance(tx, instance)?;
    first_instance_in(alloc, &rows)
}

/// The first so many instances whose last order runs and whose id is greater, each with the number
/// of that order.
fn select_busy<S: Alter>(
    tx: &mut Transaction<'_, S>,
    after: &str,
    limit: u32,
) -> Result<Vec<Row>, Error>
    requires { ShowsTables (behind S.Store tx.old) }
    ensures ok { Finds S.Store tx.old tx.new result (λ s rows.
        rows.items ≡
        map busy_row (take limit (filter (is_listed_row after.now) (content s).instances))) }
    ensures reads { Reads S.Store tx.old tx.new result }
{
    select(
        tx,
        "SELECT instance_id, last_seq FROM instances WHERE busy = 1 AND instance_id > ?1 ORDER BY instance_id LIMIT ?2",
        params![after, limit],
    )
}

/// The busy rows, whose instances and numbers are those of the lives.
pub(crate) fn read_busy<S: Alter>(
    tx: &mut Transaction<'_, S>,
    after: &str,
    limit: u32,
) -> Result<Vec<Row>, Error>
    requires { ShowsRecords (behind S.Store tx.old) }
    ensures ok { Finds S.Store tx.old tx.new result (λ s rows.
        (found : List (List ℕ × Order)) → map Some found ≡ map (order_for (bare_in s)) rows.items →
        found ≡ listing (bare_in s) after.now limit) }
    ensures reads { Reads S.Store tx.old tx.new result }
{
    listing_by_rows();
    select_busy(tx, after, limit)
}

/// The first instance with an id above this one.
pub(crate) fn select_next<S: Alter>(
    tx: &mut Transaction<'_, S>,
    after: &str,
) -> Result<Vec<Row>, Error>
    requires { ShowsTables (behind S.Store tx.old) }
    ensures ok { Finds S.Store tx.old tx.new result (λ s rows.
        rows.items ≡ map id_row (take 1 (filter (is_above after.now) (content s).instances))) }
    ensures reads { Reads S.Store tx.old tx.new result }
{
    select(
        tx,
        "SELECT instance_id FROM instances WHERE instance_id > ?1 ORDER BY instance_id LIMIT 1",
        params![after],
    )
}

/// Whether each row of an instance has the id of an instance. Rows without rowids of their own are refused.
pub(crate) fn are_instances_named<S: Alter>(
    tx: &mut Transaction<'_, S>,
    alloc: Global,
) -> Result<bool, StoreFault>
    requires { ShowsSchema second_schema (behind S.Store tx.old) }
    ensures ok { Finds S.Store tx.old tx.new result (λ s yes.
        HaveRowids (s.now.trees 3) × ((yes ≡ true) ↔ AreNamed (s.now.trees 3))) }
    ensures reads { Reads S.Store tx.old tx.new result }
    ensures refused { IfErr result IsRefused }
{
    Ok(are_rows_named(tx, alloc, NamedTable::Instances)?)
}

/// The rows of the instances with ids above the first and up to the second, by their keys.
pub(crate) fn read_instances_between<S: Alter>(
    tx: &mut Transaction<'_, S>,
    alloc: Global,
    after: &str,
    to: ValueRef<'_>,
) -> Result<Vec<(Text, InstanceRow)>, StoreFault>
    requires { ShowsSchema second_schema (behind S.Store tx.old) }
    ensures ok { Finds S.Store tx.old tx.new result (λ s entries. HaveRowids (s.now.trees 3) →
        AreInstancesOf (piece after.now (bound_value (owned to.entry)) s.now.trees) entries.items) }
    ensures reads { Reads S.Store tx.old tx.new result }
    ensures known { HasCleanDisk (behind S.Store tx.new) → (instances : List InstanceEntry) →
        Stores instance_cells instance_row instance_cmp
        (piece after.now (bound_value (owned to.entry))
        (behind S.Store tx.old).now.trees 3) instances → AllByRecursion InstanceFits instances →
        result ≢ Err faults.NotOurs }
{
    let rows = select(
        tx,
        "SELECT instance_id, phase, busy, last_seq, service_id, plan_id, organization, space, params, maint FROM instances WHERE instance_id > ?1 AND instance_id <= ?2 ORDER BY instance_id",
        &[ValueRef::Text(after.as_bytes()), to],
    )?;
    instances_in(alloc, &rows)
}
