//! The table of the current state of bindings: its columns, its rows, and the statements on it.

ghost use Rattle.std.specs.Prelude.{◌≡◌, ◌≢◌, ◌==◌, ⊤, List, map, Err, IfOk, [], ◌∷◌, IsTrue, filter, false, not, length, ◌↔◌, true, IfErr};
ghost use Rattle.std.specs.List.{list_any};
ghost use Rattle.sqlite.specs.State.{HasCleanDisk, ExecutesInside};
ghost use Rattle.sqlite.specs.declared.error.Error.TheVariants as fault;
ghost use Rattle.sqlite.specs.declared.error.ErrorCode.TheVariants as code;
ghost use Rattle.sqlite_keyed.specs.Lists.{insert_sorted, update_where, delete_where};
ghost use Rattle.osb_audit.specs.declared.entry.BindingEntry.{BindingEntry};
ghost use Rattle.osb_audit.specs.Bindings.{binding_now, binding_cmp, binding_entry, is_binding, is_bound};
ghost use Rattle.osb_tables.specs.Tables.{second_schema, instances_schema, tables_schema};
ghost use Rattle.osb_statements.specs.Causes.{IsRefused};
ghost use Rattle.osb_statements.specs.declared.fault.StoreFault.TheVariants as faults;
ghost use Rattle.osb_rows.specs.Rows.{Stores, HaveUtf8Texts, AreInUtf8};
ghost use Rattle.osb_statements.specs.Read.{IsReadAs, IsEntryOf, AreBindingsOf, binding_columns};
ghost use Rattle.sqlite.specs.Values.{bound_value};
ghost use Rattle.sqlite_value.specs.Value.{owned};
ghost use Rattle.osb_contexts.specs.Pieces.{piece, AreNamed};
ghost use Rattle.osb_contexts.specs.Read.{HaveRowids};
ghost use Rattle.osb_contexts.specs.Inside.{ShowsSchema};
ghost use Rattle.osb_statements.specs.Inside.{with_bindings, ShowsBlank, Makes, ContentSteps};
ghost use Rattle.osb_statements.specs.Bindings.{binding_phase_number, binding_phase_numbered, binding_decoded, binding_row, binding_cells};
ghost use Rattle.osb_statements.specs.Steps.{ShowsTables, content};
ghost use Rattle.osb_contexts.specs.Reads.{Reads, Finds, behind, StaysInside, Does};
ghost use Rattle.osb_statements.specs.Bindings as spec;
ghost use Rattle.osb_statements.specs.BindingRows.{binding_found, first_binding, with_binding_row};

use crate::cells::{number_in, text_in};
use crate::fault::StoreFault;
use crate::sql::{execute, select};
use osb_audit::BindingEntry;
use osb_contexts::{NamedTable, are_rows_named};
use osb_orders::{Attributes, BindingNow, BindingPhase};
use osb_text::Text;
use sqlite::types::ValueRef;
use sqlite::{Alter, Error, Row, Transaction, params};
use std::alloc::Global;

/// Makes the table of the bindings' current state.
pub(crate) fn create_bindings<S: Alter>(tx: &mut Transaction<'_, S>) -> Result<usize, Error>
    requires { ShowsBlank instances_schema (3 ∷ 1 ∷ 0 ∷ []) (behind S.Store tx.old) }
    ensures ok { Does S.Store tx.old tx.new result (λ old new.
        Makes old new tables_schema (5 ∷ 3 ∷ 1 ∷ 0 ∷ [])) }
    ensures inside { StaysInside S.Store tx.old tx.new }
{
    execute(
        tx,
        "CREATE TABLE bindings (instance_id TEXT NOT NULL, binding_id TEXT NOT NULL, phase INTEGER NOT NULL, service_id TEXT NOT NULL, plan_id TEXT NOT NULL, app_guid TEXT NOT NULL, bind_resource TEXT NOT NULL, params TEXT NOT NULL, credentials TEXT NOT NULL, PRIMARY KEY (instance_id, binding_id)) STRICT",
        &[],
    )
}

fn phase_number(phase: BindingPhase) -> u32
    ensures { result ≡ spec.binding_phase_number phase }
{
    match phase {
        BindingPhase::Binding => 1,
        BindingPhase::Bound => 2,
        BindingPhase::Failed => 3,
        BindingPhase::Unbinding => 4,
    }
}

fn binding_phase_numbered(number: u32) -> Result<BindingPhase, StoreFault>
    ensures { IsReadAs binding_phase_number binding_phase_numbered number result }
{
    match number {
        1 => Ok(BindingPhase::Binding),
        2 => Ok(BindingPhase::Bound),
        3 => Ok(BindingPhase::Failed),
        4 => Ok(BindingPhase::Unbinding),
        _ => Err(StoreFault::NotOurs),
    }
}

/// The attributes of a binding, which has no maintenance version and no context.
fn binding_attributes_in(alloc: Global, row: &Row) -> Result<Attributes, StoreFault>
    ensures { IfOk result (λ attributes.
        attributes ≡ (binding_now (binding_decoded row.now)).attributes) }
{
    Ok(Attributes {
        service: text_in(row, 3)?,
        plan: text_in(row, 4)?,
        place: text_in(row, 5)?,
        spot: text_in(row, 6)?,
        parameters: text_in(row, 7)?,
        maintenance: Text::new(alloc),
        context: Text::from_str(alloc, "{}")?,
    })
}

/// The state of the binding of the row.
fn binding_in(alloc: Global, row: &Row) -> Result<BindingNow, StoreFault>
    ensures { IfOk result (λ binding. binding ≡ binding_now (binding_decoded row.now)) }
{
    Ok(BindingNow {
        phase: binding_phase_numbered(number_in(row, 2)?)?,
        credentials: text_in(row, 8)?,
        attributes: binding_attributes_in(alloc, row)?,
    })
}

fn first_binding_in(alloc: Global, rows: &[Row]) -> Result<Option<BindingNow>, StoreFault>
    ensures { IfOk result (λ row. row ≡ first_binding rows.now) }
{
    match rows.first() {
        None => Ok(None),
        Some(row) => Ok(Some(binding_in(alloc, row)?)),
    }
}

#[tactic(auto, using(crate::proofs::CodeLemmas::binding_phase_fits))]
fn binding_entry_in(row: &Row) -> Result<BindingEntry, StoreFault>
    ensures { IsEntryOf binding_row binding_columns (λ _. ⊤) row.now result }
{
    Ok(BindingEntry {
        phase: binding_phase_numbered(number_in(row, 2)?)?,
        instance: text_in(row, 0)?,
        binding: text_in(row, 1)?,
        service: text_in(row, 3)?,
        plan: text_in(row, 4)?,
        app_guid: text_in(row, 5)?,
        bind_resource: text_in(row, 6)?,
        parameters: text_in(row, 7)?,
        credentials: text_in(row, 8)?,
    })
}

/// The bindings of the rows.
fn bindings_in(alloc: Global, rows: &[Row]) -> Result<Vec<BindingEntry>, StoreFault>
    ensures told { IfOk result (λ entries.
        (map binding_row entries.items ≡ map binding_columns rows.now)
        × AreInUtf8 binding_row entries.items) }
    ensures known { (entries : List BindingEntry) → rows.now ≡ map binding_row entries →
        AreInUtf8 binding_row entries → result ≢ Err faults.NotOurs }
{
    let mut entries = Vec::new(alloc);
    for row in rows {
        entries.push(binding_entry_in(row)?)?;
    }
    Ok(entries)
}

/// Runs a statement whose parameters are the columns of the row. These are UTF-8, as any `str` is.
fn execute_with<S: Alter>(
    tx: &mut Transaction<'_, S>,
    sql: &str,
    instance: &str,
    binding: &str,
    row: &BindingNow,
) -> Result<usize, Error>
    ensures ended { (behind S.Store tx.old).in_transaction ≡ false →
        result ≡ Err (fault.SqliteFailure code.TransactionState) }
    ensures runs { HasCleanDisk (behind S.Store tx.new) →
        IsTrue (behind S.Store tx.old).in_transaction →
        ExecutesInside 0 sql.now (binding_row (binding_entry instance.now
        (binding.now, row.now))) (behind S.Store tx.old) (behind S.Store tx.new) result }
    ensures texts { HaveUtf8Texts (binding_row (binding_entry instance.now
        (binding.now, row.now))) }
    ensures inside { StaysInside S.Store tx.old tx.new }
{
    execute(
        tx,
        sql,
        params![
            instance,
            binding,
            phase_number(row.phase),
            row.attributes.service.as_str(),
            row.attributes.plan.as_str(),
            row.attributes.place.as_str(),
            row.attributes.spot.as_str(),
            row.attributes.parameters.as_str(),
            row.credentials.as_str(),
        ],
    )
}

/// Inserts the row of a binding that has none.
pub(crate) fn insert_binding<S: Alter>(
    tx: &mut Transaction<'_, S>,
    instance: &str,
    binding: &str,
    row: &BindingNow,
) -> Result<usize, Error>
    requires tables { ShowsTables (behind S.Store tx.old) }
    requires no_row { HasCleanDisk (behind S.Store tx.old) →
        IsTrue (behind S.Store tx.old).is_open →
        filter (is_binding instance.now binding.now) (content (behind S.Store tx.old)).bindings ≡
        [] }
    ensures ok { Does S.Store tx.old tx.new result (λ old new.
        ContentSteps old new (with_bindings (insert_sorted binding_cmp
        (binding_entry instance.now (binding.now, row.now)) (content old).bindings)
        (content old))) }
    ensures inside { StaysInside S.Store tx.old tx.new }
{
    execute_with(
        tx,
        "INSERT INTO bindings (instance_id, binding_id, phase, service_id, plan_id, app_guid, bind_resource, params, credentials) VALUES (?1, ?2, ?3, ?4, ?5, ?6, ?7, ?8, ?9)",
        instance,
        binding,
        row,
    )
}

/// Gives the binding another row, where it has one.
pub(crate) fn update_binding<S: Alter>(
    tx: &mut Transaction<'_, S>,
    instance: &str,
    binding: &str,
    row: &BindingNow,
) -> Result<usize, Error>
    requires { ShowsTables (behind S.Store tx.old) }
    ensures ok { Does S.Store tx.old tx.new result (λ old new.
        ContentSteps old new (with_bindings (update_where (is_binding instance.now binding.now)
        (with_binding_row row.now) (content old).bindings) (content old))) }
    ensures inside { StaysInside S.Store tx.old tx.new }
{
    execute_with(
        tx,
        "UPDATE bindings SET phase = ?3, service_id = ?4, plan_id = ?5, app_guid = ?6, bind_resource = ?7, params = ?8, credentials = ?9 WHERE instance_id = ?1 AND binding_id = ?2",
        instance,
        binding,
        row,
    )
}

/// Takes the row of the binding away.
pub(crate) fn delete_binding<S: Alter>(
    tx: &mut Transaction<'_, S>,
    instance: &str,
    binding: &str,
) -> Result<usize, Error>
    requires { ShowsTables (behind S.Store tx.old) }
    ensures ok { Does S.Store tx.old tx.new result (λ old new.
        ContentSteps old new (with_bindings (delete_where (is_binding instance.now binding.now)
        (content old).bindings) (content old))) }
    ensures inside { StaysInside S.Store tx.old tx.new }
{
    execute(
        tx,
        "DELETE FROM bindings WHERE instance_id = ?1 AND binding_id = ?2",
        params![instance, binding],
    )
}

/// Takes the rows of all bindings of the instance away.
pub(crate) fn delete_bindings<S: Alter>(
    tx: &mut Transaction<'_, S>,
    instance: &str,
) -> Result<usize, Error>
    requires { ShowsTables (behind S.Store tx.old) }
    ensures ok { Does S.Store tx.old tx.new result (λ old new.
        ContentSteps old new (with_bindings (delete_where (is_bound instance.now)
        (content old).bindings) (content old))) }
    ensures inside { StaysInside S.Store tx.old tx.new }
{
    execute(
        tx,
        "DELETE FROM bindings WHERE instance_id = ?1",
        params![instance],
    )
}

fn select_binding<S: Alter>(
    tx: &mut Transaction<'_, S>,
    instance: &str,
    binding: &str,
) -> Result<Vec<Row>, Error>
    requires { ShowsTables (behind S.Store tx.old) }
    ensures ok { Finds S.Store tx.old tx.new result (λ s rows.
        first_binding rows.items ≡ binding_found instance.now binding.now (content s).bindings) }
    ensures reads { Reads S.Store tx.old tx.new result }
{
    select(
        tx,
        "SELECT instance_id, binding_id, phase, service_id, plan_id, app_guid, bind_resource, params, credentials FROM bindings WHERE instance_id = ?1 AND binding_id = ?2 ORDER BY instance_id, binding_id",
        params![instance, binding],
    )
}

/// The row of the binding.
pub(crate) fn read_binding<S: Alter>(
    tx: &mut Transaction<'_, S>,
    alloc: Global,
    instance: &str,
    binding: &str,
) -> Result<Option<BindingNow>, StoreFault>
    requires { ShowsTables (behind S.Store tx.old) }
    ensures ok { Finds S.Store tx.old tx.new result (λ s row.
        row ≡ binding_found instance.now binding.now (content s).bindings) }
    ensures reads { Reads S.Store tx.old tx.new result }
{
    let rows = select_binding(tx, instance, binding)?;
    first_binding_in(alloc, &rows)
}

fn select_bound<S: Alter>(tx: &mut Transaction<'_, S>, instance: &str) -> Result<Vec<Row>, Error>
    requires { ShowsTables (behind S.Store tx.old) }
    ensures ok { Finds S.Store tx.old tx.new result (λ s rows.
        (length rows.items == 0) ≡ not (list_any (is_bound instance.now) (content s).bindings)) }
    ensures reads { Reads S.Store tx.old tx.new result }
{
    select(
        tx,
        "SELECT instance_id, binding_id, phase, service_id, plan_id, app_guid, bind_resource, params, credentials FROM bindings WHERE instance_id = ?1 ORDER BY instance_id, binding_id LIMIT 1",
        params![instance],
    )
}

/// Whether a binding of the instance has a row.
pub(crate) fn is_bound<S: Alter>(
    tx: &mut Transaction<'_, S>,
    instance: &str,
) -> Result<bool, StoreFault>
    requires { ShowsTables (behind S.Store tx.old) }
    ensures ok { Finds S.Store tx.old tx.new result (λ s bound.
        bound ≡ list_any (is_bound instance.now) (content s).bindings) }
    ensures reads { Reads S.Store tx.old tx.new result }
{
    let rows = select_bound(tx, instance)?;
    Ok(!rows.is_empty())
}

/// Whether each row of a binding has the id of an instance. Rows without rowids of their own are refused.
pub(crate) fn are_bindings_named<S: Alter>(
    tx: &mut Transaction<'_, S>,
    alloc: Global,
) -> Result<bool, StoreFault>
    requires { ShowsSchema second_schema (behind S.Store tx.old) }
    ensures ok { Finds S.Store tx.old tx.new result (λ s yes.
        HaveRowids (s.now.trees 5) × ((yes ≡ true) ↔ AreNamed (s.now.trees 5))) }
    ensures reads { Reads S.Store tx.old tx.new result }
    ensures refused { IfErr result IsRefused }
{
    Ok(are_rows_named(tx, alloc, NamedTable::Bindings)?)
}

/// The rows of the bindings of the instances with ids above the first and up to the second, by their keys.
pub(crate) fn read_bindings_between<S: Alter>(
    tx: &mut Transaction<'_, S>,
    alloc: Global,
    after: &str,
    to: ValueRef<'_>,
) -> Result<Vec<BindingEntry>, StoreFault>
    requires { ShowsSchema second_schema (behind S.Store tx.old) }
    ensures ok { Finds S.Store tx.old tx.new result (λ s entries. HaveRowids (s.now.trees 5) →
        AreBindingsOf (piece after.now (bound_value (owned to.entry)) s.now.trees) entries.items) }
    ensures reads { Reads S.Store tx.old tx.new result }
    ensures known { HasCleanDisk (behind S.Store tx.new) → (bindings : List BindingEntry) →
        Stores binding_cells binding_row binding_cmp (piece after.now (bound_value (owned to.entry))
        (behind S.Store tx.old).now.trees 5) bindings → result ≢ Err faults.NotOurs }
{
    let rows = select(
        tx,
        "SELECT instance_id, binding_id, phase, service_id, plan_id, app_guid, bind_resource, params, credentials FROM bindings WHERE instance_id > ?1 AND instance_id <= ?2 ORDER BY instance_id, binding_id",
        &[ValueRef::Text(after.as_bytes()), to],
    )?;
    bindings_in(alloc, &rows)
}
