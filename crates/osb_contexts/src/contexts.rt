//! The table of contexts: its rows, and the statements on it.

ghost use Rattle.std.specs.Prelude.{◌≡◌, ◌≢◌, ◌↔◌, true, List, [], ◌∷◌, IsTrue, None, Ok, map, filter, IfOk, IfErr, IfSome};
ghost use Rattle.std.specs.List.{AllByRecursion};
ghost use Rattle.sqlite.specs.State.{HasCleanDisk};
ghost use Rattle.sqlite.specs.Values.{bound_value};
ghost use Rattle.sqlite_value.specs.Value.{owned};
ghost use Rattle.sqlite_keyed.specs.Lists.{insert_sorted, update_where};
ghost use Rattle.osb_tables.specs.Tables.{tables_schema, second_schema};
ghost use Rattle.osb_joined.specs.declared.entry.ContextEntry.{ContextEntry};
ghost use Rattle.osb_joined.specs.Contexts.{context_entry, context_cmp, is_context, with_context, AreRising};
ghost use Rattle.osb_rows.specs.Rows.{HaveUtf8Texts, AreInUtf8};
ghost use Rattle.osb_contexts.specs.Contexts.{context_row, HoldsContexts, AreContextsOf, ContextFits};
ghost use Rattle.osb_contexts.specs.Pieces.{piece, AreNamed};
ghost use Rattle.osb_contexts.specs.Read.{HaveRowids, IsUnfit, context_columns, context_shown};
ghost use Rattle.osb_contexts.specs.Inside.{ShowsSchema};
ghost use Rattle.osb_contexts.specs.Made.{MakesContexts};
ghost use Rattle.osb_contexts.specs.Steps.{contexts, ShowsContexts, ContextSteps};
ghost use Rattle.osb_contexts.specs.Reads.{Reads, Finds, behind, StaysInside, Does};

use crate::cells::{number_in, text_in};
use crate::pages::{NamedTable, are_rows_named};
use crate::sql::{execute, select};
use osb_joined::ContextEntry;
use osb_text::Text;
use sqlite::types::ValueRef;
use sqlite::{Alter, Error, Row, Transaction, params};
use std::alloc::Global;

/// Makes the table of contexts behind the tables of version 1, which have no index.
pub(crate) fn create_contexts<S: Alter>(tx: &mut Transaction<'_, S>) -> Result<usize, Error>
    requires { ShowsSchema tables_schema (behind S.Store tx.old) }
    ensures ok { Does S.Store tx.old tx.new result (λ old new. MakesContexts old new) }
    ensures inside { StaysInside S.Store tx.old tx.new }
{
    execute(
        tx,
        "CREATE TABLE contexts (instance_id TEXT NOT NULL, seq INTEGER NOT NULL, context TEXT NOT NULL, PRIMARY KEY (instance_id, seq)) STRICT",
        &[],
    )
}

/// Inserts the context of an order, unless there is one. The number 0 names the context of the current state.
pub fn insert_context<S: Alter>(
    tx: &mut Transaction<'_, S>,
    instance: &str,
    number: u32,
    context: &str,
) -> Result<usize, Error>
    requires tables { ShowsContexts (behind S.Store tx.old) }
    requires no_row { HasCleanDisk (behind S.Store tx.old) →
        IsTrue (behind S.Store tx.old).is_open →
        filter (is_context instance.now number) (contexts (behind S.Store tx.old)) ≡ [] }
    ensures ok { Does S.Store tx.old tx.new result (λ old new.
        ContextSteps old new (insert_sorted context_cmp
        (context_entry instance.now number context.now) (contexts old))) }
    ensures inside { StaysInside S.Store tx.old tx.new }
{
    execute(
        tx,
        "INSERT INTO contexts (instance_id, seq, context) VALUES (?1, ?2, ?3)",
        params![instance, number, context],
    )
}

/// Gives the key this context, where it has another one. A row that has it isn't written.
pub fn update_context<S: Alter>(
    tx: &mut Transaction<'_, S>,
    instance: &str,
    number: u32,
    context: &str,
) -> Result<usize, Error>
    requires { ShowsContexts (behind S.Store tx.old) }
    ensures ok { Does S.Store tx.old tx.new result (λ old new.
        ContextSteps old new (update_where (is_context instance.now number)
        (with_context context.now) (contexts old))) }
    ensures inside { StaysInside S.Store tx.old tx.new }
{
    execute(
        tx,
        "UPDATE contexts SET context = ?1 WHERE instance_id = ?2 AND seq = ?3 AND context <> ?1",
        params![context, instance, number],
    )
}

fn select_context<S: Alter>(
    tx: &mut Transaction<'_, S>,
    instance: &str,
    number: u32,
) -> Result<Vec<Row>, Error>
    requires { ShowsContexts (behind S.Store tx.old) }
    ensures ok { Finds S.Store tx.old tx.new result (λ s rows.
        (rows.items ≡ map context_shown (filter (is_context instance.now number) (contexts s)))
        × AreRising (contexts s)) }
    ensures reads { Reads S.Store tx.old tx.new result }
{
    select(
        tx,
        "SELECT context FROM contexts WHERE instance_id = ?1 AND seq = ?2 ORDER BY instance_id, seq",
        params![instance, number],
    )
}

/// The context of the key. Where there is none, that is an error.
pub fn read_context<S: Alter>(
    tx: &mut Transaction<'_, S>,
    instance: &str,
    number: u32,
) -> Result<Text, Error>
    requires { ShowsContexts (behind S.Store tx.old) }
    ensures ok { Finds S.Store tx.old tx.new result (λ s context.
        filter (is_context instance.now number) (contexts s) ≡
        context_entry instance.now number context ∷ []) }
    ensures reads { Reads S.Store tx.old tx.new result }
{
    let rows = select_context(tx, instance, number)?;
    match rows.first() {
        Some(row) => text_in(row, 0),
        None => Err(Error::QueryReturnedNoRows),
    }
}

fn entry_in(row: &Row) -> Result<ContextEntry, Error>
    ensures told { IfOk result (λ entry. context_row entry ≡ context_columns row.now) }
    ensures texts { IfOk result (λ entry. HaveUtf8Texts (context_row entry)) }
    ensures known { (entry : ContextEntry) → row.now ≡ context_row entry → ContextFits entry →
        HaveUtf8Texts row.now → IfErr result (λ error. ¬ IsUnfit error) }
{
    Ok(ContextEntry {
        number: number_in(row, 1)?,
        instance: text_in(row, 0)?,
        context: text_in(row, 2)?,
    })
}

/// The entries that the rows show.
fn entries_in(alloc: Global, rows: &[Row]) -> Result<Vec<ContextEntry>, Error>
    ensures told { IfOk result (λ entries.
        map context_row entries.items ≡ map context_columns rows.now) }
    ensures texts { IfOk result (λ entries. AreInUtf8 context_row entries.items) }
    ensures known { (entries : List ContextEntry) → rows.now ≡ map context_row entries →
        AllByRecursion ContextFits entries → AreInUtf8 context_row entries →
        IfErr result (λ error. ¬ IsUnfit error) }
{
    let mut entries = Vec::new(alloc);
    for row in rows {
        entries.push(entry_in(row)?)?;
    }
    Ok(entries)
}

/// Whether each row of a context has the id of an instance. Rows without rowids of their own are refused.
pub fn are_contexts_named<S: Alter>(
    tx: &mut Transaction<'_, S>,
    alloc: Global,
) -> Result<bool, Error>
    requires { ShowsSchema second_schema (behind S.Store tx.old) }
    ensures ok { Finds S.Store tx.old tx.new result (λ s yes.
        HaveRowids (s.now.trees 7) × ((yes ≡ true) ↔ AreNamed (s.now.trees 7))) }
    ensures reads { Reads S.Store tx.old tx.new result }
{
    are_rows_named(tx, alloc, NamedTable::Contexts)
}

/// The rows of the contexts of the instances with ids above the first and up to the second, by their keys; none
/// where a number isn't one of 32 bits, as each order's is, or a text isn't UTF-8.
pub fn read_contexts<S: Alter>(
    tx: &mut Transaction<'_, S>,
    alloc: Global,
    after: &str,
    to: ValueRef<'_>,
) -> Result<Option<Vec<ContextEntry>>, Error>
    requires { ShowsSchema second_schema (behind S.Store tx.old) }
    ensures ok { Finds S.Store tx.old tx.new result (λ s read. IfSome read (λ entries.
        HaveRowids (s.now.trees 7) →
        AreContextsOf (piece after.now (bound_value (owned to.entry)) s.now.trees) entries.items)) }
    ensures reads { Reads S.Store tx.old tx.new result }
    ensures known { HasCleanDisk (behind S.Store tx.new) → (entries : List ContextEntry) →
        HoldsContexts entries (piece after.now (bound_value (owned to.entry))
        (behind S.Store tx.old).now.trees) → AllByRecursion ContextFits entries →
        result ≢ Ok None }
{
    let rows = select(
        tx,
        "SELECT instance_id, seq, context FROM contexts WHERE instance_id > ?1 AND instance_id <= ?2 ORDER BY instance_id, seq",
        &[ValueRef::Text(after.as_bytes()), to],
    )?;
    match entries_in(alloc, &rows) {
        Ok(entries) => Ok(Some(entries)),
        Err(Error::IntegralValueOutOfRange(_) | Error::Utf8Error(_)) => Ok(None),
        Err(error) => Err(error),
    }
}
