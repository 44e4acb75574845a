//! The ids of a table's rows, and whether the rows have ids of instances, in pages.

ghost use Rattle.std.specs.Prelude.{◌≡◌, ◌↔◌, ◌<◌, not, true, false, IfOk, length};
ghost use Rattle.sqlite.specs.declared.types.Value.TheVariants.{Int};
ghost use Rattle.osb_tables.specs.Tables.{second_schema};
ghost use Rattle.osb_contexts.specs.Inside.{ShowsSchema};
ghost use Rattle.osb_contexts.specs.Pages.{tree_of, is_below, IsPage, IsNext, IsPageOf, AreRead, AreReadTo};
ghost use Rattle.osb_contexts.specs.Pieces.{AreNamed};
ghost use Rattle.osb_contexts.specs.Read.{HaveRowids};
ghost use Rattle.osb_contexts.specs.Reads.{Reads, MayRead, Finds, MayFind, behind};

use crate::cells::{are_named, check_rowids};
use crate::sql::select;
use sqlite::{Alter, Error, ErrorCode, Row, Transaction, params};
use std::alloc::Global;

/// A page has so many rows.
const ROWS: u32 = 4_096;

/// A table whose first column is the id of an instance.
#[derive(Clone, Copy, Debug, PartialEq, Eq)]
pub enum NamedTable {
    Orders,
    Instances,
    Bindings,
    Contexts,
}

/// Whether the rows so far have ids of instances, and the row id that the next page begins at.
#[derive(Clone, Copy)]
pub(crate) struct Page {
    named: bool,
    next: Option<i64>,
}

/// The first so many rows.
fn select_first<S: Alter>(
    tx: &mut Transaction<'_, S>,
    table: NamedTable,
    most: u32,
) -> Result<Vec<Row>, Error>
    requires { ShowsSchema second_schema (behind S.Store tx.old) }
    ensures ok { Finds S.Store tx.old tx.new result (λ s rows.
        IsPage (λ _. true) most (s.now.trees (tree_of table)) rows.items) }
    ensures reads { Reads S.Store tx.old tx.new result }
{
    match table {
        NamedTable::Orders => select(
            tx,
            "SELECT rowid, instance_id > '' AND instance_id <= x'' AS named FROM orders ORDER BY rowid LIMIT ?1",
            params![most],
        ),
        NamedTable::Instances => select(
            tx,
            "SELECT rowid, instance_id > '' AND instance_id <= x'' AS named FROM instances ORDER BY rowid LIMIT ?1",
            params![most],
        ),
        NamedTable::Bindings => select(
            tx,
            "SELECT rowid, instance_id > '' AND instance_id <= x'' AS named FROM bindings ORDER BY rowid LIMIT ?1",
            params![most],
        ),
        NamedTable::Contexts => select(
            tx,
            "SELECT rowid, instance_id > '' AND instance_id <= x'' AS named FROM contexts ORDER BY rowid LIMIT ?1",
            params![most],
        ),
    }
}

/// The first so many rows from this id on.
fn select_from<S: Alter>(
    tx: &mut Transaction<'_, S>,
    table: NamedTable,
    most: u32,
    id: i64,
) -> Result<Vec<Row>, Error>
    requires { ShowsSchema second_schema (behind S.Store tx.old) }
    ensures ok { Finds S.Store tx.old tx.new result (λ s rows. IsPage
        (λ row. not (is_below (Int id) row)) most (s.now.trees (tree_of table)) rows.items) }
    ensures reads { Reads S.Store tx.old tx.new result }
{
    match table {
        NamedTable::Orders => select(
            tx,
            "SELECT rowid, instance_id > '' AND instance_id <= x'' AS named FROM orders WHERE rowid >= ?1 ORDER BY rowid LIMIT ?2",
            params![id, most],
        ),
        NamedTable::Instances => select(
            tx,
            "SELECT rowid, instance_id > '' AND instance_id <= x'' AS named FROM instances WHERE rowid >= ?1 ORDER BY rowid LIMIT ?2",
            params![id, most],
        ),
        NamedTable::Bindings => select(
            tx,
            "SELECT rowid, instance_id > '' AND instance_id <= x'' AS named FROM bindings WHERE rowid >= ?1 ORDER BY rowid LIMIT ?2",
            params![id, most],
        ),
        NamedTable::Contexts => select(
            tx,
            "SELECT rowid, instance_id > '' AND instance_id <= x'' AS named FROM contexts WHERE rowid >= ?1 ORDER BY rowid LIMIT ?2",
            params![id, most],
        ),
    }
}

fn has_fewer(rows: &[Row], most: u32) -> bool
    ensures { result ≡ true → length rows.now < most }
{
    match u32::try_from(rows.len()) {
        Ok(count) => count < most,
        Err(_) => false,
    }
}

/// The last row's id, if there are as many rows as were asked for.
fn next_of(rows: &[Row], most: u32) -> Result<Option<i64>, Error>
    ensures { IfOk result (IsNext most rows.now) }
{
    if has_fewer(rows, most) {
        return Ok(None);
    }
    match rows.last() {
        Some(row) => Ok(Some(row.get(0)?)),
        None => Err(Error::QueryReturnedNoRows),
    }
}

/// What the rows say. Rows without rising row ids are refused.
fn page_of(alloc: Global, rows: &[Row], most: u32) -> Result<Page, Error>
    ensures { IfOk result (IsPageOf most rows.now) }
{
    check_rowids(alloc, rows)?;
    Ok(Page {
        named: are_named(rows)?,
        next: next_of(rows, most)?,
    })
}

fn read_first<S: Alter>(
    tx: &mut Transaction<'_, S>,
    alloc: Global,
    table: NamedTable,
    most: u32,
) -> Result<Page, Error>
    requires { ShowsSchema second_schema (behind S.Store tx.old) }
    ensures ok { Finds S.Store tx.old tx.new result (λ s page.
        AreReadTo (s.now.trees (tree_of table)) page.named page.next) }
    ensures reads { Reads S.Store tx.old tx.new result }
{
    let rows = select_first(tx, table, most)?;
    page_of(alloc, &rows, most)
}

/// The next page begins with the last row of the one before, so no row of the same id is left out.
fn read_next<S: Alter>(
    tx: &mut Transaction<'_, S>,
    alloc: Global,
    table: NamedTable,
    most: u32,
    named: bool,
    id: i64,
) -> Result<Page, Error>
    requires { ShowsSchema second_schema (behind S.Store tx.old) }
    ensures ok { Finds S.Store tx.old tx.new result (λ s page.
        AreReadTo (s.now.trees (tree_of table)) named (Some id) →
        AreReadTo (s.now.trees (tree_of table)) page.named page.next) }
    ensures reads { Reads S.Store tx.old tx.new result }
{
    let rows = select_from(tx, table, most, id)?;
    let page = page_of(alloc, &rows, most)?;
    Ok(Page {
        named: named && page.named,
        next: page.next,
    })
}

/// Reads what is behind this page.
fn read_on<S: Alter>(
    tx: &mut Transaction<'_, S>,
    alloc: Global,
    table: NamedTable,
    first: Page,
) -> Result<bool, Error>
    requires { ShowsSchema second_schema (behind S.Store tx.old) }
    ensures ok { MayFind S.Store tx.old tx.new result (λ s yes.
        AreReadTo (s.now.trees (tree_of table)) first.named first.next →
        AreRead (s.now.trees (tree_of table)) yes) }
    ensures reads { MayRead S.Store tx.old tx.new result }
{
    let mut page = first;
    for _ in 0..u64::MAX {
        let Some(id) = page.next else {
            return Ok(page.named);
        };
        page = read_next(tx, alloc, table, ROWS, page.named, id)?;
    }
    Err(Error::SqliteFailure(ErrorCode::NotADatabase))
}

/// Whether each row of the table has the id of an instance. Rows without row ids of their own are refused.
pub fn are_rows_named<S: Alter>(
    tx: &mut Transaction<'_, S>,
    alloc: Global,
    table: NamedTable,
) -> Result<bool, Error>
    requires { ShowsSchema second_schema (behind S.Store tx.old) }
    ensures ok { Finds S.Store tx.old tx.new result (λ s yes.
        HaveRowids (s.now.trees (tree_of table))
        × ((yes ≡ true) ↔ AreNamed (s.now.trees (tree_of table)))) }
    ensures reads { Reads S.Store tx.old tx.new result }
{
    let first = read_first(tx, alloc, table, ROWS)?;
    read_on(tx, alloc, table, first)
}
