//! Cells of a row as values.

ghost use Rattle.std.specs.Prelude.{◌≡◌, ◌≢◌, ◌<◌, ◌^◌, ℕ, true, pos, map, Err, IfOk, IfErr, OnOk};
ghost use Rattle.std.specs.Str.{is_utf8};
ghost use Rattle.std.specs.Ordering.{nat_cmp};
ghost use Rattle.std.specs.List.Sorted.{IsStrictlySortedBy};
ghost use Rattle.sqlite.specs.declared.types.Value.TheVariants.{Int, Text as Words};
ghost use Rattle.sqlite.specs.Order.{column, bytes};
ghost use Rattle.sqlite_trees.specs.Tree.{rowid};
ghost use Rattle.osb_statements.specs.Causes.{IsRefused};
ghost use Rattle.osb_statements.specs.declared.fault.StoreFault.TheVariants as faults;
ghost use Rattle.osb_statements.specs.Read.{HoldAttributes};
ghost use Rattle.osb_rows.specs.Rows.{HaveUtf8Texts};
ghost use Rattle.osb_contexts.specs.Read.{rowid_shown, AreRowids};
ghost use Rattle.osb_statements.specs.Columns.{number_in, attributes_decoded, attributes_row};

use crate::cause::Cause;
use crate::fault::StoreFault;
use osb_orders::Attributes;
use osb_text::Text;
use sqlite::{Error, Row};
use std::alloc::Global;

/// A text of a row. One that isn't UTF-8 is in no row of ours.
pub(crate) fn text_in(row: &Row, at: usize) -> Result<Text, StoreFault>
    ensures told { IfOk result (λ text. text ≡ bytes (column row.now at)) }
    ensures held { IfOk result (λ text. column row.now at ≡ Words text) }
    ensures utf8 { IfOk result (λ text. is_utf8 text ≡ true) }
    ensures known { HaveUtf8Texts row.now → result ≢ Err faults.NotOurs }
{
    match row.get::<String>(at) {
        Ok(string) => Ok(Text::from(string)),
        Err(Error::Utf8Error(_)) => Err(StoreFault::NotOurs),
        Err(error) => Err(StoreFault::from(error)),
    }
}

/// A number of a row. One that isn't of 32 bits is in no row of ours.
pub(crate) fn number_in(row: &Row, at: usize) -> Result<u32, StoreFault>
    ensures told { IfOk result (λ number. number ≡ number_in (column row.now at)) }
    ensures held { IfOk result (λ number. column row.now at ≡ Int (pos number)) }
    ensures known { (number : ℕ) → column row.now at ≡ Int (pos number) → number < 2 ^ 32 →
        result ≢ Err faults.NotOurs }
{
    match row.get(at) {
        Ok(number) => Ok(number),
        Err(Error::IntegralValueOutOfRange(_)) => Err(StoreFault::NotOurs),
        Err(error) => Err(StoreFault::from(error)),
    }
}

/// The attributes that the columns hold. None of them is the context.
pub(crate) fn attributes_in(alloc: Global, row: &Row) -> Result<Attributes, StoreFault>
    ensures told { IfOk result (λ attributes. attributes ≡ attributes_decoded row.now) }
    ensures held { IfOk result (HoldAttributes row.now) }
    ensures texts { IfOk result (λ attributes. HaveUtf8Texts (attributes_row attributes)) }
    ensures known { HaveUtf8Texts row.now → result ≢ Err faults.NotOurs }
{
    Ok(Attributes {
        service: text_in(row, 4)?,
        plan: text_in(row, 5)?,
        place: text_in(row, 6)?,
        spot: text_in(row, 7)?,
        parameters: text_in(row, 8)?,
        maintenance: text_in(row, 9)?,
        context: Text::from_str(alloc, "{}")?,
    })
}

fn rowid_in(row: &Row) -> Result<u64, StoreFault>
    ensures told { IfOk result (λ id. rowid_shown id ≡ rowid row.now) }
    ensures refused { IfErr result IsRefused }
{
    Ok(row.get(0)?)
}

/// The rowids of the rows, none of them negative.
fn rowids_in(alloc: Global, rows: &[Row]) -> Result<Vec<u64>, StoreFault>
    ensures told { IfOk result (λ ids. map rowid_shown ids.items ≡ map rowid rows.now) }
    ensures refused { IfErr result IsRefused }
{
    let mut ids = Vec::new(alloc);
    for row in rows {
        ids.push(rowid_in(row)?)?;
    }
    Ok(ids)
}

fn rise(ids: &[u64]) -> bool
    ensures { result ≡ true → IsStrictlySortedBy nat_cmp ids.now }
{
    ids.is_sorted_by(|id, next| id < next)
}

/// Refuses rows that are no rising rowids.
pub(crate) fn check_rowids(alloc: Global, rows: &[Row]) -> Result<(), StoreFault>
    ensures ok { OnOk result (AreRowids rows.now) }
    ensures refused { IfErr result IsRefused }
{
    let ids = rowids_in(alloc, rows)?;
    if rise(&ids) {
        Ok(())
    } else {
        Err(StoreFault::Refused(Cause::Other))
    }
}
