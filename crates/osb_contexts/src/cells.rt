//! Cells of a row as values.

ghost use Rattle.std.specs.Prelude.{◌≡◌, ◌↔◌, ◌<◌, ◌^◌, ℕ, true, pos, map, IfOk, IfErr, OnOk};
ghost use Rattle.std.specs.Str.{is_utf8};
ghost use Rattle.std.specs.List.{AllByRecursion};
ghost use Rattle.std.specs.Ordering.{nat_cmp};
ghost use Rattle.std.specs.List.Sorted.{IsStrictlySortedBy};
ghost use Rattle.sqlite.specs.declared.types.Value.TheVariants.{Int, Text as Words};
ghost use Rattle.sqlite.specs.Order.{column};
ghost use Rattle.sqlite_trees.specs.Tree.{rowid};
ghost use Rattle.osb_rows.specs.Rows.{HaveUtf8Texts};
ghost use Rattle.osb_contexts.specs.Read.{rowid_shown, AreRowids, IsUnfit};

use osb_text::Text;
use sqlite::{Error, ErrorCode, Row};
use std::alloc::Global;

pub(crate) fn text_in(row: &Row, at: usize) -> Result<Text, Error>
    ensures held { IfOk result (λ text. column row.now at ≡ Words text) }
    ensures utf8 { IfOk result (λ text. is_utf8 text ≡ true) }
    ensures known { HaveUtf8Texts row.now → IfErr result (λ error. ¬ IsUnfit error) }
{
    let string: String = row.get(at)?;
    Ok(Text::from(string))
}

pub(crate) fn number_in(row: &Row, at: usize) -> Result<u32, Error>
    ensures held { IfOk result (λ number. column row.now at ≡ Int (pos number)) }
    ensures known { (number : ℕ) → column row.now at ≡ Int (pos number) → number < 2 ^ 32 →
        IfErr result (λ error. ¬ IsUnfit error) }
{
    row.get(at)
}

fn rowid_in(row: &Row) -> Result<u64, Error>
    ensures { IfOk result (λ id. rowid_shown id ≡ rowid row.now) }
{
    row.get(0)
}

/// The rowids of the rows, none of them negative.
fn rowids_in(alloc: Global, rows: &[Row]) -> Result<Vec<u64>, Error>
    ensures { IfOk result (λ ids. map rowid_shown ids.items ≡ map rowid rows.now) }
{
    let mut ids = Vec::new(alloc);
    for row in rows {
        ids.push(rowid_in(row)?)?;
    }
    Ok(ids)
}

fn rise(ids: &[u64]) -> bool
    ensures { result ≡ true → IsStrictlySortedBy nat_cmp ids.now }
{
    ids.is_sorted_by(|id, next| id < next)
}

/// Refuses rows that are no rising rowids.
pub(crate) fn check_rowids(alloc: Global, rows: &[Row]) -> Result<(), Error>
    ensures { OnOk result (AreRowids rows.now) }
{
    let ids = rowids_in(alloc, rows)?;
    if rise(&ids) {
        Ok(())
    } else {
        Err(Error::SqliteFailure(ErrorCode::NotADatabase))
    }
}

/// Whether the rows say so in the column beside their rowids.
pub(crate) fn are_named(rows: &[Row]) -> Result<bool, Error>
    ensures { IfOk result (λ yes.
        (yes ≡ true) ↔ AllByRecursion (λ row. column row 1 ≡ Int (pos 1)) rows.now) }
{
    for row in rows {
        if number_in(row, 1)? != 1 {
            return Ok(false);
        }
    }
    Ok(true)
}
