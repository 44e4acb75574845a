//! The table of the format, which holds one version.

ghost use Rattle.std.specs.Prelude.{◌≡◌, ◌≢◌, ◌<◌, ◌^◌, ℕ, map, Err, IfOk, [], ◌∷◌};
ghost use Rattle.sqlite.specs.State.{HasCleanDisk};
ghost use Rattle.osb_tables.specs.Tables.{second_schema, no_schema, format_schema};
ghost use Rattle.osb_statements.specs.declared.fault.StoreFault.TheVariants as faults;
ghost use Rattle.osb_contexts.specs.Format.{version_row, HoldsVersion};
ghost use Rattle.osb_statements.specs.Read.{version_columns, AreVersionsOf};
ghost use Rattle.osb_contexts.specs.Inside.{ShowsSchema};
ghost use Rattle.osb_statements.specs.Inside.{Makes};
ghost use Rattle.osb_contexts.specs.Reads.{Reads, Finds, behind, StaysInside, Does};

use crate::cells::{check_rowids, number_in};
use crate::fault::StoreFault;
use crate::sql::{execute, select};
use sqlite::{Alter, Error, Row, Transaction};
use std::alloc::Global;

/// The versions of the rows.
fn versions_in(alloc: Global, rows: &[Row]) -> Result<Vec<u32>, StoreFault>
    ensures told { IfOk result (λ versions.
        map version_row versions.items ≡ map version_columns rows.now) }
    ensures known { (version : ℕ) → rows.now ≡ map version_row (version ∷ []) → version < 2 ^ 32 →
        result ≢ Err faults.NotOurs }
{
    let mut versions = Vec::new(alloc);
    for row in rows {
        versions.push(number_in(row, 0)?)?;
    }
    Ok(versions)
}

pub(crate) fn create_format<S: Alter>(tx: &mut Transaction<'_, S>) -> Result<usize, Error>
    requires { ShowsSchema no_schema (behind S.Store tx.old) }
    ensures ok { Does S.Store tx.old tx.new result (λ old new.
        Makes old new format_schema (0 ∷ [])) }
    ensures inside { StaysInside S.Store tx.old tx.new }
{
    execute(
        tx,
        "CREATE TABLE format (version INTEGER NOT NULL) STRICT",
        &[],
    )
}

/// The versions of the format, of which there is to be one.
pub(crate) fn read_versions<S: Alter>(
    tx: &mut Transaction<'_, S>,
    alloc: Global,
) -> Result<Vec<u32>, StoreFault>
    requires { ShowsSchema second_schema (behind S.Store tx.old) }
    ensures ok { Finds S.Store tx.old tx.new result (λ s entries.
        AreVersionsOf s.now.trees entries.items) }
    ensures reads { Reads S.Store tx.old tx.new result }
    ensures known { HasCleanDisk (behind S.Store tx.new) → (version : ℕ) →
        HoldsVersion version (behind S.Store tx.old).now.trees → version < 2 ^ 32 →
        result ≢ Err faults.NotOurs }
{
    let ids = select(tx, "SELECT rowid FROM format ORDER BY rowid", &[])?;
    let rows = select(tx, "SELECT version FROM format ORDER BY version", &[])?;
    check_rowids(alloc, &ids)?;
    versions_in(alloc, &rows)
}
