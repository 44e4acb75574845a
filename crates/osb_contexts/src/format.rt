//! The table of the format, which holds one version.

ghost use Rattle.std.specs.Prelude.{◌≡◌, [], IsTrue};
ghost use Rattle.sqlite.specs.State.{HasCleanDisk};
ghost use Rattle.osb_tables.specs.Tables.{second_schema};
ghost use Rattle.osb_contexts.specs.Inside.{ShowsSchema};
ghost use Rattle.osb_contexts.specs.Made.{ClearsFormat};
ghost use Rattle.osb_contexts.specs.Read.{HaveRowids};
ghost use Rattle.osb_contexts.specs.Steps.{VersionSteps};
ghost use Rattle.osb_contexts.specs.Reads.{Reads, behind, StaysInside, Does};

use crate::cells::check_rowids;
use crate::sql::{execute, select};
use sqlite::{Alter, Error, Transaction};
use std::alloc::Global;

/// Refuses rows without rowids, which no deletion would find.
fn check_format<S: Alter>(tx: &mut Transaction<'_, S>, alloc: Global) -> Result<(), Error>
    requires { ShowsSchema second_schema (behind S.Store tx.old) }
    ensures ok { Does S.Store tx.old tx.new result (λ old _. HaveRowids (old.now.trees 0)) }
    ensures reads { Reads S.Store tx.old tx.new result }
{
    let ids = select(tx, "SELECT rowid FROM format ORDER BY rowid", &[])?;
    check_rowids(alloc, &ids)
}

fn clear_format<S: Alter>(tx: &mut Transaction<'_, S>) -> Result<usize, Error>
    requires schema { ShowsSchema second_schema (behind S.Store tx.old) }
    requires rowids { HasCleanDisk (behind S.Store tx.old) →
        IsTrue (behind S.Store tx.old).is_open →
        HaveRowids ((behind S.Store tx.old).now.trees 0) }
    ensures ok { Does S.Store tx.old tx.new result (λ old new. ClearsFormat old new) }
    ensures inside { StaysInside S.Store tx.old tx.new }
{
    execute(tx, "DELETE FROM format", &[])
}

fn insert_version<S: Alter>(tx: &mut Transaction<'_, S>) -> Result<usize, Error>
    requires schema { ShowsSchema second_schema (behind S.Store tx.old) }
    requires blank { HasCleanDisk (behind S.Store tx.old) → IsTrue (behind S.Store tx.old).is_open →
        (behind S.Store tx.old).now.trees 0 ≡ [] }
    ensures ok { Does S.Store tx.old tx.new result (λ old new. VersionSteps old new) }
    ensures inside { StaysInside S.Store tx.old tx.new }
{
    execute(tx, "INSERT INTO format (version) VALUES (2)", &[])
}

/// Makes 2 the version of the format, whatever it was.
#[tactic(auto, using(crate::proofs::FormatLemmas::version_then))]
pub fn set_version<S: Alter>(tx: &mut Transaction<'_, S>, alloc: Global) -> Result<(), Error>
    requires { ShowsSchema second_schema (behind S.Store tx.old) }
    ensures ok { Does S.Store tx.old tx.new result (λ old new. VersionSteps old new) }
    ensures inside { StaysInside S.Store tx.old tx.new }
{
    check_format(tx, alloc)?;
    clear_format(tx)?;
    insert_version(tx)?;
    Ok(())
}
