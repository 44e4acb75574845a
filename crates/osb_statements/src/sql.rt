//! Any statement, inside a transaction. What its text means under the schema is for the caller to know.

ghost use Rattle.std.specs.Prelude.{◌≡◌, false, Err, IsTrue, IfOk};
ghost use Rattle.sqlite.specs.Given.{IsPlain};
ghost use Rattle.sqlite.specs.Listing.{understood};
ghost use Rattle.sqlite.specs.State.{HasCleanDisk, ExecutesInside, Shown};
ghost use Rattle.sqlite.specs.Values.{bound};
ghost use Rattle.sqlite.specs.declared.error.Error.TheVariants as fault;
ghost use Rattle.sqlite.specs.declared.error.ErrorCode.TheVariants as code;
ghost use Rattle.osb_tables.specs.Tables.{second_schema};
ghost use Rattle.osb_contexts.specs.Inside.{ShowsSchema};
ghost use Rattle.osb_contexts.specs.Reads.{Reads, StaysInside, behind};

use sqlite::types::ValueRef;
use sqlite::{Alter, Error, Row, Transaction};

/// The rows of a query.
pub(crate) fn select<S: Alter>(
    tx: &mut Transaction<'_, S>,
    sql: &str,
    params: &[ValueRef<'_>],
) -> Result<Vec<Row>, Error>
    requires schema { ShowsSchema second_schema (behind S.Store tx.old) }
    requires plain { IsPlain (understood second_schema sql.now) }
    ensures ok { HasCleanDisk (behind S.Store tx.new) → IfOk result (λ rows.
        Shown sql.now (bound params.now) (behind S.Store tx.old)
        (behind S.Store tx.new) rows.items) }
    ensures reads { Reads S.Store tx.old tx.new result }
{
    tx.query_all(sql, params)
}

/// Runs a statement that writes, and gives how many rows it changed.
pub(crate) fn execute<S: Alter>(
    tx: &mut Transaction<'_, S>,
    sql: &str,
    params: &[ValueRef<'_>],
) -> Result<usize, Error>
    ensures ended { (behind S.Store tx.old).in_transaction ≡ false →
        result ≡ Err (fault.SqliteFailure code.TransactionState) }
    ensures runs { HasCleanDisk (behind S.Store tx.new) →
        IsTrue (behind S.Store tx.old).in_transaction →
        ExecutesInside 0 sql.now (bound params.now) (behind S.Store tx.old)
        (behind S.Store tx.new) result }
    ensures inside { StaysInside S.Store tx.old tx.new }
{
    tx.execute(sql, params)
}
