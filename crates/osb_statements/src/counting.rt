//! What there is of everything, counted in pieces inside a transaction that is rolled back.

ghost use Rattle.std.specs.Prelude.{◌≡◌, ◌+◌, length, filter, IfSome, OnOk};
ghost use Rattle.std.specs.declared.cmp.Ordering.TheVariants.{Less};
ghost use Rattle.std.specs.Ordering.{nat_cmp};
ghost use Rattle.std.specs.Cmp.Lexicographic.{slice_cmp};
ghost use Rattle.sqlite.specs.Values.{bound_value};
ghost use Rattle.sqlite.specs.declared.types.Value.TheVariants.{Text as Words};
ghost use Rattle.sqlite_value.specs.Value.{owned};
ghost use Rattle.osb_audit.specs.Counts.{AreCounts};
ghost use Rattle.osb_tables.specs.Tables.{second_schema};
ghost use Rattle.osb_contexts.specs.Inside.{ShowsSchema};
ghost use Rattle.osb_contexts.specs.Pieces.{piece};
ghost use Rattle.osb_statements.specs.Pieces.{is_instance_between, CountsMore, counted_in};
ghost use Rattle.osb_statements.specs.Queries.{ShowsRecords, ShowsLives};
ghost use Rattle.osb_statements.specs.Steps.{content, stored};
ghost use Rattle.osb_contexts.specs.Reads.{Reads, MayRead, Finds, MayFind, behind};

use crate::cause::Cause;
use crate::fault::StoreFault;
use crate::pieces::end_of_piece;
use crate::plans::{END, some_instances};
use crate::sql::select;
use osb_audit::{Counts, count_busy, count_there};
use osb_standing::InstanceRow;
use osb_text::Text;
use sqlite::types::ValueRef;
use sqlite::{Alter, Transaction};
use std::alloc::Global;

/// The id of the instance of the binding behind so many others.
const END_OF_BINDINGS: &str =
    "SELECT instance_id FROM bindings WHERE instance_id > ?1 ORDER BY instance_id, binding_id LIMIT 1 OFFSET ?2";

/// What was counted, and the rows of the bindings of these instances beside it.
fn count_some_bindings<S: Alter>(
    tx: &mut Transaction<'_, S>,
    counted: usize,
    after: &str,
    to: ValueRef<'_>,
) -> Result<usize, StoreFault>
    requires { ShowsSchema second_schema (behind S.Store tx.old) }
    ensures ok { Finds S.Store tx.old tx.new result (λ s sum. sum ≡ counted +
        length (piece after.now (bound_value (owned to.entry)) s.now.trees 5)) }
    ensures reads { Reads S.Store tx.old tx.new result }
{
    let rows = select(
        tx,
        "SELECT rowid FROM bindings WHERE instance_id > ?1 AND instance_id <= ?2 ORDER BY instance_id, binding_id",
        &[ValueRef::Text(after.as_bytes()), to],
    )?;
    match counted.checked_add(rows.len()) {
        Some(sum) => Ok(sum),
        None => Err(StoreFault::Refused(Cause::Other)),
    }
}

/// The same of those up to an id, which has to be above the first.
fn count_next_bindings<S: Alter>(
    tx: &mut Transaction<'_, S>,
    counted: usize,
    after: &Text,
    to: &Text,
) -> Result<usize, StoreFault>
    requires { ShowsSchema second_schema (behind S.Store tx.old) }
    ensures below { OnOk result (slice_cmp nat_cmp after.now to.now ≡ Less) }
    ensures ok { Finds S.Store tx.old tx.new result (λ s sum. sum ≡ counted +
        length (piece after.now (Words to.now) s.now.trees 5)) }
    ensures reads { Reads S.Store tx.old tx.new result }
{
    if after < to {
        count_some_bindings(
            tx,
            counted,
            after.as_str(),
            ValueRef::Text(to.as_str().as_bytes()),
        )
    } else {
        Err(StoreFault::Refused(Cause::Other))
    }
}

/// How many rows of bindings there are.
fn count_bindings<S: Alter>(tx: &mut Transaction<'_, S>, alloc: Global) -> Result<usize, StoreFault>
    requires { ShowsRecords (behind S.Store tx.old) }
    ensures ok { Finds S.Store tx.old tx.new result (λ s count.
        count ≡ length (content s).bindings) }
    ensures reads { Reads S.Store tx.old tx.new result }
{
    let mut counted = 0;
    let mut after = Text::new(alloc);
    for _ in 0..u64::MAX {
        let Some(to) = end_of_piece(tx, END_OF_BINDINGS, after.as_str())? else {
            return count_some_bindings(tx, counted, after.as_str(), ValueRef::Blob(&[]));
        };
        counted = count_next_bindings(tx, counted, &after, &to)?;
        after = to;
    }
    Err(StoreFault::Refused(Cause::Other))
}

/// What was counted, and what these rows count beside it.
fn sum(counted: (usize, usize), rows: &[(Text, InstanceRow)]) -> Option<(usize, usize)>
    ensures { IfSome result (CountsMore rows.now counted) }
{
    let there = counted.0.checked_add(count_there(rows))?;
    let busy = counted.1.checked_add(count_busy(rows))?;
    Some((there, busy))
}

/// What was counted, and what these instances count beside it.
fn count_some<S: Alter>(
    tx: &mut Transaction<'_, S>,
    alloc: Global,
    counted: (usize, usize),
    after: &str,
    to: ValueRef<'_>,
) -> Result<(usize, usize), StoreFault>
    requires { ShowsRecords (behind S.Store tx.old) }
    ensures ok { Finds S.Store tx.old tx.new result (λ s sum. CountsMore
        (filter (is_instance_between after.now (bound_value (owned to.entry)))
        (content s).instances) counted sum) }
    ensures reads { Reads S.Store tx.old tx.new result }
{
    let rows = some_instances(tx, alloc, after, to)?;
    match sum(counted, &rows) {
        Some(sum) => Ok(sum),
        None => Err(StoreFault::Refused(Cause::Other)),
    }
}

/// The same of those up to an id, which has to be above the first.
fn count_next<S: Alter>(
    tx: &mut Transaction<'_, S>,
    alloc: Global,
    counted: (usize, usize),
    after: &Text,
    to: &Text,
) -> Result<(usize, usize), StoreFault>
    requires { ShowsRecords (behind S.Store tx.old) }
    ensures below { OnOk result (slice_cmp nat_cmp after.now to.now ≡ Less) }
    ensures ok { Finds S.Store tx.old tx.new result (λ s sum. CountsMore
        (filter (is_instance_between after.now (Words to.now)) (content s).instances)
        counted sum) }
    ensures reads { Reads S.Store tx.old tx.new result }
{
    if after < to {
        count_some(
            tx,
            alloc,
            counted,
            after.as_str(),
            ValueRef::Text(to.as_str().as_bytes()),
        )
    } else {
        Err(StoreFault::Refused(Cause::Other))
    }
}

/// How many instances aren't absent, and how many have a last order that runs.
fn count_instances<S: Alter>(
    tx: &mut Transaction<'_, S>,
    alloc: Global,
) -> Result<(usize, usize), StoreFault>
    requires { ShowsRecords (behind S.Store tx.old) }
    ensures ok { MayFind S.Store tx.old tx.new result (λ s counted.
        counted ≡ counted_in (content s).instances) }
    ensures reads { MayRead S.Store tx.old tx.new result }
{
    let mut counted = (0, 0);
    let mut after = Text::new(alloc);
    for _ in 0..u64::MAX {
        let Some(to) = end_of_piece(tx, END, after.as_str())? else {
            return count_some(tx, alloc, counted, after.as_str(), ValueRef::Blob(&[]));
        };
        counted = count_next(tx, alloc, counted, &after, &to)?;
        after = to;
    }
    Err(StoreFault::Refused(Cause::Other))
}

/// How many instances and bindings there are that aren't absent, and how many orders run.
pub fn count_all<S: Alter>(tx: &mut Transaction<'_, S>, alloc: Global) -> Result<Counts, StoreFault>
    requires { ShowsLives (behind S.Store tx.old) }
    ensures ok { Finds S.Store tx.old tx.new result (λ s counts. AreCounts (stored s) counts) }
    ensures reads { Reads S.Store tx.old tx.new result }
{
    let bindings = count_bindings(tx, alloc)?;
    let counted = count_instances(tx, alloc)?;
    Ok(Counts {
        instances: counted.0,
        bindings,
        running: counted.1,
    })
}
