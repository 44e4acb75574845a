//! Whether tables of version 2 are those of well-formed lives: they are read in pieces, inside a transaction.

ghost use Rattle.std.specs.Prelude.{◌≡◌, ◌≢◌, ◌↔◌, true, Err, IfOk, IfErr, IsTrue};
ghost use Rattle.std.specs.declared.cmp.Ordering.TheVariants.{Less};
ghost use Rattle.std.specs.Ordering.{nat_cmp};
ghost use Rattle.std.specs.Cmp.Lexicographic.{slice_cmp};
ghost use Rattle.sqlite.specs.Given.{IsPlain};
ghost use Rattle.sqlite.specs.Listing.{understood};
ghost use Rattle.sqlite.specs.State.{HasCleanDisk};
ghost use Rattle.sqlite.specs.Values.{bound_value};
ghost use Rattle.sqlite.specs.declared.types.Value.TheVariants.{Text as Words};
ghost use Rattle.sqlite_value.specs.Value.{owned};
ghost use Rattle.osb_audit.specs.declared.entry.BindingEntry.{BindingEntry};
ghost use Rattle.osb_joined.specs.Audit.{HaveNoContexts, AreRowsWithContexts};
ghost use Rattle.osb_tables.specs.Tables.{second_schema};
ghost use Rattle.osb_contexts.specs.Contexts.{AreContextsOf};
ghost use Rattle.osb_contexts.specs.Format.{HoldsVersion};
ghost use Rattle.osb_contexts.specs.Inside.{ShowsSchema};
ghost use Rattle.osb_contexts.specs.Pieces.{piece, AreNamed};
ghost use Rattle.osb_contexts.specs.Read.{HaveRowids};
ghost use Rattle.osb_contexts.specs.Reads.{Reads, MayRead, Finds, MayFind, behind};
ghost use Rattle.osb_statements.specs.Pieces.{AreSeparateRows, MayBeCut, HoldRows, RowsFit, IsReadOf};
ghost use Rattle.osb_statements.specs.StoredLives.{StoreLives};
ghost use Rattle.osb_statements.specs.Causes.{IsRefused};
ghost use Rattle.osb_statements.specs.declared.fault.StoreFault.TheVariants as faults;

use crate::bindings::{are_bindings_named, read_bindings_between};
use crate::cause::Cause;
use crate::cells::text_in;
use crate::fault::StoreFault;
use crate::format::read_versions;
use crate::instances::{are_instances_named, read_instances_between};
use crate::orders::{are_orders_named, read_orders_between};
use crate::sql::select;
use osb_audit::BindingEntry;
use osb_contexts::{are_contexts_named, read_contexts};
use osb_joined::{ContextEntry, are_rows_with_contexts};
use osb_orders::Order;
use osb_standing::InstanceRow;
use osb_text::Text;
use sqlite::types::ValueRef;
use sqlite::{Alter, Row, Transaction, params};
use std::alloc::Global;

/// A piece has one order more than this, or one instance more, and all orders of the last instance.
const ROWS: u32 = 4_095;

/// The id of the order behind so many others.
pub(crate) const END: &str =
    "SELECT instance_id FROM orders WHERE instance_id > ?1 ORDER BY instance_id, seq LIMIT 1 OFFSET ?2";

/// What was read of some instances.
#[derive(Drop)]
pub(crate) struct Piece {
    pub(crate) orders: Vec<(Text, Order)>,
    pub(crate) instances: Vec<(Text, InstanceRow)>,
    pub(crate) bindings: Vec<BindingEntry>,
}

/// Whether the format has this version only.
pub(crate) fn is_version<S: Alter>(
    tx: &mut Transaction<'_, S>,
    alloc: Global,
    version: u32,
) -> Result<bool, StoreFault>
    requires { ShowsSchema second_schema (behind S.Store tx.old) }
    ensures ok { Finds S.Store tx.old tx.new result (λ s yes.
        (yes ≡ true) ↔ HoldsVersion version s.now.trees) }
    ensures reads { Reads S.Store tx.old tx.new result }
    ensures known { HasCleanDisk (behind S.Store tx.new) →
        HoldsVersion version (behind S.Store tx.old).now.trees → result ≢ Err faults.NotOurs }
{
    let versions = read_versions(tx, alloc)?;
    Ok(versions.as_slice() == [version].as_slice())
}

/// Whether each row of an order or an instance has the id of an instance.
pub(crate) fn are_first_named<S: Alter>(
    tx: &mut Transaction<'_, S>,
    alloc: Global,
) -> Result<bool, StoreFault>
    requires { ShowsSchema second_schema (behind S.Store tx.old) }
    ensures ok { Finds S.Store tx.old tx.new result (λ s yes.
        HaveRowids (s.now.trees 1) × HaveRowids (s.now.trees 3)
        × ((yes ≡ true) ↔ (AreNamed (s.now.trees 1) × AreNamed (s.now.trees 3)))) }
    ensures reads { Reads S.Store tx.old tx.new result }
    ensures refused { IfErr result IsRefused }
{
    let orders = are_orders_named(tx, alloc)?;
    let instances = are_instances_named(tx, alloc)?;
    Ok(orders && instances)
}

fn are_others_named<S: Alter>(
    tx: &mut Transaction<'_, S>,
    alloc: Global,
) -> Result<bool, StoreFault>
    requires { ShowsSchema second_schema (behind S.Store tx.old) }
    ensures ok { Finds S.Store tx.old tx.new result (λ s yes.
        HaveRowids (s.now.trees 5) × HaveRowids (s.now.trees 7)
        × ((yes ≡ true) ↔ (AreNamed (s.now.trees 5) × AreNamed (s.now.trees 7)))) }
    ensures reads { Reads S.Store tx.old tx.new result }
    ensures refused { IfErr result IsRefused }
{
    let bindings = are_bindings_named(tx, alloc)?;
    let contexts = are_contexts_named(tx, alloc)?;
    Ok(bindings && contexts)
}

/// Whether the version is 2 and each row has the id of an instance. Where it isn't so, no lives are stored.
fn may_be_cut<S: Alter>(tx: &mut Transaction<'_, S>, alloc: Global) -> Result<bool, StoreFault>
    requires { ShowsSchema second_schema (behind S.Store tx.old) }
    ensures ok { Finds S.Store tx.old tx.new result (λ s yes.
        (yes ≡ true) → MayBeCut s.now.trees) }
    ensures all { Finds S.Store tx.old tx.new result (λ s yes.
        StoreLives s.now.trees → yes ≡ true) }
    ensures reads { Reads S.Store tx.old tx.new result }
    ensures known { HasCleanDisk (behind S.Store tx.new) →
        StoreLives (behind S.Store tx.old).now.trees → result ≢ Err faults.NotOurs }
{
    if !is_version(tx, alloc, 2)? {
        return Ok(false);
    }
    if !are_first_named(tx, alloc)? {
        return Ok(false);
    }
    are_others_named(tx, alloc)
}

/// The orders and the rows of the instances with ids above the first and up to the second.
pub(crate) fn read_piece<S: Alter>(
    tx: &mut Transaction<'_, S>,
    alloc: Global,
    after: &str,
    to: ValueRef<'_>,
) -> Result<Piece, StoreFault>
    requires { ShowsSchema second_schema (behind S.Store tx.old) }
    ensures ok { Finds S.Store tx.old tx.new result (λ s read. AreSeparateRows s.now.trees →
        IsReadOf (piece after.now (bound_value (owned to.entry)) s.now.trees) read) }
    ensures reads { Reads S.Store tx.old tx.new result }
    ensures known { HasCleanDisk (behind S.Store tx.new) →
        HoldRows (piece after.now (bound_value (owned to.entry))
        (behind S.Store tx.old).now.trees) →
        RowsFit (piece after.now (bound_value (owned to.entry))
        (behind S.Store tx.old).now.trees) → result ≢ Err faults.NotOurs }
{
    let orders = read_orders_between(tx, alloc, after, to)?;
    let instances = read_instances_between(tx, alloc, after, to)?;
    let bindings = read_bindings_between(tx, alloc, after, to)?;
    Ok(Piece {
        orders,
        instances,
        bindings,
    })
}

/// The contexts of the instances with ids above the first and up to the second.
fn read_contexts_between<S: Alter>(
    tx: &mut Transaction<'_, S>,
    alloc: Global,
    after: &str,
    to: ValueRef<'_>,
) -> Result<Vec<ContextEntry>, StoreFault>
    requires { ShowsSchema second_schema (behind S.Store tx.old) }
    ensures ok { Finds S.Store tx.old tx.new result (λ s entries. HaveRowids (s.now.trees 7) →
        AreContextsOf (piece after.now (bound_value (owned to.entry)) s.now.trees) entries.items) }
    ensures reads { Reads S.Store tx.old tx.new result }
    ensures known { HasCleanDisk (behind S.Store tx.new) →
        StoreLives (piece after.now (bound_value (owned to.entry))
        (behind S.Store tx.old).now.trees) → result ≢ Err faults.NotOurs }
{
    match read_contexts(tx, alloc, after, to)? {
        Some(contexts) => Ok(contexts),
        None => Err(StoreFault::NotOurs),
    }
}

fn are_lives(alloc: Global, read: &Piece, contexts: &[ContextEntry]) -> Result<bool, StoreFault>
    ensures ok { IfOk result (λ yes.
        HaveNoContexts read.now.orders.items read.now.instances.items → (yes ≡ true) ↔
        AreRowsWithContexts contexts.now read.now.orders.items read.now.instances.items
        read.now.bindings.items) }
    ensures refused { IfErr result IsRefused }
{
    Ok(are_rows_with_contexts(
        alloc,
        &read.orders,
        &read.instances,
        &read.bindings,
        contexts,
    )?)
}

/// Whether the rows of the instances with ids above the first and up to the second are those of well-formed lives.
fn is_piece_whole<S: Alter>(
    tx: &mut Transaction<'_, S>,
    alloc: Global,
    after: &str,
    to: ValueRef<'_>,
) -> Result<bool, StoreFault>
    requires { ShowsSchema second_schema (behind S.Store tx.old) }
    ensures ok { Finds S.Store tx.old tx.new result (λ s yes. MayBeCut s.now.trees →
        (yes ≡ true) ↔
        StoreLives (piece after.now (bound_value (owned to.entry)) s.now.trees)) }
    ensures reads { Reads S.Store tx.old tx.new result }
    ensures known { HasCleanDisk (behind S.Store tx.new) →
        StoreLives (piece after.now (bound_value (owned to.entry))
        (behind S.Store tx.old).now.trees) → result ≢ Err faults.NotOurs }
{
    let read = read_piece(tx, alloc, after, to)?;
    let contexts = read_contexts_between(tx, alloc, after, to)?;
    are_lives(alloc, &read, &contexts)
}

/// The id of the row; none where it isn't UTF-8.
fn id_in(row: &Row) -> Result<Option<Text>, StoreFault>
    ensures { IfErr result IsRefused }
{
    match text_in(row, 0) {
        Ok(id) => Ok(Some(id)),
        Err(StoreFault::NotOurs) => Ok(None),
        Err(StoreFault::Refused(cause)) => Err(StoreFault::Refused(cause)),
    }
}

/// The id up to which the next piece goes, which the query names by an id and a number of rows, unless few are left.
/// Where that id isn't UTF-8, all that is left is one piece, whose reading finds it.
pub(crate) fn end_of_piece<S: Alter>(
    tx: &mut Transaction<'_, S>,
    sql: &str,
    after: &str,
) -> Result<Option<Text>, StoreFault>
    requires schema { ShowsSchema second_schema (behind S.Store tx.old) }
    requires plain { IsPlain (understood second_schema sql.now) }
    ensures reads { Reads S.Store tx.old tx.new result }
    ensures refused { IfErr result IsRefused }
{
    let rows = select(tx, sql, params![after, ROWS])?;
    match rows.first() {
        Some(row) => id_in(row),
        None => Ok(None),
    }
}

/// The same of the rows up to an id, which has to be above the first.
fn is_next_whole<S: Alter>(
    tx: &mut Transaction<'_, S>,
    alloc: Global,
    after: &Text,
    to: &Text,
) -> Result<bool, StoreFault>
    requires { ShowsSchema second_schema (behind S.Store tx.old) }
    ensures ok { Finds S.Store tx.old tx.new result (λ s yes.
        (slice_cmp nat_cmp after.now to.now ≡ Less) × (MayBeCut s.now.trees →
        (yes ≡ true) ↔ StoreLives (piece after.now (Words to.now) s.now.trees))) }
    ensures reads { Reads S.Store tx.old tx.new result }
    ensures known { HasCleanDisk (behind S.Store tx.new) →
        StoreLives (piece after.now (Words to.now) (behind S.Store tx.old).now.trees) →
        result ≢ Err faults.NotOurs }
{
    if after < to {
        is_piece_whole(
            tx,
            alloc,
            after.as_str(),
            ValueRef::Text(to.as_str().as_bytes()),
        )
    } else {
        Err(StoreFault::Refused(Cause::Other))
    }
}

/// Judges one piece after the other, of tables that may be cut.
fn are_pieces_whole<S: Alter>(
    tx: &mut Transaction<'_, S>,
    alloc: Global,
) -> Result<bool, StoreFault>
    requires schema { ShowsSchema second_schema (behind S.Store tx.old) }
    requires cut { HasCleanDisk (behind S.Store tx.old) → IsTrue (behind S.Store tx.old).is_open →
        MayBeCut (behind S.Store tx.old).now.trees }
    ensures ok { MayFind S.Store tx.old tx.new result (λ s yes.
        (yes ≡ true) ↔ StoreLives s.now.trees) }
    ensures reads { MayRead S.Store tx.old tx.new result }
    ensures known { HasCleanDisk (behind S.Store tx.new) → IsTrue (behind S.Store tx.old).is_open →
        StoreLives (behind S.Store tx.old).now.trees → result ≢ Err faults.NotOurs }
{
    let mut after = Text::new(alloc);
    for _ in 0..u64::MAX {
        let Some(to) = end_of_piece(tx, END, after.as_str())? else {
            return is_piece_whole(tx, alloc, after.as_str(), ValueRef::Blob(&[]));
        };
        if !is_next_whole(tx, alloc, &after, &to)? {
            return Ok(false);
        }
        after = to;
    }
    Err(StoreFault::Refused(Cause::Other))
}

/// Whether the tables are those of version 2 of well-formed lives.
pub fn are_tables_whole<S: Alter>(
    tx: &mut Transaction<'_, S>,
    alloc: Global,
) -> Result<bool, StoreFault>
    requires { ShowsSchema second_schema (behind S.Store tx.old) }
    ensures ok { Finds S.Store tx.old tx.new result (λ s yes.
        (yes ≡ true) ↔ StoreLives s.now.trees) }
    ensures reads { Reads S.Store tx.old tx.new result }
    ensures known { HasCleanDisk (behind S.Store tx.new) →
        StoreLives (behind S.Store tx.old).now.trees → result ≢ Err faults.NotOurs }
{
    if may_be_cut(tx, alloc)? {
        are_pieces_whole(tx, alloc)
    } else {
        Ok(false)
    }
}
