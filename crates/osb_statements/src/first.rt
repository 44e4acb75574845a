//! How tables of version 1 become those of version 2: in pieces, inside a transaction.

ghost use Rattle.std.specs.Prelude.{◌≡◌, ◌≢◌, false, true, [], Err, IsTrue, IfOk};
ghost use Rattle.std.specs.Ordering.{is_gt};
ghost use Rattle.sqlite.specs.Order.{value_cmp};
ghost use Rattle.sqlite.specs.State.{HasCleanDisk};
ghost use Rattle.sqlite.specs.Values.{bound_value};
ghost use Rattle.sqlite.specs.declared.types.Value.TheVariants.{Text as Words};
ghost use Rattle.sqlite_value.specs.Value.{owned};
ghost use Rattle.osb_audit.specs.Orders.{lives_in};
ghost use Rattle.osb_audit.specs.Audit.{AreRowsOfLives};
ghost use Rattle.osb_joined.specs.Contexts.{contexts_of};
ghost use Rattle.osb_tables.specs.Tables.{second_schema};
ghost use Rattle.osb_contexts.specs.Format.{HoldsVersion};
ghost use Rattle.osb_contexts.specs.Inside.{ShowsSchema};
ghost use Rattle.osb_contexts.specs.Pieces.{piece};
ghost use Rattle.osb_contexts.specs.Reads.{Reads, Finds, behind, StaysInside, Does};
ghost use Rattle.osb_contexts.specs.Steps.{contexts, ShowsContexts, ContextSteps, Migrates};
ghost use Rattle.osb_statements.specs.Pieces.{AreSeparateRows, StoreRows, HaveContexts, IsMigrating, MigratesTo};
ghost use Rattle.osb_statements.specs.Stored.{bare_lives_in};
ghost use Rattle.osb_statements.specs.StoredLives.{StoreFirst};
ghost use Rattle.osb_statements.specs.declared.fault.StoreFault.TheVariants as faults;

use crate::bindings::are_bindings_named;
use crate::cause::Cause;
use crate::fault::StoreFault;
use crate::pieces::{END, Piece, are_first_named, end_of_piece, is_version, read_piece};
use osb_audit::are_rows_of_lives;
use osb_contexts::{insert_contexts, set_version};
use osb_joined::{ContextEntry, gather};
use osb_text::Text;
use sqlite::types::ValueRef;
use sqlite::{Alter, Transaction};
use std::alloc::Global;

/// Whether the version is 1 and each row has the id of an instance. Where it isn't so, no lives are stored.
fn may_migrate<S: Alter>(tx: &mut Transaction<'_, S>, alloc: Global) -> Result<bool, StoreFault>
    requires { ShowsSchema second_schema (behind S.Store tx.old) }
    ensures ok { Finds S.Store tx.old tx.new result (λ s yes.
        (yes ≡ true) → HoldsVersion 1 s.now.trees × AreSeparateRows s.now.trees) }
    ensures all { Finds S.Store tx.old tx.new result (λ s yes.
        StoreFirst s.now.trees → yes ≡ true) }
    ensures reads { Reads S.Store tx.old tx.new result }
    ensures known { HasCleanDisk (behind S.Store tx.new) →
        StoreFirst (behind S.Store tx.old).now.trees → result ≢ Err faults.NotOurs }
{
    if !is_version(tx, alloc, 1)? {
        return Ok(false);
    }
    if !are_first_named(tx, alloc)? {
        return Ok(false);
    }
    are_bindings_named(tx, alloc)
}

/// The contexts of the lives whose rows these are. Rows of other lives are NotOurs.
fn contexts_of_piece(alloc: Global, read: &Piece) -> Result<Vec<ContextEntry>, StoreFault>
    ensures ok { IfOk result (λ contexts. AreRowsOfLives read.now.orders.items
        read.now.instances.items read.now.bindings.items
        × (contexts.items ≡ contexts_of (lives_in read.now.orders.items))) }
    ensures known { AreRowsOfLives read.now.orders.items read.now.instances.items
        read.now.bindings.items → result ≢ Err faults.NotOurs }
{
    if are_rows_of_lives(alloc, &read.orders, &read.instances, &read.bindings)? {
        Ok(gather(alloc, &read.orders, &read.instances)?)
    } else {
        Err(StoreFault::NotOurs)
    }
}

/// The contexts of the instances with ids above the first and up to the second.
fn gather_piece<S: Alter>(
    tx: &mut Transaction<'_, S>,
    alloc: Global,
    after: &str,
    to: ValueRef<'_>,
) -> Result<Vec<ContextEntry>, StoreFault>
    requires { ShowsSchema second_schema (behind S.Store tx.old) }
    ensures ok { Finds S.Store tx.old tx.new result (λ s contexts.
        AreSeparateRows s.now.trees →
        HaveContexts (piece after.now (bound_value (owned to.entry)) s.now.trees) contexts.items) }
    ensures reads { Reads S.Store tx.old tx.new result }
    ensures known { HasCleanDisk (behind S.Store tx.new) →
        AreSeparateRows (behind S.Store tx.old).now.trees →
        StoreRows (piece after.now (bound_value (owned to.entry))
        (behind S.Store tx.old).now.trees) → result ≢ Err faults.NotOurs }
{
    let read = read_piece(tx, alloc, after, to)?;
    contexts_of_piece(alloc, &read)
}

/// Inserts the contexts of the instances with ids above the first and up to the second. Those of the ids up to
/// the first are there.
fn migrate_piece<S: Alter>(
    tx: &mut Transaction<'_, S>,
    alloc: Global,
    after: &str,
    to: ValueRef<'_>,
) -> Result<(), StoreFault>
    requires migrating { HasCleanDisk (behind S.Store tx.old) →
        IsMigrating (behind S.Store tx.old) }
    requires before { HasCleanDisk (behind S.Store tx.old) →
        HaveContexts (piece [] (Words after.now) (behind S.Store tx.old).now.trees)
        (contexts (behind S.Store tx.old)) }
    requires order { is_gt (value_cmp (Words after.now) (bound_value (owned to))) ≡ false }
    ensures ok { Does S.Store tx.old tx.new result (MigratesTo (bound_value (owned to.entry))) }
    ensures known { HasCleanDisk (behind S.Store tx.new) →
        StoreRows (behind S.Store tx.old).now.trees → result ≢ Err faults.NotOurs }
    ensures inside { StaysInside S.Store tx.old tx.new }
{
    let contexts = gather_piece(tx, alloc, after, to)?;
    Ok(insert_contexts(tx, &contexts)?)
}

/// The same up to an id, which has to be above the first.
fn migrate_next<S: Alter>(
    tx: &mut Transaction<'_, S>,
    alloc: Global,
    after: &Text,
    to: &Text,
) -> Result<(), StoreFault>
    requires migrating { HasCleanDisk (behind S.Store tx.old) →
        IsMigrating (behind S.Store tx.old) }
    requires before { HasCleanDisk (behind S.Store tx.old) →
        HaveContexts (piece [] (Words after.now) (behind S.Store tx.old).now.trees)
        (contexts (behind S.Store tx.old)) }
    ensures ok { Does S.Store tx.old tx.new result (MigratesTo (Words to.now)) }
    ensures known { HasCleanDisk (behind S.Store tx.new) →
        StoreRows (behind S.Store tx.old).now.trees → result ≢ Err faults.NotOurs }
    ensures inside { StaysInside S.Store tx.old tx.new }
{
    if after < to {
        migrate_piece(
            tx,
            alloc,
            after.as_str(),
            ValueRef::Text(to.as_str().as_bytes()),
        )
    } else {
        Err(StoreFault::Refused(Cause::Other))
    }
}

/// Judges one piece after the other and inserts its contexts.
fn migrate_pieces<S: Alter>(tx: &mut Transaction<'_, S>, alloc: Global) -> Result<(), StoreFault>
    requires migrating { HasCleanDisk (behind S.Store tx.old) →
        IsMigrating (behind S.Store tx.old) }
    requires blank { HasCleanDisk (behind S.Store tx.old) → contexts (behind S.Store tx.old) ≡ [] }
    ensures ok { Does S.Store tx.old tx.new result (λ old new. StoreRows old.now.trees
        × ContextSteps old new (contexts_of (bare_lives_in old.now.trees))) }
    ensures known { HasCleanDisk (behind S.Store tx.new) →
        StoreRows (behind S.Store tx.old).now.trees → result ≢ Err faults.NotOurs }
    ensures inside { StaysInside S.Store tx.old tx.new }
{
    let mut after = Text::new(alloc);
    for _ in 0..u64::MAX {
        let Some(to) = end_of_piece(tx, END, after.as_str())? else {
            return migrate_piece(tx, alloc, after.as_str(), ValueRef::Blob(&[]));
        };
        migrate_next(tx, alloc, &after, &to)?;
        after = to;
    }
    Err(StoreFault::Refused(Cause::Other))
}

/// Makes a database of version 1, which has the tables of version 2 already and no contexts, one of version 2
/// with the contexts of its lives. Tables of other lives are NotOurs.
pub fn migrate_first<S: Alter>(tx: &mut Transaction<'_, S>, alloc: Global) -> Result<(), StoreFault>
    requires tables { ShowsContexts (behind S.Store tx.old) }
    requires blank { HasCleanDisk (behind S.Store tx.old) → IsTrue (behind S.Store tx.old).is_open →
        contexts (behind S.Store tx.old) ≡ [] }
    ensures ok { Does S.Store tx.old tx.new result (λ old new. StoreFirst old.now.trees
        × Migrates old new (contexts_of (bare_lives_in old.now.trees))) }
    ensures inside { StaysInside S.Store tx.old tx.new }
    ensures not_ours { HasCleanDisk (behind S.Store tx.new) → result ≡ Err faults.NotOurs →
        ¬ StoreFirst (behind S.Store tx.old).now.trees }
{
    if !may_migrate(tx, alloc)? {
        return Err(StoreFault::NotOurs);
    }
    set_version(tx, alloc)?;
    migrate_pieces(tx, alloc)
}
