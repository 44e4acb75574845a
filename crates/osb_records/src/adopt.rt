//! Takes over a database: makes its tables, brings it to version 2, or leaves it as it was.

ghost use Rattle.std.specs.Prelude.{◌≡◌, ◌≢◌, ◌↔◌, true, false, Err, IsTrue, IfOk};
ghost use Rattle.std.specs.FinMap.{empty};
ghost use Rattle.sqlite.specs.Held.{state};
ghost use Rattle.sqlite.specs.State.{HasCleanDisk, Survives};
ghost use Rattle.osb_tables.specs.Tables.{no_schema, tables_schema, five_tables, second_schema, made};
ghost use Rattle.osb_statements.specs.declared.cause.Cause.TheVariants.{Other};
ghost use Rattle.osb_statements.specs.declared.fault.StoreFault.TheVariants as faults;
ghost use Rattle.osb_statements.specs.StoredLives.{StoreFirst, StoreLives};
ghost use Rattle.osb_records.specs.Opened.{HoldsSame};
ghost use Rattle.osb_records.specs.Transactions.{FindsSettled, TakesOver};
ghost use Rattle.osb_contexts.specs.Inside.{ShowsSchema};
ghost use Rattle.osb_contexts.specs.Inside.{second_lacking};
ghost use Rattle.osb_statements.specs.Stored.{bare_lives_in};
ghost use Rattle.osb_statements.specs.LivesWritten.{WritesLives};
ghost use Rattle.osb_statements.specs.Steps.{HoldsLives, IsSettled, stored};
ghost use Rattle.osb_contexts.specs.Reads.{StaysInside, Does, behind};

use crate::making::make_tables;
use osb_contexts::{complete, reshape};
use osb_statements::{Cause, StoreFault, are_tables_whole, migrate_first};
use osb_tables::{FoundSchema, Indexes, find};
use sqlite::{Alter, Connection, Transaction};
use std::alloc::Global;

/// Whether the tables are those of well-formed lives.
fn check_tables<S: Alter>(conn: &mut Connection<S>, alloc: Global) -> Result<bool, StoreFault>
    requires { FindsSettled second_schema (state S.Store conn.old) }
    ensures settled { IsSettled (state S.Store conn.new) }
    ensures ok { HasCleanDisk (state S.Store conn.new) →
        IfOk result (λ whole. (whole ≡ true) ↔ StoreLives (state S.Store conn.old).now.trees) }
    ensures same { HasCleanDisk (state S.Store conn.new) → IsTrue (state S.Store conn.new).is_open →
        (state S.Store conn.new).now ≡ (state S.Store conn.old).now }
    ensures known { HasCleanDisk (state S.Store conn.new) →
        StoreLives (state S.Store conn.old).now.trees → result ≢ Err faults.NotOurs }
    ensures crash { Survives (state S.Store conn.old) (state S.Store conn.new) (λ _. ⊥) }
{
    let mut tx = conn.transaction();
    let whole = are_tables_whole(&mut tx, alloc)?;
    tx.rollback();
    Ok(whole)
}

/// Takes the tables as they are, if they are those of well-formed lives.
#[tactic(auto, using(crate::proofs::OpenedLemmas::ready_by))]
fn take_tables<S: Alter>(conn: &mut Connection<S>, alloc: Global) -> Result<(), StoreFault>
    requires { FindsSettled second_schema (state S.Store conn.old) }
    ensures settled { IsSettled (state S.Store conn.new) }
    ensures takes { TakesOver (state S.Store conn.old) (state S.Store conn.new) result }
    ensures crash { Survives (state S.Store conn.old) (state S.Store conn.new) (λ _. ⊥) }
{
    match check_tables(conn, alloc) {
        Ok(true) => Ok(()),
        Ok(false) => Err(StoreFault::NotOurs),
        Err(fault) => Err(fault),
    }
}

/// Makes the indexes that the tables of version 2 lack, if these are of well-formed lives.
fn index_tables<S: Alter>(
    tx: &mut Transaction<'_, S>,
    alloc: Global,
    is_listed: bool,
) -> Result<(), StoreFault>
    requires { ShowsSchema (second_lacking is_listed) (behind S.Store tx.old) }
    ensures ok { Does S.Store tx.old tx.new result (λ old new. WritesLives old new (stored old)) }
    ensures lives { Does S.Store tx.old tx.new result (λ old new.
        (old.now.schema ≡ second_lacking is_listed) × StoreLives old.now.trees) }
    ensures not_ours { HasCleanDisk (behind S.Store tx.new) → result ≡ Err faults.NotOurs →
        ¬ StoreLives (behind S.Store tx.old).now.trees }
    ensures inside { StaysInside S.Store tx.old tx.new }
{
    complete(tx, is_listed)?;
    match are_tables_whole(tx, alloc) {
        Ok(true) => Ok(()),
        Ok(false) => Err(StoreFault::NotOurs),
        Err(fault) => Err(fault),
    }
}

/// Takes the tables of a database of version 2 that lacks an index or both, and makes them: one transaction
/// that writes nothing else. `is_listed` says whether the index of the listing is there.
#[tactic(auto, using(crate::proofs::OpenedLemmas::completed_same, crate::proofs::OpenedLemmas::lacking_second))]
fn complete_tables<S: Alter>(
    conn: &mut Connection<S>,
    alloc: Global,
    is_listed: bool,
) -> Result<(), StoreFault>
    requires { FindsSettled (second_lacking is_listed) (state S.Store conn.old) }
    ensures settled { IsSettled (state S.Store conn.new) }
    ensures takes { TakesOver (state S.Store conn.old) (state S.Store conn.new) result }
    ensures crash { Survives (state S.Store conn.old) (state S.Store conn.new) (HoldsSame
        (state S.Store conn.old).now) }
{
    let mut tx = conn.transaction();
    index_tables(&mut tx, alloc, is_listed)?;
    tx.commit()?;
    Ok(())
}

/// Makes the tables of version 1 those of version 2, if they are of well-formed lives.
fn migrate_in<S: Alter>(
    tx: &mut Transaction<'_, S>,
    alloc: Global,
    indexes: Indexes,
) -> Result<(), StoreFault>
    requires { ShowsSchema (made tables_schema indexes) (behind S.Store tx.old) }
    ensures ok { Does S.Store tx.old tx.new result (λ old new.
        WritesLives old new (bare_lives_in old.now.trees)) }
    ensures lives { Does S.Store tx.old tx.new result (λ old new.
        (old.now.schema ≡ made tables_schema indexes) × StoreFirst old.now.trees) }
    ensures not_ours { HasCleanDisk (behind S.Store tx.new) → result ≡ Err faults.NotOurs →
        ¬ StoreFirst (behind S.Store tx.old).now.trees }
    ensures inside { StaysInside S.Store tx.old tx.new }
{
    reshape(tx, indexes)?;
    migrate_first(tx, alloc)
}

/// Takes the tables of a database of version 1, and brings it to version 2 in one transaction.
#[tactic(auto, using(crate::proofs::OpenedLemmas::migrated_same, crate::proofs::OpenedLemmas::made_first))]
fn migrate_tables<S: Alter>(
    conn: &mut Connection<S>,
    alloc: Global,
    indexes: Indexes,
) -> Result<(), StoreFault>
    requires { FindsSettled (made tables_schema indexes) (state S.Store conn.old) }
    ensures settled { IsSettled (state S.Store conn.new) }
    ensures takes { TakesOver (state S.Store conn.old) (state S.Store conn.new) result }
    ensures crash { Survives (state S.Store conn.old) (state S.Store conn.new) (HoldsSame
        (state S.Store conn.old).now) }
{
    let mut tx = conn.transaction();
    migrate_in(&mut tx, alloc, indexes)?;
    tx.commit()?;
    Ok(())
}

/// Makes the tables in a database that has none.
#[tactic(auto, using(crate::proofs::OpenedLemmas::empty_same))]
fn make<S: Alter>(conn: &mut Connection<S>, alloc: Global) -> Result<(), StoreFault>
    requires { FindsSettled no_schema (state S.Store conn.old) }
    ensures settled { IsSettled (state S.Store conn.new) }
    ensures takes { TakesOver (state S.Store conn.old) (state S.Store conn.new) result }
    ensures crash { Survives (state S.Store conn.old) (state S.Store conn.new) (HoldsLives empty) }
{
    make_tables(conn, alloc)?;
    Ok(())
}

/// Takes the tables of a database of version 2, with these indexes.
fn take_second<S: Alter>(
    conn: &mut Connection<S>,
    alloc: Global,
    indexes: Indexes,
) -> Result<(), StoreFault>
    requires { FindsSettled (made five_tables indexes) (state S.Store conn.old) }
    ensures settled { IsSettled (state S.Store conn.new) }
    ensures takes { TakesOver (state S.Store conn.old) (state S.Store conn.new) result }
    ensures crash { Survives (state S.Store conn.old) (state S.Store conn.new) (HoldsSame
        (state S.Store conn.old).now) }
{
    match indexes {
        Indexes::Both => take_tables(conn, alloc),
        Indexes::Listing => complete_tables(conn, alloc, true),
        Indexes::None => complete_tables(conn, alloc, false),
    }
}

/// Takes over a database that no transaction is open on, or leaves it as it was.
fn take_settled<S: Alter>(conn: &mut Connection<S>, alloc: Global) -> Result<(), StoreFault>
    requires { IsSettled (state S.Store conn.old) }
    ensures settled { IsSettled (state S.Store conn.new) }
    ensures takes { TakesOver (state S.Store conn.old) (state S.Store conn.new) result }
    ensures crash { Survives (state S.Store conn.old) (state S.Store conn.new) (HoldsSame
        (state S.Store conn.old).now) }
{
    match find(conn.schema()) {
        FoundSchema::Nothing => make(conn, alloc),
        FoundSchema::First(indexes) => migrate_tables(conn, alloc, indexes),
        FoundSchema::Second(indexes) => take_second(conn, alloc, indexes),
        FoundSchema::Others => Err(StoreFault::NotOurs),
    }
}

/// The same, where a transaction may be open.
pub(crate) fn take_over<S: Alter>(conn: &mut Connection<S>, alloc: Global) -> Result<(), StoreFault>
    ensures takes { TakesOver (state S.Store conn.old) (state S.Store conn.new) result }
    ensures settled { (state S.Store conn.old).in_transaction ≡ false →
        IsSettled (state S.Store conn.new) }
    ensures open_transaction { IsTrue (state S.Store conn.old).in_transaction →
        (result ≡ Err (faults.Refused Other)) × (conn.new ≡ conn.old) }
    ensures crash { Survives (state S.Store conn.old) (state S.Store conn.new) (HoldsSame
        (state S.Store conn.old).now) }
{
    if conn.is_autocommit() {
        take_settled(conn, alloc)
    } else {
        Err(StoreFault::Refused(Cause::Other))
    }
}
