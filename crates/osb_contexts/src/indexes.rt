//! Making the tables of version 1 those of version 2.

ghost use Rattle.std.specs.Prelude.{[]};
ghost use Rattle.osb_tables.specs.Tables.{tables_schema, five_tables, second_listed, second_schema, made};
ghost use Rattle.osb_tables.specs.Inside.{listed_schema, record_schema};
ghost use Rattle.osb_contexts.specs.Inside.{ShowsSchema, Reshapes, second_lacking};
ghost use Rattle.osb_contexts.specs.Made.{MakesContexts};
ghost use Rattle.osb_contexts.specs.Steps.{ContextSteps};
ghost use Rattle.osb_contexts.specs.Reads.{behind, StaysInside, Does};

use crate::contexts::create_contexts;
use crate::sql::execute;
use osb_tables::Indexes;
use sqlite::{Alter, Error, Transaction};

fn drop_busy_index<S: Alter>(tx: &mut Transaction<'_, S>) -> Result<usize, Error>
    requires { ShowsSchema listed_schema (behind S.Store tx.old) }
    ensures ok { Does S.Store tx.old tx.new result (λ old new.
        Reshapes tables_schema (tables_schema).tables old new) }
    ensures inside { StaysInside S.Store tx.old tx.new }
{
    execute(tx, "DROP INDEX busy_instances", &[])
}

fn drop_subject_index<S: Alter>(tx: &mut Transaction<'_, S>) -> Result<usize, Error>
    requires { ShowsSchema record_schema (behind S.Store tx.old) }
    ensures ok { Does S.Store tx.old tx.new result (λ old new.
        Reshapes listed_schema (tables_schema).tables old new) }
    ensures inside { StaysInside S.Store tx.old tx.new }
{
    execute(tx, "DROP INDEX subject_orders", &[])
}

fn create_busy_index<S: Alter>(tx: &mut Transaction<'_, S>) -> Result<usize, Error>
    requires { ShowsSchema five_tables (behind S.Store tx.old) }
    ensures ok { Does S.Store tx.old tx.new result (λ old new.
        Reshapes second_listed (five_tables).tables old new) }
    ensures inside { StaysInside S.Store tx.old tx.new }
{
    execute(
        tx,
        "CREATE INDEX busy_instances ON instances (busy, instance_id)",
        &[],
    )
}

fn create_subject_index<S: Alter>(tx: &mut Transaction<'_, S>) -> Result<usize, Error>
    requires { ShowsSchema second_listed (behind S.Store tx.old) }
    ensures ok { Does S.Store tx.old tx.new result (λ old new.
        Reshapes second_schema (five_tables).tables old new) }
    ensures inside { StaysInside S.Store tx.old tx.new }
{
    execute(
        tx,
        "CREATE INDEX subject_orders ON orders (instance_id, binding_id, kind, seq)",
        &[],
    )
}

/// Makes both indexes beside the five tables.
#[tactic(auto, using(crate::proofs::SchemaLemmas::indexes_then))]
fn create_indexes<S: Alter>(tx: &mut Transaction<'_, S>) -> Result<usize, Error>
    requires { ShowsSchema five_tables (behind S.Store tx.old) }
    ensures ok { Does S.Store tx.old tx.new result (λ old new.
        Reshapes second_schema (five_tables).tables old new) }
    ensures inside { StaysInside S.Store tx.old tx.new }
{
    create_busy_index(tx)?;
    create_subject_index(tx)
}

/// Makes the indexes that a database of version 2 lacks. `is_listed` says whether that of the listing is there.
pub fn complete<S: Alter>(tx: &mut Transaction<'_, S>, is_listed: bool) -> Result<(), Error>
    requires { ShowsSchema (second_lacking is_listed) (behind S.Store tx.old) }
    ensures ok { Does S.Store tx.old tx.new result (λ old new.
        Reshapes second_schema (five_tables).tables old new) }
    ensures inside { StaysInside S.Store tx.old tx.new }
{
    if is_listed {
        create_subject_index(tx)?;
    } else {
        create_indexes(tx)?;
    }
    Ok(())
}

/// Makes the table of contexts where the index of the listing is there, which it drops.
#[tactic(auto, using(crate::proofs::SchemaLemmas::makes_then))]
fn replace_listing<S: Alter>(tx: &mut Transaction<'_, S>) -> Result<usize, Error>
    requires { ShowsSchema listed_schema (behind S.Store tx.old) }
    ensures ok { Does S.Store tx.old tx.new result (λ old new. MakesContexts old new) }
    ensures inside { StaysInside S.Store tx.old tx.new }
{
    drop_busy_index(tx)?;
    create_contexts(tx)
}

/// Makes the table of contexts where both indexes are there, which it drops.
#[tactic(auto, using(crate::proofs::SchemaLemmas::makes_then))]
fn replace_both<S: Alter>(tx: &mut Transaction<'_, S>) -> Result<usize, Error>
    requires { ShowsSchema record_schema (behind S.Store tx.old) }
    ensures ok { Does S.Store tx.old tx.new result (λ old new. MakesContexts old new) }
    ensures inside { StaysInside S.Store tx.old tx.new }
{
    drop_subject_index(tx)?;
    replace_listing(tx)
}

/// Makes the table of contexts in a database of version 1, whose indexes it drops.
fn replace_indexes<S: Alter>(tx: &mut Transaction<'_, S>, indexes: Indexes) -> Result<usize, Error>
    requires { ShowsSchema (made tables_schema indexes) (behind S.Store tx.old) }
    ensures ok { Does S.Store tx.old tx.new result (λ old new. MakesContexts old new) }
    ensures inside { StaysInside S.Store tx.old tx.new }
{
    match indexes {
        Indexes::None => create_contexts(tx),
        Indexes::Listing => replace_listing(tx),
        Indexes::Both => replace_both(tx),
    }
}

/// Gives a database of version 1 the tables and indexes of version 2. The indexes come behind the table of
/// contexts, as in a new database, so those that are there are made again.
#[tactic(auto, using(crate::proofs::SchemaLemmas::reshaped))]
pub fn reshape<S: Alter>(tx: &mut Transaction<'_, S>, indexes: Indexes) -> Result<(), Error>
    requires { ShowsSchema (made tables_schema indexes) (behind S.Store tx.old) }
    ensures ok { Does S.Store tx.old tx.new result (λ old new. ContextSteps old new []) }
    ensures inside { StaysInside S.Store tx.old tx.new }
{
    replace_indexes(tx, indexes)?;
    complete(tx, false)?;
    Ok(())
}
