//! Making the tables and the indexes.

ghost use Rattle.std.specs.Prelude.{[], ◌∷◌};
ghost use Rattle.std.specs.FinMap.{empty};
ghost use Rattle.osb_tables.specs.Tables.{no_schema, orders_schema, tables_schema};
ghost use Rattle.osb_contexts.specs.Inside.{ShowsSchema};
ghost use Rattle.osb_contexts.specs.Reads.{behind, StaysInside, Does};
ghost use Rattle.osb_statements.specs.Inside.{ShowsBlank, Makes};
ghost use Rattle.osb_statements.specs.LivesWritten.{WritesLives};

use crate::bindings::create_bindings;
use crate::format::create_format;
use crate::instances::create_instances;
use crate::orders::create_orders;
use osb_contexts::{reshape, set_version};
use osb_tables::Indexes;
use sqlite::{Alter, Error, Transaction};
use std::alloc::Global;

/// Makes the tables of the current state.
fn create_standing<S: Alter>(tx: &mut Transaction<'_, S>) -> Result<usize, Error>
    requires { ShowsBlank orders_schema (1 ∷ 0 ∷ []) (behind S.Store tx.old) }
    ensures ok { Does S.Store tx.old tx.new result (λ old new.
        Makes old new tables_schema (5 ∷ 3 ∷ 1 ∷ 0 ∷ [])) }
    ensures inside { StaysInside S.Store tx.old tx.new }
{
    create_instances(tx)?;
    create_bindings(tx)
}

/// Makes the four tables of version 1.
fn create_tables<S: Alter>(tx: &mut Transaction<'_, S>) -> Result<usize, Error>
    requires { ShowsSchema no_schema (behind S.Store tx.old) }
    ensures ok { Does S.Store tx.old tx.new result (λ old new.
        Makes old new tables_schema (5 ∷ 3 ∷ 1 ∷ 0 ∷ [])) }
    ensures inside { StaysInside S.Store tx.old tx.new }
{
    create_format(tx)?;
    create_orders(tx)?;
    create_standing(tx)
}

/// Makes the tables and the indexes of version 2, without lives.
pub fn create_all<S: Alter>(tx: &mut Transaction<'_, S>, alloc: Global) -> Result<(), Error>
    requires { ShowsSchema no_schema (behind S.Store tx.old) }
    ensures ok { Does S.Store tx.old tx.new result (λ old new. WritesLives old new empty) }
    ensures inside { StaysInside S.Store tx.old tx.new }
{
    create_tables(tx)?;
    reshape(tx, Indexes::None)?;
    set_version(tx, alloc)
}
