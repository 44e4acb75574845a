//! Making the tables and the indexes in a database that has none.

ghost use Rattle.std.specs.Prelude.{◌≡◌, OnOk, IsTrue, OnErr};
ghost use Rattle.std.specs.FinMap.{empty};
ghost use Rattle.sqlite.specs.Held.{state};
ghost use Rattle.sqlite.specs.State.{HasCleanDisk, Survives};
ghost use Rattle.osb_tables.specs.Tables.{no_schema};
ghost use Rattle.osb_contexts.specs.Inside.{ShowsSchema};
ghost use Rattle.osb_statements.specs.Steps.{HoldsLives, IsSettled, IsReady, stored};

use osb_statements::create_all;
use sqlite::{Alter, Connection, Error};
use std::alloc::Global;

/// Makes the tables and the indexes in a database that has none: all of them or none.
#[tactic(auto, using(osb_statements::proofs::StepLemmas::committed_lives))]
pub(crate) fn make_tables<S: Alter>(conn: &mut Connection<S>, alloc: Global) -> Result<(), Error>
    requires settled { IsSettled (state S.Store conn.old) }
    requires blank { ShowsSchema no_schema (state S.Store conn.old) }
    ensures settled { IsSettled (state S.Store conn.new) }
    ensures ready { OnOk result (IsReady (state S.Store conn.new)) }
    ensures ok { HasCleanDisk (state S.Store conn.new) →
        OnOk result (stored (state S.Store conn.new) ≡ empty) }
    ensures err { HasCleanDisk (state S.Store conn.new) → IsTrue (state S.Store conn.new).is_open →
        OnErr result ((state S.Store conn.new).now ≡ (state S.Store conn.old).now) }
    ensures crash { Survives (state S.Store conn.old) (state S.Store conn.new) (HoldsLives empty) }
{
    let mut tx = conn.transaction();
    create_all(&mut tx, alloc)?;
    tx.commit()
}
