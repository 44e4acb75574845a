//! Changes of several lives, all in one transaction.

ghost use Rattle.std.specs.Prelude.{◌<◌, length, IsTrue, OnOk};
ghost use Rattle.std.specs.List.{AllByRecursion};
ghost use Rattle.sqlite.specs.Held.{state};
ghost use Rattle.sqlite.specs.State.{HasCleanDisk};
ghost use Rattle.osb_orders.specs.Changed.{lives_changed};
ghost use Rattle.osb_contexts.specs.Reads.{behind, Does, StaysInside};
ghost use Rattle.osb_statements.specs.Steps.{IsReady, stored};
ghost use Rattle.osb_records.specs.Changes.{all_changed, AllCanBeMade, CanBeMade, ChangesSomething};
ghost use Rattle.osb_records.specs.Transactions.{BecomesLives, Goes, HasMade, IsInside};

use crate::change::LifeChange;
use osb_orders::Change;
use osb_statements::{StoreFault, append_joined, end_joined};
use sqlite::{Alter, Connection, Transaction};
use std::alloc::Global;

/// Makes a change inside the transaction.
#[tactic(auto, using(crate::proofs::ChangesLemmas::written_goes))]
fn make_in<S: Alter>(
    tx: &mut Transaction<'_, S>,
    alloc: Global,
    change: &LifeChange,
) -> Result<(), StoreFault>
    requires inside { IsInside (behind S.Store tx.old) }
    requires some { ChangesSomething change.now }
    requires made { HasCleanDisk (behind S.Store tx.old) → IsTrue (behind S.Store tx.old).is_open →
        CanBeMade change.now (stored (behind S.Store tx.old)) }
    ensures ok { Does S.Store tx.old tx.new result (λ old new. Goes old new
        (lives_changed change.now.change change.now.instance (stored old))) }
    ensures inside { StaysInside S.Store tx.old tx.new }
{
    let instance = change.instance.as_str();
    match &change.change {
        Change::Nothing => Ok(()),
        Change::Append(order) => append_joined(tx, alloc, instance, order),
        Change::Finish(number, outcome) => end_joined(tx, alloc, instance, *number, outcome),
    }
}

/// Makes changes inside the transaction, one after the other.
fn make_all_in<S: Alter>(
    tx: &mut Transaction<'_, S>,
    alloc: Global,
    changes: &[LifeChange],
) -> Result<(), StoreFault>
    requires inside { IsInside (behind S.Store tx.old) }
    requires some { AllByRecursion ChangesSomething changes.now }
    requires made { HasCleanDisk (behind S.Store tx.old) → IsTrue (behind S.Store tx.old).is_open →
        AllCanBeMade changes.now (stored (behind S.Store tx.old)) }
    ensures ok { HasCleanDisk (behind S.Store tx.new) → OnOk result (HasMade
        (behind S.Store tx.old) (behind S.Store tx.new) changes.now (length changes.now)) }
    ensures inside { StaysInside S.Store tx.old tx.new }
{
    for change in changes {
        make_in(tx, alloc, change)?;
    }
    Ok(())
}

/// Makes changes in one transaction, one after the other.
pub(crate) fn make_all<S: Alter>(
    conn: &mut Connection<S>,
    alloc: Global,
    changes: &[LifeChange],
) -> Result<(), StoreFault>
    requires ready { IsReady (state S.Store conn.old) }
    requires some { AllByRecursion ChangesSomething changes.now }
    requires more { 0 < length changes.now }
    requires made { HasCleanDisk (state S.Store conn.old) →
        IsTrue (state S.Store conn.old).is_open →
        AllCanBeMade changes.now (stored (state S.Store conn.old)) }
    ensures ready { IsReady (state S.Store conn.new) }
    ensures becomes { BecomesLives (state S.Store conn.old) (state S.Store conn.new) result
        (all_changed changes.now (stored (state S.Store conn.old))) }
{
    let _ = conn.schema();
    let mut tx = conn.transaction();
    make_all_in(&mut tx, alloc, changes)?;
    Ok(tx.commit()?)
}
