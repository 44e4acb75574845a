//! Changes of a life, each one transaction.

ghost use Rattle.std.specs.Prelude.{IsTrue};
ghost use Rattle.sqlite.specs.Held.{state};
ghost use Rattle.sqlite.specs.State.{HasCleanDisk};
ghost use Rattle.osb_orders.specs.declared.order.Change.TheVariants.{Append, Finish};
ghost use Rattle.osb_orders.specs.Lives.{life_of};
ghost use Rattle.osb_orders.specs.Changed.{lives_changed};
ghost use Rattle.osb_orders.specs.IsLife.{IsLives};
ghost use Rattle.osb_orders.specs.Allowed.{IsFinishable};
ghost use Rattle.osb_statements.specs.Steps.{IsReady, stored};
ghost use Rattle.osb_records.specs.Transactions.{BecomesLives};

use osb_orders::{Order, Outcome};
use osb_statements::{StoreFault, append_joined, end_joined};
use sqlite::{Alter, Connection};
use std::alloc::Global;

/// One order more for the instance.
pub(crate) fn append<S: Alter>(
    conn: &mut Connection<S>,
    alloc: Global,
    instance: &str,
    order: &Order,
) -> Result<(), StoreFault>
    requires ready { IsReady (state S.Store conn.old) }
    requires whole { HasCleanDisk (state S.Store conn.old) →
        IsTrue (state S.Store conn.old).is_open →
        IsLives (lives_changed (Append order.now) instance.now (stored (state S.Store conn.old))) }
    ensures ready { IsReady (state S.Store conn.new) }
    ensures becomes { BecomesLives (state S.Store conn.old) (state S.Store conn.new) result
        (lives_changed (Append order.now) instance.now (stored (state S.Store conn.old))) }
{
    let mut tx = conn.transaction();
    append_joined(&mut tx, alloc, instance, order)?;
    Ok(tx.commit()?)
}

/// The end of the running last order of the instance.
pub(crate) fn finish<S: Alter>(
    conn: &mut Connection<S>,
    alloc: Global,
    instance: &str,
    number: u32,
    outcome: &Outcome,
) -> Result<(), StoreFault>
    requires ready { IsReady (state S.Store conn.old) }
    requires whole { HasCleanDisk (state S.Store conn.old) →
        IsTrue (state S.Store conn.old).is_open →
        IsLives (lives_changed (Finish number outcome.now) instance.now (stored
        (state S.Store conn.old))) }
    requires last { HasCleanDisk (state S.Store conn.old) →
        IsTrue (state S.Store conn.old).is_open →
        IsFinishable (life_of (stored (state S.Store conn.old)) instance.now) number outcome.now }
    ensures ready { IsReady (state S.Store conn.new) }
    ensures becomes { BecomesLives (state S.Store conn.old) (state S.Store conn.new) result
        (lives_changed (Finish number outcome.now) instance.now (stored (state S.Store conn.old))) }
{
    let mut tx = conn.transaction();
    end_joined(&mut tx, alloc, instance, number, outcome)?;
    Ok(tx.commit()?)
}
