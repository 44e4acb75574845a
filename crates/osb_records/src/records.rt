//! The records of all orders, over any store.

ghost use Rattle.std.specs.Prelude.{◌≡◌, ◌≢◌, ◌<◌, length, false, IsTrue, IfOk, IfErr, OnOk, OnErr};
ghost use Rattle.std.specs.FinMap.{empty};
ghost use Rattle.std.specs.List.{AllByRecursion};
ghost use Rattle.sqlite.specs.Held.{state};
ghost use Rattle.sqlite.specs.State.{HasCleanDisk, Survives};
ghost use Rattle.sqlite.specs.Steps.{over_memory};
ghost use Rattle.sqlite.specs.Tree.{Trees};
ghost use Rattle.osb_asks.specs.Asks.{is_catalog};
ghost use Rattle.osb_orders.specs.declared.order.Change.TheVariants.{Nothing};
ghost use Rattle.osb_orders.specs.Lives.{Lives, life_of};
ghost use Rattle.osb_orders.specs.ViewData.{data_in, view_of};
ghost use Rattle.osb_orders.specs.Listing.{listing};
ghost use Rattle.osb_orders.specs.Changed.{lives_changed};
ghost use Rattle.osb_audit.specs.Counts.{AreCounts};
ghost use Rattle.osb_audit.specs.Plans.{plans_in_use};
ghost use Rattle.osb_orders.specs.IsLife.{IsLives};
ghost use Rattle.osb_statements.specs.declared.cause.Cause.TheVariants.{Other};
ghost use Rattle.osb_statements.specs.declared.fault.StoreFault.TheVariants as faults;
ghost use Rattle.osb_records.specs.CrashLeaves.{KeepsLives};
ghost use Rattle.osb_records.specs.Opened.{AreLivesOfDatabase, HoldsSame};
ghost use Rattle.osb_statements.specs.NextId.{IsNextId};
ghost use Rattle.osb_statements.specs.Steps.{IsReady, IsSettled, LeavesOnly, stored};
ghost use Rattle.osb_records.specs.Changes.{all_changed, AllCanBeMade, ChangesSomething};
ghost use Rattle.osb_records.specs.Commit.{Commits, FinishesLast, IsDurable};
ghost use Rattle.osb_records.specs.Looks.{Looks, MayLook};

use crate::adopt::take_over;
use crate::change::LifeChange;
use crate::changes::make_all;
use crate::commits::{append, finish};
use crate::looking::{
    read_counts, read_life, read_next_id, read_plans, read_running, view_of_instance,
    view_without_instance,
};
use crate::making::make_tables;
use crate::refusals::Refusals;
use osb_asks::Ask;
use osb_audit::Counts;
use osb_orders::{Change, Order, View};
use osb_statements::{Cause, StoreFault};
use osb_text::Text;
use sqlite::{Alter, Connection, MemStore};
use std::alloc::Global;
use std::marker::Model;

/// The orders of all instances in a database, and how many requests were refused. Contracts see its connection,
/// which shows the lives.
#[derive(Drop)]
pub struct Records<S: Alter> {
    conn: Connection<S>,
    alloc: Global,
    refusals: Refusals,
    /// Why several changes were refused last, until a request that finds the store shut is counted for it.
    refused_all: Option<Cause>,
}

impl<S: Alter> Model for Records<S> {
    ghost use Rattle.sqlite.specs.Held.{Held, held_code, state};
    ghost use Rattle.osb_statements.specs.Steps.{IsReady};

    ghost Value = { Held S };

    ghost coded = { held_code S.code };

    ghost view = { λ records. records.conn };

    ghost invariant = { λ records. IsReady (state S.Store records.conn) };
}

/// A new database in memory.
pub fn open_memory(alloc: Global) -> Result<Records<MemStore>, StoreFault>
    ensures { IfOk result (λ records. stored (state over_memory records) ≡ empty) }
{
    let mut conn = Connection::open_in_memory(alloc)?;
    make_tables(&mut conn, alloc)?;
    Ok(Records {
        conn,
        alloc,
        refusals: Refusals::NONE,
        refused_all: None,
    })
}

impl<S: Alter> Records<S> {
    /// Takes a database over: one that this program made, or one that is empty, in which the tables are
    /// made. One of version 1 becomes one of version 2, in one transaction. Where it has other tables or the rows of no well-formed lives, it isn't ours. With a fault
    /// the connection comes back with its tables as they were, and no transaction is open. A connection
    /// with an open transaction is refused, and comes back with it.
    pub fn adopt(
        alloc: Global,
        mut conn: Connection<S>,
    ) -> Result<Records<S>, (StoreFault, Connection<S>)>
        // The lives are those that stood in the database, and none where it was empty.
        ensures ok { IfOk result (λ records.
            HasCleanDisk (state S.Store records) → IsTrue (state S.Store records).is_open →
            AreLivesOfDatabase (state S.Store conn).now (stored (state S.Store records))) }
        // With a fault the database is as it was, and NotOurs says that no lives are in it.
        ensures err { IfErr result (λ fault.
            HasCleanDisk (state S.Store fault.1) → IsTrue (state S.Store fault.1).is_open →
            (state S.Store fault.1).now ≡ (state S.Store conn).now) }
        ensures not_ours { IfErr result (λ fault.
            HasCleanDisk (state S.Store fault.1) → fault.0 ≡ faults.NotOurs → (lives : Lives) →
            ¬ AreLivesOfDatabase (state S.Store conn).now lives) }
        // No transaction is left open, and one that was open is refused and stays.
        ensures settled { (state S.Store conn).in_transaction ≡ false →
            IfErr result (λ fault. IsSettled (state S.Store fault.1)) }
        ensures open_transaction { IsTrue (state S.Store conn).in_transaction →
            result ≡ Err (faults.Refused Other, conn) }
        // A crash leaves what it could leave before, or a database of the same lives.
        ensures crash { IfOk result (λ records.
            Survives (state S.Store conn) (state S.Store records)
            (HoldsSame (state S.Store conn).now)) }
        ensures fault_crash { IfErr result (λ fault.
            Survives (state S.Store conn) (state S.Store fault.1)
            (HoldsSame (state S.Store conn).now)) }
    {
        match take_over(&mut conn, alloc) {
            Ok(()) => Ok(Records {
                conn,
                alloc,
                refusals: Refusals::NONE,
                refused_all: None,
            }),
            Err(fault) => Err((fault, conn)),
        }
    }

    /// The connection, with the lives that are there.
    pub fn into_connection(self) -> Connection<S>
        ensures same { result ≡ self }
        ensures ready { IsReady (state S.Store result) }
    {
        let Records {
            conn,
            alloc: _,
            refusals: _,
            refused_all: _,
        } = self;
        conn
    }

    /// The lives are well formed, and a crash now leaves a database of these lives and nothing else.
    /// It does nothing when it runs.
    pub fn lives_are_whole(&self)
        ensures whole { HasCleanDisk (state S.Store self.now) →
            IsTrue (state S.Store self.now).is_open → IsLives (stored (state S.Store self.now)) }
        ensures kept { HasCleanDisk (state S.Store self.now) →
            IsTrue (state S.Store self.now).is_open →
            KeepsLives (state S.Store self.now) (stored (state S.Store self.now)) }
    {
        let _ = self.conn.schema();
    }

    /// All orders of the instance.
    pub fn life(&mut self, alloc: Global, instance: &str) -> Result<Vec<Order>, StoreFault>
        ensures ok { HasCleanDisk (state S.Store self.new) →
            IfOk result (λ life.
            life.items ≡ life_of (stored (state S.Store self.old)) instance.now) }
        ensures looks { Looks (state S.Store self.old) (state S.Store self.new) result }
    {
        read_life(&mut self.conn, alloc, instance)
    }

    /// The first id above `after`, by bytes, of an instance that has orders. So all instances are gone
    /// through, from the empty id on.
    pub fn next_id(&mut self, after: &str) -> Result<Option<Text>, StoreFault>
        ensures ok { HasCleanDisk (state S.Store self.new) →
            IfOk result (IsNextId (stored (state S.Store self.old)) after.now) }
        ensures looks { Looks (state S.Store self.old) (state S.Store self.new) result }
    {
        read_next_id(&mut self.conn, after)
    }

    /// The first so many instances whose last order runs and whose id is greater than `after` by
    /// bytes, in the order of their ids, each with that order.
    pub fn running(
        &mut self,
        alloc: Global,
        after: &str,
        limit: u32,
    ) -> Result<Vec<(Text, Order)>, StoreFault>
        ensures ok { HasCleanDisk (state S.Store self.new) →
            IfOk result (λ pairs.
            pairs.items ≡ listing (stored (state S.Store self.old)) after.now limit) }
        ensures looks { Looks (state S.Store self.old) (state S.Store self.new) result }
    {
        read_running(&mut self.conn, alloc, after, limit)
    }

    /// The pairs of service and plan of the instances that aren't absent and of the Updates that run,
    /// each once, in the order of their bytes.
    pub fn plans_in_use(&mut self, alloc: Global) -> Result<Vec<(Text, Text)>, StoreFault>
        ensures ok { HasCleanDisk (state S.Store self.new) →
            IfOk result (λ plans. plans.items ≡ plans_in_use (stored (state S.Store self.old))) }
        ensures looks { Looks (state S.Store self.old) (state S.Store self.new) result }
    {
        read_plans(&mut self.conn, alloc)
    }

    /// How many instances and bindings there are that aren't absent, and how many orders run. All of
    /// their rows are read.
    pub fn counts(&mut self, alloc: Global) -> Result<Counts, StoreFault>
        ensures ok { HasCleanDisk (state S.Store self.new) →
            IfOk result (AreCounts (stored (state S.Store self.old))) }
        ensures looks { Looks (state S.Store self.old) (state S.Store self.new) result }
    {
        read_counts(&mut self.conn, alloc)
    }

    /// What the ask needs to know of the lives.
    pub fn view(&mut self, alloc: Global, ask: &Ask) -> Result<View, StoreFault>
        ensures ok { HasCleanDisk (state S.Store self.new) →
            IfOk result (λ view. data_in view ≡ view_of (stored (state S.Store self.old)) ask.now) }
        // For the catalog nothing is read, whatever has become of the store.
        ensures open { HasCleanDisk (state S.Store self.new) → is_catalog ask.now ≡ false →
            OnOk result (IsTrue (state S.Store self.old).is_open) }
        ensures looks { MayLook (state S.Store self.old) (state S.Store self.new) }
    {
        match ask.instance() {
            Some(instance) => view_of_instance(&mut self.conn, alloc, instance.as_str(), ask),
            None => view_without_instance(&mut self.conn, alloc, ask),
        }
    }

    /// Makes the change to the life of the instance, in one transaction. Where the store refuses it,
    /// nothing is changed; where a failed disk shuts the store, the next opening finds the lives as
    /// they were or as they would be.
    pub fn commit(&mut self, instance: &str, change: &Change) -> Result<(), StoreFault>
        // The changed lives are well formed, and what is finished is a running last order.
        requires whole { HasCleanDisk (state S.Store self.old) →
            IsTrue (state S.Store self.old).is_open →
            IsLives (lives_changed change.now instance.now (stored (state S.Store self.old))) }
        requires finishes { HasCleanDisk (state S.Store self.old) →
            IsTrue (state S.Store self.old).is_open →
            FinishesLast (life_of (stored (state S.Store self.old)) instance.now) change.now }
        // At `Ok` the change was made, and with an error nothing was.
        ensures ok { HasCleanDisk (state S.Store self.new) →
            OnOk result (stored (state S.Store self.new) ≡
            lives_changed change.now instance.now (stored (state S.Store self.old))) }
        ensures err { HasCleanDisk (state S.Store self.new) →
            IsTrue (state S.Store self.new).is_open →
            OnErr result (stored (state S.Store self.new) ≡ stored (state S.Store self.old)) }
        // A store that a fault has shut stays shut, and no change is made in it.
        ensures was_open { HasCleanDisk (state S.Store self.new) →
            IsTrue (state S.Store self.new).is_open → IsTrue (state S.Store self.old).is_open }
        ensures open { HasCleanDisk (state S.Store self.new) → change.now ≢ Nothing →
            OnOk result (IsTrue (state S.Store self.old).is_open) }
        // A crash of the call leaves what it left before, or the changed lives; a crash after `Ok` leaves only these.
        ensures crash { Survives (state S.Store self.old) (state S.Store self.new) (Commits
            (state S.Store self.old) (lives_changed change.now instance.now (stored
            (state S.Store self.old)))) }
        ensures durable { HasCleanDisk (state S.Store self.new) →
            IsTrue (state S.Store self.new).is_open →
            OnOk result (LeavesOnly (state S.Store self.new) (stored (state S.Store self.new))) }
        ensures lasts { HasCleanDisk (state S.Store self.new) →
            OnOk result ((db : Trees) → (state S.Store self.new).may_leave db →
            IsDurable (state S.Store self.old) change.now instance.now db) }
    {
        match change {
            Change::Nothing => Ok(()),
            Change::Append(order) => append(&mut self.conn, self.alloc, instance, order),
            Change::Finish(number, outcome) => {
                finish(&mut self.conn, self.alloc, instance, *number, outcome)
            }
        }
    }

    /// Makes these changes, one after the other, in one transaction: all of them or, where the store refuses
    /// one, none. Where a failed disk shuts the store, the next opening finds the lives as they were, or as
    /// they are after all of the changes.
    pub fn commit_all(&mut self, changes: &[LifeChange]) -> Result<(), StoreFault>
        requires more { 0 < length changes.now }
        requires some { AllByRecursion ChangesSomething changes.now }
        requires made { HasCleanDisk (state S.Store self.old) →
            IsTrue (state S.Store self.old).is_open →
            AllCanBeMade changes.now (stored (state S.Store self.old)) }
        // At `Ok` all changes were made, and with an error none was.
        ensures ok { HasCleanDisk (state S.Store self.new) →
            OnOk result (stored (state S.Store self.new) ≡
            all_changed changes.now (stored (state S.Store self.old))) }
        ensures err { HasCleanDisk (state S.Store self.new) →
            IsTrue (state S.Store self.new).is_open →
            OnErr result (stored (state S.Store self.new) ≡ stored (state S.Store self.old)) }
        // A store that a fault has shut stays shut, and no change is made in it.
        ensures was_open { HasCleanDisk (state S.Store self.new) →
            IsTrue (state S.Store self.new).is_open → IsTrue (state S.Store self.old).is_open }
        ensures open { HasCleanDisk (state S.Store self.new) →
            OnOk result (IsTrue (state S.Store self.old).is_open) }
        // A crash of the call leaves what it left before, or the lives after all changes; a crash after `Ok` leaves
        // only these.
        ensures crash { Survives (state S.Store self.old) (state S.Store self.new) (Commits
            (state S.Store self.old) (all_changed changes.now (stored (state S.Store self.old)))) }
        ensures durable { HasCleanDisk (state S.Store self.new) →
            OnOk result (LeavesOnly (state S.Store self.new) (stored (state S.Store self.new))) }
    {
        let made = make_all(&mut self.conn, self.alloc, changes);
        self.refused_all = match made {
            Err(StoreFault::Refused(cause)) => Some(cause),
            Err(StoreFault::NotOurs) | Ok(()) => None,
        };
        made
    }

    /// Counts a request that was refused for this cause. The first one that finds the store shut by a failure
    /// of [`Records::commit_all`] is counted for the cause of that.
    pub fn note_refusal(&mut self, cause: Cause)
        ensures same { self.new ≡ self.old }
    {
        let first = self.refused_all.take();
        let counted = match cause {
            Cause::Shut => first.unwrap_or(cause),
            Cause::Memory | Cause::DiskFull | Cause::DiskFailed | Cause::Other => cause,
        };
        self.refusals.add(counted);
    }

    /// How many requests were refused, for each cause, since this was last asked.
    pub fn take_refusals(&mut self) -> Refusals
        ensures same { self.new ≡ self.old }
    {
        self.refusals.take()
    }
}
