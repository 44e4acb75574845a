//! The records in memory, where no disk fails and the store stays open.

ghost use Rattle.std.specs.Prelude.{◌≡◌, ◌<◌, length, IfOk, OnOk, OnErr};
ghost use Rattle.std.specs.List.{AllByRecursion};
ghost use Rattle.sqlite.specs.Held.{state};
ghost use Rattle.sqlite.specs.Steps.{over_memory};
ghost use Rattle.osb_orders.specs.Lives.{life_of};
ghost use Rattle.osb_orders.specs.ViewData.{data_in, view_of};
ghost use Rattle.osb_orders.specs.Listing.{listing};
ghost use Rattle.osb_orders.specs.Changed.{lives_changed};
ghost use Rattle.osb_orders.specs.IsLife.{IsLives};
ghost use Rattle.osb_audit.specs.Plans as spec;
ghost use Rattle.osb_statements.specs.Steps.{stored};
ghost use Rattle.osb_records.specs.Changes.{all_changed, AllCanBeMade, ChangesSomething};
ghost use Rattle.osb_records.specs.Commit.{FinishesLast};

use crate::change::LifeChange;
use crate::records::Records;
use osb_asks::Ask;
use osb_orders::{Change, Order, View};
use osb_statements::StoreFault;
use osb_text::Text;
use sqlite::MemStore;
use std::alloc::Global;

/// As `Records::life`.
pub fn life(
    records: &mut Records<MemStore>,
    alloc: Global,
    instance: &str,
) -> Result<Vec<Order>, StoreFault>
    ensures ok { IfOk result (λ life.
        life.items ≡ life_of (stored (state over_memory records.old)) instance.now) }
    ensures same { stored (state over_memory records.new) ≡ stored (state over_memory records.old) }
{
    records.life(alloc, instance)
}

/// As `Records::running`.
pub fn running(
    records: &mut Records<MemStore>,
    alloc: Global,
    after: &str,
    limit: u32,
) -> Result<Vec<(Text, Order)>, StoreFault>
    ensures ok { IfOk result (λ pairs.
        pairs.items ≡ listing (stored (state over_memory records.old)) after.now limit) }
    ensures same { stored (state over_memory records.new) ≡ stored (state over_memory records.old) }
{
    records.running(alloc, after, limit)
}

/// As `Records::view`; and the lives are well formed.
pub fn view(records: &mut Records<MemStore>, alloc: Global, ask: &Ask) -> Result<View, StoreFault>
    ensures ok { IfOk result (λ view.
        data_in view ≡ view_of (stored (state over_memory records.old)) ask.now) }
    ensures same { stored (state over_memory records.new) ≡ stored (state over_memory records.old) }
    ensures whole { IsLives (stored (state over_memory records.new)) }
{
    records.lives_are_whole();
    records.view(alloc, ask)
}

/// As `Records::plans_in_use`.
pub fn plans_in_use(
    records: &mut Records<MemStore>,
    alloc: Global,
) -> Result<Vec<(Text, Text)>, StoreFault>
    ensures ok { IfOk result (λ plans.
        plans.items ≡ spec.plans_in_use (stored (state over_memory records.old))) }
    ensures same { stored (state over_memory records.new) ≡ stored (state over_memory records.old) }
{
    records.plans_in_use(alloc)
}

/// As `Records::commit`.
pub fn commit(
    records: &mut Records<MemStore>,
    instance: &str,
    change: &Change,
) -> Result<(), StoreFault>
    requires whole { IsLives (lives_changed change.now instance.now
        (stored (state over_memory records.old))) }
    requires finishes { FinishesLast (life_of
        (stored (state over_memory records.old)) instance.now) change.now }
    ensures ok { OnOk result (stored (state over_memory records.new) ≡
        lives_changed change.now instance.now (stored (state over_memory records.old))) }
    ensures err { OnErr result (stored (state over_memory records.new) ≡
        stored (state over_memory records.old)) }
{
    records.commit(instance, change)
}

/// As `Records::commit_all`.
pub fn commit_all(records: &mut Records<MemStore>, changes: &[LifeChange]) -> Result<(), StoreFault>
    requires more { 0 < length changes.now }
    requires some { AllByRecursion ChangesSomething changes.now }
    requires made { AllCanBeMade changes.now (stored (state over_memory records.old)) }
    ensures ok { OnOk result (stored (state over_memory records.new) ≡
        all_changed changes.now (stored (state over_memory records.old))) }
    ensures err { OnErr result (stored (state over_memory records.new) ≡
        stored (state over_memory records.old)) }
{
    records.commit_all(changes)
}
