//! Lives copied into another database, each trimmed.

ghost use Rattle.std.specs.Prelude.{◌≡◌, ◌≢◌, true, [], Err, IsTrue, OnOk};
ghost use Rattle.std.specs.FinMap.{empty};
ghost use Rattle.sqlite.specs.Held.{Held, state};
ghost use Rattle.sqlite.specs.State.{HasCleanDisk};
ghost use Rattle.osb_text.specs.Id.{is_id};
ghost use Rattle.osb_orders.specs.IsLife.{IsLife};
ghost use Rattle.osb_orders.specs.Lives.{life_of};
ghost use Rattle.osb_statements.specs.Steps.{stored};
ghost use Rattle.osb_trim.specs.Trimmed.{trimmed, trimmed_lives};
ghost use Rattle.osb_records.specs.Looks.{Looks};
ghost use Rattle.osb_file.specs.Inside.{HasLifeToo};

use osb_laws::exclusive;
use osb_orders::{Change, Order};
use osb_records::{Cause, Records, StoreFault};
use osb_text::Text;
use osb_trim::{trim, trimmed_count, trimmed_is_whole};
use sqlite::Alter;
use std::alloc::Global;

/// Writes the orders of an instance that has none.
fn append_all<S: Alter>(
    records: &mut Records<S>,
    id: &str,
    orders: &[Order],
) -> Result<(), StoreFault>
    requires clean { (held : Held S) → HasCleanDisk (state S.Store held) }
    requires new { IsTrue (state S.Store records.old).is_open →
        life_of (stored (state S.Store records.old)) id.now ≡ [] }
    requires id { is_id id.now ≡ true }
    requires life { IsLife orders.now }
    ensures ok { IsTrue (state S.Store records.new).is_open → OnOk result (HasLifeToo
        (stored (state S.Store records.old)) id.now orders.now
        (stored (state S.Store records.new))) }
    ensures was_open { IsTrue (state S.Store records.new).is_open →
        IsTrue (state S.Store records.old).is_open }
{
    exclusive();
    for order in orders {
        let change = Change::Append(order.clone()?);
        records.lives_are_whole();
        records.commit(id, &change)?;
    }
    Ok(())
}

/// Copies the life of an instance, trimmed, and gives how many of its orders that changed.
fn copy_life<S: Alter, T: Alter>(
    alloc: Global,
    source: &mut Records<S>,
    target: &mut Records<T>,
    id: &str,
) -> Result<usize, StoreFault>
    requires clean { (held : Held S) → HasCleanDisk (state S.Store held) }
    requires clean_target { (held : Held T) → HasCleanDisk (state T.Store held) }
    requires some { IsTrue (state S.Store source.old).is_open →
        life_of (stored (state S.Store source.old)) id.now ≢ [] }
    requires new { IsTrue (state T.Store target.old).is_open →
        life_of (stored (state T.Store target.old)) id.now ≡ [] }
    ensures ok { IsTrue (state T.Store target.new).is_open → OnOk result (HasLifeToo
        (stored (state T.Store target.old)) id.now
        (trimmed (life_of (stored (state S.Store source.old)) id.now))
        (stored (state T.Store target.new))) }
    ensures was_open { IsTrue (state T.Store target.new).is_open →
        IsTrue (state T.Store target.old).is_open }
    ensures looks { Looks (state S.Store source.old) (state S.Store source.new) result }
{
    trimmed_is_whole();
    source.lives_are_whole();
    let life = source.life(alloc, id)?;
    let count = trimmed_count(&life);
    let orders = trim(alloc, life)?;
    append_all(target, id, &orders)?;
    Ok(count)
}

/// Copies all lives, each trimmed, into records without any, and gives how many orders that changed.
pub(crate) fn copy_lives<S: Alter, T: Alter>(
    alloc: Global,
    source: &mut Records<S>,
    target: &mut Records<T>,
) -> Result<usize, StoreFault>
    requires clean { (held : Held S) → HasCleanDisk (state S.Store held) }
    requires clean_target { (held : Held T) → HasCleanDisk (state T.Store held) }
    requires empty { IsTrue (state T.Store target.old).is_open →
        stored (state T.Store target.old) ≡ empty }
    ensures ok { IsTrue (state T.Store target.new).is_open → OnOk result
        (stored (state T.Store target.new) ≡ trimmed_lives (stored (state S.Store source.old))) }
    ensures open { OnOk result (IsTrue (state S.Store source.old).is_open) }
    ensures was_open { IsTrue (state T.Store target.new).is_open →
        IsTrue (state T.Store target.old).is_open }
{
    trimmed_is_whole();
    source.lives_are_whole();
    let mut count: usize = 0;
    let mut after = Text::new(alloc);
    for _ in 0..u64::MAX {
        let Some(id) = source.next_id(after.as_str())? else {
            target.lives_are_whole();
            return Ok(count);
        };
        count = count.saturating_add(copy_life(alloc, source, target, id.as_str())?);
        after = id;
    }
    Err(StoreFault::Refused(Cause::Other))
}
