//! The plans in use, read in pieces inside a transaction that is rolled back.

ghost use Rattle.std.specs.Prelude.{◌≡◌, ◌<◌, true, [], length, filter, IfOk, OnOk};
ghost use Rattle.std.specs.declared.cmp.Ordering.TheVariants.{Less};
ghost use Rattle.std.specs.Ordering.{nat_cmp};
ghost use Rattle.std.specs.Cmp.Lexicographic.{slice_cmp};
ghost use Rattle.sqlite.specs.State.{HasCleanDisk};
ghost use Rattle.sqlite.specs.Values.{bound_value};
ghost use Rattle.sqlite.specs.declared.types.Value.TheVariants.{Text as Words};
ghost use Rattle.sqlite_value.specs.Value.{owned};
ghost use Rattle.osb_orders.specs.Listing.{listing};
ghost use Rattle.osb_audit.specs.Plans as spec;
ghost use Rattle.osb_audit.specs.Gathered.{pairs_in_rows, Adds, HasAdded};
ghost use Rattle.osb_statements.specs.Pieces.{is_instance_between};
ghost use Rattle.osb_statements.specs.Queries.{ShowsRecords, ShowsLives};
ghost use Rattle.osb_statements.specs.Steps.{bare_in, content, stored};
ghost use Rattle.osb_contexts.specs.Reads.{Reads, MayRead, Finds, MayFind, behind};

use crate::cause::Cause;
use crate::fault::StoreFault;
use crate::instances::read_instances_between;
use crate::pieces::end_of_piece;
use crate::reading::list_running;
use osb_audit::{add_standing, plans_in_use};
use osb_orders::Order;
use osb_standing::InstanceRow;
use osb_text::Text;
use sqlite::types::ValueRef;
use sqlite::{Alter, Transaction};
use std::alloc::Global;
use std::collections::BTreeSet;

/// The id of the instance behind so many others.
pub(crate) const END: &str =
    "SELECT instance_id FROM instances WHERE instance_id > ?1 ORDER BY instance_id LIMIT 1 OFFSET ?2";

/// The rows of the instances with ids above the first and up to the second, by their ids.
#[tactic(auto, using(crate::proofs::PlanLemmas::records_schema))]
pub(crate) fn some_instances<S: Alter>(
    tx: &mut Transaction<'_, S>,
    alloc: Global,
    after: &str,
    to: ValueRef<'_>,
) -> Result<Vec<(Text, InstanceRow)>, StoreFault>
    requires { ShowsRecords (behind S.Store tx.old) }
    ensures ok { Finds S.Store tx.old tx.new result (λ s entries. entries.items ≡
        filter (is_instance_between after.now (bound_value (owned to.entry)))
        (content s).instances) }
    ensures reads { Reads S.Store tx.old tx.new result }
{
    read_instances_between(tx, alloc, after, to)
}

/// Adds the plans of these instances.
fn add_some<S: Alter>(
    tx: &mut Transaction<'_, S>,
    alloc: Global,
    plans: &mut BTreeSet<(Text, Text)>,
    after: &str,
    to: ValueRef<'_>,
) -> Result<(), StoreFault>
    requires { ShowsRecords (behind S.Store tx.old) }
    ensures ok { HasCleanDisk (behind S.Store tx.new) → OnOk result (Adds (pairs_in_rows
        (filter (is_instance_between after.now (bound_value (owned to.entry)))
        (content (behind S.Store tx.old)).instances)) plans.old plans.new) }
    ensures reads { Reads S.Store tx.old tx.new result }
{
    let rows = some_instances(tx, alloc, after, to)?;
    add_standing(plans, &rows)?;
    Ok(())
}

/// The same of those up to an id, which has to be above the first.
fn add_next<S: Alter>(
    tx: &mut Transaction<'_, S>,
    alloc: Global,
    plans: &mut BTreeSet<(Text, Text)>,
    after: &Text,
    to: &Text,
) -> Result<(), StoreFault>
    requires { ShowsRecords (behind S.Store tx.old) }
    ensures below { OnOk result (slice_cmp nat_cmp after.now to.now ≡ Less) }
    ensures ok { HasCleanDisk (behind S.Store tx.new) → OnOk result (Adds (pairs_in_rows
        (filter (is_instance_between after.now (Words to.now))
        (content (behind S.Store tx.old)).instances)) plans.old plans.new) }
    ensures reads { Reads S.Store tx.old tx.new result }
{
    if after < to {
        add_some(
            tx,
            alloc,
            plans,
            after.as_str(),
            ValueRef::Text(to.as_str().as_bytes()),
        )
    } else {
        Err(StoreFault::Refused(Cause::Other))
    }
}

/// The plans of the instances that aren't absent.
fn standing_plans<S: Alter>(
    tx: &mut Transaction<'_, S>,
    alloc: Global,
) -> Result<BTreeSet<(Text, Text)>, StoreFault>
    requires { ShowsRecords (behind S.Store tx.old) }
    ensures ok { MayFind S.Store tx.old tx.new result (λ s plans.
        HasAdded (pairs_in_rows (content s).instances) plans) }
    ensures reads { MayRead S.Store tx.old tx.new result }
{
    let mut plans = BTreeSet::new(alloc);
    let mut after = Text::new(alloc);
    for _ in 0..u64::MAX {
        let Some(to) = end_of_piece(tx, END, after.as_str())? else {
            add_some(tx, alloc, &mut plans, after.as_str(), ValueRef::Blob(&[]))?;
            return Ok(plans);
        };
        add_next(tx, alloc, &mut plans, &after, &to)?;
        after = to;
    }
    Err(StoreFault::Refused(Cause::Other))
}

fn is_below(running: &[(Text, Order)], most: u32) -> bool
    ensures { result ≡ true → length running.now < most }
{
    match u32::try_from(running.len()) {
        Ok(count) => count < most,
        Err(_) => false,
    }
}

/// The running orders, of which there have to be fewer than this.
fn all_running<S: Alter>(
    tx: &mut Transaction<'_, S>,
    alloc: Global,
    most: u32,
) -> Result<Vec<(Text, Order)>, StoreFault>
    requires { ShowsRecords (behind S.Store tx.old) }
    ensures ok { Finds S.Store tx.old tx.new result (λ s running.
        running.items ≡ listing (bare_in s) [] most) }
    ensures below { IfOk result (λ running. length running.items < most) }
    ensures reads { Reads S.Store tx.old tx.new result }
{
    let running = list_running(tx, alloc, "", most)?;
    if is_below(&running, most) {
        Ok(running)
    } else {
        drop(running);
        Err(StoreFault::Refused(Cause::Other))
    }
}

/// The services and plans that instances have, each pair once.
pub fn list_plans<S: Alter>(
    tx: &mut Transaction<'_, S>,
    alloc: Global,
) -> Result<Vec<(Text, Text)>, StoreFault>
    requires { ShowsLives (behind S.Store tx.old) }
    ensures ok { Finds S.Store tx.old tx.new result (λ s plans.
        plans.items ≡ spec.plans_in_use (stored s)) }
    ensures reads { Reads S.Store tx.old tx.new result }
{
    let running = all_running(tx, alloc, u32::MAX)?;
    let standing = standing_plans(tx, alloc)?;
    Ok(plans_in_use(alloc, standing, &running)?)
}
