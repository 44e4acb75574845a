//! The plans in use, read off the rows of the instances and the running orders.

ghost use Rattle.std.specs.Prelude.{◌≡◌, ℕ, ◌≤◌, ◌∷◌, [], List, length, IfOk, OnOk};
ghost use Rattle.std.specs.List.Sorted.{IsStrictlySortedBy};
ghost use Rattle.osb_orders.specs.Lives.{Lives};
ghost use Rattle.osb_orders.specs.Listing.{listing};
ghost use Rattle.osb_orders.specs.IsLife.{IsLives};
ghost use Rattle.osb_audit.specs.Instances.{InstanceEntry, instance_cmp, InstancesStand};
ghost use Rattle.osb_audit.specs.Plans as spec;
ghost use Rattle.osb_audit.specs.Plans.{pair_cmp, pair_in};
ghost use Rattle.osb_audit.specs.Gathered.{pairs_in_row, pairs_in_order, pairs_in_rows, pairs_in_orders, Adds, HasAdded};

use osb_orders::{Attributes, Order, OrderKind, OrderState};
use osb_standing::InstanceRow;
use osb_text::Text;
use std::alloc::{AllocError, Global};
use std::collections::BTreeSet;

/// The pairs of service and plan of the instances that aren't absent and of the Updates that run,
/// each once, in the order of their bytes. `standing` are those that `add_standing` has added of the
/// rows of all instances, and `running` are all running orders.
pub fn plans_in_use(
    alloc: Global,
    mut standing: BTreeSet<(Text, Text)>,
    running: &[(Text, Order)],
) -> Result<Vec<(Text, Text)>, AllocError>
    ensures { (lives : Lives) (limit : ℕ) (instances : List InstanceEntry) → IsLives lives →
        IsStrictlySortedBy instance_cmp instances → InstancesStand lives instances →
        length instances ≤ limit → running.now ≡ listing lives [] limit →
        HasAdded (pairs_in_rows instances) standing →
        IfOk result (λ plans. plans.items ≡ spec.plans_in_use lives) }
{
    add_updating(&mut standing, running)?;
    listed(alloc, standing)
}

fn listed(alloc: Global, plans: BTreeSet<(Text, Text)>) -> Result<Vec<(Text, Text)>, AllocError>
    ensures items { IfOk result (λ list. list.items ≡ plans.keys) }
    ensures ordered { IsStrictlySortedBy pair_cmp plans.keys }
{
    plans.into_iter().collect(alloc)
}

/// Adds the plans of the instances that aren't absent.
pub fn add_standing(
    plans: &mut BTreeSet<(Text, Text)>,
    instances: &[(Text, InstanceRow)],
) -> Result<(), AllocError>
    ensures { OnOk result (Adds (pairs_in_rows instances.now) plans.old plans.new) }
{
    for (_, row) in instances {
        add_row(plans, row)?;
    }
    Ok(())
}

fn add_row(plans: &mut BTreeSet<(Text, Text)>, row: &InstanceRow) -> Result<(), AllocError>
    ensures { OnOk result (Adds (pairs_in_row row.now) plans.old plans.new) }
{
    match &row.standing {
        None => Ok(()),
        Some(standing) => add(plans, &standing.attributes),
    }
}

/// Adds the plans of the Updates that run.
fn add_updating(
    plans: &mut BTreeSet<(Text, Text)>,
    running: &[(Text, Order)],
) -> Result<(), AllocError>
    ensures { OnOk result (Adds (pairs_in_orders running.now) plans.old plans.new) }
{
    for (_, order) in running {
        add_order(plans, order)?;
    }
    Ok(())
}

fn add_order(plans: &mut BTreeSet<(Text, Text)>, order: &Order) -> Result<(), AllocError>
    ensures { OnOk result (Adds (pairs_in_order order.now) plans.old plans.new) }
{
    if order.is_a(OrderKind::Update) && order.is_now(OrderState::Running) {
        add(plans, &order.attributes)
    } else {
        Ok(())
    }
}

fn add(plans: &mut BTreeSet<(Text, Text)>, attributes: &Attributes) -> Result<(), AllocError>
    ensures { OnOk result (Adds (pair_in attributes.now ∷ []) plans.old plans.new) }
{
    let service = attributes.service.clone()?;
    let plan = attributes.plan.clone()?;
    plans.insert((service, plan))?;
    Ok(())
}
