//! Whether lists of orders and rows are those of well-formed lives, instance by instance.

ghost use Rattle.std.specs.Prelude.{◌≡◌, ◌↔◌, true, length, IfOk};
ghost use Rattle.std.specs.List.{take_while};
ghost use Rattle.osb_audit.specs.Orders.{is_of};
ghost use Rattle.osb_audit.specs.Bindings.{is_bound};
ghost use Rattle.osb_audit.specs.Runs.{run, past};
ghost use Rattle.osb_audit.specs.Audit.{AreSorted, AreConsistent, AreRowsOfLives};

use crate::entry::BindingEntry;
use crate::life::is_consistent;
use crate::rising::{bindings_rise, instances_rise, orders_rise};
use osb_orders::Order;
use osb_standing::InstanceRow;
use osb_text::Text;
use std::alloc::{AllocError, Global};

/// Whether these lists are exactly the orders of well-formed lives, the rows of their instances and
/// the rows of their bindings, each in the order of its keys. It passes over each list twice.
pub fn are_rows_of_lives(
    alloc: Global,
    orders: &[(Text, Order)],
    instances: &[(Text, InstanceRow)],
    bindings: &[BindingEntry],
) -> Result<bool, AllocError>
    ensures { IfOk result (λ yes. (yes ≡ true) ↔ AreRowsOfLives orders.now instances.now bindings.now) }
{
    if !rise(orders, instances, bindings) {
        return Ok(false);
    }
    stand(alloc, orders, instances, bindings)
}

fn rise(
    orders: &[(Text, Order)],
    instances: &[(Text, InstanceRow)],
    bindings: &[BindingEntry],
) -> bool
    ensures { (result ≡ true) ↔ AreSorted orders.now instances.now bindings.now }
{
    orders_rise(orders) && instances_rise(instances) && bindings_rise(bindings)
}

/// Takes the orders and the bindings of one instance after the other from the front.
fn stand(
    alloc: Global,
    orders: &[(Text, Order)],
    instances: &[(Text, InstanceRow)],
    bindings: &[BindingEntry],
) -> Result<bool, AllocError>
    ensures { AreSorted orders.now instances.now bindings.now → IfOk result (λ yes. (yes ≡ true) ↔ AreConsistent orders.now instances.now bindings.now) }
{
    let mut later = orders;
    let mut others = bindings;
    for (id, row) in instances {
        let life = orders_of(id, later);
        let bound = bindings_of(id, others);
        if !is_consistent(alloc, id, row, life.0, bound.0)? {
            return Ok(false);
        }
        later = life.1;
        others = bound.1;
    }
    Ok(later.is_empty() && others.is_empty())
}

/// The orders of the instance at the front, and those that follow.
fn orders_of<'o>(
    id: &Text,
    orders: &'o [(Text, Order)],
) -> (&'o [(Text, Order)], &'o [(Text, Order)])
    ensures front { result.0.now ≡ run (is_of id.now) orders.now }
    ensures back { result.1.now ≡ past (is_of id.now) orders.now }
{
    orders.split_at(count_orders(id, orders))
}

fn count_orders(id: &Text, orders: &[(Text, Order)]) -> usize
    ensures { result ≡ length (take_while (is_of id.now) orders.now) }
{
    orders.iter().take_while(|entry| entry.0 == *id).count()
}

/// The bindings of the instance at the front, and those that follow.
fn bindings_of<'b>(
    id: &Text,
    bindings: &'b [BindingEntry],
) -> (&'b [BindingEntry], &'b [BindingEntry])
    ensures front { result.0.now ≡ run (is_bound id.now) bindings.now }
    ensures back { result.1.now ≡ past (is_bound id.now) bindings.now }
{
    bindings.split_at(count_bindings(id, bindings))
}

fn count_bindings(id: &Text, bindings: &[BindingEntry]) -> usize
    ensures { result ≡ length (take_while (is_bound id.now) bindings.now) }
{
    bindings
        .iter()
        .take_while(|entry| entry.instance == *id)
        .count()
}
