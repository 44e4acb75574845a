//! Whether orders and rows are in the order of their keys, each key once.

ghost use Rattle.std.specs.Prelude.{◌≡◌, ◌↔◌, true};
ghost use Rattle.std.specs.Ordering.{is_lt};
ghost use Rattle.std.specs.List.Sorted.{IsStrictlySortedBy};
ghost use Rattle.osb_audit.specs.Orders.{entry_cmp};
ghost use Rattle.osb_audit.specs.Instances.{instance_cmp};
ghost use Rattle.osb_audit.specs.Bindings.{binding_cmp};

use crate::entry::BindingEntry;
use osb_orders::Order;
use osb_standing::InstanceRow;
use osb_text::Text;

/// Whether each order comes before the next, by instance and number.
pub(crate) fn orders_rise(orders: &[(Text, Order)]) -> bool
    ensures { (result ≡ true) ↔ IsStrictlySortedBy entry_cmp orders.now }
{
    orders.is_sorted_by(|entry, next| is_before(entry, next))
}

fn is_before(entry: &(Text, Order), next: &(Text, Order)) -> bool
    ensures { result ≡ is_lt (entry_cmp entry.now next.now) }
{
    let ids = entry.0.cmp(&next.0);
    ids.then(entry.1.number.cmp(&next.1.number)).is_lt()
}

/// Whether each instance comes before the next.
pub(crate) fn instances_rise(instances: &[(Text, InstanceRow)]) -> bool
    ensures { (result ≡ true) ↔ IsStrictlySortedBy instance_cmp instances.now }
{
    instances.is_sorted_by(|entry, next| entry.0 < next.0)
}

/// Whether each binding comes before the next, by instance and binding.
pub(crate) fn bindings_rise(bindings: &[BindingEntry]) -> bool
    ensures { (result ≡ true) ↔ IsStrictlySortedBy binding_cmp bindings.now }
{
    bindings.is_sorted_by(|entry, next| is_bound_before(entry, next))
}

fn is_bound_before(entry: &BindingEntry, next: &BindingEntry) -> bool
    ensures { result ≡ is_lt (binding_cmp entry.now next.now) }
{
    let ids = entry.instance.cmp(&next.instance);
    ids.then(entry.binding.cmp(&next.binding)).is_lt()
}
