//! How much there is to trim.

ghost use Rattle.std.specs.Prelude.{◌≡◌};
ghost use Rattle.osb_trim.specs.Trimmed.{is_erased, trimmed_count};

use crate::trimming::{deleted, erased_place, erased_spot};
use osb_orders::Order;

/// How many orders of the life have other attributes once it is trimmed.
pub fn trimmed_count(life: &[Order]) -> usize
    ensures { result ≡ trimmed_count life.now }
{
    let mut count = 0;
    for order in &life[..deleted(life)] {
        if !is_erased(order) {
            count += 1;
        }
    }
    count
}

/// Whether nothing that was asked for is left.
fn is_erased(order: &Order) -> bool
    ensures { result ≡ is_erased order.now }
{
    let left = &order.attributes;
    left.service.as_str() == "-"
        && left.plan.as_str() == "-"
        && left.place.as_str() == erased_place(order.kind)
        && left.spot.as_str() == erased_spot(order.kind)
        && left.parameters.as_str() == "{}"
        && left.maintenance.is_empty()
        && left.context.as_str() == "{}"
}
