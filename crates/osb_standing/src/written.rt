//! The order that a change writes.

ghost use Rattle.std.specs.Prelude.{◌≡◌};
ghost use Rattle.osb_standing.specs.Written as spec;

use osb_orders::{Change, Order};

/// The order that a change writes: the new one, or the instance's last with the outcome that ends
/// it. A change to nothing writes none, and neither does an end where there is no order.
pub fn order_written(last: Option<Order>, change: Change) -> Option<Order>
    ensures { result ≡ spec.order_written last change }
{
    match change {
        Change::Nothing => None,
        Change::Append(order) => Some(order),
        Change::Finish(_, outcome) => match last {
            None => None,
            Some(order) => Some(Order { outcome, ..order }),
        },
    }
}
