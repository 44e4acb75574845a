//! The numbers in the names of orders.

ghost use Rattle.std.specs.Prelude.{◌≡◌, ◌<◌, Some};
ghost use Rattle.osb_orders.specs.declared.order.Order.{Order};
ghost use Rattle.osb_orders.specs.Orders.{name_of};

/// The number that an order of this name has.
pub(crate) fn number_named(name: &str) -> Option<u32>
    ensures { (order : Order) → order.number < 4294967296 → name_of order ≡ name.now →
        result ≡ Some order.number }
{
    let Some((_, digits)) = name.split_once('-') else {
        return None;
    };
    match digits.parse::<u32>() {
        Ok(number) => Some(number),
        Err(_) => None,
    }
}
