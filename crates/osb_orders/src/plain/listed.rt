//! The running orders of all lives, for the listing.

ghost use Rattle.std.specs.Prelude.{◌≡◌, ◌++◌, ◌∷◌, [], IfOk, OnOk, filter, filter_map};
ghost use Rattle.osb_orders.specs.Listing.{with_last, is_listed};
ghost use Rattle.osb_orders.specs.Plain.{held_in};
ghost use Rattle.std.specs.FinMap.{entries};

use super::named::last_in;
use crate::order::{Order, OrderState};
use osb_text::Text;
use std::alloc::{AllocError, Global};
use std::collections::BTreeMap;

/// The instances whose last order runs and whose id is greater, in the order of their ids.
pub(super) fn running_after(
    alloc: Global,
    lives: &BTreeMap<Text, Vec<Order>>,
    after: &str,
) -> Result<Vec<(Text, Order)>, AllocError>
    ensures { IfOk result (λ pairs. pairs.items ≡ filter (is_listed after.now) (filter_map with_last (entries (held_in lives.now)))) }
{
    let mut pairs = Vec::new(alloc);
    for (id, life) in lives {
        push_running(&mut pairs, id, life.as_slice(), after)?;
    }
    Ok(pairs)
}

/// Appends the instance with its last order, where that runs and the id is greater.
fn push_running(
    pairs: &mut Vec<(Text, Order)>,
    id: &Text,
    life: &[Order],
    after: &str,
) -> Result<(), AllocError>
    ensures { OnOk result (pairs.new.items ≡ pairs.old.items ++ filter (is_listed after.now) (filter_map with_last ((id.now, life.now) ∷ []))) }
{
    if let Some(last) = last_in(life) {
        if is_listed(after, id, last) {
            pairs.push((id.clone()?, last.clone()?))?;
        }
    }
    Ok(())
}

fn is_listed(after: &str, id: &Text, last: &Order) -> bool
    ensures { result ≡ is_listed after.now (id.now, last.now) }
{
    last.is_now(OrderState::Running) && id.as_str() > after
}
