//! The map of lives: the life of an id, and a life with an order more or with its last one ended.

ghost use Rattle.std.specs.Prelude.{◌≡◌, ◌∷◌, ◌++◌, [], IfOk, OnOk, OnErr};
ghost use Rattle.std.specs.FinMap.{insert};
ghost use Rattle.osb_orders.specs.Lives.{life_of};
ghost use Rattle.osb_orders.specs.Listing.{listing};
ghost use Rattle.osb_orders.specs.Changed.{with_last_ended};
ghost use Rattle.osb_orders.specs.Plain.{held_in};

use super::listed::running_after;
use crate::order::{Order, Outcome};
use osb_text::Text;
use std::alloc::{AllocError, Global};
use std::collections::BTreeMap;

/// The life of an id, empty where it has none.
#[tactic(auto, using(crate::proofs::MapLemmas::life_of_kept))]
pub(super) fn life_of(
    alloc: Global,
    lives: &BTreeMap<Text, Vec<Order>>,
    id: &str,
) -> Result<Vec<Order>, AllocError>
    ensures { IfOk result (λ life. life.items ≡ life_of (held_in lives.now) id.now) }
{
    let key = Text::from_str(alloc, id)?;
    match lives.get(&key) {
        Some(life) => copied(alloc, life.as_slice()),
        None => Ok(Vec::new(alloc)),
    }
}

fn copied(alloc: Global, life: &[Order]) -> Result<Vec<Order>, AllocError>
    ensures { IfOk result (λ copy. copy.items ≡ life.now) }
{
    let mut copy = Vec::new(alloc);
    for order in life {
        copy.push(order.clone()?)?;
    }
    Ok(copy)
}

/// Appends the order to the life of the id.
pub(super) fn append(
    alloc: Global,
    lives: &mut BTreeMap<Text, Vec<Order>>,
    id: &str,
    order: Order,
) -> Result<(), AllocError>
    ensures ok { OnOk result (held_in lives.new ≡ insert (held_in lives.old) id.now (life_of (held_in lives.old) id.now ++ order ∷ [])) }
    ensures err { OnErr result (held_in lives.new ≡ held_in lives.old) }
{
    let mut life = life_of(alloc, lives, id)?;
    life.push(order)?;
    keep(alloc, lives, id, life)
}

/// Gives the last order of the id's life the outcome.
pub(super) fn finish(
    alloc: Global,
    lives: &mut BTreeMap<Text, Vec<Order>>,
    id: &str,
    outcome: Outcome,
) -> Result<(), AllocError>
    ensures ok { OnOk result (held_in lives.new ≡ insert (held_in lives.old) id.now (with_last_ended outcome (life_of (held_in lives.old) id.now))) }
    ensures err { OnErr result (held_in lives.new ≡ held_in lives.old) }
{
    let mut life = life_of(alloc, lives, id)?;
    end_last(&mut life, outcome)?;
    keep(alloc, lives, id, life)
}

/// Keeps the life at the id.
#[tactic(auto, using(crate::proofs::MapLemmas::kept_insert, crate::proofs::MapLemmas::kept_same))]
fn keep(
    alloc: Global,
    lives: &mut BTreeMap<Text, Vec<Order>>,
    id: &str,
    life: Vec<Order>,
) -> Result<(), AllocError>
    ensures ok { OnOk result (held_in lives.new ≡ insert (held_in lives.old) id.now life.items) }
    ensures err { OnErr result (held_in lives.new ≡ held_in lives.old) }
{
    let key = Text::from_str(alloc, id)?;
    lives.insert(key, life)?;
    Ok(())
}

/// Gives the last order the outcome.
fn end_last(life: &mut Vec<Order>, outcome: Outcome) -> Result<(), AllocError>
    ensures { OnOk result (life.new.items ≡ with_last_ended outcome life.old.items) }
{
    if let Some(last) = life.pop() {
        life.push(Order { outcome, ..last })?;
    }
    Ok(())
}

/// The running orders of the instances with greater ids, up to a limit.
pub(super) fn listing(
    alloc: Global,
    lives: &BTreeMap<Text, Vec<Order>>,
    after: &str,
    limit: usize,
) -> Result<Vec<(Text, Order)>, AllocError>
    ensures { IfOk result (λ pairs. pairs.items ≡ listing (held_in lives.now) after.now limit) }
{
    let mut pairs = running_after(alloc, lives, after)?;
    pairs.truncate(limit);
    Ok(pairs)
}
