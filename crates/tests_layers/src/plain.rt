//! Lives kept in memory: one order of one instance, kept, listed and ended.

use osb_orders::{Attributes, Change, Order, OrderKind, OrderState, Outcome, PlainLives};
use osb_text::Text;
use std::alloc::{AllocError, Global};
use std::test::Fail;

fn outcome(alloc: Global, state: OrderState) -> Result<Outcome, AllocError> {
    let credentials = Text::from_str(alloc, "{}")?;
    Ok(Outcome {
        state,
        description: Text::new(alloc),
        credentials,
    })
}

fn attributes(alloc: Global) -> Result<Attributes, AllocError> {
    let parameters = Text::from_str(alloc, "{}")?;
    let context = Text::from_str(alloc, "{}")?;
    Ok(Attributes {
        service: Text::new(alloc),
        plan: Text::new(alloc),
        place: Text::new(alloc),
        spot: Text::new(alloc),
        parameters,
        maintenance: Text::new(alloc),
        context,
    })
}

/// A creation that runs.
fn creation(alloc: Global) -> Result<Order, AllocError> {
    let outcome = outcome(alloc, OrderState::Running)?;
    let attributes = attributes(alloc)?;
    Ok(Order {
        number: 1,
        kind: OrderKind::Create,
        binding: Text::new(alloc),
        attributes,
        outcome,
    })
}

/// Lives with one instance, `i`, that is being created.
fn begun(alloc: Global) -> Result<PlainLives, AllocError> {
    let order = creation(alloc)?;
    let mut lives = PlainLives::new(alloc);
    lives.apply(alloc, "i", Change::Append(order))?;
    Ok(lives)
}

/// The same, once it was created.
fn ended(alloc: Global) -> Result<PlainLives, AllocError> {
    let outcome = outcome(alloc, OrderState::Succeeded)?;
    let mut lives = begun(alloc)?;
    lives.apply(alloc, "i", Change::Finish(1, outcome))?;
    Ok(lives)
}

/// How many orders the instance has.
fn orders_of(alloc: Global, lives: &PlainLives, instance: &str) -> Result<usize, AllocError> {
    let life = lives.life(alloc, instance)?;
    Ok(life.len())
}

/// How many orders run at instances after that id.
fn running_after(alloc: Global, lives: &PlainLives, after: &str) -> Result<usize, AllocError> {
    let running = lives.running(alloc, after, 2)?;
    Ok(running.len())
}

fn has_begun(alloc: Global, lives: &PlainLives) -> Result<bool, AllocError> {
    Ok(
        orders_of(alloc, lives, "i")? == 1
            && orders_of(alloc, lives, "j")? == 0
            && running_after(alloc, lives, "h")? == 1
            && running_after(alloc, lives, "i")? == 0,
    )
}

#[test]
fn an_order_begins(rt: HostRuntime) -> Result<(), Fail> {
    let lives = begun(rt.alloc())?;
    let has_begun = has_begun(rt.alloc(), &lives);
    drop(lives);
    assert!(rt; has_begun?);
    Ok(())
}

fn has_ended(alloc: Global, lives: &PlainLives) -> Result<bool, AllocError> {
    Ok(orders_of(alloc, lives, "i")? == 1 && running_after(alloc, lives, "")? == 0)
}

#[test]
fn an_order_ends(rt: HostRuntime) -> Result<(), Fail> {
    let lives = ended(rt.alloc())?;
    let has_ended = has_ended(rt.alloc(), &lives);
    drop(lives);
    assert!(rt; has_ended?);
    Ok(())
}
