//! A life that is trimmed: its orders, each with its kind, its state and its attributes afterwards.

use osb_orders::OrderKind::{Bind, Create, Delete, Unbind};
use osb_orders::OrderState::{Failed, Running, Succeeded};
use osb_orders::{Attributes, Order, OrderKind, OrderState, Outcome};
use osb_text::Text;
use osb_trim::{trim, trimmed_count};
use std::alloc::{AllocError, Global};
use std::test::Fail;

/// Kind and state of an order, and what is reported of its attributes once the life is trimmed.
type Case = (OrderKind, OrderState, &'static str);

const KEPT: &str = "s p o t {\"q\":1} 1.0.0 {\"c\":2} ";

/// A deletion that failed and one that succeeded, and then the instance is made again.
static ORDERS: [Case; 6] = [
    (Create, Succeeded, "- - - - {}  {} "),
    (Bind, Succeeded, "- -  {} {}  {} "),
    (Delete, Failed, "- - - - {}  {} "),
    (Unbind, Succeeded, "- -  {} {}  {} "),
    (Delete, Succeeded, "- - - - {}  {} "),
    (Create, Running, KEPT),
];

/// A text. Where memory is refused it is empty, so that the test fails.
fn text(alloc: Global, word: &str) -> Text {
    let mut text = Text::new(alloc);
    if text.push_str(word).is_err() {
        return Text::new(alloc);
    }
    text
}

fn attributes(alloc: Global) -> Attributes {
    Attributes {
        service: text(alloc, "s"),
        plan: text(alloc, "p"),
        place: text(alloc, "o"),
        spot: text(alloc, "t"),
        parameters: text(alloc, "{\"q\":1}"),
        maintenance: text(alloc, "1.0.0"),
        context: text(alloc, "{\"c\":2}"),
    }
}

fn order(alloc: Global, case: &Case) -> Order {
    Order {
        number: 1,
        kind: case.0,
        binding: text(alloc, "b"),
        attributes: attributes(alloc),
        outcome: Outcome {
            state: case.1,
            description: text(alloc, "d"),
            credentials: text(alloc, "{}"),
        },
    }
}

fn life(alloc: Global) -> Result<Vec<Order>, AllocError> {
    let mut life = Vec::new(alloc);
    for case in &ORDERS {
        life.push(order(alloc, case))?;
    }
    Ok(life)
}

/// Appends a word and a space. Where memory is refused nothing is left.
fn add(words: &mut String, word: &str) {
    if words.push_str(word).is_err() || words.push(' ').is_err() {
        words.clear();
    }
}

fn words_of(alloc: Global, order: &Order) -> String {
    let mut words = String::new(alloc);
    add(&mut words, order.attributes.service.as_str());
    add(&mut words, order.attributes.plan.as_str());
    add(&mut words, order.attributes.place.as_str());
    add(&mut words, order.attributes.spot.as_str());
    add(&mut words, order.attributes.parameters.as_str());
    add(&mut words, order.attributes.maintenance.as_str());
    add(&mut words, order.attributes.context.as_str());
    words
}

fn is_order(alloc: Global, order: &Order, case: &Case) -> bool {
    order.is_a(case.0)
        && order.is_now(case.1)
        && order.outcome.description.as_str() == "d"
        && words_of(alloc, order).as_str() == case.2
}

fn are_orders(alloc: Global, life: &[Order]) -> bool {
    let mut same = life.len() == ORDERS.len();
    for (order, case) in life.iter().zip(&ORDERS) {
        same = same && is_order(alloc, order, case);
    }
    same
}

/// Whether five of the orders are to be trimmed, none is afterwards, and the orders are then those
/// expected.
fn is_trimmed(alloc: Global) -> Result<bool, AllocError> {
    let life = life(alloc)?;
    let before = trimmed_count(life.as_slice());
    let life = trim(alloc, life)?;
    let after = trimmed_count(life.as_slice());
    Ok(before == 5 && after == 0 && are_orders(alloc, life.as_slice()))
}

#[test]
fn what_was_asked_for_before_a_deletion_is_gone(rt: HostRuntime) -> Result<(), Fail> {
    let is_trimmed = is_trimmed(rt.alloc())?;
    assert!(rt; is_trimmed);
    Ok(())
}
