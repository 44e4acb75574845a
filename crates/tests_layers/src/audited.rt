//! Small tables by hand: rows of lives, and the same with one thing turned. All texts but the ids,
//! the plans, the parameters and the contexts are alike.

use osb_audit::{
    BindingEntry, add_standing, are_rows_of_lives, count_busy, count_there, plans_in_use,
};
use osb_orders::BindingPhase::{Binding, Bound, Unbinding};
use osb_orders::InstancePhase::{Deleting, Ready, Updating};
use osb_orders::OrderKind::{Bind, Create, Delete, Unbind, Update};
use osb_orders::OrderState::{Failed, Running, Succeeded};
use osb_orders::{
    Attributes, BindingPhase, InstancePhase, Order, OrderKind, OrderState, Outcome, Standing,
};
use osb_standing::InstanceRow;
use osb_text::Text;
use std::alloc::{AllocError, Global};
use std::collections::BTreeSet;
use std::test::Fail;

/// Instance, number, kind, state and binding of an order.
type OrderCase = (&'static str, u32, OrderKind, OrderState, &'static str);

/// Instance, phase unless it is absent, whether it is busy, last number and plan.
type InstanceCase = (&'static str, Option<InstancePhase>, bool, u32, &'static str);

/// Instance, binding and phase.
type BindingCase = (&'static str, &'static str, BindingPhase);

/// Orders, rows of instances and rows of bindings.
type Case = (
    &'static [OrderCase],
    &'static [InstanceCase],
    &'static [BindingCase],
);

const CREATED: OrderCase = ("a", 1, Create, Succeeded, "");

const READY: InstanceCase = ("a", Some(Ready), false, 1, "p");

const BINDS: OrderCase = ("a", 2, Bind, Succeeded, "x");

const WITH_BINDING: InstanceCase = ("a", Some(Ready), false, 2, "p");

const BOUND: BindingCase = ("a", "x", Bound);

static ACCEPTED: [Case; 8] = [
    (&[], &[], &[]),
    (&[CREATED], &[READY], &[]),
    (
        &[CREATED, ("a", 2, Update, Running, "")],
        &[("a", Some(Updating), true, 2, "p")],
        &[],
    ),
    (
        &[CREATED, ("a", 2, Delete, Succeeded, "")],
        &[("a", None, false, 2, "p")],
        &[],
    ),
    (
        &[CREATED, ("a", 2, Delete, Failed, "")],
        &[("a", Some(Ready), false, 2, "p")],
        &[],
    ),
    (&[CREATED, BINDS], &[WITH_BINDING], &[BOUND]),
    (
        &[
            CREATED,
            BINDS,
            ("a", 3, Bind, Running, "y"),
            ("b", 1, Create, Succeeded, ""),
        ],
        &[
            ("a", Some(Ready), true, 3, "p"),
            ("b", Some(Ready), false, 1, "p"),
        ],
        &[BOUND, ("a", "y", Binding)],
    ),
    (
        &[
            CREATED,
            BINDS,
            ("a", 3, Delete, Succeeded, ""),
            ("a", 4, Create, Succeeded, ""),
        ],
        &[("a", Some(Ready), false, 4, "p")],
        &[],
    ),
];

static REFUSED: [Case; 17] = [
    // the orders: a number is missing, one runs in the middle, a Create comes twice, a key comes
    // twice, they are out of order, and an id is empty
    (&[("a", 2, Create, Succeeded, "")], &[WITH_BINDING], &[]),
    (
        &[
            CREATED,
            ("a", 2, Update, Running, ""),
            ("a", 3, Update, Failed, ""),
        ],
        &[("a", Some(Ready), false, 3, "p")],
        &[],
    ),
    (
        &[CREATED, ("a", 2, Create, Succeeded, "")],
        &[WITH_BINDING],
        &[],
    ),
    (&[CREATED, CREATED], &[READY], &[]),
    (
        &[("b", 1, Create, Succeeded, ""), CREATED],
        &[READY, ("b", Some(Ready), false, 1, "p")],
        &[],
    ),
    (
        &[("", 1, Create, Succeeded, "")],
        &[("", Some(Ready), false, 1, "p")],
        &[],
    ),
    // the rows of instances: another phase, busy, another number, another plan, one missing, one too
    // many, and a key that comes twice
    (&[CREATED], &[("a", Some(Deleting), false, 1, "p")], &[]),
    (&[CREATED], &[("a", Some(Ready), true, 1, "p")], &[]),
    (&[CREATED], &[WITH_BINDING], &[]),
    (&[CREATED], &[("a", Some(Ready), false, 1, "q")], &[]),
    (&[CREATED], &[], &[]),
    (&[CREATED], &[READY, ("b", Some(Ready), false, 1, "p")], &[]),
    (&[CREATED], &[READY, READY], &[]),
    // the rows of bindings: one missing, one too many, another phase, and one of another instance
    (&[CREATED, BINDS], &[WITH_BINDING], &[]),
    (
        &[CREATED, BINDS],
        &[WITH_BINDING],
        &[BOUND, ("a", "y", Bound)],
    ),
    (&[CREATED, BINDS], &[WITH_BINDING], &[("a", "x", Unbinding)]),
    (&[CREATED], &[READY], &[("b", "x", Bound)]),
];

fn no_attributes(alloc: Global) -> Attributes {
    Attributes {
        service: Text::new(alloc),
        plan: Text::new(alloc),
        place: Text::new(alloc),
        spot: Text::new(alloc),
        parameters: Text::new(alloc),
        maintenance: Text::new(alloc),
        context: Text::new(alloc),
    }
}

fn fill(attributes: &mut Attributes, plan: &str, context: &str) -> Result<(), AllocError> {
    attributes.service.push_str("s")?;
    attributes.plan.push_str(plan)?;
    attributes.place.push_str("{}")?;
    attributes.spot.push_str("{}")?;
    attributes.parameters.push_str("{}")?;
    attributes.context.push_str(context)
}

fn attributes(alloc: Global, plan: &str, context: &str) -> Result<Attributes, AllocError> {
    let mut attributes = no_attributes(alloc);
    fill(&mut attributes, plan, context)?;
    Ok(attributes)
}

fn outcome(alloc: Global, state: OrderState) -> Result<Outcome, AllocError> {
    let credentials = Text::from_str(alloc, "{}")?;
    Ok(Outcome {
        state,
        description: Text::new(alloc),
        credentials,
    })
}

fn order(
    alloc: Global,
    case: &OrderCase,
    plan: &str,
    context: &str,
) -> Result<(Text, Order), AllocError> {
    let id = Text::from_str(alloc, case.0)?;
    let binding = Text::from_str(alloc, case.4)?;
    let outcome = outcome(alloc, case.3)?;
    let attributes = attributes(alloc, plan, context)?;
    let order = Order {
        number: case.1,
        kind: case.2,
        binding,
        attributes,
        outcome,
    };
    Ok((id, order))
}

fn orders(alloc: Global, cases: &[OrderCase]) -> Result<Vec<(Text, Order)>, AllocError> {
    let mut orders = Vec::new(alloc);
    for case in cases {
        orders.push(order(alloc, case, "p", "{}")?)?;
    }
    Ok(orders)
}

fn instance(
    alloc: Global,
    case: &InstanceCase,
    context: &str,
) -> Result<(Text, InstanceRow), AllocError> {
    let id = Text::from_str(alloc, case.0)?;
    let attributes = attributes(alloc, case.4, context)?;
    let standing = match case.1 {
        None => None,
        Some(phase) => Some(Standing { phase, attributes }),
    };
    let row = InstanceRow {
        standing,
        busy: case.2,
        last_number: case.3,
    };
    Ok((id, row))
}

fn instances(
    alloc: Global,
    cases: &[InstanceCase],
) -> Result<Vec<(Text, InstanceRow)>, AllocError> {
    let mut instances = Vec::new(alloc);
    for case in cases {
        instances.push(instance(alloc, case, "{}")?)?;
    }
    Ok(instances)
}

/// A row of a binding without texts.
fn no_binding(alloc: Global, phase: BindingPhase) -> BindingEntry {
    BindingEntry {
        instance: Text::new(alloc),
        binding: Text::new(alloc),
        phase,
        service: Text::new(alloc),
        plan: Text::new(alloc),
        app_guid: Text::new(alloc),
        bind_resource: Text::new(alloc),
        parameters: Text::new(alloc),
        credentials: Text::new(alloc),
    }
}

fn fill_binding(entry: &mut BindingEntry, case: &BindingCase) -> Result<(), AllocError> {
    entry.instance.push_str(case.0)?;
    entry.binding.push_str(case.1)?;
    entry.service.push_str("s")?;
    entry.plan.push_str("p")?;
    entry.app_guid.push_str("{}")?;
    entry.bind_resource.push_str("{}")?;
    entry.parameters.push_str("{}")?;
    entry.credentials.push_str("{}")
}

fn binding(alloc: Global, case: &BindingCase) -> Result<BindingEntry, AllocError> {
    let mut entry = no_binding(alloc, case.2);
    fill_binding(&mut entry, case)?;
    Ok(entry)
}

fn bindings(alloc: Global, cases: &[BindingCase]) -> Result<Vec<BindingEntry>, AllocError> {
    let mut bindings = Vec::new(alloc);
    for case in cases {
        bindings.push(binding(alloc, case)?)?;
    }
    Ok(bindings)
}

/// Whether the orders and these rows are those of lives.
fn are_of_lives(
    alloc: Global,
    orders: &[(Text, Order)],
    instances: &[(Text, InstanceRow)],
    cases: &[BindingCase],
) -> Result<bool, AllocError> {
    let bindings = bindings(alloc, cases)?;
    are_rows_of_lives(alloc, orders, instances, bindings.as_slice())
}

/// Whether the orders are those of lives with these rows.
fn have_rows(
    alloc: Global,
    orders: &[(Text, Order)],
    cases: &[InstanceCase],
    bindings: &[BindingCase],
) -> Result<bool, AllocError> {
    let instances = instances(alloc, cases)?;
    are_of_lives(alloc, orders, instances.as_slice(), bindings)
}

fn audited(alloc: Global, case: &Case) -> Result<bool, AllocError> {
    let orders = orders(alloc, case.0)?;
    have_rows(alloc, orders.as_slice(), case.1, case.2)
}

/// How many of the cases are accepted.
fn accepted(alloc: Global, cases: &[Case]) -> Result<usize, AllocError> {
    let mut count: usize = 0;
    for case in cases {
        if audited(alloc, case)? {
            count = count.saturating_add(1);
        }
    }
    Ok(count)
}

#[test]
fn rows_of_lives(rt: HostRuntime) -> Result<(), Fail> {
    assert!(rt; accepted(rt.alloc(), &ACCEPTED)? == 8);
    Ok(())
}

#[test]
fn one_thing_turned(rt: HostRuntime) -> Result<(), Fail> {
    assert!(rt; accepted(rt.alloc(), &REFUSED)? == 0);
    Ok(())
}

/// The creation of an instance, with a context.
fn created(alloc: Global, context: &str) -> Result<Vec<(Text, Order)>, AllocError> {
    let mut orders = Vec::new(alloc);
    orders.push(order(alloc, &CREATED, "p", context)?)?;
    Ok(orders)
}

/// The row of that instance, with a context.
fn ready(alloc: Global, context: &str) -> Result<Vec<(Text, InstanceRow)>, AllocError> {
    let mut instances = Vec::new(alloc);
    instances.push(instance(alloc, &READY, context)?)?;
    Ok(instances)
}

/// Whether a creation with one context and the row of its instance with another are those of a life.
fn with_contexts(alloc: Global, of_order: &str, of_row: &str) -> Result<bool, AllocError> {
    let orders = created(alloc, of_order)?;
    let instances = ready(alloc, of_row)?;
    are_rows_of_lives(alloc, orders.as_slice(), instances.as_slice(), &[])
}

/// The contexts of an order and of a row, and whether they may be those of a life.
static CONTEXTS: [(&str, &str, bool); 6] = [
    (r#"{"a":1}"#, r#"{"a":1}"#, true),
    (r#"{"a":1}"#, "{}", false),
    ("{}", r#"{"a":1}"#, false),
    ("{ }", "{ }", false),
    ("[]", "[]", false),
    ("", "", false),
];

#[test]
fn contexts_are_compact_and_alike(rt: HostRuntime) -> Result<(), Fail> {
    for (of_order, of_row, may_be) in &CONTEXTS {
        assert!(rt;
            with_contexts(rt.alloc(), *of_order, *of_row)? == *may_be,
            "{of_order} {of_row}"
        );
    }
    Ok(())
}

/// An instance's creation, and its binding with a context.
fn created_and_bound(alloc: Global, context: &str) -> Result<Vec<(Text, Order)>, AllocError> {
    let mut orders = created(alloc, "{}")?;
    orders.push(order(alloc, &BINDS, "p", context)?)?;
    Ok(orders)
}

/// Whether a binding whose order has this context is one of a life. Its row has none.
fn binds_with_context(alloc: Global, context: &str) -> Result<bool, AllocError> {
    let orders = created_and_bound(alloc, context)?;
    have_rows(alloc, orders.as_slice(), &[WITH_BINDING], &[BOUND])
}

#[test]
fn a_binding_may_have_any_context(rt: HostRuntime) -> Result<(), Fail> {
    assert!(rt; binds_with_context(rt.alloc(), "{\"a\":1}")?);
    assert!(rt; !binds_with_context(rt.alloc(), "{ }")?);
    Ok(())
}

/// An instance that runs an Update.
fn updated(alloc: Global) -> Result<Vec<(Text, Order)>, AllocError> {
    let mut running = Vec::new(alloc);
    running.push(order(alloc, &("b", 2, Update, Running, ""), "p", "{}")?)?;
    Ok(running)
}

/// Two instances and an absent one.
static IN_USE: [InstanceCase; 3] = [
    ("a", Some(Ready), false, 1, "q"),
    ("b", Some(Updating), true, 2, "q"),
    ("c", None, false, 2, "r"),
];

/// The plans of these rows and of these orders.
/// The plans, where the rows of the instances come in pieces.
fn listed_plans(
    alloc: Global,
    instances: &[(Text, InstanceRow)],
    running: &[(Text, Order)],
) -> Result<Vec<(Text, Text)>, AllocError> {
    let mut standing = BTreeSet::new(alloc);
    for piece in instances.chunks(2) {
        add_standing(&mut standing, piece)?;
    }
    plans_in_use(alloc, standing, running)
}

fn told_plans(
    alloc: Global,
    instances: &[(Text, InstanceRow)],
    running: &[(Text, Order)],
) -> Result<String, AllocError> {
    let mut told = String::new(alloc);
    for (service, plan) in &listed_plans(alloc, instances, running)? {
        told.push_str(service.as_str())?;
        told.push_str(plan.as_str())?;
    }
    Ok(told)
}

/// The plans of two instances, of an absent one and of an Update that runs.
fn plans(alloc: Global) -> Result<String, AllocError> {
    let running = updated(alloc)?;
    let instances = instances(alloc, &IN_USE)?;
    told_plans(alloc, instances.as_slice(), running.as_slice())
}

#[test]
fn each_plan_once(rt: HostRuntime) -> Result<(), Fail> {
    assert!(rt; plans(rt.alloc())?.as_str() == "spsq");
    Ok(())
}

/// How many of two instances, an absent one and one that is deleted are there, and how many of them are busy.
fn counts(alloc: Global) -> Result<(usize, usize), AllocError> {
    let rows = [
        ("a", Some(Ready), false, 3, "q"),
        ("b", Some(Updating), true, 2, "q"),
        ("c", None, false, 2, "r"),
        ("d", Some(Deleting), true, 2, "r"),
    ];
    let instances = instances(alloc, &rows)?;
    Ok((count_there(&instances), count_busy(&instances)))
}

#[test]
fn what_is_absent_is_not_counted(rt: HostRuntime) -> Result<(), Fail> {
    assert!(rt; counts(rt.alloc())? == (3, 2));
    Ok(())
}
