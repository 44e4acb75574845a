//! The rows after one order, by its kind and how far it is, from those of a ready instance `p` and
//! of its bound binding `p`. The orders' parameters are `q`.

use osb_orders::OrderKind::{Bind, Create, Delete, Unbind, Update};
use osb_orders::OrderState::{Failed, Running, Succeeded};
use osb_orders::{
    Attributes, BindingNow, BindingPhase, Change, InstancePhase, Order, OrderKind, OrderState,
    Outcome, Standing,
};
use osb_standing::{
    BindingEdit, InstanceRow, Read, binding_edit, instance_row_after, is_failed_deletion,
    order_written, view_by,
};
use osb_text::Text;
use std::alloc::{AllocError, Global};
use std::test::Fail;

/// Kind and state of an order, and what is said of the rows.
type Case = (OrderKind, OrderState, &'static str);

static INSTANCES: [Case; 11] = [
    (Create, Running, "creating q busy"),
    (Create, Succeeded, "ready q"),
    (Create, Failed, "failed q"),
    (Update, Running, "updating p busy"),
    (Update, Succeeded, "ready q"),
    (Update, Failed, "ready p"),
    (Delete, Running, "deleting p busy"),
    (Delete, Succeeded, "absent"),
    (Delete, Failed, "failed p"),
    (Bind, Running, "ready p busy"),
    (Unbind, Failed, "ready p"),
];

static BINDINGS: [Case; 10] = [
    (Create, Succeeded, "keep"),
    (Update, Succeeded, "keep"),
    (Delete, Running, "keep"),
    (Delete, Succeeded, "clear"),
    (Bind, Running, "binding q"),
    (Bind, Succeeded, "bound q"),
    (Bind, Failed, "failed q"),
    (Unbind, Running, "unbinding p"),
    (Unbind, Succeeded, "remove"),
    (Unbind, Failed, "failed p"),
];

fn attributes(alloc: Global, parameters: &str) -> Result<Attributes, AllocError> {
    let parameters = Text::from_str(alloc, parameters)?;
    let context = Text::from_str(alloc, "{}")?;
    Ok(Attributes {
        service: Text::new(alloc),
        plan: Text::new(alloc),
        place: Text::new(alloc),
        spot: Text::new(alloc),
        parameters,
        maintenance: Text::new(alloc),
        context,
    })
}

/// A Create that runs.
fn order(alloc: Global) -> Result<Order, AllocError> {
    let attributes = attributes(alloc, "q")?;
    Ok(Order {
        number: 2,
        kind: Create,
        binding: Text::new(alloc),
        attributes,
        outcome: outcome(alloc, Running),
    })
}

fn outcome(alloc: Global, state: OrderState) -> Outcome {
    Outcome {
        state,
        description: Text::new(alloc),
        credentials: Text::new(alloc),
    }
}

/// Appends a part, and a space before it where it isn't the first. Where memory is refused nothing
/// is left, so that the test fails.
fn add(told: &mut String, part: &str) {
    let spaced = told.is_empty() || told.push(' ').is_ok();
    if !spaced || told.push_str(part).is_err() {
        told.clear();
    }
}

fn phase_word(phase: InstancePhase) -> &'static str {
    match phase {
        InstancePhase::Creating => "creating",
        InstancePhase::Ready => "ready",
        InstancePhase::Failed => "failed",
        InstancePhase::Updating => "updating",
        InstancePhase::Deleting => "deleting",
    }
}

fn tell_row(told: &mut String, row: &InstanceRow) {
    match &row.standing {
        None => add(told, "absent"),
        Some(standing) => {
            add(told, phase_word(standing.phase));
            add(told, standing.attributes.parameters.as_str());
        }
    }
    if row.busy {
        add(told, "busy");
    }
}

fn binding_word(phase: BindingPhase) -> &'static str {
    match phase {
        BindingPhase::Binding => "binding",
        BindingPhase::Bound => "bound",
        BindingPhase::Failed => "failed",
        BindingPhase::Unbinding => "unbinding",
    }
}

fn tell_edit(told: &mut String, edit: &BindingEdit) {
    match edit {
        BindingEdit::Keep => add(told, "keep"),
        BindingEdit::Put(binding) => {
            add(told, binding_word(binding.phase));
            add(told, binding.attributes.parameters.as_str());
        }
        BindingEdit::Remove => add(told, "remove"),
        BindingEdit::Clear => add(told, "clear"),
    }
}

/// What is reported of the row of an instance whose birth failed, after the order.
fn told_of_row(alloc: Global, order: &Order, old: &InstanceRow) -> String {
    let mut told = String::new(alloc);
    if let Ok(row) = instance_row_after(true, order, Some(old)) {
        tell_row(&mut told, &row);
        drop(row);
    }
    told
}

/// Whether that row says this.
fn is_row(alloc: Global, order: &Order, old: &InstanceRow, want: &str) -> bool {
    told_of_row(alloc, order, old).as_str() == want
        && is_failed_deletion(order) == (want == "failed p")
}

fn are_rows(alloc: Global, order: &mut Order, old: &InstanceRow) -> bool {
    let mut same = true;
    for case in &INSTANCES {
        order.kind = case.0;
        order.outcome.state = case.1;
        same = same && is_row(alloc, order, old, case.2);
    }
    same
}

fn is_edit(alloc: Global, order: &Order, old: &BindingNow, want: &str) -> bool {
    let mut told = String::new(alloc);
    if let Ok(edit) = binding_edit(alloc, order, Some(old)) {
        tell_edit(&mut told, &edit);
        drop(edit);
    }
    told.as_str() == want
}

fn are_edits(alloc: Global, order: &mut Order, old: &BindingNow) -> bool {
    let mut same = true;
    for case in &BINDINGS {
        order.kind = case.0;
        order.outcome.state = case.1;
        same = same && is_edit(alloc, order, old, case.2);
    }
    same
}

fn ready(alloc: Global) -> Result<InstanceRow, AllocError> {
    let attributes = attributes(alloc, "p")?;
    Ok(InstanceRow {
        standing: Some(Standing {
            phase: InstancePhase::Ready,
            attributes,
        }),
        busy: false,
        last_number: 1,
    })
}

fn bound(alloc: Global) -> Result<BindingNow, AllocError> {
    let attributes = attributes(alloc, "p")?;
    Ok(BindingNow {
        phase: BindingPhase::Bound,
        attributes,
        credentials: Text::new(alloc),
    })
}

/// Whether the rows that follow this one are those expected.
fn are_rows_after(alloc: Global, old: &InstanceRow) -> Result<bool, AllocError> {
    let mut order = order(alloc)?;
    let same = are_rows(alloc, &mut order, old);
    drop(order);
    Ok(same)
}

#[test]
fn instance_rows(rt: HostRuntime) -> Result<(), Fail> {
    let old = ready(rt.alloc())?;
    let same = are_rows_after(rt.alloc(), &old);
    drop(old);
    assert!(rt; same?);
    Ok(())
}

/// Whether the edits that follow this row are those expected.
fn are_edits_after(alloc: Global, old: &BindingNow) -> Result<bool, AllocError> {
    let mut order = order(alloc)?;
    let same = are_edits(alloc, &mut order, old);
    drop(order);
    Ok(same)
}

#[test]
fn binding_rows(rt: HostRuntime) -> Result<(), Fail> {
    let old = bound(rt.alloc())?;
    let same = are_edits_after(rt.alloc(), &old);
    drop(old);
    assert!(rt; same?);
    Ok(())
}

#[test]
fn written(rt: HostRuntime) -> Result<(), Fail> {
    let alloc = rt.alloc();
    let order = order(alloc)?;
    let last = order_written(None, Change::Append(order));
    let ended = order_written(last, Change::Finish(2, outcome(alloc, Failed)));
    let has_failed = ended.as_ref().is_some_and(|order| order.is_now(Failed));
    drop(ended);
    assert!(rt; has_failed);
    Ok(())
}

#[test]
fn views(rt: HostRuntime) -> Result<(), Fail> {
    let alloc = rt.alloc();
    let read = Read {
        row: Some(InstanceRow {
            standing: None,
            busy: false,
            last_number: 7,
        }),
        last: None,
        binding: None,
        named: None,
        subject_last: None,
        bound: true,
        listing: Vec::new(alloc),
    };
    let view = view_by(read);
    let is_told = view.count == 7 && view.bound && view.standing.is_none();
    drop(view);
    assert!(rt; is_told);
    Ok(())
}
