//! The rules of InstanceOp and BindingOp, which show the state of an operation.

ghost use Rattle.std.specs.Prelude.{◌≡◌, IfOk};
ghost use Rattle.osb_machine.specs.Polls.{polled, poll};
ghost use Rattle.osb_machine.specs.Steps.{decision};

use crate::answer_and_change::AnswerAndChange;
use crate::texts;
use osb_orders::{Order, OrderKind, OrderState, View};
use osb_replies::{FixedError, Status};
use osb_text::Text;
use std::alloc::{AllocError, Global};

/// The answer by the operation that is asked for, or by the last where none is. `removal` is the
/// kind of the orders that remove the resource.
pub(crate) fn poll<'a>(
    alloc: Global,
    removal: OrderKind,
    operation: &Option<Text>,
    view: &View,
) -> Result<AnswerAndChange<'a>, AllocError>
    ensures { IfOk result (λ step. decision step
        ≡ poll removal operation.now view.now.named view.now.subject_last) }
{
    let Some(last) = &view.subject_last else {
        return Ok(AnswerAndChange::of_status(Status::NotFound));
    };
    let order = match (operation, &view.named) {
        (None, _) => last,
        (Some(_), Some(named)) => named,
        (Some(_), None) => return Ok(AnswerAndChange::refuses(FixedError::Operation)),
    };
    polled(alloc, removal, order)
}

#[tactic(auto, using(crate::proofs::BodyLemmas::state_is))]
fn polled<'a>(
    alloc: Global,
    removal: OrderKind,
    order: &Order,
) -> Result<AnswerAndChange<'a>, AllocError>
    ensures { IfOk result (λ step. decision step ≡ polled removal order.now) }
{
    if order.kind == removal && matches!(order.outcome.state, OrderState::Succeeded) {
        return Ok(AnswerAndChange::of_status(Status::Gone));
    }
    let text = texts::state(alloc, &order.outcome)?;
    Ok(AnswerAndChange::says(Status::Ok, text))
}
