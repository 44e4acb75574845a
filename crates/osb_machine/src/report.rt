//! The rules of Report, by which the backend ends an order.

ghost use Rattle.std.specs.Prelude.{◌≡◌, IfOk};
ghost use Rattle.osb_machine.specs.Report.{reported_state, kept_credentials, kept_outcome, is_outcome, reported_on, report};
ghost use Rattle.osb_orders.specs.declared.order.Change.TheVariants.{Finish};
ghost use Rattle.osb_machine.specs.Decision.{done};
ghost use Rattle.osb_machine.specs.Steps.{decision};

use crate::answer_and_change::{Answer, AnswerAndChange};
use osb_asks::{Report, ReportState};
use osb_orders::{Change, Order, OrderKind, OrderState, Outcome};
use osb_replies::{Body, Status};
use osb_text::Text;
use std::alloc::{AllocError, Global};

pub(crate) fn report<'a>(
    alloc: Global,
    named: &Option<Order>,
    ask: &Report,
) -> Result<AnswerAndChange<'a>, AllocError>
    ensures { IfOk result (λ step. decision step ≡ report ask.now named.now) }
{
    let Some(order) = named else {
        return Ok(AnswerAndChange::of_status(Status::NotFound));
    };
    let outcome = kept_outcome(alloc, ask, order)?;
    Ok(reported_on(order, outcome))
}

fn reported_on<'a>(order: &Order, outcome: Outcome) -> AnswerAndChange<'a>
    ensures { decision result ≡ reported_on order.now outcome }
{
    if matches!(order.outcome.state, OrderState::Running) {
        return ends(order.number, outcome);
    }
    if is_outcome(&order.outcome, &outcome) {
        AnswerAndChange::of_status(Status::Ok)
    } else {
        AnswerAndChange::of_status(Status::Conflict)
    }
}

fn ends<'a>(number: u32, outcome: Outcome) -> AnswerAndChange<'a>
    ensures { decision result ≡ record done { change = Finish number outcome } }
{
    AnswerAndChange {
        answer: Answer {
            status: Status::Ok,
            body: Body::EMPTY_OBJECT,
        },
        change: Change::Finish(number, outcome),
    }
}

/// The outcome that the report gives the order.
fn kept_outcome(alloc: Global, ask: &Report, order: &Order) -> Result<Outcome, AllocError>
    ensures { IfOk result (λ outcome. outcome ≡ kept_outcome ask.now order.now) }
{
    Ok(Outcome {
        state: reported_state(ask.state),
        description: ask.description.clone()?,
        credentials: Text::from_str(alloc, kept_credentials(ask, order))?,
    })
}

fn reported_state(state: ReportState) -> OrderState
    ensures { result ≡ reported_state state }
{
    match state {
        ReportState::Succeeded => OrderState::Succeeded,
        ReportState::Failed => OrderState::Failed,
    }
}

/// They count only for a Bind that succeeded.
fn kept_credentials<'a>(ask: &'a Report, order: &Order) -> &'a str
    ensures { result.now ≡ kept_credentials ask.now.state ask.now order.now }
{
    match (ask.state, order.kind) {
        (ReportState::Succeeded, OrderKind::Bind) => ask.credentials.as_str(),
        _ => "{}",
    }
}

fn is_outcome(one: &Outcome, other: &Outcome) -> bool
    ensures { result ≡ is_outcome one.now other.now }
{
    one.state == other.state
        && one.description == other.description
        && one.credentials == other.credentials
}
