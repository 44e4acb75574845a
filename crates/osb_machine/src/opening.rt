//! Opens an order, or refuses it, and answers for one that runs already.

ghost use Rattle.std.specs.Prelude.{if◌then◌else◌, ◌≡◌, IfOk};
ghost use Rattle.osb_catalog.specs.Rules.{rules_of};
ghost use Rattle.osb_orders.specs.ViewData.{data_in};
ghost use Rattle.osb_machine.specs.Opened.{opened, begins, appends, numbered, accepted, is_busy, is_unlike, running, succeeded_with};
ghost use Rattle.osb_replies.specs.Body.{body_bytes};
ghost use Rattle.osb_machine.specs.Steps.{decision, opening_of};

use crate::answer_and_change::{Answer, AnswerAndChange};
use crate::texts;
use osb_catalog::Settings;
use osb_orders::{Attributes, Change, Order, OrderKind, OrderState, Outcome, View};
use osb_replies::{Body, FixedError, Status};
use osb_text::Text;
use std::alloc::{AllocError, Global};

/// What an order is opened with.
#[derive(Drop)]
pub(crate) struct Opening<'a> {
    /// Whether the plan's mode has it run until it is reported.
    pub(crate) asynchronous: bool,
    pub(crate) accepts_incomplete: bool,
    pub(crate) kind: OrderKind,
    pub(crate) binding: Text,
    pub(crate) attributes: Attributes,
    /// What it ends with, where it is carried out at once.
    pub(crate) credentials: Text,
    /// What is answered then.
    pub(crate) answer: Answer<'a>,
}

/// Opens an order, where the request accepts it and the instance has room for one more.
pub(crate) fn open<'a>(
    alloc: Global,
    settings: &Settings,
    view: &View,
    opening: Opening<'a>,
) -> Result<AnswerAndChange<'a>, AllocError>
    ensures { IfOk result (λ step. decision step ≡ opened (rules_of settings.now) (data_in view.now) (opening_of opening.entry)) }
{
    if opening.asynchronous && !opening.accepts_incomplete {
        drop(opening);
        return Ok(AnswerAndChange::refuses(FixedError::AsyncRequired));
    }
    if settings.order_limit() <= view.count {
        drop(opening);
        return Ok(AnswerAndChange::refuses(FixedError::Full));
    }
    open_numbered(alloc, view.count + 1, opening)
}

/// Begins the order of that number, or carries it out at once.
fn open_numbered<'a>(
    alloc: Global,
    number: u32,
    opening: Opening<'a>,
) -> Result<AnswerAndChange<'a>, AllocError>
    ensures { IfOk result (λ step. decision step ≡ (if opening.entry.asynchronous
        then begins (numbered number (opening_of opening.entry) running)
        else appends opening.entry.answer.status (body_bytes opening.entry.answer.body)
        (numbered number (opening_of opening.entry) (succeeded_with opening.entry.credentials)))) }
{
    if opening.asynchronous {
        begin(alloc, number, opening)
    } else {
        Ok(carried_out(alloc, number, opening))
    }
}

/// Begins the order of that number, which then runs.
fn begin<'a>(
    alloc: Global,
    number: u32,
    opening: Opening<'_>,
) -> Result<AnswerAndChange<'a>, AllocError>
    ensures { IfOk result (λ step. decision step ≡ begins (numbered number (opening_of opening.entry) running)) }
{
    match running(alloc) {
        Ok(outcome) => begun(alloc, numbered(number, opening, outcome)),
        Err(error) => {
            drop(opening);
            Err(error)
        }
    }
}

/// The order of that number.
fn numbered(number: u32, opening: Opening<'_>, outcome: Outcome) -> Order
    ensures { result ≡ numbered number (opening_of opening.entry) outcome }
{
    Order {
        number,
        kind: opening.kind,
        binding: opening.binding,
        attributes: opening.attributes,
        outcome,
    }
}

/// Answers 202 of an order, and appends it.
#[tactic(auto, using(crate::proofs::BodyLemmas::operation_is))]
fn begun<'a>(alloc: Global, order: Order) -> Result<AnswerAndChange<'a>, AllocError>
    ensures { IfOk result (λ step. decision step ≡ begins order) }
{
    match texts::operation(alloc, &order) {
        Ok(text) => Ok(AnswerAndChange {
            answer: Answer {
                status: Status::Accepted,
                body: Body::from(text),
            },
            change: Change::Append(order),
        }),
        Err(error) => {
            drop(order);
            Err(error)
        }
    }
}

/// Answers as the opening says, and appends its order, which is carried out at once.
fn carried_out<'a>(alloc: Global, number: u32, opening: Opening<'a>) -> AnswerAndChange<'a>
    ensures { decision result
        ≡ appends opening.entry.answer.status (body_bytes opening.entry.answer.body)
        (numbered number (opening_of opening.entry) (succeeded_with opening.entry.credentials)) }
{
    let order = Order {
        number,
        kind: opening.kind,
        binding: opening.binding,
        attributes: opening.attributes,
        outcome: succeeded_with(alloc, opening.credentials),
    };
    AnswerAndChange {
        answer: opening.answer,
        change: Change::Append(order),
    }
}

fn running(alloc: Global) -> Result<Outcome, AllocError>
    ensures { IfOk result (λ outcome. outcome ≡ running) }
{
    Ok(Outcome {
        state: OrderState::Running,
        description: Text::new(alloc),
        credentials: Text::from_str(alloc, "{}")?,
    })
}

fn succeeded_with(alloc: Global, credentials: Text) -> Outcome
    ensures { result ≡ succeeded_with credentials }
{
    Outcome {
        state: OrderState::Succeeded,
        description: Text::new(alloc),
        credentials,
    }
}

/// Answers 202 of the order that runs, where the request accepts that.
#[tactic(auto, using(crate::proofs::BodyLemmas::operation_is))]
pub(crate) fn accepted<'a>(
    alloc: Global,
    accepts_incomplete: bool,
    last: &Option<Order>,
) -> Result<AnswerAndChange<'a>, AllocError>
    ensures { IfOk result (λ step. decision step ≡ accepted accepts_incomplete last.now) }
{
    let Some(order) = last else {
        return Ok(AnswerAndChange::of_status(Status::NotFound));
    };
    if !accepts_incomplete {
        return Ok(AnswerAndChange::refuses(FixedError::AsyncRequired));
    }
    let text = texts::operation(alloc, order)?;
    Ok(AnswerAndChange::says(Status::Accepted, text))
}

/// Whether the last order runs.
pub(crate) fn is_busy(view: &View) -> bool
    ensures { result ≡ is_busy (data_in view.now) }
{
    match &view.last {
        Some(order) => matches!(order.outcome.state, OrderState::Running),
        None => false,
    }
}

/// Whether a maintenance version is given that isn't the catalog's.
pub(crate) fn is_unlike(given: &Option<Text>, version: &str) -> bool
    ensures { result ≡ is_unlike given.now version.now }
{
    match given {
        Some(given) => given.as_str() != version,
        None => false,
    }
}
