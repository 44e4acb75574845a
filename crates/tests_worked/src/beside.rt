//! The records beside the plain lives: after each request of a conversation both give one view for
//! its ask, and have one life.

use crate::lines::{life_lines, standing_line};
use osb_asks::{Ask, AskFault, read_ask};
use osb_catalog::Settings;
use osb_frames::{Limits, NO_LINES, Step as Front, next};
use osb_machine::{AnswerAndChange, decide};
use osb_orders::{Change, PlainLives, View};
use osb_records::{Records, memory};
use sqlite::MemStore;
use std::alloc::{AllocError, Global};
use std::test::Fail;
use tests_support::exchange::request;

/// A view as text.
fn told(alloc: Global, view: &View) -> Result<String, Fail> {
    Ok(format!(in alloc; "{view:?}")?)
}

/// What the records' view for an ask says.
fn told_by_records(
    alloc: Global,
    records: &mut Records<MemStore>,
    ask: &Ask,
) -> Result<String, Fail> {
    let view = memory::view(records, alloc, ask)?;
    let text = told(alloc, &view);
    drop(view);
    text
}

/// The same of the plain lives.
fn told_plainly(alloc: Global, plain: &PlainLives, ask: &Ask) -> Result<String, Fail> {
    let view = plain.view(alloc, ask)?;
    let text = told(alloc, &view);
    drop(view);
    text
}

/// What the table has for an ask by a view.
fn decided<'s>(
    alloc: Global,
    settings: &'s Settings,
    view: View,
    ask: &Ask,
) -> Result<AnswerAndChange<'s>, AllocError> {
    let step = decide(alloc, settings, &view, ask);
    drop(view);
    step
}

fn change_of(step: AnswerAndChange<'_>) -> Change {
    let AnswerAndChange { answer: _, change } = step;
    change
}

/// The change that an ask makes to the plain lives.
fn change_by(
    alloc: Global,
    settings: &Settings,
    plain: &PlainLives,
    ask: &Ask,
) -> Result<Change, AllocError> {
    let view = plain.view(alloc, ask)?;
    let step = decided(alloc, settings, view, ask)?;
    Ok(change_of(step))
}

/// Makes a change to the plain lives.
fn make_plainly(
    alloc: Global,
    plain: &mut PlainLives,
    ask: &Ask,
    change: Change,
) -> Result<(), AllocError> {
    match ask.instance() {
        Some(instance) => plain.apply(alloc, instance.as_str(), change),
        None => Ok(()),
    }
}

/// The ask of the request that is there.
fn ask_of(alloc: Global, settings: &Settings, bytes: &[u8]) -> Result<Ask, AskFault> {
    match next(bytes, true, &Limits::STANDARD, &mut NO_LINES) {
        Front::Whole(request, _) => read_ask(alloc, &request, settings),
        Front::Stop(_) | Front::Ended | Front::More => Err(AskFault::NoRoute),
    }
}

/// Fails where the records have another view for the ask.
fn have_one_view(
    alloc: Global,
    records: &mut Records<MemStore>,
    plain: &PlainLives,
    ask: &Ask,
) -> Result<(), Fail> {
    let found = told_by_records(alloc, records, ask)?;
    let expected = told_plainly(alloc, plain, ask)?;
    if found.as_str() == expected.as_str() {
        Ok(())
    } else {
        Err("another view")?
    }
}

/// Fails where the records have another life of the instance.
fn have_one_life(
    alloc: Global,
    records: &mut Records<MemStore>,
    plain: &PlainLives,
    instance: &str,
) -> Result<(), Fail> {
    let found = memory::life(records, alloc, instance)?;
    let expected = plain.life(alloc, instance)?;
    if found.as_slice() == expected.as_slice() {
        Ok(())
    } else {
        Err("another life")?
    }
}

/// The state by the view for an ask.
fn standing_by(alloc: Global, records: &mut Records<MemStore>, ask: &Ask) -> Result<String, Fail> {
    let view = memory::view(records, alloc, ask)?;
    let line = standing_line(alloc, &view);
    drop(view);
    Ok(line?)
}

/// Makes the change of an ask to the plain lives, and fails where the records are others. The current state
/// by the view for the ask.
fn are_beside(
    alloc: Global,
    settings: &Settings,
    records: &mut Records<MemStore>,
    plain: &mut PlainLives,
    ask: &Ask,
) -> Result<String, Fail> {
    let change = change_by(alloc, settings, plain, ask)?;
    make_plainly(alloc, plain, ask, change)?;
    have_one_view(alloc, records, plain, ask)?;
    if let Some(instance) = ask.instance() {
        have_one_life(alloc, records, plain, instance.as_str())?;
    }
    standing_by(alloc, records, ask)
}

/// The same for the ask of a request. One without an ask says nothing.
pub(crate) fn stay_beside(
    alloc: Global,
    settings: &Settings,
    records: &mut Records<MemStore>,
    plain: &mut PlainLives,
    bytes: &[u8],
) -> Result<String, Fail> {
    let found = ask_of(alloc, settings, bytes);
    let told = match &found {
        Ok(ask) => are_beside(alloc, settings, records, plain, ask),
        Err(_) => Ok(String::new(alloc)),
    };
    drop(found);
    told
}

/// The life of the instance of an ask, a line break before each of its orders.
fn life_of(alloc: Global, records: &mut Records<MemStore>, ask: &Ask) -> Result<String, Fail> {
    match ask.instance() {
        Some(instance) => life_lines(alloc, records, instance.as_str()),
        None => Err("an ask about no instance")?,
    }
}

/// The life of the instance that a request line is about.
pub(crate) fn looked_life(
    alloc: Global,
    settings: &Settings,
    records: &mut Records<MemStore>,
    line: &str,
) -> Result<String, Fail> {
    let bytes = request(alloc, line, "")?;
    let found = ask_of(alloc, settings, bytes.as_slice());
    let life = match &found {
        Ok(ask) => life_of(alloc, records, ask),
        Err(_) => Err("a request without an ask")?,
    };
    drop(found);
    life
}
