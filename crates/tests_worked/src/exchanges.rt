//! Requests to a broker, and what differs in its replies.

use crate::conversations::Step;
use osb_catalog::Settings;
use osb_records::Records;
use sqlite::MemStore;
use std::alloc::Global;
use std::test::Fail;
use tests_support::exchange::{last_reply_with, request_with};
use tests_support::serving::broker_over;

/// What is found, and what the text says in its place.
pub(crate) type Differences = Vec<String>;

/// Adds a difference where two texts are not the same.
pub(crate) fn compare(
    alloc: Global,
    differences: &mut Differences,
    what: &str,
    found: &str,
    expected: &str,
) -> Result<(), Fail> {
    if found != expected {
        differences.push(format!(in alloc; "{what}: {found}, not {expected}")?)?;
    }
    Ok(())
}

/// The bytes of a request.
pub(crate) fn bytes_of(alloc: Global, step: &Step) -> Result<Vec<u8>, Fail> {
    let line = step.text.as_str();
    let identity = step.identity.as_str();
    let body = step.body.as_str();
    if step.fields.is_empty() {
        return request_with(alloc, line, identity, body);
    }
    let fields = step.fields.as_str();
    let text = format!(in alloc; "{line} HTTP/1.1\r\nHost: b\r\n{fields}{identity}\r\n{body}")?;
    Ok(text.into_bytes())
}

/// The bytes of the reply to a request. Without a body it has none.
fn expected_of(alloc: Global, step: &Step) -> Result<Vec<u8>, Fail> {
    let identity = step.identity.as_str();
    match step.reply.split_once(" {") {
        Some((status, rest)) => {
            let body = format!(in alloc; "{{{rest}")?;
            last_reply_with(alloc, status, identity, body.as_str())
        }
        None => last_reply_with(alloc, step.reply.as_str(), identity, ""),
    }
}

/// Adds a difference where a reply is another than that of its step.
fn compare_reply(
    alloc: Global,
    differences: &mut Differences,
    step: &Step,
    output: &[u8],
) -> Result<(), Fail> {
    let expected = expected_of(alloc, step)?;
    if output != expected.as_slice() {
        let found = String::from_utf8_lossy(alloc, output)?;
        let told = format!(in alloc; "{} {}: {found}, not {}", step.text, step.body, step.reply)?;
        differences.push(told)?;
    }
    Ok(())
}

/// The records behind these requests to one broker, each on a connection of its own, and the replies.
pub(crate) fn served(
    alloc: Global,
    settings: &Settings,
    records: Records<MemStore>,
    steps: &[&Step],
) -> Result<(Records<MemStore>, Vec<Vec<u8>>), Fail> {
    let mut connections = Vec::new(alloc);
    for step in steps {
        connections.push(bytes_of(alloc, *step)?)?;
    }
    let mut broker = broker_over(alloc, settings, records, 1)?;
    let outputs = broker.serve_all(connections.as_slice())?;
    Ok((broker.into_records(), outputs))
}

/// The records behind these requests, and a difference for each reply that is another.
pub(crate) fn after(
    alloc: Global,
    settings: &Settings,
    records: Records<MemStore>,
    steps: &[&Step],
    differences: &mut Differences,
) -> Result<Records<MemStore>, Fail> {
    let (records, outputs) = served(alloc, settings, records, steps)?;
    if outputs.len() != steps.len() {
        return Err("another number of replies")?;
    }
    for (step, output) in steps.iter().zip(&outputs) {
        compare_reply(alloc, differences, *step, output.as_slice())?;
    }
    Ok(records)
}
