//! A context whose creation has a body of the largest size.

use osb_catalog::Settings;
use std::alloc::Global;
use std::test::Fail;
use tests_support::asks::*;
use tests_support::catalogs::built_in;
use tests_support::exchange::{last_reply, request};
use tests_support::replies::OK;
use tests_support::serving::new_broker;

/// The context.
fn large_context(alloc: Global) -> Result<String, Fail> {
    let text = "x".repeat(alloc, 262_044)?;
    Ok(format!(in alloc; "{{\"t\":\"{text}\"}}")?)
}

/// Its creation, a listing, the report, its deletion and another listing.
fn large_requests(alloc: Global, body: &str) -> Result<Vec<Vec<u8>>, Fail> {
    let mut connections = Vec::new(alloc);
    for (line, body) in [
        (PUT_LATER, body),
        (ORDERS, ""),
        (REPORT_1, SUCCEEDED),
        (DELETE_LATER, ""),
        (ORDERS, ""),
    ] {
        connections.push(request(alloc, line, body)?)?;
    }
    Ok(connections)
}

/// The listing of an order of `i` with the context.
fn listing_with(alloc: Global, context: &str, kind: &str, seq: u32) -> Result<Vec<u8>, Fail> {
    let body = format!(in alloc;
        "{{\"orders\":[{{\"context\":{context},\"instance_id\":\"i\",\"kind\":\"{kind}\",\"maintenance_version\":\"1.2.0\",\"organization_guid\":\"o\",\"parameters\":{{}},\"plan_id\":\"p-async\",\"seq\":{seq},\"service_id\":\"svc\",\"space_guid\":\"s\"}}]}}"
    )?;
    last_reply(alloc, OK, body.as_str())
}

/// What is written to these connections by a broker without orders.
fn written(
    alloc: Global,
    settings: &Settings,
    connections: &[Vec<u8>],
) -> Result<Vec<Vec<u8>>, Fail> {
    let mut broker = new_broker(alloc, settings, 1)?;
    let written = broker.serve_all(connections);
    drop(broker);
    Ok(written?)
}

/// The body of its creation.
fn large_creation(alloc: Global, context: &str) -> Result<String, Fail> {
    let start = ASYNC.strip_suffix("}").ok_or("no object")?;
    Ok(format!(in alloc; "{start},\"context\":{context}}}")?)
}

/// What is written to its requests.
fn written_of_large(alloc: Global, settings: &Settings, body: &str) -> Result<Vec<Vec<u8>>, Fail> {
    let connections = large_requests(alloc, body)?;
    written(alloc, settings, connections.as_slice())
}

/// Whether the listings show an order with the context.
fn show(alloc: Global, outputs: &[Vec<u8>], context: &str) -> Result<bool, Fail> {
    match outputs {
        [_, first, _, _, last] => Ok(
            *first == listing_with(alloc, context, "create", 1)?
                && *last == listing_with(alloc, context, "delete", 2)?,
        ),
        _ => Ok(false),
    }
}

/// Whether the creation's context is shown with it and with the deletion.
fn shows_large(alloc: Global, settings: &Settings) -> Result<bool, Fail> {
    let context = large_context(alloc)?;
    let body = large_creation(alloc, context.as_str())?;
    let outputs = written_of_large(alloc, settings, body.as_str())?;
    Ok(body.len() == 262_144 && show(alloc, outputs.as_slice(), context.as_str())?)
}

#[test]
fn a_large_context(rt: HostRuntime) -> Result<(), Fail> {
    let settings = built_in(rt.alloc())?;
    let shows = shows_large(rt.alloc(), &settings);
    drop(settings);
    assert!(rt; shows?);
    Ok(())
}
