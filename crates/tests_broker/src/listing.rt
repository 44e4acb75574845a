//! More running orders than one listing has.

use osb_catalog::Settings;
use std::alloc::Global;
use std::test::Fail;
use tests_support::asks::{ASYNC, CREATE_1};
use tests_support::catalogs::built_in;
use tests_support::exchange::{last_reply, request};
use tests_support::replies::ACCEPTED;
use tests_support::serving::new_broker;

/// The request that creates the instance of that number.
fn creation(alloc: Global, n: u32) -> Result<Vec<u8>, Fail> {
    let line = format!(in alloc; "PUT /v2/service_instances/i{n:03}?accepts_incomplete=true")?;
    request(alloc, line.as_str(), ASYNC)
}

/// Requests that create the instances `i000` to `i100`, and two for listings.
fn requests(alloc: Global) -> Result<Vec<Vec<u8>>, Fail> {
    let mut connections = Vec::new(alloc);
    for n in 0..101 {
        connections.push(creation(alloc, n)?)?;
    }
    for line in [
        "GET /backend/v1/orders",
        "GET /backend/v1/orders?after=i099",
    ] {
        connections.push(request(alloc, line, "")?)?;
    }
    Ok(connections)
}

/// The listing of the creations of the instances of these numbers.
fn listing(alloc: Global, from: u32, to: u32) -> Result<Vec<u8>, Fail> {
    let mut orders = String::new(alloc);
    for n in from..to {
        if n > from {
            orders.push(',')?;
        }
        let order = format!(in alloc;
            "{{\"instance_id\":\"i{n:03}\",\"kind\":\"create\",\"maintenance_version\":\"1.2.0\",\"organization_guid\":\"o\",\"parameters\":{{}},\"plan_id\":\"p-async\",\"seq\":1,\"service_id\":\"svc\",\"space_guid\":\"s\"}}"
        )?;
        orders.push_str(order.as_str())?;
    }
    let body = format!(in alloc; "{{\"orders\":[{orders}]}}")?;
    last_reply(alloc, "200 OK", body.as_str())
}

/// What a broker without orders writes to these connections.
fn served(
    alloc: Global,
    settings: &Settings,
    connections: &[Vec<u8>],
) -> Result<Vec<Vec<u8>>, Fail> {
    let mut broker = new_broker(alloc, settings, 1)?;
    let served = broker.serve_all(connections);
    drop(broker);
    Ok(served?)
}

/// What is written to the requests.
fn outputs(alloc: Global) -> Result<Vec<Vec<u8>>, Fail> {
    let connections = requests(alloc)?;
    let settings = built_in(alloc)?;
    let outputs = served(alloc, &settings, connections.as_slice());
    drop(settings);
    outputs
}

/// Whether the listing has these orders.
fn lists(alloc: Global, output: &[u8], first: u32, end: u32) -> Result<bool, Fail> {
    Ok(output == listing(alloc, first, end)?.as_slice())
}

/// Whether each of them says that its instance is being created.
fn are_accepted(alloc: Global, outputs: &[Vec<u8>]) -> Result<bool, Fail> {
    let accepted = last_reply(alloc, ACCEPTED, CREATE_1)?;
    for output in outputs {
        if output.as_slice() != accepted.as_slice() {
            return Ok(false);
        }
    }
    Ok(outputs.len() == 101)
}

/// Whether the instances are created, and listed in two parts.
fn are_created_and_listed(alloc: Global, outputs: &[Vec<u8>]) -> Result<bool, Fail> {
    match outputs {
        [creations @ .., first, second] => Ok(
            are_accepted(alloc, creations)?
                && lists(alloc, first.as_slice(), 0, 100)?
                && lists(alloc, second.as_slice(), 100, 101)?,
        ),
        _ => Ok(false),
    }
}

#[test]
fn a_hundred_orders_and_one(rt: HostRuntime) -> Result<(), Fail> {
    let outputs = outputs(rt.alloc())?;
    assert!(rt; are_created_and_listed(rt.alloc(), outputs.as_slice())?);
    Ok(())
}
