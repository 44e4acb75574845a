//! Databases of version 1, which become such of version 2, and databases of other versions.

use osb_orders::Order;
use osb_orders::OrderKind::Create;
use osb_orders::OrderState::Running;
use osb_records::{Records, StoreFault, open_memory};
use sqlite::{Connection, MemStore};
use std::alloc::Global;
use std::test::Fail;
use tests_support::asks::{ASYNC, CREATE_1, IN_PROGRESS, POLL, PUT_LATER};
use tests_support::catalogs::built_in;
use tests_support::exchange::Exchange;
use tests_support::lives::is_life;
use tests_support::replies::{ACCEPTED, OK};
use tests_support::serving::after_all;
use tests_support::versions::{INDEXES, first_in_memory, number_in, run};

/// What is answered about the instance `i` that is being made.
static ASKED: [Exchange; 2] = [
    (POLL, "", OK, IN_PROGRESS),
    (PUT_LATER, ASYNC, ACCEPTED, CREATE_1),
];

fn adopted(alloc: Global, conn: Connection<MemStore>) -> Result<Records<MemStore>, StoreFault> {
    match Records::adopt(alloc, conn) {
        Ok(records) => Ok(records),
        Err((fault, _)) => Err(fault),
    }
}

/// Whether the life is a creation that runs and has no context.
fn is_begun(life: &[Order]) -> bool {
    match life {
        [order] => {
            is_life(life, &[(Create, Running)]) && order.attributes.context.as_str() == "{}"
        }
        _ => false,
    }
}

/// Fails where the instance `i` has another life.
fn has_begun(alloc: Global, records: &mut Records<MemStore>) -> Result<(), Fail> {
    let life = records.life(alloc, "i")?;
    if is_begun(life.as_slice()) {
        Ok(())
    } else {
        Err("another life")?
    }
}

/// The records after the requests.
fn asked(alloc: Global, records: Records<MemStore>) -> Result<Records<MemStore>, Fail> {
    let settings = built_in(alloc)?;
    let records = after_all(alloc, &settings, records, &ASKED);
    drop(settings);
    records
}

/// The version of a database, and how many empty contexts the instance `i` has.
fn version_and_contexts(mut conn: Connection<MemStore>) -> Result<(u32, u32), Fail> {
    let version = number_in(&mut conn, "SELECT version FROM format")?;
    let contexts = number_in(
        &mut conn,
        "SELECT count(*) FROM contexts WHERE instance_id = 'i' AND context = '{}'",
    )?;
    Ok((version, contexts))
}

/// The same of a database of version 1 with these indexes, once it was taken over and asked.
fn taken_over(alloc: Global, indexes: &[&str]) -> Result<(u32, u32), Fail> {
    let mut records = adopted(alloc, first_in_memory(alloc, indexes)?)?;
    has_begun(alloc, &mut records)?;
    version_and_contexts(asked(alloc, records)?.into_connection())
}

/// Each form of version 1: without an index, with the first, and with both.
#[test]
fn first_version(rt: HostRuntime) -> Result<(), Fail> {
    let alloc = rt.alloc();
    assert!(rt; taken_over(alloc, &[])? == (2, 2));
    assert!(rt; taken_over(alloc, &INDEXES[..1])? == (2, 2));
    assert!(rt; taken_over(alloc, &INDEXES)? == (2, 2));
    Ok(())
}

const THIRD: &str = "UPDATE format SET version = 3";

/// What comes of a database that calls itself one of version 3.
fn third(alloc: Global, mut conn: Connection<MemStore>) -> Result<(), StoreFault> {
    run(&mut conn, &[THIRD])?;
    adopted(alloc, conn)?;
    Ok(())
}

#[test]
fn third_version(rt: HostRuntime) -> Result<(), Fail> {
    let alloc = rt.alloc();
    let second = open_memory(alloc)?.into_connection();
    assert!(rt; third(alloc, second) == Err(StoreFault::NotOurs));
    let first = first_in_memory(alloc, &INDEXES)?;
    assert!(rt; third(alloc, first) == Err(StoreFault::NotOurs));
    Ok(())
}
