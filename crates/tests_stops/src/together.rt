//! Requests for three instances that are made in one transaction, over two disks of which one stops at some
//! call: each call in turn, until none stops. What is left has all of their orders, or none.

use crate::stops::{
    MANY, OPTIONS, Stopping, StoreFiles, empty_files, files_of, fused, opened, reopened,
};
use osb_broker::Broker;
use osb_catalog::Settings;
use osb_records::Records;
use sqlite::Alter;
use std::alloc::Global;
use std::test::Fail;
use tests_support::asks::SYNC;
use tests_support::catalogs::built_in;
use tests_support::exchange::Exchange;
use tests_support::replies::CREATED;
use tests_support::serving::{are_replies, outputs_to};
use tests_support::whole::REFUSED;

const REQUESTS: [Exchange; 3] = [
    ("PUT /v2/service_instances/a", SYNC, CREATED, "{}"),
    ("PUT /v2/service_instances/b", SYNC, CREATED, "{}"),
    ("PUT /v2/service_instances/c", SYNC, CREATED, "{}"),
];

/// Whether the requests are answered. Fails where some are, or one is answered otherwise.
fn are_answered<S: Alter>(alloc: Global, broker: &mut Broker<'_, S>) -> Result<bool, Fail> {
    let outputs = outputs_to(alloc, broker, &REQUESTS)?;
    if outputs.iter().all(|output| output.as_slice() == REFUSED) {
        return Ok(false);
    }
    are_replies(alloc, &REQUESTS, outputs.as_slice())?;
    Ok(true)
}

/// How many orders the instances have.
fn count_orders<S: Alter>(alloc: Global, records: &mut Records<S>) -> Result<usize, Fail> {
    let mut count: usize = 0;
    for id in ["a", "b", "c"] {
        let life = records.life(alloc, id)?;
        count = count.saturating_add(life.len());
    }
    Ok(count)
}

/// Whether the requests are answered over these records, and the records.
fn served<S: Alter + Drop>(
    alloc: Global,
    settings: &Settings,
    records: Records<S>,
) -> Result<(bool, Records<S>), Fail> {
    match Broker::new(alloc, settings, records, 1) {
        Ok(mut broker) => {
            let answered = are_answered(alloc, &mut broker)?;
            Ok((answered, broker.into_records()))
        }
        Err((_, records)) => Ok((false, records)),
    }
}

/// The same over these files, and the files.
fn served_over<F: StoreFiles>(
    alloc: Global,
    settings: &Settings,
    files: F,
) -> Result<(bool, F), Fail> {
    match opened(alloc, files, OPTIONS) {
        Ok(records) => {
            let (answered, records) = served(alloc, settings, records)?;
            Ok((answered, files_of::<F>(records)))
        }
        Err(files) => Ok((false, files)),
    }
}

/// Fails where some of the orders are left, or none although the requests were answered.
fn has_all_or_none<S: Alter + Drop>(
    alloc: Global,
    again: Option<Records<S>>,
    answered: bool,
) -> Result<(), Fail> {
    let mut records = again.ok_or("not opened again")?;
    let count = count_orders(alloc, &mut records);
    drop(records);
    match count? {
        3 => Ok(()),
        0 if !answered => Ok(()),
        _ => Err("a part of the group")?,
    }
}

/// Whether a disk of these files stops.
fn stops<F: StoreFiles>(alloc: Global, settings: &Settings, files: F) -> Result<bool, Fail> {
    let (answered, mut files) = served_over(alloc, settings, files)?;
    let stopped = files.has_stopped();
    if !answered && !stopped {
        drop(files);
        return Err("refused without a stop")?;
    }
    has_all_or_none(alloc, reopened(alloc, files, OPTIONS), answered)?;
    Ok(stopped)
}

/// Stops the disk at each of its calls in turn, up to a group without a stop.
fn stops_at_each_call(alloc: Global, settings: &Settings, stopping: Stopping) -> Result<(), Fail> {
    for calls in 0..MANY {
        let files = fused(empty_files(alloc), stopping, calls);
        if !stops(alloc, settings, files)? {
            return Ok(());
        }
    }
    Err("each group was stopped")?
}

#[test]
fn the_log_may_stop_in_a_group(rt: HostRuntime) -> Result<(), Fail> {
    let settings = built_in(rt.alloc())?;
    stops_at_each_call(rt.alloc(), &settings, Stopping::Log)
}

#[test]
fn the_database_file_may_stop_in_a_group(rt: HostRuntime) -> Result<(), Fail> {
    let settings = built_in(rt.alloc())?;
    stops_at_each_call(rt.alloc(), &settings, Stopping::Database)
}
