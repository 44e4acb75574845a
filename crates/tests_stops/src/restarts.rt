//! Each call once, over files in memory. A stop at each call of a disk is in `stops`.

use crate::orders::{CREATING, are_orders};
use crate::stops::{OPTIONS, StoreFiles, empty_files, files_of, opened};
use osb_catalog::Settings;
use osb_frames::{Limits, NO_LINES, Request, Step, next};
use osb_orders::{Change, Order};
use osb_records::Records;
use osb_replies::Status;
use osb_restart::{committed_and_restarted, handled_and_restarted, restarted};
use sqlite::{Alter, FileStore, Files};
use sqlite_disk::Crash;
use std::alloc::Global;
use std::test::Fail;
use tests_support::asks::{ASYNC, CREATE_1, IN_PROGRESS, POLL, PUT_LATER};
use tests_support::catalogs::built_in;
use tests_support::exchange::Exchange;
use tests_support::replies::{ACCEPTED, OK};
use tests_support::serving::{after_all, broker_over};
use tests_support::whole::PUT_I;

/// The records of these files.
fn records_of<F: StoreFiles>(alloc: Global, files: F) -> Result<Records<F::Store>, Fail> {
    match opened(alloc, files, OPTIONS) {
        Ok(records) => Ok(records),
        Err(files) => {
            drop(files);
            Err("not opened")?
        }
    }
}

/// The records after this request, a stop and the next run, and what it was answered with.
fn handled_over<D: Crash + Drop>(
    alloc: Global,
    settings: &Settings,
    records: Records<FileStore<D>>,
    request: &Request<'_>,
) -> Result<(Status, Records<FileStore<D>>), Fail> {
    let broker = broker_over(alloc, settings, records, 1)?;
    Ok(handled_and_restarted(alloc, broker, request, true, OPTIONS).ok_or("not restarted")?)
}

/// The same of a request for the instance.
fn created_over<D: Crash + Drop>(
    alloc: Global,
    settings: &Settings,
    records: Records<FileStore<D>>,
) -> Result<(Status, Records<FileStore<D>>), Fail> {
    let mut lines = NO_LINES;
    match next(PUT_I, true, &Limits::STANDARD, &mut lines) {
        Step::Whole(request, _) => handled_over(alloc, settings, records, &request),
        Step::Stop(_) | Step::Ended | Step::More => {
            drop(records);
            Err("no request")?
        }
    }
}

/// The same over these files.
fn created<D: Crash + Drop>(
    alloc: Global,
    files: Files<D>,
) -> Result<(Status, Records<FileStore<D>>), Fail> {
    let records = records_of(alloc, files)?;
    let settings = built_in(alloc)?;
    let created = created_over(alloc, &settings, records);
    drop(settings);
    created
}

/// The same after a change of nothing, and whether it was acknowledged.
fn acknowledged_over<D: Crash + Drop>(
    alloc: Global,
    records: Records<FileStore<D>>,
) -> Result<(bool, Records<FileStore<D>>), Fail> {
    records.lives_are_whole();
    let nothing = Change::Nothing;
    let again = committed_and_restarted(alloc, records, "i", &nothing, OPTIONS);
    drop(nothing);
    Ok(again.ok_or("not restarted")?)
}

/// How many orders the instance has.
fn orders_in<S: Alter + Drop>(alloc: Global, mut records: Records<S>) -> Result<usize, Fail> {
    let life = records.life(alloc, "i")?;
    Ok(life.len())
}

const BEGUN: [Exchange; 1] = [(PUT_LATER, ASYNC, ACCEPTED, CREATE_1)];

const GOES_ON: [Exchange; 2] = [
    (POLL, "", OK, IN_PROGRESS),
    (PUT_LATER, ASYNC, ACCEPTED, CREATE_1),
];

/// The records after these exchanges over these records.
fn after_these<S: Alter + Drop>(
    alloc: Global,
    records: Records<S>,
    exchanges: &[Exchange],
) -> Result<Records<S>, Fail> {
    let settings = built_in(alloc)?;
    after_all(alloc, &settings, records, exchanges)
}

/// The life of `i` in these files once its creation was begun, and went on after they were closed and opened.
fn life_reopened<F: StoreFiles>(alloc: Global, files: F) -> Result<Vec<Order>, Fail> {
    let begun = after_these(alloc, records_of(alloc, files)?, &BEGUN)?;
    let again = records_of(alloc, files_of::<F>(begun))?;
    let mut records = after_these(alloc, again, &GOES_ON)?;
    Ok(records.life(alloc, "i")?)
}

#[test]
fn file_reopened(rt: HostRuntime) -> Result<(), Fail> {
    let life = life_reopened(rt.alloc(), empty_files(rt.alloc()))?;
    assert!(rt; are_orders(life.as_slice(), &[CREATING]));
    Ok(())
}

/// What the request was answered with, and how many orders are found again.
fn answered_in<D: Crash + Drop>(alloc: Global, files: Files<D>) -> Result<(Status, usize), Fail> {
    let (status, records) = created(alloc, files)?;
    Ok((status, orders_in(alloc, records)?))
}

#[test]
fn what_was_answered_is_found_again(rt: HostRuntime) -> Result<(), Fail> {
    let (status, orders) = answered_in(rt.alloc(), empty_files(rt.alloc()))?;
    assert!(rt; status == Status::Created && orders == 1);
    Ok(())
}

/// How many orders are found again after one more stop.
fn committed_in<D: Crash + Drop>(alloc: Global, files: Files<D>) -> Result<usize, Fail> {
    let (_, records) = created(alloc, files)?;
    let again = restarted(alloc, records, OPTIONS).ok_or("not restarted")?;
    orders_in(alloc, again)
}

#[test]
fn what_is_committed_is_found_again(rt: HostRuntime) -> Result<(), Fail> {
    assert!(rt; committed_in(rt.alloc(), empty_files(rt.alloc()))? == 1);
    Ok(())
}

/// Whether a change of nothing is acknowledged, and how many orders are found again.
fn acknowledged_in<D: Crash + Drop>(alloc: Global, files: Files<D>) -> Result<(bool, usize), Fail> {
    let (_, records) = created(alloc, files)?;
    let (acknowledged, again) = acknowledged_over(alloc, records)?;
    Ok((acknowledged, orders_in(alloc, again)?))
}

#[test]
fn what_is_acknowledged_is_found_again(rt: HostRuntime) -> Result<(), Fail> {
    let (acknowledged, orders) = acknowledged_in(rt.alloc(), empty_files(rt.alloc()))?;
    assert!(rt; acknowledged && orders == 1);
    Ok(())
}
