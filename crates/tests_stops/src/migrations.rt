//! A database of version 1 that is taken over, over two disks, one of which stops at some call: each call
//! in turn. What is left is of version 1 or 2, and the next start takes it over with the same lives.

use crate::stops::{MANY, Stopping, StoreFiles, empty_files, files_of, fused, opened, reopened};
use osb_catalog::Settings;
use osb_orders::OrderKind::Create;
use osb_orders::OrderState::{Running, Succeeded};
use osb_records::Records;
use sqlite::{Alter, Connection, Error, Options};
use std::alloc::Global;
use std::test::Fail;
use tests_support::asks::{ASYNC, CREATE_1, IN_PROGRESS, POLL, PUT_LATER, REPORT_1, SUCCEEDED};
use tests_support::catalogs::built_in;
use tests_support::exchange::Exchange;
use tests_support::lives::{Life, is_life};
use tests_support::replies::{ACCEPTED, OK};
use tests_support::serving::after_all;
use tests_support::versions::{INDEXES, make_first, number_in};

/// What is asked of the instance `i`, whose creation runs.
const ASKED: [Exchange; 3] = [
    (POLL, "", OK, IN_PROGRESS),
    (PUT_LATER, ASYNC, ACCEPTED, CREATE_1),
    (REPORT_1, SUCCEEDED, OK, "{}"),
];

const BEGUN: Life = &[(Create, Running)];

const CREATED: Life = &[(Create, Succeeded)];

/// The log is copied into the database file in the course of a start.
const OPTIONS: Options = Options {
    cache_pages: 2000,
    spill_pages: 2000,
    checkpoint_frames: 5,
    seed: 7,
};

/// How many instances there are beside it.
const OTHERS: u32 = 12;

/// Adds an instance that was created, with parameters of some length.
fn add_other<S: Alter>(alloc: Global, conn: &mut Connection<S>, n: u32) -> Result<(), Error> {
    let text = "x".repeat(alloc, 300)?;
    let order = format!(in alloc;
        "INSERT INTO orders VALUES ('n{n}', 1, 1, '', 'svc', 'p-sync', 'o', 's', '{{\"t\":\"{text}\"}}', '', 1, '', '{{}}')"
    )?;
    let row = format!(in alloc;
        "INSERT INTO instances VALUES ('n{n}', 2, 0, 1, 'svc', 'p-sync', 'o', 's', '{{\"t\":\"{text}\"}}', '')"
    )?;
    conn.execute(order.as_str(), &[])?;
    conn.execute(row.as_str(), &[])?;
    Ok(())
}

/// Makes a database of version 1 with some instances and these indexes.
fn make<S: Alter>(alloc: Global, conn: &mut Connection<S>, indexes: &[&str]) -> Result<(), Error> {
    make_first(conn, indexes)?;
    for n in 0..OTHERS {
        add_other(alloc, conn, n)?;
    }
    Ok(())
}

/// These files with it.
fn made_in<F: StoreFiles>(alloc: Global, files: F, indexes: &[&str]) -> Result<F, Fail> {
    match files.connected(alloc, OPTIONS) {
        Ok(mut conn) => {
            make(alloc, &mut conn, indexes)?;
            Ok(F::closed(conn.into_store()))
        }
        Err(files) => {
            drop(files);
            Err("not opened")?
        }
    }
}

/// Fails where the instance `i` has another life, or a context.
fn has_life<S: Alter>(alloc: Global, records: &mut Records<S>, life: Life) -> Result<(), Fail> {
    let orders = records.life(alloc, "i")?;
    let bare = orders
        .iter()
        .all(|order| order.attributes.context.as_str() == "{}");
    if bare && is_life(orders.as_slice(), life) {
        Ok(())
    } else {
        Err("another life")?
    }
}

/// Fails where the database has another version than 2, or not two empty contexts for each instance.
fn is_second<S: Alter>(conn: &mut Connection<S>) -> Result<(), Fail> {
    let version = number_in(conn, "SELECT version FROM format")?;
    let contexts = number_in(conn, "SELECT count(*) FROM contexts WHERE context = '{}'")?;
    let instances = number_in(conn, "SELECT count(*) FROM instances")?;
    if version == 2 && instances == 13 && contexts == 26 {
        Ok(())
    } else {
        Err("another database")?
    }
}

/// Fails where the records aren't those of the database, or the requests don't go as they should.
fn goes_on<S: Alter + Drop>(
    alloc: Global,
    settings: &Settings,
    mut records: Records<S>,
) -> Result<(), Fail> {
    has_life(alloc, &mut records, BEGUN)?;
    let mut records = after_all(alloc, settings, records, &ASKED)?;
    has_life(alloc, &mut records, CREATED)?;
    let mut conn = records.into_connection();
    is_second(&mut conn)
}

/// The version of a database that a stop has left, and the records that the next start takes over.
fn taken_over<S: Alter + Drop>(
    alloc: Global,
    mut conn: Connection<S>,
) -> Result<(u32, Records<S>), Fail> {
    let version = number_in(&mut conn, "SELECT version FROM format")?;
    match Records::adopt(alloc, conn) {
        Ok(records) => Ok((version, records)),
        Err((_, conn)) => {
            drop(conn);
            Err("not taken over again")?
        }
    }
}

/// The same of these files.
fn taken_again<F: StoreFiles>(
    alloc: Global,
    mut files: F,
) -> Result<(u32, Records<F::Store>), Fail> {
    files.crash();
    match files.connected(alloc, OPTIONS) {
        Ok(conn) => taken_over(alloc, conn),
        Err(files) => {
            drop(files);
            Err("not opened again")?
        }
    }
}

/// Whether the store was shut, by a stop after the commit.
fn is_shut<S: Alter>(alloc: Global, records: &mut Records<S>) -> bool {
    records.life(alloc, "i").is_err()
}

/// The version that a stop has left of these files. Fails where the next start doesn't go on from there.
fn version_in<F: StoreFiles>(
    alloc: Global,
    settings: &Settings,
    files: F,
) -> Result<Option<u32>, Fail> {
    let (version, again) = taken_again(alloc, files)?;
    goes_on(alloc, settings, again)?;
    Ok(Some(version))
}

/// The same behind a start: version 2 where the store was shut. Fails where the records of the next start don't go on.
fn version_behind<S: Alter + Drop>(
    alloc: Global,
    settings: &Settings,
    again: Option<Records<S>>,
    stopped: bool,
) -> Result<Option<u32>, Fail> {
    goes_on(alloc, settings, again.ok_or("not restarted")?)?;
    Ok(if stopped { Some(2) } else { None })
}

/// The version that is left where a disk of these files stops as they are taken over. None where none does.
fn version_left<F: StoreFiles>(
    alloc: Global,
    settings: &Settings,
    files: F,
) -> Result<Option<u32>, Fail> {
    match opened(alloc, files, OPTIONS) {
        Ok(mut records) => {
            let stopped = is_shut(alloc, &mut records);
            let again = reopened(alloc, files_of::<F>(records), OPTIONS);
            version_behind(alloc, settings, again, stopped)
        }
        Err(files) => version_in(alloc, settings, files),
    }
}

/// Stops the disk at each of its calls in turn, up to a start without a stop: how many calls that one made.
fn stops_at_each_call(
    alloc: Global,
    settings: &Settings,
    indexes: &[&str],
    stopping: Stopping,
) -> Result<u64, Fail> {
    for calls in 0..MANY {
        let files = made_in(alloc, empty_files(alloc), indexes)?;
        let files = fused(files, stopping, calls);
        match version_left(alloc, settings, files)? {
            None => return Ok(calls),
            Some(1) | Some(2) => {}
            Some(_) => Err("another version")?,
        }
    }
    Err("each start was stopped")?
}

/// The same for each form of version 1.
fn stops_in_each_form(
    alloc: Global,
    settings: &Settings,
    stopping: Stopping,
) -> Result<[u64; 3], Fail> {
    Ok([
        stops_at_each_call(alloc, settings, &[], stopping)?,
        stops_at_each_call(alloc, settings, &INDEXES[..1], stopping)?,
        stops_at_each_call(alloc, settings, &INDEXES, stopping)?,
    ])
}

#[test]
fn the_log_may_stop_at_any_call(rt: HostRuntime) -> Result<(), Fail> {
    let settings = built_in(rt.alloc())?;
    let calls = stops_in_each_form(rt.alloc(), &settings, Stopping::Log)?;
    assert!(rt; calls[0] > 40 && calls[1] > 40 && calls[2] > 40);
    Ok(())
}

#[test]
fn the_database_file_may_stop_at_any_call(rt: HostRuntime) -> Result<(), Fail> {
    let settings = built_in(rt.alloc())?;
    let calls = stops_in_each_form(rt.alloc(), &settings, Stopping::Database)?;
    assert!(rt; calls[0] > 20 && calls[1] > 20 && calls[2] > 20);
    Ok(())
}
