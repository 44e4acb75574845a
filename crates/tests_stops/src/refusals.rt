//! Why a store refuses a call, over disks that stop or are full; and how requests that were refused are counted.

use crate::full::Full;
use crate::stops::{MANY, OPTIONS, Stopping, empty_files, fused};
use osb_records::{Cause, Records, Refusals, StoreFault, open_memory};
use sqlite::{Alter, Connection, Error, ErrorCode, Files};
use sqlite_disk::{Disk, Memory};
use std::alloc::{AllocError, Global};
use std::test::Fail;

/// How often each cause is noted, one after the other.
const NOTED: [Cause; 15] = [
    Cause::Other,
    Cause::Memory,
    Cause::DiskFull,
    Cause::DiskFailed,
    Cause::Shut,
    Cause::Shut,
    Cause::DiskFull,
    Cause::Other,
    Cause::DiskFailed,
    Cause::Other,
    Cause::Shut,
    Cause::DiskFailed,
    Cause::Other,
    Cause::Shut,
    Cause::Other,
];

fn numbers(refusals: &Refusals) -> [u32; 5] {
    [
        refusals.count(Cause::Memory),
        refusals.count(Cause::DiskFull),
        refusals.count(Cause::DiskFailed),
        refusals.count(Cause::Shut),
        refusals.count(Cause::Other),
    ]
}

/// What records give that were noted these causes, and what they give when they are asked again.
fn taken_twice(alloc: Global, causes: &[Cause]) -> Result<(Refusals, Refusals), StoreFault> {
    let mut records = open_memory(alloc)?;
    for cause in causes {
        records.note_refusal(*cause);
    }
    let taken = records.take_refusals();
    let again = records.take_refusals();
    drop(records);
    Ok((taken, again))
}

#[test]
fn refusals_are_counted_for_each_cause(rt: HostRuntime) -> Result<(), Fail> {
    let (taken, again) = taken_twice(rt.alloc(), &NOTED)?;
    assert!(rt; numbers(&taken) == [1, 2, 3, 4, 5]);
    assert!(rt; again == Refusals::NONE && numbers(&again) == [0, 0, 0, 0, 0]);
    Ok(())
}

/// More bytes than there can be.
fn ask_for_too_much(alloc: Global) -> Result<usize, StoreFault> {
    let bytes: Vec<u8> = Vec::with_capacity(alloc, usize::MAX)?;
    Ok(bytes.capacity())
}

#[test]
fn refused_memory_is_a_cause(rt: HostRuntime) -> Result<(), Fail> {
    assert!(rt; ask_for_too_much(rt.alloc()) == Err(StoreFault::Refused(Cause::Memory)));
    Ok(())
}

/// Errors of the store, the cause of each, and the words for it.
static ERRORS: [(Error, Cause, &str); 6] = [
    (
        Error::SqliteFailure(ErrorCode::OutOfMemory),
        Cause::Memory,
        "no memory",
    ),
    (
        Error::SqliteFailure(ErrorCode::DiskFull),
        Cause::DiskFull,
        "database: disk full",
    ),
    (
        Error::SqliteFailure(ErrorCode::SystemIoFailure),
        Cause::DiskFailed,
        "database: disk failed",
    ),
    (
        Error::SqliteFailure(ErrorCode::Closed),
        Cause::Shut,
        "database: shut",
    ),
    (
        Error::SqliteFailure(ErrorCode::DatabaseCorrupt),
        Cause::Other,
        "database: refused",
    ),
    (Error::Utf8Error(4), Cause::Other, "database: refused"),
];

/// Whether the error has this cause, which these words name.
fn has_cause(alloc: Global, error: Error, cause: Cause, words: &str) -> Result<bool, AllocError> {
    let found = Cause::from(error);
    let text = format!(in alloc; "{found}")?;
    Ok(found == cause && text.as_str() == words)
}

/// Whether each of the errors has its cause and its words.
fn have_causes(alloc: Global) -> Result<bool, AllocError> {
    let mut all = true;
    for (error, cause, words) in &ERRORS {
        all = has_cause(alloc, *error, *cause, words)? && all;
    }
    Ok(all)
}

#[test]
fn errors_have_their_causes(rt: HostRuntime) -> Result<(), Fail> {
    assert!(rt; have_causes(rt.alloc())?);
    Ok(())
}

/// Why no records are had over a connection, at first and at once again.
type Faults = (StoreFault, Option<StoreFault>);

/// Why no records are had over this connection.
fn refused_again<S: Alter + Drop>(alloc: Global, conn: Connection<S>) -> Option<StoreFault> {
    match Records::adopt(alloc, conn) {
        Ok(records) => {
            drop(records);
            None
        }
        Err((fault, conn)) => {
            drop(conn);
            Some(fault)
        }
    }
}

/// Why no records are had over it at first, and at once again.
fn refused_twice<S: Alter + Drop>(alloc: Global, conn: Connection<S>) -> Option<Faults> {
    match Records::adopt(alloc, conn) {
        Ok(records) => {
            drop(records);
            None
        }
        Err((fault, conn)) => Some((fault, refused_again(alloc, conn))),
    }
}

/// The same over these files, which are opened first.
fn refused_over<D: Disk + Drop>(alloc: Global, files: Files<D>) -> Option<Faults> {
    if !files.may_be_used() {
        drop(files);
        return None;
    }
    match Connection::open_files(alloc, files, OPTIONS) {
        Ok(conn) => refused_twice(alloc, conn),
        Err((error, left)) => {
            drop(left);
            Some((StoreFault::from(error), None))
        }
    }
}

/// These files, where one disk is full after so many writes, and the other never is.
fn filled(files: Files<Memory>, filling: Stopping, writes: u64) -> Files<Full<Memory>> {
    let (log_writes, db_writes) = match filling {
        Stopping::Log => (writes, u64::MAX),
        Stopping::Database => (u64::MAX, writes),
    };
    Files {
        log: Full::new(files.log, log_writes),
        db: Full::new(files.db, db_writes),
    }
}

/// Why a new database isn't taken over where one disk is full or stops after so many calls.
fn refused_after(alloc: Global, cause: Cause, disk: Stopping, calls: u64) -> Option<Faults> {
    let files = empty_files(alloc);
    match cause {
        Cause::DiskFull => refused_over(alloc, filled(files, disk, calls)),
        _ => refused_over(alloc, fused(files, disk, calls)),
    }
}

/// Whether the store was shut when it was asked again; nothing where nothing was refused. Fails where another cause
/// than this was met.
fn was_shut(cause: Cause, faults: Option<Faults>) -> Result<Option<bool>, Fail> {
    match faults {
        None => Ok(None),
        Some((first, again)) => {
            let refused = Some(StoreFault::Refused(cause));
            let shut = again == Some(StoreFault::Refused(Cause::Shut));
            if Some(first) != refused || !(shut || again.is_none() || again == refused) {
                return Err("another cause")?;
            }
            Ok(Some(shut))
        }
    }
}

/// Lets a disk refuse from each of its calls on, in turn, up to a start that isn't refused. Whether that shut the
/// store at some call.
fn some_shut(alloc: Global, cause: Cause, disk: Stopping) -> Result<bool, Fail> {
    let mut some = false;
    for calls in 0..MANY {
        match was_shut(cause, refused_after(alloc, cause, disk, calls))? {
            None if calls > 0 => return Ok(some),
            None => return Err("nothing was refused")?,
            Some(shut) => some = some || shut,
        }
    }
    Err("each start was refused")?
}

#[test]
fn a_full_disk_is_a_cause(rt: HostRuntime) -> Result<(), Fail> {
    let log = some_shut(rt.alloc(), Cause::DiskFull, Stopping::Log)?;
    let database = some_shut(rt.alloc(), Cause::DiskFull, Stopping::Database)?;
    assert!(rt; log && !database);
    Ok(())
}

#[test]
fn a_disk_that_fails_is_a_cause(rt: HostRuntime) -> Result<(), Fail> {
    let log = some_shut(rt.alloc(), Cause::DiskFailed, Stopping::Log)?;
    let database = some_shut(rt.alloc(), Cause::DiskFailed, Stopping::Database)?;
    assert!(rt; log && !database);
    Ok(())
}
