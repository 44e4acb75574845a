//! A conversation over two disks, one of which stops at some call: each call in turn, until a run meets
//! no stop. What is left is opened again, and the conversation goes on.

use crate::orders::{
    BINDING, BOUND, CREATED, CREATING, DELETING, Rows, UNBINDING, UNBOUND, are_orders,
};
use osb_broker::Broker;
use osb_catalog::Settings;
use osb_records::Records;
use sqlite::{Alter, Connection, FileStore, Files, Options};
use sqlite_disk::{Crash, Fuse, Memory};
use std::alloc::Global;
use std::test::Fail;
use tests_support::catalogs::built_in;
use tests_support::conversations::ASYNC_BINDING;
use tests_support::exchange::Exchange;
use tests_support::serving::{after_all, are_replies, outputs_to};
use tests_support::whole::REFUSED;

const BEING_BOUND: Rows = &[CREATED, BINDING];

const WITH_BINDING: Rows = &[CREATED, BOUND];

const BEING_UNBOUND: Rows = &[CREATED, BOUND, UNBINDING];

const WITHOUT_BINDING: Rows = &[CREATED, BOUND, UNBOUND];

const LAST: Rows = &[CREATED, BOUND, UNBOUND, DELETING];

const REQUESTS: &[Exchange] = &ASYNC_BINDING;

/// The life of `i` before the first of the requests, and after each of them.
const LIVES: &[Rows] = &[
    &[],
    &[CREATING],
    &[CREATED],
    BEING_BOUND,
    BEING_BOUND,
    WITH_BINDING,
    WITH_BINDING,
    WITH_BINDING,
    BEING_UNBOUND,
    BEING_UNBOUND,
    BEING_UNBOUND,
    WITHOUT_BINDING,
    WITHOUT_BINDING,
    WITHOUT_BINDING,
    LAST,
];

/// The log is copied into the database file in the midst of the conversation.
pub(crate) const OPTIONS: Options = Options {
    cache_pages: 2000,
    spill_pages: 2000,
    checkpoint_frames: 20,
    seed: 7,
};

/// The file whose disk stops.
#[derive(Clone, Copy)]
pub(crate) enum Stopping {
    Log,
    Database,
}

/// Two empty files in memory.
pub(crate) fn empty_files(alloc: Global) -> Files<Memory> {
    Files {
        log: Memory::new(alloc),
        db: Memory::new(alloc),
    }
}

/// These files, where one disk stops after so many calls, and the other never does.
pub(crate) fn fused(files: Files<Memory>, stopping: Stopping, calls: u64) -> Files<Fuse<Memory>> {
    let (log_calls, db_calls) = match stopping {
        Stopping::Log => (calls, u64::MAX),
        Stopping::Database => (u64::MAX, calls),
    };
    Files {
        log: Fuse::new(files.log, log_calls),
        db: Fuse::new(files.db, db_calls),
    }
}

/// The files of a store, which outlive it.
pub(crate) trait StoreFiles: Drop {
    /// The store over them.
    type Store: Alter + Drop;

    /// A connection to a store over these files, or the files where a disk stops.
    fn connected(self, alloc: Global, options: Options) -> Result<Connection<Self::Store>, Self>;

    /// The files of this store.
    fn closed(store: Self::Store) -> Self;

    /// The machine stops.
    fn crash(&mut self);

    /// Whether a disk has stopped, or stops at its next call.
    fn has_stopped(&mut self) -> bool;
}

impl<D: Crash + Drop> StoreFiles for Files<D> {
    type Store = FileStore<D>;

    fn connected(
        self,
        alloc: Global,
        options: Options,
    ) -> Result<Connection<FileStore<D>>, Files<D>> {
        if !self.may_be_used() {
            return Err(self);
        }
        match Connection::open_files(alloc, self, options) {
            Ok(conn) => Ok(conn),
            Err((_, left)) => Err(left.into_files()),
        }
    }

    fn closed(store: FileStore<D>) -> Files<D> {
        store.close()
    }

    fn crash(&mut self) {
        self.log.crash();
        self.db.crash();
    }

    fn has_stopped(&mut self) -> bool {
        !self.may_be_used() || self.log.len().is_err() || self.db.len().is_err()
    }
}

/// The files of these records.
pub(crate) fn files_of<F: StoreFiles>(records: Records<F::Store>) -> F {
    F::closed(records.into_connection().into_store())
}

/// The records of these files, or the files where a disk stops.
pub(crate) fn opened<F: StoreFiles>(
    alloc: Global,
    files: F,
    options: Options,
) -> Result<Records<F::Store>, F> {
    match files.connected(alloc, options) {
        Ok(conn) => match Records::adopt(alloc, conn) {
            Ok(records) => Ok(records),
            Err((_, conn)) => Err(F::closed(conn.into_store())),
        },
        Err(files) => Err(files),
    }
}

/// The same once the machine has come back.
pub(crate) fn reopened<F: StoreFiles>(
    alloc: Global,
    mut files: F,
    options: Options,
) -> Option<Records<F::Store>> {
    files.crash();
    match opened(alloc, files, options) {
        Ok(records) => Some(records),
        Err(files) => {
            drop(files);
            None
        }
    }
}

/// Whether the exchange ends in the fixed 500. Fails where it goes otherwise and isn't refused.
fn is_refused<S: Alter>(
    alloc: Global,
    broker: &mut Broker<'_, S>,
    exchange: Exchange,
) -> Result<bool, Fail> {
    let outputs = outputs_to(alloc, broker, &[exchange])?;
    match outputs.as_slice() {
        [output] if output.as_slice() == REFUSED => Ok(true),
        outputs => {
            are_replies(alloc, &[exchange], outputs)?;
            Ok(false)
        }
    }
}

/// How many requests are answered before one that is refused.
fn count_answered<S: Alter>(alloc: Global, broker: &mut Broker<'_, S>) -> Result<usize, Fail> {
    for (count, exchange) in REQUESTS.iter().enumerate() {
        if is_refused(alloc, broker, *exchange)? {
            return Ok(count);
        }
    }
    Ok(REQUESTS.len())
}

/// The same over these records, and the records. Where there is no broker over them, none is answered.
fn served<S: Alter + Drop>(
    alloc: Global,
    settings: &Settings,
    records: Records<S>,
) -> Result<(usize, Records<S>), Fail> {
    match Broker::new(alloc, settings, records, 1) {
        Ok(mut broker) => {
            let answered = count_answered(alloc, &mut broker)?;
            Ok((answered, broker.into_records()))
        }
        Err((_, records)) => Ok((0, records)),
    }
}

/// Fails where the life of `i` is neither of the first two of these.
fn has_either<S: Alter>(
    alloc: Global,
    records: &mut Records<S>,
    lives: &[Rows],
) -> Result<(), Fail> {
    let orders = records.life(alloc, "i")?;
    for life in lives.iter().take(2) {
        if are_orders(orders.as_slice(), life) {
            return Ok(());
        }
    }
    Err("another life")?
}

/// Fails where the requests that weren't answered don't go as in the row, or leave another life.
fn goes_to_its_end<S: Alter + Drop>(
    alloc: Global,
    settings: &Settings,
    records: Records<S>,
    requests: &[Exchange],
) -> Result<(), Fail> {
    let mut records = after_all(alloc, settings, records, requests)?;
    has_either(alloc, &mut records, &[LAST])
}

/// Fails where the life that is found after a stop is neither that before nor that after the first
/// request that wasn't answered, or where the conversation doesn't go on from there.
fn goes_on_after<S: Alter + Drop>(
    alloc: Global,
    settings: &Settings,
    mut records: Records<S>,
    answered: usize,
) -> Result<(), Fail> {
    let (Some(lives), Some(requests)) = (LIVES.get(answered..), REQUESTS.get(answered..)) else {
        return Err("more answers than requests")?;
    };
    has_either(alloc, &mut records, lives)?;
    goes_to_its_end(alloc, settings, records, requests)
}

/// The same of what the next run has opened.
fn goes_on_with<S: Alter + Drop>(
    alloc: Global,
    settings: &Settings,
    again: Option<Records<S>>,
    answered: usize,
) -> Result<(), Fail> {
    match again {
        Some(records) => goes_on_after(alloc, settings, records, answered),
        None => Err("not opened again")?,
    }
}

/// Goes on over what so many answers have left. Whether a disk has stopped.
fn goes_on_over<F: StoreFiles>(
    alloc: Global,
    settings: &Settings,
    mut files: F,
    answered: usize,
) -> Result<bool, Fail> {
    let stopped = files.has_stopped();
    if answered < REQUESTS.len() && !stopped {
        drop(files);
        return Err("refused without a stop")?;
    }
    let again = reopened(alloc, files, OPTIONS);
    goes_on_with(alloc, settings, again, answered)?;
    Ok(stopped)
}

/// Has the conversation up to a stop, and goes on after it. Whether a disk of these files stops in it or before it.
fn stops<F: StoreFiles>(alloc: Global, settings: &Settings, files: F) -> Result<bool, Fail> {
    match opened(alloc, files, OPTIONS) {
        Ok(records) => {
            let (answered, records) = served(alloc, settings, records)?;
            goes_on_over(alloc, settings, files_of::<F>(records), answered)
        }
        Err(files) => {
            goes_on_with(alloc, settings, reopened(alloc, files, OPTIONS), 0)?;
            Ok(true)
        }
    }
}

/// More calls than a conversation makes of a disk.
pub(crate) const MANY: u64 = 1000;

/// Stops the disk at each of its calls in turn, up to a conversation without a stop.
fn stops_at_each_call(alloc: Global, settings: &Settings, stopping: Stopping) -> Result<(), Fail> {
    for calls in 0..MANY {
        let files = fused(empty_files(alloc), stopping, calls);
        if !stops(alloc, settings, files)? {
            return Ok(());
        }
    }
    Err("each conversation was stopped")?
}

#[test]
fn the_log_may_stop_at_any_call(rt: HostRuntime) -> Result<(), Fail> {
    let settings = built_in(rt.alloc())?;
    stops_at_each_call(rt.alloc(), &settings, Stopping::Log)
}

#[test]
fn the_database_file_may_stop_at_any_call(rt: HostRuntime) -> Result<(), Fail> {
    let settings = built_in(rt.alloc())?;
    stops_at_each_call(rt.alloc(), &settings, Stopping::Database)
}
