//! Clients in memory, served from a database in memory as the program serves: what each is sent, in their
//! order, and what is reported of requests that were refused.

use crate::queue::{Client, Queue};
use crate::stops::{OPTIONS, Stopping, empty_files, fused};
use osb_catalog::Settings;
use osb_file::Database;
use osb_frames::Counted;
use osb_listen::{ListenOptions, serve_file};
use osb_restart::AtRest;
use sqlite::Files;
use sqlite_disk::Crash;
use std::alloc::Global;
use std::test::Fail;
use std::time::Duration;
use tests_support::catalogs::built_in;
use tests_support::exchange::{last_reply, request};

/// So many clients, at an address where nobody listens.
pub(crate) fn place(connections: u32) -> ListenOptions<'static> {
    ListenOptions {
        database: ".",
        existing: false,
        address: "127.0.0.1:0",
        connections,
        time_limit: Duration::from_secs(1),
        idle_limit: Duration::from_secs(1),
        together: 1,
    }
}

/// A client that sends these bytes in such pieces.
pub(crate) fn client(bytes: &[u8], piece: usize) -> Client<'_> {
    Client { bytes, piece }
}

/// These files, before a run.
pub(crate) fn at_rest<D: Crash + Drop>(files: Files<D>) -> Result<AtRest<D>, Fail> {
    match AtRest::new(files, OPTIONS) {
        Ok(files) => Ok(files),
        Err(files) => {
            drop(files);
            Err("files that may not be used")?
        }
    }
}

/// What is written on standard error where so many clients are served over a database.
fn errors_of<D: Database>(
    rt: &HostRuntime,
    settings: &Settings,
    database: D,
    queue: &mut Queue<'_>,
    connections: u32,
) -> Vec<u8>
where
    D::Store: Drop,
{
    let mut output = Counted::new(Vec::new(rt.alloc()));
    let mut errors = Counted::new(Vec::new(rt.alloc()));
    let (ended, conn) = serve_file(
        rt,
        settings,
        &place(connections),
        1,
        database,
        queue,
        &mut output,
        &mut errors,
    );
    drop(conn);
    drop(ended);
    drop(output);
    errors.into_inner()
}

/// Whether clients were sent the fixed 500, each of them.
fn were_refused(alloc: Global, sent: &[Vec<u8>]) -> Result<bool, Fail> {
    for sent in sent {
        if !was_sent(alloc, sent.as_slice(), "500 Internal Server Error")? {
            return Ok(false);
        }
    }
    Ok(!sent.is_empty())
}

/// What is reported of two clients where the disk of the log stops after so many calls, if both are answered
/// 500.
fn reported_after(
    rt: &HostRuntime,
    settings: &Settings,
    clients: &[Client<'_>],
    calls: u64,
) -> Result<Option<Vec<u8>>, Fail> {
    let files = at_rest(fused(empty_files(rt.alloc()), Stopping::Log, calls))?;
    let mut queue = Queue::of(rt.alloc(), clients);
    let errors = errors_of(rt, settings, files, &mut queue, 2);
    let sent = queue.into_sent()?;
    let refused = were_refused(rt.alloc(), sent.as_slice())?;
    Ok(refused.then_some(errors))
}

const PUT: &str = "PUT /v2/service_instances/a";

const BODY: &str =
    "{\"service_id\":\"svc\",\"plan_id\":\"p-sync\",\"organization_guid\":\"o\",\"space_guid\":\"s\"}";

/// Whether a client was sent a reply of that status.
fn was_sent(alloc: Global, sent: &[u8], status: &str) -> Result<bool, Fail> {
    let reply = last_reply(alloc, status, "{}")?;
    Ok(sent == reply.as_slice())
}

/// Fails where clients were sent other replies than those of these statuses.
pub(crate) fn were_sent(alloc: Global, sent: &[Vec<u8>], statuses: &[&str]) -> Result<(), Fail> {
    if sent.len() != statuses.len() {
        return Err("another number of clients")?;
    }
    for (sent, status) in sent.iter().zip(statuses) {
        if !was_sent(alloc, sent.as_slice(), status)? {
            return Err("another reply")?;
        }
    }
    Ok(())
}

/// Fails where no disk that failed is reported. It stops before the first client, or as the change of it is written.
fn are_reported(rt: &HostRuntime, settings: &Settings, clients: &[Client<'_>]) -> Result<(), Fail> {
    let lines = b"database: new\nrequest: 500 database: disk failed\nrequest: 500 database: shut\n";
    for calls in 0..100 {
        if let Some(errors) = reported_after(rt, settings, clients, calls)? {
            if errors.as_slice() == lines.as_slice() {
                return Ok(());
            }
        }
    }
    Err("no disk that failed was reported")?
}

#[test]
fn a_refused_request_is_reported(rt: HostRuntime) -> Result<(), Fail> {
    let settings = built_in(rt.alloc())?;
    let put = request(rt.alloc(), PUT, BODY)?;
    let clients = [client(put.as_slice(), 50), client(put.as_slice(), 50)];
    are_reported(&rt, &settings, &clients)
}
