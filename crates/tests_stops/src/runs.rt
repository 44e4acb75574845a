//! Two runs of the program over two disks, one of which stops at some call of the first run: each call in
//! turn, until none stops. The clients of the first run come again to the second.

use crate::looped::{at_rest, client, place, were_sent};
use crate::queue::{Client, Queue};
use crate::stops::{MANY, Stopping, empty_files, fused};
use osb_catalog::Settings;
use osb_frames::Counted;
use osb_restart::serve_runs;
use sqlite::Files;
use sqlite_disk::Crash;
use std::alloc::{AllocError, Global};
use std::test::Fail;
use tests_support::catalogs::built_in;
use tests_support::conversations::ASYNC_BINDING;
use tests_support::exchange::{Exchange, last_reply, request};
use tests_support::serving::{new_broker, outputs_to};
use tests_support::whole::REFUSED;

const REQUESTS: &[Exchange] = &ASYNC_BINDING;

/// How many these are.
const EACH: u32 = 14;

/// What the clients are sent by a broker that has carried out so many of their requests before.
fn sent_after(alloc: Global, settings: &Settings, count: usize) -> Result<Vec<Vec<u8>>, Fail> {
    let mut broker = new_broker(alloc, settings, 1)?;
    let _ = outputs_to(alloc, &mut broker, &REQUESTS[..count.min(REQUESTS.len())])?;
    outputs_to(alloc, &mut broker, REQUESTS)
}

/// The same for each number of requests.
fn allowed(alloc: Global, settings: &Settings) -> Result<Vec<Vec<Vec<u8>>>, Fail> {
    let mut allowed = Vec::new(alloc);
    for count in 0..=REQUESTS.len() {
        allowed.push(sent_after(alloc, settings, count)?)?;
    }
    Ok(allowed)
}

/// How many of these texts come before one that is the fixed 500. Fails where one goes otherwise.
fn count_answered(alloc: Global, sent: &[Vec<u8>]) -> Result<usize, Fail> {
    let mut count = 0;
    for (exchange, text) in REQUESTS.iter().zip(sent) {
        let (_, _, status, body) = *exchange;
        if text.as_slice() == REFUSED {
            return Ok(count);
        }
        if text.as_slice() != last_reply(alloc, status, body)?.as_slice() {
            return Err("another reply")?;
        }
        count = count.saturating_add(1);
    }
    Ok(count)
}

/// Whether these texts are those.
fn are_texts(sent: &[Vec<u8>], texts: Option<&Vec<Vec<u8>>>) -> bool {
    match texts {
        Some(texts) => {
            sent.len() == texts.len()
                && sent
                    .iter()
                    .zip(texts)
                    .all(|(one, other)| one.as_slice() == other.as_slice())
        }
        None => false,
    }
}

/// Whether the first run answered all. Fails where the texts of the two runs are of no history: those
/// that the first answered act once, and the first one that it didn't may have been carried out.
fn answered_all(alloc: Global, allowed: &[Vec<Vec<u8>>], sent: &[Vec<u8>]) -> Result<bool, Fail> {
    let (first, second) = sent.split_at(sent.len().saturating_sub(REQUESTS.len()));
    let count = count_answered(alloc, first)?;
    let next = count.saturating_add(usize::from(!first.is_empty()));
    if !are_texts(second, allowed.get(count)) && !are_texts(second, allowed.get(next)) {
        return Err("another history")?;
    }
    Ok(count == REQUESTS.len())
}

/// Has so many runs over these files, each with so many of these clients. What these were sent, where the files could
/// be opened.
fn sent_in<D: Crash + Drop>(
    rt: &HostRuntime,
    settings: &Settings,
    files: Files<D>,
    number: u32,
    each: u32,
    clients: &[Client<'_>],
) -> Result<Option<Vec<Vec<u8>>>, Fail> {
    let files = at_rest(files)?;
    let mut queue = Queue::of(rt.alloc(), clients);
    let left = serve_runs(
        rt,
        settings,
        &place(each),
        1,
        files,
        number,
        &mut queue,
        &mut Counted::new(Vec::new(rt.alloc())),
        &mut Counted::new(Vec::new(rt.alloc())),
    );
    let is_there = left.is_some();
    drop(left);
    let sent = queue.into_sent()?;
    Ok(is_there.then_some(sent))
}

/// Whether two runs answer all, where one disk stops after so many calls. Fails where they are of no history.
fn answer_all(
    rt: &HostRuntime,
    allowed: &[Vec<Vec<u8>>],
    clients: &[Client<'_>],
    stopping: Stopping,
    calls: u64,
) -> Result<bool, Fail> {
    let settings = built_in(rt.alloc())?;
    let files = fused(empty_files(rt.alloc()), stopping, calls);
    match sent_in(rt, &settings, files, 2, EACH, clients)? {
        Some(sent) => answered_all(rt.alloc(), allowed, sent.as_slice()),
        None => Ok(false),
    }
}

/// The requests, twice.
fn requests(alloc: Global) -> Result<Vec<Vec<u8>>, Fail> {
    let mut requests = Vec::new(alloc);
    for (line, body, _, _) in REQUESTS.iter().chain(REQUESTS) {
        requests.push(request(alloc, line, body)?)?;
    }
    Ok(requests)
}

/// Clients that send these requests, one each.
fn clients_with(alloc: Global, requests: &[Vec<u8>]) -> Result<Vec<Client<'_>>, AllocError> {
    requests
        .iter()
        .map(|bytes| client(bytes.as_slice(), 50))
        .collect(alloc)
}

/// The same with the built-in settings.
fn allowed_at_all(alloc: Global) -> Result<Vec<Vec<Vec<u8>>>, Fail> {
    let settings = built_in(alloc)?;
    let allowed = allowed(alloc, &settings);
    drop(settings);
    allowed
}

/// Stops a disk at each of its calls in turn, up to two runs of these clients without a stop.
fn stops_with(
    rt: &HostRuntime,
    allowed: &[Vec<Vec<u8>>],
    clients: &[Client<'_>],
    stopping: Stopping,
) -> Result<(), Fail> {
    for calls in 0..MANY {
        if answer_all(rt, allowed, clients, stopping, calls)? {
            return Ok(());
        }
    }
    Err("a stop at each call")?
}

/// The same of all clients.
fn stops_at_each_call(rt: &HostRuntime, stopping: Stopping) -> Result<(), Fail> {
    let requests = requests(rt.alloc())?;
    let clients = clients_with(rt.alloc(), requests.as_slice())?;
    let allowed = allowed_at_all(rt.alloc())?;
    stops_with(rt, allowed.as_slice(), clients.as_slice(), stopping)
}

#[test]
fn the_log_may_stop_under_a_run(rt: HostRuntime) -> Result<(), Fail> {
    stops_at_each_call(&rt, Stopping::Log)
}

#[test]
fn the_database_file_may_stop_under_a_run(rt: HostRuntime) -> Result<(), Fail> {
    stops_at_each_call(&rt, Stopping::Database)
}

const PUT: &str = "PUT /v2/service_instances/i";

const BODY: &str =
    "{\"service_id\":\"svc\",\"plan_id\":\"p-sync\",\"organization_guid\":\"o\",\"space_guid\":\"s\"}";

/// What clients are sent in three runs, one each, that ask for the same instance.
fn sent_in_three(rt: &HostRuntime) -> Result<Option<Vec<Vec<u8>>>, Fail> {
    let put = request(rt.alloc(), PUT, BODY)?;
    let clients = [client(put.as_slice(), 50); 3];
    let settings = built_in(rt.alloc())?;
    let sent = sent_in(rt, &settings, empty_files(rt.alloc()), 3, 1, &clients);
    drop(settings);
    sent
}

#[test]
fn what_each_run_is_asked_for_acts_once(rt: HostRuntime) -> Result<(), Fail> {
    let sent = sent_in_three(&rt)?.ok_or("files that can't be opened")?;
    let statuses = ["201 Created", "200 OK", "200 OK"];
    were_sent(rt.alloc(), sent.as_slice(), &statuses)
}
