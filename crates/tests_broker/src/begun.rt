//! Clients of whom another request may come: the next one of each is answered at once, or waits.

ghost use Rattle.std.specs.Prelude.{◌<◌};

use osb_broker::{Begun, Broker, Buffer, Waiting};
use osb_catalog::Settings;
use osb_frames::{Counted, Limits};
use sqlite::MemStore;
use std::alloc::Global;
use std::test::Fail;
use tests_support::catalogs::built_in;
use tests_support::serving::{joined, new_broker};
use tests_support::whole::{KNOWN_LAST, PUT_I};

const CREATED: &[u8] =
    b"HTTP/1.1 201 Created\r\nContent-Type: application/json\r\nContent-Length: 2\r\n\r\n{}";

/// A request that needs no lives, and its reply where another may come behind it.
const NOWHERE: &[u8] = b"GET / HTTP/1.1\r\nHost: b\r\n\r\n";

const NOT_FOUND: &[u8] =
    b"HTTP/1.1 404 Not Found\r\nContent-Type: application/json\r\nContent-Length: 2\r\n\r\n{}";

/// What becomes of a client.
#[derive(Clone, Copy, PartialEq, Eq)]
enum Next {
    EndedWell,
    Failed,
    Stays,
    Waits,
    MayStay,
}

fn next_of(begun: Begun) -> Next {
    match begun {
        Begun::Ended(Ok(())) => Next::EndedWell,
        Begun::Ended(Err(_)) => Next::Failed,
        Begun::Stays => Next::Stays,
        Begun::Waits => Next::Waits,
        Begun::MayStay => Next::MayStay,
    }
}

/// Clients, and those of them whose requests wait.
#[derive(Drop)]
struct Clients<'a> {
    alloc: Global,
    broker: Broker<'a, MemStore>,
    buffer: Buffer,
    waiting: Waiting,
    staying: Waiting,
}

impl<'a> Clients<'a> {
    fn of(alloc: Global, settings: &'a Settings) -> Result<Clients<'a>, Fail> {
        Ok(Clients {
            alloc,
            broker: new_broker(alloc, settings, 2)?,
            buffer: Buffer::new(alloc, &Limits::STANDARD)?,
            waiting: Waiting::nobody(alloc),
            staying: Waiting::nobody(alloc),
        })
    }

    /// What becomes of one of whom so many requests may come, and what it was sent.
    fn begin(&mut self, left: u32, bytes: &[u8]) -> (Next, Vec<u8>)
        requires { 0 < left }
    {
        let mut source = Counted::new(bytes);
        let mut sink = Counted::new(Vec::new(self.alloc));
        let begun = self.broker.begin(
            &mut self.buffer,
            left,
            &mut self.waiting,
            &mut self.staying,
            &mut source,
            &mut sink,
        );
        (next_of(begun), sink.into_inner())
    }

    /// The same of one that is answered at once.
    fn answer_next(&mut self, left: u32, bytes: &[u8]) -> (Next, Vec<u8>)
        requires { 0 < left }
    {
        let mut source = Counted::new(bytes);
        let mut sink = Counted::new(Vec::new(self.alloc));
        let begun = self
            .broker
            .answer_next(&mut self.buffer, left, &mut source, &mut sink);
        (next_of(begun), sink.into_inner())
    }
}

/// Whether a request is kept that another may follow, and then one that is the last, and each is
/// answered in its turn.
fn wait_and_are_answered(alloc: Global, settings: &Settings) -> Result<bool, Fail> {
    let mut clients = Clients::of(alloc, settings)?;
    let (may_stay, nothing) = clients.begin(2, PUT_I);
    let (waits, nothing_more) = clients.begin(1, PUT_I);
    let Clients {
        mut broker,
        buffer,
        waiting,
        staying,
        ..
    } = clients;
    let open = broker.answer_staying(&buffer, staying);
    let last = broker.answer_waiting(&buffer, waiting);
    let are_kept = may_stay == Next::MayStay && waits == Next::Waits;
    let are_silent = nothing.is_empty() && nothing_more.is_empty();
    let is_open = open.first().is_some_and(|text| text.as_slice() == CREATED);
    let is_last = last
        .first()
        .is_some_and(|text| text.as_slice() == KNOWN_LAST);
    Ok(are_kept && are_silent && is_open && is_last)
}

#[test]
fn requests_wait_and_are_answered(rt: HostRuntime) -> Result<(), Fail> {
    let settings = built_in(rt.alloc())?;
    let right = wait_and_are_answered(rt.alloc(), &settings);
    drop(settings);
    assert!(rt; right?);
    Ok(())
}

/// Whether a client stays behind a request that is all that was read, and doesn't where more was.
fn are_answered_at_once(alloc: Global, settings: &Settings) -> Result<bool, Fail> {
    let mut clients = Clients::of(alloc, settings)?;
    let nowhere = clients.begin(2, NOWHERE);
    let put = clients.answer_next(2, PUT_I);
    let last = clients.answer_next(1, PUT_I);
    let two = joined(alloc, &[PUT_I, PUT_I])?;
    let more = clients.answer_next(2, &two);
    drop(clients);
    let are_answered = nowhere.1.as_slice() == NOT_FOUND
        && put.1.as_slice() == CREATED
        && last.1.as_slice() == KNOWN_LAST
        && more.1.as_slice() == KNOWN_LAST;
    let is_open = nowhere.0 == Next::Stays && put.0 == Next::Stays;
    let is_closed = last.0 == Next::EndedWell && more.0 == Next::EndedWell;
    Ok(are_answered && is_open && is_closed)
}

#[test]
fn a_client_stays_behind_its_reply(rt: HostRuntime) -> Result<(), Fail> {
    let settings = built_in(rt.alloc())?;
    let right = are_answered_at_once(rt.alloc(), &settings);
    drop(settings);
    assert!(rt; right?);
    Ok(())
}
