//! Connections whose reader or writer fails: what was written, and what the instance `i` then has.

ghost use Rattle.std.specs.Prelude.{◌≤◌};

use crate::framing::{CREATED, CREATED_LAST, NO_HEAD, PUT_I};
use osb_broker::{Broker, Buffer, ServeFault};
use osb_catalog::Settings;
use osb_frames::{Counted, Limits};
use osb_records::memory;
use sqlite::MemStore;
use std::alloc::Global;
use std::io::{self, Read, Write};
use std::test::Fail;
use tests_support::catalogs::built_in;
use tests_support::serving::{joined, new_broker};

/// Gives its bytes one by one, and then fails, and counts how often.
#[derive(Drop)]
struct Failing<'a> {
    bytes: &'a [u8],
    failures: u32,
}

impl<'a> Read for Failing<'a> {
    fn read(&mut self, buf: &mut [u8]) -> io::Result<usize> {
        if self.bytes.is_empty() {
            self.failures = self.failures.saturating_add(1);
            return Err(io::Error::from(io::ErrorKind::ConnectionReset));
        }
        let n = buf.len().min(1);
        buf[..n].copy_from_slice(&self.bytes[..n]);
        self.bytes = &self.bytes[n..];
        Ok(n)
    }
}

/// Takes so many bytes, and then fails, and counts how often.
#[derive(Drop)]
struct Short {
    taken: Vec<u8>,
    room: usize,
    failures: u32,
}

impl Write for Short {
    fn write(&mut self, bytes: &[u8]) -> io::Result<usize> {
        if self.room == 0 {
            self.failures = self.failures.saturating_add(1);
            return Err(io::Error::from(io::ErrorKind::BrokenPipe));
        }
        let n = bytes.len().min(self.room);
        self.room -= n;
        match self.taken.extend_from_slice(&bytes[..n]) {
            Ok(()) => Ok(n),
            Err(_) => Err(io::Error::from(io::ErrorKind::OutOfMemory)),
        }
    }

    fn flush(&mut self) -> io::Result<()> {
        Ok(())
    }
}

/// What a connection leaves: how it ended, what was written, and how many orders `i` has.
#[derive(Clone, Copy)]
struct Left {
    result: Result<(), ServeFault>,
    text: &'static [u8],
    orders: usize,
}

/// How many orders the instance `i` has.
fn orders_of(alloc: Global, broker: Broker<'_, MemStore>) -> Result<usize, Fail> {
    let mut records = broker.into_records();
    let life = memory::life(&mut records, alloc, "i");
    drop(records);
    Ok(life?.len())
}

/// Fails where the instance `i` has another number of orders.
fn has_orders(alloc: Global, broker: Broker<'_, MemStore>, expected: usize) -> Result<(), Fail> {
    if orders_of(alloc, broker)? == expected {
        Ok(())
    } else {
        Err("another number of orders")?
    }
}

/// How many reads and writes fail on a connection that ends so: none is tried again.
fn failures_of(end: Result<(), ServeFault>) -> (u32, u32) {
    match end {
        Ok(()) => (0, 0),
        Err(ServeFault::Read) => (1, 0),
        Err(ServeFault::Write) => (0, 1),
    }
}

/// Whether a connection of these bytes, whose writer takes so many, ends so.
fn ends(
    alloc: Global,
    broker: &mut Broker<'_, MemStore>,
    bytes: &[u8],
    room: usize,
    left: &Left,
) -> Result<bool, Fail> {
    let mut buffer = Buffer::new(alloc, &Limits::STANDARD)?;
    let mut source = Counted::new(Failing { bytes, failures: 0 });
    let mut sink = Counted::new(Short {
        taken: Vec::new(alloc),
        room,
        failures: 0,
    });
    let result = broker.serve(&mut buffer, &mut source, &mut sink);
    let read = source.into_inner();
    let written = sink.into_inner();
    Ok(
        result == left.result
            && written.taken.as_slice() == left.text
            && (read.failures, written.failures) == failures_of(left.result),
    )
}

/// Fails where a connection of these bytes, whose writer takes so many, leaves something else.
fn leaves_over(
    alloc: Global,
    settings: &Settings,
    per_connection: u32,
    sent: (&[u8], usize),
    left: &Left,
) -> Result<(), Fail>
    requires some { 1 ≤ per_connection }
    requires few { per_connection ≤ 1000 }
{
    let (bytes, room) = sent;
    let mut broker = new_broker(alloc, settings, per_connection)?;
    match ends(alloc, &mut broker, bytes, room, left) {
        Ok(true) => has_orders(alloc, broker, left.orders),
        Ok(false) => {
            drop(broker);
            Err("another end")?
        }
        Err(fail) => {
            drop(broker);
            Err(fail)
        }
    }
}

/// The same over the built-in settings.
fn leaves(
    alloc: Global,
    per_connection: u32,
    bytes: &[u8],
    room: usize,
    left: Left,
) -> Result<(), Fail>
    requires some { 1 ≤ per_connection }
    requires few { per_connection ≤ 1000 }
{
    let settings = built_in(alloc)?;
    let leaves = leaves_over(alloc, &settings, per_connection, (bytes, room), &left);
    drop(settings);
    leaves
}

const UNREAD: Left = Left {
    result: Err(ServeFault::Read),
    text: b"",
    orders: 0,
};

/// The head and half of the body.
#[test]
fn a_read_fails_in_a_body(rt: HostRuntime) -> Result<(), Fail> {
    leaves(
        rt.alloc(),
        1,
        &PUT_I[..PUT_I.len() - 40],
        usize::MAX,
        UNREAD,
    )
}

const CUT_IN_A_STATUS: Left = Left {
    result: Err(ServeFault::Write),
    text: b"HTTP/1.1 2",
    orders: 1,
};

#[test]
fn a_write_fails_in_a_status(rt: HostRuntime) -> Result<(), Fail> {
    leaves(rt.alloc(), 1, PUT_I, 10, CUT_IN_A_STATUS)
}

const CUT_BETWEEN_REPLIES: Left = Left {
    result: Err(ServeFault::Write),
    text: CREATED,
    orders: 1,
};

#[test]
fn a_write_fails_between_replies(rt: HostRuntime) -> Result<(), Fail> {
    let twice = joined(rt.alloc(), &[PUT_I, PUT_I])?;
    leaves(rt.alloc(), 2, twice.as_slice(), 77, CUT_BETWEEN_REPLIES)
}

const UNREAD_AFTER_A_REPLY: Left = Left {
    result: Err(ServeFault::Read),
    text: CREATED,
    orders: 1,
};

const ANSWERED: Left = Left {
    result: Ok(()),
    text: CREATED_LAST,
    orders: 1,
};

#[test]
fn a_read_fails_after_a_reply(rt: HostRuntime) -> Result<(), Fail> {
    leaves(rt.alloc(), 2, PUT_I, usize::MAX, UNREAD_AFTER_A_REPLY)?;
    // After the last request nothing is read.
    leaves(rt.alloc(), 1, PUT_I, usize::MAX, ANSWERED)
}

const REFUSED: Left = Left {
    result: Ok(()),
    text: NO_HEAD,
    orders: 0,
};

/// No head begins with this byte, so nothing is read after it.
#[test]
fn a_byte_that_begins_no_head(rt: HostRuntime) -> Result<(), Fail> {
    leaves(rt.alloc(), 1, &[0], usize::MAX, REFUSED)
}
