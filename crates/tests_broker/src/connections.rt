//! Readers and writers that fail or end early, and what is read and written before.

use osb_broker::refuse::refuse;
use osb_broker::{Broker, Buffer, ServeFault};
use osb_catalog::Settings;
use osb_frames::{Counted, Limits, StopKind};
use sqlite::MemStore;
use std::alloc::Global;
use std::io::{self, Read, Write};
use std::test::Fail;
use tests_support::catalogs::built_in;
use tests_support::serving::{joined, new_broker, output_of};
use tests_support::whole::{CREATED_LAST, GET_CATALOG, KNOWN_LAST, NO_HEAD, PUT_I};

/// Gives so many bytes at a time, fails from one of its reads on, and counts how often.
#[derive(Drop)]
struct Reader<'a> {
    bytes: &'a [u8],
    piece: usize,
    reads_before_failure: usize,
    failures: u32,
}

impl<'a> Read for Reader<'a> {
    fn read(&mut self, buf: &mut [u8]) -> io::Result<usize> {
        if self.reads_before_failure == 0 {
            self.failures = self.failures.saturating_add(1);
            return Err(io::Error::from(io::ErrorKind::ConnectionReset));
        }
        self.reads_before_failure -= 1;
        let n = self.bytes.len().min(buf.len()).min(self.piece);
        buf[..n].copy_from_slice(&self.bytes[..n]);
        self.bytes = &self.bytes[n..];
        Ok(n)
    }
}

/// What a writer does from its last write on.
#[derive(Clone, Copy, PartialEq, Eq)]
enum Last {
    Fails,
    TakesNothing,
}

/// Takes a few bytes at a time, up to one of its writes, and counts how many come from that one on.
#[derive(Drop)]
struct Writer {
    taken: Vec<u8>,
    piece: usize,
    writes_before_last: usize,
    last: Last,
    failures: u32,
}

impl Write for Writer {
    fn write(&mut self, bytes: &[u8]) -> io::Result<usize> {
        if self.writes_before_last == 0 {
            self.failures = self.failures.saturating_add(1);
            return match self.last {
                Last::Fails => Err(io::Error::from(io::ErrorKind::BrokenPipe)),
                Last::TakesNothing => Ok(0),
            };
        }
        self.writes_before_last -= 1;
        let n = bytes.len().min(self.piece);
        match self.taken.extend_from_slice(&bytes[..n]) {
            Ok(()) => Ok(n),
            Err(_) => Err(io::Error::from(io::ErrorKind::OutOfMemory)),
        }
    }

    fn flush(&mut self) -> io::Result<()> {
        Ok(())
    }
}

const CATALOG_TEXT: &[u8] =
    b"HTTP/1.1 200 OK\r\nContent-Type: application/json\r\nContent-Length: 293\r\nConnection: close\r\n\r\n{\"services\":[{\"bindable\":true,\"bindings_retrievable\":true,\"description\":\"Key store\",\"id\":\"svc\",\"name\":\"store\",\"plan_updateable\":true,\"plans\":[{\"description\":\"At once\",\"id\":\"p-sync\",\"name\":\"small\"},{\"description\":\"Later\",\"id\":\"p-async\",\"maintenance_info\":{\"version\":\"1.2.0\"},\"name\":\"large\"}]}]}";

const CREATED: &[u8] =
    b"HTTP/1.1 201 Created\r\nContent-Type: application/json\r\nContent-Length: 2\r\n\r\n{}";

const NOT_FOUND: &[u8] =
    b"HTTP/1.1 404 Not Found\r\nContent-Type: application/json\r\nContent-Length: 2\r\n\r\n{}";

/// What a connection leaves: what is taken, how it ends, and how many reads and writes failed.
struct Served {
    taken: Vec<u8>,
    end: Result<(), ServeFault>,
    failures: (u32, u32),
}

/// Reads from one and writes to the other.
fn serves(
    broker: &mut Broker<'_, MemStore>,
    buffer: &mut Buffer,
    reader: Reader<'_>,
    writer: Writer,
) -> Served {
    let mut source = Counted::new(reader);
    let mut sink = Counted::new(writer);
    let end = broker.serve(buffer, &mut source, &mut sink);
    let reader = source.into_inner();
    let Writer {
        taken,
        failures,
        ..
    } = sink.into_inner();
    Served {
        taken,
        end,
        failures: (reader.failures, failures),
    }
}

/// How many reads and writes fail on a connection that ends so: none is tried again.
fn failures_of(end: Result<(), ServeFault>) -> (u32, u32) {
    match end {
        Ok(()) => (0, 0),
        Err(ServeFault::Read) => (1, 0),
        Err(ServeFault::Write) => (0, 1),
    }
}

/// Whether the connection ends so, and this text is what was written.
fn ends(
    alloc: Global,
    broker: &mut Broker<'_, MemStore>,
    ends: (Reader<'_>, Writer),
    expected: Result<(), ServeFault>,
    text: &[u8],
) -> Result<bool, Fail> {
    let mut buffer = Buffer::new(alloc, &Limits::STANDARD)?;
    let (reader, writer) = ends;
    let Served {
        taken,
        end,
        failures,
    } = serves(broker, &mut buffer, reader, writer);
    Ok(end == expected && taken.as_slice() == text && failures == failures_of(expected))
}

/// Whether an instance that is put again was there.
fn is_known(alloc: Global, broker: &mut Broker<'_, MemStore>) -> Result<bool, Fail> {
    let output = output_of(alloc, broker, PUT_I, 100)?;
    Ok(output.as_slice().starts_with(b"HTTP/1.1 200"))
}

/// Takes all that is written.
fn willing(alloc: Global) -> Writer {
    Writer {
        taken: Vec::new(alloc),
        piece: usize::MAX,
        writes_before_last: usize::MAX,
        last: Last::Fails,
        failures: 0,
    }
}

fn is_no_request(alloc: Global, settings: &Settings, bytes: &[u8]) -> Result<bool, Fail> {
    let mut broker = new_broker(alloc, settings, 1)?;
    let output = output_of(alloc, &mut broker, bytes, 100_000);
    drop(broker);
    Ok(output?.as_slice() == NO_HEAD)
}

/// Whether no beginning of a request is one, however long it is.
fn are_no_requests(alloc: Global, settings: &Settings) -> Result<bool, Fail> {
    for length in 1..GET_CATALOG.len() {
        if !is_no_request(alloc, settings, &GET_CATALOG[..length])? {
            return Ok(false);
        }
    }
    Ok(true)
}

#[test]
fn no_beginning_of_a_request_is_one(rt: HostRuntime) -> Result<(), Fail> {
    let settings = built_in(rt.alloc())?;
    let are_none = are_no_requests(rt.alloc(), &settings);
    drop(settings);
    assert!(rt; are_none?);
    Ok(())
}

/// What is written in answer to bytes that are no request.
fn refused(alloc: Global, kind: StopKind) -> Result<Vec<u8>, Fail> {
    let mut sink = Counted::new(Vec::new(alloc));
    match refuse(&mut sink, kind) {
        Ok(()) => Ok(sink.into_inner()),
        Err(_) => Err("not written")?,
    }
}

#[test]
fn a_framing_fault_has_its_fixed_reply(rt: HostRuntime) -> Result<(), Fail> {
    let written = refused(rt.alloc(), StopKind::NoHead)?;
    assert!(rt; written.as_slice() == NO_HEAD);
    Ok(())
}

/// Whether bytes that come one by one, up to a read that fails, are answered with this text before
/// that read is made.
fn answers_before_a_failure(
    alloc: Global,
    settings: &Settings,
    bytes: &[u8],
    text: &[u8],
) -> Result<bool, Fail> {
    let mut broker = new_broker(alloc, settings, 1)?;
    let reader = Reader {
        bytes,
        piece: 1,
        reads_before_failure: bytes.len(),
        failures: 0,
    };
    let answers = ends(alloc, &mut broker, (reader, willing(alloc)), Ok(()), text);
    drop(broker);
    answers
}

/// The same of a request, and of a byte with which no head begins.
fn answers_once_it_can(alloc: Global, settings: &Settings) -> Result<bool, Fail> {
    Ok(
        answers_before_a_failure(alloc, settings, PUT_I, CREATED_LAST)?
            && answers_before_a_failure(alloc, settings, &[0], NO_HEAD)?,
    )
}

#[test]
fn nothing_is_read_once_the_answer_stands(rt: HostRuntime) -> Result<(), Fail> {
    let settings = built_in(rt.alloc())?;
    let answers = answers_once_it_can(rt.alloc(), &settings);
    drop(settings);
    assert!(rt; answers?);
    Ok(())
}

/// How many bytes a read gives, or a write takes, before one that fails.
const PIECE: usize = 7;

/// Whether a broker answers this text before its reader fails, and has the instance then or not.
fn leaves_an_instance(
    alloc: Global,
    broker: &mut Broker<'_, MemStore>,
    reader: Reader<'_>,
    text: &[u8],
    has_one: bool,
) -> Result<bool, Fail> {
    let fault = Err(ServeFault::Read);
    let is_cut = ends(alloc, broker, (reader, willing(alloc)), fault, text)?;
    Ok(is_cut && is_known(alloc, broker)? == has_one)
}

/// Whether a broker that reads so often answers the requests that it has read whole, and keeps what
/// its replies say.
fn leaves_whole_replies(
    alloc: Global,
    settings: &Settings,
    bytes: &[u8],
    reads: usize,
) -> Result<bool, Fail> {
    let mut broker = new_broker(alloc, settings, 2)?;
    let reader = Reader {
        bytes,
        piece: PIECE,
        reads_before_failure: reads,
        failures: 0,
    };
    let first_is_whole = reads.saturating_mul(PIECE) >= PUT_I.len();
    let text = if first_is_whole {
        CREATED
    } else {
        b"".as_slice()
    };
    let leaves = leaves_an_instance(alloc, &mut broker, reader, text, first_is_whole);
    drop(broker);
    leaves
}

/// The same for each number of reads that doesn't get both requests.
fn each_leaves_whole_replies(alloc: Global, settings: &Settings) -> Result<bool, Fail> {
    let bytes = joined(alloc, &[PUT_I, PUT_I])?;
    // The last piece is the rest of both requests.
    for reads in 0..bytes.len().div_ceil(PIECE) {
        if !leaves_whole_replies(alloc, settings, bytes.as_slice(), reads)? {
            return Ok(false);
        }
    }
    Ok(true)
}

#[test]
fn a_read_that_fails_leaves_whole_replies(rt: HostRuntime) -> Result<(), Fail> {
    let settings = built_in(rt.alloc())?;
    let leaves = each_leaves_whole_replies(rt.alloc(), &settings);
    drop(settings);
    assert!(rt; leaves?);
    Ok(())
}

/// Whether a broker has written this text once its writer fails, and has the first request's instance.
fn leaves_the_first(
    alloc: Global,
    broker: &mut Broker<'_, MemStore>,
    connection: (Reader<'_>, Writer),
    text: &[u8],
) -> Result<bool, Fail> {
    let is_cut = ends(alloc, broker, connection, Err(ServeFault::Write), text)?;
    Ok(is_cut && is_known(alloc, broker)?)
}

/// Whether a broker whose writes end after so many has written the beginning of this text, and
/// keeps the first request's instance, although its reply was cut.
fn leaves_a_prefix(
    alloc: Global,
    settings: &Settings,
    bytes: &[u8],
    writer: Writer,
    text: &[u8],
) -> Result<bool, Fail> {
    let mut broker = new_broker(alloc, settings, 2)?;
    let reader = Reader {
        bytes,
        piece: 100,
        reads_before_failure: usize::MAX,
        failures: 0,
    };
    let leaves = leaves_the_first(alloc, &mut broker, (reader, writer), text);
    drop(broker);
    leaves
}

/// The same for both requests, and a writer that ends so.
fn is_cut(alloc: Global, settings: &Settings, writes: usize, last: Last) -> Result<bool, Fail> {
    let bytes = joined(alloc, &[PUT_I, PUT_I])?;
    let text = joined(alloc, &[CREATED, KNOWN_LAST])?;
    let writer = Writer {
        taken: Vec::new(alloc),
        piece: PIECE,
        writes_before_last: writes,
        last,
        failures: 0,
    };
    match text.as_slice().get(..writes.saturating_mul(PIECE)) {
        Some(prefix) => leaves_a_prefix(alloc, settings, bytes.as_slice(), writer, prefix),
        None => Ok(false),
    }
}

/// The same for a writer that ends in either way.
fn is_cut_either_way(alloc: Global, settings: &Settings, writes: usize) -> Result<bool, Fail> {
    Ok(
        is_cut(alloc, settings, writes, Last::Fails)?
            && is_cut(alloc, settings, writes, Last::TakesNothing)?,
    )
}

/// The same for each number of writes that doesn't take both replies.
fn each_is_cut(alloc: Global, settings: &Settings) -> Result<bool, Fail> {
    for writes in 0..(CREATED.len() + KNOWN_LAST.len()).div_ceil(PIECE) {
        if !is_cut_either_way(alloc, settings, writes)? {
            return Ok(false);
        }
    }
    Ok(true)
}

#[test]
fn a_write_that_fails_leaves_a_prefix(rt: HostRuntime) -> Result<(), Fail> {
    let settings = built_in(rt.alloc())?;
    let is_cut = each_is_cut(rt.alloc(), &settings);
    drop(settings);
    assert!(rt; is_cut?);
    Ok(())
}

/// Whether a writer that fails after one write takes the catalog's reply.
fn goes_out_in_one_write(alloc: Global, settings: &Settings) -> Result<bool, Fail> {
    let mut broker = new_broker(alloc, settings, 1)?;
    let reader = Reader {
        bytes: GET_CATALOG,
        piece: usize::MAX,
        reads_before_failure: usize::MAX,
        failures: 0,
    };
    let writer = Writer {
        taken: Vec::new(alloc),
        piece: usize::MAX,
        writes_before_last: 1,
        last: Last::Fails,
        failures: 0,
    };
    let goes_out = ends(alloc, &mut broker, (reader, writer), Ok(()), CATALOG_TEXT);
    drop(broker);
    goes_out
}

#[test]
fn a_reply_goes_out_in_one_write(rt: HostRuntime) -> Result<(), Fail> {
    let settings = built_in(rt.alloc())?;
    let goes_out = goes_out_in_one_write(rt.alloc(), &settings);
    drop(settings);
    assert!(rt; goes_out?);
    Ok(())
}

/// What a broker writes to these bytes with a buffer of these limits.
fn output_within(
    alloc: Global,
    broker: &mut Broker<'_, MemStore>,
    limits: &Limits,
    bytes: &[u8],
) -> Result<Vec<u8>, Fail> {
    let mut buffer = Buffer::new(alloc, limits)?;
    let reader = Reader {
        bytes,
        piece: usize::MAX,
        reads_before_failure: usize::MAX,
        failures: 0,
    };
    let Served {
        taken,
        end,
        failures: _,
    } = serves(broker, &mut buffer, reader, willing(alloc));
    match end {
        Ok(()) => Ok(taken),
        Err(_) => Err("a fault")?,
    }
}

/// Whether the first request isn't found, and the second is too large.
fn is_not_found_and_too_large(text: &[u8]) -> bool {
    match text.get(NOT_FOUND.len()..) {
        Some(rest) => text.starts_with(NOT_FOUND) && rest.starts_with(b"HTTP/1.1 413"),
        None => false,
    }
}

const AT_A_LIMIT_AND_OVER_ONE: &[u8] =
    b"PUT /v1/service_instances/i HTTP/1.1\r\nHost: b\r\nA: b\r\n\r\nPUT / HTTP/1.1\r\nHost: b\r\nContent-Length: 4\r\n\r\nabcd";

/// Whether a broker with a buffer for two field lines and a body of three bytes says so.
fn keeps_to_its_limits(alloc: Global, settings: &Settings) -> Result<bool, Fail> {
    let mut broker = new_broker(alloc, settings, 2)?;
    let limits = Limits {
        head: 60,
        fields: 2,
        body: 3,
    };
    let text = output_within(alloc, &mut broker, &limits, AT_A_LIMIT_AND_OVER_ONE);
    drop(broker);
    Ok(is_not_found_and_too_large(text?.as_slice()))
}

#[test]
fn smaller_buffers_keep_to_their_limits(rt: HostRuntime) -> Result<(), Fail> {
    let settings = built_in(rt.alloc())?;
    let keeps = keeps_to_its_limits(rt.alloc(), &settings);
    drop(settings);
    assert!(rt; keeps?);
    Ok(())
}
