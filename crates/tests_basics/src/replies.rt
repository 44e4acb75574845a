ghost use Rattle.std.specs.Prelude.{◌≡◌};
ghost use Rattle.osb_replies.specs.Parts.{parts, refused};

use osb_frames::Counted;
use osb_replies::{Body, FixedError, REFUSED, Reply, Status, WriteFault, write_reply};
use std::alloc::{AllocError, Global};
use std::io::{self, Write};
use std::process::Abort;
use std::test::Fail;

/// The reply of a refusal, and what is proved of the constant.
fn refusal() -> Reply<'static>
    ensures { parts result ≡ refused }
{
    REFUSED
}

fn plain(status: Status, body: &[u8]) -> Reply<'_> {
    Reply {
        status,
        body: Body::Lent(body),
        echo: None,
        close: false,
    }
}

/// How a writer goes wrong.
#[derive(Clone, Copy, PartialEq, Eq)]
enum Wrong {
    Never,
    Fails,
    TakesNothing,
}

/// Takes at most `most` bytes in one write, and goes wrong at the write with the number `bad`.
#[derive(Drop)]
struct Paper {
    bytes: Vec<u8>,
    most: usize,
    writes: usize,
    wrong: Wrong,
    bad: usize,
}

impl Write for Paper {
    fn write(&mut self, buf: &[u8]) -> io::Result<usize> {
        self.writes = self.writes.saturating_add(1);
        if self.writes == self.bad {
            match self.wrong {
                Wrong::Never => {}
                Wrong::Fails => return Err(io::Error::from(io::ErrorKind::BrokenPipe)),
                Wrong::TakesNothing => return Ok(0),
            }
        }
        let count = buf.len().min(self.most);
        self.bytes.extend_from_slice(&buf[..count])?;
        Ok(count)
    }

    fn flush(&mut self) -> io::Result<()> {
        Ok(())
    }
}

fn write_on(
    alloc: Global,
    reply: &Reply<'_>,
    most: usize,
    wrong: Wrong,
    bad: usize,
) -> (Result<(), WriteFault>, Paper) {
    let mut sink = Counted::new(Paper {
        bytes: Vec::new(alloc),
        most,
        writes: 0,
        wrong,
        bad,
    });
    let result = write_reply(&mut sink, reply);
    (result, sink.into_inner())
}

/// Whether the reply is written as `text`, so many bytes at a time.
fn is_written_as(alloc: Global, reply: &Reply<'_>, most: usize, text: &[u8]) -> bool {
    let (result, paper) = write_on(alloc, reply, most, Wrong::Never, 0);
    result == Ok(()) && paper.bytes.as_slice() == text
}

/// Checks that the reply is written as `text`, whole and in pieces, and that its length is right.
fn check(rt: &impl Abort, alloc: Global, reply: &Reply<'_>, text: &[u8]) {
    for most in [usize::MAX, 1, 7] {
        assert!(rt;
            is_written_as(alloc, reply, most, text),
            "{most} bytes at a time"
        );
    }
    assert!(rt; reply.length() == text.len());
}

#[test]
fn texts(rt: HostRuntime) {
    check(
        &rt,
        rt.alloc(),
        &FixedError::NoHead.reply(None, true),
        b"HTTP/1.1 400 Bad Request\r\nContent-Type: application/json\r\nContent-Length: 44\r\nConnection: close\r\n\r\n{\"description\":\"No request head was found.\"}",
    );
    check(
        &rt,
        rt.alloc(),
        &plain(Status::Created, b"{}"),
        b"HTTP/1.1 201 Created\r\nContent-Type: application/json\r\nContent-Length: 2\r\n\r\n{}",
    );
    let mut unauthorized = plain(Status::Unauthorized, b"{}");
    unauthorized.close = true;
    check(
        &rt,
        rt.alloc(),
        &unauthorized,
        b"HTTP/1.1 401 Unauthorized\r\nContent-Type: application/json\r\nContent-Length: 2\r\nWWW-Authenticate: Basic realm=\"broker\"\r\nConnection: close\r\n\r\n{}",
    );
    check(
        &rt,
        rt.alloc(),
        &refusal(),
        b"HTTP/1.1 500 Internal Server Error\r\nContent-Type: application/json\r\nContent-Length: 2\r\nConnection: close\r\n\r\n{}",
    );
}

#[test]
fn echoes(rt: HostRuntime) {
    let mut reply = plain(Status::Ok, b"{}");
    reply.echo = Some(b"r1");
    reply.close = true;
    check(
        &rt,
        rt.alloc(),
        &reply,
        b"HTTP/1.1 200 OK\r\nContent-Type: application/json\r\nContent-Length: 2\r\nX-Broker-API-Request-Identity: r1\r\nConnection: close\r\n\r\n{}",
    );
    reply.echo = Some(b"");
    reply.close = false;
    check(
        &rt,
        rt.alloc(),
        &reply,
        b"HTTP/1.1 200 OK\r\nContent-Type: application/json\r\nContent-Length: 2\r\nX-Broker-API-Request-Identity: \r\n\r\n{}",
    );
    let mut reply = plain(Status::Unauthorized, b"{}");
    reply.echo = Some(b"r1");
    reply.close = true;
    check(
        &rt,
        rt.alloc(),
        &reply,
        b"HTTP/1.1 401 Unauthorized\r\nContent-Type: application/json\r\nContent-Length: 2\r\nWWW-Authenticate: Basic realm=\"broker\"\r\nX-Broker-API-Request-Identity: r1\r\nConnection: close\r\n\r\n{}",
    );
}

/// A status, and how it is written.
type StatusCase = (Status, u16, &'static str);

const STATUSES: [StatusCase; 13] = [
    (Status::Ok, 200, "OK"),
    (Status::Created, 201, "Created"),
    (Status::Accepted, 202, "Accepted"),
    (Status::BadRequest, 400, "Bad Request"),
    (Status::Unauthorized, 401, "Unauthorized"),
    (Status::NotFound, 404, "Not Found"),
    (Status::Conflict, 409, "Conflict"),
    (Status::Gone, 410, "Gone"),
    (Status::LengthRequired, 411, "Length Required"),
    (Status::PreconditionFailed, 412, "Precondition Failed"),
    (Status::PayloadTooLarge, 413, "Payload Too Large"),
    (Status::UnprocessableEntity, 422, "Unprocessable Entity"),
    (Status::InternalServerError, 500, "Internal Server Error"),
];

fn check_statuses(rt: &impl Abort, cases: &[StatusCase]) {
    for (status, code, phrase) in cases {
        assert!(rt;
            status.code().as_u16() == *code && status.phrase() == *phrase,
            "{code} {phrase}"
        );
    }
}

#[test]
fn statuses(rt: HostRuntime) {
    check_statuses(&rt, &STATUSES);
}

/// An error, and the code and the body of its reply.
type ErrorCase = (FixedError, u16, &'static str);

fn check_errors(rt: &impl Abort, cases: &[ErrorCase]) {
    for (error, code, body) in cases {
        assert!(rt;
            error.status().code().as_u16() == *code && error.body() == body.as_bytes(),
            "{code} {body}"
        );
    }
}

/// What is wrong with a request by itself.
const OF_REQUESTS: [ErrorCase; 10] = [
    (
        FixedError::NoHead,
        400,
        r#"{"description":"No request head was found."}"#,
    ),
    (
        FixedError::Host,
        400,
        r#"{"description":"A request needs one Host line."}"#,
    ),
    (
        FixedError::Coding,
        411,
        r#"{"description":"Transfer codings are not supported."}"#,
    ),
    (
        FixedError::Length,
        400,
        r#"{"description":"The Content-Length is not usable."}"#,
    ),
    (
        FixedError::TooLarge,
        413,
        r#"{"description":"The body is too large."}"#,
    ),
    (
        FixedError::Cut,
        400,
        r#"{"description":"The input ended inside the body."}"#,
    ),
    (
        FixedError::Version,
        412,
        r#"{"description":"This broker speaks version 2 of the API."}"#,
    ),
    (
        FixedError::Id,
        400,
        r#"{"description":"An identifier is not usable."}"#,
    ),
    (
        FixedError::Query,
        400,
        r#"{"description":"The query is not usable."}"#,
    ),
    (
        FixedError::Body,
        400,
        r#"{"description":"The body is not usable."}"#,
    ),
];

#[test]
fn errors_of_requests(rt: HostRuntime) {
    check_errors(&rt, &OF_REQUESTS);
}

/// What is wrong with a request for the current state.
const OF_INSTANCES: [ErrorCase; 10] = [
    (
        FixedError::NotInCatalog,
        400,
        r#"{"description":"The catalog has no such service or plan."}"#,
    ),
    (
        FixedError::Mismatch,
        400,
        r#"{"description":"The service or plan is not the instance's."}"#,
    ),
    (
        FixedError::NotBindable,
        400,
        r#"{"description":"The plan is not bindable."}"#,
    ),
    (
        FixedError::Operation,
        400,
        r#"{"description":"The operation is not known for this resource."}"#,
    ),
    (
        FixedError::AsyncRequired,
        422,
        r#"{"description":"The plan needs asynchronous operations.","error":"AsyncRequired"}"#,
    ),
    (
        FixedError::ConcurrencyError,
        422,
        r#"{"description":"Another operation is in progress.","error":"ConcurrencyError"}"#,
    ),
    (
        FixedError::MaintenanceInfoConflict,
        422,
        r#"{"description":"The maintenance version is not the catalog's.","error":"MaintenanceInfoConflict"}"#,
    ),
    (
        FixedError::NoPlanChange,
        422,
        r#"{"description":"The plan does not allow a change of plan."}"#,
    ),
    (
        FixedError::BindingsRemain,
        422,
        r#"{"description":"The instance still has bindings."}"#,
    ),
    (
        FixedError::Full,
        422,
        r#"{"description":"The instance has no order numbers left."}"#,
    ),
];

#[test]
fn errors_of_instances(rt: HostRuntime) {
    check_errors(&rt, &OF_INSTANCES);
}

const ASYNC_REQUIRED: &[u8] =
    b"HTTP/1.1 422 Unprocessable Entity\r\nContent-Type: application/json\r\nContent-Length: 81\r\nX-Broker-API-Request-Identity: r1\r\nConnection: close\r\n\r\n{\"description\":\"The plan needs asynchronous operations.\",\"error\":\"AsyncRequired\"}";

/// Whether it is said what a writer took that takes seven bytes at a time, and goes wrong at that write.
fn tells_what_was_written(alloc: Global, reply: &Reply<'_>, wrong: Wrong, bad: usize) -> bool {
    let (result, paper) = write_on(alloc, reply, 7, wrong, bad);
    let written = bad.saturating_sub(1).saturating_mul(7);
    result == Err(WriteFault { written })
        && Some(paper.bytes.as_slice()) == ASYNC_REQUIRED.get(..written)
        && paper.writes == bad
}

/// The writer goes wrong at any of its writes.
fn breaks_anywhere(rt: &impl Abort, alloc: Global, wrong: Wrong) {
    let reply = FixedError::AsyncRequired.reply(Some(b"r1"), true);
    for bad in 1..=ASYNC_REQUIRED.len().div_ceil(7) {
        assert!(rt;
            tells_what_was_written(alloc, &reply, wrong, bad),
            "write {bad}"
        );
    }
}

#[test]
fn broken_writers(rt: HostRuntime) {
    breaks_anywhere(&rt, rt.alloc(), Wrong::Fails);
    breaks_anywhere(&rt, rt.alloc(), Wrong::TakesNothing);
}

/// Whether the reply has that length, and is written whole in so many writes.
fn takes_writes(alloc: Global, reply: &Reply<'_>, length: usize, writes: usize) -> bool {
    let (result, paper) = write_on(alloc, reply, usize::MAX, Wrong::Never, 0);
    result == Ok(()) && paper.bytes.len() == length && paper.writes == writes
}

/// A reply with a body of so many bytes.
fn with_body(alloc: Global, size: usize) -> Result<Reply<'static>, AllocError> {
    Ok(Reply {
        status: Status::Ok,
        body: Body::Built(Vec::from_elem(alloc, b'x', size)?),
        echo: None,
        close: false,
    })
}

/// The size of a body, the length of its reply, and how many writes that takes.
const WRITES: [(usize, usize, usize); 4] = [
    (2, 72, 1),
    (952, 1024, 1),
    (953, 1025, 2),
    (65536, 65610, 2),
];

/// A reply of up to 1,024 bytes is one write, and a longer one two.
#[test]
fn few_writes(rt: HostRuntime) -> Result<(), Fail> {
    let alloc = rt.alloc();
    for (size, length, writes) in &WRITES {
        assert!(rt;
            takes_writes(alloc, &with_body(alloc, *size)?, *length, *writes),
            "at {length} bytes"
        );
    }
    Ok(())
}

/// An identity that isn't gathered with the lines around it.
#[test]
fn long_identity(rt: HostRuntime) -> Result<(), Fail> {
    let identity = Vec::from_elem(rt.alloc(), b'i', 8000)?;
    let mut reply = plain(Status::Ok, b"{}");
    reply.echo = Some(identity.as_slice());
    assert!(rt; takes_writes(rt.alloc(), &reply, 8105, 3) && reply.length() == 8105);
    Ok(())
}

/// The body of a text that was built.
fn built(alloc: Global) -> Result<Body<'static>, AllocError> {
    let text = format!(in alloc; "{{\"operation\":\"create-{}\"}}", 1)?;
    Ok(text.into())
}

#[test]
fn bodies(rt: HostRuntime) -> Result<(), Fail> {
    assert!(rt; built(rt.alloc())?.bytes() == b"{\"operation\":\"create-1\"}".as_slice());
    assert!(rt; Body::EMPTY_OBJECT.bytes() == b"{}".as_slice());
    Ok(())
}
