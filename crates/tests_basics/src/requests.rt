//! Heads, bodies and faults at their limits. Each input is looked at whole, byte by byte and in
//! pieces of 7 bytes, and has to be answered alike.

use osb_frames::{
    InMemory, Limits, LineRoom, NO_LINES, Request, Sink, Step, StopKind, next, next_at_once,
};
use std::alloc::{AllocError, Global};
use std::process::Abort;
use std::test::Fail;

/// What the first request of the bytes is, where they come in pieces of that size.
fn first_step<'a>(bytes: &'a [u8], piece: usize, lines: &'a mut LineRoom) -> Step<Request<'a>> {
    for turn in 0..bytes.len() {
        let came = turn.saturating_mul(piece).min(bytes.len());
        if !matches!(
            next(&bytes[..came], false, &Limits::STANDARD, lines),
            Step::More
        ) {
            return next(&bytes[..came], false, &Limits::STANDARD, lines);
        }
    }
    next(bytes, true, &Limits::STANDARD, lines)
}

/// The fault that the bytes end with, where it is the same in all pieces.
fn stops_with(bytes: &[u8], kind: StopKind) -> bool {
    [1, 7, bytes.len()].iter().all(|piece| match first_step(bytes, *piece, &mut NO_LINES) {
        Step::Stop(found) => found == kind,
        _ => false,
    })
}

/// Whether the bytes begin with a request of so many bytes, in all pieces.
fn reads(bytes: &[u8], size: usize) -> bool {
    [1, 7, bytes.len()].iter().all(|piece| match first_step(bytes, *piece, &mut NO_LINES) {
        Step::Whole(_, used) => used == size,
        _ => false,
    })
}

/// Whether the request at the front of the bytes closes its connection.
fn closes(bytes: &[u8]) -> Option<bool> {
    match next(bytes, true, &Limits::STANDARD, &mut NO_LINES) {
        Step::Whole(request, _) => Some(request.closes()),
        _ => None,
    }
}

/// The front, so many times the middle, and the back.
fn repeated(
    alloc: Global,
    front: &str,
    middle: &str,
    times: usize,
    back: &str,
) -> Result<String, AllocError> {
    let mut text = String::from_str(alloc, front)?;
    for _ in 0..times {
        text.push_str(middle)?;
    }
    text.push_str(back)?;
    Ok(text)
}

fn has_its_parts(request: &Request<'_>) -> bool {
    request.method == b"POST".as_slice()
        && request.target == b"/a?b".as_slice()
        && request.minor == 1
        && request.body == b"abc".as_slice()
        && !request.closes()
}

fn has_its_fields(request: &Request<'_>) -> bool {
    request.field(b"HOST") == Some(b"x".as_slice())
        && request.field(b"Content-Length") == Some(b"3".as_slice())
        && request.field(b"HOST-NOT") == Some(b"".as_slice())
        && request.field(b"cookie").is_none()
}

#[test]
fn a_request_has_its_parts(rt: HostRuntime) {
    let buf = b"POST /a?b HTTP/1.1\r\nHost: x\r\ncontent-LENGTH: \t3 \r\nHost-Not: \r\n\r\nabcGET";
    let mut lines = NO_LINES;
    let Step::Whole(request, used) = next(buf, false, &Limits::STANDARD, &mut lines) else {
        panic!(rt; "no request");
    };
    assert!(rt; used == 67 && has_its_parts(&request) && has_its_fields(&request));
}

#[test]
fn the_first_of_repeated_fields_counts(rt: HostRuntime) {
    let buf = b"GET / HTTP/1.1\r\nX-A: 1\r\nHost: x\r\nx-a: 2\r\n\r\n";
    let mut lines = NO_LINES;
    let Step::Whole(request, _) = next(buf, true, &Limits::STANDARD, &mut lines) else {
        panic!(rt; "no request");
    };
    assert!(rt; request.field(b"X-a") == Some(b"1".as_slice()));
}

/// Whether these bytes may become a request.
fn wants_more(bytes: &[u8]) -> bool {
    matches!(
        next(bytes, false, &Limits::STANDARD, &mut NO_LINES),
        Step::More
    )
}

/// Whether no bytes can mend that there is no head.
fn has_no_head_at_once(bytes: &[u8]) -> bool {
    matches!(
        next(bytes, false, &Limits::STANDARD, &mut NO_LINES),
        Step::Stop(StopKind::NoHead)
    )
}

#[test]
fn nothing_and_too_little(rt: HostRuntime) {
    assert!(rt;
        matches!(
            next(b"", true, &Limits::STANDARD, &mut NO_LINES),
            Step::Ended
        )
    );
    assert!(rt; wants_more(b""));
    assert!(rt; wants_more(b"GET / HT"));
    assert!(rt; wants_more(b"\r\n"));
    assert!(rt; wants_more(b"PUT / HTTP/1.1\r\nHost: b\r\nContent-Length: 2\r\n\r\n1"));
}

#[test]
fn no_head(rt: HostRuntime) {
    assert!(rt; stops_with(b"\r\n", StopKind::NoHead));
    assert!(rt; stops_with(b"GET / HT", StopKind::NoHead));
    assert!(rt; stops_with(b"GET /\r\n\r\n", StopKind::NoHead));
    assert!(rt; stops_with(b"GET / HTTP/1.2\r\nHost: b\r\n\r\n", StopKind::NoHead));
    assert!(rt; stops_with(b"GET / HTTP/1.1\r\nHost : b\r\n\r\n", StopKind::NoHead));
    // What no bytes can mend is reported before the input ends.
    assert!(rt; has_no_head_at_once(b"\x01"));
}

/// Whether a text of that size is a request.
fn fits(text: &str, size: usize) -> bool {
    text.len() == size && reads(text.as_bytes(), size)
}

/// Whether a text has that size, and no head.
fn is_too_large(text: &str, size: usize) -> bool {
    text.len() == size && stops_with(text.as_bytes(), StopKind::NoHead)
}

#[test]
fn heads_at_their_limit(rt: HostRuntime) -> Result<(), Fail> {
    let alloc = rt.alloc();
    let front = "GET /v2/catalog HTTP/1.1\r\nHost: b\r\nX-Pad: ";
    assert!(rt;
        fits(
            repeated(alloc, front, "a", 8192 - 46, "\r\n\r\n")?.as_str(),
            8192
        )
    );
    assert!(rt;
        is_too_large(
            repeated(alloc, front, "a", 8193 - 46, "\r\n\r\n")?.as_str(),
            8193
        )
    );
    Ok(())
}

#[test]
fn empty_lines_before_a_head_count(rt: HostRuntime) -> Result<(), Fail> {
    let alloc = rt.alloc();
    let request = "GET / HTTP/1.1\r\nHost: b\r\n\r\n";
    assert!(rt; fits(repeated(alloc, "\n", "\r\n", 4082, request)?.as_str(), 8192));
    assert!(rt;
        is_too_large(
            repeated(alloc, "\r\n", "\r\n", 4082, request)?.as_str(),
            8193
        )
    );
    Ok(())
}

/// A head of so many field lines besides its first, and what follows them.
fn with_lines(alloc: Global, lines: usize, end: &str) -> Result<String, AllocError> {
    repeated(
        alloc,
        "GET / HTTP/1.1\r\nHost: b\r\n",
        "X: a\r\n",
        lines,
        end,
    )
}

fn is_one_request(text: &str) -> bool {
    reads(text.as_bytes(), text.len())
}

/// Too many lines are reported at the limit of a head or at the end, and not before.
fn has_too_many_lines_at_its_end(bytes: &[u8]) -> bool {
    stops_with(bytes, StopKind::NoHead) && wants_more(bytes)
}

#[test]
fn field_lines_at_their_limit(rt: HostRuntime) -> Result<(), Fail> {
    let alloc = rt.alloc();
    assert!(rt; is_one_request(with_lines(alloc, 127, "\r\n")?.as_str()));
    assert!(rt; has_too_many_lines_at_its_end(with_lines(alloc, 128, "\r\n")?.as_bytes()));
    assert!(rt; has_no_head_at_once(with_lines(alloc, 1400, "")?.as_bytes()));
    Ok(())
}

/// Whether these bytes may become a request for one that doesn't wait for a whole head.
fn wants_more_at_once(bytes: &[u8]) -> bool {
    matches!(
        next_at_once(bytes, false, &Limits::STANDARD, &mut NO_LINES),
        Step::More
    )
}

fn wants_more_either_way(bytes: &[u8]) -> bool {
    wants_more(bytes) && wants_more_at_once(bytes)
}

/// Whether only one that waits for a whole head asks for more.
fn wants_a_whole_head(bytes: &[u8]) -> bool {
    wants_more(bytes) && !wants_more_at_once(bytes)
}

fn wants_no_more(bytes: &[u8]) -> bool {
    !wants_more(bytes) && !wants_more_at_once(bytes)
}

/// One line too many ends the hope of a head, as soon as it is there.
#[test]
fn too_many_lines_at_once(rt: HostRuntime) -> Result<(), Fail> {
    assert!(rt; wants_more_either_way(with_lines(rt.alloc(), 127, "")?.as_bytes()));
    assert!(rt; wants_a_whole_head(with_lines(rt.alloc(), 128, "")?.as_bytes()));
    assert!(rt;
        wants_more_either_way(b"") && wants_more_either_way(b"GET / HT") && wants_no_more(b"\x01")
    );
    Ok(())
}

#[test]
fn hosts(rt: HostRuntime) {
    assert!(rt; stops_with(b"GET / HTTP/1.1\r\n\r\n", StopKind::Host));
    assert!(rt;
        stops_with(
            b"GET / HTTP/1.1\r\nHost: a\r\nhost: a\r\n\r\n",
            StopKind::Host
        )
    );
    assert!(rt;
        stops_with(
            b"GET / HTTP/1.0\r\nHost: a\r\nhost: b\r\n\r\n",
            StopKind::Host
        )
    );
    assert!(rt; reads(b"GET / HTTP/1.0\r\n\r\n", 18));
    assert!(rt; reads(b"GET / HTTP/1.0\r\nHost: a\r\n\r\n", 27));
    // It is reported before a length that isn't usable.
    assert!(rt;
        stops_with(
            b"PUT / HTTP/1.1\r\nContent-Length: x\r\n\r\n",
            StopKind::Host
        )
    );
    // A Host line without a value is one.
    assert!(rt; reads(b"GET / HTTP/1.1\r\nHost:\r\n\r\n", 25));
}

#[test]
fn codings(rt: HostRuntime) {
    let front = b"PUT / HTTP/1.1\r\nHost: b\r\nTransfer-Encoding: chunked\r\n\r\n";
    assert!(rt; stops_with(front, StopKind::Coding));
    // The name has no case, and the value doesn't count.
    let empty = b"PUT / HTTP/1.1\r\nHost: b\r\ntransfer-ENCODING:\r\n\r\n";
    assert!(rt; stops_with(empty, StopKind::Coding));
    let both =
        b"PUT / HTTP/1.1\r\nHost: b\r\nTransfer-Encoding: identity\r\nContent-Length: x\r\n\r\n";
    assert!(rt; stops_with(both, StopKind::Coding));
    let host_first = b"PUT / HTTP/1.1\r\nTransfer-Encoding: chunked\r\n\r\n";
    assert!(rt; stops_with(host_first, StopKind::Host));
    let large =
        b"PUT / HTTP/1.1\r\nHost: b\r\nTransfer-Encoding: chunked\r\nContent-Length: 262145\r\n\r\n";
    assert!(rt; stops_with(large, StopKind::Coding));
    let host_first = b"PUT / HTTP/1.1\r\nContent-Length: 262145\r\n\r\n";
    assert!(rt; stops_with(host_first, StopKind::Host));
}

/// Whether a head with these lines, whose input goes on, is reported as faulty.
fn stops_at_once(alloc: Global, lines: &str, kind: StopKind) -> Result<bool, AllocError> {
    let head = repeated(alloc, "PUT / HTTP/1.1\r\n", lines, 1, "\r\n")?;
    Ok(
        match next(head.as_bytes(), false, &Limits::STANDARD, &mut NO_LINES) {
            Step::Stop(found) => found == kind,
            _ => false,
        },
    )
}

const FAULTS_OF_A_HEAD: [(&str, StopKind); 4] = [
    ("Content-Length: 1\r\n", StopKind::Host),
    (
        "Host: b\r\nTransfer-Encoding: x\r\nContent-Length: 1\r\n",
        StopKind::Coding,
    ),
    ("Host: b\r\nContent-Length: x\r\n", StopKind::Length),
    ("Host: b\r\nContent-Length: 262145\r\n", StopKind::TooLarge),
];

/// The faults of a head don't wait for a body.
#[test]
fn faults_of_a_head(rt: HostRuntime) -> Result<(), Fail> {
    for (lines, kind) in &FAULTS_OF_A_HEAD {
        assert!(rt; stops_at_once(rt.alloc(), *lines, *kind)?, "{lines}");
    }
    Ok(())
}

fn length_is(alloc: Global, value: &str, kind: StopKind) -> Result<bool, AllocError> {
    let mut text = String::from_str(alloc, "PUT / HTTP/1.0\r\nContent-Length: ")?;
    text.push_str(value)?;
    text.push_str("\r\n\r\n1")?;
    Ok(stops_with(text.as_bytes(), kind))
}

const UNUSABLE_LENGTHS: [&str; 10] = [
    "",
    "x",
    "+1",
    "-1",
    "1 1",
    "0x1",
    "1,1",
    "00000000000000000001",
    "1\r\nContent-Length: 1",
    "1\r\ncontent-length: 262145",
];

const LARGE_LENGTHS: [&str; 2] = ["262145", "9999999999999999999"];

const LENGTHS_OF_MORE: [&str; 4] = ["2", "0000000000000000002", "65537", "262144"];

fn lengths_are(
    rt: &(impl Abort + AllocGlobal),
    values: &[&str],
    kind: StopKind,
) -> Result<(), Fail> {
    for value in values {
        assert!(rt; length_is(rt.alloc(), *value, kind)?, "{value}");
    }
    Ok(())
}

#[test]
fn lengths(rt: HostRuntime) -> Result<(), Fail> {
    lengths_are(&rt, &UNUSABLE_LENGTHS, StopKind::Length)?;
    lengths_are(&rt, &LARGE_LENGTHS, StopKind::TooLarge)?;
    lengths_are(&rt, &LENGTHS_OF_MORE, StopKind::Cut)?;
    // No byte of a body, and none of the bytes that follow.
    assert!(rt; reads(b"PUT / HTTP/1.0\r\nContent-Length: 0\r\n\r\n", 37));
    Ok(())
}

/// The bytes of the first request and of its body.
fn sizes(bytes: &[u8]) -> Option<(usize, usize)> {
    match next(bytes, false, &Limits::STANDARD, &mut NO_LINES) {
        Step::Whole(request, used) => Some((used, request.body.len())),
        _ => None,
    }
}

/// Whether the bytes want more, and are cut where nothing follows.
fn is_cut(bytes: &[u8]) -> bool {
    wants_more(bytes)
        && matches!(
            next(bytes, true, &Limits::STANDARD, &mut NO_LINES),
            Step::Stop(StopKind::Cut)
        )
}

/// The head of a request whose body is as large as may be.
const LARGEST: &str = "PUT / HTTP/1.1\r\nHost: b\r\nContent-Length: 262144\r\n\r\n";

#[test]
fn bodies_at_their_limit(rt: HostRuntime) -> Result<(), Fail> {
    let whole = sizes(repeated(rt.alloc(), LARGEST, "b", 262_144, "PUT")?.as_bytes());
    assert!(rt; whole == Some((LARGEST.len() + 262_144, 262_144)));
    assert!(rt; is_cut(repeated(rt.alloc(), LARGEST, "b", 262_143, "")?.as_bytes()));
    Ok(())
}

#[test]
fn smaller_limits_hold(rt: HostRuntime) {
    let limits = &Limits {
        head: 30,
        fields: 1,
        body: 2,
    };
    let fits = b"GET / HTTP/1.1\r\nHost: b\r\n\r\n";
    assert!(rt; matches!(next(fits, true, limits, &mut NO_LINES), Step::Whole(_, 27)));
    let long = b"GET /abc HTTP/1.1\r\nHost: bc\r\n\r\n";
    assert!(rt;
        matches!(
            next(long, true, limits, &mut NO_LINES),
            Step::Stop(StopKind::NoHead)
        )
    );
    let lines = b"GET / HTTP/1.0\r\nA: 1\r\nB: 2\r\n\r\n";
    assert!(rt;
        matches!(
            next(lines, true, limits, &mut NO_LINES),
            Step::Stop(StopKind::NoHead)
        )
    );
}

#[test]
fn closing(rt: HostRuntime) {
    assert!(rt; closes(b"GET / HTTP/1.1\r\nHost: b\r\n\r\n") == Some(false));
    assert!(rt; closes(b"GET / HTTP/1.0\r\nConnection: keep-alive\r\n\r\n") == Some(true));
    let second = b"GET / HTTP/1.1\r\nHost: b\r\nConnection: a\r\nConnection: close\r\n\r\n";
    assert!(rt; closes(second) == Some(true));
    let case = b"GET / HTTP/1.1\r\nHost: b\r\ncONNECTION: close\r\n\r\n";
    assert!(rt; closes(case) == Some(true));
    let other = b"GET / HTTP/1.1\r\nHost: b\r\nConnections: close\r\n\r\n";
    assert!(rt; closes(other) == Some(false));
}

/// Whether a request with that Connection line closes.
fn closes_by(alloc: Global, value: &str) -> Result<bool, AllocError> {
    let text = format!(in alloc; "GET / HTTP/1.1\r\nHost: b\r\nConnection: {value}\r\n\r\n")?;
    Ok(closes(text.as_bytes()) == Some(true))
}

const CLOSING: [&str; 6] = [
    "close",
    "Close",
    "CLOSE",
    "a, close",
    "close,b",
    "a ,\t cLose ,b",
];

const NOT_CLOSING: [&str; 6] = ["", "closed", "clos", "a close", "keep-alive", "\"close\""];

fn close_by(rt: &(impl Abort + AllocGlobal), lines: &[&str], close: bool) -> Result<(), Fail> {
    for line in lines {
        assert!(rt; closes_by(rt.alloc(), *line)? == close, "{line}");
    }
    Ok(())
}

#[test]
fn closing_lines(rt: HostRuntime) -> Result<(), Fail> {
    close_by(&rt, &CLOSING, true)?;
    close_by(&rt, &NOT_CLOSING, false)
}

#[test]
fn keeps_what_it_takes(rt: HostRuntime) -> Result<(), Fail> {
    let mut bytes = Vec::new(rt.alloc());
    bytes.extend_from_slice(b"cat")?;
    let mut kept = InMemory::new(bytes);
    let took = takes_with_room(&mut kept, b"alog");
    let bytes = kept.into_bytes();
    let is_whole = bytes.as_slice() == b"catalog".as_slice();
    drop(bytes);
    assert!(rt; took? && is_whole);
    Ok(())
}

/// Whether all of the bytes are taken, once there is room for them.
fn takes_with_room(kept: &mut InMemory, bytes: &[u8]) -> Result<bool, AllocError> {
    kept.reserve(bytes.len())?;
    Ok(matches!(kept.write(bytes), Ok(count) if count == bytes.len()))
}
