//! Reads the request head at the front of a buffer.

use crate::limits::Limits;
use crate::line_room::LineRoom;
use crate::request::Request;
use httparse::spans::parse_request;
use httparse::{Error, Status};

/// The head at the front of a buffer, by what it holds of a request.
pub(crate) enum FoundOf<R> {
    /// A request with no body yet, and the length of its head.
    Head(R, usize),
    /// No head yet.
    Unfinished,
    /// No head, whatever follows, since there are too many field lines. The limit of a head isn't
    /// reached.
    TooManyFields,
    /// No head, whatever follows.
    Never,
}

/// The head at the front of a buffer.
pub(crate) type Found<'a> = FoundOf<Request<'a>>;

ghost use Rattle.osb_frames.specs.Found.{IsFound};

/// Reads the head at the front of a buffer. No more than the limit of a head is looked at.
pub(crate) fn head_at<'a>(buf: &'a [u8], limits: &Limits, room: &'a mut LineRoom) -> Found<'a>
    ensures { IsFound limits.now buf.now result }
{
    let window = &buf[..buf.len().min(limits.head)];
    match parse_request(window, &mut room[..limits.fields]) {
        Ok(Status::Complete(head)) => Found::Head(
            Request {
                method: head.method.of(window),
                target: head.path.of(window),
                minor: head.version,
                body: b"",
                head: window,
                lines: &room[..head.headers],
            },
            head.len,
        ),
        Ok(Status::Partial) => {
            if buf.len() < limits.head {
                Found::Unfinished
            } else {
                Found::Never
            }
        }
        Err(Error::TooManyHeaders) if buf.len() < limits.head => Found::TooManyFields,
        Err(_) => Found::Never,
    }
}
