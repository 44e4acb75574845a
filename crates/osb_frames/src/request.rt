//! A request, as slices of the buffer that it was read from.

ghost use Rattle.std.specs.Prelude.{◌≡◌, length, option_copied};
ghost use Rattle.std.specs.List.{slice_get};
ghost use Rattle.osb_frames.specs.Fields.{values_of};

use crate::field::{lists_item, same_ignoring_case};
use crate::line_room::part;
use httparse::spans::HeaderSpan;

/// A request (RFC 9112, 2.1), as slices of the buffer that it was read from.
#[derive(Clone, Copy, Debug)]
pub struct Request<'a> {
    /// The method, in the case that it came in.
    pub method: &'a [u8],
    /// The request target, as it came.
    pub target: &'a [u8],
    /// The minor version: 1 for HTTP/1.1, 0 for HTTP/1.0.
    pub minor: u8,
    /// The content, as many bytes as Content-Length says.
    pub body: &'a [u8],
    /// Bytes that begin with the head.
    pub(crate) head: &'a [u8],
    /// Where the field lines are in them, in the order that they came in.
    pub(crate) lines: &'a [HeaderSpan],
}

impl<'a> Request<'a> {
    ghost use Rattle.osb_frames.specs.Steps.{message};
    ghost use Rattle.osb_frames.specs.Line.{line_in};
    ghost use Rattle.osb_frames.specs.Cuts.{closes};

    fn name(&self, span: &HeaderSpan) -> &'a [u8]
        ensures { result.now ≡ (line_in self.now.head.now span.now).0 }
    {
        part(self.head, span.name.start, span.name.end)
    }

    fn value(&self, span: &HeaderSpan) -> &'a [u8]
        ensures { result.now ≡ (line_in self.now.head.now span.now).1 }
    {
        part(self.head, span.value.start, span.value.end)
    }

    /// The value of the first field line with that name, in any case (RFC 9110, 5.1), without the
    /// spaces and tabs around it.
    pub fn field(&self, name: &[u8]) -> Option<&'a [u8]>
        ensures { option_copied result ≡ slice_get (values_of name.now (message self.now).lines) 0 }
    {
        for span in self.lines {
            if same_ignoring_case(self.name(span), name) {
                return Some(self.value(span));
            }
        }
        None
    }

    /// How many field lines have the name, in any case.
    pub(crate) fn count_named(&self, name: &[u8]) -> usize
        ensures { result ≡ length (values_of name.now (message self.now).lines) }
    {
        let mut count = 0;
        for span in self.lines {
            if same_ignoring_case(self.name(span), name) {
                count += 1;
            }
        }
        count
    }

    /// Whether the request closes its connection by itself: it is HTTP/1.0, or a Connection line
    /// has the item `close` (RFC 9112, 9.3 and 9.6).
    pub fn closes(&self) -> bool
        ensures { result ≡ closes (message self.now) }
    {
        if self.minor == 0 {
            return true;
        }
        for span in self.lines {
            if same_ignoring_case(self.name(span), b"connection")
                && lists_item(b"close", self.value(span))
            {
                return true;
            }
        }
        false
    }
}
