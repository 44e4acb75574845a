//! The pieces of a reply's text, in the order in which they are sent.

ghost use Rattle.std.specs.Prelude.{if◌then◌else◌, codes, ◌≡◌, ◌-◌, ◌^◌, [], length, min, option_copied, unwrap_or};
ghost use Rattle.osb_replies.specs.Status.{phrase_of};
ghost use Rattle.osb_replies.specs.Text.{line, challenge_line, reply_text};
ghost use Rattle.osb_replies.specs.Parts.{parts};
ghost use Rattle.osb_replies.specs.Pieces.{text_of, before_identity, after_identity};

use crate::reply::Reply;
use crate::status::Status;
use itoa::Buffer;

/// The line that asks for credentials, on a 401.
fn challenge<'p>(status: Status) -> &'p [u8]
    ensures { result.now ≡ challenge_line status }
{
    if status == Status::Unauthorized {
        b"WWW-Authenticate: Basic realm=\"broker\"\r\n"
    } else {
        b""
    }
}

/// The line of a reply that closes its connection.
fn closing<'p>(close: bool) -> &'p [u8]
    ensures { result.now ≡ (if close then line (codes "Connection: close") else []) }
{
    if close { b"Connection: close\r\n" } else { b"" }
}

/// What the status is called.
fn phrase<'p>(status: Status) -> &'p [u8]
    ensures { result.now ≡ phrase_of status }
{
    status.phrase().as_bytes()
}

/// What comes before the request's identity, where it has one.
fn before_identity<'p>(echo: Option<&'p [u8]>) -> &'p [u8]
    ensures { result.now ≡ before_identity (option_copied echo.entry) }
{
    if echo.is_some() {
        b"X-Broker-API-Request-Identity: "
    } else {
        b""
    }
}

fn identity(echo: Option<&[u8]>) -> &[u8]
    ensures { result.now ≡ unwrap_or (option_copied echo.entry) [] }
{
    echo.unwrap_or(b"")
}

/// What comes after it.
fn after_identity<'p>(echo: Option<&'p [u8]>) -> &'p [u8]
    ensures { result.now ≡ after_identity (option_copied echo.entry) }
{
    if echo.is_some() { b"\r\n" } else { b"" }
}

/// The pieces of its text. The numbers in it are written into the two buffers.
pub(crate) fn pieces<'p>(
    reply: &'p Reply<'p>,
    code: &'p mut Buffer,
    size: &'p mut Buffer,
) -> [&'p [u8]; 16]
    ensures { text_of result ≡ reply_text (parts reply.now) }
{
    [
        b"HTTP/1.1 ",
        code.format(reply.status.code().as_u16()).as_bytes(),
        b" ",
        phrase(reply.status),
        b"\r\n",
        b"Content-Type: application/json\r\n",
        b"Content-Length: ",
        size.format(reply.body.bytes().len()).as_bytes(),
        b"\r\n",
        challenge(reply.status),
        before_identity(reply.echo),
        identity(reply.echo),
        after_identity(reply.echo),
        closing(reply.close),
        b"\r\n",
        reply.body.bytes(),
    ]
}

/// The length of a text in pieces, or the greatest `usize` where that is more.
pub(crate) fn length_of(pieces: &[&[u8]]) -> usize
    ensures { result ≡ min (length (text_of pieces.now)) (2 ^ 64 - 1) }
{
    let mut sum: usize = 0;
    for piece in pieces {
        sum = sum.saturating_add(piece.len());
    }
    sum
}
