//! The replies to framing faults.

ghost use Rattle.std.specs.Prelude.{◌≡◌, ◌≢◌, ◌<◌, length, true, false, OnErr, IfErr};
ghost use Rattle.osb_replies.specs.Parts.{parts, refused};
ghost use Rattle.osb_replies.specs.Text.{reply_text};
ghost use Rattle.osb_replies.specs.Written.{WroteFirst};
ghost use Rattle.osb_broker.specs.Machine.{error_of, fault_reply};
ghost use Rattle.osb_broker.specs.Serving.{WritesText};

use osb_frames::{Sink, StopKind};
use osb_replies::{FixedError, Reply, WriteFault, write_reply};

/// The error that reports a framing fault.
fn error_of(kind: StopKind) -> FixedError
    ensures { result ≡ error_of kind }
{
    match kind {
        StopKind::NoHead => FixedError::NoHead,
        StopKind::Host => FixedError::Host,
        StopKind::Coding => FixedError::Coding,
        StopKind::Length => FixedError::Length,
        StopKind::TooLarge => FixedError::TooLarge,
        StopKind::Cut => FixedError::Cut,
    }
}

/// The fixed reply to a framing fault, which closes its connection.
fn fault_reply(kind: StopKind) -> Reply<'static>
    ensures { parts result ≡ fault_reply kind }
{
    error_of(kind).reply(None, true)
}

/// The text of the reply to a request for which memory or the store was refused.
const FIXED_500: &[u8] =
    b"HTTP/1.1 500 Internal Server Error\r\nContent-Type: application/json\r\nContent-Length: 2\r\nConnection: close\r\n\r\n{}";

/// Whether a text is that of the fixed 500.
pub fn is_fixed_500(text: &[u8]) -> bool
    ensures yes { result ≡ true → text.now ≡ reply_text refused }
    ensures no { result ≡ false → text.now ≢ reply_text refused }
{
    text == FIXED_500
}

/// Writes the reply to a framing fault.
pub fn refuse<W: Sink>(sink: &mut W, kind: StopKind) -> Result<(), WriteFault>
    ensures cut { IfErr result (λ fault.
        WroteFirst (W.taken sink.old) (W.taken sink.new)
        (reply_text (fault_reply kind)) fault.written) }
    ensures short { OnErr result (W.room sink.old < length (reply_text (fault_reply kind))) }
    ensures writes { WritesText (W.taken sink.old) (W.failed_or_empty sink.old) (W.taken sink.new)
        (W.failed_or_empty sink.new) result (reply_text (fault_reply kind)) }
{
    write_reply(sink, &fault_reply(kind))
}
