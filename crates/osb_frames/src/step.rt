//! What is at the front of a buffer: a request, a framing fault, or too little yet.

ghost use Rattle.std.specs.Prelude.{◌≡◌, ℕ, ◌+◌, ◌<◌, ◌≤◌, length, IsTrue, IsFalse, MatchResult};

use crate::field::digits_number;
use crate::head::{Found, head_at};
use crate::limits::Limits;
use crate::line_room::LineRoom;
use crate::request::Request;

/// Why no further request is read. Of several the first of this list is reported.
#[derive(Clone, Copy, Debug, PartialEq, Eq)]
pub enum StopKind {
    /// The bytes begin with no head within the limits.
    NoHead,
    /// HTTP/1.1 without exactly one Host line, or HTTP/1.0 with more than one (RFC 9112, 3.2).
    Host,
    /// A Transfer-Encoding line: transfer codings aren't supported (RFC 9112, 6.1).
    Coding,
    /// Content-Length is repeated, or isn't 1 to 19 digits (RFC 9112, 6.3).
    Length,
    /// The body is larger than its limit.
    TooLarge,
    /// The input ended in the body.
    Cut,
}

/// What is at the front of a buffer, by what holds a request.
#[derive(Clone, Copy, Debug)]
pub enum Step<R> {
    /// A whole request, and how many bytes it has.
    Whole(R, usize),
    /// No further request is read.
    Stop(StopKind),
    /// The input ended before a request.
    Ended,
    /// More bytes are needed.
    More,
}

ghost use Rattle.osb_frames.specs.Steps.{message, Says, Stays, IfWhole, IfMore, IsWhole, IsFinal, Shows};
ghost use Rattle.osb_frames.specs.Heads.{IsHopeful};
ghost use Rattle.osb_frames.specs.Cuts.{fault_of, body_length, Message, Front, fault, whole, IsFront};

/// The length of the body, or the fault of the head.
fn body_length(request: &Request<'_>, limits: &Limits) -> Result<usize, StopKind>
    ensures { MatchResult result
        (λ n. (fault_of limits.now request.now.minor (message request.now).lines ≡ None)
        × (n ≡ body_length (message request.now).lines))
        (λ f. fault_of limits.now request.now.minor (message request.now).lines ≡ Some f) }
{
    let hosts = request.count_named(b"host");
    if hosts > 1 || (request.minor == 1 && hosts == 0) {
        return Err(StopKind::Host);
    }
    if request.count_named(b"transfer-encoding") > 0 {
        return Err(StopKind::Coding);
    }
    let length = match request.field(b"content-length") {
        None => 0,
        Some(value) => {
            if request.count_named(b"content-length") > 1 {
                return Err(StopKind::Length);
            }
            let Some(length) = digits_number(value) else {
                return Err(StopKind::Length);
            };
            length as usize
        }
    };
    if length > limits.body {
        return Err(StopKind::TooLarge);
    }
    Ok(length)
}

/// The step at the front of a buffer. Where it is `patient`, more is asked for of a head that has too
/// many field lines.
fn step_at<'a>(
    buf: &'a [u8],
    ended: bool,
    limits: &Limits,
    room: &'a mut LineRoom,
    patient: bool,
) -> Step<Request<'a>>
    ensures says { Says limits.now buf.now ended result }
    ensures hope { IsFalse patient → IfMore result (IsHopeful limits.now buf.now) }
{
    if buf.is_empty() {
        return if ended { Step::Ended } else { Step::More };
    }
    match head_at(buf, limits, room) {
        Found::Unfinished if !ended => Step::More,
        Found::TooManyFields if patient && !ended => Step::More,
        Found::Unfinished | Found::TooManyFields | Found::Never => Step::Stop(StopKind::NoHead),
        Found::Head(mut request, used) => {
            let rest = &buf[used..];
            match body_length(&request, limits) {
                Err(fault) => Step::Stop(fault),
                Ok(length) if length <= rest.len() => {
                    request.body = &rest[..length];
                    Step::Whole(request, used + length)
                }
                Ok(_) if ended => Step::Stop(StopKind::Cut),
                Ok(_) => Step::More,
            }
        }
    }
}

/// The request at the front of `buf`, where `ended` says that no more bytes come.
///
/// It takes no memory: `room` is for where the field lines are. A fault of the head is reported as soon as the head is whole. Where the
/// parser refuses the bytes, NoHead is reported at once, except for too many field lines: there
/// more bytes are asked for until the limit of a head is reached or the input ended.
pub fn next<'a>(
    buf: &'a [u8],
    ended: bool,
    limits: &Limits,
    room: &'a mut LineRoom,
) -> Step<Request<'a>>
    // What is answered is there.
    ensures says { Says limits.now buf.now ended result }
    ensures size { IfWhole result (λ request used. (0 < used) × (used ≤ length buf.now)) }
    ensures room { IfMore result (length buf.now < limits.now.head + limits.now.body) }

    // It is there whatever follows.
    ensures stays { Stays limits.now buf.now ended result }

    // A whole request that is there is answered, and so is a fault that no further bytes mend.
    ensures finds { (q : Message) (n : ℕ) → IsFront limits.now buf.now (whole q n) → IsWhole q n result }
    ensures stops { (f : StopKind) → IsFinal f → IsFront limits.now buf.now (fault f) → result ≡ Step.Stop f }

    // At the end of the input, what is there is answered, whatever it is.
    ensures stands { IsTrue ended → (front : Front) × IsFront limits.now buf.now front × Shows front result }
    ensures shows { IsTrue ended → (front : Front) → IsFront limits.now buf.now front → Shows front result }
{
    step_at(buf, ended, limits, room, true)
}

/// As [`next`], but no more is asked for of a head that has too many field lines: NoHead is
/// reported as soon as the line too many has come.
pub fn next_at_once<'a>(
    buf: &'a [u8],
    ended: bool,
    limits: &Limits,
    room: &'a mut LineRoom,
) -> Step<Request<'a>>
    ensures says { Says limits.now buf.now ended result }
    ensures size { IfWhole result (λ request used. (0 < used) × (used ≤ length buf.now)) }
    ensures room { IfMore result (length buf.now < limits.now.head + limits.now.body) }
    ensures stays { Stays limits.now buf.now ended result }
    ensures finds { (q : Message) (n : ℕ) → IsFront limits.now buf.now (whole q n) → IsWhole q n result }
    ensures stops { (f : StopKind) → IsFinal f → IsFront limits.now buf.now (fault f) → result ≡ Step.Stop f }

    // More bytes are asked for only where they can make a request.
    ensures hope { IfMore result (IsHopeful limits.now buf.now) }
{
    step_at(buf, ended, limits, room, false)
}
