//! Writes the text of a reply to a sink.

ghost use Rattle.std.specs.Prelude.{◌≡◌, ◌≤◌, ◌<◌, ◌+◌, ◌-◌, ◌^◌, ◌++◌, ℕ, List, length, min, take, IsOk, OnOk, OnErr, IfErr};
ghost use Rattle.osb_replies.specs.Parts.{parts};
ghost use Rattle.osb_replies.specs.Sending.{Seen, seen};
ghost use Rattle.osb_replies.specs.Staging.{Carries};
ghost use Rattle.osb_replies.specs.Pieces.{text_of};
ghost use Rattle.osb_replies.specs.Text.{reply_text};
ghost use Rattle.osb_replies.specs.Written.{WroteFirst};

use crate::pieces::pieces;
use crate::reply::Reply;
use crate::stage::Stage;
use itoa::Buffer;
use osb_frames::Sink;
use thiserror::Error;

/// A write failed or took nothing.
#[derive(Clone, Copy, Debug, Drop, PartialEq, Eq, Error)]
#[error("a write failed or took nothing")]
pub struct WriteFault {
    /// How many bytes of the text went out, or the greatest `usize` where they are more.
    pub written: usize,
}

/// Adds the pieces of a text.
fn put_all<W: Sink>(stage: &mut Stage, sink: &mut W, pieces: &[&[u8]])
    ensures { let old = seen (W.taken sink.old) (W.writes sink.old) (W.failed_or_empty sink.old) (W.room sink.old) in
        let new = seen (W.taken sink.new) (W.writes sink.new) (W.failed_or_empty sink.new) (W.room sink.new) in
        (start : Seen) (text : List ℕ) →
        Carries start text old stage.old →
        Carries start (text ++ text_of pieces.now) new stage.new }
{
    for piece in pieces {
        stage.put(sink, piece);
    }
}

/// Adds the text of a reply.
fn put_reply<W: Sink>(stage: &mut Stage, sink: &mut W, reply: &Reply<'_>)
    ensures { let old = seen (W.taken sink.old) (W.writes sink.old) (W.failed_or_empty sink.old) (W.room sink.old) in
        let new = seen (W.taken sink.new) (W.writes sink.new) (W.failed_or_empty sink.new) (W.room sink.new) in
        (start : Seen) (text : List ℕ) →
        Carries start text old stage.old →
        Carries start (text ++ reply_text (parts reply.now)) new stage.new }
{
    let (mut code, mut size) = (Buffer::new(), Buffer::new());
    put_all(stage, sink, &pieces(reply, &mut code, &mut size));
}

/// Writes the text of a reply, in as few writes as fit: a text of up to 1,024 bytes is offered to
/// the sink in one. It takes no memory.
pub fn write_reply<W: Sink>(sink: &mut W, reply: &Reply<'_>) -> Result<(), WriteFault>
    ensures sent { OnOk result (W.taken sink.new ≡ W.taken sink.old ++ reply_text (parts reply.now)) }
    ensures quiet { OnOk result (W.failed_or_empty sink.new ≡ W.failed_or_empty sink.old) }
    ensures cut { IfErr result (λ fault.
        WroteFirst (W.taken sink.old) (W.taken sink.new) (reply_text (parts reply.now)) fault.written) }
    ensures cause { OnErr result (W.failed_or_empty sink.old < W.failed_or_empty sink.new) }
    ensures short { OnErr result (W.room sink.old < length (reply_text (parts reply.now))) }
    ensures room_left { OnOk result
        (W.room sink.old ≤ W.room sink.new + length (reply_text (parts reply.now))) }
    ensures once { length (reply_text (parts reply.now)) ≤ 1024 →
        length (reply_text (parts reply.now)) ≤ W.room sink.old →
        W.writes sink.new ≡ W.writes sink.old + 1 }
{
    let mut stage = Stage::new();
    put_reply(&mut stage, sink, reply);
    stage.flush(sink);
    let sender = stage.sender();
    if sender.broken {
        return Err(WriteFault {
            written: sender.written,
        });
    }
    Ok(())
}
