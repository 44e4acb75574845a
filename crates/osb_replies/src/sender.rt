//! Sends the pieces of a text to a sink, up to the first write that fails or takes nothing.

ghost use Rattle.std.specs.Prelude.{◌≡◌, ◌≤◌, ◌<◌, ◌+◌, ◌++◌, ℕ, List, length, false};

use osb_frames::{Sink, send_all};

/// How far a text has come.
#[derive(Clone, Copy)]
pub(crate) struct Sender {
    /// How many bytes went out, or the greatest `usize` where they are more.
    pub(crate) written: usize,
    /// Whether a write failed or took nothing. Nothing is sent after it.
    pub(crate) broken: bool,
}

impl Sender {
    ghost use Rattle.osb_replies.specs.Sending.{Seen, seen, Out};

    pub(crate) fn new() -> Sender
        ensures written { result.written ≡ 0 }
        ensures whole { result.broken ≡ false }
    {
        Sender {
            written: 0,
            broken: false,
        }
    }

    /// Sends a piece after the text so far, if all of that went out.
    pub(crate) fn send<W: Sink>(&mut self, sink: &mut W, piece: &[u8])
        ensures out { let old = seen (W.taken sink.old) (W.writes sink.old) (W.failed_or_empty sink.old) (W.room sink.old) in
            let new = seen (W.taken sink.new) (W.writes sink.new) (W.failed_or_empty sink.new) (W.room sink.new) in
            (start : Seen) (text : List ℕ) →
            Out start text old self.old →
            Out start (text ++ piece.now) new self.new }
        ensures once { self.old.broken ≡ false → 0 < length piece.now → length piece.now ≤ W.room sink.old →
            W.writes sink.new ≡ W.writes sink.old + 1 }
    {
        if self.broken {
            return;
        }
        match send_all(sink, piece) {
            Ok(()) => self.written = self.written.saturating_add(piece.len()),
            Err(done) => {
                self.written = self.written.saturating_add(done);
                self.broken = true;
            }
        }
    }
}
