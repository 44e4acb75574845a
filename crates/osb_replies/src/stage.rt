//! Short pieces of a text are gathered before they are sent, so that they go out in one write.

ghost use Rattle.std.specs.Prelude.{◌≡◌, ◌≤◌, ◌<◌, ◌+◌, ◌-◌, ◌++◌, ℕ, List, [], length};

use crate::sender::Sender;
use osb_frames::Sink;

/// How many bytes are gathered.
pub(crate) const SIZE: usize = 1024;

/// The last bytes of a text so far, which aren't sent yet.
#[derive(Drop)]
pub(crate) struct Stage {
    bytes: [u8; SIZE],
    used: usize,
    sender: Sender,
    ghost inside: { used ≤ 1024 },
}

impl Stage {
    ghost use Rattle.osb_replies.specs.Sending.{Seen, seen, Out};
    ghost use Rattle.osb_replies.specs.Staging.{Carries, staged};

    pub(crate) fn new() -> Stage
        ensures { (start : Seen) → Carries start [] start result }
    {
        Stage {
            bytes: [0; SIZE],
            used: 0,
            sender: Sender::new(),
        }
    }

    /// How far the text has come.
    pub(crate) fn sender(&self) -> Sender
        ensures { result ≡ self.now.sender }
    {
        self.sender
    }

    /// Keeps a piece.
    fn keep(&mut self, piece: &[u8])
        requires { length piece.now ≤ 1024 - self.old.used }
        ensures staged { staged self.new ≡ staged self.old ++ piece.now }
        ensures sender { self.new.sender ≡ self.old.sender }
    {
        let end = self.used + piece.len();
        self.bytes[self.used..end].copy_from_slice(piece);
        self.used = end;
    }

    /// Sends what is gathered.
    pub(crate) fn flush<W: Sink>(&mut self, sink: &mut W)
        ensures out { let old = seen (W.taken sink.old) (W.writes sink.old) (W.failed_or_empty sink.old) (W.room sink.old) in
            let new = seen (W.taken sink.new) (W.writes sink.new) (W.failed_or_empty sink.new) (W.room sink.new) in
            (start : Seen) (text : List ℕ) →
            Carries start text old self.old →
            Out start text new self.new.sender }
        ensures once { let old = seen (W.taken sink.old) (W.writes sink.old) (W.failed_or_empty sink.old) (W.room sink.old) in
            (start : Seen) (text : List ℕ) →
            Carries start text old self.old →
            0 < length text → length text ≤ 1024 → length text ≤ start.room →
            W.writes sink.new ≡ start.writes + 1 }
        ensures used { self.new.used ≡ 0 }
    {
        let mut sender = self.sender;
        let gathered = &*self;
        sender.send(sink, &gathered.bytes[..gathered.used]);
        self.sender = sender;
        self.used = 0;
    }

    /// Adds a piece to the text.
    pub(crate) fn put<W: Sink>(&mut self, sink: &mut W, piece: &[u8])
        ensures { let old = seen (W.taken sink.old) (W.writes sink.old) (W.failed_or_empty sink.old) (W.room sink.old) in
            let new = seen (W.taken sink.new) (W.writes sink.new) (W.failed_or_empty sink.new) (W.room sink.new) in
            (start : Seen) (text : List ℕ) →
            Carries start text old self.old →
            Carries start (text ++ piece.now) new self.new }
    {
        if piece.len() <= SIZE - self.used {
            self.keep(piece);
            return;
        }
        self.flush(sink);
        if piece.len() <= SIZE {
            self.keep(piece);
        } else {
            self.sender.send(sink, piece);
        }
    }
}
