//! Writers that room can be made in, before anything is written.

ghost use Rattle.std.specs.Prelude.{◌≡◌, ◌≤◌, ◌+◌, length, OnOk, OnErr};
ghost use Rattle.osb_frames.specs.Writers.{WritesNothing};
ghost use Rattle.osb_replies.specs.Parts.{parts};
ghost use Rattle.osb_replies.specs.Text.{reply_text};

use osb_frames::{InMemory, Sink};
use osb_replies::Reply;
use std::alloc::AllocError;

/// A writer that can make room before it is written to.
pub trait Room: Sink {
    /// Makes room for so many bytes, or refuses and has as much as before. It writes nothing.
    fn make(&mut self, bytes: usize) -> Result<(), AllocError>
        ensures ok { OnOk result (bytes ≤ Self.room self.new) }
        ensures err { OnErr result (Self.room self.new ≡ Self.room self.old) }
        ensures unwritten { WritesNothing Self.Sink self.old self.new };
}

impl Room for InMemory {
    fn make(&mut self, bytes: usize) -> Result<(), AllocError> {
        self.reserve(bytes)
    }
}

/// Makes room for the text of a reply, and `spare` bytes after it.
pub(crate) fn make_room<W: Room>(
    room: &mut W,
    reply: &Reply<'_>,
    spare: usize,
) -> Result<(), AllocError>
    ensures ok { OnOk result (length (reply_text (parts reply.now)) + spare ≤ W.room room.new) }
    ensures err { OnErr result (W.room room.new ≡ W.room room.old) }
    ensures unwritten { WritesNothing W.Sink room.old room.new }
{
    let length = reply.length();
    if length == usize::MAX {
        return Err(AllocError);
    }
    match length.checked_add(spare) {
        Some(bytes) => room.make(bytes),
        None => Err(AllocError),
    }
}
