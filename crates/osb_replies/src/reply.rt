//! A reply, and the length of its text.

ghost use Rattle.std.specs.Prelude.{◌≡◌, ◌-◌, ◌^◌, length, min};

use crate::body::Body;
use crate::pieces::{length_of, pieces};
use crate::status::Status;
use itoa::Buffer;

/// What is answered to a request.
#[derive(Drop)]
pub struct Reply<'a> {
    pub status: Status,
    /// A JSON object, compact.
    pub body: Body<'a>,
    /// The request's identity, which the reply repeats.
    pub echo: Option<&'a [u8]>,
    /// Whether the connection closes after it.
    pub close: bool,
}

/// The reply to a request for which memory or the store was refused.
pub const REFUSED: Reply<'static> = Reply {
    status: Status::InternalServerError,
    body: Body::EMPTY_OBJECT,
    echo: None,
    close: true,
};

impl<'a> Reply<'a> {
    ghost use Rattle.osb_replies.specs.Parts.{parts};
    ghost use Rattle.osb_replies.specs.Text.{reply_text};

    /// The length of its text in bytes, or the greatest `usize` where that is more. It takes no
    /// memory.
    pub fn length(&self) -> usize
        ensures { result ≡ min (length (reply_text (parts self.now))) (2 ^ 64 - 1) }
    {
        let (mut code, mut size) = (Buffer::new(), Buffer::new());
        length_of(&pieces(self, &mut code, &mut size))
    }
}
