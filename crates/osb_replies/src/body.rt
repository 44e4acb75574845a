//! The body of a reply, which is lent or its own.

ghost use Rattle.std.specs.Prelude.{◌≡◌, string_bytes};

/// The body of a reply: bytes that lie elsewhere, or bytes of its own.
#[derive(Drop)]
pub enum Body<'a> {
    Lent(&'a [u8]),
    Built(Vec<u8>),
}

impl<'a> Body<'a> {
    ghost use Rattle.osb_replies.specs.Body.{body_bytes};

    /// The empty JSON object.
    pub const EMPTY_OBJECT: Body<'static> = Body::Lent(b"{}");

    /// The bytes of the body.
    pub fn bytes(&self) -> &[u8]
        ensures { result.now ≡ body_bytes self.now }
    {
        match self {
            Body::Lent(bytes) => bytes,
            Body::Built(bytes) => bytes.as_slice(),
        }
    }
}

impl From<String> for Body<'_> {
    ghost use Rattle.osb_replies.specs.Body.{body_bytes};

    ghost from_gives = { λ text body. body_bytes body ≡ string_bytes text };

    /// The text's own bytes. It takes no memory.
    fn from(text: String) -> Self {
        Body::Built(text.into_bytes())
    }
}
