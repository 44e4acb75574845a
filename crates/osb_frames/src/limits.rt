//! How large a request may be.

ghost use Rattle.std.specs.Prelude.{◌<◌, ◌≤◌};
ghost use Rattle.osb_frames.specs.declared.limits.TheConstants.{MOST_HEAD, MOST_FIELDS, MOST_BODY};

/// The most bytes of a head.
pub const MOST_HEAD: usize = 8192;

/// The most field lines of a head, for which a [`crate::Request`] has room.
pub const MOST_FIELDS: usize = 128;

/// The most bytes of a body.
pub const MOST_BODY: usize = 262_144;

/// How large a request may be. No limit exceeds that of [`Limits::STANDARD`], and a head may have
/// a byte at least.
#[derive(Clone, Copy, Debug)]
pub struct Limits {
    /// The bytes of a head, from the request's first byte to the end of its empty line. Empty
    /// lines before the request line count.
    pub head: usize,
    /// The field lines of a head.
    pub fields: usize,
    /// The bytes of a body.
    pub body: usize,
    pub ghost has_head: { 0 < head },
    pub ghost head_is_standard: { head ≤ MOST_HEAD },
    pub ghost fields_are_standard: { fields ≤ MOST_FIELDS },
    pub ghost body_is_standard: { body ≤ MOST_BODY },
}

impl Limits {
    /// A head of 8,192 bytes with 128 field lines, and a body of 262,144 bytes.
    pub const STANDARD: Limits = Limits {
        head: MOST_HEAD,
        fields: MOST_FIELDS,
        body: MOST_BODY,
    };
}
