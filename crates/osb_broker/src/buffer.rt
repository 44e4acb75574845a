//! The room that connections are read into.

ghost use Rattle.std.specs.Prelude.{◌≡◌, ◌+◌, length, IfOk};

use osb_frames::Limits;
use std::alloc::{AllocError, Global};

/// Room for one request, made once and used for one connection after another. Between two
/// connections it holds no bytes, and says how the last one ended.
#[derive(Drop)]
pub struct Buffer {
    pub(crate) room: Vec<u8>,
    pub(crate) limits: Limits,
    pub(crate) met_fault: bool,
    ghost fits: { length room.items ≡ limits.head + limits.body },
}

impl Buffer {
    ghost use Rattle.osb_broker.specs.Room.{limits_of, met_fault};

    /// Room for a head and a body of these limits: 270,336 bytes at [`Limits::STANDARD`].
    pub fn new(alloc: Global, limits: &Limits) -> Result<Buffer, AllocError>
        ensures { IfOk result (λ buffer. limits_of buffer ≡ limits.now) }
    {
        let room = vec![in alloc; 0; limits.head + limits.body]?;
        Ok(Buffer {
            room,
            limits: *limits,
            met_fault: false,
        })
    }

    /// Whether the last connection that was served in this buffer ended at a framing fault. Its client
    /// may be sending still.
    pub fn met_fault(&self) -> bool
        ensures { result ≡ met_fault self.now }
    {
        self.met_fault
    }
}
