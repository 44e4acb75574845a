//! A writer that keeps what it takes.

ghost use Rattle.std.specs.Prelude.{◌≡◌, ◌≤◌, ◌-◌, Some, length, vec_len, vec_capacity, OnOk, OnErr};
ghost use Rattle.osb_frames.specs.Calls.{failure_count, failed_or_empty_count};

use crate::calls::Calls;
use crate::sink::Sink;
use std::alloc::AllocError;
use std::io;

/// Keeps the bytes that it takes, behind those that were there. Contracts count the writes that
/// were made of it.
#[derive(Drop)]
pub struct InMemory {
    bytes: Vec<u8>,
    calls: Calls,
}

impl InMemory {
    ghost use Rattle.osb_frames.specs.InMemory.{bytes_of, calls_of, room_of};

    /// Writes go behind these bytes.
    pub fn new(bytes: Vec<u8>) -> InMemory
        ensures bytes { bytes_of result ≡ bytes.items }
        ensures room { room_of result ≡ vec_capacity bytes - vec_len bytes }
    {
        InMemory {
            bytes,
            calls: Calls::none(),
        }
    }

    /// Makes room for so many bytes more, or refuses and stays as it was.
    pub fn reserve(&mut self, additional: usize) -> Result<(), AllocError>
        ensures bytes { bytes_of self.new ≡ bytes_of self.old }
        ensures calls { calls_of self.new ≡ calls_of self.old }
        ensures ok { OnOk result (additional ≤ room_of self.new) }
        ensures err { OnErr result (room_of self.new ≡ room_of self.old) }
    {
        self.bytes.reserve(additional)
    }

    /// All bytes that it has.
    pub fn into_bytes(self) -> Vec<u8>
        ensures { result.items ≡ bytes_of self }
    {
        let InMemory { bytes, calls: _ } = self;
        bytes
    }
}

impl Sink for InMemory {
    ghost use Rattle.osb_frames.specs.InMemory.{bytes_of, room_of};

    ghost taken = { λ s. bytes_of s };

    ghost writes = { λ s. length s.calls.list };

    ghost failures = { λ s. failure_count s.calls.list };

    ghost failed_or_empty = { λ s. failed_or_empty_count s.calls.list };

    ghost contents = { λ s. Some (bytes_of s) };

    ghost room = { λ s. room_of s };

    fn write(&mut self, bytes: &[u8]) -> io::Result<usize> {
        if bytes.is_empty() {
            return Ok(0);
        }
        match self.bytes.extend_from_slice(bytes) {
            Ok(()) => {
                self.calls = self.calls.then(&Some(bytes));
                Ok(bytes.len())
            }
            Err(error) => {
                self.calls = self.calls.then(&None);
                Err(io::Error::from(error))
            }
        }
    }
}
