//! A reader of bytes, one read per call.

ghost use Rattle.std.specs.Prelude.{◌≡◌, ◌≤◌, ◌+◌, ◌++◌, ℕ, List, [], ◌∷◌, Option, Some, None, length, take, IfOk, MatchResult};
ghost use Rattle.std.specs.Io.KnownBytes.{ReadConsumes};
ghost use Rattle.osb_frames.specs.Calls.{Call};

use std::io;

/// A reader of bytes whose calls contracts can count. The counts are only in contracts.
pub trait Source {
    /// The reads that were made of it, the oldest first: the bytes that each gave, or `None` where
    /// it failed.
    ghost calls: { Self → List Call };

    /// The bytes that it has given.
    ghost given: { Self → List ℕ };

    /// How often it was read.
    ghost reads: { Self → ℕ };

    /// How many of the reads failed.
    ghost failures: { Self → ℕ };

    /// The bytes that it will give, where they are known.
    ghost rest: { Self → Option (List ℕ) };

    /// Reads once, as `std::io::Read::read`: the number of bytes that were put at the front of the
    /// buffer. In a buffer with room 0 is the end. What follows them in the buffer isn't said.
    fn read(&mut self, buf: &mut [u8]) -> io::Result<usize>
        ensures bound { IfOk result (λ n. n ≤ length buf.new) }
        ensures bytes { MatchResult result
            (λ n. given self.new ≡ given self.old ++ take n buf.new)
            (λ _. given self.new ≡ given self.old) }
        ensures called { MatchResult result
            (λ n. calls self.new ≡ calls self.old ++ Some (take n buf.new) ∷ [])
            (λ _. calls self.new ≡ calls self.old ++ None ∷ []) }
        ensures counted { reads self.new ≡ reads self.old + 1 }
        ensures failed { MatchResult result
            (λ _. failures self.new ≡ failures self.old)
            (λ _. failures self.new ≡ failures self.old + 1) }
        ensures known { ReadConsumes (rest self.old) (rest self.new) result buf.new };
}
