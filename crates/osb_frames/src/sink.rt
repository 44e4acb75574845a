//! A writer of bytes, one write per call.

ghost use Rattle.std.specs.Prelude.{◌≡◌, ◌==◌, if◌then◌else◌, ◌<◌, ◌≤◌, ◌+◌, ◌++◌, ℕ, List, Option, length, take, Ok, IfOk, MatchResult};
ghost use Rattle.std.specs.Io.KnownBytes.{WriteAppends};

use std::io;

/// A writer of bytes whose calls contracts can count. The counts are only in contracts.
pub trait Sink {
    /// The bytes that it has taken.
    ghost taken: { Self → List ℕ };

    /// How often it was written to.
    ghost writes: { Self → ℕ };

    /// How many of the writes failed.
    ghost failures: { Self → ℕ };

    /// How many of the writes failed or took nothing. None of them was of no bytes.
    ghost failed_or_empty: { Self → ℕ };

    /// All bytes that it holds, where they are known.
    ghost contents: { Self → Option (List ℕ) };

    /// A number of bytes that it surely takes: a write of at most so many takes them all. It is 0
    /// where nothing is known, as of a socket.
    ghost room: { Self → ℕ } = { λ _. 0 };

    /// Writes once, as `std::io::Write::write`: the number of bytes, from the first on, that were
    /// taken. A write of no bytes takes nothing and isn't counted.
    fn write(&mut self, bytes: &[u8]) -> io::Result<usize>
        ensures bound { IfOk result (λ n. n ≤ length bytes.now) }
        ensures bytes { MatchResult result
            (λ n. taken self.new ≡ taken self.old ++ take n bytes.now)
            (λ _. taken self.new ≡ taken self.old) }
        ensures counted { writes self.new ≡ writes self.old + (if length bytes.now == 0 then 0 else 1) }
        ensures failed { MatchResult result
            (λ _. failures self.new ≡ failures self.old)
            (λ _. failures self.new ≡ failures self.old + 1) }
        ensures took { MatchResult result
            (λ n. failed_or_empty self.new ≡ (if length bytes.now == 0 then failed_or_empty self.old else (if n == 0 then failed_or_empty self.old + 1 else failed_or_empty self.old)))
            (λ _. failed_or_empty self.new ≡ failed_or_empty self.old + 1) }
        ensures roomy { 0 < length bytes.now → length bytes.now ≤ room self.old →
            result ≡ Ok (length bytes.now) }
        ensures room_left { IfOk result (λ n. room self.old ≤ room self.new + n) }
        ensures known { WriteAppends (contents self.old) (contents self.new) result bytes.now };
}
