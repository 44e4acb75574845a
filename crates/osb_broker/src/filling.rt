//! Reads into the room of a connection, and moves what is left to its front.

ghost use Rattle.std.specs.Prelude.{◌≡◌, ◌<◌, ◌≤◌, ◌+◌, ◌-◌, [], ◌∷◌, ◌++◌, Some, None, length, take, drop, IfOk, MatchResult};
ghost use Rattle.std.specs.Io.KnownBytes.{Consumes, IsAtEnd, Keeps};

use osb_frames::Source;
use std::io;

/// Reads once, behind the bytes that are there.
pub(crate) fn fill<R: Source>(source: &mut R, room: &mut [u8], filled: usize) -> io::Result<usize>
    requires { filled < length room.old }
    ensures kept { take filled room.new ≡ take filled room.old }
    ensures bound { IfOk result (λ n. filled + n ≤ length room.old) }
    ensures called { MatchResult result
        (λ n. R.calls source.new ≡ R.calls source.old ++ Some (take n (drop filled room.new)) ∷ [])
        (λ _. R.calls source.new ≡ R.calls source.old ++ None ∷ []) }
    ensures known { MatchResult result
        (λ n. Consumes (R.rest source.old) (R.rest source.new) (take n (drop filled room.new))
        × (n ≡ 0 → IsAtEnd (R.rest source.new)))
        (λ _. Keeps (R.rest source.old) (R.rest source.new)) }
    ensures failed { MatchResult result
        (λ _. R.failures source.new ≡ R.failures source.old)
        (λ _. R.failures source.new ≡ R.failures source.old + 1) }
{
    source.read(&mut room[filled..])
}

/// Moves what is behind the first `used` bytes to the front.
pub(crate) fn shift(room: &mut [u8], used: usize, filled: usize)
    requires used { used ≤ filled }
    requires filled { filled ≤ length room.old }
    ensures { take (filled - used) room.new ≡ drop used (take filled room.old) }
{
    room.copy_within(used..filled, 0);
}
