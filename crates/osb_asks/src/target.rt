//! The path of a request's target, its segments, and its query.

ghost use Rattle.std.specs.Prelude.{◌≡◌, ◌∷◌, ◌≤◌, ◌==◌, [], MatchOption, length};
ghost use Rattle.std.specs.List.{position_or_len};
ghost use Rattle.osb_asks.specs.Targets.{path_of, query_of, segments};
ghost use Rattle.osb_asks.specs.SegmentsLeft.{left};

/// The segments of a path that are left, each between two `/`.
#[derive(Clone, Copy, Debug)]
pub(crate) struct Segments<'a> {
    rest: Option<&'a [u8]>,
}

impl<'a> Segments<'a> {
    /// The segments of the bytes, at least one.
    pub(crate) fn of(bytes: &'a [u8]) -> Segments<'a>
        ensures { left result ≡ segments bytes.now }
    {
        Segments { rest: Some(bytes) }
    }

    /// The first of them, which is then left no more.
    #[tactic(auto, using(crate::proofs::TargetLemmas::split_here, crate::proofs::TargetLemmas::split_whole))]
    pub(crate) fn take_next(&mut self) -> Option<&'a [u8]>
        ensures { MatchOption result
            ((left self.old ≡ []) × (left self.new ≡ []))
            (λ segment. left self.old ≡ segment.now ∷ left self.new) }
    {
        let bytes = self.rest?;
        let end = position_of(bytes, b'/');
        if end < bytes.len() {
            self.rest = Some(&bytes[end + 1..]);
            Some(&bytes[..end])
        } else {
            self.rest = None;
            Some(bytes)
        }
    }
}

/// Where the byte first is, or the length where it isn't there.
fn position_of(bytes: &[u8], byte: u8) -> usize
    ensures value { result ≡ position_or_len (λ b. b == byte) bytes.now }
    ensures bound { result ≤ length bytes.now }
{
    let first = bytes.iter().position(|b| *b == byte);
    first.unwrap_or(bytes.len())
}

/// The bytes before the first `?`.
pub(crate) fn path_of(target: &[u8]) -> &[u8]
    ensures { result.now ≡ path_of target.now }
{
    &target[..position_of(target, b'?')]
}

/// The bytes after the first `?`.
#[tactic(auto, using(crate::proofs::TargetLemmas::no_query))]
pub(crate) fn query_of(target: &[u8]) -> &[u8]
    ensures { result.now ≡ query_of target.now }
{
    let end = position_of(target, b'?');
    if end < target.len() {
        &target[end + 1..]
    } else {
        b""
    }
}
