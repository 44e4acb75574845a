//! Where the field lines of a head are.

ghost use Rattle.std.specs.Prelude.{◌≡◌};
ghost use Rattle.osb_frames.specs.Line.{part};

use crate::limits::MOST_FIELDS;
use httparse::spans::{EMPTY_HEADER_SPAN, HeaderSpan};

/// Room for where the field lines of one head at a time are.
pub type LineRoom = [HeaderSpan; MOST_FIELDS];

/// Where no field lines are. The room needn't be cleared from one head to the next.
pub const NO_LINES: LineRoom = [EMPTY_HEADER_SPAN; MOST_FIELDS];

/// The bytes from `start` to `end`, and none where there aren't so many.
pub(crate) fn part(bytes: &[u8], start: usize, end: usize) -> &[u8]
    ensures { result.now ≡ part bytes.now start end }
{
    match bytes.get(start..end) {
        Some(part) => part,
        None => b"",
    }
}
