//! Which door, the platform's or the backend's, a path leads to.

ghost use Rattle.std.specs.Prelude.{◌≡◌, option_map};
ghost use Rattle.osb_asks.specs.Doors as spec;
ghost use Rattle.osb_asks.specs.Seen.{seen_path};

use crate::target::{Segments, path_of};

/// Who a request comes from.
#[derive(Clone, Copy, Debug, PartialEq, Eq)]
pub(crate) enum Door {
    Platform,
    Backend,
}

/// A door, and the segments of the path behind it.
#[derive(Clone, Copy, Debug)]
pub(crate) struct DoorAndPath<'a> {
    pub(crate) door: Door,
    pub(crate) segments: Segments<'a>,
}

/// The door that the first segment of a path names.
fn door_at(segment: &[u8]) -> Option<Door>
    ensures { result ≡ spec.door_at segment.now }
{
    if segment == b"v2".as_slice() {
        Some(Door::Platform)
    } else if segment == b"backend".as_slice() {
        Some(Door::Backend)
    } else {
        None
    }
}

/// The door that a target leads to, and what is behind it.
#[tactic(auto, using(crate::proofs::TargetLemmas::no_entry))]
pub(crate) fn entry_of(target: &[u8]) -> Option<DoorAndPath<'_>>
    ensures { option_map seen_path result ≡ spec.entry_of target.now }
{
    let [b'/', rest @ ..] = path_of(target) else {
        return None;
    };
    let mut segments = Segments::of(rest);
    let door = door_at(segments.take_next()?)?;
    Some(DoorAndPath { door, segments })
}
