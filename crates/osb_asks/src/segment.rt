//! Ids and numbers in a path.

ghost use Rattle.std.specs.Prelude.{◌≡◌};
ghost use Rattle.osb_asks.specs.Ids as spec;
ghost use Rattle.osb_asks.specs.Reads.{Meets};

use crate::ask_fault::AskFault;
use crate::id::Id;
use crate::version::are_digits;
use osb_text::Text;
use percent_encoding::{DecodeError, percent_decode};
use std::alloc::Global;

/// The text as an id, which it has to be, or the fault.
pub(crate) fn id_or(fault: AskFault, text: Text) -> Result<Id, AskFault>
    ensures { result ≡ spec.id_or fault text }
{
    match Id::new(text) {
        Some(id) => Ok(id),
        None => Err(fault),
    }
}

/// The id that a segment of a path stands for, decoded once.
#[tactic(auto, using(crate::proofs::SegmentLemmas::utf8_test, crate::proofs::SegmentLemmas::no_utf8))]
pub(crate) fn read_id(alloc: Global, segment: &[u8]) -> Result<Id, AskFault>
    ensures { Meets result (spec.id_of segment.now) }
{
    let text = match percent_decode(segment).decode_utf8(alloc) {
        Ok(text) => text,
        Err(DecodeError::Utf8(_)) => return Err(AskFault::Id),
        Err(DecodeError::OutOfMemory) => return Err(AskFault::Memory),
    };
    id_or(AskFault::Id, Text::from(text.into_owned(alloc)?))
}

/// Whether the segment is 1 to 7 digits that don't begin with a 0.
fn is_order_number(segment: &[u8]) -> bool
    ensures { result ≡ spec.is_order_number segment.now }
{
    !segment.is_empty() && segment.len() <= 7 && segment[0] != b'0' && are_digits(segment)
}

/// The number of an order, which isn't decoded.
pub(crate) fn read_number(segment: &[u8]) -> Result<u32, AskFault>
    ensures { result ≡ spec.order_number_of segment.now }
{
    if !is_order_number(segment) {
        return Err(AskFault::Id);
    }
    let Ok(digits) = str::from_utf8(segment) else {
        return Err(AskFault::Id);
    };
    match digits.parse::<u32>() {
        Ok(number) => Ok(number),
        Err(_) => Err(AskFault::Id),
    }
}
