//! The faults of reading a text and of looking up its members.

use std::alloc::AllocError;
use thiserror::Error;

/// Why a text gave no object, or a look-up no member. Of a text the first fault that it has is
/// given, in the order of the variants.
#[derive(Clone, Copy, Debug, Drop, PartialEq, Eq, Error)]
pub enum TextFault {
    /// The bytes aren't UTF-8 or no JSON text, or they nest deeper than 127 arrays and objects.
    #[error("not a JSON text")]
    NotJson,
    /// The text is JSON, and its value no object.
    #[error("not a JSON object")]
    NotObject,
    /// Some number in the object isn't whole, or not within -2^63 to 2^64 - 1. `-0` isn't whole.
    #[error("a number is not whole, or out of range")]
    Number,
    /// An allocation was refused. It may take the place of any other fault of a text.
    #[error("out of memory")]
    Memory,
    /// The member is there, and of another kind than was asked for.
    #[error("a member is of another kind")]
    WrongKind,
}

impl From<AllocError> for TextFault {
    ghost use Rattle.std.specs.Prelude.{◌≡◌};
    ghost use Rattle.osb_text.specs.declared.fault.TextFault.TheVariants.{Memory};

    ghost from_gives = { λ _ fault. fault ≡ Memory };

    fn from(_refused: AllocError) -> TextFault {
        TextFault::Memory
    }
}
