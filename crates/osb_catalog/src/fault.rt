//! The faults of a settings file, with their numbers and names.

ghost use Rattle.std.specs.Prelude.{◌≡◌};

use crate::field::Field;
use std::alloc::{AllocError, AllocFailed};
use thiserror::Error;

/// Why a file gives no settings: of the faults anywhere in it, the one of the lowest number.
///
/// Its text is the number and the name, and the field of `Missing` and `LeftOut`, as `2 Missing id`.
#[derive(Clone, Copy, Debug, Drop, PartialEq, Eq, Error)]
pub enum SettingsFault {
    /// The file is no JSON object whose numbers are all whole and in range.
    #[error("1 Text")]
    Text,
    /// A required field is absent, or a field is of another kind or range than its own.
    #[error("2 Missing {0}")]
    Missing(Field),
    /// Two services, or two plans of the catalog, have one id.
    #[error("3 DoubleId")]
    DoubleId,
    /// A field announces a part of the standard that this broker leaves out.
    #[error("4 LeftOut {0}")]
    LeftOut(Field),
    /// A maintenance version is no semantic version.
    #[error("5 Version")]
    Version,
    /// A mode names no plan, or a plan's bindings are asynchronous and its service doesn't have
    /// them fetched.
    #[error("6 Mode")]
    Mode,
    /// A user or a password is not usable.
    #[error("7 Credential")]
    Credential,
    /// An allocation failed. It may take the place of any other fault.
    #[error("8 Memory")]
    Memory,
}

impl SettingsFault {
    ghost use Rattle.osb_catalog.specs.FaultNames.{fault_number, fault_name, field_in};

    /// The number by which faults are ordered, from 1 to 8.
    pub fn number(self) -> u8
        ensures { result ≡ fault_number self }
    {
        match self {
            SettingsFault::Text => 1,
            SettingsFault::Missing(_) => 2,
            SettingsFault::DoubleId => 3,
            SettingsFault::LeftOut(_) => 4,
            SettingsFault::Version => 5,
            SettingsFault::Mode => 6,
            SettingsFault::Credential => 7,
            SettingsFault::Memory => 8,
        }
    }

    /// The fault's name, without its field.
    pub fn name(self) -> &'static str
        ensures { result.now ≡ fault_name self }
    {
        match self {
            SettingsFault::Text => "Text",
            SettingsFault::Missing(_) => "Missing",
            SettingsFault::DoubleId => "DoubleId",
            SettingsFault::LeftOut(_) => "LeftOut",
            SettingsFault::Version => "Version",
            SettingsFault::Mode => "Mode",
            SettingsFault::Credential => "Credential",
            SettingsFault::Memory => "Memory",
        }
    }

    /// The field that `Missing` or `LeftOut` names.
    pub fn field(self) -> Option<Field>
        ensures { result ≡ field_in self }
    {
        match self {
            SettingsFault::Missing(field) | SettingsFault::LeftOut(field) => Some(field),
            _ => None,
        }
    }
}

impl From<AllocError> for SettingsFault {
    ghost use Rattle.std.specs.Prelude.{◌≡◌};
    ghost use Rattle.osb_catalog.specs.declared.fault.SettingsFault.TheVariants.{Memory};

    ghost from_gives = { λ _ fault. fault ≡ Memory };

    fn from(_refused: AllocError) -> SettingsFault {
        SettingsFault::Memory
    }
}

impl<T: Drop> From<AllocFailed<T>> for SettingsFault {
    ghost use Rattle.std.specs.Prelude.{◌≡◌};
    ghost use Rattle.osb_catalog.specs.declared.fault.SettingsFault.TheVariants.{Memory};

    ghost from_gives = { λ _ fault. fault ≡ Memory };

    fn from(_refused: AllocFailed<T>) -> SettingsFault {
        SettingsFault::Memory
    }
}
