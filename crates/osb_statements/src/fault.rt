//! The faults that calls of the records end with.

use crate::cause::Cause;
use sqlite::Error as SqlError;
use std::alloc::{AllocError, AllocFailed};
use thiserror::Error;

/// Why the records didn't answer, or weren't changed.
#[derive(Clone, Copy, Debug, Drop, PartialEq, Eq, Error)]
pub enum StoreFault {
    /// The store failed, or memory was refused.
    #[error("{0}")]
    Refused(Cause),
    /// The database has other tables than this program makes, or rows that are not those of
    /// well-formed lives. It comes only at an opening.
    #[error("not a database of this broker")]
    NotOurs,
}

impl From<SqlError> for StoreFault {
    ghost use Rattle.std.specs.Prelude.{◌≡◌};
    ghost use Rattle.osb_statements.specs.declared.fault.StoreFault.TheVariants.{Refused};
    ghost use Rattle.osb_statements.specs.Causes.{cause_of};

    ghost from_gives = { λ error fault. fault ≡ Refused (cause_of error) };

    fn from(error: SqlError) -> StoreFault {
        StoreFault::Refused(Cause::from(error))
    }
}

impl From<AllocError> for StoreFault {
    ghost use Rattle.std.specs.Prelude.{◌≡◌};
    ghost use Rattle.osb_statements.specs.declared.cause.Cause.TheVariants.{Memory};
    ghost use Rattle.osb_statements.specs.declared.fault.StoreFault.TheVariants.{Refused};

    ghost from_gives = { λ error fault. fault ≡ Refused Memory };

    fn from(_refused: AllocError) -> StoreFault {
        StoreFault::Refused(Cause::Memory)
    }
}

impl<T: Drop> From<AllocFailed<T>> for StoreFault {
    ghost use Rattle.std.specs.Prelude.{◌≡◌};
    ghost use Rattle.osb_statements.specs.declared.cause.Cause.TheVariants.{Memory};
    ghost use Rattle.osb_statements.specs.declared.fault.StoreFault.TheVariants.{Refused};

    ghost from_gives = { λ error fault. fault ≡ Refused Memory };

    fn from(_refused: AllocFailed<T>) -> StoreFault {
        StoreFault::Refused(Cause::Memory)
    }
}
