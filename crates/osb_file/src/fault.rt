//! Why a database file can't be served from.

use osb_records::StoreFault;
use thiserror::Error;

/// Why a database file can't be served from.
#[derive(Clone, Copy, Debug, Drop, PartialEq, Eq, Error)]
pub enum FileFault {
    /// The file can't be opened, made or read, its log is there without it, or memory was refused.
    #[error("the database file is refused")]
    Refused,
    /// It is a database, and not one of this broker.
    #[error("not a database of this broker")]
    NotOurs,
    /// No database is there yet, and one that exists was asked for.
    #[error("no database is there yet")]
    Missing,
}

impl From<StoreFault> for FileFault {
    ghost use Rattle.std.specs.Prelude.{◌≡◌};
    ghost use Rattle.osb_file.specs.Faults.{file_fault_of};

    ghost from_gives = { λ store fault. fault ≡ file_fault_of store };

    fn from(fault: StoreFault) -> FileFault {
        match fault {
            StoreFault::Refused(_) => FileFault::Refused,
            StoreFault::NotOurs => FileFault::NotOurs,
        }
    }
}
