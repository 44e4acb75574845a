//! Why the store refused a call.

use sqlite::{Error as SqlError, ErrorCode};
use thiserror::Error;

/// Why the store refused a call.
#[derive(Clone, Copy, Debug, Drop, PartialEq, Eq, Error)]
pub enum Cause {
    /// Memory was refused.
    #[error("no memory")]
    Memory,
    /// The disk has no room for what is written, or the file or its log may not grow.
    #[error("database: disk full")]
    DiskFull,
    /// A read, a write or a sync failed, and not for lack of room.
    #[error("database: disk failed")]
    DiskFailed,
    /// An earlier failure of the disk has shut the database.
    #[error("database: shut")]
    Shut,
    /// None of the others. Rows can't be read, or a number is out of range, or SQLite refused the
    /// statement, or a page of the file is damaged.
    #[error("database: refused")]
    Other,
}

impl From<SqlError> for Cause {
    ghost use Rattle.std.specs.Prelude.{◌≡◌};
    ghost use Rattle.osb_statements.specs.Causes.{cause_of};

    ghost from_gives = { λ error cause. cause ≡ cause_of error };

    fn from(error: SqlError) -> Cause {
        match error {
            SqlError::SqliteFailure(ErrorCode::OutOfMemory) => Cause::Memory,
            SqlError::SqliteFailure(ErrorCode::DiskFull) => Cause::DiskFull,
            SqlError::SqliteFailure(ErrorCode::SystemIoFailure) => Cause::DiskFailed,
            SqlError::SqliteFailure(ErrorCode::Closed) => Cause::Shut,
            _ => Cause::Other,
        }
    }
}
