//! Why a file wasn't made.

use thiserror::Error;

/// Why a file wasn't made.
#[derive(Clone, Copy, Debug, Drop, PartialEq, Eq, Error)]
pub enum Unwritten {
    /// Something is at its name.
    #[error("something is there already")]
    Exists,
    /// Something is at its name with `-new` behind.
    #[error("a draft of it is there already")]
    DraftExists,
    /// It can't be made, written or synced, or SQLite has another meaning for its name.
    #[error("the file can't be made")]
    Failed,
    /// Memory was refused.
    #[error("out of memory")]
    Memory,
}
