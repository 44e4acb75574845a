//! The files of a store after a stop.

ghost use Rattle.std.specs.Prelude.{IfSome};
ghost use Rattle.sqlite.specs.Held.{IsNew};
ghost use Rattle.sqlite.specs.State.{HasCleanDisk};
ghost use Rattle.sqlite.specs.Files.{file_state, IsOpened};

use sqlite::{Connection, FileStore, Files, Options};
use sqlite_disk::Crash;
use std::alloc::Global;

/// Both files lose what a crash may lose, and what is left is opened.
pub(crate) fn opened_again<D: Crash + Drop>(
    alloc: Global,
    conn: Connection<FileStore<D>>,
    options: Options,
) -> Option<Connection<FileStore<D>>>
    ensures fresh { IfSome result (λ again. IsNew again) }
    ensures opened { IfSome result (λ again. HasCleanDisk (file_state again) → IsOpened again) }
    ensures clean { IfSome result (λ again. HasCleanDisk (file_state again) → HasCleanDisk (file_state conn)) }
    ensures left { IfSome result (λ again. HasCleanDisk (file_state again) → ∥ (file_state conn).may_leave (file_state again).committed.trees ∥₁) }
{
    let Files { mut log, mut db } = conn.into_store().close();
    log.crash();
    db.crash();
    match Connection::open_files(alloc, Files { log, db }, options) {
        Ok(again) => Some(again),
        Err(_) => None,
    }
}
