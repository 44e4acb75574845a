//! The records after a stop.

ghost use Rattle.std.specs.Prelude.{◌≡◌, IsTrue, IfSome};
ghost use Rattle.sqlite.specs.State.{HasCleanDisk};
ghost use Rattle.sqlite.specs.Files.{file_state};
ghost use Rattle.osb_statements.specs.Steps.{stored};
ghost use Rattle.osb_restart.specs.Restart.{LeavesFound, MayLeaveLives};

use crate::reopening::opened_again;
use osb_records::Records;
use sqlite::{FileStore, Options};
use sqlite_disk::Crash;
use std::alloc::Global;

/// The machine stops at this moment, and the next run opens what is left and takes it over. `None`
/// where it can't, since memory is refused or a file fails.
pub fn restarted<D: Crash + Drop>(
    alloc: Global,
    records: Records<FileStore<D>>,
    options: Options,
) -> Option<Records<FileStore<D>>>
    ensures clean { IfSome result (λ again. HasCleanDisk (file_state again) → HasCleanDisk (file_state records)) }
    ensures found { IfSome result (λ again. HasCleanDisk (file_state again) → IsTrue (file_state again).is_open → MayLeaveLives (file_state records) (stored (file_state again))) }
    ensures left { IfSome result (λ again. HasCleanDisk (file_state again) →
        LeavesFound (file_state records) (file_state again)) }
    ensures kept { IfSome result (λ again. HasCleanDisk (file_state again) → IsTrue (file_state again).is_open → IsTrue (file_state records).is_open → stored (file_state again) ≡ stored (file_state records)) }
{
    records.lives_are_whole();
    let conn = opened_again(alloc, records.into_connection(), options)?;
    match Records::adopt(alloc, conn) {
        Ok(again) => Some(again),
        Err(_) => None,
    }
}
