//! A change of the records, a stop, and the next run.

ghost use Rattle.std.specs.Prelude.{◌≡◌, ◌⊎◌, IsTrue, IfSome};
ghost use Rattle.sqlite.specs.State.{HasCleanDisk};
ghost use Rattle.sqlite.specs.Files.{file_state};
ghost use Rattle.osb_orders.specs.Lives.{life_of};
ghost use Rattle.osb_orders.specs.Changed.{lives_changed};
ghost use Rattle.osb_orders.specs.IsLife.{IsLives};
ghost use Rattle.osb_statements.specs.Steps.{stored};
ghost use Rattle.osb_records.specs.Commit.{FinishesLast};

use crate::restart::restarted;
use osb_orders::Change;
use osb_records::Records;
use sqlite::{FileStore, Options};
use sqlite_disk::Crash;
use std::alloc::Global;

/// A change, a stop and the next run: whether the change was acknowledged, and the records that the
/// next run takes over. Over a disk that stops at some call, the stop is at any moment of the change.
pub fn committed_and_restarted<D: Crash + Drop>(
    alloc: Global,
    mut records: Records<FileStore<D>>,
    instance: &str,
    change: &Change,
    options: Options,
) -> Option<(bool, Records<FileStore<D>>)>
    requires whole { HasCleanDisk (file_state records) → IsTrue (file_state records).is_open → IsLives (lives_changed change.now instance.now (stored (file_state records))) }
    requires finishes { HasCleanDisk (file_state records) → IsTrue (file_state records).is_open → FinishesLast (life_of (stored (file_state records)) instance.now) change.now }
    ensures either { IfSome result (λ run. HasCleanDisk (file_state run.1) → IsTrue (file_state run.1).is_open → IsTrue (file_state records).is_open
        → ∥ (stored (file_state run.1) ≡ stored (file_state records)) ⊎ (stored (file_state run.1) ≡ lives_changed change.now instance.now (stored (file_state records))) ∥₁) }
    ensures acknowledged { IfSome result (λ run. IsTrue run.0 → HasCleanDisk (file_state run.1) → IsTrue (file_state run.1).is_open → IsTrue (file_state records).is_open
        → stored (file_state run.1) ≡ lives_changed change.now instance.now (stored (file_state records))) }
{
    records.lives_are_whole();
    let acknowledged = records.commit(instance, change).is_ok();
    let again = restarted(alloc, records, options)?;
    Some((acknowledged, again))
}
