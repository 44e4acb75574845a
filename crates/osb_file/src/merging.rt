//! A log, copied into its database file in memory.

ghost use Rattle.std.specs.Prelude.{◌≡◌, ◌≢◌, true, Err, IsTrue, IfOk, OnOk};
ghost use Rattle.sqlite_disk.specs.Memory.{memory_bytes};
ghost use Rattle.sqlite.specs.Files.{HoldsDatabase, file_state, image_of};
ghost use Rattle.sqlite_trees.specs.Tree.{Trees};
ghost use Rattle.osb_orders.specs.Lives.{Lives};
ghost use Rattle.osb_tables.specs.Tables.{no_schema};
ghost use Rattle.osb_file.specs.declared.unseen.Unseen.TheVariants.{NotOurs, NoTables};
ghost use Rattle.osb_file.specs.File.{AreLivesOf, HasNoTables, HasTrees};
ghost use Rattle.osb_file.specs.Inside.{IsCountedIn};
ghost use Rattle.osb_file.specs.OneFile.{IsMerged, without_log};

use crate::looking::{count_in, disk_of, unopened};
use crate::origin::{Origin, origin_of};
use crate::unseen::Unseen;
use osb_audit::Counts;
use sqlite::{Connection, FileStore, Options};
use sqlite_disk::{Disk, Files, Memory};
use std::alloc::Global;

/// Closes a connection, which copies its log into its database file.
pub(crate) fn close<D: Disk + Drop>(conn: Connection<FileStore<D>>) -> Result<Files<D>, Unseen>
    requires honest { (disk : D) → D.Disk.is_clean disk ≡ true }
    ensures written { IfOk result (λ files.
        ∥ HoldsDatabase (without_log (D.Disk.seen files.db)) (file_state conn).committed.trees ∥₁) }
    ensures open { OnOk result (IsTrue (file_state conn).is_open) }
    ensures other { result ≢ Err NotOurs }
    ensures some { result ≢ Err NoTables }
{
    match conn.close_files() {
        Ok(files) => Ok(files),
        Err((error, store)) => {
            drop(store);
            Err(unopened(error))
        }
    }
}

/// The same of a database that has tables.
fn close_kept<D: Disk + Drop>(conn: Connection<FileStore<D>>) -> Result<Files<D>, Unseen>
    requires honest { (disk : D) → D.Disk.is_clean disk ≡ true }
    ensures written { IfOk result (λ files.
        ∥ HoldsDatabase (without_log (D.Disk.seen files.db)) (file_state conn).committed.trees ∥₁) }
    ensures kept { IfOk result (λ _. (file_state conn).now.schema ≢ no_schema) }
    ensures new { result ≡ Err NoTables → (file_state conn).now.schema ≡ no_schema }
    ensures other { result ≢ Err NotOurs }
{
    match origin_of(&conn) {
        Origin::New => {
            drop(conn);
            Err(Unseen::NoTables)
        }
        Origin::Kept => close(conn),
    }
}

/// Opens two files and copies the log into the database file.
fn merge<D: Disk + Drop>(alloc: Global, files: Files<D>) -> Result<Files<D>, Unseen>
    requires log { IsTrue (D.Disk.is_usable files.log) }
    requires db { IsTrue (D.Disk.is_usable files.db) }
    requires honest { (disk : D) → D.Disk.is_clean disk ≡ true }
    ensures merged { IfOk result (λ merged. (db : Trees)
        × IsMerged (image_of D.Disk files) (D.Disk.seen merged.db) db) }
    ensures new { result ≡ Err NoTables → (db : Trees) →
        HasTrees (image_of D.Disk files) db → HasNoTables db }
    ensures other { result ≢ Err NotOurs }
{
    match Connection::open_files(alloc, files, Options::new(0)) {
        Ok(conn) => close_kept(conn),
        Err((error, _)) => Err(unopened(error)),
    }
}

/// The bytes of a file in memory.
pub(crate) fn bytes_of(alloc: Global, disk: &Memory) -> Result<Vec<u8>, Unseen>
    ensures bytes { IfOk result (λ bytes. bytes.items ≡ memory_bytes disk.now) }
    ensures other { result ≢ Err NotOurs }
    ensures some { result ≢ Err NoTables }
{
    let mut bytes = Vec::new(alloc);
    match bytes.extend_from_slice(disk.bytes()) {
        Ok(()) => Ok(bytes),
        Err(_) => Err(Unseen::Memory),
    }
}

/// The bytes of a database file of which this is the log, once that is copied into it.
pub(crate) fn merged(alloc: Global, log: &[u8], database: &[u8]) -> Result<Vec<u8>, Unseen>
    ensures merged { IfOk result (λ bytes. (db : Trees)
        × IsMerged (record { log = log.now; db = database.now }) bytes.items db) }
    ensures new { result ≡ Err NoTables → (db : Trees) →
        HasTrees (record { log = log.now; db = database.now }) db → HasNoTables db }
    ensures other { result ≢ Err NotOurs }
{
    let (Ok(log), Ok(db)) = (disk_of(alloc, log), disk_of(alloc, database)) else {
        return Err(Unseen::Memory);
    };
    let files = merge(alloc, Files { log, db })?;
    bytes_of(alloc, &files.db)
}

/// Opens two files, takes their database over and counts what it has.
fn count_files<D: Disk + Drop>(alloc: Global, files: Files<D>) -> Result<Counts, Unseen>
    requires log { IsTrue (D.Disk.is_usable files.log) }
    requires db { IsTrue (D.Disk.is_usable files.db) }
    requires honest { (disk : D) → D.Disk.is_clean disk ≡ true }
    ensures counted { IfOk result (IsCountedIn (image_of D.Disk files)) }
    ensures not_ours { result ≡ Err NotOurs → (db : Trees) →
        HoldsDatabase (image_of D.Disk files) db → (lives : Lives) → ¬ AreLivesOf db lives }
    ensures some { result ≢ Err NoTables }
{
    match Connection::open_files(alloc, files, Options::new(0)) {
        Ok(conn) => count_in(alloc, conn),
        Err((error, _)) => Err(unopened(error)),
    }
}

/// The counts of a database that is in one file of these bytes.
pub(crate) fn count_alone(alloc: Global, bytes: &[u8]) -> Result<Counts, Unseen>
    ensures counted { IfOk result (IsCountedIn (without_log bytes.now)) }
    ensures not_ours { result ≡ Err NotOurs → (db : Trees) →
        HoldsDatabase (without_log bytes.now) db → (lives : Lives) → ¬ AreLivesOf db lives }
    ensures some { result ≢ Err NoTables }
{
    let log = Memory::new(alloc);
    match disk_of(alloc, bytes) {
        Ok(db) => count_files(alloc, Files { log, db }),
        Err(_) => Err(Unseen::Memory),
    }
}
