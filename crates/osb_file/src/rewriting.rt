//! A database of trimmed lives, made in memory.

ghost use Rattle.std.specs.Prelude.{◌≡◌, ◌≢◌, true, [], Err, IsTrue, IfOk, OnOk};
ghost use Rattle.std.specs.FinMap.{empty};
ghost use Rattle.sqlite.specs.Held.{Held, state};
ghost use Rattle.sqlite.specs.State.{HasCleanDisk};
ghost use Rattle.sqlite.specs.Files.{file_state, image_of};
ghost use Rattle.sqlite_disk.specs.Memory.{memory_bytes, memory_is_usable};
ghost use Rattle.sqlite_trees.specs.Tree.{Trees};
ghost use Rattle.osb_orders.specs.Lives.{Lives};
ghost use Rattle.osb_tables.specs.Tables.{no_schema};
ghost use Rattle.osb_records.specs.Opened.{AreLivesOfDatabase};
ghost use Rattle.osb_statements.specs.Steps.{stored};
ghost use Rattle.osb_trim.specs.Trimmed.{trimmed_lives};
ghost use Rattle.osb_file.specs.declared.unseen.Unseen.TheVariants.{NotOurs, NoTables};
ghost use Rattle.osb_file.specs.File.{AreLivesOf, HasNoTables, HasTrees, HoldsNoTables};
ghost use Rattle.osb_file.specs.Inside.{IsOfFiles};
ghost use Rattle.osb_file.specs.Trimmed.{HoldsLivesOf, IsTrimmedInOne};

use crate::first_page::first_page;
use crate::looking::{disk_of, unadopted, unopened};
use crate::merging::{bytes_of, close};
use crate::origin::{Origin, origin_of};
use crate::trimming::copy_lives;
use crate::unseen::Unseen;
use osb_records::{Records, StoreFault};
use sqlite::{Alter, Connection, FileStore, Options};
use sqlite_disk::{Disk, Files, Memory};
use std::alloc::Global;

/// Takes a database over.
fn adopt<S: Alter + Drop>(alloc: Global, conn: Connection<S>) -> Result<Records<S>, Unseen>
    requires clean { (held : Held S) → HasCleanDisk (state S.Store held) }
    ensures ok { IfOk result (λ records. IsTrue (state S.Store records).is_open →
        AreLivesOfDatabase (state S.Store conn).now (stored (state S.Store records))) }
    ensures not_ours { result ≡ Err NotOurs → (lives : Lives) →
        ¬ AreLivesOfDatabase (state S.Store conn).now lives }
    ensures some { result ≢ Err NoTables }
{
    match Records::adopt(alloc, conn) {
        Ok(records) => Ok(records),
        Err((fault, left)) => {
            drop(left);
            Err(unadopted(fault))
        }
    }
}

/// Takes a database over that has tables.
fn adopt_kept<S: Alter + Drop>(alloc: Global, conn: Connection<S>) -> Result<Records<S>, Unseen>
    requires clean { (held : Held S) → HasCleanDisk (state S.Store held) }
    ensures ok { IfOk result (λ records. IsTrue (state S.Store records).is_open →
        AreLivesOfDatabase (state S.Store conn).now (stored (state S.Store records))) }
    ensures kept { OnOk result ((state S.Store conn).now.schema ≢ no_schema) }
    ensures new { result ≡ Err NoTables → (state S.Store conn).now.schema ≡ no_schema }
    ensures not_ours { result ≡ Err NotOurs → (lives : Lives) →
        ¬ AreLivesOfDatabase (state S.Store conn).now lives }
{
    match origin_of(&conn) {
        Origin::New => {
            drop(conn);
            Err(Unseen::NoTables)
        }
        Origin::Kept => adopt(alloc, conn),
    }
}

/// Opens two files that have a database with tables.
fn open_kept<D: Disk + Drop>(
    alloc: Global,
    files: Files<D>,
) -> Result<Records<FileStore<D>>, Unseen>
    requires log { IsTrue (D.Disk.is_usable files.log) }
    requires db { IsTrue (D.Disk.is_usable files.db) }
    requires honest { (disk : D) → D.Disk.is_clean disk ≡ true }
    ensures ok { IfOk result (λ records. IsOfFiles (image_of D.Disk files) (file_state records)) }
    ensures new { result ≡ Err NoTables → (db : Trees) →
        HasTrees (image_of D.Disk files) db → HasNoTables db }
    ensures not_ours { result ≡ Err NotOurs → (db : Trees) →
        HasTrees (image_of D.Disk files) db → (lives : Lives) → ¬ AreLivesOf db lives }
{
    match Connection::open_files(alloc, files, Options::new(0)) {
        Ok(conn) => adopt_kept(alloc, conn),
        Err((error, _)) => Err(unopened(error)),
    }
}

/// Opens two files that have a database without tables.
fn open_blank<D: Disk + Drop>(
    alloc: Global,
    files: Files<D>,
) -> Result<Records<FileStore<D>>, Unseen>
    requires log { IsTrue (D.Disk.is_usable files.log) }
    requires db { IsTrue (D.Disk.is_usable files.db) }
    requires honest { (disk : D) → D.Disk.is_clean disk ≡ true }
    requires blank { (D.Disk.seen files.log ≡ []) × HoldsNoTables (D.Disk.seen files.db) }
    ensures empty { IfOk result (λ records. IsTrue (file_state records).is_open →
        stored (file_state records) ≡ empty) }
    ensures some { result ≢ Err NoTables }
    ensures ours { result ≢ Err NotOurs }
{
    match Connection::open_files(alloc, files, Options::new(0)) {
        Ok(conn) => adopt(alloc, conn),
        Err((error, _)) => Err(unopened(error)),
    }
}

/// Closes the files of records, so that the database file has all of them.
fn close_records<D: Disk + Drop>(records: Records<FileStore<D>>) -> Result<Files<D>, Unseen>
    requires honest { (disk : D) → D.Disk.is_clean disk ≡ true }
    ensures open { OnOk result (IsTrue (file_state records).is_open) }
    ensures holds { IfOk result (λ files.
        HoldsLivesOf (D.Disk.seen files.db) (stored (file_state records))) }
    ensures other { result ≢ Err NotOurs }
    ensures some { result ≢ Err NoTables }
{
    let conn = records.into_connection();
    let _ = conn.schema();
    close(conn)
}

/// Copies the lives of the first records, each trimmed, into the second, which have none. It gives these,
/// and how many orders that changed.
fn copied<S: Alter + Drop, T: Alter + Drop>(
    alloc: Global,
    mut source: Records<S>,
    mut target: Records<T>,
) -> Result<(Records<T>, usize), Unseen>
    requires clean { (held : Held S) → HasCleanDisk (state S.Store held) }
    requires clean_target { (held : Held T) → HasCleanDisk (state T.Store held) }
    requires empty { IsTrue (state T.Store target).is_open → stored (state T.Store target) ≡ empty }
    ensures ok { IfOk result (λ made. IsTrue (state T.Store made.0).is_open →
        stored (state T.Store made.0) ≡ trimmed_lives (stored (state S.Store source))) }
    ensures open { OnOk result (IsTrue (state S.Store source).is_open) }
    ensures other { result ≢ Err NotOurs }
    ensures some { result ≢ Err NoTables }
{
    let copied = copy_lives(alloc, &mut source, &mut target);
    drop(source);
    match copied {
        Ok(count) => Ok((target, count)),
        Err(_) => {
            drop(target);
            Err(Unseen::Memory)
        }
    }
}

/// Files that have a database with the lives of the records, each trimmed, and how many orders that changed.
/// Before they have one without tables.
fn copy_into<S: Alter + Drop, D: Disk + Drop>(
    alloc: Global,
    source: Records<S>,
    target: Files<D>,
) -> Result<(Files<D>, usize), Unseen>
    requires clean { (held : Held S) → HasCleanDisk (state S.Store held) }
    requires log { IsTrue (D.Disk.is_usable target.log) }
    requires db { IsTrue (D.Disk.is_usable target.db) }
    requires honest { (disk : D) → D.Disk.is_clean disk ≡ true }
    requires blank { (D.Disk.seen target.log ≡ []) × HoldsNoTables (D.Disk.seen target.db) }
    ensures ok { IfOk result (λ made. HoldsLivesOf (D.Disk.seen made.0.db)
        (trimmed_lives (stored (state S.Store source)))) }
    ensures open { OnOk result (IsTrue (state S.Store source).is_open) }
    ensures other { result ≢ Err NotOurs }
    ensures some { result ≢ Err NoTables }
{
    let target = match open_blank(alloc, target) {
        Ok(target) => target,
        Err(unseen) => {
            drop(source);
            return Err(unseen);
        }
    };
    let (records, count) = copied(alloc, source, target)?;
    Ok((close_records(records)?, count))
}

/// Files that have a database with the lives of another one, each trimmed, and how many orders that changed.
/// Before they have one without tables.
fn rewrite<D: Disk + Drop>(
    alloc: Global,
    source: Files<D>,
    target: Files<D>,
) -> Result<(Files<D>, usize), Unseen>
    requires log { IsTrue (D.Disk.is_usable source.log) }
    requires db { IsTrue (D.Disk.is_usable source.db) }
    requires target_log { IsTrue (D.Disk.is_usable target.log) }
    requires target_db { IsTrue (D.Disk.is_usable target.db) }
    requires honest { (disk : D) → D.Disk.is_clean disk ≡ true }
    requires blank { (D.Disk.seen target.log ≡ []) × HoldsNoTables (D.Disk.seen target.db) }
    ensures ok { IfOk result (λ made.
        IsTrimmedInOne (image_of D.Disk source) (D.Disk.seen made.0.db)) }
    ensures new { result ≡ Err NoTables → (db : Trees) →
        HasTrees (image_of D.Disk source) db → HasNoTables db }
    ensures not_ours { result ≡ Err NotOurs → (db : Trees) →
        HasTrees (image_of D.Disk source) db → (lives : Lives) → ¬ AreLivesOf db lives }
{
    match open_kept(alloc, source) {
        Ok(records) => copy_into(alloc, records, target),
        Err(unseen) => {
            drop(target);
            Err(unseen)
        }
    }
}

/// Files in memory that have a database without tables.
fn blank_files(alloc: Global) -> Result<Files<Memory>, Unseen>
    ensures blank { IfOk result (λ files. (memory_bytes files.log ≡ [])
        × HoldsNoTables (memory_bytes files.db)) }
    ensures log { IfOk result (λ files. IsTrue (memory_is_usable files.log)) }
    ensures db { IfOk result (λ files. IsTrue (memory_is_usable files.db)) }
    ensures other { result ≢ Err NotOurs }
    ensures some { result ≢ Err NoTables }
{
    match disk_of(alloc, &first_page()) {
        Ok(db) => Ok(Files {
            log: Memory::new(alloc),
            db,
        }),
        Err(_) => Err(Unseen::Memory),
    }
}

/// The bytes of a database file that needs no log, with the lives of these two files, each trimmed; and how
/// many orders that changed.
pub(crate) fn rewritten(
    alloc: Global,
    log: &[u8],
    database: &[u8],
) -> Result<(Vec<u8>, usize), Unseen>
    ensures trimmed { IfOk result (λ made.
        IsTrimmedInOne (record { log = log.now; db = database.now }) made.0.items) }
    ensures new { result ≡ Err NoTables → (db : Trees) →
        HasTrees (record { log = log.now; db = database.now }) db → HasNoTables db }
    ensures not_ours { result ≡ Err NotOurs → (db : Trees) →
        HasTrees (record { log = log.now; db = database.now }) db →
        (lives : Lives) → ¬ AreLivesOf db lives }
{
    let (Ok(log), Ok(db)) = (disk_of(alloc, log), disk_of(alloc, database)) else {
        return Err(Unseen::Memory);
    };
    let target = blank_files(alloc)?;
    match rewrite(alloc, Files { log, db }, target) {
        Ok((files, count)) => Ok((bytes_of(alloc, &files.db)?, count)),
        Err(unseen) => Err(unseen),
    }
}
