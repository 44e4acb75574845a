//! What a database file has, without a change of it.

ghost use Rattle.std.specs.Prelude.{◌≡◌, ◌≢◌, true, [], Err, IsTrue, IfOk};
ghost use Rattle.sqlite.specs.Held.{Held, state};
ghost use Rattle.sqlite.specs.State.{HasCleanDisk};
ghost use Rattle.sqlite.specs.Files.{image_of};
ghost use Rattle.sqlite_disk.specs.Memory.{memory_bytes, memory_is_usable};
ghost use Rattle.sqlite_trees.specs.Tree.{Trees};
ghost use Rattle.osb_orders.specs.Lives.{Lives};
ghost use Rattle.osb_audit.specs.Counts.{AreCounts};
ghost use Rattle.osb_audit.specs.Plans.{plans_in_use};
ghost use Rattle.osb_statements.specs.declared.fault.StoreFault.TheVariants as faults;
ghost use Rattle.osb_records.specs.Looks.{Looks};
ghost use Rattle.osb_records.specs.Opened.{AreLivesOfDatabase};
ghost use Rattle.osb_statements.specs.Steps.{stored};
ghost use Rattle.osb_file.specs.declared.unseen.Unseen.TheVariants.{NotOurs, NoTables};
ghost use Rattle.osb_file.specs.File.{AreLivesOf, HasTrees};
ghost use Rattle.osb_tables.specs.Tables.{no_schema};
ghost use Rattle.osb_file.specs.declared.seen.Seen.TheVariants.{New};
ghost use Rattle.osb_file.specs.Looked.{IsSeenAs};
ghost use Rattle.osb_file.specs.Inside.{IsSeenIn, IsSeenOf};

use crate::origin::{Origin, origin_of};
use crate::seen::Seen;
use crate::unseen::Unseen;
use osb_audit::Counts;
use osb_records::{Cause, Records, StoreFault};
use osb_text::Text;
use sqlite::{Alter, Connection, Error, ErrorCode, FileStore, Options};
use sqlite_disk::{Disk, Files, Memory};
use std::alloc::Global;
use std::io;

/// What an opening has met. The files are in memory, so a read or a write of them fails only for lack of memory.
pub(crate) fn unopened(error: Error) -> Unseen
    ensures other { result ≢ NotOurs }
    ensures some { result ≢ NoTables }
{
    match error {
        Error::SqliteFailure(
            ErrorCode::OutOfMemory | ErrorCode::SystemIoFailure | ErrorCode::DiskFull,
        ) => Unseen::Memory,
        Error::SqliteFailure(ErrorCode::NotADatabase) => Unseen::NoDatabase,
        _ => Unseen::Damaged,
    }
}

/// Why the rows of a database in memory weren't read.
fn unread_rows(cause: Cause) -> Unseen
    ensures other { result ≢ NotOurs }
    ensures some { result ≢ NoTables }
{
    match cause {
        Cause::Memory | Cause::DiskFull | Cause::DiskFailed | Cause::Shut => Unseen::Memory,
        Cause::Other => Unseen::Row,
    }
}

/// What taking a database over has met.
pub(crate) fn unadopted(fault: StoreFault) -> Unseen
    ensures ours { result ≡ NotOurs → fault ≡ faults.NotOurs }
    ensures some { result ≢ NoTables }
{
    match fault {
        StoreFault::NotOurs => Unseen::NotOurs,
        StoreFault::Refused(cause) => unread_rows(cause),
    }
}

/// The pairs of service and plan that records have in use.
fn plans_of<S: Alter>(alloc: Global, records: &mut Records<S>) -> Result<Vec<(Text, Text)>, Unseen>
    ensures ok { HasCleanDisk (state S.Store records.new) → IfOk result (λ plans.
        plans.items ≡ plans_in_use (stored (state S.Store records.old))) }
    ensures looks { Looks (state S.Store records.old) (state S.Store records.new) result }
    ensures not_ours { result ≢ Err NotOurs }
{
    match records.plans_in_use(alloc) {
        Ok(plans) => Ok(plans),
        Err(StoreFault::Refused(cause)) => Err(unread_rows(cause)),
        Err(StoreFault::NotOurs) => Err(Unseen::Row),
    }
}

/// The counts of records that were taken over.
fn counts_of<S: Alter + Drop>(alloc: Global, mut records: Records<S>) -> Result<Counts, Unseen>
    requires clean { (held : Held S) → HasCleanDisk (state S.Store held) }
    ensures ok { IfOk result (λ counts. IsTrue (state S.Store records).is_open ×
        AreCounts (stored (state S.Store records)) counts) }
    ensures not_ours { result ≢ Err NotOurs }
    ensures some { result ≢ Err NoTables }
{
    match records.counts(alloc) {
        Ok(counts) => Ok(counts),
        Err(StoreFault::Refused(cause)) => Err(unread_rows(cause)),
        Err(StoreFault::NotOurs) => Err(Unseen::Row),
    }
}

/// Takes a database over and counts what it has.
pub(crate) fn count_in<S: Alter + Drop>(
    alloc: Global,
    conn: Connection<S>,
) -> Result<Counts, Unseen>
    requires clean { (held : Held S) → HasCleanDisk (state S.Store held) }
    ensures counted { IfOk result (λ counts. (lives : Lives) ×
        AreLivesOfDatabase (state S.Store conn).now lives × AreCounts lives counts) }
    ensures not_ours { result ≡ Err NotOurs → (lives : Lives) →
        ¬ AreLivesOfDatabase (state S.Store conn).now lives }
    ensures some { result ≢ Err NoTables }
{
    match Records::adopt(alloc, conn) {
        Ok(records) => counts_of(alloc, records),
        Err((fault, left)) => {
            drop(left);
            Err(unadopted(fault))
        }
    }
}

/// What records that were taken over have.
fn seen_of<S: Alter + Drop>(alloc: Global, mut records: Records<S>) -> Result<Seen, Unseen>
    requires clean { (held : Held S) → HasCleanDisk (state S.Store held) }
    ensures ok { IfOk result (λ seen. IsTrue (state S.Store records).is_open ×
        IsSeenOf (stored (state S.Store records)) seen) }
    ensures not_ours { result ≢ Err NotOurs }
{
    let plans = plans_of(alloc, &mut records)?;
    let counts = counts_of(alloc, records)?;
    Ok(Seen::Counted(counts, plans))
}

/// Takes a database with tables over, and looks at all of it.
fn look_at_kept<S: Alter + Drop>(alloc: Global, conn: Connection<S>) -> Result<Seen, Unseen>
    requires clean { (held : Held S) → HasCleanDisk (state S.Store held) }
    requires kept { (state S.Store conn).now.schema ≢ no_schema }
    ensures seen { IfOk result (IsSeenIn (state S.Store conn).now) }
    ensures not_ours { result ≡ Err NotOurs → (lives : Lives) →
        ¬ AreLivesOfDatabase (state S.Store conn).now lives }
{
    match Records::adopt(alloc, conn) {
        Ok(records) => seen_of(alloc, records),
        Err((fault, left)) => {
            drop(left);
            Err(unadopted(fault))
        }
    }
}

/// What a database has. One without tables isn't taken over.
fn look_in<S: Alter + Drop>(alloc: Global, conn: Connection<S>) -> Result<Seen, Unseen>
    requires clean { (held : Held S) → HasCleanDisk (state S.Store held) }
    ensures seen { IfOk result (IsSeenIn (state S.Store conn).now) }
    ensures new { (state S.Store conn).now.schema ≡ no_schema → IfOk result (λ seen. seen ≡ New) }
    ensures not_ours { result ≡ Err NotOurs → (lives : Lives) →
        ¬ AreLivesOfDatabase (state S.Store conn).now lives }
{
    match origin_of(&conn) {
        Origin::New => {
            drop(conn);
            Ok(Seen::New)
        }
        Origin::Kept => look_at_kept(alloc, conn),
    }
}

/// Opens two files, of which none gives other bytes than were written, and looks at their database.
pub(crate) fn look_into<D: Disk + Drop>(alloc: Global, files: Files<D>) -> Result<Seen, Unseen>
    requires log { IsTrue (D.Disk.is_usable files.log) }
    requires db { IsTrue (D.Disk.is_usable files.db) }
    requires honest { (disk : D) → D.Disk.is_clean disk ≡ true }
    ensures seen { IfOk result (λ seen. (db : Trees) →
        HasTrees (image_of D.Disk files) db → IsSeenAs db seen) }
    ensures new { (image_of D.Disk files).db ≡ [] → IfOk result (λ seen. seen ≡ New) }
    ensures not_ours { result ≡ Err NotOurs → (db : Trees) →
        HasTrees (image_of D.Disk files) db → (lives : Lives) → ¬ AreLivesOf db lives }
{
    match Connection::open_files(alloc, files, Options::new(0)) {
        Ok(conn) => look_in(alloc, conn),
        Err((error, _)) => Err(unopened(error)),
    }
}

/// A file in memory that has these bytes.
#[tactic(auto, using(crate::proofs::LookLemmas::written))]
pub(crate) fn disk_of(alloc: Global, bytes: &[u8]) -> io::Result<Memory>
    ensures bytes { IfOk result (λ disk. memory_bytes disk ≡ bytes.now) }
    ensures usable { IfOk result (λ disk. IsTrue (memory_is_usable disk)) }
{
    let mut disk = Memory::new(alloc);
    disk.write_at(0, bytes)?;
    Ok(disk)
}
