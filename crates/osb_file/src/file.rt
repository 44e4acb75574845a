//! The records in a database file, opened.

ghost use Rattle.std.specs.Prelude.{◌≡◌, true, [], IsTrue, IfOk, IfErr, IfSome, IfNone};
ghost use Rattle.std.specs.FinMap.{empty};
ghost use Rattle.sqlite_trees.specs.Tree.{Trees};
ghost use Rattle.sqlite.specs.Held.{state};
ghost use Rattle.sqlite.specs.State.{HasCleanDisk};
ghost use Rattle.osb_orders.specs.Lives.{Lives};
ghost use Rattle.osb_statements.specs.Steps.{stored};
ghost use Rattle.osb_file.specs.declared.fault.FileFault.TheVariants.{Refused, NotOurs, Missing};
ghost use Rattle.osb_file.specs.declared.origin.Origin.TheVariants.{New, Kept};
ghost use Rattle.osb_file.specs.File.{AreLivesOf, HasNoTables, HasTrees, IsOriginOf, KeepsLivesOf};

use crate::database::Database;
use crate::database_file::DatabaseFile;
use crate::fault::FileFault;
use crate::origin::{Origin, is_missing, origin_of};
use osb_records::Records;
use sqlite::Connection;

/// The connection to a database file, where it was opened.
pub type Opened<S> = Option<Connection<S>>;

/// Opens the database of the file, and says whether it was there before; one without tables gets them,
/// unless an existing one was asked for. A file that can't be opened is refused. A fault comes with the
/// connection, where the file was opened.
///
/// What is said is said of each database that the file may have.
pub fn open_file<D: Database>(
    rt: &HostRuntime,
    file: &DatabaseFile<'_>,
    database: D,
) -> Result<(Records<D::Store>, Origin), (FileFault, Opened<D::Store>)>
    ensures found { IfOk result (λ opened. HasCleanDisk (state D.Store.Store opened.0) →
        IsTrue (state D.Store.Store opened.0).is_open →
        (db : Trees) → HasTrees (D.held database) db →
        AreLivesOf db (stored (state D.Store.Store opened.0))) }
    ensures origin { IfOk result (λ opened. HasCleanDisk (state D.Store.Store opened.0) →
        (db : Trees) → HasTrees (D.held database) db → IsOriginOf db opened.1) }
    ensures empty { IfOk result (λ opened. HasCleanDisk (state D.Store.Store opened.0) →
        (D.held database).db ≡ [] → opened.1 ≡ New) }
    ensures none { IfOk result (λ opened. HasCleanDisk (state D.Store.Store opened.0) →
        IsTrue (state D.Store.Store opened.0).is_open → (D.held database).db ≡ [] →
        stored (state D.Store.Store opened.0) ≡ empty) }
    ensures kept { IfOk result (λ opened. HasCleanDisk (state D.Store.Store opened.0) →
        (db : Trees) → HasTrees (D.held database) db →
        KeepsLivesOf db (state D.Store.Store opened.0)) }
    ensures honest { IfOk result (λ opened. HasCleanDisk (state D.Store.Store opened.0) →
        D.is_honest database) }
    ensures existing { IfOk result (λ opened. file.now.existing ≡ true → opened.1 ≡ Kept) }
    ensures not_ours { IfErr result (λ fault. fault.0 ≡ NotOurs →
        IfSome fault.1 (λ conn. HasCleanDisk (state D.Store.Store conn) →
        (db : Trees) → HasTrees (D.held database) db →
        (lives : Lives) → ¬ AreLivesOf db lives)) }
    ensures missing { IfErr result (λ fault. fault.0 ≡ Missing →
        IfSome fault.1 (λ conn. HasCleanDisk (state D.Store.Store conn) →
        (db : Trees) → HasTrees (D.held database) db → HasNoTables db)) }
    ensures asked { IfErr result (λ fault. fault.0 ≡ Missing → file.now.existing ≡ true) }
    ensures fault_kept { IfErr result (λ fault.
        IfSome fault.1 (λ conn. HasCleanDisk (state D.Store.Store conn) →
        (db : Trees) → HasTrees (D.held database) db →
        KeepsLivesOf db (state D.Store.Store conn))) }
    ensures fault_honest { IfErr result (λ fault.
        IfSome fault.1 (λ conn. HasCleanDisk (state D.Store.Store conn) → D.is_honest database)) }
    ensures opened { IfErr result (λ fault. IfNone fault.1 (fault.0 ≡ Refused)) }
{
    let Some(conn) = database.open(rt, file) else {
        return Err((FileFault::Refused, None));
    };
    let origin = origin_of(&conn);
    if is_missing(file.is_existing(), origin) {
        return Err((FileFault::Missing, Some(conn)));
    }
    match Records::adopt(rt.alloc(), conn) {
        Ok(records) => Ok((records, origin)),
        Err((fault, conn)) => {
            file.leave_others(rt, fault);
            Err((FileFault::from(fault), Some(conn)))
        }
    }
}
