//! Opens a database file, listens, and serves from the lives in it.

ghost use Rattle.std.specs.Prelude.{◌≡◌, ◌<◌, ◌++◌, [], ◌∷◌, true, IfOk, IfErr, IfSome, IfNone, OnOk, IsErrAnd};
ghost use Rattle.sqlite_trees.specs.Tree.{Trees};
ghost use Rattle.sqlite.specs.State.{HasCleanDisk};
ghost use Rattle.sqlite.specs.Held.{state};
ghost use Rattle.osb_catalog.specs.Rules as catalog;
ghost use Rattle.osb_file.specs.declared.fault.FileFault.TheVariants.{Refused, Missing};
ghost use Rattle.osb_file.specs.declared.origin.Origin.TheVariants.{Kept};
ghost use Rattle.osb_file.specs.File.{AreLivesOf, HasTrees, IsOriginOf, KeepsLivesOf};
ghost use Rattle.osb_broker.specs.BrokerState.{Works, lives_of, most_of, rules_in, store_of};
ghost use Rattle.osb_broker.specs.PerConnection.{IsPerConnection};
ghost use Rattle.osb_broker.specs.Plans.{OffersInUse};
ghost use Rattle.osb_listen.specs.declared.fault.ListenFault.TheVariants.{CannotWrite, Database};
ghost use Rattle.osb_listen.specs.Exchanges.{MissesFile};
ghost use Rattle.osb_listen.specs.Held.{HasServed, NoBroker, LeavesFile, Serving, IsOfFile, origin_line};
ghost use Rattle.osb_listen.specs.Lines.{Says};
ghost use Rattle.osb_listen.specs.Listen.{listening_line, IsAddress, NamesLackingPlan, WroteLine};
ghost use Rattle.osb_listen.specs.Inside.{IsOfDatabase};

use crate::entrance::Entrance;
use crate::fault::ListenFault;
use crate::listen::{ListenOptions, serve_at};
use osb_broker::Broker;
use osb_catalog::Settings;
use osb_file::{Database, DatabaseFile, Opened, Origin, open_file};
use osb_frames::{Sink, send_all};

/// The database file of that path.
fn file_at<'a>(
    rt: &HostRuntime,
    path: &'a str,
    existing: bool,
) -> Result<DatabaseFile<'a>, ListenFault>
    ensures existing { IfOk result (λ file. file.existing ≡ existing) }
    ensures fault { IfErr result (IsOfFile existing) }
{
    match DatabaseFile::at(rt, path, existing) {
        Ok(file) => Ok(file),
        Err(fault) => Err(ListenFault::Database(fault)),
    }
}

/// The broker over the database of a file, from the lives in it, and whether that was there
/// before. A fault comes with the connection, where the file was opened.
fn broker_over<'s, D: Database>(
    rt: &HostRuntime,
    settings: &'s Settings,
    file: &DatabaseFile<'_>,
    per_connection: u32,
    database: D,
) -> Result<(Broker<'s, D::Store>, Origin), (ListenFault, Opened<D::Store>)>
    requires per_connection { IsPerConnection per_connection }
    ensures most { IfOk result (λ made. most_of made.0 ≡ per_connection) }
    ensures rules { IfOk result (λ made. rules_in made.0 ≡ catalog.rules_of settings.now) }
    ensures offered { IfOk result (λ made. Works (store_of D.Store.Store made.0) →
        OffersInUse (catalog.rules_of settings.now) (lives_of D.Store.Store made.0)) }
    ensures found { IfOk result (λ made. Works (store_of D.Store.Store made.0) →
        (db : Trees) → HasTrees (D.held database) db →
        AreLivesOf db (lives_of D.Store.Store made.0)) }
    ensures origin { IfOk result (λ made. Works (store_of D.Store.Store made.0) →
        (db : Trees) → HasTrees (D.held database) db → IsOriginOf db made.1) }
    ensures kept { IfOk result (λ made. HasCleanDisk (store_of D.Store.Store made.0) →
        (db : Trees) → HasTrees (D.held database) db →
        KeepsLivesOf db (store_of D.Store.Store made.0)) }
    ensures honest { IfOk result (λ made. HasCleanDisk (store_of D.Store.Store made.0) →
        D.is_honest database) }
    ensures existing { IfOk result (λ made. file.now.existing ≡ true → made.1 ≡ Kept) }
    ensures why { IfErr result (λ fault. IfSome fault.1 (λ conn. Works (state D.Store.Store conn) →
        (db : Trees) → HasTrees (D.held database) db →
        NoBroker (catalog.rules_of settings.now) db fault.0)) }
    ensures fault_kept { IfErr result (λ fault. IfSome fault.1 (λ conn.
        HasCleanDisk (state D.Store.Store conn) → (db : Trees) → HasTrees (D.held database) db →
        KeepsLivesOf db (state D.Store.Store conn))) }
    ensures fault_honest { IfErr result (λ fault. IfSome fault.1 (λ conn.
        HasCleanDisk (state D.Store.Store conn) → D.is_honest database)) }
    ensures opened { IfErr result (λ fault. IfNone fault.1 (fault.0 ≡ Database Refused)) }
    ensures asked { IfErr result (λ fault. fault.0 ≡ Database Missing → file.now.existing ≡ true) }
    ensures fault { IfErr result (λ fault. IsOfDatabase (catalog.rules_of settings.now) fault.0) }
{
    let (records, origin) = match open_file(rt, file, database) {
        Ok(opened) => opened,
        Err((fault, conn)) => return Err((ListenFault::Database(fault), conn)),
    };
    match Broker::new(rt.alloc(), settings, records, per_connection) {
        Ok(broker) => Ok((broker, origin)),
        Err((fault, records)) => Err((ListenFault::from(fault), Some(records.into_connection()))),
    }
}

/// The line that reports a database that is begun.
fn line_for(origin: Origin) -> &'static [u8]
    ensures { result.now ≡ origin_line origin }
{
    match origin {
        Origin::New => b"database: new\n",
        Origin::Kept => b"",
    }
}

/// Reports a database that is begun. Standard error that can't be written is passed over.
fn say_origin<E: Sink>(origin: Origin, errors: &mut E)
    ensures { Says (origin_line origin ∷ []) (E.taken errors.old) (E.taken errors.new)
        (E.failed_or_empty errors.old) (E.failed_or_empty errors.new) }
{
    let _ = send_all(errors, line_for(origin));
}

/// Serves the clients of an entrance from a broker over these settings and a database file, up to
/// `per_connection` requests of each, and reports on `output` that they are taken. The connection to the
/// file comes back, where it was opened.
///
/// The database is opened, and its plans are looked for in the catalog, before the address is
/// listened at. One that is begun is reported on `errors`, as `database: new`. Before each client is
/// answered, the database file and its log are looked for; where one was taken away, the fault is
/// `FileTaken`.
///
/// What is said of lives is said of each database that the file may have.
pub fn serve_file<D: Database, L: Entrance, W: Sink, E: Sink>(
    rt: &HostRuntime,
    settings: &Settings,
    place: &ListenOptions<'_>,
    per_connection: u32,
    database: D,
    entrance: &mut L,
    output: &mut W,
    errors: &mut E,
) -> (Result<(), ListenFault>, Opened<D::Store>)
    requires per_connection { IsPerConnection per_connection }
    ensures served { (serving : Serving) × (serving.ended ≡ result.0)
        × HasServed place.now.connections per_connection serving
        (L.journal entrance.old) (L.journal entrance.new) (E.taken errors.old) (E.taken errors.new)
        (E.failed_or_empty errors.old) (E.failed_or_empty errors.new)
        × IfSome result.1 (λ conn. (db : Trees) → HasTrees (D.held database) db →
        LeavesFile (catalog.rules_of settings.now) per_connection place.now.existing db serving
        (state D.Store.Store conn)) }
    ensures honest { IfSome result.1 (λ conn. HasCleanDisk (state D.Store.Store conn) →
        D.is_honest database) }
    ensures missed { MissesFile result.0 (L.missed entrance.old) (L.missed entrance.new) }
    ensures opened { IfNone result.1 (IsErrAnd result.0 (IsOfFile place.now.existing)) }
    ensures untouched { IfNone result.1 (errors.new ≡ errors.old) }
    ensures unasked { IfNone result.1 (entrance.new ≡ entrance.old) }
    ensures asked { IfErr result.0 (λ fault. fault ≡ Database Missing →
        place.now.existing ≡ true) }
    ensures address { OnOk result.0 (IsAddress place.now.address.now) }
    ensures lacks { IfErr result.0 (NamesLackingPlan (catalog.rules_of settings.now)) }
    ensures told { OnOk result.0
        (W.taken output.new ≡ W.taken output.old ++ listening_line place.now.address.now) }
    ensures told_before { IfErr result.0 (λ fault. WroteLine fault
        (listening_line place.now.address.now) (W.taken output.old) (W.taken output.new)) }
    ensures cause { IfErr result.0 (λ fault. fault ≡ CannotWrite →
        W.failed_or_empty output.old < W.failed_or_empty output.new) }
{
    let file = match file_at(rt, place.database, place.existing) {
        Ok(file) => file,
        Err(fault) => return (Err(fault), None),
    };
    let (mut broker, origin) = match broker_over(rt, settings, &file, per_connection, database) {
        Ok(made) => made,
        Err((fault, conn)) => return (Err(fault), conn),
    };
    say_origin(origin, errors);
    let result = serve_at(rt, &mut broker, &file, place, entrance, output, errors);
    (result, Some(broker.into_records().into_connection()))
}
