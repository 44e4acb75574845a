//! Runs of the program over two files of any disk, with a stop of the machine behind each.

ghost use Rattle.std.specs.Prelude.{◌≡◌, ◌++◌, List, length, IfOk, IfErr, IfSome, IsTrue};
ghost use Rattle.sqlite_wal.specs.Files.{outcomes};
ghost use Rattle.sqlite_wal.specs.Reads.{AreClean};
ghost use Rattle.sqlite.specs.Tree.{Trees};
ghost use Rattle.sqlite.specs.Files.{image_of};
ghost use Rattle.osb_frames.specs.declared.limits.Limits.{Limits};
ghost use Rattle.osb_catalog.specs.Rules.{rules_of};
ghost use Rattle.osb_orders.specs.Lives.{Lives};
ghost use Rattle.osb_file.specs.File.{AreLivesOf, HasTrees};
ghost use Rattle.osb_broker.specs.Exchanges.{Exchange, AreRuns, all_exchanges};
ghost use Rattle.osb_broker.specs.PerConnection.{IsPerConnection};
ghost use Rattle.osb_broker.specs.Served.{AreStandard};
ghost use Rattle.osb_restart.specs.Runs.{HoldsSome, Leads};

use osb_catalog::Settings;
use osb_file::{Database, DatabaseFile};
use osb_frames::Sink;
use osb_listen::{Entrance, ListenOptions, serve_file};
use sqlite::{Connection, FileStore, Files, Options};
use sqlite_disk::Crash;

/// Two files between runs: a database file and its log, of any disk.
#[derive(Drop)]
pub struct AtRest<D: Crash> {
    files: Files<D>,
    options: Options,
    ghost log: { IsTrue (D.Disk.is_usable files.log) },
    ghost db: { IsTrue (D.Disk.is_usable files.db) },
}

impl<D: Crash> AtRest<D> {
    /// These files. They come back where one of them may not be used.
    pub fn new(files: Files<D>, options: Options) -> Result<AtRest<D>, Files<D>>
        ensures ok { IfOk result (λ it. it.files ≡ files) }
        ensures err { IfErr result (λ back. back ≡ files) }
    {
        if !files.may_be_used() {
            return Err(files);
        }
        Ok(AtRest { files, options })
    }

    /// What a stop of the machine leaves of these files: both lose what they may lose.
    fn stopped(files: Files<D>, options: Options) -> AtRest<D>
        ensures left { outcomes D.Disk files.log files.db (image_of D.Disk result.files) }
        ensures clean { AreClean D.Disk result.files.log result.files.db →
            AreClean D.Disk files.log files.db }
    {
        let Files { mut log, mut db } = files;
        log.crash();
        db.crash();
        AtRest {
            files: Files { log, db },
            options,
        }
    }

    /// The files.
    pub fn into_files(self) -> Files<D>
        ensures { result ≡ self.files }
    {
        self.files
    }
}

impl<D: Crash + Drop> Database for AtRest<D> {
    type Store = FileStore<D>;

    ghost held = { λ it. image_of D.Disk it.files };

    ghost is_honest = { λ it. AreClean D.Disk it.files.log it.files.db };

    fn open(self, rt: &HostRuntime, _file: &DatabaseFile<'_>) -> Option<Connection<FileStore<D>>> {
        match Connection::open_files(rt.alloc(), self.files, self.options) {
            Ok(conn) => Some(conn),
            Err(_) => None,
        }
    }
}

/// One run over these files, and a stop of the machine behind it. `None` where they can't be opened.
fn serve_run<D: Crash + Drop, L: Entrance, W: Sink, E: Sink>(
    rt: &HostRuntime,
    settings: &Settings,
    place: &ListenOptions<'_>,
    per_connection: u32,
    files: AtRest<D>,
    entrance: &mut L,
    output: &mut W,
    errors: &mut E,
) -> Option<AtRest<D>>
    requires per_connection { IsPerConnection per_connection }
    ensures clean { IfSome result (λ left. AreClean D.Disk left.files.log left.files.db →
        AreClean D.Disk files.files.log files.files.db) }
    ensures served { IfSome result (λ left. (exchanges : List Exchange)
        × (L.journal entrance.new ≡ L.journal entrance.old ++ exchanges)
        × (AreClean D.Disk left.files.log left.files.db → Leads (rules_of settings.now)
        per_connection (image_of D.Disk files.files) exchanges (image_of D.Disk left.files))) }
{
    let options = files.options;
    let (_, conn) = serve_file(
        rt,
        settings,
        place,
        per_connection,
        files,
        entrance,
        output,
        errors,
    );
    let conn = conn?;
    Some(AtRest::stopped(conn.into_store().close(), options))
}

/// Runs of the program over two files that keep the contract of a disk, each as `serve` runs it, and
/// behind each a stop of the machine. Over a disk that refuses every call from some moment on, the stop
/// is at that moment of the run. `None` where the files can't be opened, since memory is refused or because
/// one fails.
///
/// What was said with clients is in the journal of the entrance, run by run. The files hold lives in the
/// end to which these exchanges lead from those at the beginning: all that is supposed is that no
/// byte came back as another. What is asked again acts once in them ([`osb_broker::exchanges`]).
pub fn serve_runs<D: Crash + Drop, L: Entrance, W: Sink, E: Sink>(
    rt: &HostRuntime,
    settings: &Settings,
    place: &ListenOptions<'_>,
    per_connection: u32,
    files: AtRest<D>,
    runs: u32,
    entrance: &mut L,
    output: &mut W,
    errors: &mut E,
) -> Option<AtRest<D>>
    requires per_connection { IsPerConnection per_connection }
    ensures lived { IfSome result (λ left. (each : List (List Exchange))
        × (length each ≡ runs)
        × (L.journal entrance.new ≡ L.journal entrance.old ++ all_exchanges each)
        × (AreClean D.Disk left.files.log left.files.db →
        (db : Trees) → HasTrees (image_of D.Disk files.files) db →
        (old : Lives) → AreLivesOf db old → (limits : Limits) × AreStandard limits
        × HoldsSome (image_of D.Disk left.files) (λ new.
        AreRuns (rules_of settings.now) limits per_connection old each new))) }
{
    let mut left = files;
    for _ in 0..runs {
        left = serve_run(
            rt,
            settings,
            place,
            per_connection,
            left,
            entrance,
            output,
            errors,
        )?;
    }
    Some(left)
}
