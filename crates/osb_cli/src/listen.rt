//! `serve`: clients, one after the other or many at the same time.

ghost use Rattle.std.specs.Prelude.{◌≡◌, ◌++◌, IfNone, IfSome, IsOk, IsSome, OnOk, IfErr};
ghost use Rattle.sqlite.specs.Tree.{Trees};
ghost use Rattle.sqlite.specs.Held.{state};
ghost use Rattle.osb_file.specs.File.{HasTrees};
ghost use Rattle.osb_broker.specs.BrokerState.{Works};
ghost use Rattle.osb_listen.specs.Listen.{listening_line};
ghost use Rattle.osb_listen.specs.Held.{HasServed, Serving};
ghost use Rattle.osb_cli.specs.Serve.{Leaves};
ghost use Rattle.osb_cli.specs.Inside.{IsOther, NamesInUse};
ghost use Rattle.osb_cli.specs.Files.{AreBytesOf};
ghost use Rattle.osb_cli.specs.Reported.{IsUnservedOf};

use crate::explaining::{settings_as, unserved_as};
use crate::fault::{Fault, Unserved};
use crate::files::NamedFiles;
use crate::limits::descriptors_limit;
use crate::stack::take_stack;
use crate::words::Listen;
use osb_file::{Database, Opened};
use osb_frames::Sink;
use osb_listen::{Entrance, serve_file};

/// How many descriptors the program has beside one for each client.
const OWN_DESCRIPTORS: usize = 9;

/// Refuses to connect more clients than descriptors are there for, where so many are asked for.
fn check_descriptors(rt: &HostRuntime, wanted: Option<u32>) -> Result<(), Fault<'static>>
    ensures { IfErr result IsOther }
{
    let (Some(together), Some(allowed)) = (wanted, descriptors_limit(rt)) else {
        return Ok(());
    };
    let needed = (together as usize).saturating_add(OWN_DESCRIPTORS);
    if allowed < needed {
        return Err(Fault::TooFewDescriptors(needed, allowed));
    }
    Ok(())
}

/// Serves the clients of an entrance, with the settings of one file and the database of another. The
/// connection to that file comes back, where it was opened.
pub(crate) fn listen<'a, D: Database, F: NamedFiles, L: Entrance, W: Sink, E: Sink>(
    rt: &HostRuntime,
    files: &F,
    asked: &Listen<'a>,
    database: D,
    entrance: &mut L,
    output: &mut W,
    errors: &mut E,
) -> (Result<(), Unserved<'a>>, Opened<D::Store>)
    ensures served { IfSome result.1 (λ conn. (serving : Serving)
        × OnOk result.0 (IsOk serving.ended)
        × HasServed asked.now.place.connections asked.now.per_connection.number serving
        (L.journal entrance.old) (L.journal entrance.new) (E.taken errors.old) (E.taken errors.new)
        (E.failed_or_empty errors.old) (E.failed_or_empty errors.new)
        × ((db : Trees) → HasTrees (D.held database) db →
        Leaves (F.contents files.now) asked.now.settings.now asked.now.per_connection.number
        asked.now.place.existing db serving (state D.Store.Store conn))) }
    ensures told { OnOk result.0 (W.taken output.new
        ≡ W.taken output.old ++ listening_line asked.now.place.address.now) }
    ensures opened { OnOk result.0 (IsSome result.1) }
    ensures untouched { IfNone result.1 (errors.new ≡ errors.old) }
    ensures unasked { IfNone result.1 (entrance.new ≡ entrance.old) }
    ensures fault { IfErr result.0 (IsUnservedOf
        (AreBytesOf (F.contents files.now) asked.now.settings.now)) }
    ensures lacks { IfErr result.0 (λ fault. IfSome result.1 (λ conn.
        Works (state D.Store.Store conn) →
        (db : Trees) → HasTrees (D.held database) db →
        NamesInUse (F.contents files.now) asked.now.settings.now db fault)) }
{
    if let Err(fault) = check_descriptors(rt, asked.wanted) {
        return (Err(Unserved::from(fault)), None);
    }
    if take_stack(rt).is_err() {
        return (Err(Unserved::from(Fault::OutOfMemory)), None);
    }
    let settings = match settings_as(rt.alloc(), files, asked) {
        Ok(settings) => settings,
        Err(fault) => return (Err(Unserved::from(fault)), None),
    };
    let per_connection = asked.per_connection.number();
    let (done, conn) = serve_file(
        rt,
        &settings,
        &asked.place,
        per_connection,
        database,
        entrance,
        output,
        errors,
    );
    match done {
        Ok(()) => (Ok(()), conn),
        Err(fault) => {
            let told = unserved_as(rt, files, asked, fault, conn.is_some());
            (Err(told), conn)
        }
    }
}
