//! Why nothing is served, with the cause as far as it is seen then.

ghost use Rattle.std.specs.Prelude.{◌≡◌, IfOk, IfErr};
ghost use Rattle.osb_file.specs.declared.fault.FileFault.TheVariants as database;
ghost use Rattle.osb_cli.specs.Files.{AreBytesOf};
ghost use Rattle.osb_cli.specs.Inside.{IsFaultOf, IsOther, IsSaidOf};
ghost use Rattle.osb_cli.specs.Reported.{IsOfText};
ghost use Rattle.osb_cli.specs.Settings.{AreOfFile};

use crate::check::placed;
use crate::fault::{Fault, Unserved};
use crate::files::NamedFiles;
use crate::settings::read_settings;
use crate::words::Listen;
use osb_catalog::Settings;
use osb_file::{Copied, FileFault, Unseen};
use osb_listen::{ListenFault, ListenOptions, unbound_at};
use std::alloc::Global;

/// The fault of a database that isn't one of this broker, with the difference.
pub(crate) fn differs(alloc: Global, copied: &Copied) -> Fault<'static>
    ensures same { IsFaultOf database.NotOurs result }
    ensures other { IsOther result }
{
    match copied.difference(alloc) {
        Ok(difference) => Fault::Differs(difference),
        Err(_) => Fault::Unseen(Unseen::NotOurs),
    }
}

/// The fault of the database file at a path, with its cause. `is_open` says whether this process has it open.
fn explained_database<F: NamedFiles>(
    alloc: Global,
    files: &F,
    path: &str,
    fault: FileFault,
    is_open: bool,
) -> Fault<'static>
    ensures same { IsFaultOf fault result }
    ensures other { IsOther result }
{
    match fault {
        FileFault::Missing => Fault::Database(fault),
        FileFault::NotOurs => match files.read_database(path) {
            Ok(copied) => differs(alloc, &copied),
            Err(_) => Fault::Database(fault),
        },
        FileFault::Refused => match files.cause_of(path, is_open) {
            Some(cause) if cause.fault() == FileFault::Refused => Fault::Unseen(cause),
            _ => Fault::Database(fault),
        },
    }
}

/// The fault of an address, with its cause.
fn explained_address<'a>(rt: &HostRuntime, address: &'a str) -> Fault<'a>
    ensures { IsOther result }
{
    match unbound_at(rt, address) {
        Some(cause) => Fault::Unbound(address, cause),
        None => Fault::CannotListen(address),
    }
}

/// The fault of the command, where connections were to be taken at this address.
fn unserved(fault: ListenFault, address: &str) -> Unserved<'_>
    ensures { IsSaidOf fault result }
{
    match fault {
        ListenFault::PlanInUse(service, plan) => Unserved::PlanInUse(service, plan),
        ListenFault::Database(fault) => Unserved::Fault(Fault::Database(fault)),
        ListenFault::FileTaken => Unserved::Fault(Fault::Database(FileFault::Refused)),
        ListenFault::Memory => Unserved::Fault(Fault::OutOfMemory),
        ListenFault::CannotListen => Unserved::Fault(Fault::CannotListen(address)),
        ListenFault::CannotWrite => Unserved::Fault(Fault::CannotWrite),
        ListenFault::CannotAccept => Unserved::Fault(Fault::CannotAccept),
    }
}

/// The same, with its cause.
fn explained<'a, F: NamedFiles>(
    rt: &HostRuntime,
    files: &F,
    place: &ListenOptions<'a>,
    fault: ListenFault,
    is_open: bool,
) -> Unserved<'a>
    ensures { IsSaidOf fault result }
{
    let path = place.database;
    match fault {
        ListenFault::Database(fault) => Unserved::Fault(explained_database(
            rt.alloc(),
            files,
            path,
            fault,
            is_open,
        )),
        ListenFault::FileTaken => Unserved::Fault(Fault::Unseen(Unseen::TakenAway)),
        ListenFault::CannotListen => Unserved::Fault(explained_address(rt, place.address)),
        ListenFault::PlanInUse(_, _)
        | ListenFault::Memory
        | ListenFault::CannotWrite
        | ListenFault::CannotAccept => unserved(fault, place.address),
    }
}

/// The fault of the command, with its cause where that is asked for. `is_open` says whether this process has the
/// database file open.
pub(crate) fn unserved_as<'a, F: NamedFiles>(
    rt: &HostRuntime,
    files: &F,
    asked: &Listen<'a>,
    fault: ListenFault,
    is_open: bool,
) -> Unserved<'a>
    ensures { IsSaidOf fault result }
{
    if asked.explain {
        explained(rt, files, &asked.place, fault, is_open)
    } else {
        unserved(fault, asked.place.address)
    }
}

/// Reads the settings that `serve` is given. A fault comes with its place or its reason where that is asked for.
pub(crate) fn settings_as<'a, F: NamedFiles>(
    alloc: Global,
    files: &F,
    asked: &Listen<'a>,
) -> Result<Settings, Fault<'a>>
    ensures are { IfOk result (AreOfFile (F.contents files.now) asked.now.settings.now) }
    ensures fault { IfErr result (IsOfText (AreBytesOf (F.contents files.now)
        asked.now.settings.now)) }
{
    match read_settings(alloc, files, asked.settings) {
        Ok(settings) => Ok(settings),
        Err(Fault::Settings(fault)) if asked.explain => {
            Err(placed(alloc, files, asked.settings, fault))
        }
        Err(fault) => Err(fault),
    }
}
