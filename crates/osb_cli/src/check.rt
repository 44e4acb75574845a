//! `check`: whether a settings file is accepted, what a database file has, and whether a start with
//! both lacks a plan.

ghost use Rattle.std.specs.Prelude.{◌≡◌, ◌++◌, ℕ, Bool, List, true, IfErr, IfOk, OnOk, Some, decimal, length, option_map};
ghost use Rattle.osb_advice.specs.Remarks.{remarks_of};
ghost use Rattle.osb_catalog.specs.Rules.{rules_of};
ghost use Rattle.osb_cli.specs.Done.{AreChecked, IsChecked, IsLookedAt, IsNote, counted_line, counts_line, database_line, refused_line, shared_line};
ghost use Rattle.osb_cli.specs.Files.{AreBytesOf, IsShared};
ghost use Rattle.osb_cli.specs.Inside.{FindsInUse, IsOfCopy, IsOther, IsPlacedBy, LacksSeen, OffersSeen};
ghost use Rattle.osb_cli.specs.Reported.{IsOfText, IsTextOf, IsUnservedOf};
ghost use Rattle.osb_cli.specs.Settings.{AreOfFile};

use crate::explaining::differs;
use crate::fault::{Fault, Unserved};
use crate::files::NamedFiles;
use crate::input::read_file;
use crate::output::write;
use crate::settings::read_settings;
use crate::words::Check;
use itoa::Buffer;
use osb_advice::{remarks, unreadable};
use osb_audit::Counts;
use osb_broker::first_lacking;
use osb_catalog::{Settings, SettingsFault, place_of};
use osb_file::{Seen, Unseen};
use osb_frames::Sink;
use std::alloc::Global;

/// Writes the line of a catalog with so many services and plans. It takes no memory.
fn write_counts<W: Sink>(
    services: usize,
    plans: usize,
    output: &mut W,
) -> Result<(), Fault<'static>>
    ensures written { OnOk result (W.taken output.new
        ≡ W.taken output.old ++ counts_line services plans) }
    ensures other { IfErr result IsOther }
{
    let mut digits = Buffer::new();
    write(output, b"services ")?;
    write(output, digits.format(services).as_bytes())?;
    write(output, b", plans ")?;
    write(output, digits.format(plans).as_bytes())?;
    write(output, b"\n")
}

/// Writes a word and a number behind it. It takes no memory.
pub(crate) fn write_number<W: Sink>(
    word: &[u8],
    number: usize,
    output: &mut W,
) -> Result<(), Fault<'static>>
    ensures written { OnOk result (W.taken output.new
        ≡ W.taken output.old ++ (word.now ++ decimal number)) }
    ensures other { IfErr result IsOther }
{
    let mut digits = Buffer::new();
    write(output, word)?;
    write(output, digits.format(number).as_bytes())
}

/// Writes the line of a database that has so much of everything. It takes no memory.
pub(crate) fn write_counted<W: Sink>(counts: Counts, output: &mut W) -> Result<(), Fault<'static>>
    ensures written { OnOk result (W.taken output.new
        ≡ W.taken output.old ++ counted_line counts) }
    ensures other { IfErr result IsOther }
{
    write_number(b"instances ", counts.instances, output)?;
    write_number(b", bindings ", counts.bindings, output)?;
    write_number(b", running ", counts.running, output)?;
    write(output, b"\n")
}

/// Writes the line of a database. It takes no memory.
fn write_database<W: Sink>(seen: &Seen, output: &mut W) -> Result<(), Fault<'static>>
    ensures written { OnOk result (W.taken output.new
        ≡ W.taken output.old ++ database_line seen.now) }
    ensures other { IfErr result IsOther }
{
    match seen {
        Seen::New => write(output, b"new\n"),
        Seen::Counted(counts, _) => write_counted(*counts, output),
    }
}

/// Prints the number of services and of plans in the catalog of a settings file, and gives its
/// settings.
fn read_checked<'a, F: NamedFiles, W: Sink>(
    alloc: Global,
    files: &F,
    name: &'a str,
    output: &mut W,
) -> Result<Settings, Fault<'a>>
    ensures are { IfOk result (AreOfFile (F.contents files.now) name.entry.now) }
    ensures written { IfOk result (λ settings. W.taken output.new
        ≡ W.taken output.old ++ counts_line (length settings.services) (length settings.plans)) }
    ensures fault { IfErr result (IsOfText (AreBytesOf (F.contents files.now) name.entry.now)) }
{
    let settings = read_settings(alloc, files, name)?;
    let (services, plans) = settings.counts();
    write_counts(services, plans, output)?;
    Ok(settings)
}

/// The fault of this text, with the place where it is.
fn with_place(alloc: Global, fault: SettingsFault, text: &[u8]) -> Fault<'static>
    ensures { IsPlacedBy (λ it. it ≡ text.now) fault result }
{
    match place_of(alloc, fault, text) {
        Ok(Some(place)) => Fault::Placed(fault, place),
        Ok(None) => Fault::Settings(fault),
        Err(_) => Fault::OutOfMemory,
    }
}

/// The fault of a text without an object, with the reason.
fn with_reason(alloc: Global, text: &[u8]) -> Fault<'static>
    ensures { IsPlacedBy (λ it. it ≡ text.now) SettingsFault.Text result }
{
    match unreadable(alloc, text) {
        Ok(Some(reason)) => Fault::Unreadable(reason),
        Ok(None) => Fault::Settings(SettingsFault::Text),
        Err(_) => Fault::OutOfMemory,
    }
}

/// The fault of the file, with its place or its reason. The file is read again.
pub(crate) fn placed<'a, F: NamedFiles>(
    alloc: Global,
    files: &F,
    name: &'a str,
    fault: SettingsFault,
) -> Fault<'a>
    ensures { IsPlacedBy (AreBytesOf (F.contents files.now) name.entry.now) fault result }
{
    let text = match read_file(alloc, files, name) {
        Ok(text) => text,
        Err(fault) => return fault,
    };
    match fault {
        SettingsFault::Text => with_reason(alloc, text.as_slice()),
        _ => with_place(alloc, fault, text.as_slice()),
    }
}

/// The remark on a file that every user may read or write.
fn shared_line(shared: bool) -> &'static [u8]
    ensures { result.now ≡ shared_line shared }
{
    if shared {
        b"every user may read or write it\n"
    } else {
        b""
    }
}

/// Prints whether every user may read or write a file.
fn write_shared<F: NamedFiles, W: Sink>(
    files: &F,
    name: &str,
    output: &mut W,
) -> Result<(), Fault<'static>>
    ensures written { OnOk result ((shared : Bool) × IsShared (F.contents files.now) name.now shared
        × (W.taken output.new ≡ W.taken output.old ++ shared_line shared)) }
    ensures other { IfErr result IsOther }
{
    write(output, shared_line(files.is_shared(name)))
}

/// Prints the remarks on a settings file. The file is read again.
fn write_remarks<'a, F: NamedFiles, W: Sink>(
    alloc: Global,
    files: &F,
    name: &'a str,
    output: &mut W,
) -> Result<(), Fault<'a>>
    ensures written { OnOk result ((text : List ℕ)
        × AreBytesOf (F.contents files.now) name.entry.now text
        × (shared : Bool) × IsShared (F.contents files.now) name.entry.now shared
        × (W.taken output.new ≡ W.taken output.old ++ (remarks_of text ++ shared_line shared))) }
    ensures other { IfErr result IsOther }
{
    let text = read_file(alloc, files, name)?;
    let remarks = remarks(alloc, text.as_slice())?;
    write(output, remarks.as_bytes())?;
    write_shared(files, name, output)
}

/// Checks a settings file, and says more of it than whether it is accepted.
fn explain_settings<'a, F: NamedFiles, W: Sink>(
    alloc: Global,
    files: &F,
    name: &'a str,
    output: &mut W,
) -> Result<Settings, Fault<'a>>
    ensures are { IfOk result (AreOfFile (F.contents files.now) name.entry.now) }
    ensures checked { OnOk result (IsChecked (F.contents files.now) name.entry.now true
        (W.taken output.old) (W.taken output.new)) }
    ensures fault { IfErr result (IsOfText (AreBytesOf (F.contents files.now) name.entry.now)) }
{
    match read_checked(alloc, files, name, output) {
        Ok(settings) => {
            write_remarks(alloc, files, name, output)?;
            Ok(settings)
        }
        Err(Fault::Settings(fault)) => Err(placed(alloc, files, name, fault)),
        Err(fault) => Err(fault),
    }
}

/// Checks a settings file.
fn check_settings<'a, F: NamedFiles, W: Sink>(
    alloc: Global,
    files: &F,
    name: &'a str,
    explain: bool,
    output: &mut W,
) -> Result<Settings, Fault<'a>>
    ensures are { IfOk result (AreOfFile (F.contents files.now) name.entry.now) }
    ensures checked { OnOk result (IsChecked (F.contents files.now) name.entry.now explain
        (W.taken output.old) (W.taken output.new)) }
    ensures fault { IfErr result (IsOfText (AreBytesOf (F.contents files.now) name.entry.now)) }
{
    if explain {
        explain_settings(alloc, files, name, output)
    } else {
        read_checked(alloc, files, name, output)
    }
}

/// Prints why a start refuses a file that can be read, if that is explained.
fn write_note<F: NamedFiles, W: Sink>(
    files: &F,
    path: &str,
    explain: bool,
    output: &mut W,
) -> Result<(), Fault<'static>>
    ensures written { OnOk result ((note : List ℕ) × IsNote explain note
        × (W.taken output.new ≡ W.taken output.old ++ note)) }
    ensures other { IfErr result IsOther }
{
    if !explain {
        return Ok(());
    }
    match files.check_mode(path) {
        Ok(()) => Ok(()),
        Err(cause) => write_refused(cause, output),
    }
}

fn write_refused<W: Sink>(cause: Unseen, output: &mut W) -> Result<(), Fault<'static>>
    ensures written { OnOk result (W.taken output.new
        ≡ W.taken output.old ++ refused_line cause) }
    ensures other { IfErr result IsOther }
{
    write(output, b"a start is refused: ")?;
    write(output, cause.text().as_bytes())?;
    write(output, b"\n")
}

/// Prints what the database of a file has, and gives it.
fn look_at<'a, F: NamedFiles, W: Sink>(
    alloc: Global,
    files: &F,
    path: &str,
    explain: bool,
    output: &mut W,
) -> Result<Seen, Fault<'a>>
    ensures looked { OnOk result (IsLookedAt (F.contents files.now) path.now explain
        (W.taken output.old) (W.taken output.new)) }
    ensures seen { IfOk result (IsOfCopy (F.contents files.now) path.now) }
    ensures other { IfErr result IsOther }
{
    let copied = files.read_database(path)?;
    let seen = match copied.look(alloc) {
        Ok(seen) => seen,
        Err(Unseen::NotOurs) => return Err(differs(alloc, &copied)),
        Err(unseen) => return Err(Fault::Unseen(unseen)),
    };
    write_database(&seen, output)?;
    write_note(files, path, explain, output)?;
    Ok(seen)
}

/// Refuses a database that has a plan in use which the settings lack.
fn check_plans(settings: &Settings, seen: Seen) -> Result<(), Unserved<'static>>
    ensures ok { OnOk result (OffersSeen (rules_of settings.now) seen) }
    ensures lacks { IfErr result (LacksSeen (rules_of settings.now) seen) }
{
    let Seen::Counted(_, plans) = seen else {
        return Ok(());
    };
    match first_lacking(settings, plans) {
        Some((service, plan)) => Err(Unserved::PlanInUse(service, plan)),
        None => Ok(()),
    }
}

/// Checks both files, and whether a start with the two would lack a plan.
fn check_both<'a, F: NamedFiles, W: Sink>(
    alloc: Global,
    files: &F,
    name: &'a str,
    explain: bool,
    path: &str,
    output: &mut W,
) -> Result<(), Unserved<'a>>
    ensures checked { OnOk result (AreChecked (F.contents files.now) explain
        (Some name.entry.now) (Some path.now) (W.taken output.old) (W.taken output.new)) }
    ensures lacks { IfErr result (FindsInUse (F.contents files.now)
        (Some name.entry.now) (Some path.now)) }
    ensures fault { IfErr result (IsUnservedOf
        (AreBytesOf (F.contents files.now) name.entry.now)) }
{
    let settings = check_settings(alloc, files, name, explain, output)?;
    let seen = look_at(alloc, files, path, explain, output)?;
    check_plans(&settings, seen)
}

/// The fault of words that name no file.
fn no_file(alloc: Global) -> Fault<'static>
    ensures { IsOther result }
{
    let line = "error: neither a settings file nor '--database <FILE>' was given\n\n\
        Usage: osb-broker check [--explain] [--database FILE] [FILE]\n\n\
        For more information, try '--help'.\n";
    match String::from_str(alloc, line) {
        Ok(text) => Fault::Words(text),
        Err(_) => Fault::OutOfMemory,
    }
}

/// Checks the files that are named.
pub(crate) fn check<'a, F: NamedFiles, W: Sink>(
    alloc: Global,
    files: &F,
    asked: &Check<'a>,
    output: &mut W,
) -> Result<(), Unserved<'a>>
    ensures checked { OnOk result (AreChecked (F.contents files.now) asked.now.explain
        (option_map (λ it. it.now) asked.now.settings)
        (option_map (λ it. it.now) asked.now.database) (W.taken output.old) (W.taken output.new)) }
    ensures lacks { IfErr result (FindsInUse (F.contents files.now)
        (option_map (λ it. it.now) asked.now.settings)
        (option_map (λ it. it.now) asked.now.database)) }
    ensures fault { IfErr result (IsUnservedOf (IsTextOf (F.contents files.now)
        (option_map (λ it. it.now) asked.now.settings))) }
{
    match (asked.settings, asked.database) {
        (None, None) => Err(Unserved::from(no_file(alloc))),
        (Some(name), None) => {
            check_settings(alloc, files, name, asked.explain, output)?;
            Ok(())
        }
        (None, Some(path)) => {
            look_at(alloc, files, path, asked.explain, output)?;
            Ok(())
        }
        (Some(name), Some(path)) => { check_both(alloc, files, name, asked.explain, path, output) }
    }
}
