//! `backup`: a database, copied into one file.

ghost use Rattle.std.specs.Prelude.{◌≡◌, ◌++◌, IfErr, IfOk, OnOk};
ghost use Rattle.osb_file.specs.declared.copied.Copied.{Copied};
ghost use Rattle.osb_file.specs.Looked.{image_in};
ghost use Rattle.osb_file.specs.OneFile.{IsInOne};
ghost use Rattle.osb_cli.specs.Done.{IsBackedUp, counted_line};
ghost use Rattle.osb_cli.specs.Files.{IsCopyOf};
ghost use Rattle.osb_cli.specs.Inside.{IsOther};

use crate::check::write_counted;
use crate::fault::Fault;
use crate::files::NamedFiles;
use crate::words::Backup;
use osb_file::{OneFile, Unwritten};
use osb_frames::Sink;
use std::alloc::Global;

/// The fault, with the name of the file that wasn't made.
pub(crate) fn unmade(fault: Unwritten, name: &str) -> Fault<'_>
    ensures { IsOther result }
{
    match fault {
        Unwritten::Exists => Fault::IsThere(name),
        Unwritten::DraftExists => Fault::DraftIsThere(name),
        Unwritten::Failed => Fault::CannotMake(name),
        Unwritten::Memory => Fault::OutOfMemory,
    }
}

/// The database of a file and its log in one file.
fn one_file_of<'a, F: NamedFiles>(
    alloc: Global,
    files: &F,
    path: &str,
) -> Result<OneFile, Fault<'a>>
    ensures is { IfOk result (λ one. (copied : Copied)
        × IsCopyOf (F.contents files.now) path.now copied
        × IsInOne (image_in copied) one.bytes.items one.counts) }
    ensures other { IfErr result IsOther }
{
    let copied = files.read_database(path)?;
    Ok(OneFile::of(alloc, copied)?)
}

/// Makes the file.
fn make<'a, F: NamedFiles>(files: &F, name: &'a str, one: &OneFile) -> Result<(), Fault<'a>>
    ensures made { OnOk result (F.is_made files.now name.entry.now one.now.bytes.items) }
    ensures other { IfErr result IsOther }
{
    match files.make(name, one) {
        Ok(()) => Ok(()),
        Err(fault) => Err(unmade(fault, name)),
    }
}

/// Prints what a file has that was made. Where that can't be written, the file is taken away again.
fn report<F: NamedFiles, W: Sink>(
    files: &F,
    name: &str,
    one: &OneFile,
    output: &mut W,
) -> Result<(), Fault<'static>>
    ensures written { OnOk result (W.taken output.new
        ≡ W.taken output.old ++ counted_line one.now.counts) }
    ensures other { IfErr result IsOther }
{
    let written = write_counted(one.counts(), output);
    if written.is_err() {
        files.take_away(name);
    }
    written
}

/// Makes one file of a database file and its log, and prints what it has.
pub(crate) fn backup<'a, F: NamedFiles, W: Sink>(
    alloc: Global,
    files: &F,
    asked: &Backup<'a>,
    output: &mut W,
) -> Result<(), Fault<'a>>
    ensures made { OnOk result (IsBackedUp (F.contents files.now) (F.is_made files.now)
        asked.now.database.now asked.now.to.now (W.taken output.old) (W.taken output.new)) }
    ensures other { IfErr result IsOther }
{
    let one = one_file_of(alloc, files, asked.database)?;
    make(files, asked.to, &one)?;
    report(files, asked.to, &one, output)
}
