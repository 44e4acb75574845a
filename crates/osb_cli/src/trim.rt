//! `trim`: a database file, written anew without what no answer rests on.

ghost use Rattle.std.specs.Prelude.{◌≡◌, ◌++◌, IfErr, IfOk, OnOk, length};
ghost use Rattle.osb_cli.specs.Done.{IsTrimmed, trimmed_line};
ghost use Rattle.osb_cli.specs.Inside.{IsOther, IsTrimmedOf};

use crate::backup::unmade;
use crate::check::write_number;
use crate::fault::Fault;
use crate::files::NamedFiles;
use crate::output::write;
use crate::words::Trim;
use osb_file::{Held, OneFile};
use osb_frames::Sink;
use std::alloc::Global;

/// The lives of a database file, trimmed, in one file.
#[derive(Debug, Drop)]
pub(crate) struct Trimmed {
    /// The file that takes the place of the other.
    pub(crate) file: OneFile,
    /// How many orders were erased.
    pub(crate) count: usize,
    /// How many bytes the database file and its log have.
    pub(crate) before: usize,
}

/// The lives of a file and its log, trimmed.
fn trimmed_of<'a, F: NamedFiles>(alloc: Global, files: &F, path: &str) -> Result<Trimmed, Fault<'a>>
    ensures is { IfOk result (IsTrimmedOf (F.contents files.now) path.now) }
    ensures other { IfErr result IsOther }
{
    let copied = files.read_database(path)?;
    let before = copied.len();
    let (file, count) = OneFile::trimmed(alloc, copied)?;
    Ok(Trimmed {
        file,
        count,
        before,
    })
}

/// Puts the file in the place of the one of that name.
fn replace<'a, F: NamedFiles>(
    files: &F,
    held: Held,
    name: &'a str,
    with: &OneFile,
) -> Result<(), Fault<'a>>
    ensures made { OnOk result (F.is_made files.now name.entry.now with.now.bytes.items) }
    ensures other { IfErr result IsOther }
{
    match files.replace(held, name, with) {
        Ok(()) => Ok(()),
        Err(fault) => Err(unmade(fault, name)),
    }
}

/// Prints what was erased, and how many bytes the file with its log had and the new file has.
fn report<W: Sink>(trimmed: &Trimmed, output: &mut W) -> Result<(), Fault<'static>>
    ensures written { OnOk result (W.taken output.new ≡ W.taken output.old
        ++ trimmed_line trimmed.now.count trimmed.now.before
        (length trimmed.now.file.bytes.items)) }
    ensures other { IfErr result IsOther }
{
    write_number(b"trimmed ", trimmed.count, output)?;
    write_number(b", bytes ", trimmed.before, output)?;
    write_number(b", now ", trimmed.file.len(), output)?;
    write(output, b"\n")
}

/// The same of a file that is held.
fn trim_held<'a, F: NamedFiles, W: Sink>(
    alloc: Global,
    files: &F,
    held: Held,
    name: &'a str,
    output: &mut W,
) -> Result<(), Fault<'a>>
    ensures made { OnOk result (IsTrimmed (F.contents files.now) (F.is_made files.now)
        name.entry.now (W.taken output.old) (W.taken output.new)) }
    ensures other { IfErr result IsOther }
{
    let trimmed = match trimmed_of(alloc, files, name) {
        Ok(trimmed) => trimmed,
        Err(fault) => {
            drop(held);
            return Err(fault);
        }
    };
    replace(files, held, name, &trimmed.file)?;
    report(&trimmed, output)
}

/// Erases from a database file what no answer rests on, and prints how much that was.
pub(crate) fn trim<'a, F: NamedFiles, W: Sink>(
    alloc: Global,
    files: &F,
    asked: &Trim<'a>,
    output: &mut W,
) -> Result<(), Fault<'a>>
    ensures made { OnOk result (IsTrimmed (F.contents files.now) (F.is_made files.now)
        asked.now.database.now (W.taken output.old) (W.taken output.new)) }
    ensures other { IfErr result IsOther }
{
    let held = files.hold(asked.database)?;
    trim_held(alloc, files, held, asked.database, output)
}
