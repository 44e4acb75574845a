//! Files and standard input, read whole up to a limit.

ghost use Rattle.std.specs.Prelude.{◌≡◌, ◌≤◌, ◌<◌, ◌++◌, length, map, vec_items, ◌+◌, IfOk, IfErr, IfSome};
ghost use Rattle.osb_cli.specs.Files.{AreBytesOf, AreBytesOfAll};
ghost use Rattle.osb_cli.specs.Input.{HasReadCause};
ghost use Rattle.osb_cli.specs.Inside.{IsOther};

use crate::fault::Fault;
use crate::files::NamedFiles;
use osb_frames::Source;
use std::alloc::{AllocError, Global};

/// The most bytes that a file or standard input may have.
pub(crate) const MOST_BYTES: usize = 16_777_216;

const PIECE: usize = 4096;

/// Why an input wasn't read.
#[derive(Clone, Copy, Debug, PartialEq, Eq)]
pub enum ReadFault {
    /// A read failed.
    Failed,
    /// It has more bytes than the limit.
    TooLarge,
    /// Memory was refused.
    Memory,
}

impl ReadFault {
    /// The fault, with the name of what was read.
    fn of(self, name: &str) -> Fault<'_>
        ensures { IsOther result }
    {
        match self {
            ReadFault::Failed => Fault::CannotRead(name),
            ReadFault::TooLarge => Fault::TooLarge(name),
            ReadFault::Memory => Fault::OutOfMemory,
        }
    }
}

impl From<AllocError> for ReadFault {
    ghost use Rattle.std.specs.Prelude.{◌≡◌};
    ghost use Rattle.osb_cli.specs.declared.input.ReadFault.TheVariants.{Memory};

    ghost from_gives = { λ _ fault. fault ≡ Memory };

    fn from(_error: AllocError) -> Self {
        ReadFault::Memory
    }
}

/// Reads to the end, and no more than one byte past the limit.
pub(crate) fn read_whole<R: Source>(alloc: Global, source: &mut R) -> Result<Vec<u8>, ReadFault>
    ensures given { IfOk result (λ bytes. R.given source.new ≡ R.given source.old ++ bytes.items) }
    ensures whole { IfOk result (λ bytes. IfSome (R.rest source.old) (λ all. all ≡ bytes.items)) }
    ensures bounded { length (R.given source.new) ≤ length (R.given source.old) + 16777217 }
    ensures small { IfOk result (λ bytes. length bytes.items ≤ 16777216) }
    ensures cause { IfErr result (λ fault. HasReadCause fault
        (R.failures source.old < R.failures source.new)
        (length (R.given source.old) + 16777216 < length (R.given source.new))) }
{
    let mut piece = [0; PIECE];
    let mut bytes = Vec::new(alloc);
    for turn in 0..MOST_BYTES + 2 {
        let room = PIECE.min(MOST_BYTES + 1 - bytes.len());
        match source.read(&mut piece[..room]) {
            Ok(0) => return Ok(bytes),
            Ok(n) => {
                if bytes.len() + n > MOST_BYTES {
                    return Err(ReadFault::TooLarge);
                }
                bytes.extend_from_slice(&piece[..n])?;
            }
            Err(_) => return Err(ReadFault::Failed),
        }
    }
    Err(ReadFault::TooLarge)
}

/// Reads standard input, or what takes its place.
pub(crate) fn read_input<R: Source>(alloc: Global, input: &mut R) -> Result<Vec<u8>, Fault<'static>>
    ensures read { IfOk result (λ bytes. IfSome (R.rest input.old) (λ all. all ≡ bytes.items)) }
    ensures other { IfErr result IsOther }
{
    match read_whole(alloc, input) {
        Ok(bytes) => Ok(bytes),
        Err(fault) => Err(fault.of("standard input")),
    }
}

/// Reads a file.
pub(crate) fn read_file<'a, F: NamedFiles>(
    alloc: Global,
    files: &F,
    name: &'a str,
) -> Result<Vec<u8>, Fault<'a>>
    ensures read { IfOk result (λ bytes.
        AreBytesOf (F.contents files.now) name.entry.now bytes.items) }
    ensures other { IfErr result IsOther }
{
    match files.read(alloc, name) {
        Ok(bytes) => Ok(bytes),
        Err(fault) => Err(fault.of(name)),
    }
}

/// Reads files, in the order of their names.
pub(crate) fn read_files<'a, F: NamedFiles>(
    alloc: Global,
    files: &F,
    names: &[&'a str],
) -> Result<Vec<Vec<u8>>, Fault<'a>>
    ensures read { IfOk result (λ read. AreBytesOfAll (F.contents files.now)
        (map (λ it. it.now) names.now) (map vec_items read.items)) }
    ensures other { IfErr result IsOther }
{
    let mut read = Vec::with_capacity(alloc, names.len())?;
    for name in names {
        let bytes = read_file(alloc, files, name)?;
        read.push(bytes).map_err(AllocError::from)?;
    }
    Ok(read)
}
