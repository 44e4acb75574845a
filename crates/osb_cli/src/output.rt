//! What is written to standard output.

ghost use Rattle.std.specs.Prelude.{◌≡◌, ◌++◌, IfErr, OnOk};
ghost use Rattle.osb_cli.specs.Inside.{IsOther};

use crate::fault::Fault;
use osb_frames::{Sink, send_all};

/// Writes a piece.
pub(crate) fn write<W: Sink>(output: &mut W, piece: &[u8]) -> Result<(), Fault<'static>>
    ensures written { OnOk result (W.taken output.new ≡ W.taken output.old ++ piece.now) }
    ensures other { IfErr result IsOther }
{
    match send_all(output, piece) {
        Ok(()) => Ok(()),
        Err(_) => Err(Fault::CannotWrite),
    }
}
