//! How serving a client ended, as a line.

ghost use Rattle.std.specs.Prelude.{◌≡◌, [], ◌∷◌};
ghost use Rattle.osb_listen.specs.Lines.{line_of, Says};

use osb_broker::ServeFault;
use osb_frames::{Sink, send_all};

/// The line that reports how serving a connection ended.
fn line_for(ended: Result<(), ServeFault>) -> &'static [u8]
    ensures { result.now ≡ line_of ended }
{
    match ended {
        Ok(()) => b"",
        Err(ServeFault::Read) => b"connection: read\n",
        Err(ServeFault::Write) => b"connection: write\n",
    }
}

/// Reports how serving a connection ended. Standard error that can't be written is passed over.
pub(crate) fn report_end<E: Sink>(ended: Result<(), ServeFault>, errors: &mut E)
    ensures { Says (line_of ended ∷ []) (E.taken errors.old) (E.taken errors.new)
        (E.failed_or_empty errors.old) (E.failed_or_empty errors.new) }
{
    let _ = send_all(errors, line_for(ended));
}
