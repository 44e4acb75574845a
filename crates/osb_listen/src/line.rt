//! A line on standard error.

ghost use Rattle.std.specs.Prelude.{[], ◌∷◌, map};
ghost use Rattle.std.specs.List.{concat};
ghost use Rattle.osb_listen.specs.Lines.{Says};

use osb_frames::{Sink, send_all};

/// Writes a line that is made of these pieces, up to the first write that fails.
pub fn say<E: Sink>(errors: &mut E, pieces: &[&str])
    ensures { Says (concat (map (λ it. it.now) pieces.now) ∷ [])
        (E.taken errors.old) (E.taken errors.new)
        (E.failed_or_empty errors.old) (E.failed_or_empty errors.new) }
{
    for piece in pieces {
        if send_all(errors, piece.as_bytes()).is_err() {
            return;
        }
    }
}
