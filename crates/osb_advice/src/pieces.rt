//! Appends texts to a text.

ghost use Rattle.std.specs.Prelude.{◌≡◌, ◌++◌, OnOk, string_bytes};
ghost use Rattle.std.specs.List.{concat};
ghost use Rattle.osb_catalog.specs.IdSet.{texts};
ghost use Rattle.osb_advice.specs.Past as spec;

use osb_text::has_no_controls;
use std::alloc::AllocError;

/// A name as a line shows it: itself, or `?` in its place if it has a control character (U+0000 to U+001F, U+007F to
/// U+009F). So it breaks no line.
pub fn shown(name: &str) -> &str
    ensures { result.now ≡ spec.shown name.now }
{
    if has_no_controls(name) { name } else { "?" }
}

pub(crate) fn push_all(text: &mut String, pieces: &[&str]) -> Result<(), AllocError>
    ensures { OnOk result (string_bytes text.new
        ≡ string_bytes text.old ++ concat (texts pieces.now)) }
{
    for piece in pieces {
        text.push_str(*piece)?;
    }
    Ok(())
}
