//! Which texts may be an id.

ghost use Rattle.std.specs.Prelude.{◌≡◌};
ghost use Rattle.osb_text.specs.Id.{has_no_controls, is_id};

/// Whether the text may be an id: 1 to 256 bytes with no control character.
#[tactic(auto, using(crate::proofs::Utf8::utf8_test))]
pub fn is_id(text: &str) -> bool
    ensures { result ≡ is_id text.now }
{
    !text.is_empty() && text.len() <= 256 && has_no_controls(text)
}

/// Whether the text has no control character, U+0000 to U+001F and U+007F to U+009F.
pub fn has_no_controls(text: &str) -> bool
    ensures { result ≡ has_no_controls text.now }
{
    text.chars().all(|c| !c.is_control())
}
