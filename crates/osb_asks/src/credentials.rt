//! Whether the value of an Authorization field is a Basic login of a door.

ghost use Rattle.std.specs.Prelude.{◌≡◌};
ghost use Rattle.osb_asks.specs.Credentials.{after_spaces, is_spaced, is_login, is_some_login};

use osb_text::Text;

/// The bytes after the spaces at their front.
fn after_spaces(mut bytes: &[u8]) -> &[u8]
    ensures { result.now ≡ after_spaces bytes.now }
{
    while let [b' ', rest @ ..] = bytes {
        bytes = rest;
    }
    bytes
}

/// Whether the bytes are one or more spaces, and the token.
fn is_spaced(token: &[u8], bytes: &[u8]) -> bool
    ensures { result ≡ is_spaced token.now bytes.now }
{
    match bytes {
        [b' ', rest @ ..] => after_spaces(rest) == token,
        _ => false,
    }
}

/// Whether the value of an Authorization line is the Basic login with that token.
fn is_login(token: &[u8], value: &[u8]) -> bool
    ensures { result ≡ is_login token.now value.now }
{
    if value.len() < 5 {
        return false;
    }
    value[..5].eq_ignore_ascii_case(b"basic") && is_spaced(token, &value[5..])
}

/// Whether the value of an Authorization line is the Basic login with one of the tokens.
pub(crate) fn is_some_login(tokens: &[Text], value: &[u8]) -> bool
    ensures { result ≡ is_some_login tokens.now value.now }
{
    tokens
        .iter()
        .any(|token| is_login(token.as_str().as_bytes(), value))
}
