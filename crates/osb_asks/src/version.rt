//! Whether a version of the API is one that is spoken.

ghost use Rattle.std.specs.Prelude.{◌≡◌};
ghost use Rattle.std.specs.List.{list_all};
ghost use Rattle.std.specs.Char.{is_ascii_digit};
ghost use Rattle.osb_asks.specs.Versions.{is_api_version, is_minor};

pub(crate) fn are_digits(bytes: &[u8]) -> bool
    ensures { result ≡ list_all is_ascii_digit bytes.now }
{
    bytes.iter().all(|b| b.is_ascii_digit())
}

/// Whether the bytes are one to three digits that don't begin with a 0, unless they are that only.
fn is_minor(digits: &[u8]) -> bool
    ensures { result ≡ is_minor digits.now }
{
    !digits.is_empty()
        && digits.len() <= 3
        && are_digits(digits)
        && (digits.len() == 1 || digits[0] != b'0')
}

/// Whether the value names a version 2 of the API.
pub(crate) fn is_api_version(value: &[u8]) -> bool
    ensures { result ≡ is_api_version value.now }
{
    match value {
        [b'2', b'.', minor @ ..] => is_minor(minor),
        _ => false,
    }
}
