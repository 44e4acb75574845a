//! Field lines: names without case, values that list items, and numbers.

ghost use Rattle.std.specs.Prelude.{◌≡◌, reverse};
ghost use Rattle.std.specs.List.{list_all};
ghost use Rattle.std.specs.Char.{is_ascii_digit};
ghost use Rattle.httparse.specs.Grammar.{skip_ows, trim_ows};
ghost use Rattle.osb_frames.specs.Fields.{same_ignoring_case, lists_item, is_number, digits_number};

use httparse::is_space_or_tab;

/// Whether the two are the same but for the case of ASCII letters.
pub(crate) fn same_ignoring_case(a: &[u8], b: &[u8]) -> bool
    ensures { result ≡ same_ignoring_case a.now b.now }
{
    a.eq_ignore_ascii_case(b)
}

fn trim_start(mut value: &[u8]) -> &[u8]
    ensures { result.now ≡ skip_ows value.now }
{
    while let [first, rest @ ..] = value
        && is_space_or_tab(*first)
    {
        value = rest;
    }
    value
}

fn trim_end(mut value: &[u8]) -> &[u8]
    ensures { result.now ≡ reverse (skip_ows (reverse value.now)) }
{
    while let [rest @ .., last] = value
        && is_space_or_tab(*last)
    {
        value = rest;
    }
    value
}

/// The bytes without the spaces and tabs at both ends.
fn trim(value: &[u8]) -> &[u8]
    ensures { result.now ≡ trim_ows value.now }
{
    trim_end(trim_start(value))
}

/// Whether one of the comma-separated items of the value is the word, in any case.
pub(crate) fn lists_item(word: &[u8], value: &[u8]) -> bool
    ensures { result ≡ lists_item word.now value.now }
{
    value
        .split(|byte| *byte == b',')
        .any(|item| same_ignoring_case(trim(item), word))
}

fn are_digits(bytes: &[u8]) -> bool
    ensures { result ≡ list_all is_ascii_digit bytes.now }
{
    bytes.iter().all(|byte| byte.is_ascii_digit())
}

/// Whether the value is 1 to 19 digits.
fn is_number(value: &[u8]) -> bool
    ensures { result ≡ is_number value.now }
{
    !value.is_empty() && value.len() <= 19 && are_digits(value)
}

/// The number that 1 to 19 digits write, leading zeros among them.
#[tactic(auto, unfolding(crate::specs::Fields::digits_number))]
pub(crate) fn digits_number(value: &[u8]) -> Option<u64>
    ensures { result ≡ digits_number value.now }
{
    if !is_number(value) {
        return None;
    }
    let Ok(digits) = str::from_utf8(value) else {
        return None;
    };
    match digits.parse::<u64>() {
        Ok(number) => Some(number),
        Err(_) => None,
    }
}
