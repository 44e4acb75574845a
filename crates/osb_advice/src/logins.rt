//! Whether platform and backend have a login in common.

ghost use Rattle.std.specs.Prelude.{◌≡◌};
ghost use Rattle.serde_json.specs.View.{view};
ghost use Rattle.osb_advice.specs.SameLogin as spec;

use osb_catalog::{Field, text_at, value_at};
use serde_json::Value;

/// Whether a login of the platform is one of the backend. An `also` is a login too.
pub(crate) fn doors_share_a_login(file: &Value) -> bool
    ensures { result ≡ spec.doors_share_a_login (view file.now) }
{
    match (
        value_at(file, Field::Platform),
        value_at(file, Field::Backend),
    ) {
        (Some(platform), Some(backend)) => share_a_login(platform, backend),
        _ => false,
    }
}

fn share_a_login(one: &Value, other: &Value) -> bool
    ensures { result ≡ spec.share_a_login (view one.now) (view other.now) }
{
    is_one_of(one, other) || value_at(one, Field::Also).is_some_and(|also| is_one_of(also, other))
}

fn is_one_of(login: &Value, other: &Value) -> bool
    ensures { result ≡ spec.is_one_of (view login.now) (view other.now) }
{
    is_same_login(login, other)
        || value_at(other, Field::Also).is_some_and(|also| is_same_login(login, also))
}

fn is_same_login(one: &Value, other: &Value) -> bool
    ensures { result ≡ spec.is_same_login (view one.now) (view other.now) }
{
    has_same(Field::User, one, other) && has_same(Field::Password, one, other)
}

fn has_same(field: Field, one: &Value, other: &Value) -> bool
    ensures { result ≡ spec.has_same field (view one.now) (view other.now) }
{
    text_at(one, field) == text_at(other, field)
}
