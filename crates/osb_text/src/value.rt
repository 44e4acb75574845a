//! Reading a value in an object, whatever its kind.

ghost use Rattle.std.specs.Prelude.{◌≡◌, true, IfOk, IfSome, option_map, string_bytes};
ghost use Rattle.serde_json.specs.Find.{as_array};
ghost use Rattle.serde_json.specs.View.{view, items_view};
ghost use Rattle.serde_json.specs.Written.{compact_text};
ghost use Rattle.osb_text.specs.Member.{member_of};
ghost use Rattle.osb_text.specs.Whole.{is_whole, items_are_whole};

use serde_json::Value;
use std::alloc::{AllocError, Global};

/// The member of an object by its name. A null counts as absent, and what is no object has none.
#[tactic(auto, using(crate::proofs::Parts::whole_member))]
pub fn member<'a>(value: &'a Value, name: &str) -> Option<&'a Value>
    ensures found { option_map (λ v. view v.now) result ≡ member_of name.now (view value.now) }
    ensures whole { is_whole (view value.now) ≡ true
        → IfSome result (λ v. is_whole (view v.now) ≡ true) }
{
    match value.get(name) {
        Some(found) if !found.is_null() => Some(found),
        _ => None,
    }
}

/// The items of an array.
pub fn items(value: &Value) -> Option<&[Value]>
    ensures found { option_map (λ vs. items_view vs.now) result ≡ as_array (view value.now) }
    ensures whole { is_whole (view value.now) ≡ true
        → IfSome result (λ vs. items_are_whole (items_view vs.now) ≡ true) }
{
    match value.as_array() {
        Some(items) => Some(items.as_slice()),
        None => None,
    }
}

/// The compact text of a value whose numbers are whole: no spaces, members as they are. A
/// value that was read has its names in byte order, as `laws::in_byte_order` says.
#[tactic(auto, using(crate::proofs::Parts::no_float))]
pub fn compact_text(alloc: Global, value: &Value) -> Result<String, AllocError>
    requires { is_whole (view value.now) ≡ true }
    ensures { IfOk result (λ text. string_bytes text ≡ compact_text (view value.now)) }
{
    value.to_string(alloc)
}
