//! Looks up what an object of a settings file has under a field.

ghost use Rattle.std.specs.Prelude.{◌≡◌, option_map, unwrap_or, IfSome, true};
ghost use Rattle.serde_json.specs.Data.{no_items, no_members};
ghost use Rattle.serde_json.specs.Find.{as_array};
ghost use Rattle.serde_json.specs.View.{view, items_view, members_view};
ghost use Rattle.osb_text.specs.Whole.{is_whole, items_are_whole};
ghost use Rattle.osb_catalog.specs.Fields.{value_at, text_at, flag_at, items_at, services_of, plans_of, modes_of};

use crate::field::Field;
use osb_text::{items, member};
use serde_json::{Map, Value};

/// What the object holds under the field. A null counts as absent.
pub fn value_at(object: &Value, field: Field) -> Option<&Value>
    ensures found { option_map (λ v. view v.now) result ≡ value_at field (view object.now) }
    ensures whole { is_whole (view object.now) ≡ true → IfSome result (λ v. is_whole (view v.now) ≡ true) }
{
    member(object, field.name())
}

/// The text under the field, empty where there is none.
pub fn text_at(object: &Value, field: Field) -> &str
    ensures { result.now ≡ text_at field (view object.now) }
{
    match value_at(object, field) {
        Some(found) => found.as_str().unwrap_or(""),
        None => "",
    }
}

/// The flag under the field, false where there is none.
pub(crate) fn flag_at(object: &Value, field: Field) -> bool
    ensures { result ≡ flag_at field (view object.now) }
{
    match value_at(object, field) {
        Some(found) => found.as_bool().unwrap_or(false),
        None => false,
    }
}

/// The items of the list under the field, none where there is no list.
fn items_at(object: &Value, field: Field) -> &[Value]
    ensures found { items_view result.now ≡ items_at field (view object.now) }
    ensures whole { is_whole (view object.now) ≡ true → items_are_whole (items_view result.now) ≡ true }
{
    match value_at(object, field) {
        Some(list) => items_or_none(list),
        None => &[],
    }
}

/// The items of a list, none where the value is no list.
pub(crate) fn items_or_none(list: &Value) -> &[Value]
    ensures found { items_view result.now ≡ unwrap_or (as_array (view list.now)) no_items }
    ensures whole { is_whole (view list.now) ≡ true → items_are_whole (items_view result.now) ≡ true }
{
    match items(list) {
        Some(items) => items,
        None => &[],
    }
}

/// The services of a file, none where it has no list of them.
pub fn services_of(file: &Value) -> &[Value]
    ensures whole { is_whole (view file.now) ≡ true → items_are_whole (items_view result.now) ≡ true }
    ensures found { items_view result.now ≡ services_of (view file.now) }
{
    match value_at(file, Field::Catalog) {
        Some(catalog) => items_at(catalog, Field::Services),
        None => &[],
    }
}

/// The plans of a service, none where it has no list of them.
pub fn plans_of(service: &Value) -> &[Value]
    ensures whole { is_whole (view service.now) ≡ true → items_are_whole (items_view result.now) ≡ true }
    ensures found { items_view result.now ≡ plans_of (view service.now) }
{
    items_at(service, Field::Plans)
}

/// The modes of a file, by the ids of their plans.
pub fn modes_of(file: &Value) -> Option<&Map<String, Value>>
    ensures { unwrap_or (option_map (λ m. members_view m.now.entries) result) no_members ≡ modes_of (view file.now) }
{
    match value_at(file, Field::Modes) {
        Some(modes) => modes.as_object(),
        None => None,
    }
}
