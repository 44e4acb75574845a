//! The kinds of values that fields may hold, and whether a value is of one of them.

ghost use Rattle.std.specs.Prelude.{◌≡◌};
ghost use Rattle.serde_json.specs.View.{view, items_view, members_view};
ghost use Rattle.osb_catalog.specs.Items.{all_items, all_members};
ghost use Rattle.osb_catalog.specs.Kinds.{fits, is_empty, is_text, is_object_or_null, are_objects, are_some_objects, has_text, is_plain_login, is_login_object, is_maintenance_info, is_timing, is_order_limit};

use crate::field::Field;
use crate::member::value_at;
use osb_text::is_id;
use serde_json::{Map, Value};

/// What a field may hold.
#[derive(Clone, Copy, Debug, Drop, PartialEq, Eq)]
pub enum Kind {
    Object,
    /// An object each of whose members is an object, or null.
    ObjectOfObjects,
    ObjectList,
    NonEmptyObjectList,
    /// An object with the texts `user` and `password`, whose `also`, if it has one, is such an
    /// object too.
    Login,
    /// A text of 1 to 256 bytes without control characters.
    IdText,
    NonEmptyText,
    TextList,
    /// True or false.
    Flag,
    /// A whole number from 1 to 1,000,000.
    OrderLimit,
    /// A whole number from 0.
    WholeNumber,
    /// An object with the text `version`, whose `description`, if it has one, is a text.
    MaintenanceInfo,
    /// `synchronous` or `asynchronous`.
    Timing,
    /// Only `false`.
    False,
    EmptyList,
    /// No value is of this kind.
    Nothing,
}

impl Kind {
    /// Whether the value is of the kind.
    pub(crate) fn fits(self, value: &Value) -> bool
        ensures { result ≡ fits self (view value.now) }
    {
        match self {
            Kind::Object => value.is_object(),
            Kind::ObjectOfObjects => value
                .as_object()
                .is_some_and(|members| are_objects_or_null(members)),
            Kind::ObjectList => value.as_array().is_some_and(|items| are_objects(items)),
            Kind::NonEmptyObjectList => value
                .as_array()
                .is_some_and(|items| are_some_objects(items)),
            Kind::Login => is_login_object(value),
            Kind::IdText => value.as_str().is_some_and(|text| is_id(text)),
            Kind::NonEmptyText => value.as_str().is_some_and(|text| !text.is_empty()),
            Kind::TextList => value.as_array().is_some_and(|items| are_texts(items)),
            Kind::Flag => value.is_boolean(),
            Kind::OrderLimit => value.as_u64().is_some_and(|n| is_order_limit(n)),
            Kind::WholeNumber => value.is_u64(),
            Kind::MaintenanceInfo => is_maintenance_info(value),
            Kind::Timing => value.as_str().is_some_and(|text| is_timing(text)),
            Kind::False => value.as_bool().is_some_and(|flag| !flag),
            Kind::EmptyList => value.as_array().is_some_and(|items| is_empty(items)),
            Kind::Nothing => false,
        }
    }
}

#[tactic(auto, using(crate::proofs::Views::empty_view))]
fn is_empty(items: &Vec<Value>) -> bool
    ensures { result ≡ is_empty (items_view items.now.items) }
{
    items.is_empty()
}

fn are_objects(items: &Vec<Value>) -> bool
    ensures { result ≡ are_objects (items_view items.now.items) }
{
    for item in items {
        if !item.is_object() {
            return false;
        }
    }
    true
}

fn are_some_objects(items: &Vec<Value>) -> bool
    ensures { result ≡ are_some_objects (items_view items.now.items) }
{
    !is_empty(items) && are_objects(items)
}

fn are_texts(items: &Vec<Value>) -> bool
    ensures { result ≡ all_items is_text (items_view items.now.items) }
{
    for item in items {
        if !item.is_string() {
            return false;
        }
    }
    true
}

fn are_objects_or_null(members: &Map<String, Value>) -> bool
    ensures { result ≡ all_members is_object_or_null (members_view members.now.entries) }
{
    for (_, member) in members.iter() {
        if !member.is_null() && !member.is_object() {
            return false;
        }
    }
    true
}

fn has_text(object: &Value, field: Field) -> bool
    ensures { result ≡ has_text field (view object.now) }
{
    value_at(object, field).is_some_and(|found| found.is_string())
}

fn is_plain_login(value: &Value) -> bool
    ensures { result ≡ is_plain_login (view value.now) }
{
    value.is_object() && has_text(value, Field::User) && has_text(value, Field::Password)
}

fn is_login_object(value: &Value) -> bool
    ensures { result ≡ is_login_object (view value.now) }
{
    let also_fits = match value_at(value, Field::Also) {
        Some(also) => is_plain_login(also),
        None => true,
    };
    is_plain_login(value) && also_fits
}

fn is_maintenance_info(value: &Value) -> bool
    ensures { result ≡ is_maintenance_info (view value.now) }
{
    let description_fits = match value_at(value, Field::Description) {
        Some(found) => found.is_string(),
        None => true,
    };
    value.is_object() && has_text(value, Field::Version) && description_fits
}

fn is_timing(text: &str) -> bool
    ensures { result ≡ is_timing text.now }
{
    text == "synchronous" || text == "asynchronous"
}

fn is_order_limit(n: u64) -> bool
    ensures { result ≡ is_order_limit n }
{
    1 <= n && n <= 1_000_000
}
