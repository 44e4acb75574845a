//! JSON objects, owned or borrowed, with look-ups of their members.

ghost use Rattle.std.specs.Prelude.{◌≡◌, ◌↔◌, true, is_some, IfOk, IfSome, IsSome, IsOkUnless, string_bytes};
ghost use Rattle.serde_json.specs.Find.{as_array, as_bool, as_object, as_str};
ghost use Rattle.serde_json.specs.View.{view, items_view};
ghost use Rattle.serde_json.specs.Written.{compact_text};
ghost use Rattle.osb_text.specs.Member.{as_whole, field, object_value, Gives};
ghost use Rattle.osb_text.specs.Whole.{is_whole, items_are_whole};

use crate::fault::TextFault;
use crate::value::{compact_text, items, member};
use serde_json::Value;
use std::alloc::Global;

/// A JSON object whose numbers are all whole and within -2^63 to 2^64 - 1.
#[derive(Debug, Drop)]
pub struct Object {
    pub(crate) value: Value,
    pub ghost is_object: { is_some (as_object (view value)) ≡ true },
    pub ghost whole: { is_whole (view value) ≡ true },
}

/// An object in another one: borrowed, with the same look-ups.
#[derive(Clone, Copy, Debug, Drop)]
pub struct ObjectRef<'a> {
    value: &'a Value,
    pub ghost is_object: { is_some (as_object (view value.now)) ≡ true },
    pub ghost whole: { is_whole (view value.now) ≡ true },
}

impl<'a> ObjectRef<'a> {
    ghost use Rattle.osb_text.specs.Object.{ref_data};

    /// A value of an object as an object, if it is one.
    pub fn of(value: &'a Value) -> Option<ObjectRef<'a>>
        requires { is_whole (view value.now) ≡ true }
        ensures is { IsSome result ↔ (is_some (as_object (view value.now)) ≡ true) }
        ensures same { IfSome result (λ o. ref_data o ≡ view value.now) }
    {
        if value.is_object() {
            Some(ObjectRef { value })
        } else {
            None
        }
    }

    /// The object as a value of `serde_json`.
    pub fn value(&self) -> &'a Value
        ensures same { view result.now ≡ ref_data self.now }
        ensures object { is_some (as_object (view result.now)) ≡ true }
        ensures whole { is_whole (view result.now) ≡ true }
    {
        self.value
    }

    /// The text of a member.
    pub fn text(&self, name: &str) -> Result<Option<&'a str>, TextFault>
        ensures { Gives (λ text. text.now) result (field as_str name.now (ref_data self.now)) }
    {
        match member(self.value, name) {
            None => Ok(None),
            Some(found) => match found.as_str() {
                Some(text) => Ok(Some(text)),
                None => Err(TextFault::WrongKind),
            },
        }
    }

    /// The truth value of a member.
    pub fn flag(&self, name: &str) -> Result<Option<bool>, TextFault>
        ensures { result ≡ field as_bool name.now (ref_data self.now) }
    {
        match member(self.value, name) {
            None => Ok(None),
            Some(found) => match found.as_bool() {
                Some(flag) => Ok(Some(flag)),
                None => Err(TextFault::WrongKind),
            },
        }
    }

    /// The number of a member. A negative number is of another kind.
    pub fn whole(&self, name: &str) -> Result<Option<u64>, TextFault>
        ensures { result ≡ field as_whole name.now (ref_data self.now) }
    {
        match member(self.value, name) {
            None => Ok(None),
            Some(found) => match found.as_u64() {
                Some(number) => Ok(Some(number)),
                None => Err(TextFault::WrongKind),
            },
        }
    }

    /// The items of a member. `ObjectRef::of` reads an item that is an object.
    pub fn list(&self, name: &str) -> Result<Option<&'a [Value]>, TextFault>
        ensures found { Gives (λ vs. items_view vs.now) result
            (field as_array name.now (ref_data self.now)) }
        ensures whole { IfOk result (λ o. IfSome o
            (λ vs. items_are_whole (items_view vs.now) ≡ true)) }
    {
        match member(self.value, name) {
            None => Ok(None),
            Some(found) => match items(found) {
                Some(items) => Ok(Some(items)),
                None => Err(TextFault::WrongKind),
            },
        }
    }

    /// The object that a member is.
    pub fn object(&self, name: &str) -> Result<Option<ObjectRef<'a>>, TextFault>
        ensures { Gives ref_data result (field object_value name.now (ref_data self.now)) }
    {
        match member(self.value, name) {
            None => Ok(None),
            Some(found) => match ObjectRef::of(found) {
                Some(object) => Ok(Some(object)),
                None => Err(TextFault::WrongKind),
            },
        }
    }

    /// The compact text: no spaces, and names in byte order. Only memory can fail.
    pub fn compact(&self, alloc: Global) -> Result<String, TextFault>
        ensures text { IfOk result (λ text. string_bytes text ≡ compact_text (ref_data self.now)) }
        ensures memory { IsOkUnless result TextFault.Memory }
    {
        let text = compact_text(alloc, self.value)?;
        Ok(text)
    }
}

impl Object {
    ghost use Rattle.osb_text.specs.Object.{object_data, ref_data};

    /// The object, borrowed.
    pub fn as_object_ref(&self) -> ObjectRef<'_>
        ensures { ref_data result ≡ object_data self.now }
    {
        ObjectRef { value: &self.value }
    }

    /// The object as a value of `serde_json`.
    pub fn value(&self) -> &Value
        ensures same { view result.now ≡ object_data self.now }
        ensures object { is_some (as_object (view result.now)) ≡ true }
        ensures whole { is_whole (view result.now) ≡ true }
    {
        &self.value
    }

    /// The text of a member.
    pub fn text(&self, name: &str) -> Result<Option<&str>, TextFault>
        ensures { Gives (λ text. text.now) result (field as_str name.now (object_data self.now)) }
    {
        self.as_object_ref().text(name)
    }

    /// The truth value of a member.
    pub fn flag(&self, name: &str) -> Result<Option<bool>, TextFault>
        ensures { result ≡ field as_bool name.now (object_data self.now) }
    {
        self.as_object_ref().flag(name)
    }

    /// The number of a member. A negative number is of another kind.
    pub fn whole(&self, name: &str) -> Result<Option<u64>, TextFault>
        ensures { result ≡ field as_whole name.now (object_data self.now) }
    {
        self.as_object_ref().whole(name)
    }

    /// The items of a member. `ObjectRef::of` reads an item that is an object.
    pub fn list(&self, name: &str) -> Result<Option<&[Value]>, TextFault>
        ensures found { Gives (λ vs. items_view vs.now) result
            (field as_array name.now (object_data self.now)) }
        ensures whole { IfOk result (λ o. IfSome o
            (λ vs. items_are_whole (items_view vs.now) ≡ true)) }
    {
        self.as_object_ref().list(name)
    }

    /// The object that a member is.
    pub fn object(&self, name: &str) -> Result<Option<ObjectRef<'_>>, TextFault>
        ensures { Gives ref_data result (field object_value name.now (object_data self.now)) }
    {
        self.as_object_ref().object(name)
    }

    /// The compact text: no spaces, and names in byte order. Only memory can fail.
    pub fn compact(&self, alloc: Global) -> Result<String, TextFault>
        ensures text { IfOk result (λ text. string_bytes text ≡ compact_text (object_data self.now)) }
        ensures memory { IsOkUnless result TextFault.Memory }
    {
        self.as_object_ref().compact(alloc)
    }
}
