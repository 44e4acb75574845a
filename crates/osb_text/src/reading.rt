//! Reads the JSON object that a text has.

ghost use Rattle.std.specs.Prelude.{◌≡◌, ◌≢◌, IfOk, IfErr, Ok, Err};
ghost use Rattle.serde_json.specs.View.{view, items_view, members_view};
ghost use Rattle.serde_json.specs.Written.{has_float, items_have_float, members_have_float};
ghost use Rattle.osb_text.specs.Object.{object_data};
ghost use Rattle.osb_text.specs.ObjectText.{is_object_text};
ghost use Rattle.osb_text.specs.Reading.{object_of};

use crate::fault::TextFault;
use crate::object::Object;
use crate::value::compact_text;
use serde_json::{Map, Value};
use std::alloc::{AllocError, Global};

/// Reads a JSON object (RFC 8259) whose numbers are whole. Of a doubled name the last value
/// counts. The fault is the first of NotJson, NotObject and Number, or Memory.
#[tactic(auto, using(crate::proofs::Ranges::whole_read, crate::proofs::Utf8::utf8_test))]
pub fn read_object(alloc: Global, bytes: &[u8]) -> Result<Object, TextFault>
    ensures ok { IfOk result (λ object. object_of bytes.now ≡ Ok (object_data object)) }
    ensures err { IfErr result (λ fault. fault ≢ TextFault.Memory → object_of bytes.now ≡ Err fault) }
{
    let value = match Value::from_slice(alloc, bytes) {
        Ok(value) => value,
        Err(error) if error.is_memory() => return Err(TextFault::Memory),
        Err(_) => return Err(TextFault::NotJson),
    };
    if !value.is_object() {
        return Err(TextFault::NotObject);
    }
    if holds_float(&value) {
        return Err(TextFault::Number);
    }
    Ok(Object { value })
}

/// Whether the text has an object, and is its compact text.
pub fn is_object_text(alloc: Global, text: &str) -> Result<bool, AllocError>
    ensures { IfOk result (λ b. b ≡ is_object_text text.now) }
{
    match read_object(alloc, text.as_bytes()) {
        Ok(object) => {
            let compact = compact_text(alloc, object.value())?;
            Ok(text == compact.as_str())
        }
        Err(fault) if fault == TextFault::Memory => Err(AllocError),
        Err(_) => Ok(false),
    }
}

// In a value that was read, a number that isn't whole, or out of range, is a float.
#[cycle(floats)]
fn holds_float(value: &Value) -> bool
    ensures { result ≡ has_float (view value.now) }
{
    match value {
        Value::Null | Value::Bool(_) | Value::String(_) => false,
        Value::Number(number) => number.is_f64(),
        Value::Array(items) => items_hold_float(items),
        Value::Object(members) => members_hold_float(members),
    }
}

#[cycle(floats)]
fn items_hold_float(items: &[Value]) -> bool
    ensures { result ≡ items_have_float (items_view items.now) }
{
    for item in items {
        if holds_float(item) {
            return true;
        }
    }
    false
}

#[cycle(floats)]
fn members_hold_float(members: &Map<String, Value>) -> bool
    ensures { result ≡ members_have_float (members_view members.now.entries) }
{
    for (_, member) in members.iter() {
        if holds_float(member) {
            return true;
        }
    }
    false
}
