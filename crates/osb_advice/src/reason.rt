//! The reason why a settings file has no object.

ghost use Rattle.std.specs.Prelude.{◌≡◌, IfOk, Err, Some, string_bytes, option_map};
ghost use Rattle.serde_json.specs.View.{view};
ghost use Rattle.osb_text.specs.Reading.{object_of, value_of};
ghost use Rattle.osb_advice.specs.Unreadable.{IsReason, NamesPosition, NamesPositionIn, number_line};

use crate::paths::number_path;
use osb_text::{TextFault, read_object};
use serde_json::Value;
use std::alloc::{AllocError, Global};

/// Why a file has the fault `Text`, as a line without its end; `None` for a file that has an object. If the file isn't
/// JSON, it names the line in which reading ended, counted from 1, and how many bytes of that line were read.
///
/// An error says that an allocation failed.
pub fn unreadable(alloc: Global, file: &[u8]) -> Result<Option<String>, AllocError>
    ensures { IfOk result
        (λ reason. IsReason file.now (option_map (λ text. string_bytes text) reason)) }
{
    match read_object(alloc, file) {
        Ok(object) => {
            drop(object);
            Ok(None)
        }
        Err(TextFault::NotJson) => not_json(alloc, file),
        Err(TextFault::NotObject) => line(alloc, "not an object"),
        Err(TextFault::Number) => not_whole(alloc, file),
        Err(TextFault::Memory | TextFault::WrongKind) => Err(AllocError),
    }
}

fn line(alloc: Global, text: &str) -> Result<Option<String>, AllocError>
    ensures { IfOk result (λ reason.
        option_map (λ text. string_bytes text) reason ≡ Some text.now) }
{
    let text = String::from_str(alloc, text)?;
    Ok(Some(text))
}

fn not_json(alloc: Global, file: &[u8]) -> Result<Option<String>, AllocError>
    requires { object_of file.now ≡ Err TextFault.NotJson }
    ensures { IfOk result (λ reason.
        NamesPositionIn (option_map (λ text. string_bytes text) reason)) }
{
    match Value::from_slice(alloc, file) {
        Ok(value) => {
            drop(value);
            Ok(None)
        }
        Err(error) if error.is_memory() => Err(AllocError),
        Err(error) => {
            let text = position(alloc, error.line(), error.column())?;
            Ok(Some(text))
        }
    }
}

fn not_whole(alloc: Global, file: &[u8]) -> Result<Option<String>, AllocError>
    ensures { IfOk result (λ reason. option_map (λ text. string_bytes text) reason
        ≡ option_map number_line (value_of file.now)) }
{
    match Value::from_slice(alloc, file) {
        Ok(value) => {
            let text = number_line(alloc, &value);
            drop(value);
            text
        }
        Err(error) if error.is_memory() => Err(AllocError),
        Err(_) => Ok(None),
    }
}

fn number_line(alloc: Global, file: &Value) -> Result<Option<String>, AllocError>
    ensures { IfOk result (λ reason. option_map (λ text. string_bytes text) reason
        ≡ Some (number_line (view file.now))) }
{
    let path = number_path(alloc, file)?;
    let mut text = String::from_str(alloc, "a number isn't whole, or out of range, at ")?;
    if let Some(path) = path {
        text.push_str(path.as_str())?;
    }
    Ok(Some(text))
}

fn position(alloc: Global, line: usize, column: usize) -> Result<String, AllocError>
    ensures { IfOk result (λ text. NamesPosition (string_bytes text)) }
{
    format!(in alloc; "not JSON: line {line}, column {column}")
}
