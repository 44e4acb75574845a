//! The path of the first number in a file that isn't whole or in range.

ghost use Rattle.std.specs.Prelude.{◌≡◌, IfOk, Some, option_map, string_bytes};
ghost use Rattle.serde_json.specs.View.{view, items_view, members_view};
ghost use Rattle.osb_advice.specs.Paths as spec;

use crate::pieces::shown;
use serde_json::{Map, Value};
use std::alloc::{AllocError, Global};

/// The path in a file. The first name in it has no dot before it.
pub(crate) fn number_path(alloc: Global, file: &Value) -> Result<Option<String>, AllocError>
    ensures { IfOk result (λ path.
        option_map (λ p. string_bytes p) path ≡ spec.number_path (view file.now)) }
{
    match file.as_object() {
        Some(members) => path_in_members(alloc, "", members),
        None => Ok(None),
    }
}

#[cycle(paths)]
fn path_in(alloc: Global, value: &Value) -> Result<Option<String>, AllocError>
    ensures { IfOk result (λ path.
        option_map (λ p. string_bytes p) path ≡ spec.path_in (view value.now)) }
{
    match value {
        Value::Null | Value::Bool(_) | Value::String(_) => Ok(None),
        Value::Number(number) if number.is_f64() => Ok(Some(String::new(alloc))),
        Value::Number(_) => Ok(None),
        Value::Array(items) => path_in_items(alloc, items),
        Value::Object(members) => path_in_members(alloc, ".", members),
    }
}

#[cycle(paths)]
fn path_in_items(alloc: Global, items: &[Value]) -> Result<Option<String>, AllocError>
    ensures { IfOk result (λ path.
        option_map (λ p. string_bytes p) path ≡ spec.path_in_items 0 (items_view items.now)) }
{
    for (at, item) in items.iter().enumerate() {
        if let Some(path) = path_in(alloc, item)? {
            return item_path(alloc, at, path.as_str());
        }
    }
    Ok(None)
}

#[cycle(paths)]
fn path_in_members(
    alloc: Global,
    dot: &str,
    members: &Map<String, Value>,
) -> Result<Option<String>, AllocError>
    ensures { IfOk result (λ path. option_map (λ p. string_bytes p) path
        ≡ spec.path_in_members dot.now (members_view members.now.entries)) }
{
    for (name, member) in members.iter() {
        if let Some(path) = path_in(alloc, member)? {
            return member_path(alloc, dot, name.as_str(), path.as_str());
        }
    }
    Ok(None)
}

fn item_path(alloc: Global, at: usize, path: &str) -> Result<Option<String>, AllocError>
    ensures { IfOk result (λ whole.
        option_map (λ p. string_bytes p) whole ≡ Some (spec.item_path at path.now)) }
{
    let whole = format!(in alloc; "[{at}]{path}")?;
    Ok(Some(whole))
}

fn member_path(
    alloc: Global,
    dot: &str,
    name: &str,
    path: &str,
) -> Result<Option<String>, AllocError>
    ensures { IfOk result (λ whole. option_map (λ p. string_bytes p) whole
        ≡ Some (spec.member_path dot.now name.now path.now)) }
{
    let name = shown(name);
    let whole = format!(in alloc; "{dot}{name}{path}")?;
    Ok(Some(whole))
}
