//! Remarks on a settings file that may be accepted and not meant so.

ghost use Rattle.std.specs.Prelude.{◌≡◌, ◌++◌, IfOk, OnOk, string_bytes};
ghost use Rattle.serde_json.specs.View.{view};
ghost use Rattle.osb_advice.specs.Remarks as spec;

use crate::logins::doors_share_a_login;
use crate::names::push_same_names;
use crate::nothing::push_nothing;
use crate::passwords::push_passwords;
use crate::past::push_past;
use crate::spaces::push_spaces;
use crate::timings::push_timings;
use osb_text::{TextFault, read_object};
use serde_json::Value;
use std::alloc::{AllocError, Global};

/// The remarks on a settings file, each a line with its end. The first lines say when the orders of each plan are
/// carried out. Others name the members that the broker reads past, plans of one name, names with a space, a login of
/// both doors, passwords that are guessed easily, and plans whose bindings give nothing. A file that has no object gets
/// none.
///
/// An error says that an allocation failed. The time grows little faster than the file and the text.
pub fn remarks(alloc: Global, file: &[u8]) -> Result<String, AllocError>
    ensures { IfOk result (λ text. string_bytes text ≡ spec.remarks_of file.now) }
{
    let object = match read_object(alloc, file) {
        Ok(object) => object,
        Err(TextFault::Memory) => return Err(AllocError),
        Err(_) => return Ok(String::new(alloc)),
    };
    let text = remarks_on(alloc, object.value());
    drop(object);
    text
}

fn remarks_on(alloc: Global, file: &Value) -> Result<String, AllocError>
    ensures { IfOk result (λ text. string_bytes text ≡ spec.remarks_on (view file.now)) }
{
    let mut text = String::new(alloc);
    push_remarks(alloc, &mut text, file)?;
    Ok(text)
}

fn push_remarks(alloc: Global, text: &mut String, file: &Value) -> Result<(), AllocError>
    ensures { OnOk result (string_bytes text.new
        ≡ string_bytes text.old ++ spec.remarks_on (view file.now)) }
{
    push_timings(text, file)?;
    push_past(alloc, text, file)?;
    push_same_names(alloc, text, file)?;
    push_spaces(text, file)?;
    push_warnings(text, file)
}

/// What is about logins and credentials.
fn push_warnings(text: &mut String, file: &Value) -> Result<(), AllocError>
    ensures { OnOk result (string_bytes text.new
        ≡ string_bytes text.old ++ spec.warnings (view file.now)) }
{
    push_login_line(text, file)?;
    push_passwords(text, file)?;
    push_nothing(text, file)
}

fn push_login_line(text: &mut String, file: &Value) -> Result<(), AllocError>
    ensures { OnOk result (string_bytes text.new
        ≡ string_bytes text.old ++ spec.login_line (view file.now)) }
{
    if !doors_share_a_login(file) {
        return Ok(());
    }
    text.push_str("one login for both doors\n")?;
    Ok(())
}
