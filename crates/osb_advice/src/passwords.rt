//! Passwords that are guessed easily.

ghost use Rattle.std.specs.Prelude.{◌≡◌, ◌++◌, OnOk, length, string_bytes};
ghost use Rattle.std.specs.Str.{chars};
ghost use Rattle.serde_json.specs.View.{view};
ghost use Rattle.osb_advice.specs.Passwords as spec;

use crate::pieces::push_all;
use osb_catalog::{Field, text_at, value_at};
use serde_json::Value;
use std::alloc::AllocError;

/// Appends a line for each login whose password is guessed easily.
pub(crate) fn push_passwords(text: &mut String, file: &Value) -> Result<(), AllocError>
    ensures { OnOk result (string_bytes text.new
        ≡ string_bytes text.old ++ spec.passwords (view file.now)) }
{
    if let Some(login) = value_at(file, Field::Platform) {
        push_login(text, "platform", "platform.also", login)?;
    }
    if let Some(login) = value_at(file, Field::Backend) {
        push_login(text, "backend", "backend.also", login)?;
    }
    Ok(())
}

/// Of the login, and of its `also`.
fn push_login(text: &mut String, path: &str, also: &str, login: &Value) -> Result<(), AllocError>
    ensures { OnOk result (string_bytes text.new
        ≡ string_bytes text.old ++ spec.login_passwords path.now also.now (view login.now)) }
{
    push_password(text, path, login)?;
    match value_at(login, Field::Also) {
        Some(other) => push_password(text, also, other),
        None => Ok(()),
    }
}

fn push_password(text: &mut String, path: &str, login: &Value) -> Result<(), AllocError>
    ensures { OnOk result (string_bytes text.new
        ≡ string_bytes text.old ++ spec.password_line path.now (view login.now)) }
{
    if !is_weak(text_at(login, Field::Password)) {
        return Ok(());
    }
    push_all(text, &["a password that is easily guessed: ", path, "\n"])
}

fn is_weak(password: &str) -> bool
    ensures { result ≡ spec.is_weak password.now }
{
    characters_of(password) < 12 || password == "correct horse" || password == "battery staple"
}

#[tactic(auto, using(std::proofs::lemmas::Str::chars_from_encodes))]
fn characters_of(text: &str) -> usize
    ensures { result ≡ length (chars text.now) }
{
    text.chars().count()
}
