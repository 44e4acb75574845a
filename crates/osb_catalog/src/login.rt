//! The logins of platform and backend: whether they can be used, and their tokens.

ghost use Rattle.std.specs.Prelude.{◌≡◌, IfOk};
ghost use Rattle.serde_json.specs.View.{view};
ghost use Rattle.osb_catalog.specs.Logins.{has_colon, is_user, is_password, refuses_plain_login, refuses_login, refuses_login_at, refuses_logins, token, token_of_login, tokens_of_login, tokens_at};

use crate::field::Field;
use crate::member::{text_at, value_at};
use base64::engine::general_purpose::STANDARD;
use osb_text::{Text, has_no_controls};
use serde_json::Value;
use std::alloc::{AllocError, Global};

/// Whether a user or password, of the platform or of the backend, is not usable.
pub(crate) fn refuses_logins(file: &Value) -> bool
    ensures { result ≡ refuses_logins (view file.now) }
{
    refuses_login_at(file, Field::Platform) || refuses_login_at(file, Field::Backend)
}

fn refuses_login_at(file: &Value, door: Field) -> bool
    ensures { result ≡ refuses_login_at door (view file.now) }
{
    match value_at(file, door) {
        Some(login) => refuses_login(login),
        None => false,
    }
}

/// Whether a user or password of the login, or of its `also`, is not usable.
pub(crate) fn refuses_login(login: &Value) -> bool
    ensures { result ≡ refuses_login (view login.now) }
{
    refuses_plain_login(login)
        || value_at(login, Field::Also).is_some_and(|also| refuses_plain_login(also))
}

fn refuses_plain_login(login: &Value) -> bool
    ensures { result ≡ refuses_plain_login (view login.now) }
{
    !is_user(text_at(login, Field::User)) || !is_password(text_at(login, Field::Password))
}

/// A user has no colon: the first one ends it (RFC 7617, section 2).
fn is_user(user: &str) -> bool
    ensures { result ≡ is_user user.now }
{
    is_password(user) && !has_colon(user)
}

fn is_password(password: &str) -> bool
    ensures { result ≡ is_password password.now }
{
    !password.is_empty() && password.len() <= 256 && has_no_controls(password)
}

fn has_colon(text: &str) -> bool
    ensures { result ≡ has_colon text.now }
{
    text.as_bytes().iter().any(|byte| *byte == b':')
}

/// The tokens of the login under the field: its own, and behind it that of its `also`.
pub(crate) fn tokens_at(alloc: Global, file: &Value, door: Field) -> Result<Vec<Text>, AllocError>
    ensures { IfOk result (λ tokens. tokens.items ≡ tokens_at door (view file.now)) }
{
    match value_at(file, door) {
        Some(login) => tokens_of_login(alloc, login),
        None => Ok(Vec::new(alloc)),
    }
}

fn tokens_of_login(alloc: Global, login: &Value) -> Result<Vec<Text>, AllocError>
    ensures { IfOk result (λ tokens. tokens.items ≡ tokens_of_login (view login.now)) }
{
    let mut tokens = Vec::new(alloc);
    tokens.push(token_of_login(alloc, login)?)?;
    if let Some(also) = value_at(login, Field::Also) {
        tokens.push(token_of_login(alloc, also)?)?;
    }
    Ok(tokens)
}

fn token_of_login(alloc: Global, login: &Value) -> Result<Text, AllocError>
    ensures { IfOk result (λ t. t ≡ token_of_login (view login.now)) }
{
    token(
        alloc,
        text_at(login, Field::User),
        text_at(login, Field::Password),
    )
}

/// User, colon and password in padded standard base64 (RFC 7617, section 2).
fn token(alloc: Global, user: &str, password: &str) -> Result<Text, AllocError>
    ensures { IfOk result (λ t. t ≡ token user.now password.now) }
{
    let mut pair = String::from_str(alloc, user)?;
    pair.push_str(":")?;
    pair.push_str(password)?;
    let encoded = STANDARD.encode(alloc, pair.as_bytes())?;
    Ok(Text::from(encoded))
}
