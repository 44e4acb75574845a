//! Settings to converse over.

use osb_catalog::{BUILT_IN, Settings};
use std::alloc::Global;
use std::test::Fail;

/// The settings of that text.
fn settings_of(alloc: Global, text: &str) -> Result<Settings, Fail> {
    Ok(Settings::read(alloc, text.as_bytes())?)
}

/// The settings that the program has built in.
pub fn built_in(alloc: Global) -> Result<Settings, Fail> {
    settings_of(alloc, BUILT_IN)
}

/// The text of the built-in settings with one text in the place of another.
pub fn changed(alloc: Global, from: &str, to: &str) -> Result<String, Fail> {
    Ok(BUILT_IN.replacen(alloc, from, to, 1)?)
}

/// The built-in settings with one text in the place of another.
pub fn settings_with(alloc: Global, from: &str, to: &str) -> Result<Settings, Fail> {
    let file = changed(alloc, from, to)?;
    settings_of(alloc, file.as_str())
}
