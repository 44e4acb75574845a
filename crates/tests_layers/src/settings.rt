mod contents;
mod faults;

use osb_catalog::BUILT_IN;
use std::alloc::Global;
use std::test::Fail;

/// A text of the built-in settings, what takes its place, and what is reported of the outcome.
type Case = (&'static str, &'static str, &'static str);

/// The built-in settings with `to` at the first place of `from`.
fn changed(alloc: Global, file: &str, from: &str, to: &str) -> Result<String, Fail> {
    file.find(from).ok_or("a change finds nothing")?;
    Ok(file.replacen(alloc, from, to, 1)?)
}

/// The built-in settings with all of the changes.
pub(crate) fn changed_by(alloc: Global, changes: &[(&str, &str)]) -> Result<String, Fail> {
    let mut file = String::from_str(alloc, BUILT_IN)?;
    for (from, to) in changes {
        file = changed(alloc, file.as_str(), *from, *to)?;
    }
    Ok(file)
}
