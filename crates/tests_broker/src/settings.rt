//! Settings that are accepted, and one file for each fault.

use osb_catalog::{BUILT_IN, Settings};
use std::alloc::Global;
use std::test::Fail;
use tests_support::catalogs::{built_in, changed};

#[test]
fn settings_are_read(rt: HostRuntime) -> Result<(), Fail> {
    let settings = built_in(rt.alloc())?;
    let counts = settings.counts();
    drop(settings);
    assert!(rt; counts == (1, 2));
    Ok(())
}

/// A text of the built-in settings, what takes its place, and the fault.
static SETTINGS_FAULTS: [(&str, &str, &str); 7] = [
    (BUILT_IN, "[]", "1 Text"),
    (BUILT_IN, "{}", "2 Missing platform"),
    ("\"id\":\"p-async\"", "\"id\":\"p-sync\"", "3 DoubleId"),
    (
        "\"id\":\"p-sync\"",
        "\"id\":\"p-sync\",\"schemas\":{}",
        "4 LeftOut schemas",
    ),
    ("\"version\":\"1.2.0\"", "\"version\":\"1.2\"", "5 Version"),
    ("\"bindings_retrievable\":true,", "", "6 Mode"),
    ("\"user\":\"platform\"", "\"user\":\"a:b\"", "7 Credential"),
];

/// The fault of a settings file, as text.
fn fault_of(alloc: Global, file: &str) -> Result<String, Fail> {
    match Settings::read(alloc, file.as_bytes()).err() {
        None => Ok(String::new(alloc)),
        Some(fault) => Ok(format!(in alloc; "{fault}")?),
    }
}

/// The fault of the built-in settings with one text in the place of another.
fn fault_with(alloc: Global, from: &str, to: &str) -> Result<String, Fail> {
    let file = changed(alloc, from, to)?;
    fault_of(alloc, file.as_str())
}

#[test]
fn settings_faults(rt: HostRuntime) -> Result<(), Fail> {
    for (from, to, fault) in &SETTINGS_FAULTS {
        assert!(rt;
            fault_with(rt.alloc(), *from, *to)?.as_str() == *fault,
            "{fault}"
        );
    }
    Ok(())
}
