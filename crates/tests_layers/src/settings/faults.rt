//! Names, numbers and places that no `check` prints.

use osb_catalog::{BUILT_IN, Field, SettingsFault, place_of};
use std::alloc::Global;
use std::test::Fail;

fn has_numbers() -> bool {
    SettingsFault::Text.number() == 1 && SettingsFault::Memory.number() == 8
}

fn has_fields() -> bool {
    SettingsFault::Missing(Field::Id).field() == Some(Field::Id)
        && SettingsFault::Mode.field().is_none()
}

fn has_names() -> bool {
    SettingsFault::LeftOut(Field::Schemas).name() == "LeftOut"
        && Field::MaximumPollingDuration.name() == "maximum_polling_duration"
}

#[test]
fn names_of_faults(rt: HostRuntime) -> Result<(), Fail> {
    assert!(rt; has_numbers() && has_fields() && has_names());
    assert!(rt; SettingsFault::Memory.to_string(rt.alloc())?.as_str() == "8 Memory");
    Ok(())
}

/// Whether the built-in settings have a place of this fault.
fn has_place(alloc: Global, fault: SettingsFault) -> Result<bool, Fail> {
    let place = place_of(alloc, fault, BUILT_IN.as_bytes())?;
    let is_there = place.is_some();
    drop(place);
    Ok(is_there)
}

/// A fault that the file doesn't have is nowhere in it.
#[test]
fn no_place_of_another_fault(rt: HostRuntime) -> Result<(), Fail> {
    assert!(rt; !has_place(rt.alloc(), SettingsFault::Version)?);
    Ok(())
}
