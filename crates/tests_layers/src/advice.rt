//! What `check --explain` has no case of.

use osb_advice::{remarks, shown, wanted};
use osb_catalog::SettingsFault;
use std::test::Fail;

#[test]
fn a_file_without_an_object(rt: HostRuntime) -> Result<(), Fail> {
    let found = remarks(rt.alloc(), b"[{\"also\":1}]")?;
    assert!(rt; found.as_str() == "");
    Ok(())
}

#[test]
fn nothing_is_wanted_without_memory(rt: HostRuntime) -> Result<(), Fail> {
    assert!(rt; wanted(SettingsFault::Memory, None) == "");
    Ok(())
}

#[test]
fn names_as_lines_show_them(rt: HostRuntime) -> Result<(), Fail> {
    assert!(rt; [shown("own plan"), shown("a\nb"), shown("\u{9f}")] == ["own plan", "?", "?"]);
    Ok(())
}
