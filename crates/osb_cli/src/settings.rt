//! The settings that a command is given.

ghost use Rattle.std.specs.Prelude.{◌≡◌, Ok, IfErr, IfOk, option_map};
ghost use Rattle.osb_catalog.specs.Faults.{settings_of};
ghost use Rattle.osb_cli.specs.Files.{AreBytesOf};
ghost use Rattle.osb_cli.specs.Reported.{IsOfText, IsTextOf};
ghost use Rattle.osb_cli.specs.Settings.{AreOfFile, AreSettingsOf, built_in};

use crate::fault::Fault;
use crate::files::NamedFiles;
use crate::input::read_file;
use osb_catalog::{BUILT_IN, Settings, SettingsFault};
use std::alloc::Global;

/// Reads settings from their text.
fn settings_of(alloc: Global, text: &[u8]) -> Result<Settings, Fault<'static>>
    ensures is { IfOk result (λ settings. settings_of text.now ≡ Ok settings) }
    ensures fault { IfErr result (IsOfText (λ it. it ≡ text.now)) }
{
    match Settings::read(alloc, text) {
        Ok(settings) => Ok(settings),
        Err(SettingsFault::Memory) => Err(Fault::OutOfMemory),
        Err(fault) => Err(Fault::Settings(fault)),
    }
}

/// Reads the settings of a file.
pub(crate) fn read_settings<'a, F: NamedFiles>(
    alloc: Global,
    files: &F,
    name: &'a str,
) -> Result<Settings, Fault<'a>>
    ensures are { IfOk result (AreOfFile (F.contents files.now) name.entry.now) }
    ensures fault { IfErr result (IsOfText (AreBytesOf (F.contents files.now) name.entry.now)) }
{
    let text = read_file(alloc, files, name)?;
    settings_of(alloc, text.as_slice())
}

/// The text of the built-in settings.
fn built_in() -> &'static str
    ensures { result.now ≡ built_in }
{
    BUILT_IN
}

/// Reads the settings of a file, or the built-in ones where none is named.
pub(crate) fn settings_or_built_in<'a, F: NamedFiles>(
    alloc: Global,
    files: &F,
    file: Option<&'a str>,
) -> Result<Settings, Fault<'a>>
    ensures are { IfOk result (AreSettingsOf (F.contents files.now)
        (option_map (λ it. it.now) file.entry)) }
    ensures fault { IfErr result (IsOfText (IsTextOf (F.contents files.now)
        (option_map (λ it. it.now) file.entry))) }
{
    match file {
        Some(name) => read_settings(alloc, files, name),
        None => settings_of(alloc, built_in().as_bytes()),
    }
}
