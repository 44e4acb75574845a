//! Reads a settings file: its first fault, or the settings that it has.

ghost use Rattle.std.specs.Prelude.{◌≡◌, ◌≢◌, IfOk, IfErr, Ok, Err, None, Some};
ghost use Rattle.serde_json.specs.View.{view};
ghost use Rattle.osb_text.specs.ObjectText.{IsReadable};
ghost use Rattle.osb_catalog.specs.Contents.{contents_of};
ghost use Rattle.osb_catalog.specs.Faults.{first_fault, settings_of};

use crate::contents::{read_order_limit, read_plans, read_services};
use crate::fault::SettingsFault;
use crate::field::Field;
use crate::id_positions::IdPositions;
use crate::ids::{has_double_id, plan_ids, service_ids};
use crate::login::{refuses_logins, tokens_at};
use crate::member::services_of;
use crate::missing::{first_left_out, first_missing};
use crate::mode::refuses_modes;
use crate::settings::Settings;
use crate::shown::catalog_text;
use crate::version::refuses_versions;
use osb_text::{TextFault, read_object};
use serde_json::Value;
use std::alloc::Global;

impl Settings {
    /// The settings of a file, or the fault of the lowest number anywhere in it.
    ///
    /// `Memory` comes only where an allocation failed, and then in place of any of these. The time
    /// grows as the file's length times the logarithm of its number of plans, modes and names.
    pub fn read(alloc: Global, file: &[u8]) -> Result<Settings, SettingsFault>
        ensures ok { IfOk result (λ settings. settings_of file.now ≡ Ok settings) }
        ensures err { IfErr result (λ fault. fault ≢ SettingsFault.Memory → settings_of file.now ≡ Err fault) }
    {
        let object = match read_object(alloc, file) {
            Ok(object) => object,
            Err(TextFault::Memory) => return Err(SettingsFault::Memory),
            Err(_) => return Err(SettingsFault::Text),
        };
        check(alloc, object.value())?;
        read_contents(alloc, object.value())
    }
}

/// Refuses an object by its first fault.
fn check(alloc: Global, file: &Value) -> Result<(), SettingsFault>
    ensures ok { IfOk result (λ _. first_fault (view file.now) ≡ None) }
    ensures err { IfErr result (λ fault. fault ≢ SettingsFault.Memory → first_fault (view file.now) ≡ Some fault) }
{
    if let Some(field) = first_missing(file) {
        return Err(SettingsFault::Missing(field));
    }
    if has_double_id(alloc, file)? {
        return Err(SettingsFault::DoubleId);
    }
    if let Some(field) = first_left_out(file) {
        return Err(SettingsFault::LeftOut(field));
    }
    if refuses_versions(alloc, file)? {
        return Err(SettingsFault::Version);
    }
    if refuses_modes(alloc, file)? {
        return Err(SettingsFault::Mode);
    }
    if refuses_logins(file) {
        return Err(SettingsFault::Credential);
    }
    Ok(())
}

/// The settings of an object that has no fault.
fn read_contents(alloc: Global, file: &Value) -> Result<Settings, SettingsFault>
    requires readable { IsReadable (view file.now) }
    requires faultless { first_fault (view file.now) ≡ None }
    ensures ok { IfOk result (λ settings. settings ≡ contents_of (view file.now)) }
    ensures err { IfErr result (λ fault. fault ≡ SettingsFault.Memory) }
{
    let services = services_of(file);
    let service_ids = service_ids(alloc, services)?;
    let plan_ids = plan_ids(alloc, services)?;
    Ok(Settings {
        catalog: catalog_text(alloc, file)?,
        services: read_services(alloc, services)?,
        service_places: IdPositions::new(alloc, service_ids.as_slice())?,
        plans: read_plans(alloc, file, services)?,
        plan_places: IdPositions::new(alloc, plan_ids.as_slice())?,
        order_limit: read_order_limit(file),
        platform_tokens: tokens_at(alloc, file, Field::Platform)?,
        backend_tokens: tokens_at(alloc, file, Field::Backend)?,
    })
}
