//! Where in a settings file a fault is.

ghost use Rattle.std.specs.Prelude.{◌≡◌, IfOk};
ghost use Rattle.serde_json.specs.View.{view, items_view, members_view};
ghost use Rattle.osb_catalog.specs.IdSet.{texts};
ghost use Rattle.osb_catalog.specs.Ids as of_ids;
ghost use Rattle.osb_catalog.specs.Found as spec;

use crate::fault::SettingsFault;
use crate::field::Field;
use crate::ids::{plan_ids, service_ids};
use crate::login::refuses_login;
use crate::member::{flag_at, modes_of, plans_of, services_of, text_at, value_at};
use crate::mode::binds_later;
use crate::table::{
    FieldRule, catalog_rules, file_rules, first_broken, mode_rules, plan_left_out_rules,
    plan_rules, service_left_out_rules, service_rules,
};
use crate::version::has_wrong_version;
use osb_text::{Text, TextFault, read_object};
use serde_json::{Map, Value};
use std::alloc::{AllocError, Global};

/// An object of a settings file. Services are counted from 0, and so are the plans of each.
#[derive(Debug, Drop)]
pub enum Place {
    /// The whole file.
    File,
    Catalog,
    Platform,
    Backend,
    Service(usize),
    /// The service's number, and the plan's.
    Plan(usize, usize),
    /// The member of `modes` of that name.
    Mode(Text),
}

/// Whether the field is the first whose rule the object doesn't keep.
fn breaks_at(rules: &[FieldRule], field: Field, object: &Value) -> bool
    ensures { result ≡ spec.breaks_at rules.now field (view object.now) }
{
    match first_broken(rules, object) {
        Some(found) => found.name() == field.name(),
        None => false,
    }
}

fn stands_twice(ids: &[&str], id: &str) -> bool
    ensures { result ≡ spec.stands_twice (texts ids.now) id.now }
{
    let mut seen = false;
    for other in ids {
        if id == *other {
            if seen {
                return true;
            }
            seen = true;
        }
    }
    false
}

fn is_among(ids: &[&str], id: &str) -> bool
    ensures { result ≡ of_ids.is_among id.now (texts ids.now) }
{
    for other in ids {
        if id == *other {
            return true;
        }
    }
    false
}

fn file_has(fault: SettingsFault, file: &Value) -> bool
    ensures { result ≡ spec.file_has fault (view file.now) }
{
    match fault {
        SettingsFault::Missing(field) => breaks_at(&file_rules(), field, file),
        _ => false,
    }
}

fn catalog_has(fault: SettingsFault, catalog: &Value) -> bool
    ensures { result ≡ spec.catalog_has fault (view catalog.now) }
{
    match fault {
        SettingsFault::Missing(field) => breaks_at(&catalog_rules(), field, catalog),
        _ => false,
    }
}

fn login_has(fault: SettingsFault, login: &Value) -> bool
    ensures { result ≡ spec.login_has fault (view login.now) }
{
    match fault {
        SettingsFault::Credential => refuses_login(login),
        _ => false,
    }
}

/// `ids` are those of all services.
fn service_has(ids: &[&str], fault: SettingsFault, service: &Value) -> bool
    ensures { result ≡ spec.service_has (texts ids.now) fault (view service.now) }
{
    match fault {
        SettingsFault::Missing(field) => breaks_at(&service_rules(), field, service),
        SettingsFault::DoubleId => stands_twice(ids, text_at(service, Field::Id)),
        SettingsFault::LeftOut(field) => breaks_at(&service_left_out_rules(), field, service),
        _ => false,
    }
}

/// `ids` are those of all plans.
fn plan_has(
    alloc: Global,
    file: &Value,
    ids: &[&str],
    fault: SettingsFault,
    service: &Value,
    plan: &Value,
) -> Result<bool, AllocError>
    ensures { IfOk result (λ has. has ≡ spec.plan_has (view file.now) (texts ids.now) fault
        (view service.now) (view plan.now)) }
{
    Ok(match fault {
        SettingsFault::Missing(field) => breaks_at(&plan_rules(), field, plan),
        SettingsFault::DoubleId => stands_twice(ids, text_at(plan, Field::Id)),
        SettingsFault::LeftOut(field) => breaks_at(&plan_left_out_rules(), field, plan),
        SettingsFault::Version => has_wrong_version(alloc, plan)?,
        SettingsFault::Mode => {
            !flag_at(service, Field::BindingsRetrievable) && binds_later(file, plan)
        }
        _ => false,
    })
}

/// `ids` are those of all plans.
fn mode_has(ids: &[&str], fault: SettingsFault, name: &str, mode: &Value) -> bool
    ensures { result ≡ spec.mode_has (texts ids.now) fault name.now (view mode.now) }
{
    match fault {
        SettingsFault::Missing(field) => breaks_at(&mode_rules(), field, mode),
        SettingsFault::Mode => !mode.is_null() && !is_among(ids, name),
        _ => false,
    }
}

fn first_service(ids: &[&str], fault: SettingsFault, services: &[Value]) -> Option<Place>
    ensures { result ≡ spec.first_place (spec.service_place (texts ids.now) fault) 0
        (items_view services.now) }
{
    for (at, service) in services.iter().enumerate() {
        if service_has(ids, fault, service) {
            return Some(Place::Service(at));
        }
    }
    None
}

/// The first of the service's plans that has the fault; `number` is the service's.
fn plan_of_service(
    alloc: Global,
    file: &Value,
    ids: &[&str],
    fault: SettingsFault,
    number: usize,
    service: &Value,
) -> Result<Option<Place>, AllocError>
    ensures { IfOk result (λ place. place ≡ spec.place_in_service (view file.now) (texts ids.now)
        fault number (view service.now)) }
{
    for (at, plan) in plans_of(service).iter().enumerate() {
        if plan_has(alloc, file, ids, fault, service, plan)? {
            return Ok(Some(Place::Plan(number, at)));
        }
    }
    Ok(None)
}

fn first_plan(
    alloc: Global,
    file: &Value,
    ids: &[&str],
    fault: SettingsFault,
    services: &[Value],
) -> Result<Option<Place>, AllocError>
    ensures { IfOk result (λ place. place ≡ spec.first_place (spec.place_in_service (view file.now)
        (texts ids.now) fault) 0 (items_view services.now)) }
{
    for (at, service) in services.iter().enumerate() {
        let found = plan_of_service(alloc, file, ids, fault, at, service)?;
        if found.is_some() {
            return Ok(found);
        }
    }
    Ok(None)
}

fn first_mode(
    alloc: Global,
    ids: &[&str],
    fault: SettingsFault,
    modes: &Map<String, Value>,
) -> Result<Option<Place>, AllocError>
    ensures { IfOk result (λ place. place ≡ spec.first_named_place (spec.mode_place (texts ids.now)
        fault) (members_view modes.now.entries)) }
{
    for (name, mode) in modes.iter() {
        if mode_has(ids, fault, name.as_str(), mode) {
            let name = String::from_str(alloc, name.as_str())?;
            return Ok(Some(Place::Mode(Text::from(name))));
        }
    }
    Ok(None)
}

/// Of the objects that have a name of their own.
fn first_named(fault: SettingsFault, file: &Value) -> Option<Place>
    ensures { result ≡ spec.first_named fault (view file.now) }
{
    if file_has(fault, file) {
        return Some(Place::File);
    }
    if value_at(file, Field::Catalog).is_some_and(|catalog| catalog_has(fault, catalog)) {
        return Some(Place::Catalog);
    }
    if value_at(file, Field::Platform).is_some_and(|login| login_has(fault, login)) {
        return Some(Place::Platform);
    }
    if value_at(file, Field::Backend).is_some_and(|login| login_has(fault, login)) {
        return Some(Place::Backend);
    }
    None
}

/// Of the plans and the modes; `ids` are those of all plans.
fn first_planned(
    alloc: Global,
    fault: SettingsFault,
    file: &Value,
    ids: &[&str],
) -> Result<Option<Place>, AllocError>
    ensures { IfOk result (λ place. place ≡ spec.first_planned (texts ids.now) fault
        (view file.now)) }
{
    let found = first_plan(alloc, file, ids, fault, services_of(file))?;
    if found.is_some() {
        return Ok(found);
    }
    match modes_of(file) {
        Some(modes) => first_mode(alloc, ids, fault, modes),
        None => Ok(None),
    }
}

/// Of the services.
fn first_of_services(
    alloc: Global,
    fault: SettingsFault,
    file: &Value,
) -> Result<Option<Place>, AllocError>
    ensures { IfOk result (λ place. place ≡ spec.first_of_services fault (view file.now)) }
{
    let services = services_of(file);
    let ids = service_ids(alloc, services)?;
    Ok(first_service(&ids, fault, services))
}

/// Of the plans and the modes.
fn first_of_plans(
    alloc: Global,
    fault: SettingsFault,
    file: &Value,
) -> Result<Option<Place>, AllocError>
    ensures { IfOk result (λ place. place ≡ spec.first_of_plans fault (view file.now)) }
{
    let ids = plan_ids(alloc, services_of(file))?;
    first_planned(alloc, fault, file, &ids)
}

fn id_position_in(
    alloc: Global,
    fault: SettingsFault,
    file: &Value,
) -> Result<Option<Place>, AllocError>
    ensures { IfOk result (λ place. place ≡ spec.id_position_in fault (view file.now)) }
{
    let named = first_named(fault, file);
    if named.is_some() {
        return Ok(named);
    }
    let service = first_of_services(alloc, fault, file)?;
    if service.is_some() {
        return Ok(service);
    }
    first_of_plans(alloc, fault, file)
}

/// The first object of a settings file that has the fault; of two that have one id, the first. There is
/// none for `Text` and `Memory`, and for a fault that isn't the file's.
///
/// An error says that an allocation failed. The time grows as the file's length; with `DoubleId` and
/// `Mode` as the number of its plans times that of its plans and modes.
pub fn place_of(
    alloc: Global,
    fault: SettingsFault,
    file: &[u8],
) -> Result<Option<Place>, AllocError>
    ensures { IfOk result (λ place. place ≡ spec.place_of fault file.now) }
{
    let object = match read_object(alloc, file) {
        Ok(object) => object,
        Err(TextFault::Memory) => return Err(AllocError),
        Err(_) => return Ok(None),
    };
    let place = id_position_in(alloc, fault, object.value());
    drop(object);
    place
}
