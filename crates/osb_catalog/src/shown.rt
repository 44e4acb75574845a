//! Writes the text of the catalog that a platform is shown.

ghost use Rattle.std.specs.Prelude.{◌≡◌, ◌++◌, [], codes, IfOk, OnOk, true, false, string_bytes};
ghost use Rattle.serde_json.specs.View.{view, items_view};
ghost use Rattle.serde_json.specs.Written.{compact_text};
ghost use Rattle.osb_text.specs.Whole.{is_whole, items_are_whole};
ghost use Rattle.osb_catalog.specs.declared.field.Field.TheVariants as the;
ghost use Rattle.osb_catalog.specs.Fields.{value_at};
ghost use Rattle.osb_catalog.specs.Catalog.{shown, shown_list, shown_in_maintenance_info, shown_in_plan, shown_in_service, shown_in_catalog, catalog_text};
ghost use Rattle.osb_catalog.specs.Pieces.{member_text, piece, pieces, whole_pieces, item_pieces, joined_by_commas, enclosed};

use crate::field::Field;
use crate::member::{items_or_none, value_at};
use osb_text::{Text, compact_text};
use serde_json::Value;
use std::alloc::{AllocError, Global};

/// The body that answers a request for the catalog: compact JSON, its names in byte order.
pub(crate) fn catalog_text(alloc: Global, file: &Value) -> Result<Text, AllocError>
    requires { is_whole (view file.now) ≡ true }
    ensures { IfOk result (λ t. t ≡ catalog_text (view file.now)) }
{
    match value_at(file, Field::Catalog) {
        Some(catalog) => shown_catalog(alloc, catalog),
        None => Text::from_str(alloc, "{}"),
    }
}

fn shown_catalog(alloc: Global, catalog: &Value) -> Result<Text, AllocError>
    requires { is_whole (view catalog.now) ≡ true }
    ensures { IfOk result (λ t. t ≡ compact_text (shown shown_in_catalog (view catalog.now))) }
{
    let members = catalog_members(alloc, catalog)?;
    object_text(alloc, members.as_slice())
}

fn catalog_members(alloc: Global, catalog: &Value) -> Result<Vec<Text>, AllocError>
    requires { is_whole (view catalog.now) ≡ true }
    ensures { IfOk result (λ ms. ms.items ≡ pieces shown_in_catalog (view catalog.now)) }
{
    let mut members = Vec::new(alloc);
    if let Some(services) = value_at(catalog, Field::Services) {
        let text = shown_services(alloc, services)?;
        members.push(member_text(alloc, Field::Services, text.as_str())?)?;
    }
    Ok(members)
}

#[tactic(auto, using(crate::proofs::CatalogTexts::list_of_pieces))]
fn shown_services(alloc: Global, list: &Value) -> Result<Text, AllocError>
    requires { is_whole (view list.now) ≡ true }
    ensures { IfOk result (λ t. t ≡ compact_text (shown_list shown_in_service (view list.now))) }
{
    let texts = service_texts(alloc, items_or_none(list))?;
    list_text(alloc, texts.as_slice())
}

fn service_texts(alloc: Global, services: &[Value]) -> Result<Vec<Text>, AllocError>
    requires { items_are_whole (items_view services.now) ≡ true }
    ensures { IfOk result (λ ts. ts.items ≡ item_pieces (shown shown_in_service) (items_view services.now)) }
{
    let mut texts = Vec::new(alloc);
    for service in services {
        texts.push(shown_service(alloc, service)?)?;
    }
    Ok(texts)
}

fn shown_service(alloc: Global, service: &Value) -> Result<Text, AllocError>
    requires { is_whole (view service.now) ≡ true }
    ensures { IfOk result (λ t. t ≡ compact_text (shown shown_in_service (view service.now))) }
{
    let members = service_members(alloc, service)?;
    object_text(alloc, members.as_slice())
}

fn service_members(alloc: Global, service: &Value) -> Result<Vec<Text>, AllocError>
    requires { is_whole (view service.now) ≡ true }
    ensures { IfOk result (λ ms. ms.items ≡ pieces shown_in_service (view service.now)) }
{
    let before_plans = [
        Field::AllowContextUpdates,
        Field::Bindable,
        Field::BindingsRetrievable,
        Field::Description,
        Field::Id,
        Field::InstancesRetrievable,
        Field::Metadata,
        Field::Name,
        Field::PlanUpdateable,
    ];
    let mut members = Vec::new(alloc);
    push_whole(alloc, &mut members, &before_plans, service)?;
    push_plans(alloc, &mut members, service)?;
    push_whole(alloc, &mut members, &[Field::Tags], service)?;
    Ok(members)
}

fn push_plans(alloc: Global, members: &mut Vec<Text>, service: &Value) -> Result<(), AllocError>
    requires { is_whole (view service.now) ≡ true }
    ensures { OnOk result (members.new.items ≡ members.old.items ++ piece (shown_list shown_in_plan) the.Plans (value_at the.Plans (view service.now))) }
{
    if let Some(plans) = value_at(service, Field::Plans) {
        let text = shown_plans(alloc, plans)?;
        members.push(member_text(alloc, Field::Plans, text.as_str())?)?;
    }
    Ok(())
}

#[tactic(auto, using(crate::proofs::CatalogTexts::list_of_pieces))]
fn shown_plans(alloc: Global, list: &Value) -> Result<Text, AllocError>
    requires { is_whole (view list.now) ≡ true }
    ensures { IfOk result (λ t. t ≡ compact_text (shown_list shown_in_plan (view list.now))) }
{
    let texts = plan_texts(alloc, items_or_none(list))?;
    list_text(alloc, texts.as_slice())
}

fn plan_texts(alloc: Global, plans: &[Value]) -> Result<Vec<Text>, AllocError>
    requires { items_are_whole (items_view plans.now) ≡ true }
    ensures { IfOk result (λ ts. ts.items ≡ item_pieces (shown shown_in_plan) (items_view plans.now)) }
{
    let mut texts = Vec::new(alloc);
    for plan in plans {
        texts.push(shown_plan(alloc, plan)?)?;
    }
    Ok(texts)
}

fn shown_plan(alloc: Global, plan: &Value) -> Result<Text, AllocError>
    requires { is_whole (view plan.now) ≡ true }
    ensures { IfOk result (λ t. t ≡ compact_text (shown shown_in_plan (view plan.now))) }
{
    let members = plan_members(alloc, plan)?;
    object_text(alloc, members.as_slice())
}

fn plan_members(alloc: Global, plan: &Value) -> Result<Vec<Text>, AllocError>
    requires { is_whole (view plan.now) ≡ true }
    ensures { IfOk result (λ ms. ms.items ≡ pieces shown_in_plan (view plan.now)) }
{
    let before_info = [Field::Bindable, Field::Description, Field::Free, Field::Id];
    let after_info = [
        Field::MaximumPollingDuration,
        Field::Metadata,
        Field::Name,
        Field::PlanUpdateable,
    ];
    let mut members = Vec::new(alloc);
    push_whole(alloc, &mut members, &before_info, plan)?;
    push_maintenance_info(alloc, &mut members, plan)?;
    push_whole(alloc, &mut members, &after_info, plan)?;
    Ok(members)
}

fn push_maintenance_info(
    alloc: Global,
    members: &mut Vec<Text>,
    plan: &Value,
) -> Result<(), AllocError>
    requires { is_whole (view plan.now) ≡ true }
    ensures { OnOk result (members.new.items ≡ members.old.items ++ piece (shown shown_in_maintenance_info) the.MaintenanceInfo (value_at the.MaintenanceInfo (view plan.now))) }
{
    if let Some(info) = value_at(plan, Field::MaintenanceInfo) {
        let text = shown_maintenance_info(alloc, info)?;
        members.push(member_text(alloc, Field::MaintenanceInfo, text.as_str())?)?;
    }
    Ok(())
}

fn shown_maintenance_info(alloc: Global, info: &Value) -> Result<Text, AllocError>
    requires { is_whole (view info.now) ≡ true }
    ensures { IfOk result (λ t. t ≡ compact_text (shown shown_in_maintenance_info (view info.now))) }
{
    let members = maintenance_info_members(alloc, info)?;
    object_text(alloc, members.as_slice())
}

fn maintenance_info_members(alloc: Global, info: &Value) -> Result<Vec<Text>, AllocError>
    requires { is_whole (view info.now) ≡ true }
    ensures { IfOk result (λ ms. ms.items ≡ pieces shown_in_maintenance_info (view info.now)) }
{
    let mut members = Vec::new(alloc);
    push_whole(
        alloc,
        &mut members,
        &[Field::Description, Field::Version],
        info,
    )?;
    Ok(members)
}

/// Adds the members that the object has under the fields, each whole.
fn push_whole(
    alloc: Global,
    members: &mut Vec<Text>,
    fields: &[Field],
    object: &Value,
) -> Result<(), AllocError>
    requires { is_whole (view object.now) ≡ true }
    ensures { OnOk result (members.new.items ≡ members.old.items ++ whole_pieces fields.now (view object.now)) }
{
    for field in fields {
        push_member(alloc, members, *field, object)?;
    }
    Ok(())
}

fn push_member(
    alloc: Global,
    members: &mut Vec<Text>,
    field: Field,
    object: &Value,
) -> Result<(), AllocError>
    requires { is_whole (view object.now) ≡ true }
    ensures { OnOk result (members.new.items ≡ members.old.items ++ piece (λ d. d) field (value_at field (view object.now))) }
{
    if let Some(found) = value_at(object, field) {
        let text = compact(alloc, found)?;
        members.push(member_text(alloc, field, text.as_str())?)?;
    }
    Ok(())
}

/// The compact text of a value.
pub(crate) fn compact(alloc: Global, value: &Value) -> Result<Text, AllocError>
    requires { is_whole (view value.now) ≡ true }
    ensures { IfOk result (λ t. t ≡ compact_text (view value.now)) }
{
    let text = compact_text(alloc, value)?;
    Ok(Text::from(text))
}

/// `"NAME":TEXT`. No name of a field has a character that JSON escapes.
fn member_text(alloc: Global, field: Field, text: &str) -> Result<Text, AllocError>
    ensures { IfOk result (λ t. t ≡ member_text field text.now) }
{
    let mut member = String::from_str(alloc, "\"")?;
    member.push_str(field.name())?;
    member.push_str("\":")?;
    member.push_str(text)?;
    Ok(Text::from(member))
}

fn object_text(alloc: Global, members: &[Text]) -> Result<Text, AllocError>
    ensures { IfOk result (λ t. t ≡ enclosed (codes "{") members.now (codes "}")) }
{
    enclosed(alloc, "{", members, "}")
}

fn list_text(alloc: Global, items: &[Text]) -> Result<Text, AllocError>
    ensures { IfOk result (λ t. t ≡ enclosed (codes "[") items.now (codes "]")) }
{
    enclosed(alloc, "[", items, "]")
}

/// The texts with commas between them, and what comes before and after.
fn enclosed(alloc: Global, before: &str, texts: &[Text], after: &str) -> Result<Text, AllocError>
    ensures { IfOk result (λ t. t ≡ enclosed before.now texts.now after.now) }
{
    let mut whole = String::from_str(alloc, before)?;
    push_joined(&mut whole, texts)?;
    whole.push_str(after)?;
    Ok(Text::from(whole))
}

fn push_joined(whole: &mut String, texts: &[Text]) -> Result<(), AllocError>
    ensures { OnOk result (string_bytes whole.new ≡ string_bytes whole.old ++ joined_by_commas false texts.now) }
{
    let mut later = false;
    for text in texts {
        if later {
            whole.push_str(",")?;
        }
        whole.push_str(text.as_str())?;
        later = true;
    }
    Ok(())
}
