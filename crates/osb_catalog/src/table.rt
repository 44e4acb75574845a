//! The tables of the fields that each object of a file must have, may have, and must leave out.

ghost use Rattle.std.specs.Prelude.{◌≡◌};
ghost use Rattle.serde_json.specs.View.{view};
ghost use Rattle.osb_catalog.specs.Tables.{is_broken, first_broken, required, optional, file_rules, catalog_rules, service_rules, plan_rules, mode_rules, service_left_out_rules, plan_left_out_rules};

use crate::field::Field;
use crate::kind::Kind;
use crate::member::value_at;
use serde_json::Value;

/// What is asked of one field of an object.
#[derive(Clone, Copy, Debug, Drop)]
pub struct FieldRule {
    pub field: Field,
    pub kind: Kind,
    pub required: bool,
}

impl FieldRule {
    /// Whether the object doesn't keep the rule.
    fn is_broken(&self, object: &Value) -> bool
        ensures { result ≡ is_broken (view object.now) self.now }
    {
        match value_at(object, self.field) {
            Some(found) => !self.kind.fits(found),
            None => self.required,
        }
    }
}

/// The field of the first rule that the object doesn't keep.
pub(crate) fn first_broken(rules: &[FieldRule], object: &Value) -> Option<Field>
    ensures { result ≡ first_broken rules.now (view object.now) }
{
    rules
        .iter()
        .find(|rule| rule.is_broken(object))
        .map(|rule| rule.field)
}

fn required(field: Field, kind: Kind) -> FieldRule
    ensures { result ≡ required field kind }
{
    FieldRule {
        field,
        kind,
        required: true,
    }
}

fn optional(field: Field, kind: Kind) -> FieldRule
    ensures { result ≡ optional field kind }
{
    FieldRule {
        field,
        kind,
        required: false,
    }
}

/// The rules of the file itself.
pub fn file_rules() -> [FieldRule; 5]
    ensures { result ≡ file_rules }
{
    [
        required(Field::Platform, Kind::Login),
        required(Field::Backend, Kind::Login),
        required(Field::Catalog, Kind::Object),
        optional(Field::Modes, Kind::ObjectOfObjects),
        optional(Field::OrdersPerInstance, Kind::OrderLimit),
    ]
}

/// Those of the catalog.
pub fn catalog_rules() -> [FieldRule; 1]
    ensures { result ≡ catalog_rules }
{
    [required(Field::Services, Kind::ObjectList)]
}

/// Those of a service.
pub fn service_rules() -> [FieldRule; 11]
    ensures { result ≡ service_rules }
{
    [
        required(Field::Id, Kind::IdText),
        required(Field::Name, Kind::NonEmptyText),
        required(Field::Description, Kind::NonEmptyText),
        required(Field::Bindable, Kind::Flag),
        required(Field::Plans, Kind::NonEmptyObjectList),
        optional(Field::Tags, Kind::TextList),
        optional(Field::Metadata, Kind::Object),
        optional(Field::InstancesRetrievable, Kind::Flag),
        optional(Field::BindingsRetrievable, Kind::Flag),
        optional(Field::PlanUpdateable, Kind::Flag),
        optional(Field::AllowContextUpdates, Kind::Flag),
    ]
}

/// Those of a plan.
pub fn plan_rules() -> [FieldRule; 9]
    ensures { result ≡ plan_rules }
{
    [
        required(Field::Id, Kind::IdText),
        required(Field::Name, Kind::NonEmptyText),
        required(Field::Description, Kind::NonEmptyText),
        optional(Field::Metadata, Kind::Object),
        optional(Field::Free, Kind::Flag),
        optional(Field::Bindable, Kind::Flag),
        optional(Field::PlanUpdateable, Kind::Flag),
        optional(Field::MaximumPollingDuration, Kind::WholeNumber),
        optional(Field::MaintenanceInfo, Kind::MaintenanceInfo),
    ]
}

/// Those of a member of `modes`.
pub fn mode_rules() -> [FieldRule; 3]
    ensures { result ≡ mode_rules }
{
    [
        optional(Field::Instances, Kind::Timing),
        optional(Field::Bindings, Kind::Timing),
        optional(Field::Credentials, Kind::Object),
    ]
}

/// What a service may not announce, since the broker leaves it out.
pub fn service_left_out_rules() -> [FieldRule; 3]
    ensures { result ≡ service_left_out_rules }
{
    [
        optional(Field::BindingRotatable, Kind::False),
        optional(Field::DashboardClient, Kind::Nothing),
        optional(Field::Requires, Kind::EmptyList),
    ]
}

/// What a plan may not announce.
pub fn plan_left_out_rules() -> [FieldRule; 2]
    ensures { result ≡ plan_left_out_rules }
{
    [
        optional(Field::BindingRotatable, Kind::False),
        optional(Field::Schemas, Kind::Nothing),
    ]
}
