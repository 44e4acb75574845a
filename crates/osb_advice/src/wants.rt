//! The line that says which value is wanted where a fault is.

ghost use Rattle.std.specs.Prelude.{◌≡◌, option_map};
ghost use Rattle.osb_advice.specs.Wanted as spec;

use osb_catalog::{
    Field, FieldRule, Kind, Place, SettingsFault, catalog_rules, file_rules, mode_rules,
    plan_rules, service_rules,
};

/// Which value is wanted at the place of a fault: one line without its end. It is empty for `Text` and `Memory`.
pub fn wanted(fault: SettingsFault, place: Option<&Place>) -> &'static str
    ensures { result.now ≡ spec.wanted fault (option_map (λ p. p.now) place.entry) }
{
    match fault {
        SettingsFault::Text | SettingsFault::Memory => "",
        SettingsFault::Missing(field) => wanted_at(field),
        SettingsFault::DoubleId => "wanted: an id that no other one has",
        SettingsFault::LeftOut(_) => "wanted: nothing, this broker leaves it out",
        SettingsFault::Version => "wanted: a semantic version, as 1.0.0",
        SettingsFault::Mode => wanted_mode(place),
        SettingsFault::Credential => {
            "wanted: a user without a colon, and both texts of 1 to 256 bytes without control characters"
        }
    }
}

fn wanted_mode(place: Option<&Place>) -> &'static str
    ensures { result.now ≡ spec.wanted SettingsFault.Mode (option_map (λ p. p.now) place.entry) }
{
    match place {
        Some(Place::Mode(_)) => "wanted: the id of a plan, and no plan has this one",
        _ => "wanted: bindings_retrievable in its service, for asynchronous bindings",
    }
}

fn wanted_at(field: Field) -> &'static str
    ensures { result.now ≡ spec.wanted_at field }
{
    match kind_of(field) {
        Some(kind) => wanted_kind(kind),
        None => "",
    }
}

/// The kind of the field's values. Tables that have one field agree in it, as `laws::one_kind_a_field` says.
fn kind_of(field: Field) -> Option<Kind>
    ensures { result ≡ spec.kind_of field }
{
    kind_in(&file_rules(), field)
        .or(kind_in(&catalog_rules(), field))
        .or(kind_in(&service_rules(), field))
        .or(kind_in(&plan_rules(), field))
        .or(kind_in(&mode_rules(), field))
}

fn kind_in(rules: &[FieldRule], field: Field) -> Option<Kind>
    ensures { result ≡ spec.kind_in rules.now field }
{
    rules
        .iter()
        .find(|rule| rule.field.name() == field.name())
        .map(|rule| rule.kind)
}

fn wanted_kind(kind: Kind) -> &'static str
    ensures { result.now ≡ spec.wanted_kind kind }
{
    match kind {
        Kind::Object => "wanted: an object",
        Kind::ObjectOfObjects => "wanted: an object of objects",
        Kind::ObjectList => "wanted: a list of objects",
        Kind::NonEmptyObjectList => "wanted: a list of objects that isn't empty",
        Kind::Login => {
            "wanted: an object with the texts user and password, and with such an object if it has also"
        }
        Kind::IdText => "wanted: a text of 1 to 256 bytes without control characters",
        Kind::NonEmptyText => "wanted: a text that isn't empty",
        Kind::TextList => "wanted: a list of texts",
        Kind::Flag => "wanted: true or false",
        Kind::OrderLimit => "wanted: a whole number from 1 to 1000000",
        Kind::WholeNumber => "wanted: a whole number of seconds from 0",
        Kind::MaintenanceInfo => {
            "wanted: an object with the text version, and with a text if it has a description"
        }
        Kind::Timing => "wanted: synchronous or asynchronous",
        Kind::False => "wanted: false",
        Kind::EmptyList => "wanted: a list that is empty",
        Kind::Nothing => "wanted: nothing",
    }
}
