//! The objects of a settings file, and the names that each lists.

ghost use Rattle.std.specs.Prelude.{◌≡◌};
ghost use Rattle.osb_advice.specs.Past as spec;

use osb_catalog::{
    Field, FieldRule, catalog_rules, file_rules, mode_rules, plan_left_out_rules, plan_rules,
    service_left_out_rules, service_rules,
};

/// A kind of object in a settings file.
#[derive(Clone, Copy, Debug, Drop)]
pub(crate) enum ObjectKind {
    /// The whole file.
    File,
    /// `platform` or `backend`.
    Login,
    /// The `also` of a login.
    SecondLogin,
    Catalog,
    Service,
    Plan,
    MaintenanceInfo,
    /// A member of `modes`.
    Mode,
}

impl ObjectKind {
    /// Whether such an object lists the name: the broker reads it there, or refuses it there.
    pub(crate) fn lists(self, name: &str) -> bool
        ensures { result ≡ spec.lists self name.now }
    {
        match self {
            ObjectKind::File => is_in_rules(&file_rules(), name),
            ObjectKind::Login => { is_in(&[Field::User, Field::Password, Field::Also], name) }
            ObjectKind::SecondLogin => is_in(&[Field::User, Field::Password], name),
            ObjectKind::Catalog => is_in_rules(&catalog_rules(), name),
            ObjectKind::Service => {
                is_in_rules(&service_rules(), name) || is_in_rules(&service_left_out_rules(), name)
            }
            ObjectKind::Plan => {
                is_in_rules(&plan_rules(), name) || is_in_rules(&plan_left_out_rules(), name)
            }
            ObjectKind::MaintenanceInfo => { is_in(&[Field::Version, Field::Description], name) }
            ObjectKind::Mode => is_in_rules(&mode_rules(), name),
        }
    }
}

fn is_in_rules(rules: &[FieldRule], name: &str) -> bool
    ensures { result ≡ spec.is_in_rules name.now rules.now }
{
    rules.iter().any(|rule| rule.field.name() == name)
}

fn is_in(fields: &[Field], name: &str) -> bool
    ensures { result ≡ spec.is_in name.now fields.now }
{
    fields.iter().any(|field| field.name() == name)
}
