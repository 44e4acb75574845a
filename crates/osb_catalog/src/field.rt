//! The names of the fields of a settings file.

ghost use Rattle.std.specs.Prelude.{◌≡◌};
ghost use Rattle.osb_catalog.specs.Fields.{field_name};

use std::fmt;

/// The fields that a settings file may have, and those of the standard that it must leave out.
///
/// One name may be in several objects, as `id` in services and plans.
#[derive(Clone, Copy, Debug, Drop, PartialEq, Eq)]
pub enum Field {
    Platform,
    Backend,
    Catalog,
    Modes,
    OrdersPerInstance,
    User,
    Password,
    Also,
    Services,
    Id,
    Name,
    Description,
    Bindable,
    Plans,
    Tags,
    Metadata,
    InstancesRetrievable,
    BindingsRetrievable,
    PlanUpdateable,
    AllowContextUpdates,
    Free,
    MaximumPollingDuration,
    MaintenanceInfo,
    Version,
    Instances,
    Bindings,
    Credentials,
    BindingRotatable,
    DashboardClient,
    Requires,
    Schemas,
}

impl Field {
    /// The name as a file has it.
    pub fn name(self) -> &'static str
        ensures { result.now ≡ field_name self }
    {
        match self {
            Field::Platform => "platform",
            Field::Backend => "backend",
            Field::Catalog => "catalog",
            Field::Modes => "modes",
            Field::OrdersPerInstance => "orders_per_instance",
            Field::User => "user",
            Field::Password => "password",
            Field::Also => "also",
            Field::Services => "services",
            Field::Id => "id",
            Field::Name => "name",
            Field::Description => "description",
            Field::Bindable => "bindable",
            Field::Plans => "plans",
            Field::Tags => "tags",
            Field::Metadata => "metadata",
            Field::InstancesRetrievable => "instances_retrievable",
            Field::BindingsRetrievable => "bindings_retrievable",
            Field::PlanUpdateable => "plan_updateable",
            Field::AllowContextUpdates => "allow_context_updates",
            Field::Free => "free",
            Field::MaximumPollingDuration => "maximum_polling_duration",
            Field::MaintenanceInfo => "maintenance_info",
            Field::Version => "version",
            Field::Instances => "instances",
            Field::Bindings => "bindings",
            Field::Credentials => "credentials",
            Field::BindingRotatable => "binding_rotatable",
            Field::DashboardClient => "dashboard_client",
            Field::Requires => "requires",
            Field::Schemas => "schemas",
        }
    }
}

impl fmt::Display for Field {
    ghost use Rattle.std.specs.Prelude.{Some};
    ghost use Rattle.osb_catalog.specs.Fields.{field_name};

    ghost output = { λ field. Some (field_name field) };

    fn fmt<W: fmt::Write>(&self, f: &mut fmt::Formatter<W>) -> fmt::Result {
        let name = self.name();
        write!(f, "{name}")
    }
}
