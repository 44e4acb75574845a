//! Services and plans as the settings keep them, and the modes of plans.

ghost use Rattle.std.specs.Prelude.{◌≡◌};

use osb_text::Text;

/// When a plan's orders are carried out.
#[derive(Clone, Copy, Debug, Drop, PartialEq, Eq)]
pub enum Timing {
    /// As they are opened.
    Synchronous,
    /// Later: they run until the backend reports.
    Asynchronous,
}

impl Timing {
    ghost use Rattle.osb_catalog.specs.Modes.{is_asynchronous};

    /// Whether an order of it waits for the backend.
    pub fn is_asynchronous(self) -> bool
        ensures { result ≡ is_asynchronous self }
    {
        match self {
            Timing::Synchronous => false,
            Timing::Asynchronous => true,
        }
    }
}

/// How a plan's orders are carried out.
#[derive(Debug, Drop)]
pub struct Mode {
    /// Of creations, updates and deletions.
    pub instances: Timing,
    /// Of bindings and unbindings.
    pub bindings: Timing,
    /// What a synchronous binding hands out: the compact text of a JSON object.
    pub credentials: Text,
}

/// What the catalog says of a plan.
#[derive(Debug, Drop)]
pub struct PlanFacts {
    /// Whether instances of the plan may be bound.
    pub bindable: bool,
    /// Whether an instance may change from this plan to another.
    pub plan_updateable: bool,
    /// The maintenance version, empty where the plan has no maintenance information.
    pub version: Text,
}

/// A plan of the catalog.
#[derive(Debug, Drop)]
pub struct Plan {
    pub service: Text,
    pub id: Text,
    pub facts: PlanFacts,
    pub mode: Mode,
    /// Whether platforms may fetch the bindings of the plan's service.
    pub bindings_retrievable: bool,
}

/// A service of the catalog.
#[derive(Debug, Drop)]
pub struct Service {
    pub id: Text,
    /// Whether an update may change the context of the service's instances.
    pub context_updates: bool,
}
