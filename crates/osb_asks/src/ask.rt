//! The asks, a type for each kind of request, and which instance and binding each is about.

ghost use Rattle.std.specs.Prelude.{◌≡◌, option_copied};
ghost use Rattle.osb_asks.specs.Subjects.{instance_id_of, binding_id_of};

use crate::id::Id;
use crate::object_text::ObjectText;
use osb_text::Text;

/// A new instance (OSB API 2.17, "Provisioning").
#[derive(Debug, Drop)]
pub struct Provision {
    pub instance: Id,
    pub service: Id,
    pub plan: Id,
    pub organization: Id,
    pub space: Id,
    /// `{}` where it is absent.
    pub context: ObjectText,
    /// `{}` where they are absent.
    pub parameters: ObjectText,
    /// The maintenance version that the platform expects.
    pub maintenance: Option<Text>,
    /// Whether the answer may come before the instance is there.
    pub accepts_incomplete: bool,
}

/// What an instance is ("Fetching a Service Instance").
#[derive(Debug, Drop)]
pub struct Fetch {
    pub instance: Id,
}

/// A change of an instance ("Updating a Service Instance"). What is absent stays as it is.
#[derive(Debug, Drop)]
pub struct Update {
    pub instance: Id,
    pub service: Id,
    pub plan: Option<Id>,
    pub context: Option<ObjectText>,
    pub parameters: Option<ObjectText>,
    /// The maintenance version that the instance is to have.
    pub maintenance: Option<Text>,
    /// Whether the answer may come before the change is made.
    pub accepts_incomplete: bool,
}

/// The end of an instance ("Deprovisioning").
#[derive(Debug, Drop)]
pub struct Deprovision {
    pub instance: Id,
    pub service: Id,
    pub plan: Id,
    /// Whether the answer may come before the instance is gone.
    pub accepts_incomplete: bool,
}

/// The state of an operation of an instance ("Polling Last Operation for Service Instances").
#[derive(Debug, Drop)]
pub struct InstanceOp {
    pub instance: Id,
    /// The operation, or the last one where it is absent.
    pub operation: Option<Text>,
}

/// A new binding ("Binding").
#[derive(Debug, Drop)]
pub struct Bind {
    pub instance: Id,
    pub binding: Id,
    pub service: Id,
    pub plan: Id,
    /// The app that is bound; an empty one counts as absent.
    pub app_guid: Option<Id>,
    /// `{}` where it is absent.
    pub bind_resource: ObjectText,
    /// `{}` where it is absent.
    pub context: ObjectText,
    /// `{}` where they are absent.
    pub parameters: ObjectText,
    /// Whether the answer may come before the binding is there.
    pub accepts_incomplete: bool,
}

/// What a binding is ("Fetching a Service Binding").
#[derive(Debug, Drop)]
pub struct FetchBinding {
    pub instance: Id,
    pub binding: Id,
}

/// The end of a binding ("Unbinding").
#[derive(Debug, Drop)]
pub struct Unbind {
    pub instance: Id,
    pub binding: Id,
    pub service: Id,
    pub plan: Id,
    /// Whether the answer may come before the binding is gone.
    pub accepts_incomplete: bool,
}

/// The state of an operation of a binding ("Polling Last Operation for Service Bindings").
#[derive(Debug, Drop)]
pub struct BindingOp {
    pub instance: Id,
    pub binding: Id,
    /// The operation, or the last one where it is absent.
    pub operation: Option<Text>,
}

/// The running orders, by the ids of their instances. The backend asks it.
#[derive(Debug, Drop)]
pub struct Orders {
    /// The id after which they begin; an empty one counts as absent.
    pub after: Option<Id>,
}

/// How an order ended.
#[derive(Clone, Copy, Debug, Drop, PartialEq, Eq)]
pub enum ReportState {
    Succeeded,
    Failed,
}

/// The backend's report of an order.
#[derive(Debug, Drop)]
pub struct Report {
    pub instance: Id,
    /// The order's number in the life of its instance, from 1 to 9,999,999.
    pub number: u32,
    pub state: ReportState,
    /// At most 1,000 bytes without control characters, and empty where it is absent.
    pub description: Text,
    /// `{}` where they are absent.
    pub credentials: ObjectText,
}

/// What a request asks.
#[derive(Debug, Drop)]
pub enum Ask {
    Catalog,
    Provision(Provision),
    Fetch(Fetch),
    Update(Update),
    Deprovision(Deprovision),
    InstanceOp(InstanceOp),
    Bind(Bind),
    FetchBinding(FetchBinding),
    Unbind(Unbind),
    BindingOp(BindingOp),
    Orders(Orders),
    Report(Report),
}

impl Ask {
    /// The instance that the ask is about: all but Catalog and Orders have one.
    pub fn instance(&self) -> Option<&Id>
        ensures { option_copied result ≡ instance_id_of self.now }
    {
        match self {
            Ask::Catalog | Ask::Orders(_) => None,
            Ask::Provision(ask) => Some(&ask.instance),
            Ask::Fetch(ask) => Some(&ask.instance),
            Ask::Update(ask) => Some(&ask.instance),
            Ask::Deprovision(ask) => Some(&ask.instance),
            Ask::InstanceOp(ask) => Some(&ask.instance),
            Ask::Bind(ask) => Some(&ask.instance),
            Ask::FetchBinding(ask) => Some(&ask.instance),
            Ask::Unbind(ask) => Some(&ask.instance),
            Ask::BindingOp(ask) => Some(&ask.instance),
            Ask::Report(ask) => Some(&ask.instance),
        }
    }

    /// The binding that the ask is about, for those of bindings.
    pub fn binding(&self) -> Option<&Id>
        ensures { option_copied result ≡ binding_id_of self.now }
    {
        match self {
            Ask::Bind(ask) => Some(&ask.binding),
            Ask::FetchBinding(ask) => Some(&ask.binding),
            Ask::Unbind(ask) => Some(&ask.binding),
            Ask::BindingOp(ask) => Some(&ask.binding),
            _ => None,
        }
    }
}
