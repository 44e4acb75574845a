//! The view: what an ask needs to know of the lives.

use crate::order::{Attributes, Order};
use osb_text::Text;

/// The state of an instance.
#[derive(Clone, Copy, Debug, PartialEq, Eq)]
pub enum InstancePhase {
    Creating,
    Ready,
    Failed,
    Updating,
    Deleting,
}

/// The state of a binding.
#[derive(Clone, Copy, Debug, PartialEq, Eq)]
pub enum BindingPhase {
    Binding,
    Bound,
    Failed,
    Unbinding,
}

/// An instance that isn't absent.
#[derive(Clone, Debug, Drop, PartialEq, Eq)]
pub struct Standing {
    pub phase: InstancePhase,
    pub attributes: Attributes,
}

/// A binding that isn't absent. It has no maintenance version and no context: those of its
/// attributes are empty, the context an object without members.
#[derive(Clone, Debug, Drop, PartialEq, Eq)]
pub struct BindingNow {
    pub phase: BindingPhase,
    pub attributes: Attributes,
    pub credentials: Text,
}

/// What an ask needs to know of the lives: the named instance and its last order; the binding, the
/// order and the poll's last order that the ask names; how many orders the instance has, and whether
/// a binding remains; and, only for a listing, the running orders of all instances.
#[derive(Debug, Drop)]
pub struct View {
    pub standing: Option<Standing>,
    pub last: Option<Order>,
    pub binding: Option<BindingNow>,
    pub named: Option<Order>,
    pub subject_last: Option<Order>,
    pub count: u32,
    pub bound: bool,
    pub listing: Vec<(Text, Order)>,
}
