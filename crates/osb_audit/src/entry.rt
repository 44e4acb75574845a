//! A row of the table of bindings with its key.

use osb_orders::BindingPhase;
use osb_text::Text;

/// The row of a binding with its ids. A binding has no maintenance version and no context.
#[derive(Clone, Debug, Drop, PartialEq, Eq)]
pub struct BindingEntry {
    pub instance: Text,
    pub binding: Text,
    pub phase: BindingPhase,
    pub service: Text,
    pub plan: Text,
    pub app_guid: Text,
    pub bind_resource: Text,
    pub parameters: Text,
    pub credentials: Text,
}
