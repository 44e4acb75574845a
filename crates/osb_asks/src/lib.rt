//! What a request asks of the broker: its door, its login, its version, its route, its ids, its
//! query and its body.
#![tactic(auto)]

mod admission;
mod ask;
mod ask_fault;
mod backend;
mod bindings;
mod content;
mod credentials;
mod door;
mod id;
mod instances;
pub mod laws;
mod object_text;
mod offers;
mod query;
mod reading;
mod resource;
mod route;
mod segment;
mod target;
mod version;

pub use ask::{
    Ask, Bind, BindingOp, Deprovision, Fetch, FetchBinding, InstanceOp, Orders, Provision, Report,
    ReportState, Unbind, Update,
};
pub use ask_fault::AskFault;
pub use id::Id;
pub use object_text::ObjectText;
pub use reading::read_ask;
