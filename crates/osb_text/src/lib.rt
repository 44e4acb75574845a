//! JSON objects whose numbers are whole, their members and their compact text; and texts that
//! contracts see as lists of bytes.
#![tactic(auto)]

mod fault;
mod id;
pub mod laws;
mod object;
mod reading;
mod text;
mod value;

pub use fault::TextFault;
pub use id::{has_no_controls, is_id};
pub use object::{Object, ObjectRef};
pub use reading::{is_object_text, read_object};
pub use text::Text;
pub use value::{compact_text, items, member};
