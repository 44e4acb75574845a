//! A row of the table of contexts with its key.

use osb_text::Text;

/// The context of an order, or with the number 0 that of the current state of the instance.
#[derive(Clone, Debug, Drop, PartialEq, Eq)]
pub struct ContextEntry {
    pub instance: Text,
    pub number: u32,
    pub context: Text,
}
