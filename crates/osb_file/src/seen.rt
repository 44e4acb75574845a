//! What a database file has.

use osb_audit::Counts;
use osb_text::Text;

/// What a database file has that was looked at.
#[derive(Debug, Drop)]
pub enum Seen {
    /// No tables yet: a start would begin a database in it.
    New,
    /// So much of everything, and the pairs of service and plan in use: each once, in the order of
    /// their bytes.
    Counted(Counts, Vec<(Text, Text)>),
}
