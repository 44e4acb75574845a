//! What statements do to the rows of a table, and what queries find in it, whichever table it is: the rows of a
//! list of entries (`specs/Rows.antt`) after an insertion, an update and a deletion, and the answer of a query.
//!
//! There is no function here. The crates that have statements cite these lemmas.
#![tactic(auto)]
