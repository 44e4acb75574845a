//! The contexts of lives as entries of a table, and the lives that they make up with what the other
//! tables show: laws over the definitions, and for the lists that an audit reads `gather`, which
//! gives their contexts, and `are_rows_with_contexts`, which says whether contexts are theirs.
#![tactic(auto)]

mod audit;
mod entry;
mod gathered;
mod pass;

ghost use Rattle.osb_joined.specs.Laws.{LivesJoined, StandingJoined, RowJoined, BareOfJoined, LifeOfJoined};
ghost use Rattle.osb_joined.specs.Laws.{LifeJoined, LastJoined, NamedJoined, SubjectJoined, ListingJoined};
ghost use Rattle.osb_joined.specs.Laws.{ContextsRise, ContextOfOrder, ContextOfStanding, NoContextOfNoLife, NoContextAbove};
ghost use Rattle.osb_joined.specs.Laws.{ContextsChanged, CreateEnds, JoinedOnce, RowsOfLivesJoin, JoinedAreContexts};

pub use audit::are_rows_with_contexts;
pub use entry::ContextEntry;
pub use gathered::gather;
pub use pass::{Joined, join};

/// Each order of well-formed lives has one entry, and each instance one with the number 0.
pub fn contexts_by_key()
    ensures rise { ContextsRise }
    ensures orders { ContextOfOrder }
    ensures standing { ContextOfStanding }
    ensures absent { NoContextOfNoLife }
    ensures above { NoContextAbove }
{}

/// Bare lives with the contexts of the lives are these lives. The same goes for the current state of an
/// instance, and for its row. Whatever the contexts, lives are joined instance by instance, and all
/// but the contexts stays.
pub fn lives_joined()
    ensures lives { LivesJoined }
    ensures standing { StandingJoined }
    ensures row { RowJoined }
    ensures bare { BareOfJoined }
    ensures at { LifeOfJoined }
{}

/// An order of bare lives, with the context of its key, is that of the lives: all of an instance, the
/// last, the one that an ask names, the last that a poll is about, and those of a listing.
pub fn orders_joined()
    ensures life { LifeJoined }
    ensures last { LastJoined }
    ensures named { NamedJoined }
    ensures subject { SubjectJoined }
    ensures listing { ListingJoined }
{}

/// The contexts of changed lives, as statements on a table make them of the contexts before. The end
/// of a Create needs none.
pub fn contexts_changed()
    ensures changed { ContextsChanged }
    ensures create { CreateEnds }
{}

/// Lists fit in one way at most. The contexts of lives fit their orders and rows, and no other
/// contexts do.
pub fn lists_joined()
    ensures once { JoinedOnce }
    ensures fit { RowsOfLivesJoin }
    ensures only { JoinedAreContexts }
{}
