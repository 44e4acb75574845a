//! Lives without contexts, and the current context of an instance: laws over only the definitions of
//! lives and rows. The tables of orders, instances and bindings have no column for a context,
//! so what they say is bare.
#![tactic(auto)]

ghost use Rattle.osb_bare.specs.Laws.{BareLivesHaveNoContext, BareLivesAreWellFormed, LifeOfBare, LivesInBare};
ghost use Rattle.osb_bare.specs.Laws.{StandingOfBare, RowOfBare, BindingsOfBare, BareBindingsRemain, BirthOfBare};
ghost use Rattle.osb_bare.specs.Laws.{LastOfBare, NamedInBare, SubjectOfBare, ListingOfBare, PlansOfBare, CountsOfBare};
ghost use Rattle.osb_bare.specs.Laws.{BareLifeChanged, BareLivesChanged, BareOrderWritten, BareLifeIsWellFormed, BareChangeIsAllowed};
ghost use Rattle.osb_bare.specs.Laws.{RowAfterBare, EditOfBare, ContextStands};

/// No order of a bare life has a context, and lives are bare instance by instance.
pub fn bare_lives()
    ensures no_context { BareLivesHaveNoContext }
    ensures kept { BareLivesAreWellFormed }
    ensures life { LifeOfBare }
    ensures entries { LivesInBare }
{}

/// The rows of a bare life are those of the life, with a bare standing instance.
pub fn bare_rows()
    ensures standing { StandingOfBare }
    ensures row { RowOfBare }
    ensures bindings { BindingsOfBare }
    ensures remain { BareBindingsRemain }
    ensures birth { BirthOfBare }
{}

/// The orders that an ask looks for in bare lives are those of the lives, bare, and the plans in use
/// and what is counted are the same.
pub fn bare_views()
    ensures last { LastOfBare }
    ensures named { NamedInBare }
    ensures subject { SubjectOfBare }
    ensures listing { ListingOfBare }
    ensures plans { PlansOfBare }
    ensures counts { CountsOfBare }
{}

/// A change of a bare life does to it what the change with its context does to the life, may be made
/// where that may, and writes the same order, bare.
pub fn bare_changes()
    ensures life { BareLifeChanged }
    ensures lives { BareLivesChanged }
    ensures written { BareOrderWritten }
    ensures well_formed { BareLifeIsWellFormed }
    ensures allowed { BareChangeIsAllowed }
{}

/// A bare order does to the rows what the order does.
pub fn bare_edits()
    ensures row { RowAfterBare }
    ensures edit { EditOfBare }
{}

/// The current context after an order was written, read off the order and the context before.
pub fn context_that_stands()
    ensures { ContextStands }
{}
