//! Laws of what the rows say of the lives, over only the definitions.

ghost use Rattle.osb_standing.specs.Laws.{StandingIsInTheRow, CountIsTheLastNumber, BindingsAre, BindingsRemain, ListedByRows};

/// The row of an instance says its state, and its last number is the count of the orders of a
/// well-formed life.
pub fn instance_rows_tell()
    ensures standing { StandingIsInTheRow }
    ensures count { CountIsTheLastNumber }
{}

/// A look-up in the rows of an instance's bindings finds the binding, and a binding remains exactly
/// where one has a row.
pub fn binding_rows_tell()
    ensures bindings { BindingsAre }
    ensures remain { BindingsRemain }
{}

/// The listing of running orders is that of the busy rows, each joined with the order of its last
/// number.
pub fn listing_by_rows()
    ensures { ListedByRows }
{}
