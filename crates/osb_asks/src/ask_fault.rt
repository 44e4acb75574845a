//! The faults of reading a request, in the order in which they count.

use std::alloc::AllocError;
use thiserror::Error;

/// Why a request has no ask: the first fault, in the order of the variants.
#[derive(Clone, Copy, Debug, Drop, PartialEq, Eq, Error)]
pub enum AskFault {
    /// The target leads neither to the platform's door, `/v2`, nor to the backend's, `/backend`.
    #[error("no door")]
    NoDoor,
    /// The first Authorization value isn't a Basic login of the door.
    #[error("the login is not the door's")]
    Auth,
    /// The platform's request names no version 2 of the API.
    #[error("the API version is not spoken")]
    Version,
    /// No route has the method and the path.
    #[error("no route")]
    NoRoute,
    /// An id in the path is no id text, or the number of an order isn't 1 to 7 digits that don't
    /// begin with 0.
    #[error("an identifier is not usable")]
    Id,
    /// A value of the query isn't what its name asks for, or is absent where it is needed.
    #[error("the query is not usable")]
    Query,
    /// The body is no JSON object whose numbers are whole, or a member of it is absent where it is
    /// needed, or of another kind than its name asks for.
    #[error("the body is not usable")]
    Body,
    /// The catalog doesn't have the service, or not the plan of that service.
    #[error("the catalog has no such service or plan")]
    NotInCatalog,
    /// An allocation was refused. It may take the place of any fault from Id on.
    #[error("out of memory")]
    Memory,
}

impl From<AllocError> for AskFault {
    ghost use Rattle.std.specs.Prelude.{◌≡◌};
    ghost use Rattle.osb_asks.specs.declared.ask_fault.AskFault.TheVariants.{Memory};

    ghost from_gives = { λ _ fault. fault ≡ Memory };

    fn from(_refused: AllocError) -> AskFault {
        AskFault::Memory
    }
}
