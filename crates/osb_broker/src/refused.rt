//! Why a request is answered by the fixed 500.

use osb_records::{Cause, StoreFault};
use std::alloc::AllocError;

/// A request is refused: its reply is the fixed 500, and the lives stay.
#[derive(Clone, Copy, Debug, Drop, PartialEq, Eq)]
pub(crate) struct Refused {
    pub(crate) cause: Cause,
}

impl From<AllocError> for Refused {
    ghost use Rattle.std.specs.Prelude.{◌≡◌};
    ghost use Rattle.osb_statements.specs.declared.cause.Cause.TheVariants.{Memory};

    ghost from_gives = { λ error refused. refused.cause ≡ Memory };

    fn from(_error: AllocError) -> Refused {
        Refused {
            cause: Cause::Memory,
        }
    }
}

impl From<StoreFault> for Refused {
    ghost use Rattle.std.specs.Prelude.{◌≡◌};
    ghost use Rattle.osb_broker.specs.Refused.{cause_of_fault};

    ghost from_gives = { λ fault refused. refused.cause ≡ cause_of_fault fault };

    fn from(fault: StoreFault) -> Refused {
        let cause = match fault {
            StoreFault::Refused(cause) => cause,
            StoreFault::NotOurs => Cause::Other,
        };
        Refused { cause }
    }
}
