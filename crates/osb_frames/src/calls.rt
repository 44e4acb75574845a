//! The calls that were made of a reader or a writer, only for contracts.

ghost use Rattle.std.specs.Prelude.{◌≡◌, List, [], ◌∷◌, ◌++◌};
ghost use Rattle.std.specs.Option.{option_copied};
ghost use Rattle.std.specs.Borrow.{ftrue};
ghost use Rattle.osb_frames.specs.Calls.{Call};

use std::marker::{Model, PhantomData};

/// The calls so far, the oldest first. Only contracts see them: the type has no bytes, and its
/// functions do nothing when they run.
#[derive(Drop)]
pub(crate) struct Calls {
    marker: PhantomData<u8>,
    pub ghost list: { List Call },
}

impl Model for Calls {
    ghost also_owns = { λ _. ftrue };
}

impl Calls {
    /// No call yet.
    pub(crate) fn none() -> Calls
        ensures { result.list ≡ [] }
    {
        Calls {
            marker: PhantomData,
        }
    }

    /// One call more: the bytes that went over, or `None` where it failed.
    pub(crate) fn then(&self, _call: &Option<&[u8]>) -> Calls
        ensures { result.list ≡ self.now.list ++ option_copied _call.now ∷ [] }
    {
        Calls {
            marker: PhantomData,
        }
    }
}
