//! Answers that are ready, before their change is made.

ghost use Rattle.std.specs.Prelude.{◌≡◌, IfOk};
ghost use Rattle.osb_asks.specs.Subjects.{instance_id_of};
ghost use Rattle.osb_broker.specs.Prepared.{pending_for};

use osb_asks::Ask;
use osb_machine::Answer;
use osb_orders::Change;
use osb_records::LifeChange;
use std::alloc::AllocError;

/// An answer, and the change that has to be made before it is given, if any.
#[derive(Drop)]
pub(crate) struct Prepared<'s> {
    pub(crate) answer: Answer<'s>,
    pub(crate) pending: Option<LifeChange>,
}

impl<'s> Prepared<'s> {
    /// An answer that changes nothing.
    pub(crate) fn quiet(answer: Answer<'s>) -> Prepared<'s>
        ensures answer { result.answer ≡ answer.entry }
        ensures pending { result.pending ≡ None }
    {
        Prepared {
            answer,
            pending: None,
        }
    }
}

/// The change, as one of the instance that the ask names.
pub(crate) fn pending_for(ask: &Ask, change: Change) -> Result<Option<LifeChange>, AllocError>
    ensures { IfOk result (λ pending. pending ≡ pending_for (instance_id_of ask.now) change) }
{
    match ask.instance() {
        Some(instance) => match instance.clone() {
            Ok(instance) => Ok(Some(LifeChange { instance, change })),
            Err(error) => {
                drop(change);
                Err(error)
            }
        },
        None => {
            drop(change);
            Ok(None)
        }
    }
}
