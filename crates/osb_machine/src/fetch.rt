//! The rules of Fetch, which shows an instance.

ghost use Rattle.std.specs.Prelude.{◌≡◌, IfOk};
ghost use Rattle.osb_machine.specs.Fetch.{fetch};
ghost use Rattle.osb_machine.specs.Steps.{decision};

use crate::answer_and_change::AnswerAndChange;
use crate::texts;
use osb_orders::{InstancePhase, Standing};
use osb_replies::{FixedError, Status};
use std::alloc::{AllocError, Global};

pub(crate) fn fetch<'a>(
    alloc: Global,
    standing: &Option<Standing>,
) -> Result<AnswerAndChange<'a>, AllocError>
    ensures { IfOk result (λ step. decision step ≡ fetch standing.now) }
{
    let Some(instance) = standing else {
        return Ok(AnswerAndChange::of_status(Status::NotFound));
    };
    match instance.phase {
        InstancePhase::Creating | InstancePhase::Failed => Ok(AnswerAndChange::of_status(
            Status::NotFound,
        )),
        InstancePhase::Updating | InstancePhase::Deleting => {
            Ok(AnswerAndChange::refuses(FixedError::ConcurrencyError))
        }
        InstancePhase::Ready => {
            let text = texts::instance(alloc, &instance.attributes)?;
            Ok(AnswerAndChange::says(Status::Ok, text))
        }
    }
}
