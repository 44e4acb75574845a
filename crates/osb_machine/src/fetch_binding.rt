//! The rules of FetchBinding, which shows a binding.

ghost use Rattle.std.specs.Prelude.{◌≡◌, IfOk};
ghost use Rattle.osb_machine.specs.FetchBinding.{fetch_binding};
ghost use Rattle.osb_machine.specs.Steps.{decision};

use crate::answer_and_change::AnswerAndChange;
use crate::texts;
use osb_orders::{BindingNow, BindingPhase};
use osb_replies::Status;
use std::alloc::{AllocError, Global};

pub(crate) fn fetch_binding<'a>(
    alloc: Global,
    binding: &Option<BindingNow>,
) -> Result<AnswerAndChange<'a>, AllocError>
    ensures { IfOk result (λ step. decision step ≡ fetch_binding binding.now) }
{
    match binding {
        Some(binding) if matches!(binding.phase, BindingPhase::Bound) => {
            let text = texts::binding(alloc, binding)?;
            Ok(AnswerAndChange::says(Status::Ok, text))
        }
        _ => Ok(AnswerAndChange::of_status(Status::NotFound)),
    }
}
