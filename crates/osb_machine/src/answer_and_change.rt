//! What an ask gets: an answer, and a change of the life that it names.

ghost use Rattle.std.specs.Prelude.{◌≡◌, string_bytes};

use osb_orders::Change;
use osb_replies::{Body, FixedError, Status};

/// What an ask is answered.
#[derive(Drop)]
pub struct Answer<'a> {
    pub status: Status,
    /// A JSON object, compact.
    pub body: Body<'a>,
}

/// An answer, and what it does to the life of the instance that the ask names.
#[derive(Drop)]
pub struct AnswerAndChange<'a> {
    pub answer: Answer<'a>,
    pub change: Change,
}

impl<'a> AnswerAndChange<'a> {
    ghost use Rattle.osb_machine.specs.Decision.{says, refuses};
    ghost use Rattle.osb_orders.specs.Orders.{empty_object};
    ghost use Rattle.osb_machine.specs.Steps.{decision};

    /// Answers a text, and changes nothing.
    pub(crate) fn says(status: Status, text: String) -> AnswerAndChange<'a>
        ensures { decision result ≡ says status (string_bytes text) }
    {
        AnswerAndChange {
            answer: Answer {
                status,
                body: Body::from(text),
            },
            change: Change::Nothing,
        }
    }

    /// Answers only a status, and changes nothing.
    pub(crate) fn of_status(status: Status) -> AnswerAndChange<'a>
        ensures { decision result ≡ says status empty_object }
    {
        AnswerAndChange {
            answer: Answer {
                status,
                body: Body::EMPTY_OBJECT,
            },
            change: Change::Nothing,
        }
    }

    /// Answers an error, and changes nothing.
    pub(crate) fn refuses(error: FixedError) -> AnswerAndChange<'a>
        ensures { decision result ≡ refuses error }
    {
        AnswerAndChange {
            answer: Answer {
                status: error.status(),
                body: Body::Lent(error.body()),
            },
            change: Change::Nothing,
        }
    }
}
