//! The answers to requests that can't be read, and the replies that carry answers.

ghost use Rattle.std.specs.Prelude.{◌≡◌};
ghost use Rattle.osb_frames.specs.Steps.{message};
ghost use Rattle.osb_replies.specs.Parts.{parts};
ghost use Rattle.osb_broker.specs.Machine.{reply_of};
ghost use Rattle.osb_broker.specs.Faults.{plain, fixed, fault_answer};
ghost use Rattle.osb_broker.specs.Prepared.{answer_parts};

use osb_asks::AskFault;
use osb_frames::Request;
use osb_machine::Answer;
use osb_replies::{Body, FixedError, Reply, Status};

/// Only a status, with the body `{}`.
fn plain<'s>(status: Status) -> Answer<'s>
    ensures { answer_parts result ≡ plain status }
{
    Answer {
        status,
        body: Body::EMPTY_OBJECT,
    }
}

fn fixed<'s>(error: FixedError) -> Answer<'s>
    ensures { answer_parts result ≡ fixed error }
{
    Answer {
        status: error.status(),
        body: Body::Lent(error.body()),
    }
}

/// The answer to a request that can't be read.
pub(crate) fn fault_answer<'s>(fault: AskFault) -> Answer<'s>
    ensures { answer_parts result ≡ fault_answer fault }
{
    match fault {
        AskFault::NoDoor | AskFault::NoRoute => plain(Status::NotFound),
        AskFault::Auth => plain(Status::Unauthorized),
        AskFault::Version => fixed(FixedError::Version),
        AskFault::Id => fixed(FixedError::Id),
        AskFault::Query => fixed(FixedError::Query),
        AskFault::Body => fixed(FixedError::Body),
        AskFault::NotInCatalog => fixed(FixedError::NotInCatalog),
        AskFault::Memory => plain(Status::InternalServerError),
    }
}

/// The reply that carries an answer. The last request that may come closes.
pub(crate) fn reply_to<'a>(request: &Request<'a>, last: bool, answer: Answer<'a>) -> Reply<'a>
    ensures { parts result ≡ reply_of (message request.now) last (answer_parts answer.entry) }
{
    Reply {
        status: answer.status,
        body: answer.body,
        echo: request.field(b"x-broker-api-request-identity"),
        close: request.closes() || last,
    }
}
