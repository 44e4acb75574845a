//! The error bodies that are always the same.

ghost use Rattle.std.specs.Prelude.{◌≡◌, option_copied};

use crate::body::Body;
use crate::reply::Reply;
use crate::status::Status;

/// An error that is always answered by the same status and body.
#[derive(Clone, Copy, Debug, PartialEq, Eq, Hash)]
pub enum FixedError {
    // What was sent is no request (RFC 9112).
    /// No request head within the limits begins here.
    NoHead,
    /// The Host line is missing or there are several.
    Host,
    /// There is a Transfer-Encoding line.
    Coding,
    /// The Content-Length is repeated or isn't a number.
    Length,
    /// The body is longer than the limit.
    TooLarge,
    /// The input ended inside the body.
    Cut,

    // The request can't be read.
    /// `X-Broker-API-Version` isn't a version 2.
    Version,
    /// An id in the path, or the number of an order.
    Id,
    /// The query.
    Query,
    /// The body.
    Body,
    /// The service or the plan.
    NotInCatalog,

    // The request doesn't fit the instance.
    /// The service or plan is another one than the instance's.
    Mismatch,
    /// The plan isn't bindable.
    NotBindable,
    /// The operation that is asked for isn't one of the resource's.
    Operation,
    /// The request doesn't accept an asynchronous answer.
    AsyncRequired,
    /// Another operation of the instance is running.
    ConcurrencyError,
    /// The maintenance version is another one than the catalog's.
    MaintenanceInfoConflict,
    /// The plan can't be changed for another.
    NoPlanChange,
    /// The instance has bindings.
    BindingsRemain,
    /// The instance has had as many orders as it may have.
    Full,
}

impl FixedError {
    ghost use Rattle.osb_replies.specs.FixedError.{fixed_status, fixed_body, fixed_reply};
    ghost use Rattle.osb_replies.specs.Parts.{parts};

    /// The reply that reports it.
    pub fn reply<'a>(self, echo: Option<&'a [u8]>, close: bool) -> Reply<'a>
        ensures { parts result ≡ fixed_reply self (option_copied echo.entry) close }
    {
        Reply {
            status: self.status(),
            body: Body::Lent(self.body()),
            echo,
            close,
        }
    }

    /// The status that the error is answered with.
    pub fn status(self) -> Status
        ensures { result ≡ fixed_status self }
    {
        match self {
            FixedError::NoHead
            | FixedError::Host
            | FixedError::Length
            | FixedError::Cut
            | FixedError::Id
            | FixedError::Query
            | FixedError::Body
            | FixedError::NotInCatalog
            | FixedError::Mismatch
            | FixedError::NotBindable
            | FixedError::Operation => Status::BadRequest,
            FixedError::Coding => Status::LengthRequired,
            FixedError::TooLarge => Status::PayloadTooLarge,
            FixedError::Version => Status::PreconditionFailed,
            FixedError::AsyncRequired
            | FixedError::ConcurrencyError
            | FixedError::MaintenanceInfoConflict
            | FixedError::NoPlanChange
            | FixedError::BindingsRemain
            | FixedError::Full => Status::UnprocessableEntity,
        }
    }

    /// Its body: a JSON object.
    pub fn body(self) -> &'static [u8]
        ensures { result.now ≡ fixed_body self }
    {
        match self {
            FixedError::NoHead => b"{\"description\":\"No request head was found.\"}",
            FixedError::Host => b"{\"description\":\"A request needs one Host line.\"}",
            FixedError::Coding => b"{\"description\":\"Transfer codings are not supported.\"}",
            FixedError::Length => b"{\"description\":\"The Content-Length is not usable.\"}",
            FixedError::TooLarge => b"{\"description\":\"The body is too large.\"}",
            FixedError::Cut => b"{\"description\":\"The input ended inside the body.\"}",
            FixedError::Version => {
                b"{\"description\":\"This broker speaks version 2 of the API.\"}"
            }
            FixedError::Id => b"{\"description\":\"An identifier is not usable.\"}",
            FixedError::Query => b"{\"description\":\"The query is not usable.\"}",
            FixedError::Body => b"{\"description\":\"The body is not usable.\"}",
            FixedError::NotInCatalog => {
                b"{\"description\":\"The catalog has no such service or plan.\"}"
            }
            FixedError::Mismatch => {
                b"{\"description\":\"The service or plan is not the instance's.\"}"
            }
            FixedError::NotBindable => b"{\"description\":\"The plan is not bindable.\"}",
            FixedError::Operation => {
                b"{\"description\":\"The operation is not known for this resource.\"}"
            }
            FixedError::AsyncRequired => {
                b"{\"description\":\"The plan needs asynchronous operations.\",\"error\":\"AsyncRequired\"}"
            }
            FixedError::ConcurrencyError => {
                b"{\"description\":\"Another operation is in progress.\",\"error\":\"ConcurrencyError\"}"
            }
            FixedError::MaintenanceInfoConflict => {
                b"{\"description\":\"The maintenance version is not the catalog's.\",\"error\":\"MaintenanceInfoConflict\"}"
            }
            FixedError::NoPlanChange => {
                b"{\"description\":\"The plan does not allow a change of plan.\"}"
            }
            FixedError::BindingsRemain => {
                b"{\"description\":\"The instance still has bindings.\"}"
            }
            FixedError::Full => { b"{\"description\":\"The instance has no order numbers left.\"}" }
        }
    }
}
