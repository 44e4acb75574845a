//! The status of a reply (RFC 9110, section 15).

ghost use Rattle.std.specs.Prelude.{◌≡◌};

use http::StatusCode;

/// The statuses that this broker answers with.
#[derive(Clone, Copy, Debug, PartialEq, Eq, Hash)]
pub enum Status {
    Ok,
    Created,
    Accepted,
    BadRequest,
    Unauthorized,
    NotFound,
    Conflict,
    Gone,
    LengthRequired,
    PreconditionFailed,
    PayloadTooLarge,
    UnprocessableEntity,
    InternalServerError,
}

impl Status {
    ghost use Rattle.osb_replies.specs.Status.{code_of, phrase_of};

    /// Its number.
    pub fn code(self) -> StatusCode
        ensures { result ≡ code_of self }
    {
        match self {
            Status::Ok => StatusCode::OK,
            Status::Created => StatusCode::CREATED,
            Status::Accepted => StatusCode::ACCEPTED,
            Status::BadRequest => StatusCode::BAD_REQUEST,
            Status::Unauthorized => StatusCode::UNAUTHORIZED,
            Status::NotFound => StatusCode::NOT_FOUND,
            Status::Conflict => StatusCode::CONFLICT,
            Status::Gone => StatusCode::GONE,
            Status::LengthRequired => StatusCode::LENGTH_REQUIRED,
            Status::PreconditionFailed => StatusCode::PRECONDITION_FAILED,
            Status::PayloadTooLarge => StatusCode::PAYLOAD_TOO_LARGE,
            Status::UnprocessableEntity => StatusCode::UNPROCESSABLE_ENTITY,
            Status::InternalServerError => StatusCode::INTERNAL_SERVER_ERROR,
        }
    }

    /// Its reason phrase.
    pub fn phrase(self) -> &'static str
        ensures { result.now ≡ phrase_of self }
    {
        self.code().canonical_reason().unwrap_or("")
    }
}
