//! The status of a reply.

ghost use Rattle.std.specs.Prelude.{◌≡◌};
ghost use Rattle.money_core.specs.Cause.{cause_number};
ghost use Rattle.treasury_api.specs.WebReply.{reason_of, status_of_number};
ghost use Rattle.treasury_api.specs.WebServing.{code_of};

use http::StatusCode;
use money_core::Cause;

/// How a call was answered.
#[derive(Clone, Copy, Debug, PartialEq, Eq)]
pub enum Status {
    Done,
    BadRequest,
    Forbidden,
    NotFound,
    Conflict,
    Unprocessable,
    Internal,
    Unavailable,
}

impl Status {
    /// Its code.
    pub fn code(self) -> StatusCode
        ensures { result ≡ code_of self }
    {
        match self {
            Status::Done => StatusCode::OK,
            Status::BadRequest => StatusCode::BAD_REQUEST,
            Status::Forbidden => StatusCode::FORBIDDEN,
            Status::NotFound => StatusCode::NOT_FOUND,
            Status::Conflict => StatusCode::CONFLICT,
            Status::Unprocessable => StatusCode::UNPROCESSABLE_ENTITY,
            Status::Internal => StatusCode::INTERNAL_SERVER_ERROR,
            Status::Unavailable => StatusCode::SERVICE_UNAVAILABLE,
        }
    }

    /// The phrase after its code.
    pub fn reason(self) -> &'static str
        ensures { result.now ≡ reason_of (code_of self) }
    {
        match self.code().canonical_reason() {
            Some(reason) => reason,
            None => "",
        }
    }
}

/// The status of a refusal by this cause.
pub fn status_of(cause: Cause) -> Status
    ensures { code_of result ≡ status_of_number (cause_number cause) }
{
    match cause.nr() {
        44 => Status::BadRequest,
        20..=39 | 47..=48 => Status::Conflict,
        1..=18 => Status::Unprocessable,
        43 => Status::Internal,
        _ => Status::Unavailable,
    }
}
