// Statuses of responses.
ghost use Rattle.std.specs.Prelude.{◌≡◌};
ghost use Rattle.desk_responses.specs.Responses.{code_of, phrase_of, refused_with};

use desk_requests::{Methods, Refusal};
use http::StatusCode;

/// The status of a response.
#[derive(Clone, Copy, Debug, PartialEq, Eq)]
pub enum Status {
    /// 200.
    Ok,
    /// 201.
    Created,
    /// 400.
    BadRequest,
    /// 404.
    NotFound,
    /// 405, with the methods that there are.
    MethodNotAllowed(Methods),
    /// 409.
    Conflict,
    /// 411.
    LengthRequired,
    /// 413.
    ContentTooLarge,
    /// 422.
    UnprocessableContent,
    /// 500.
    InternalServerError,
    /// 503.
    ServiceUnavailable,
    /// 507.
    InsufficientStorage,
}

impl Status {
    /// The status of a request that is refused before any command acts.
    pub fn refused_with(refusal: Refusal) -> Status
        ensures { result ≡ refused_with refusal }
    {
        match refusal {
            Refusal::BadRequest => Status::BadRequest,
            Refusal::NotFound => Status::NotFound,
            Refusal::MethodNotAllowed(methods) => Status::MethodNotAllowed(methods),
            Refusal::LengthRequired => Status::LengthRequired,
            Refusal::TooLarge => Status::ContentTooLarge,
        }
    }

    /// The number.
    pub fn code(self) -> StatusCode
        ensures { result ≡ code_of self }
    {
        match self {
            Status::Ok => StatusCode::OK,
            Status::Created => StatusCode::CREATED,
            Status::BadRequest => StatusCode::BAD_REQUEST,
            Status::NotFound => StatusCode::NOT_FOUND,
            Status::MethodNotAllowed(_) => StatusCode::METHOD_NOT_ALLOWED,
            Status::Conflict => StatusCode::CONFLICT,
            Status::LengthRequired => StatusCode::LENGTH_REQUIRED,
            Status::ContentTooLarge => StatusCode::PAYLOAD_TOO_LARGE,
            Status::UnprocessableContent => StatusCode::UNPROCESSABLE_ENTITY,
            Status::InternalServerError => StatusCode::INTERNAL_SERVER_ERROR,
            Status::ServiceUnavailable => StatusCode::SERVICE_UNAVAILABLE,
            Status::InsufficientStorage => StatusCode::INSUFFICIENT_STORAGE,
        }
    }

    /// The phrase.
    pub fn phrase(self) -> &'static str
        ensures { result.now ≡ phrase_of self }
    {
        match self {
            Status::Ok => "OK",
            Status::Created => "Created",
            Status::BadRequest => "Bad Request",
            Status::NotFound => "Not Found",
            Status::MethodNotAllowed(_) => "Method Not Allowed",
            Status::Conflict => "Conflict",
            Status::LengthRequired => "Length Required",
            Status::ContentTooLarge => "Content Too Large",
            Status::UnprocessableContent => "Unprocessable Content",
            Status::InternalServerError => "Internal Server Error",
            Status::ServiceUnavailable => "Service Unavailable",
            Status::InsufficientStorage => "Insufficient Storage",
        }
    }
}
