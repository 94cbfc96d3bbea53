ghost use Rattle.std.specs.Prelude.{◌≡◌};
ghost use Rattle.error_document.specs.Codes.{code_name, code_status, code_named, inferred_code};

use http::StatusCode;

/// Why a call failed: an error code of the Connect protocol.
#[derive(Clone, Copy, Debug, PartialEq, Eq)]
pub enum Code {
    /// The caller cancelled the call.
    Canceled,
    /// An error that no other code names.
    Unknown,
    /// The request is wrong, whatever the state of the system.
    InvalidArgument,
    /// The deadline passed before the call was done.
    DeadlineExceeded,
    /// What the request asks for does not exist.
    NotFound,
    /// What the request would make exists already.
    AlreadyExists,
    /// The caller is known and may not do this.
    PermissionDenied,
    /// A limit or a quota is used up.
    ResourceExhausted,
    /// The system is not in the state that the call needs.
    FailedPrecondition,
    /// The call met another one, and may be tried again.
    Aborted,
    /// A part of the request lies outside its range.
    OutOfRange,
    /// The call is not implemented.
    Unimplemented,
    /// Something that must hold was broken.
    Internal,
    /// The service can't be reached for now.
    Unavailable,
    /// Data is lost or broken for good.
    DataLoss,
    /// The caller did not show who it is.
    Unauthenticated,
}

impl Code {
    // Each code once, in the order of `all_codes`.
    const ALL: [Code; 16] = [
        Code::Canceled,
        Code::Unknown,
        Code::InvalidArgument,
        Code::DeadlineExceeded,
        Code::NotFound,
        Code::AlreadyExists,
        Code::PermissionDenied,
        Code::ResourceExhausted,
        Code::FailedPrecondition,
        Code::Aborted,
        Code::OutOfRange,
        Code::Unimplemented,
        Code::Internal,
        Code::Unavailable,
        Code::DataLoss,
        Code::Unauthenticated,
    ];

    /// The name that an error document has for the code.
    pub fn name(self) -> &'static str
        ensures { result.now ≡ code_name self }
    {
        match self {
            Code::Canceled => "canceled",
            Code::Unknown => "unknown",
            Code::InvalidArgument => "invalid_argument",
            Code::DeadlineExceeded => "deadline_exceeded",
            Code::NotFound => "not_found",
            Code::AlreadyExists => "already_exists",
            Code::PermissionDenied => "permission_denied",
            Code::ResourceExhausted => "resource_exhausted",
            Code::FailedPrecondition => "failed_precondition",
            Code::Aborted => "aborted",
            Code::OutOfRange => "out_of_range",
            Code::Unimplemented => "unimplemented",
            Code::Internal => "internal",
            Code::Unavailable => "unavailable",
            Code::DataLoss => "data_loss",
            Code::Unauthenticated => "unauthenticated",
        }
    }

    /// The HTTP status of a reply that carries the code.
    pub fn status(self) -> u16
        ensures { result ≡ code_status self }
    {
        match self {
            Code::InvalidArgument | Code::FailedPrecondition | Code::OutOfRange => 400,
            Code::Unauthenticated => 401,
            Code::PermissionDenied => 403,
            Code::NotFound => 404,
            Code::AlreadyExists | Code::Aborted => 409,
            Code::ResourceExhausted => 429,
            Code::Canceled => 499,
            Code::Unknown | Code::Internal | Code::DataLoss => 500,
            Code::Unimplemented => 501,
            Code::Unavailable => 503,
            Code::DeadlineExceeded => 504,
        }
    }

    /// The code of that name, byte for byte.
    pub fn from_name(name: &[u8]) -> Option<Code>
        ensures { result ≡ code_named name.now }
    {
        for code in &Code::ALL {
            if code.name().as_bytes() == name {
                return Some(*code);
            }
        }
        None
    }
}

/// The code that the status of a reply stands for, where its body names none.
pub fn inferred_code(status: StatusCode) -> Code
    ensures { result ≡ inferred_code status }
{
    match status.as_u16() {
        400 => Code::Internal,
        401 => Code::Unauthenticated,
        403 => Code::PermissionDenied,
        404 => Code::Unimplemented,
        429 | 502 | 503 | 504 => Code::Unavailable,
        _ => Code::Unknown,
    }
}
