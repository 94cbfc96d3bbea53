ghost use Rattle.std.specs.Prelude.{◌≡◌};
ghost use Rattle.branch_causes.specs.Causes.{cause_name, cause_of_end, cause_of_failure, cause_of_fault};
ghost use Rattle.branch_causes.specs.Causes.{cause_of_kind, cause_of_loss, is_timeout, settled, status_of_end, status_of_fault};

use branch_exchange::{ExchangeEnd, Loss};
use connect_codec::Outcome;
use error_document::RpcError;
use http::StatusCode;
use http_pieces::ReplyFault;
use std::io::ErrorKind;

/// What ended the asking of a backend.
#[derive(Clone, Copy, PartialEq, Eq, Debug)]
pub enum Cause {
    /// Its answer was taken.
    Answer,
    /// Its status is not 200: it told an error.
    Status,
    /// Its content type is not that of JSON.
    ContentType,
    /// Its body is not JSON.
    NotJson,
    /// The time of the branch or of its call was over.
    Deadline,
    /// Its call had ended, or its client was gone.
    NotWanted,
    /// Its call had ended, or its client was gone, before it got a place: its backend was not asked.
    NeverAsked,
    /// The gateway was drained.
    Drained,
    /// Its address is a name that was not found.
    NoSuchName,
    /// The connection was refused.
    Refused,
    /// There is no way to the address.
    NoRoute,
    /// No port of the gateway's machine was left for the connection.
    NoPort,
    /// The address did not accept the connection in its time.
    NoConnection,
    /// The backend broke the connection.
    Reset,
    /// Reading or writing failed otherwise.
    Failed,
    /// The stream ended before a byte of a reply came.
    NoByte,
    /// The stream ended before the reply was whole.
    ClosedEarly,
    /// The reply came before its request was written whole.
    BeforeRequest,
    /// What came does not begin as a reply does, or its length is badly told.
    BadHead,
    /// The length of its body is not told: it comes in chunks that are not taken, or up to the end of the stream.
    NoFixedLength,
    /// Its body comes in chunks, and these are not as they must be.
    BadChunk,
    /// Its head or its body is too long.
    TooLong,
    /// It came in too many pieces.
    TooManyPieces,
    /// The system had no descriptor for the connection.
    NoDescriptor,
    /// The system or the gateway had no memory.
    NoMemory,
}

impl Cause {
    /// The cause, by the outcome that was recorded of such an exchange; None for want of memory.
    pub fn settled(self, outcome: &Option<Outcome>) -> Cause
        ensures { result ≡ settled self outcome.now }
    {
        match outcome {
            None => Cause::NoMemory,
            Some(Outcome::Fail(error)) if self == Cause::Answer => cause_of_failure(error),
            Some(_) => self,
        }
    }

    /// As the log and the figures name it.
    pub fn name(self) -> &'static str
        ensures { result.now ≡ cause_name self }
    {
        match self {
            Cause::Answer => "answer",
            Cause::Status => "status",
            Cause::ContentType => "unexpected content type",
            Cause::NotJson => "not JSON",
            Cause::Deadline => "deadline",
            Cause::NotWanted => "not wanted any more",
            Cause::NeverAsked => "never asked",
            Cause::Drained => "drained",
            Cause::NoSuchName => "no such name",
            Cause::Refused => "refused",
            Cause::NoRoute => "no route",
            Cause::NoPort => "no port",
            Cause::NoConnection => "no connection in time",
            Cause::Reset => "reset",
            Cause::Failed => "failed",
            Cause::NoByte => "ended without a byte",
            Cause::ClosedEarly => "closed early",
            Cause::BeforeRequest => "reply before the request",
            Cause::BadHead => "bad head",
            Cause::NoFixedLength => "no fixed length",
            Cause::BadChunk => "bad chunk",
            Cause::TooLong => "too long",
            Cause::TooManyPieces => "too many pieces",
            Cause::NoDescriptor => "no descriptor",
            Cause::NoMemory => "no memory",
        }
    }
}

/// What an exchange came to. A reply of status 200 may yet be no answer: `Cause::settled` tells.
pub fn cause_of_end(end: &ExchangeEnd) -> Cause
    ensures { result ≡ cause_of_end end.now }
{
    match end {
        ExchangeEnd::Reply(reply) if reply.status == StatusCode::OK => Cause::Answer,
        ExchangeEnd::Reply(_) => Cause::Status,
        ExchangeEnd::Lost(loss) => cause_of_loss(*loss),
        ExchangeEnd::NoMemory => Cause::NoMemory,
    }
}

/// The status of the reply that an exchange came to, also of one that was refused once its head was read.
pub fn status_of_end(end: &ExchangeEnd) -> Option<u16>
    ensures { result ≡ status_of_end end.now }
{
    match end {
        ExchangeEnd::Reply(reply) => Some(reply.status.as_u16()),
        ExchangeEnd::Lost(Loss::Refused(fault)) => status_of_fault(*fault),
        _ => None,
    }
}

/// Whether it is a reply that says that no request came in time (408, RFC 9110, section 15.5.9).
pub fn is_timeout(end: &ExchangeEnd) -> bool
    ensures { result ≡ is_timeout end.now }
{
    match end {
        ExchangeEnd::Reply(reply) => reply.status.as_u16() == 408,
        _ => false,
    }
}

/// The status of a reply that was refused, if its head was read.
fn status_of_fault(fault: ReplyFault) -> Option<u16>
    ensures { result ≡ status_of_fault fault }
{
    match fault {
        ReplyFault::HeadTooLarge | ReplyFault::NotAHead => None,
        ReplyFault::NotFixedLength(status)
        | ReplyFault::BadLength(status)
        | ReplyFault::BodyTooLarge(status)
        | ReplyFault::BadChunk(status) => Some(status.as_u16()),
    }
}

/// Why no reply came.
fn cause_of_loss(loss: Loss) -> Cause
    ensures { result ≡ cause_of_loss loss }
{
    match loss {
        Loss::NotWanted => Cause::NotWanted,
        Loss::Deadline => Cause::Deadline,
        Loss::NoAddress => Cause::NoSuchName,
        Loss::NotWatched => Cause::NoDescriptor,
        Loss::Write(kind) | Loss::Read(kind) => cause_of_kind(kind),
        Loss::NoByte => Cause::NoByte,
        Loss::End => Cause::ClosedEarly,
        Loss::Refused(fault) => cause_of_fault(fault),
        Loss::Early => Cause::BeforeRequest,
        Loss::Reads => Cause::TooManyPieces,
    }
}

/// Why a reply of status 200 is no answer.
fn cause_of_failure(error: &RpcError) -> Cause
    ensures { result ≡ cause_of_failure error.now }
{
    if error.message.as_str() == "response is not JSON" {
        Cause::NotJson
    } else {
        Cause::ContentType
    }
}

/// Why a read, a write or a connection failed.
fn cause_of_kind(kind: ErrorKind) -> Cause
    ensures { result ≡ cause_of_kind kind }
{
    match kind {
        ErrorKind::ConnectionRefused => Cause::Refused,
        ErrorKind::ConnectionReset | ErrorKind::ConnectionAborted | ErrorKind::BrokenPipe => {
            Cause::Reset
        }
        ErrorKind::HostUnreachable | ErrorKind::NetworkUnreachable | ErrorKind::NetworkDown => {
            Cause::NoRoute
        }
        ErrorKind::AddrNotAvailable => Cause::NoPort,
        ErrorKind::TimedOut => Cause::NoConnection,
        ErrorKind::QuotaExceeded => Cause::NoDescriptor,
        ErrorKind::OutOfMemory => Cause::NoMemory,
        _ => Cause::Failed,
    }
}

/// Why what came is no reply that is taken.
fn cause_of_fault(fault: ReplyFault) -> Cause
    ensures { result ≡ cause_of_fault fault }
{
    match fault {
        ReplyFault::NotAHead | ReplyFault::BadLength(_) => Cause::BadHead,
        ReplyFault::NotFixedLength(_) => Cause::NoFixedLength,
        ReplyFault::HeadTooLarge | ReplyFault::BodyTooLarge(_) => Cause::TooLong,
        ReplyFault::BadChunk(_) => Cause::BadChunk,
    }
}
