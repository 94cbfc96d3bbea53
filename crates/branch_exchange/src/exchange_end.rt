ghost use Rattle.std.specs.Prelude.{◌≡◌};
ghost use Rattle.branch_exchange.specs.Outcomes.{asked_of};

use crate::asked::Asked;
use http_pieces::{HttpReply, ReplyFault};
use std::io::ErrorKind;

/// What an exchange came to.
#[derive(Debug, Drop)]
pub enum ExchangeEnd {
    /// The whole reply, to a request that was written whole.
    Reply(HttpReply),
    /// No reply.
    Lost(Loss),
    /// No memory was found for the request or the reply.
    NoMemory,
}

/// Why no reply came.
#[derive(Clone, Copy, PartialEq, Eq, Debug)]
pub enum Loss {
    /// Nobody waits for it any more.
    NotWanted,
    /// The job's deadline came first.
    Deadline,
    /// Its address is a name that was not found.
    NoAddress,
    /// No connection could be watched.
    NotWatched,
    /// The connection was refused, or a write failed, so.
    Write(ErrorKind),
    /// A read failed so.
    Read(ErrorKind),
    /// The stream ended before a byte of a reply came.
    NoByte,
    /// The stream ended before the reply was whole.
    End,
    /// What came is no reply that is taken.
    Refused(ReplyFault),
    /// It came before its request was written whole; or, over a stream that was used before, it may have come before
    /// the request.
    Early,
    /// 131,072 reads left it incomplete.
    Reads,
}

impl ExchangeEnd {
    /// What came of asking, without the cause of a loss.
    pub fn asked(self) -> Asked
        ensures { result ≡ asked_of self }
    {
        match self {
            ExchangeEnd::Reply(reply) => Asked::Reply(reply),
            ExchangeEnd::Lost(_) => Asked::Lost,
            ExchangeEnd::NoMemory => Asked::NoMemory,
        }
    }
}
