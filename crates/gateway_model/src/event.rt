ghost use Rattle.std.specs.Prelude.{◌≡◌};
ghost use Rattle.gateway_model.specs.Events.{is_opening};

use connect_codec::Outcome;
use http_pieces::Bytes;

/// What may happen to the gateway. A connection is named by its number, a call by its connection and the
/// number of its request, from 0.
#[derive(Debug, Drop, PartialEq, Eq)]
pub enum Event {
    /// A connection is opened.
    Opening,
    /// Bytes of a connection's stream come.
    Piece(u64, Bytes),
    /// A connection's client is gone: nothing more comes of its stream.
    HangUp(u64),
    /// The moment is this, in milliseconds by the caller's clock, which counts from wherever it likes.
    Moment(u64),
    /// A branch of a call ends: connection, request, branch, and how.
    BranchResult(u64, u64, u32, Outcome),
    /// The gateway is drained: each call ends, and so does each that comes later.
    Drain,
    /// A connection is closed, and its calls are dropped.
    Closing(u64),
}

impl Event {
    /// Whether it opens a connection.
    pub fn is_opening(&self) -> bool
        ensures { result ≡ is_opening self.now }
    {
        matches!(self, Event::Opening)
    }
}
