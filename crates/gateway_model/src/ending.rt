use error_document::RpcError;
use http_pieces::Text;

/// How a call ends that does not succeed.
#[derive(Debug, Drop)]
pub struct Ending {
    pub cause: EndCause,
    /// Whether the reply is its connection's last.
    pub last: bool,
}

/// Why a call ends.
#[derive(Debug, Drop)]
pub enum EndCause {
    /// The branch of this name failed.
    Branch { name: Text, error: RpcError },
    /// The deadline was reached.
    Deadline,
    /// The peer of the connection hung up.
    HangUp,
    /// The gateway was drained.
    Drain,
}
