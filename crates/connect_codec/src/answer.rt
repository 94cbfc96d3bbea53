use error_document::RpcError;
use http_pieces::Bytes;

/// How a branch ended.
#[derive(Debug, Drop, PartialEq, Eq)]
pub enum Outcome {
    /// The backend's answer, JSON, byte for byte.
    Answer(Bytes),
    /// The branch failed.
    Fail(RpcError),
}
