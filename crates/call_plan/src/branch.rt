use crate::field_names::FieldNames;
use http_pieces::Text;

/// One request of a plan: who is asked, and under which name the answer stands in the joined reply.
#[derive(Debug, Drop, PartialEq, Eq)]
pub struct Branch {
    /// The key of the answer in the joined reply.
    pub name: Text,
    /// The backend's host and port, as `127.0.0.1:9001`.
    pub address: Text,
    /// The path that the backend is asked for.
    pub path: Text,
    /// How long the branch may take from its start, in milliseconds, 1 to 9,999,999,999; without it, as long as its
    /// call.
    pub timeout_ms: Option<u64>,
    /// The names of the fields of a call's request that the backend is sent too: at most 16 tokens of 1 to 64 bytes,
    /// each once, and none that is kept back.
    pub pass: FieldNames,
}
