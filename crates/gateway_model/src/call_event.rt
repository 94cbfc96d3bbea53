use error_document::RpcError;
use http_pieces::Bytes;

/// An event of a call. Branches are named by their number in the plan, from 0 in declared order.
#[derive(Debug, Drop, PartialEq, Eq)]
pub enum CallEvent {
    /// A branch answered with these bytes, and the answer counted.
    Answer(u32, Bytes),
    /// A branch failed, which decides its call.
    Failed(u32, RpcError),
    /// The deadline was reached at this moment, in milliseconds.
    Expired(u64),
    /// The deadline of a branch that was out was reached at this moment, in milliseconds.
    BranchExpired(u32, u64),
    /// The peer of the connection hung up.
    HungUp,
    /// The gateway was drained.
    Drained,
}
