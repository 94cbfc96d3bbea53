use crate::record::CallRecord;
use connect_codec::Verdict;
use http_pieces::Refusal;

/// What a request is answered by.
#[derive(Drop)]
pub enum ReplyEntry {
    /// The stream's refusal.
    Refused(Refusal),
    /// A request that is no call, by its verdict; and whether it is the connection's last.
    Judged(Verdict, bool),
    /// A call too many on its connection; and whether it is the connection's last.
    Crowded(bool),
    /// A decided call.
    Call(CallRecord),
}
