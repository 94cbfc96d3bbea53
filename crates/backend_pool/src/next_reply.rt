use gateway_core::Reply;

/// What a connection has to be written next.
#[derive(Drop)]
pub enum NextReply {
    /// The reply to the next of its requests.
    Ready(Reply),
    /// None yet.
    Pending,
    /// None any more: the connection has ended, and all its replies were taken.
    Over,
}
