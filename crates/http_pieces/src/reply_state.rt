use crate::reply_fault::ReplyFault;

/// How far a `ReplyReader` is.
#[derive(Clone, Copy, PartialEq, Eq, Debug)]
pub enum ReplyState {
    /// The reply is not whole yet.
    More,
    /// The whole reply waits to be taken.
    Complete,
    /// The reply was refused, and what follows is dropped.
    Refused(ReplyFault),
    /// The reply was taken, and what follows is dropped.
    Ended,
}
