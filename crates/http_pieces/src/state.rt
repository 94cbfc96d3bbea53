use crate::refusal::Refusal;

/// How far a `Reader` is.
#[derive(Clone, Copy, PartialEq, Eq, Debug)]
pub enum State {
    /// The next request is not whole yet.
    More,
    /// A whole request waits to be taken.
    Complete,
    /// The stream was refused, and what follows is dropped.
    Refused(Refusal),
    /// The last request was taken, and what follows is dropped.
    Ended,
}
