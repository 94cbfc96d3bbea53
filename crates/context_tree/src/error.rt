use thiserror::Error;

/// Why a context ended (Go `context`, `Canceled` and `DeadlineExceeded`).
#[derive(Clone, Copy, Debug, PartialEq, Eq, Error)]
pub enum CtxErr {
    /// It, or a context that it derives from, was cancelled.
    #[error("context canceled")]
    Canceled,
    /// Its deadline, or that of a context that it derives from, was reached.
    #[error("context deadline exceeded")]
    DeadlineExceeded,
}

/// What a context was ended for (Go `context`, `Cause`).
#[derive(Clone, Copy, Debug, PartialEq, Eq)]
pub enum Cause<C> {
    /// The cause that the cancel or the deadline gave.
    Given(C),
    /// They gave none: the error itself.
    Plain(CtxErr),
}

/// The id was never given by this tree, or its context was released.
#[derive(Clone, Copy, Debug, PartialEq, Eq, Error)]
#[error("unknown context")]
pub struct Unknown;

/// Why a context is not made: the first of these that applies.
#[derive(Clone, Copy, Debug, PartialEq, Eq, Error)]
pub enum CtxError {
    /// The parent is not known: its id was never given, or it was released.
    #[error("unknown parent context")]
    Unknown,
    /// 2^62 contexts were made already.
    #[error("too many contexts were made")]
    Exhausted,
    /// Memory was refused.
    #[error("no memory")]
    Memory,
}
