/// For what a context is cancelled (Go `context`, `WithCancelCause`).
#[derive(Clone, Copy)]
pub enum CancelledBy {
    /// The peer of its connection hung up.
    HangUp,
    /// The gateway was drained.
    Drain,
}
