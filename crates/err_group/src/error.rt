use thiserror::Error;

/// A task is active or queued, so the limit can't be set.
#[derive(Clone, Copy, Debug, PartialEq, Eq, Error)]
#[error("a task is active or queued")]
pub struct Active;
