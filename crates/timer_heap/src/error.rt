use thiserror::Error;

/// Why a timer is not set: the first of these that applies.
#[derive(Clone, Copy, Debug, PartialEq, Eq, Error)]
pub enum SetError {
    /// A timer of that id is waiting.
    #[error("a timer of this id is waiting")]
    Waiting,
    /// 2^62 timers were set already.
    #[error("too many timers were set")]
    Exhausted,
    /// Memory was refused.
    #[error("no memory")]
    Memory,
}
