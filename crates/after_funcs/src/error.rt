use thiserror::Error;

/// Why a hook is not registered.
#[derive(Clone, Copy, PartialEq, Eq, Debug, Error)]
pub enum AfterError {
    /// 2^62 hooks were registered.
    #[error("2^62 hooks were registered")]
    Exhausted,
    /// Memory was refused.
    #[error("no memory")]
    Memory,
}
