ghost use Rattle.std.specs.Prelude.{◌≡◌};
ghost use Rattle.gateway_model.specs.declared.run.RunError.TheVariants.{Memory};

use std::alloc::AllocError;
use thiserror::Error;

/// A branch started: at which event, and which one.
#[derive(Clone, Copy, PartialEq, Eq, Debug)]
pub struct Start {
    /// The event's place in the list, from 0.
    pub event: u64,
    pub conn: u64,
    pub request: u64,
    pub branch: u32,
}

/// Why a run has no outcome.
#[derive(Clone, Copy, PartialEq, Eq, Debug, Error)]
pub enum RunError {
    /// There is not one stock of hooks for each opening.
    #[error("not one stock of hooks for each opening")]
    Stocks,
    /// The core, or the run's own lists, found no memory.
    #[error("no memory")]
    Memory,
}

impl From<AllocError> for RunError {
    ghost from_gives = { λ _ e. e ≡ Memory };

    fn from(_error: AllocError) -> RunError {
        RunError::Memory
    }
}
