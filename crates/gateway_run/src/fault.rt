ghost use Rattle.std.specs.Prelude.{◌≡◌};
ghost use Rattle.gateway_run.specs.declared.fault.ScriptError.TheVariants.{Memory};
ghost use Rattle.gateway_run.specs.Script.{IsOfPlans};

use call_plan::PlanError;
use std::alloc::{AllocError, AllocFailed};
use thiserror::Error;

/// Why a script is refused.
#[derive(Clone, Copy, Debug, PartialEq, Eq, Error)]
pub enum ScriptError {
    /// Memory was refused.
    #[error("no memory")]
    Memory,
    /// The text is not a JSON object with the array `plans` and, at `events`, an array of arrays.
    #[error("not a script")]
    NotAScript,
    /// The plans are refused. Never for want of memory, which is `Memory`.
    #[error("bad plans: {0}")]
    Plans(PlanError),
    /// The entry of `events` at that place, from 0, is no event.
    #[error("no event at place {0}")]
    BadEvent(usize),
}

impl From<AllocError> for ScriptError {
    ghost from_gives = { λ _ e. e ≡ Memory };

    fn from(_error: AllocError) -> ScriptError {
        ScriptError::Memory
    }
}

impl<T: Drop> From<AllocFailed<T>> for ScriptError {
    ghost from_gives = { λ _ e. e ≡ Memory };

    fn from(_error: AllocFailed<T>) -> ScriptError {
        ScriptError::Memory
    }
}

impl From<PlanError> for ScriptError {
    ghost from_gives = { λ fault e. IsOfPlans fault e };

    fn from(fault: PlanError) -> ScriptError {
        match fault {
            PlanError::Memory => ScriptError::Memory,
            fault => ScriptError::Plans(fault),
        }
    }
}
