ghost use Rattle.std.specs.Prelude.{◌≡◌};
ghost use Rattle.call_plan.specs.declared.error.PlanError.TheVariants.{Memory};

use std::alloc::{AllocError, AllocFailed};
use thiserror::Error;

/// Why a plan, or a file of plans, is refused.
#[derive(Clone, Copy, Debug, PartialEq, Eq, Error)]
pub enum PlanError {
    /// Memory was refused.
    #[error("no memory")]
    Memory,
    /// The text is not a JSON array of plans, or a path, an address or a timeout is not lawful.
    #[error("not a plan")]
    NotAPlan,
    /// A branch's name is not a lower-case letter and then lower-case letters, digits and `_`, 64 bytes at most.
    #[error("bad branch name")]
    BadName,
    /// A plan has no branch.
    #[error("no branch")]
    NoBranch,
    /// A plan has more than 16 branches.
    #[error("more than 16 branches")]
    TooManyBranches,
    /// A plan's limit is 0.
    #[error("limit is 0")]
    ZeroLimit,
    /// Two branches of a plan have one name.
    #[error("repeated branch name")]
    RepeatedName,
    /// Two plans have one path.
    #[error("repeated plan path")]
    RepeatedPath,
    /// There are more than 256 plans.
    #[error("more than 256 plans")]
    TooManyPlans,
}

impl From<AllocError> for PlanError {
    ghost from_gives = { λ _ e. e ≡ Memory };

    fn from(_error: AllocError) -> PlanError {
        PlanError::Memory
    }
}

impl<T: Drop> From<AllocFailed<T>> for PlanError {
    ghost from_gives = { λ _ e. e ≡ Memory };

    fn from(_error: AllocFailed<T>) -> PlanError {
        PlanError::Memory
    }
}
