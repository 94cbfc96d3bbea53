ghost use Rattle.std.specs.Prelude.{◌≡◌, false};
ghost use Rattle.gateway_model.specs.declared.seen.Seen.{Seen as Sights};
ghost use Rattle.gateway_theory.specs.declared.fault.StepFault.TheVariants as fault;

use gateway_model::Seen;
use std::alloc::AllocError;
use thiserror::Error;

/// Why no connection was opened.
#[derive(Clone, Copy, PartialEq, Eq, Debug, Error)]
pub enum OpenError {
    /// As many connections are open as may be: 64.
    #[error("too many connections are open")]
    Full,
    /// As many connections were opened as may be: 2^56.
    #[error("no more connections can be opened")]
    Exhausted,
    /// Memory was refused.
    #[error("no memory")]
    Memory,
}

/// Why a step was not made, or not made whole.
#[derive(Clone, Copy, PartialEq, Eq, Debug, Error)]
pub enum StepFault {
    /// There is no such connection, or it is closed, hung up or broken. Nothing changed.
    #[error("the connection is gone")]
    Gone,
    /// A call would begin, and as many were begun as may be: 2^56. The connection is now broken: it queues no more
    /// replies.
    #[error("no more calls can begin")]
    Exhausted,
    /// Memory was refused. The connection is now broken: it queues no more replies.
    #[error("no memory")]
    Memory,
}

impl From<AllocError> for StepFault {
    ghost from_gives = { λ _ e. e ≡ fault.Memory };

    fn from(_error: AllocError) -> StepFault {
        StepFault::Memory
    }
}

/// What came of a branch's result.
#[derive(Clone, Copy, PartialEq, Eq, Debug)]
pub struct Took {
    pub seen: Seen,
    /// Whether the connection broke in this step, for want of memory.
    pub broke: bool,
}

impl Took {
    /// The branch was not out.
    pub fn unknown() -> Took
        ensures { result ≡ record { seen = Sights.Unknown; broke = false } }
    {
        Took {
            seen: Seen::Unknown,
            broke: false,
        }
    }
}
