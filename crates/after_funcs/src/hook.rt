ghost use Rattle.std.specs.Prelude.{Result, IfOk};
ghost use Rattle.std.specs.declared.alloc.AllocError.{AllocError};

use std::alloc::AllocError;

/// A callback that is called once, with the event that ended its context, and its duty: on which events it may be
/// called, and what an answer has to do with the event.
pub trait Hook<E: Drop, O> {
    /// It may be called on this event.
    ghost allows: { E → Type 0 };

    /// This is an answer to that event.
    ghost meets: { E → O → Type 0 };

    /// This callback, called on that event, may return this.
    ghost gives: { Self → E → Result O AllocError → Type 0 };

    /// Calls it, which consumes it whether it answers or finds no memory.
    fn run(self, event: E) -> Result<O, AllocError>
        requires { allows event }
        ensures called { gives self event result }
        ensures duty { IfOk result (λ answer. meets event answer) };
}
