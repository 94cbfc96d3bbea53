ghost use Rattle.std.specs.Prelude.{Ok, List, ℕ};
ghost use Rattle.gateway_model.specs.Duty.{MeetsDuty};
ghost use Rattle.gateway_model.specs.declared.ending.Ending.{Ending};

use after_funcs::Hook;
use gateway_model::Ending;
use http_pieces::Bytes;
use std::alloc::AllocError;

/// A hook that does what a call asks of its hook.
pub trait ReplyHook: Hook<Ending, Bytes> {
    /// It may be called on every ending.
    ghost always: { (ending : Ending) → Self.allows ending };

    /// An answer is the ending's reply.
    ghost exact: { (ending : Ending) (bytes : List ℕ) → Self.meets ending bytes → MeetsDuty ending bytes };
}

type EndingCall = Box<dyn FnOnce(Ending) -> Result<Bytes, AllocError> + Send>;

/// The hook of a call: a box that makes the reply to the call's ending, as by `ending_reply`.
#[derive(Drop)]
pub struct CallHook {
    call: EndingCall,
    ghost callable: { (ending : _) → pre call ending },
    ghost answers: { (ending : _) (bytes : _) → post call ending (Ok bytes) → MeetsDuty ending bytes },
}

impl CallHook {
    /// A hook round the box, which may be called on every ending, and whose answer is the ending's reply.
    pub fn new(call: Box<dyn FnOnce(Ending) -> Result<Bytes, AllocError> + Send>) -> CallHook
        requires callable { (ending : _) → pre call ending }
        requires answers { (ending : _) (bytes : _) → post call ending (Ok bytes) → MeetsDuty ending bytes }
    {
        CallHook { call }
    }
}

impl Hook<Ending, Bytes> for CallHook {
    ghost allows = { λ ending. Unit {0} };

    ghost meets = { λ ending bytes. MeetsDuty ending bytes };

    ghost gives = { λ hook ending result. EndingCall.post hook.call ending result };

    fn run(self, event: Ending) -> Result<Bytes, AllocError> {
        let CallHook { call } = self;
        call(event)
    }
}

impl ReplyHook for CallHook {
    ghost always = { λ ending. tt };

    ghost exact = { λ ending bytes met. met };
}
