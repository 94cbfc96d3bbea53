//! A call's hook round a box with a closure in it, whose contract is what the hook asks of its box.
ghost use Rattle.std.specs.Prelude.{IfOk};
ghost use Rattle.gateway_model.specs.Duty.{MeetsDuty};

use after_funcs::Hook;
use gateway_core::{CallHook, Ending, ending_reply};
use http_pieces::Bytes;
use std::alloc::{AllocError, Global};

/// The reply to an ending, as a boxed closure makes it.
pub fn reply_by_a_box(alloc: Global, ending: Ending) -> Result<Bytes, AllocError>
    ensures { IfOk result (λ bytes. MeetsDuty ending bytes) }
{
    let call: Box<dyn FnOnce(Ending) -> Result<Bytes, AllocError> + Send> = Box::new(
        alloc,
        move |ending: Ending| ending_reply(alloc, ending),
    )?;
    CallHook::new(call).run(ending)
}
