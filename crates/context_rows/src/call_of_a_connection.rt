//! One call, with a hook of its own: what `CallContexts` asks is met, and what it gives is enough for the next step.
ghost use Rattle.std.specs.Prelude.{◌≡◌, Ok, IfOk};

use after_funcs::Hook;
use call_contexts::CallContexts;
use gateway_model::{CallId, ConnId};
use std::alloc::{AllocError, Global};

/// A hook that answers with the event.
#[derive(Drop)]
struct Echo;

impl Hook<u64, u64> for Echo {
    ghost allows = { λ event. Unit {0} };

    ghost meets = { λ event answer. answer ≡ event };

    ghost gives = { λ hook event result. result ≡ Ok event };

    fn run(self, event: u64) -> Result<u64, AllocError> {
        Ok(event)
    }
}

/// A call begins on a connection and ends: its hook is called with what ended it.
pub fn begun_and_ended(alloc: Global, event: u64) -> Result<u64, AllocError>
    ensures { IfOk result (λ answer. answer ≡ event) }
{
    let mut contexts: CallContexts<u32, u64, Echo> = CallContexts::new(alloc)?;
    let conn = contexts.open()?;
    let id = CallId {
        conn: ConnId::of(0),
        request: 0,
    };
    let Ok(call) = contexts.begin(&id, conn, Some(10), 5, Some(77), Echo) else {
        return Err(AllocError);
    };
    match contexts.end(call, event) {
        Some(answer) => answer,
        None => unreachable!(),
    }
}
